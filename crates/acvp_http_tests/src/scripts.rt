//! What a script leaves in the tables when its reader or its writer fails, over lists. No program shows this: when a
//! script ends, its tables are gone.

use crate::servers::{desk_over, keys, paths};
use crate::streams::{FailsOnce, Narrow};
use crate::texts::{ACCEPTED, is_so, joined};
use acvp_desk::Desk;
use acvp_http::{Flagged, ScriptFault, run};
use acvp_tables::{AccountRow, ListTables, Tables};
use std::alloc::Global;
use std::io::{ErrorKind, Read, Write};
use std::process::Abort;

/// What a run answered, whether its reader and its writer had failed, and its writer.
#[derive(Drop)]
pub(crate) struct Outcome<W> {
    pub answer: Result<u64, ScriptFault>,
    has_read_fault: bool,
    has_write_fault: bool,
    pub writer: W,
}

/// Runs a script out of a reader, with its output into a writer.
pub(crate) fn run_over<T: Tables, R: Read + Drop, W: Write + Drop>(
    rt: &impl Abort,
    alloc: Global,
    desk: &mut Desk<T>,
    reader: R,
    writer: W,
) -> Outcome<W> {
    let routes = paths(rt, alloc);
    let mut reader = Flagged::new(reader);
    let mut writer = Flagged::new(writer);
    let answer = run(alloc, &routes, desk, &mut reader, &mut writer);
    Outcome {
        answer,
        has_read_fault: reader.failed(),
        has_write_fault: writer.failed(),
        writer: writer.into_inner(),
    }
}

/// Account 7 is added, logs in by the code that RFC 6238 gives for second 59 and SHA-256, and is disabled.
const EVENTS: &[&[u8]] = &[
    b"account-add 0 7 3132333435363738393031323334353637383930313233343536373839303132\n",
    b"request 59 126\nPOST /acvp/v1/login HTTP/1.1\r\nHost: localhost\r\nContent-Length: 57\r\n\r\n[{\"acvVersion\":\"1.0\"},{\"password\":\"46119246\",\"user\":\"7\"}]\n",
    b"account-disable 60 7\n",
];

/// How many of these parts end within so many bytes.
fn end_within(parts: &[&[u8]], bytes: usize) -> usize {
    let mut left = bytes;
    for (place, part) in parts.iter().enumerate() {
        if left < part.len() {
            return place;
        }
        left -= part.len();
    }
    parts.len()
}

/// A desk over empty lists.
fn new_desk_of_lists(rt: &impl Abort, alloc: Global) -> Desk<ListTables> {
    desk_over(rt, alloc, keys(rt), ListTables::new(alloc))
}

/// Whether an account is what so many of the events made of it; second 59 is in step 1.
fn is_after(account: AccountRow, count: usize) -> bool {
    let last_step = if count < 2 { None } else { Some(1) };
    0 < count && account.last_step == last_step && account.enabled == (count < 3)
}

/// Asserts that so many of the events have happened, and none behind them.
fn have_happened(rt: &impl Abort, desk: Desk<ListTables>, count: usize) {
    let mut tables = desk.into_tables();
    let have_happened = match tables.account(7) {
        Ok(Some(account)) => is_after(account, count),
        Ok(None) => count == 0,
        Err(_) => false,
    };
    is_so(rt, have_happened, "what has happened");
}

/// Runs the events out of a reader that fails at this place.
fn reads_up_to(
    rt: &impl Abort,
    alloc: Global,
    desk: &mut Desk<ListTables>,
    script: &[u8],
    place: usize,
) {
    let reader = FailsOnce {
        bytes: script,
        place,
        fault: Some(ErrorKind::ConnectionReset),
    };
    let outcome = run_over(rt, alloc, desk, reader, Vec::new(alloc));
    let is_read = matches!(outcome.answer, Err(ScriptFault::Read));
    is_so(rt, is_read, "a fault of a reader");
    let has_failed = outcome.has_read_fault && !outcome.has_write_fault;
    is_so(rt, has_failed, "a reader alone");
}

/// Asserts what has happened once a reader has failed at this place.
fn ends_at(rt: &impl Abort, alloc: Global, script: &[u8], place: usize) {
    let mut desk = new_desk_of_lists(rt, alloc);
    reads_up_to(rt, alloc, &mut desk, script, place);
    have_happened(rt, desk, end_within(EVENTS, place));
}

#[test]
fn an_event_that_is_not_read_whole_has_not_happened(rt: HostRuntime) {
    let script = joined(&rt, rt.alloc(), EVENTS);
    for place in 0..=script.len() {
        ends_at(&rt, rt.alloc(), &script, place);
    }
}

/// Runs the events into a writer that has this room for their answers.
fn writes_up_to(
    rt: &impl Abort,
    alloc: Global,
    desk: &mut Desk<ListTables>,
    script: &[u8],
    room: usize,
) {
    let writer = Narrow {
        held: Vec::new(alloc),
        room,
    };
    let outcome = run_over(rt, alloc, desk, script, writer);
    let is_written = matches!(outcome.answer, Err(ScriptFault::Write));
    is_so(rt, is_written, "a fault of a writer");
    let has_failed = outcome.has_write_fault && !outcome.has_read_fault;
    is_so(rt, has_failed, "a writer alone");
}

/// The answers to the events.
const ANSWERS: [&[&[u8]]; 3] = [
    &[b"order done\n"],
    &[b"reply 292\n", ACCEPTED, b"\n"],
    &[b"order done\n"],
];

/// How many bytes these parts have.
fn length_of(parts: &[&[u8]]) -> usize {
    let mut length = 0usize;
    for part in parts {
        length = length.saturating_add(part.len());
    }
    length
}

/// How many of the answers end within so many bytes.
fn answered_within(bytes: usize) -> usize {
    let mut left = bytes;
    for (place, parts) in ANSWERS.iter().enumerate() {
        let length = length_of(parts);
        if left < length {
            return place;
        }
        left = left.saturating_sub(length);
    }
    ANSWERS.len()
}

/// Asserts what has happened once a writer has had this room.
fn ends_with_room(rt: &impl Abort, alloc: Global, script: &[u8], room: usize) {
    let mut desk = new_desk_of_lists(rt, alloc);
    writes_up_to(rt, alloc, &mut desk, script, room);
    have_happened(rt, desk, answered_within(room).saturating_add(1));
}

/// How many bytes the answers have.
fn length_of_answers() -> usize {
    let mut length = 0usize;
    for parts in &ANSWERS {
        length = length.saturating_add(length_of(parts));
    }
    length
}

#[test]
fn an_event_whose_answer_is_cut_has_happened(rt: HostRuntime) {
    let script = joined(&rt, rt.alloc(), EVENTS);
    for room in 0..length_of_answers() {
        ends_with_room(&rt, rt.alloc(), &script, room);
    }
}
