//! Requests out of readers, some of which fail, and their replies into writers.

use crate::over_both_forms::{over_a_database, over_both, over_lists};
use crate::servers::{desk_of_seven, paths};
use crate::streams::{FailsOnce, Interrupted, Narrow};
use crate::texts::{ACCEPTED, LOGIN, LOST, NO_ROUTE, is_so, joined};
use acvp_desk::Desk;
use acvp_http::{Flagged, ServeFault, serve_one};
use acvp_tables::Tables;
use std::alloc::Global;
use std::io::{ErrorKind, Read, Write};
use std::process::Abort;

/// What is served by a desk over new tables.
#[derive(Clone, Copy)]
pub(crate) enum Connected {
    /// Logins that end or fail early, and then a whole one.
    EndsEarly,

    /// Replies into writers that go to each of their bytes.
    WritesEachFront,

    /// A login whose writer has room for this front of its reply, and the same again.
    UsesItsCode(&'static [u8]),

    /// Requests with more behind them.
    LeavesTheRest,

    /// A reader that is always interrupted.
    GivesUp,

    /// A reader that is interrupted at this place.
    GoesOn(usize),
}

/// Serves this.
pub(crate) fn connects<T: Tables + Drop>(
    rt: &impl Abort,
    alloc: Global,
    tables: T,
    connected: Connected,
) {
    let mut desk = desk_of_seven(rt, alloc, tables);
    match connected {
        Connected::EndsEarly => leaves_the_code(rt, alloc, &mut desk),
        Connected::WritesEachFront => writes_each_front(rt, alloc, &mut desk),
        Connected::UsesItsCode(front) => uses_its_code(rt, alloc, &mut desk, front),
        Connected::LeavesTheRest => leaves_what_it_does_not_need(rt, alloc, &mut desk),
        Connected::GivesUp => gives_up(rt, alloc, &mut desk),
        Connected::GoesOn(place) => goes_on(rt, alloc, &mut desk, place),
    }
}

/// The reader and the writer of a request that was served.
#[derive(Drop)]
struct Served<R, W> {
    reader: R,
    writer: W,
}

/// Serves one request, which comes to this answer.
fn serve_over<T: Tables, R: Read + Drop, W: Write + Drop>(
    rt: &impl Abort,
    alloc: Global,
    desk: &mut Desk<T>,
    moment: u64,
    reader: R,
    writer: W,
    wanted: Result<bool, ServeFault>,
) -> Served<R, W> {
    let routes = paths(rt, alloc);
    let mut reader = Flagged::new(reader);
    let mut writer = Flagged::new(writer);
    let ended = serve_one(alloc, &routes, desk, &mut reader, &mut writer, moment);
    is_so(rt, ended.result == wanted, "what a request is answered");
    Served {
        reader: reader.into_inner(),
        writer: writer.into_inner(),
    }
}

/// What an input that is whole is answered at a moment.
fn reply_to<T: Tables>(
    rt: &impl Abort,
    alloc: Global,
    desk: &mut Desk<T>,
    moment: u64,
    input: &[u8],
) -> Vec<u8> {
    let writer = Vec::new(alloc);
    serve_over(rt, alloc, desk, moment, input, writer, Ok(false)).writer
}

/// Asserts that an input is answered at a moment by a reply with this end.
fn is_answered<T: Tables>(
    rt: &impl Abort,
    alloc: Global,
    desk: &mut Desk<T>,
    (moment, input): (u64, &[u8]),
    end: &[u8],
) {
    let reply = reply_to(rt, alloc, desk, moment, input);
    is_so(rt, reply.ends_with(end), "the end of a reply");
}

/// What is written to a login at second 59 whose reader fails at this place in this way.
fn written<T: Tables>(
    rt: &impl Abort,
    alloc: Global,
    desk: &mut Desk<T>,
    (place, fault): (usize, ErrorKind),
    wanted: Result<bool, ServeFault>,
) -> Vec<u8> {
    let reader = FailsOnce {
        bytes: LOGIN,
        place,
        fault: Some(fault),
    };
    serve_over(rt, alloc, desk, 59, reader, Vec::new(alloc), wanted).writer
}

/// Asserts that a login whose reader fails at this place isn't answered.
fn is_not_answered<T: Tables>(rt: &impl Abort, alloc: Global, desk: &mut Desk<T>, place: usize) {
    let fault = (place, ErrorKind::ConnectionReset);
    let written = written(rt, alloc, desk, fault, Err(ServeFault::Read));
    is_so(rt, written.is_empty(), "no answer");
}

/// Asserts that a login at second 59 is accepted.
fn is_accepted<T: Tables>(rt: &impl Abort, alloc: Global, desk: &mut Desk<T>) {
    let whole = reply_to(rt, alloc, desk, 59, LOGIN);
    is_so(rt, whole.as_slice() == ACCEPTED, "a login");
}

/// A login is answered after every front of it was cut off, and after every read of it failed.
fn leaves_the_code<T: Tables>(rt: &impl Abort, alloc: Global, desk: &mut Desk<T>) {
    for end in 0..LOGIN.len() {
        let front = (59, &LOGIN[..end]);
        is_answered(rt, alloc, desk, front, b"{\"error\":\"truncated\"}]");
        is_not_answered(rt, alloc, desk, end);
    }
    is_accepted(rt, alloc, desk);
}

#[test]
fn an_input_that_ends_or_fails_early_leaves_the_code(rt: HostRuntime) {
    over_both(&rt, rt.alloc(), Connected::EndsEarly);
}

/// A writer that has room for so many bytes.
fn narrow(alloc: Global, room: usize) -> Narrow {
    Narrow {
        held: Vec::new(alloc),
        room,
    }
}

/// Asserts that a writer with this room takes no more of the reply.
fn writes_as_far<T: Tables>(
    rt: &impl Abort,
    alloc: Global,
    desk: &mut Desk<T>,
    (moment, request): (u64, &[u8]),
    front: &[u8],
) {
    let writer = narrow(alloc, front.len());
    let wanted = Err(ServeFault::Write);
    let writer = serve_over(rt, alloc, desk, moment, request, writer, wanted).writer;
    is_so(rt, writer.held.as_slice() == front, "a front");
}

/// A reply goes out up to the end of each writer.
fn writes_each_front<T: Tables>(rt: &impl Abort, alloc: Global, desk: &mut Desk<T>) {
    for room in 0..NO_ROUTE.len() {
        writes_as_far(rt, alloc, desk, (90, LOST), &NO_ROUTE[..room]);
    }
}

#[test]
fn a_reply_is_written_as_far_as_the_writer_goes(rt: HostRuntime) {
    over_both(&rt, rt.alloc(), Connected::WritesEachFront);
}

/// A login whose reply is cut off behind this front has used its code.
fn uses_its_code<T: Tables>(rt: &impl Abort, alloc: Global, desk: &mut Desk<T>, front: &[u8]) {
    writes_as_far(rt, alloc, desk, (59, LOGIN), front);
    is_answered(
        rt,
        alloc,
        desk,
        (60, LOGIN),
        b"{\"error\":\"loginRefused\"}]",
    );
}

#[test]
fn a_login_whose_reply_is_cut_has_used_its_code(rt: HostRuntime) {
    for room in 0..ACCEPTED.len() {
        over_both(&rt, rt.alloc(), Connected::UsesItsCode(&ACCEPTED[..room]));
    }
}

/// Asserts that what stands behind a request at a moment stays unread.
fn leaves_the_rest<T: Tables>(
    rt: &impl Abort,
    alloc: Global,
    desk: &mut Desk<T>,
    needed: &[u8],
    moment: u64,
) {
    let input = joined(rt, alloc, &[needed, b"[1]"]);
    let writer = Vec::new(alloc);
    let reader = serve_over(rt, alloc, desk, moment, input.as_slice(), writer, Ok(false)).reader;
    is_so(rt, reader == b"[1]".as_slice(), "the rest");
}

/// Requests at moments, of which all is needed.
const NEEDED: &[(&[u8], u64)] = &[
    (LOGIN, 4102444799),
    (LOST, 90),
    (b"GET / HTTP/1.1\n\n", 90),
    (b"POST / HTTP/1.0\r\ncontent-length: 2097153\r\n\r\n", 90),
    (b"PUT / HTTP/1.0\r\n\r\n", 90),
    (b"\r\nno head\n\n", 90),
    (b"", 4102444800),
];

/// Nothing is read behind what each of these requests needs.
fn leaves_what_it_does_not_need<T: Tables>(rt: &impl Abort, alloc: Global, desk: &mut Desk<T>) {
    for (needed, moment) in NEEDED {
        leaves_the_rest(rt, alloc, desk, *needed, *moment);
    }
    let long = [b'a'; 16384];
    leaves_the_rest(rt, alloc, desk, &long, 90);
}

#[test]
fn what_a_request_does_not_need_stays_unread(rt: HostRuntime) {
    over_both(&rt, rt.alloc(), Connected::LeavesTheRest);
}

/// A reader that is always interrupted is read no more at some time.
fn gives_up<T: Tables>(rt: &impl Abort, alloc: Global, desk: &mut Desk<T>) {
    let writer = Vec::new(alloc);
    let wanted = Err(ServeFault::Turns);
    let writer = serve_over(rt, alloc, desk, 59, Interrupted, writer, wanted).writer;
    is_so(rt, writer.is_empty(), "no answer");
}

#[test]
fn a_reader_that_is_always_interrupted_is_given_up(rt: HostRuntime) {
    over_both(&rt, rt.alloc(), Connected::GivesUp);
}

/// Asserts that a login whose reader is interrupted at this place is accepted.
fn goes_on<T: Tables>(rt: &impl Abort, alloc: Global, desk: &mut Desk<T>, place: usize) {
    let written = written(rt, alloc, desk, (place, ErrorKind::Interrupted), Ok(false));
    is_so(rt, written.as_slice() == ACCEPTED, "a login");
}

#[test]
fn an_interrupted_read_is_tried_again(rt: HostRuntime) {
    for place in 0..LOGIN.len() {
        over_lists(&rt, rt.alloc(), Connected::GoesOn(place));
    }
    over_a_database(&rt, rt.alloc(), Connected::GoesOn(100));
}
