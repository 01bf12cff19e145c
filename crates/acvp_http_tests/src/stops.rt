//! Stops: while events are under way over a file, a disk fails from a call on, at each call in turn. Opened anew and
//! adopted, the file has the rows after the events that were acknowledged, or after the next one, too.

use crate::disks::{
    Disks, Held, Left, MemoryFile, MemoryStore, OF_A_CRASH, Stop, all_written, closed, disks,
    have_stopped, left_by_a_crash, opened,
};
use crate::rows::{rows, rows_alone};
use crate::scripts::run_over;
use crate::servers::{keys, keys_of, new_desk};
use crate::texts::is_so;
use crate::validation::{AFTERWARDS, AGAIN, ON_THE_SECOND_SESSION, REFUSED, VALIDATION};
use acvp_desk::{Desk, Keys};
use acvp_store::{SqlTables, adopt, create, migrate};
use acvp_store_tests::earlier_schemas::{FIRST_SCHEMA, SECOND_SCHEMA};
use acvp_tables::Tables;
use sqlite::{Alter, Connection};
use std::alloc::Global;
use std::process::Abort;

/// The keys of a run: of zeros, then with a second token key of ones, and then with a second seed of ones.
#[derive(Clone, Copy)]
pub(crate) enum RunKeys {
    First,
    WithSecondToken,
    WithSecondSeed,
}

/// A script with so many events, under the keys of a run.
#[derive(Clone, Copy)]
pub(crate) struct Script<'a> {
    pub keys: RunKeys,
    pub text: &'a [u8],
    pub events: u64,
}

/// What happens to a file.
#[derive(Clone, Copy)]
pub(crate) enum Work<'a> {
    /// The tables are made.
    Creates,

    /// Scripts with an event each are run over one connection, up to the first whose event isn't acknowledged.
    Scripts(&'a [&'a [u8]]),

    /// Statements are run.
    Runs(&'a [&'a str]),

    /// The tables of an earlier schema are moved.
    Migrates,

    /// Nothing: the schema and all rows are read, whether it is a store or not.
    IsRead,

    /// A script is run over a store, and its output is read.
    PutsOut(Script<'a>),

    /// The rows of a store are read, without the schema.
    HasRows,
}

/// What comes of some work: how many events were acknowledged, or whether there is a store, as 1 or 0; and what was
/// read.
#[derive(Drop)]
pub(crate) struct Came {
    pub done: usize,
    pub bytes: Vec<u8>,
}

impl<'a> Work<'a> {
    /// How many events it has.
    fn events(self) -> usize {
        match self {
            Work::Scripts(scripts) => scripts.len(),
            _ => 1,
        }
    }

    /// The same up to an event of its scripts.
    fn up_to(self, events: usize) -> Work<'a> {
        match self {
            Work::Scripts(scripts) => Work::Scripts(scripts.get(..events).unwrap_or(scripts)),
            other => other,
        }
    }
}

/// Whether the output of a script with one event says that it was done or accepted.
pub(crate) fn acknowledges(output: &[u8]) -> bool {
    for place in 0..output.len() {
        if output[place..].starts_with(b"\nHTTP/1.1 200 ") {
            return true;
        }
    }
    output.starts_with(b"order done")
}

/// The keys of a run.
fn keys_in(rt: &impl Abort, run: RunKeys) -> Keys {
    let both = [Some([0; 32]), Some([1; 32])];
    match run {
        RunKeys::First => keys(rt),
        RunKeys::WithSecondToken => keys_of(rt, &both, &[[0; 32]]),
        RunKeys::WithSecondSeed => keys_of(rt, &both, &[[0; 32], [1; 32]]),
    }
}

/// The output of a script.
fn output_of<T: Tables>(
    rt: &impl Abort,
    alloc: Global,
    desk: &mut Desk<T>,
    script: Script<'_>,
) -> Vec<u8> {
    let outcome = run_over(rt, alloc, desk, script.text, Vec::new(alloc));
    is_so(
        rt,
        outcome.answer == Ok(script.events),
        "the events of a script",
    );
    outcome.writer
}

/// The tables after a script, and its output.
fn run_script<T: Tables + Drop>(
    rt: &impl Abort,
    alloc: Global,
    tables: T,
    script: Script<'_>,
) -> (T, Vec<u8>) {
    match new_desk(alloc, keys_in(rt, script.keys), tables) {
        Ok(mut desk) => {
            let output = output_of(rt, alloc, &mut desk, script);
            (desk.into_tables(), output)
        }
        Err((tables, _)) => (tables, Vec::new(alloc)),
    }
}

/// A script with one event, under keys of zeros.
fn one_event(text: &[u8]) -> Script<'_> {
    Script {
        keys: RunKeys::First,
        text,
        events: 1,
    }
}

/// Whether a script with one event is acknowledged.
fn is_done<T: Tables>(rt: &impl Abort, alloc: Global, desk: &mut Desk<T>, script: &[u8]) -> bool {
    acknowledges(&output_of(rt, alloc, desk, one_event(script)))
}

/// The tables after a script with one event, and whether it is acknowledged.
fn scripted<T: Tables + Drop>(
    rt: &impl Abort,
    alloc: Global,
    tables: T,
    script: &[u8],
) -> (T, bool) {
    match new_desk(alloc, keys(rt), tables) {
        Ok(mut desk) => {
            let done = is_done(rt, alloc, &mut desk, script);
            (desk.into_tables(), done)
        }
        Err((tables, _)) => (tables, false),
    }
}

/// The tables after scripts, and how many events were acknowledged.
fn all_scripted<T: Tables + Drop>(
    rt: &impl Abort,
    alloc: Global,
    tables: T,
    scripts: &[&[u8]],
) -> (T, usize) {
    let mut tables = tables;
    for place in 0..scripts.len() {
        let (next, done) = scripted(rt, alloc, tables, scripts[place]);
        tables = next;
        if !done {
            return (tables, place);
        }
    }
    (tables, scripts.len())
}

/// Runs statements. 1 where each of them succeeds.
fn run_all<S: Alter>(connection: &mut Connection<S>, texts: &[&str]) -> usize {
    for text in texts {
        if connection.execute(*text, &[]).is_err() {
            return 0;
        }
    }
    1
}

/// The connection of tables that were made or taken over, or that was handed back, and whether they were.
fn handed_back<S: Alter, E: Drop>(
    answer: Result<SqlTables<S>, (Connection<S>, E)>,
) -> (Connection<S>, bool) {
    match answer {
        Ok(tables) => (tables.into_connection(), true),
        Err((connection, _)) => (connection, false),
    }
}

/// So many events, and nothing that was read.
fn events(alloc: Global, done: usize) -> Came {
    Came {
        done,
        bytes: Vec::new(alloc),
    }
}

/// The same with what comes of it: 1 where they were.
fn counted<S: Alter, E: Drop>(
    alloc: Global,
    answer: Result<SqlTables<S>, (Connection<S>, E)>,
) -> (Connection<S>, Came) {
    let (connection, done) = handed_back(answer);
    (connection, events(alloc, if done { 1 } else { 0 }))
}

/// The tables of a store after some work, and what comes of it.
fn worked<T: Tables + Drop>(
    rt: &impl Abort,
    alloc: Global,
    tables: T,
    work: Work<'_>,
) -> (T, Came) {
    match work {
        Work::Scripts(scripts) => {
            let (tables, done) = all_scripted(rt, alloc, tables, scripts);
            (tables, events(alloc, done))
        }
        Work::PutsOut(script) => {
            let (tables, bytes) = run_script(rt, alloc, tables, script);
            (tables, Came { done: 1, bytes })
        }
        _ => (tables, events(alloc, 1)),
    }
}

/// What is read of a database, which may be a store.
fn read_of<S: Alter>(
    rt: &impl Abort,
    alloc: Global,
    connection: &mut Connection<S>,
    work: Work<'_>,
    came: Came,
) -> Came {
    match work {
        Work::IsRead => Came {
            done: came.done,
            bytes: rows(rt, alloc, connection, came.done == 1),
        },
        Work::HasRows => Came {
            done: came.done,
            bytes: rows_alone(rt, alloc, connection),
        },
        _ => came,
    }
}

/// The connection to a database after work over the store that it may be, and what comes of it.
fn over_the_store<S: Alter + Drop>(
    rt: &impl Abort,
    alloc: Global,
    connection: Connection<S>,
    work: Work<'_>,
) -> (Connection<S>, Came) {
    let (mut connection, came) = match adopt(alloc, connection) {
        Ok(tables) => {
            let (tables, came) = worked(rt, alloc, tables, work);
            (tables.into_connection(), came)
        }
        Err((connection, _)) => (connection, events(alloc, 0)),
    };
    let came = read_of(rt, alloc, &mut connection, work, came);
    (connection, came)
}

/// The connection to a database after some work, and what comes of it.
fn happens<S: Alter + Drop>(
    rt: &impl Abort,
    alloc: Global,
    connection: Connection<S>,
    work: Work<'_>,
) -> (Connection<S>, Came) {
    match work {
        Work::Creates => counted(alloc, create(alloc, connection)),
        Work::Migrates => counted(alloc, migrate(alloc, connection)),
        Work::Runs(texts) => {
            let mut connection = connection;
            let done = run_all(&mut connection, texts);
            (connection, events(alloc, done))
        }
        _ => over_the_store(rt, alloc, connection, work),
    }
}

/// What is left of a connection behind some work.
#[derive(Drop)]
enum Kept<S: Alter> {
    /// The connection.
    Open(Connection<S>),

    /// The store below it: nothing that was committed is copied from the log any more.
    Abandoned(S),
}

/// What is left of a connection behind some work, and what comes of it.
fn keeps<S: Alter + Drop>(
    rt: &impl Abort,
    alloc: Global,
    connection: Connection<S>,
    work: Work<'_>,
    is_abandoned: bool,
) -> (Kept<S>, Came) {
    let (connection, came) = happens(rt, alloc, connection, work);
    if is_abandoned {
        (Kept::Abandoned(connection.into_store()), came)
    } else {
        (Kept::Open(connection), came)
    }
}

/// The same of a connection to files. What is generic over stores is handed this one here alone, since each such place
/// is dear to prove.
fn over_files(
    rt: &impl Abort,
    alloc: Global,
    connection: MemoryFile,
    work: Work<'_>,
    is_abandoned: bool,
) -> (Kept<MemoryStore>, Came) {
    keeps(rt, alloc, connection, work, is_abandoned)
}

/// The connection to files after some work, and what comes of it.
pub(crate) fn goes_on_over(
    rt: &impl Abort,
    alloc: Global,
    connection: MemoryFile,
    work: Work<'_>,
) -> (MemoryFile, Came) {
    let (kept, came) = over_files(rt, alloc, connection, work, false);
    match kept {
        Kept::Open(connection) => (connection, came),
        Kept::Abandoned(_) => panic!(rt; "no connection"),
    }
}

/// The disks as they are after some work, and what comes of it: nothing that was committed is copied from the log any
/// more.
pub(crate) fn stops_over(
    rt: &impl Abort,
    alloc: Global,
    connection: MemoryFile,
    work: Work<'_>,
) -> (Disks, Came) {
    let (kept, came) = over_files(rt, alloc, connection, work, true);
    match kept {
        Kept::Abandoned(store) => (store.close(), came),
        Kept::Open(_) => panic!(rt; "no store"),
    }
}

/// The disks after some work and the close of the file, and what comes of it.
fn tried(rt: &impl Abort, alloc: Global, files: Disks, work: Work<'_>) -> (Disks, Came) {
    match opened(alloc, files) {
        Ok(connection) => {
            let (connection, came) = goes_on_over(rt, alloc, connection, work);
            (closed(connection), came)
        }
        Err(files) => (files, events(alloc, 0)),
    }
}

/// What comes of some work over a database, whose files are opened anew.
fn opened_anew(rt: &impl Abort, alloc: Global, held: &Held, work: Work<'_>) -> Came {
    match opened(alloc, disks(rt, alloc, held, Stop::Never)) {
        Ok(connection) => {
            let (connection, came) = goes_on_over(rt, alloc, connection, work);
            closed(connection);
            came
        }
        Err(_) => events(alloc, 0),
    }
}

/// Whether two databases are both stores or neither, and have the same schema and rows.
fn are_the_same(one: &Came, other: &Came) -> bool {
    one.done == other.done && one.bytes == other.bytes
}

/// What is found when the files are opened anew.
pub(crate) fn looked_at(rt: &impl Abort, alloc: Global, held: &Held) -> Came {
    let found = opened_anew(rt, alloc, held, Work::IsRead);
    // An empty database has the lines of what isn't there, and files that are no database have none.
    is_so(rt, !found.bytes.is_empty(), "a database");
    found
}

/// What the files hold after work that meets no stop.
pub(crate) fn after(rt: &impl Abort, alloc: Global, held: &Held, work: Work<'_>) -> Held {
    let (files, came) = tried(rt, alloc, disks(rt, alloc, held, Stop::Never), work);
    is_so(rt, came.done == work.events(), "all events");
    all_written(rt, alloc, &files)
}

/// Some work, what the files hold before it, and what is found before it and after each of its events.
#[derive(Drop)]
struct Watched<'a> {
    work: Work<'a>,
    held: Held,
    states: Vec<Came>,
}

/// Whether what is found is what it is after so many events.
fn is_after(watched: &Watched<'_>, found: &Came, events: usize) -> bool {
    match watched.states.get(events) {
        Some(state) => are_the_same(found, state),
        None => false,
    }
}

/// Whether what is found is what it is after so many events, or after the next one.
fn is_about(watched: &Watched<'_>, found: &Came, done: usize) -> bool {
    is_after(watched, found, done) || is_after(watched, found, done.saturating_add(1))
}

/// Asserts that the same command goes on with a migration that was stopped.
fn goes_on(rt: &impl Abort, alloc: Global, watched: &Watched<'_>, held: &Held) {
    let again = after(rt, alloc, held, watched.work);
    let found = looked_at(rt, alloc, &again);
    is_so(rt, is_after(watched, &found, 1), "a migration");
}

/// Asserts what a stop leaves: what was there after the events that were acknowledged, or after the next one. Whether
/// it is a migration that was stopped before it changed anything.
fn is_stopped(
    rt: &impl Abort,
    alloc: Global,
    watched: &Watched<'_>,
    held: &Held,
    done: usize,
) -> bool {
    let found = looked_at(rt, alloc, held);
    is_so(rt, is_about(watched, &found, done), "what a stop leaves");
    matches!(watched.work, Work::Migrates) && is_after(watched, &found, done)
}

/// Asserts what a stop leaves, and what a migration then comes to.
fn is_right(rt: &impl Abort, alloc: Global, watched: &Watched<'_>, held: &Held, done: usize) {
    if is_stopped(rt, alloc, watched, held, done) {
        goes_on(rt, alloc, watched, held);
    }
}

/// Asserts what is right of all that a crash may leave.
fn are_right(rt: &impl Abort, alloc: Global, watched: &Watched<'_>, left: &Left, done: usize) {
    for synced in OF_A_CRASH {
        is_right(rt, alloc, watched, &left.held(rt, alloc, synced), done);
    }
}

/// What the disks are after some work that a stop may meet, and how many events were acknowledged.
fn stopped(rt: &impl Abort, alloc: Global, watched: &Watched<'_>, stop: Stop) -> (Disks, usize) {
    let files = disks(rt, alloc, &watched.held, stop);
    let (files, came) = tried(rt, alloc, files, watched.work);
    (files, came.done)
}

/// What a stop was met by: how many events were acknowledged, or nothing where it wasn't met.
fn stops(rt: &impl Abort, alloc: Global, watched: &Watched<'_>, stop: Stop) -> Option<usize> {
    let (mut files, done) = stopped(rt, alloc, watched, stop);
    let is_met = have_stopped(&mut files);
    is_so(rt, is_met || done == watched.work.events(), "all events");
    are_right(rt, alloc, watched, &left_by_a_crash(rt, alloc, files), done);
    if is_met { Some(done) } else { None }
}

/// More calls than any work makes of a disk.
const MANY: u64 = 4000;

/// Stops work at each call of one disk in turn, until it meets the stop no more.
fn stops_at_each(rt: &impl Abort, alloc: Global, watched: &Watched<'_>, of_the_log: bool) {
    let mut before_the_end = 0u64;
    let mut behind_it = 0u64;
    for calls in 0..MANY {
        let stop = if of_the_log {
            Stop::Log(calls)
        } else {
            Stop::Database(calls)
        };
        match stops(rt, alloc, watched, stop) {
            Some(done) if done < watched.work.events() => {
                before_the_end = before_the_end.saturating_add(1);
            }
            Some(_) => behind_it = behind_it.saturating_add(1),
            None => {
                // One of each tells nothing: the first stop, and that behind the last call.
                is_so(rt, 1 < before_the_end && 1 < behind_it, "stops");
                return;
            }
        }
    }
    is_so(rt, false, "an end of the work");
}

/// What is found after so many events of some work.
fn state_after(rt: &impl Abort, alloc: Global, held: &Held, work: Work<'_>, events: usize) -> Came {
    let next = after(rt, alloc, held, work.up_to(events));
    looked_at(rt, alloc, &next)
}

/// Asserts that what is found is a store, and differs from what was found last.
fn is_next(rt: &impl Abort, states: &[Came], found: &Came) {
    is_so(rt, found.done == 1, "a store");
    if let Some(last) = states.last() {
        is_so(rt, last.bytes != found.bytes, "a change");
    }
}

/// Puts what is found behind what was found before.
fn put(rt: &impl Abort, states: &mut Vec<Came>, found: Came) {
    states.push(found).ok().expect(rt, "memory");
}

/// What is found before some work and after each of its events, each of which changes it.
fn states(rt: &impl Abort, alloc: Global, held: &Held, work: Work<'_>) -> Vec<Came> {
    let mut all: Vec<Came> = Vec::new(alloc);
    put(rt, &mut all, looked_at(rt, alloc, held));
    for place in 0..work.events() {
        let found = state_after(rt, alloc, held, work, place.saturating_add(1));
        is_next(rt, &all, &found);
        put(rt, &mut all, found);
    }
    all
}

/// Stops work at each call of both disks. What the files hold when it comes to its end.
fn survives(rt: &impl Abort, alloc: Global, held: Held, work: Work<'_>) -> Held {
    let last = after(rt, alloc, &held, work);
    let watched = Watched {
        work,
        states: states(rt, alloc, &held, work),
        held,
    };
    stops_at_each(rt, alloc, &watched, true);
    stops_at_each(rt, alloc, &watched, false);
    last
}

#[test]
fn a_stop_leaves_the_rows_before_an_event_of_a_validation_or_after_it(rt: HostRuntime) {
    let alloc = rt.alloc();
    let mut held = survives(&rt, alloc, Held::nothing(alloc), Work::Creates);
    for script in VALIDATION {
        held = survives(&rt, alloc, held, Work::Scripts(&[*script]));
    }
}

#[test]
fn a_stop_leaves_the_rows_after_what_was_acknowledged_over_one_connection(rt: HostRuntime) {
    let alloc = rt.alloc();
    let held = after(&rt, alloc, &Held::nothing(alloc), Work::Creates);
    survives(&rt, alloc, held, Work::Scripts(VALIDATION));
}

#[test]
fn a_stop_leaves_the_tables_before_a_migration_or_after_it(rt: HostRuntime) {
    let alloc = rt.alloc();
    for schema in &[FIRST_SCHEMA, SECOND_SCHEMA] {
        let nothing = Held::nothing(alloc);
        let held = after(&rt, alloc, &nothing, Work::Runs(*schema));
        survives(&rt, alloc, held, Work::Migrates);
    }
}

/// Asserts what is read of a store by some work, when its files are opened anew.
fn gives(rt: &impl Abort, alloc: Global, held: &Held, work: Work<'_>, wanted: &[u8]) {
    let came = opened_anew(rt, alloc, held, work);
    is_so(rt, came.done == 1, "a store");
    is_so(rt, came.bytes.as_slice() == wanted, "what is read");
}

#[test]
fn a_code_is_used_when_the_file_is_opened_anew(rt: HostRuntime) {
    let alloc = rt.alloc();
    let held = after(&rt, alloc, &Held::nothing(alloc), Work::Creates);
    let logged_in = Work::Scripts(VALIDATION).up_to(2);
    let held = after(&rt, alloc, &held, logged_in);
    gives(&rt, alloc, &held, Work::PutsOut(one_event(AGAIN)), REFUSED);
}

#[test]
fn every_row_is_there_when_the_file_is_opened_anew(rt: HostRuntime) {
    let alloc = rt.alloc();
    let held = after(&rt, alloc, &Held::nothing(alloc), Work::Creates);
    let held = after(&rt, alloc, &held, Work::Scripts(VALIDATION));
    let held = after(&rt, alloc, &held, Work::Scripts(ON_THE_SECOND_SESSION));
    gives(&rt, alloc, &held, Work::HasRows, AFTERWARDS.as_bytes());
}
