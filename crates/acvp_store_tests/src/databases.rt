//! The tables over a database in memory: what is made, what is taken over, what is refused, and rows that stand for
//! nothing. What is stored is read back by statements that `acvp_store` doesn't have.
//!
//! The tables of a database are handed to what is generic over tables in one place alone, `takes_over`, since each such
//! place is dear to prove. So the tests are deeds in turn, over one database.

use crate::earlier_schemas::THIRD_SCHEMA_BESIDE_THE_FIRST;
use crate::steps::takes_both;
use crate::words::{cut, is_so};
use acvp_store::{AdoptFault, SqlTables, adopt, create, migrate};
use acvp_tables::StoreFault;
use sqlite::{Connection, Error, MemStore, Row, params};
use std::alloc::Global;
use std::process::Abort;

/// How a database comes to its tables.
#[derive(Clone, Copy)]
pub(crate) enum Way {
    Create,
    Adopt,
    Migrate,
}

/// What is done with a database.
#[derive(Clone, Copy)]
pub(crate) enum Deed {
    /// Its tables are made or taken over, steps and further ones are taken over them (`steps.rt`), and it is handed
    /// back.
    Takes(Way, &'static str, &'static str),

    /// It is handed back as it was, since it has tables, or since it is no store of a known schema.
    IsHandedBack(Way),

    /// Statements are run.
    Runs(&'static str),

    /// Statements fail.
    Fails(&'static str),

    /// Statements give the numbers that they stand behind.
    Gives(&'static str),
}

/// Whether a statement is run.
fn is_run(connection: &mut Connection<MemStore>, text: &str) -> bool {
    connection.execute(text, params![]).is_ok()
}

/// The whole number that a row begins with.
fn number_in(row: &Row) -> Option<i64> {
    let number: Result<i64, Error> = row.get(0);
    number.ok()
}

/// What a statement that gives one whole number gives.
fn number_by(connection: &mut Connection<MemStore>, text: &str) -> Option<i64> {
    match connection.query_row(text, params![]) {
        Ok(row) => number_in(&row),
        Err(_) => None,
    }
}

/// Whether a statement gives the number that it stands behind.
fn is_given(rt: &impl Abort, connection: &mut Connection<MemStore>, line: &str) -> bool {
    let (wanted, text) = cut(line);
    let wanted = wanted.parse::<i64>().ok().expect(rt, "a number");
    number_by(connection, text) == Some(wanted)
}

/// Runs a statement, which comes to what the deed says.
fn states(rt: &impl Abort, connection: &mut Connection<MemStore>, deed: Deed, line: &str) {
    let holds = match deed {
        Deed::Runs(_) => is_run(connection, line),
        Deed::Fails(_) => !is_run(connection, line),
        _ => is_given(rt, connection, line),
    };
    is_so(rt, holds, line);
}

/// Runs the statement of each line.
fn states_all(rt: &impl Abort, connection: &mut Connection<MemStore>, deed: Deed, lines: &str) {
    for line in lines.lines() {
        states(rt, connection, deed, line);
    }
}

/// The tables of a database, or it again, and whether it is no new database or no store of a known schema.
type Answer = Result<SqlTables<MemStore>, (Connection<MemStore>, bool)>;

/// Makes the tables of a database.
fn created(alloc: Global, connection: Connection<MemStore>) -> Answer {
    match create(alloc, connection) {
        Ok(tables) => Ok(tables),
        Err((connection, fault)) => Err((connection, matches!(fault, StoreFault::Refused))),
    }
}

/// Takes the tables of a database over.
fn adopted(alloc: Global, connection: Connection<MemStore>) -> Answer {
    match adopt(alloc, connection) {
        Ok(tables) => Ok(tables),
        Err((connection, fault)) => Err((connection, matches!(fault, AdoptFault::Schema))),
    }
}

/// The same of an earlier schema.
fn migrated(alloc: Global, connection: Connection<MemStore>) -> Answer {
    match migrate(alloc, connection) {
        Ok(tables) => Ok(tables),
        Err((connection, fault)) => Err((connection, matches!(fault, AdoptFault::Schema))),
    }
}

/// Makes the tables of a database, or takes them over.
fn answer_of(alloc: Global, connection: Connection<MemStore>, way: Way) -> Answer {
    match way {
        Way::Create => created(alloc, connection),
        Way::Adopt => adopted(alloc, connection),
        Way::Migrate => migrated(alloc, connection),
    }
}

/// The tables that are made in a database, or that come of taking it over.
pub(crate) fn tables_of(
    rt: &impl Abort,
    alloc: Global,
    connection: Connection<MemStore>,
    way: Way,
) -> SqlTables<MemStore> {
    match answer_of(alloc, connection, way) {
        Ok(tables) => tables,
        Err(_) => panic!(rt; "no tables"),
    }
}

/// The database that is handed back, since it has tables, or since it is no store of a known schema.
fn handed_back(
    rt: &impl Abort,
    alloc: Global,
    connection: Connection<MemStore>,
    way: Way,
) -> Connection<MemStore> {
    match answer_of(alloc, connection, way) {
        Err((connection, true)) => connection,
        Err(_) => panic!(rt; "another fault"),
        Ok(_) => panic!(rt; "not handed back"),
    }
}

/// Makes or takes over the tables of a database, takes steps over them, and hands it back.
fn takes_over(
    rt: &impl Abort,
    alloc: Global,
    connection: Connection<MemStore>,
    way: Way,
    steps: &str,
    further: &str,
) -> Connection<MemStore> {
    let mut tables = tables_of(rt, alloc, connection, way);
    takes_both(rt, alloc, &mut tables, steps, further);
    tables.into_connection()
}

/// Does this with a database.
fn over(
    rt: &impl Abort,
    alloc: Global,
    mut connection: Connection<MemStore>,
    deed: Deed,
) -> Connection<MemStore> {
    match deed {
        Deed::Takes(way, steps, further) => {
            takes_over(rt, alloc, connection, way, steps, further)
        }
        Deed::IsHandedBack(way) => handed_back(rt, alloc, connection, way),
        Deed::Runs(lines) | Deed::Fails(lines) | Deed::Gives(lines) => {
            states_all(rt, &mut connection, deed, lines);
            connection
        }
    }
}

/// A new database in memory in which statements were run.
fn made_by(rt: &impl Abort, alloc: Global, statements: &[&str]) -> Connection<MemStore> {
    let mut connection = Connection::open_in_memory(alloc).ok().expect(rt, "memory");
    for text in statements {
        is_so(rt, is_run(&mut connection, text), text);
    }
    connection
}

/// A new database in memory, in which statements were run, after each of these deeds in turn.
pub(crate) fn after(
    rt: &impl Abort,
    alloc: Global,
    statements: &[&str],
    deeds: &[Deed],
) -> Connection<MemStore> {
    let mut connection = made_by(rt, alloc, statements);
    for deed in deeds {
        connection = over(rt, alloc, connection, *deed);
    }
    connection
}

/// Does each of these, in turn, with a new database in memory in which statements were run.
pub(crate) fn in_memory(rt: &impl Abort, alloc: Global, statements: &[&str], deeds: &[Deed]) {
    after(rt, alloc, statements, deeds);
}

/// The tables are made, and steps are taken over them.
pub(crate) const fn creates(steps: &'static str) -> Deed {
    Deed::Takes(Way::Create, steps, "")
}

/// What a new store holds.
const NEW: &str = "\
7 SELECT count(*) FROM sqlite_schema WHERE type = 'table'
1 SELECT count(*) FROM meta
3 SELECT value FROM meta WHERE name = 'schema'
";

#[test]
fn a_new_store_names_its_schema(rt: HostRuntime) {
    in_memory(
        &rt,
        rt.alloc(),
        &[],
        &[Deed::Takes(Way::Create, "", ""), Deed::Gives(NEW)],
    );
}

/// A session of account 8, and that account.
const SESSION_OF_EIGHT: &str =
    "INSERT INTO session (session, account, sample, created, cancelled, certify, live, passed) VALUES (8000001, 8, 0, 0, 0, NULL, 1, 0)";

const EIGHT: &str =
    "INSERT INTO account (account, secret, enabled, last_step) VALUES (8, x'00', 1, NULL)";

const REFERS: &[Deed] = &[
    Deed::Takes(Way::Create, "", ""),
    Deed::Fails(SESSION_OF_EIGHT),
    Deed::Runs(EIGHT),
    Deed::Runs(SESSION_OF_EIGHT),
    Deed::Gives("1 SELECT count(*) FROM session"),
];

#[test]
fn a_session_refers_to_its_account(rt: HostRuntime) {
    in_memory(&rt, rt.alloc(), &[], REFERS);
}

/// A statement behind which a database names schema 2.
const NAMES_THE_SECOND: &str = "UPDATE meta SET value = 2";

const TAKEN_OVER: &[Deed] = &[
    Deed::Takes(Way::Create, "adds 7: made", ""),
    Deed::IsHandedBack(Way::Create),
    Deed::Takes(Way::Adopt, "account 7: 7 secret enabled -", ""),
    Deed::Runs(NAMES_THE_SECOND),
    Deed::IsHandedBack(Way::Adopt),
];

#[test]
fn a_store_is_taken_over_and_not_made_anew(rt: HostRuntime) {
    in_memory(&rt, rt.alloc(), &[], TAKEN_OVER);
}

const WITH_A_TABLE: &[Deed] = &[
    Deed::Runs("CREATE TABLE other (n INTEGER) STRICT"),
    Deed::IsHandedBack(Way::Create),
    Deed::IsHandedBack(Way::Adopt),
    Deed::Gives("0 SELECT count(*) FROM other"),
];

#[test]
fn a_database_that_has_a_table_is_handed_back(rt: HostRuntime) {
    in_memory(&rt, rt.alloc(), &[], WITH_A_TABLE);
}

/// A set of the first schema.
const OLD_SET: &str =
    "INSERT INTO vset (vs, session, capability, cancelled, answers, verdicts, disposition) VALUES (700000101, 7000001, '', 0, NULL, NULL, NULL)";

const BESIDE_OLD_SETS: &[Deed] = &[
    Deed::Takes(Way::Adopt, "adds 7: made", "begins 7000001: made"),
    Deed::Runs(OLD_SET),
    Deed::IsHandedBack(Way::Adopt),
    Deed::Runs("DELETE FROM vset"),
    Deed::Takes(Way::Adopt, "sets_of 7000001: 700000101 700000102", ""),
    Deed::Runs(NAMES_THE_SECOND),
    Deed::IsHandedBack(Way::Adopt),
];

#[test]
fn an_old_table_of_sets_has_to_be_empty(rt: HostRuntime) {
    in_memory(
        &rt,
        rt.alloc(),
        THIRD_SCHEMA_BESIDE_THE_FIRST,
        BESIDE_OLD_SETS,
    );
}

/// An account, a session, the session of another account and a step that are refused.
const TAKEN: &str = "\
adds 7: made
begins 7000001: made
adds 7: refused
begins 7000001: refused
begins 8000001: refused
logs_in 7 9223372036854775808: refused
";

/// What is left of it.
const ONE_SESSION: &str = "\
1 SELECT count(*) FROM account WHERE last_step IS NULL
1 SELECT count(*) FROM session
2 SELECT count(*) FROM vset2
";

#[test]
fn what_is_taken_or_names_nothing_is_refused(rt: HostRuntime) {
    in_memory(
        &rt,
        rt.alloc(),
        &[],
        &[
            Deed::Takes(Way::Create, TAKEN, ""),
            Deed::Gives(ONE_SESSION),
        ],
    );
}

/// Two approvals, the second of which is refused.
const APPROVED_TWICE: &str = "\
adds 7: made
asks Vendor 7000001: made
approves 7000001 7000001: made
asks Vendor 7000002: made
approves 7000002 7000001: refused
";

/// What is left of it.
const ONE_VENDOR: &str = "\
1 SELECT count(*) FROM object
1 SELECT count(*) FROM request WHERE request = 7000002 AND status = 0 AND approved IS NULL
";

#[test]
fn an_approval_of_a_number_that_is_taken_changes_nothing(rt: HostRuntime) {
    in_memory(
        &rt,
        rt.alloc(),
        &[],
        &[
            Deed::Takes(Way::Create, APPROVED_TWICE, ""),
            Deed::Gives(ONE_VENDOR),
        ],
    );
}

/// Two rows of each kind.
const FILLED: &str = "\
adds 7: made
begins 7000001: made
adds 9: made
begins 7000002: made
puts_in 8: made
puts_in 9: made
passes 700000101 1: made
fails 700000102 1: made
asks Vendor 7000001: made
approves 7000001 7000001: made
asks Vendor 7000002: made
approves 7000002 7000002: made
";

/// A read that meets a row; the same read, once a statement has made the row stand for nothing; a read that meets
/// another row; and the statement. The last six are reads of several rows.
const STAND_FOR_NOTHING: &str = "\
account 7: found|account 7: refused|account 9: found|UPDATE account SET enabled = 2 WHERE account = 7
account 7: found|account 7: refused|account 9: found|UPDATE account SET secret = x'00' WHERE account = 7
status 7000001: found|status 7000001: refused|status 7000002: found|UPDATE request SET status = 7 WHERE request = 7000001
set 700000101: found|set 700000101: refused|set 700000102: found|UPDATE vset2 SET disposition = 3 WHERE vs = 700000101
set 700000101: found|set 700000101: refused|set 700000102: found|UPDATE vset2 SET answers = '[' WHERE vs = 700000101
verdicts 700000101: found|verdicts 700000101: refused|verdicts 700000102: found|UPDATE vset2 SET verdicts = 'x' WHERE vs = 700000101
algorithm 700000101: found|algorithm 700000101: refused|algorithm 700000102: found|UPDATE vset2 SET capability = '{}' WHERE vs = 700000101
object Vendor 7000001: found|object Vendor 7000001: refused|object Vendor 7000002: found|UPDATE object SET body = '[' WHERE kind = 1 AND number = 7000001
session 7000001: found|session 7000001: refused|session 7000002: found|UPDATE session SET created = -1 WHERE session = 7000001
sessions 7 0 20: found|sessions 7 0 20: refused|session 7000002: found|UPDATE session SET sample = 2 WHERE session = 7000001
sets_of 7000001: found|sets_of 7000001: refused|sets_of 7000002: found|UPDATE vset2 SET epoch = -1 WHERE vs = 700000102
greatest_epoch: found|greatest_epoch: refused|session 7000001: found|UPDATE vset2 SET epoch = -1
reviewers_of 7000001: found|reviewers_of 7000001: refused|session 7000001: found|UPDATE reviewer SET account = 70000 WHERE session = 7000001 AND account = 9
vendors 0 20: found|vendors 0 20: refused|object Vendor 7000001: found|UPDATE object SET body = '[' WHERE kind = 1 AND number = 7000002
requests 0 20: found|requests 0 20: refused|status 7000001: found|UPDATE request SET status = 7 WHERE request = 7000002
";

/// What stands before the first stroke of a line, and behind it.
fn split(rt: &impl Abort, line: &'static str) -> (&'static str, &'static str) {
    line.split_once('|').expect(rt, "a part")
}

/// Meets a row that a statement makes stand for nothing, in tables that are made or taken over.
fn meets(rt: &impl Abort, alloc: Global, statements: &[&str], way: Way, line: &'static str) {
    let (before, rest) = split(rt, line);
    let (after, rest) = split(rt, rest);
    let (other, statement) = split(rt, rest);
    in_memory(
        rt,
        alloc,
        statements,
        &[
            Deed::Takes(way, FILLED, before),
            Deed::Runs(statement),
            Deed::Takes(Way::Adopt, after, other),
        ],
    );
}

/// Meets the row of each line.
fn meets_each(rt: &impl Abort, alloc: Global, statements: &[&str], way: Way) {
    for line in STAND_FOR_NOTHING.lines() {
        meets(rt, alloc, statements, way, line);
    }
}

#[test]
fn a_row_that_stands_for_nothing_is_refused_alone(rt: HostRuntime) {
    meets_each(&rt, rt.alloc(), &[], Way::Create);
    meets_each(&rt, rt.alloc(), THIRD_SCHEMA_BESIDE_THE_FIRST, Way::Adopt);
}
