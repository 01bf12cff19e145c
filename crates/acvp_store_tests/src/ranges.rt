//! Reads of ranges of numbers over a database in memory, whose rows are made by statements: what is told of them, a
//! row that stands for nothing, and one outside the numbers of all accounts.

use crate::databases::{Deed, Way, after, tables_of};
use crate::reads::{put_fault, put_number, put_word};
use crate::steps::is_told;
use crate::words::{account, cut, is_so, of_words};
use acvp_answers::{Disposition, Verdict};
use acvp_registry::Kind;
use acvp_store::{RangeFault, SqlTables};
use acvp_tables::{AccountRow, ObjectRow, RequestRow, ReviewerRow, SessionRow, SetRow, StoreFault};
use sqlite::MemStore;
use std::alloc::{AllocError, Global};
use std::fmt::Write;
use std::process::Abort;
use std::rt::HostRuntime;

/// Rows of the accounts 7 and 8.
const ROWS: &str = "\
INSERT INTO account (account, secret, enabled, last_step) VALUES (8, x'3131313131313131313131313131313131313131313131313131313131313131', 0, 5)
INSERT INTO account (account, secret, enabled, last_step) VALUES (7, x'3131313131313131313131313131313131313131313131313131313131313131', 1, NULL)
INSERT INTO session (session, account, sample, created, cancelled, certify, live, passed) VALUES (8000001, 8, 0, 60, 1, NULL, 1, 0)
INSERT INTO session (session, account, sample, created, cancelled, certify, live, passed) VALUES (7000002, 7, 1, 60, 0, NULL, 2, 1)
INSERT INTO session (session, account, sample, created, cancelled, certify, live, passed) VALUES (7000001, 7, 0, 60, 0, NULL, 1, 1)
INSERT INTO request (request, account, kind, body, status, approved) VALUES (7000001, 7, 1, '{\"name\":\"V\"}', 1, 7000001)
INSERT INTO request (request, account, kind, body, status, approved) VALUES (7000002, 7, 4, '{\"moduleUrl\":\"/acvp/v1/modules/7000001\",\"oeUrl\":\"/acvp/v1/oes/7000001\",\"session\":7000001}', 0, NULL)
INSERT INTO vset2 (vs, session, capability, cancelled, answers, verdicts, disposition, epoch) VALUES (800000101, 8000001, '{\"algorithm\":\"SHA2-256\",\"messageLength\":[8],\"revision\":\"1.0\"}', 1, NULL, NULL, NULL, 4)
INSERT INTO vset2 (vs, session, capability, cancelled, answers, verdicts, disposition, epoch) VALUES (700000102, 7000001, '{\"algorithm\":\"SHA2-512\",\"messageLength\":[8],\"revision\":\"1.0\"}', 0, NULL, NULL, NULL, 4)
INSERT INTO vset2 (vs, session, capability, cancelled, answers, verdicts, disposition, epoch) VALUES (700000101, 7000001, '{\"algorithm\":\"SHA2-256\",\"messageLength\":[8],\"revision\":\"1.0\"}', 0, '[[1,[\"ab\"]]]', 'pm', 1, 3)
INSERT INTO reviewer (session, account) VALUES (8000001, 7)
INSERT INTO reviewer (session, account) VALUES (7000002, 4)
INSERT INTO reviewer (session, account) VALUES (7000001, 9)
INSERT INTO object (kind, number, account, body) VALUES (1, 8000001, 8, '{\"name\":\"W\"}')
INSERT INTO object (kind, number, account, body) VALUES (1, 7000001, 7, '{\"name\":\"V\"}')
";

/// The tables in memory, with the rows and what further statements make of them.
fn filled(rt: &impl Abort, alloc: Global, statements: &'static str) -> SqlTables<MemStore> {
    let deeds = [
        Deed::Takes(Way::Create, "", ""),
        Deed::Runs(ROWS),
        Deed::Runs(statements),
    ];
    tables_of(rt, alloc, after(rt, alloc, &[], &deeds), Way::Adopt)
}

/// Writes the number of a row behind a space, if memory allows.
fn try_row(text: &mut String, number: i64) -> Result<(), AllocError> {
    write!(text, " {number}")
}

/// Writes the number of a row behind a space.
fn put_row(rt: &impl Abort, text: &mut String, number: i64) {
    try_row(text, number).ok().expect(rt, "memory");
}

/// Writes which row stands for nothing, or the word for another fault.
fn put_stray(rt: &impl Abort, text: &mut String, fault: RangeFault) {
    match fault {
        RangeFault::Stray(number) => {
            put_word(rt, text, "stray");
            put_row(rt, text, number);
        }
        RangeFault::Store(fault) => put_fault(rt, text, fault),
    }
}

/// What a read of a range lists.
type Listed<R> = Result<Vec<R>, RangeFault>;

/// Writes the numbers of accounts.
fn put_accounts(rt: &impl Abort, text: &mut String, listed: Listed<AccountRow>) {
    match listed {
        Ok(rows) => {
            for row in &rows {
                put_number(rt, text, u64::from(row.number));
            }
        }
        Err(fault) => put_stray(rt, text, fault),
    }
}

/// Writes the numbers of sessions.
fn put_sessions(rt: &impl Abort, text: &mut String, listed: Listed<SessionRow>) {
    match listed {
        Ok(rows) => {
            for row in &rows {
                put_number(rt, text, row.number);
            }
        }
        Err(fault) => put_stray(rt, text, fault),
    }
}

/// Writes the numbers of sets.
fn put_sets(rt: &impl Abort, text: &mut String, listed: Listed<SetRow>) {
    match listed {
        Ok(rows) => {
            for row in &rows {
                put_number(rt, text, row.number);
            }
        }
        Err(fault) => put_stray(rt, text, fault),
    }
}

/// Writes the numbers of the sessions that reviewers are of.
fn put_reviewers(rt: &impl Abort, text: &mut String, listed: Listed<ReviewerRow>) {
    match listed {
        Ok(rows) => {
            for row in &rows {
                put_number(rt, text, row.session);
            }
        }
        Err(fault) => put_stray(rt, text, fault),
    }
}

/// Writes the numbers of objects.
fn put_objects(rt: &impl Abort, text: &mut String, listed: Listed<ObjectRow>) {
    match listed {
        Ok(rows) => {
            for row in &rows {
                put_number(rt, text, row.number);
            }
        }
        Err(fault) => put_stray(rt, text, fault),
    }
}

/// Writes the numbers of requests.
fn put_requests(rt: &impl Abort, text: &mut String, listed: Listed<RequestRow>) {
    match listed {
        Ok(rows) => {
            for row in &rows {
                put_number(rt, text, row.number);
            }
        }
        Err(fault) => put_stray(rt, text, fault),
    }
}

/// The tables of numbered rows.
#[derive(Clone, Copy)]
enum Table {
    Accounts,
    Sessions,
    Sets,
    Reviewers,
    Objects,
    Requests,
}

/// The names of tables.
const TABLES: &[(&str, Table)] = &[
    ("accounts", Table::Accounts),
    ("sessions", Table::Sessions),
    ("sets", Table::Sets),
    ("reviewers", Table::Reviewers),
    ("objects", Table::Objects),
    ("requests", Table::Requests),
];

/// The table of this name.
fn table_named(rt: &impl Abort, name: &str) -> Table {
    for (of, table) in TABLES {
        if *of == name {
            return *table;
        }
    }
    panic!(rt; "no table is named {name}")
}

/// Writes the numbers that a table's rows have in the range of an account; of the accounts, in the range of all.
fn tell(
    rt: &impl Abort,
    text: &mut String,
    tables: &mut SqlTables<MemStore>,
    table: Table,
    account: u16,
) {
    match table {
        Table::Accounts => put_accounts(rt, text, tables.accounts_between(1, 9999)),
        Table::Sessions => put_sessions(rt, text, tables.sessions_numbered(account)),
        Table::Sets => put_sets(rt, text, tables.sets_numbered(account)),
        Table::Reviewers => put_reviewers(rt, text, tables.reviewers_numbered(account)),
        Table::Objects => { put_objects(rt, text, tables.objects_numbered(Kind::Vendor, account)) }
        Table::Requests => put_requests(rt, text, tables.requests_numbered(account)),
    }
}

/// Asserts what is told of a range, by a line of the table's name, the account, and the words that are wanted.
fn tells(rt: &impl Abort, alloc: Global, tables: &mut SqlTables<MemStore>, line: &str) {
    let (range, wanted) = line.split_once(':').expect(rt, "a range and its words");
    let (name, words) = cut(range);
    let account = account(rt, of_words(rt, words).first);
    let mut text = String::new(alloc);
    tell(rt, &mut text, tables, table_named(rt, name), account);
    is_told(rt, range, &text, wanted);
}

/// The same of each line.
fn tells_all(rt: &impl Abort, alloc: Global, tables: &mut SqlTables<MemStore>, lines: &str) {
    for line in lines.lines() {
        tells(rt, alloc, tables, line);
    }
}

/// The numbers that are told of ranges.
const TOLD: &str = "\
accounts: 7 8
sessions 7: 7000001 7000002
sessions 8: 8000001
sessions 9:
requests 7: 7000001 7000002
requests 8:
sets 7: 700000101 700000102
sets 8: 800000101
sets 9:
reviewers 7: 7000001 7000002
reviewers 8: 8000001
reviewers 9:
objects 7: 7000001
objects 8: 8000001
objects 9:
";

#[test]
fn the_rows_of_a_range_are_told_in_order(rt: HostRuntime) {
    tells_all(&rt, rt.alloc(), &mut filled(&rt, rt.alloc(), ""), TOLD);
}

/// A statement, a read that meets the row that it makes stand for nothing, with the row's number, and a read that
/// doesn't meet it.
const STRAY: &[(&str, &str)] = &[
    (
        "UPDATE account SET enabled = 2 WHERE account = 8",
        "accounts: stray 8\nsessions 8: 8000001",
    ),
    (
        "UPDATE account SET secret = x'00' WHERE account = 7",
        "accounts: stray 7\nsessions 8: 8000001",
    ),
    (
        "UPDATE session SET sample = 2 WHERE session = 7000002",
        "sessions 7: stray 7000002\nsessions 8: 8000001",
    ),
    (
        "UPDATE session SET created = -1 WHERE session = 8000001",
        "sessions 8: stray 8000001\nsessions 7: 7000001 7000002",
    ),
    (
        "UPDATE request SET status = 7 WHERE request = 7000001",
        "requests 7: stray 7000001\nrequests 8:",
    ),
    (
        "UPDATE request SET body = '[' WHERE request = 7000002",
        "requests 7: stray 7000002\naccounts: 7 8",
    ),
    (
        "UPDATE vset2 SET epoch = -1 WHERE vs = 700000102",
        "sets 7: stray 700000102\nsets 8: 800000101",
    ),
    (
        "UPDATE vset2 SET capability = '{}' WHERE vs = 800000101",
        "sets 8: stray 800000101\nsets 7: 700000101 700000102",
    ),
    (
        "UPDATE vset2 SET answers = NULL WHERE vs = 700000101",
        "sets 7: stray 700000101\nsets 8: 800000101",
    ),
    (
        "UPDATE vset2 SET answers = '[[1, [\"ab\"]]]' WHERE vs = 700000101",
        "sets 7: stray 700000101\nsets 8: 800000101",
    ),
    (
        "UPDATE vset2 SET verdicts = 'px' WHERE vs = 700000101",
        "sets 7: stray 700000101\nsets 8: 800000101",
    ),
    (
        "UPDATE vset2 SET disposition = 2 WHERE vs = 700000101",
        "sets 7: stray 700000101\nsets 8: 800000101",
    ),
    (
        "UPDATE reviewer SET account = 70000 WHERE account = 9",
        "reviewers 7: stray 7000001\nreviewers 8: 8000001",
    ),
    (
        "UPDATE object SET body = '[' WHERE number = 7000001",
        "objects 7: stray 7000001\nobjects 8: 8000001",
    ),
];

#[test]
fn a_row_that_stands_for_nothing_is_told_by_its_number(rt: HostRuntime) {
    for (statement, told) in STRAY {
        tells_all(
            &rt,
            rt.alloc(),
            &mut filled(&rt, rt.alloc(), statement),
            told,
        );
    }
}

/// Asserts that a set is of these session and epoch and not cancelled, and its algorithm.
fn is_set(rt: &impl Abort, set: &SetRow, epoch: u64, algorithm: &str) {
    is_so(rt, set.session == 7000001, "a session");
    is_so(rt, set.epoch == epoch, "an epoch");
    is_so(rt, !set.cancelled, "not cancelled");
    is_so(
        rt,
        set.capability.algorithm().name() == algorithm,
        algorithm,
    );
}

/// Asserts what the answers to a set came to.
fn is_graded(rt: &impl Abort, set: &SetRow) {
    let graded = set.graded.as_ref().expect(rt, "graded");
    let verdicts = graded.verdicts() == [Verdict::Passed, Verdict::Missing].as_slice();
    is_so(rt, verdicts, "verdicts");
    is_so(
        rt,
        graded.disposition() == Disposition::Missing,
        "a disposition",
    );
}

/// Asserts that there are two sets, the first of which has answers.
fn are_two(rt: &impl Abort, sets: &[SetRow]) {
    let [answered, unanswered] = sets else {
        panic!(rt; "not two");
    };
    is_set(rt, answered, 3, "SHA2-256");
    is_graded(rt, answered);
    is_set(rt, unanswered, 4, "SHA2-512");
    is_so(rt, unanswered.graded.is_none(), "not graded");
}

#[test]
fn a_vector_set_is_what_its_columns_say(rt: HostRuntime) {
    let mut tables = filled(&rt, rt.alloc(), "");
    let sets = tables.sets_numbered(7).ok().expect(&rt, "sets");
    are_two(&rt, &sets);
}

/// Writes the number of a row outside, or a dash where there is none.
fn put_outside(rt: &impl Abort, text: &mut String, found: Result<Option<i64>, StoreFault>) {
    match found {
        Ok(Some(number)) => put_row(rt, text, number),
        Ok(None) => put_word(rt, text, "-"),
        Err(fault) => put_fault(rt, text, fault),
    }
}

/// Writes what is told of the rows outside the numbers of all accounts: of accounts, sessions, sets, objects, requests
/// and reviewers.
fn tell_outside(rt: &impl Abort, text: &mut String, tables: &mut SqlTables<MemStore>) {
    put_outside(rt, text, tables.account_outside());
    put_outside(rt, text, tables.session_outside());
    put_outside(rt, text, tables.set_outside());
    put_outside(rt, text, tables.object_outside());
    put_outside(rt, text, tables.request_outside());
    put_outside(rt, text, tables.reviewer_outside());
}

/// What statements put outside: what is told of each table, with a dash where nothing is.
const OUTSIDE: &[(&str, &str)] = &[
    ("", " - - - - - -"),
    (
        "UPDATE account SET enabled = 1 WHERE account = 7",
        " - - - - - -",
    ),
    (
        "INSERT INTO account (account, secret, enabled, last_step) VALUES (10000, x'00', 1, NULL)",
        " 10000 - - - - -",
    ),
    (
        "INSERT INTO session (session, account, sample, created, cancelled, certify, live, passed) VALUES (999999, 7, 0, 60, 0, NULL, 1, 0)",
        " - 999999 - - - -",
    ),
    (
        "INSERT INTO request (request, account, kind, body, status, approved) VALUES (10000000000, 7, 1, '', 0, NULL)",
        " - - - - 10000000000 -",
    ),
    (
        "INSERT INTO request (request, account, kind, body, status, approved) VALUES (-5, 7, 1, '', 0, NULL)",
        " - - - - -5 -",
    ),
    (
        "INSERT INTO vset2 (vs, session, capability, cancelled, answers, verdicts, disposition, epoch) VALUES (99999999, 7000001, '', 0, NULL, NULL, NULL, 0)",
        " - - 99999999 - - -",
    ),
    (
        "INSERT INTO vset2 (vs, session, capability, cancelled, answers, verdicts, disposition, epoch) VALUES (1000000000000, 7000001, '', 0, NULL, NULL, NULL, 0)",
        " - - 1000000000000 - - -",
    ),
    (
        "INSERT INTO session (session, account, sample, created, cancelled, certify, live, passed) VALUES (5, 7, 0, 60, 0, NULL, 1, 0)\nINSERT INTO reviewer (session, account) VALUES (5, 7)",
        " - 5 - - - 5",
    ),
    (
        "INSERT INTO object (kind, number, account, body) VALUES (2, 10000000000, 7, '')",
        " - - - 10000000000 - -",
    ),
    (
        "INSERT INTO object (kind, number, account, body) VALUES (4, 7000009, 7, '')",
        " - - - 7000009 - -",
    ),
];

/// Asserts what is told of the rows outside, with the rows and what further statements make of them.
fn are_outside(rt: &impl Abort, alloc: Global, statements: &'static str, wanted: &str) {
    let mut text = String::new(alloc);
    tell_outside(rt, &mut text, &mut filled(rt, alloc, statements));
    is_told(rt, statements, &text, wanted);
}

#[test]
fn a_row_outside_all_accounts_numbers_is_found(rt: HostRuntime) {
    for (statements, told) in OUTSIDE {
        are_outside(&rt, rt.alloc(), statements, told);
    }
}
