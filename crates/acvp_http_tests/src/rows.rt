//! The rows of a database, as text, by statements that the product doesn't have.

use crate::texts::{is_so, push};
use sqlite::{Alter, Connection, Row};
use std::alloc::Global;
use std::process::Abort;

/// A line for each table and each index.
const SCHEMA: &str =
    "SELECT type || ' ' || name || ' ' || tbl_name || ' ' || coalesce(sql, 'none') FROM sqlite_schema";

/// A line for each row of the tables that every schema has; of the one that the first schema alone has; of the one that
/// is there from the second on; and of the one that the third adds.
const OF_EVERY_SCHEMA: &str =
    "SELECT 'meta ' || name || ' ' || value FROM meta UNION ALL SELECT 'account ' || account || ' ' || hex(secret) || ' ' || enabled || ' ' || coalesce(last_step, 'none') FROM account UNION ALL SELECT 'session ' || session || ' ' || account || ' ' || sample || ' ' || created || ' ' || cancelled || ' ' || coalesce(certify, 'none') || ' ' || live || ' ' || passed FROM session UNION ALL SELECT 'object ' || kind || ' ' || number || ' ' || account || ' ' || body FROM object UNION ALL SELECT 'request ' || request || ' ' || account || ' ' || kind || ' ' || body || ' ' || status || ' ' || coalesce(approved, 'none') FROM request";

const OF_THE_FIRST: &str =
    "SELECT 'vset ' || vs || ' ' || session || ' ' || capability || ' ' || cancelled || ' ' || coalesce('=' || answers, 'none') || ' ' || coalesce('=' || verdicts, 'none') || ' ' || coalesce(disposition, 'none') FROM vset";

const FROM_THE_SECOND: &str =
    "SELECT 'vset2 ' || vs || ' ' || session || ' ' || capability || ' ' || cancelled || ' ' || coalesce('=' || answers, 'none') || ' ' || coalesce('=' || verdicts, 'none') || ' ' || coalesce(disposition, 'none') || ' ' || epoch FROM vset2";

const FROM_THE_THIRD: &str = "SELECT 'reviewer ' || session || ' ' || account FROM reviewer";

/// The lines that a statement gives, or none where the tables aren't there.
fn lines<S: Alter>(connection: &mut Connection<S>, text: &str) -> Option<Vec<Row>> {
    connection.query_all(text, &[]).ok()
}

/// The text of a line.
fn line(rt: &impl Abort, row: &Row) -> String {
    row.get(0).ok().expect(rt, "a text")
}

/// Puts these lines behind bytes.
fn put_lines(rt: &impl Abort, all: &mut Vec<u8>, found: &[Row]) {
    for row in found {
        push(rt, all, line(rt, row).as_bytes());
        push(rt, all, b"\n");
    }
}

/// Puts the lines that a statement gives behind bytes. Where it needn't be answered, its tables may be missing.
fn put<S: Alter>(
    rt: &impl Abort,
    all: &mut Vec<u8>,
    connection: &mut Connection<S>,
    text: &str,
    is_there: bool,
) {
    match lines(connection, text) {
        Some(found) => put_lines(rt, all, &found),
        None => {
            is_so(rt, !is_there, text);
            push(rt, all, b"not there\n");
        }
    }
}

/// Puts all rows behind bytes, a line each.
fn put_tables<S: Alter>(
    rt: &impl Abort,
    all: &mut Vec<u8>,
    connection: &mut Connection<S>,
    is_store: bool,
) {
    put(rt, all, connection, OF_EVERY_SCHEMA, is_store);
    put(rt, all, connection, OF_THE_FIRST, false);
    put(rt, all, connection, FROM_THE_SECOND, is_store);
    put(rt, all, connection, FROM_THE_THIRD, is_store);
}

/// The schema and all rows, a line each. A store has its tables.
pub(crate) fn rows<S: Alter>(
    rt: &impl Abort,
    alloc: Global,
    connection: &mut Connection<S>,
    is_store: bool,
) -> Vec<u8> {
    let mut all = Vec::new(alloc);
    put(rt, &mut all, connection, SCHEMA, true);
    put_tables(rt, &mut all, connection, is_store);
    all
}

/// All rows, a line each, without the schema.
pub(crate) fn rows_alone<S: Alter>(
    rt: &impl Abort,
    alloc: Global,
    connection: &mut Connection<S>,
) -> Vec<u8> {
    let mut all = Vec::new(alloc);
    put_tables(rt, &mut all, connection, true);
    all
}
