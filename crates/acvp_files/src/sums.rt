//! Sums on the pages of a database, by which changed bits are found (SQLite's cksumvfs). A new file has them. The rows
//! of one that has none are copied into a new one, each under its own number.
use crate::copies::{connection_to_part, merge};
use crate::parts::Part;
use crate::progress::RowsCopied;
use crate::rows::count_rows;
use acvp_causes::{has_sums, name_of};
use acvp_connections::{FileFault, fault_of_error};
use acvp_store::create;
use sqlite::{Alter, Connection, FileStore, Row, Rows, Transaction};
use sqlite_disk::Disk;
use sqlite_value::value::ValueRef;
use std::alloc::{AllocGlobal, Global};

/// About how many bytes of rows are written in one transaction.
const BATCH_BYTES: usize = 1 << 22;

/// A table whose rows are copied.
#[derive(Clone, Copy)]
struct Copied {
    /// The statement that reads its rows.
    read: &'static str,

    /// The statement that writes one.
    write: &'static str,
}

/// The tables, each behind those that its rows refer to. A row that no column numbers has its number as `rowid`.
static TABLES: [Copied; 7] = [
    Copied {
        read: "SELECT account, secret, enabled, last_step FROM account",
        write: "INSERT INTO account (account, secret, enabled, last_step) VALUES (?1, ?2, ?3, ?4)",
    },
    Copied {
        read: "SELECT request, account, kind, body, status, approved FROM request",
        write: "INSERT INTO request (request, account, kind, body, status, approved) VALUES (?1, ?2, ?3, ?4, ?5, ?6)",
    },
    Copied {
        read: "SELECT rowid, kind, number, account, body FROM object",
        write: "INSERT INTO object (rowid, kind, number, account, body) VALUES (?1, ?2, ?3, ?4, ?5)",
    },
    Copied {
        read: "SELECT session, account, sample, created, cancelled, certify, live, passed FROM session",
        write: "INSERT INTO session (session, account, sample, created, cancelled, certify, live, passed) VALUES (?1, ?2, ?3, ?4, ?5, ?6, ?7, ?8)",
    },
    Copied {
        read: "SELECT vs, session, capability, cancelled, answers, verdicts, disposition, epoch FROM vset2",
        write: "INSERT INTO vset2 (vs, session, capability, cancelled, answers, verdicts, disposition, epoch) VALUES (?1, ?2, ?3, ?4, ?5, ?6, ?7, ?8)",
    },
    Copied {
        read: "SELECT rowid, session, account FROM reviewer",
        write: "INSERT INTO reviewer (rowid, session, account) VALUES (?1, ?2, ?3)",
    },
    Copied {
        read: "SELECT rowid, name, value FROM meta",
        write: "INSERT INTO meta (rowid, name, value) VALUES (?1, ?2, ?3)",
    },
];

/// The values of a row.
fn values_of(alloc: Global, row: &Row) -> Result<Vec<ValueRef<'_>>, FileFault> {
    let mut values = Vec::new(alloc);
    for place in 0..row.column_count() {
        let value = match row.get_ref(place) {
            Ok(value) => value,
            Err(error) => return Err(fault_of_error(error)),
        };
        if values.push(value).is_err() {
            return Err(FileFault::Memory);
        }
    }
    Ok(values)
}

/// About how many bytes values take.
fn bytes_of(values: &[ValueRef<'_>]) -> usize {
    let mut bytes: usize = 0;
    for value in values {
        let length = match value {
            ValueRef::Text(text) => text.len(),
            ValueRef::Blob(blob) => blob.len(),
            _ => 0,
        };
        bytes = bytes.saturating_add(length).saturating_add(16);
    }
    bytes
}

/// Writes one row, and says about how many bytes it takes.
fn write_row<S: Alter + Drop>(
    alloc: Global,
    batch: &mut Transaction<'_, S>,
    write: &str,
    row: &Row,
) -> Result<usize, FileFault> {
    let values = values_of(alloc, row)?;
    match batch.execute(write, values.as_slice()) {
        Ok(_) => Ok(bytes_of(values.as_slice())),
        Err(error) => Err(fault_of_error(error)),
    }
}

/// Writes the rows that come next, about as many as one transaction is for, and says how many, and whether more may
/// come.
fn write_next<S: Alter + Drop, T: Alter + Drop>(
    alloc: Global,
    rows: &mut Rows<'_, S>,
    batch: &mut Transaction<'_, T>,
    write: &str,
) -> Result<(u64, bool), FileFault> {
    let mut bytes: usize = 0;
    for count in 0..u64::MAX {
        if bytes >= BATCH_BYTES {
            return Ok((count, true));
        }
        match rows.next() {
            Ok(Some(row)) => bytes = bytes.saturating_add(write_row(alloc, batch, write, row)?),
            Ok(None) => return Ok((count, false)),
            Err(error) => return Err(fault_of_error(error)),
        }
    }
    Ok((u64::MAX, true))
}

/// Writes the rows that come next in a transaction, and says how many, and whether more may come.
fn copy_next<S: Alter + Drop, T: Alter + Drop>(
    alloc: Global,
    rows: &mut Rows<'_, S>,
    to: &mut Connection<T>,
    write: &str,
) -> Result<(u64, bool), FileFault> {
    if !to.is_autocommit() {
        return Err(FileFault::Unavailable);
    }
    let mut batch = to.transaction();
    let written = write_next(alloc, rows, &mut batch, write)?;
    match batch.commit() {
        Ok(()) => Ok(written),
        Err(error) => Err(fault_of_error(error)),
    }
}

/// Copies the rows of a table.
fn copy_table<S: Alter + Drop, T: Alter + Drop>(
    alloc: Global,
    from: &mut Connection<S>,
    to: &mut Connection<T>,
    table: Copied,
    progress: &mut RowsCopied<'_>,
) -> Result<(), FileFault> {
    let mut rows = match from.query(table.read, &[]) {
        Ok(rows) => rows,
        Err(error) => return Err(fault_of_error(error)),
    };
    for _ in 0..u64::MAX {
        let (count, more) = copy_next(alloc, &mut rows, to, table.write)?;
        progress.add(count);
        if !more {
            break;
        }
    }
    Ok(())
}

/// Makes the tables of this version in a database that has none, and gives the connection to them back.
fn with_new_tables<S: Alter + Drop>(
    alloc: Global,
    connection: Connection<S>,
) -> Result<Connection<S>, FileFault> {
    match create(alloc, connection) {
        Ok(tables) => Ok(tables.into_connection()),
        Err((_, fault)) => Err(FileFault::from(fault)),
    }
}

/// Takes out the row that names the version of new tables: it is copied as all others.
fn take_version_out<S: Alter + Drop>(connection: &mut Connection<S>) -> Result<(), FileFault> {
    match connection.execute("DELETE FROM meta", &[]) {
        Ok(_) => Ok(()),
        Err(error) => Err(fault_of_error(error)),
    }
}

/// Copies the rows of all tables.
fn copy_tables<S: Alter + Drop, T: Alter + Drop>(
    alloc: Global,
    from: &mut Connection<S>,
    to: &mut Connection<T>,
    progress: &mut RowsCopied<'_>,
) -> Result<(), FileFault> {
    for table in &TABLES {
        copy_table(alloc, from, to, *table, progress)?;
    }
    Ok(())
}

/// Copies the rows of a database, so many, into tables of this version that have none.
fn fill_tables<S: Alter + Drop, T: Alter + Drop>(
    rt: &HostRuntime,
    from: &mut Connection<S>,
    to: &mut Connection<T>,
    rows: u64,
) -> Result<(), FileFault> {
    take_version_out(to)?;
    let mut progress = RowsCopied::of(rt, rows);
    let outcome = copy_tables(rt.alloc(), from, to, &mut progress);
    progress.end();
    outcome?;
    if count_rows(rt.alloc(), to)? == rows {
        Ok(())
    } else {
        Err(FileFault::Unavailable)
    }
}

/// Makes the tables of this version in a database that has none, and copies the rows of another into them, so many.
fn filled<S: Alter + Drop, T: Alter + Drop>(
    rt: &HostRuntime,
    from: &mut Connection<S>,
    to: Connection<T>,
    rows: u64,
) -> Result<Connection<T>, FileFault> {
    let mut made = with_new_tables(rt.alloc(), to)?;
    match fill_tables(rt, from, &mut made, rows) {
        Ok(()) => Ok(made),
        Err(fault) => Err(fault),
    }
}

/// Copies the rows of a database, so many, into an empty one that a copy is to be.
fn fill<S: Alter + Drop, D: Disk + Drop>(
    rt: &HostRuntime,
    mut from: Connection<S>,
    to: Connection<FileStore<D>>,
    part: &Part,
    rows: u64,
) -> Result<(), FileFault> {
    match filled(rt, &mut from, to, rows) {
        Ok(made) => merge(rt, part, made),
        Err(fault) => Err(fault),
    }
}

/// Copies the rows of a database, so many, into the empty files of a copy.
fn fill_part<S: Alter + Drop>(
    rt: &HostRuntime,
    from: Connection<S>,
    to: &Part,
    rows: u64,
) -> Result<(), FileFault> {
    match connection_to_part(rt, to) {
        Ok(made) => fill(rt, from, made, to, rows),
        Err(fault) => Err(fault),
    }
}

/// Copies the rows of a whole database without a log, so many of the tables of this version, into the empty files of
/// another copy, whose pages get sums.
pub(crate) fn copy_with_sums(
    rt: &HostRuntime,
    from: &Part,
    to: &Part,
    rows: u64,
) -> Result<(), FileFault> {
    match connection_to_part(rt, from) {
        Ok(source) => fill_part(rt, source, to, rows),
        Err(fault) => Err(fault),
    }
}

/// Warns on standard error of a database whose pages have no sums.
pub fn tell_without_sums(rt: &HostRuntime, path: &str) {
    let Ok(name) = name_of(rt, path) else {
        return;
    };
    if let Ok(false) = has_sums(rt, name.as_str()) {
        let _ = eprintln!(rt;
            "warning: pages of {path} have no sums: a restore of a backup gives them some"
        );
    }
}
