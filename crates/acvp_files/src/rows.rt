//! How many rows a database has, whatever its tables are.

use acvp_connections::{FileFault, fault_of_error};
use sqlite::{Alter, Connection};
use std::alloc::{AllocError, Global};

/// The statement that counts the rows of a table, whose name is quoted (SQLite's documentation, "SQLite Keywords").
fn counting(alloc: Global, table: &str) -> Result<String, AllocError> {
    let mut text = String::from_str(alloc, "SELECT count(*) FROM \"")?;
    for character in table.chars() {
        if character == '"' {
            text.push(character)?;
        }
        text.push(character)?;
    }
    text.push('"')?;
    Ok(text)
}

/// The statements that count the rows of each table.
fn all_counting<S: Alter>(
    alloc: Global,
    connection: &Connection<S>,
) -> Result<Vec<String>, FileFault> {
    let mut statements = Vec::new(alloc);
    for table in connection.schema().tables.as_slice() {
        let Ok(name) = std::str::from_utf8(table.name.as_slice()) else {
            return Err(FileFault::Unavailable);
        };
        if statements.push(counting(alloc, name)?).is_err() {
            return Err(FileFault::Memory);
        }
    }
    Ok(statements)
}

/// How many rows one statement counts.
fn counted<S: Alter + Drop>(
    connection: &mut Connection<S>,
    statement: &str,
) -> Result<u64, FileFault> {
    let row = match connection.query_row(statement, &[]) {
        Ok(row) => row,
        Err(error) => return Err(fault_of_error(error)),
    };
    match row.get(0) {
        Ok(count) => Ok(count),
        Err(error) => Err(fault_of_error(error)),
    }
}

/// How many rows all tables of a database have.
pub(crate) fn count_rows<S: Alter + Drop>(
    alloc: Global,
    connection: &mut Connection<S>,
) -> Result<u64, FileFault> {
    let mut count: u64 = 0;
    for statement in &all_counting(alloc, connection)? {
        count = count.saturating_add(counted(connection, statement.as_str())?);
    }
    Ok(count)
}
