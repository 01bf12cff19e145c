//! What is served over lists and over a database in memory.
//!
//! What is generic over tables is handed those of a database in one place alone, `over_a_database`, since each such
//! place is dear to prove.

use crate::connections::{Connected, connects};
use acvp_store::{SqlTables, create};
use acvp_tables::ListTables;
use sqlite::{Connection, MemStore};
use std::alloc::Global;
use std::process::Abort;

/// The tables of a new database in memory.
fn new_tables(rt: &impl Abort, alloc: Global) -> SqlTables<MemStore> {
    let connection = Connection::open_in_memory(alloc).expect(rt, "a connection");
    match create(alloc, connection) {
        Ok(tables) => tables,
        Err(_) => panic!(rt; "no tables"),
    }
}

/// Serves this over a new database in memory.
pub(crate) fn over_a_database(rt: &impl Abort, alloc: Global, connected: Connected) {
    connects(rt, alloc, new_tables(rt, alloc), connected);
}

/// Serves this over empty lists.
pub(crate) fn over_lists(rt: &impl Abort, alloc: Global, connected: Connected) {
    connects(rt, alloc, ListTables::new(alloc), connected);
}

/// Serves this over both.
pub(crate) fn over_both(rt: &impl Abort, alloc: Global, connected: Connected) {
    over_lists(rt, alloc, connected);
    over_a_database(rt, alloc, connected);
}
