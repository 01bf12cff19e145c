//! The files of a database: whole copies of it, sums on its pages, and who may read it.
#![tactic(auto)]

mod backups;
mod copies;
mod fault;
mod naming;
mod parts;
mod privacy;
mod progress;
mod rows;
mod sums;
mod written;

pub use backups::{Restored, backup, restore};
pub use copies::{FileTables, schema_in, schema_of_copy, tables_of_copy};
pub use fault::{CopyFault, Step};
pub use privacy::{remove_empty_log, tell_open, tell_open_database};
pub use sums::tell_without_sums;
pub use written::make_file;
