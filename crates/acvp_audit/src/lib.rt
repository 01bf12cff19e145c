//! Whether the rows of a database stand for records that have what every run keeps.
#![tactic(auto)]

mod checking;
mod damage;
mod laws;
mod outside;
mod reads;
mod table;

pub use checking::{Watch, check};
pub use damage::{AuditFault, Damage, Totals};
pub use laws::whole_files_begin;
pub use table::Table;
