//! The records of the server in SQL tables, over a database in memory or in a file.
#![tactic(auto)]

mod accounts;
mod columns;
mod counts;
mod fault;
mod members;
mod migration;
mod object_ranges;
mod objects;
mod pages;
mod queries;
mod range_laws;
mod ranges;
mod reopening;
mod request_ranges;
mod requests;
mod reviewer_ranges;
mod reviewers;
mod same;
mod sessions;
mod set_ranges;
mod set_texts;
mod sets;
mod setup;
mod store;
mod summaries;
mod version;
mod work;

pub use fault::AdoptFault;
pub use range_laws::{
    account_range_tells, object_ranges_tell, request_ranges_tell, reviewer_ranges_tell,
    session_ranges_tell, set_ranges_tell,
};
pub use ranges::RangeFault;
pub use reopening::reopens;
pub use store::{SqlTables, adopt, create, migrate};
