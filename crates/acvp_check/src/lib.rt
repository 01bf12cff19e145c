//! Whether the rows of a file have what every run keeps: the conditions on one account's rows.
#![tactic(auto)]

mod account;
mod certifications;
mod epochs;
mod finding;
mod laws;
mod near;
mod numbers;
mod objects;
mod owners;
mod registrations;
mod requests;
mod reviewers;
mod rows;
mod sessions;
mod sets;
mod verdicts;
mod walks;

pub use account::judge_account;
pub use finding::{Finding, RowKey, Wrong};
pub use laws::{
    numbered_rows_tell, numbers_select, ordered_records_are_left, whole_records_are_left,
    wrong_records_are_not_left,
};
pub use owners::owners_wrong;
pub use rows::Rows;
