//! The records that the server keeps: their rows, how each is looked up, and how each change leaves them; and their
//! plain form, in lists.
#![tactic(auto)]

mod change;
mod graded;
mod laws;
mod list;
mod rows;
mod summary;
mod tables;

pub use change::{
    Approval, CancelledSet, Change, KeptAnswers, NewAccount, NewCertification, NewRequest,
    NewSession, OrderChange, UsedStep,
};
pub use graded::Graded;
pub use laws::{
    approvals_name_the_account, changes_are_of_one_account, counters_allow, counts_are_kept,
    counts_differ_by_one, epochs_are_bounded, grants_name_the_account, lists_ascend,
    numbers_are_kept, numbers_count, numbers_name, numbers_tell, records_begin_well,
    reviewers_are_added, selections_follow, sets_are_there_once, state_follows,
};
pub use list::ListTables;
pub use rows::{
    AccountRow, Certification, ObjectRow, RequestBody, RequestRow, RequestStatus, ReviewerRow,
    SessionRow, SetRow,
};
pub use summary::{Counted, RequestPurpose, RequestSummary, SetSummary};
pub use tables::{StoreFault, Tables};
