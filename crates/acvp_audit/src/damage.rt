//! What a check of a file finds.

use crate::table::Table;
use acvp_check::Finding;
use acvp_tables::StoreFault;

/// What is wrong with a file.
#[derive(Clone, Copy, Debug, PartialEq, Eq)]
pub enum Damage {
    /// The number of a row, or of a reviewer's session, begins with no account's, 1 to 9999; or an object is of none of
    /// the three kinds.
    Outside(Table, i64),

    /// Of the rows with this account's numbers, the one of this number, or of a reviewer of the session with this
    /// number, stands for nothing.
    Stray(u16, Table, i64),

    /// A condition on the rows with this account's numbers is broken.
    Broken(u16, Finding),
}

/// How many rows there are.
#[derive(Clone, Copy, Debug, PartialEq, Eq)]
pub struct Totals {
    pub accounts: u128,
    pub sessions: u128,
    pub sets: u128,
    pub requests: u128,
}

/// Why a file isn't called whole.
#[derive(Clone, Copy, Debug, PartialEq, Eq)]
pub enum AuditFault {
    /// This is wrong with it.
    Wrong(Damage),

    /// A statement was refused, or memory ran out.
    Store(StoreFault),
}
