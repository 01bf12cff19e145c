//! The tables of the records.

/// A table of the records.
#[derive(Clone, Copy, Debug, PartialEq, Eq)]
pub enum Table {
    Account,
    Session,
    Set,
    Object,
    Request,
    Reviewer,
}
