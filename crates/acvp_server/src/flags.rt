//! The flags of a command.
use acvp_log::LogForm;

/// The flags of a command.
#[derive(Clone, Copy)]
pub(crate) struct Flags {
    /// Whether it says why it failed: to a terminal, and if it is verbose.
    pub(crate) says_why: bool,

    /// Whether it asks before it gives an order that can't be taken back: somebody is there to answer, and hasn't said
    /// yes beforehand.
    pub(crate) asks: bool,

    /// In which form a line is written for each event that is served, if it is.
    pub(crate) log: Option<LogForm>,

    /// Whether it warns of files that others may read, and tells errors of the network: to a terminal, and if it is
    /// verbose or writes a log. Else standard error has a fault's line alone.
    pub(crate) warns: bool,
}
