//! How much of a large file a command has copied, as it is told on a terminal.
use acvp_connections::{MEGABYTE, is_told};
use std::io::IsTerminal;

/// The rows from which on a database takes long.
const MANY: u64 = 100000;

/// Says how many bytes of a large file are copied, in a line that is written over.
pub(crate) fn tell_copied(rt: &HostRuntime, copied: u64, all: u64) {
    if is_told(rt, all) {
        let (copied, all) = (copied / MEGABYTE, all / MEGABYTE);
        let _ = eprint!(rt; "\rcopied {copied} of {all} MB ");
    }
}

/// Ends the line that says how many bytes of a large file are copied, if they aren't all.
pub(crate) fn end_copied(rt: &HostRuntime, all: u64) {
    if is_told(rt, all) {
        let _ = eprintln!(rt; "");
    }
}

/// Ends the line that says how many bytes of a large file are copied.
pub(crate) fn tell_copied_whole(rt: &HostRuntime, all: u64) {
    if is_told(rt, all) {
        let megabytes = all / MEGABYTE;
        let _ = eprintln!(rt; "\rcopied {megabytes} of {megabytes} MB ");
    }
}

/// How many rows of a large database are copied, as it is told in a line that is written over.
#[derive(Drop)]
pub(crate) struct RowsCopied<'a> {
    rt: &'a HostRuntime,
    all: u64,
    copied: u64,
    is_told: bool,
}

impl RowsCopied<'_> {
    /// None yet, of so many.
    pub(crate) fn of<'a>(rt: &'a HostRuntime, all: u64) -> RowsCopied<'a> {
        RowsCopied {
            rt,
            all,
            copied: 0,
            is_told: all >= MANY && rt.stderr().is_terminal(),
        }
    }

    /// So many more.
    pub(crate) fn add(&mut self, rows: u64) {
        self.copied = self.copied.saturating_add(rows);
        if self.is_told {
            let (copied, all) = (self.copied, self.all);
            let _ = eprint!(self.rt; "\rcopied {copied} of {all} rows ");
        }
    }

    /// Ends the line.
    pub(crate) fn end(&self) {
        if self.is_told {
            let _ = eprintln!(self.rt; "");
        }
    }
}
