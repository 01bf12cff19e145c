//! How far logs have come, by which a copy of one is known to be whole.
ghost use Rattle.std.specs.Prelude.{◌↔◌, IsTrue};
ghost use Rattle.acvp_causes.specs.Marks.{IsWhole};

use crate::begins::{LOG_HEADER, header_of};
use std::fs;
use std::io::{self, ErrorKind};

/// How far a log has come.
#[derive(Clone, Copy)]
pub struct Mark {
    pub header: [u8; LOG_HEADER],
    pub bytes: u64,
}

/// The mark of a log, of zeros if there is none.
pub fn mark_of(rt: &HostRuntime, log: &str) -> io::Result<Mark> {
    let bytes = match fs::metadata(rt, log) {
        Ok(there) => there.len(),
        Err(error) if error.kind() == ErrorKind::NotFound => 0,
        Err(error) => return Err(error),
    };
    let header = header_of(rt, log)?;
    Ok(Mark { header, bytes })
}

/// Whether the copy of a log has all that the log had before, and the log wasn't emptied until after the copy.
pub fn is_whole(before: &Mark, after: &Mark, copy: &Mark) -> bool
    ensures { IsTrue result ↔ IsWhole before.now after.now copy.now }
{
    before.header == after.header && before.header == copy.header && before.bytes <= copy.bytes
}
