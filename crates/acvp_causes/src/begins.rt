//! How files begin, by which a database is known from another file before it is opened.
ghost use Rattle.std.specs.Prelude.{◌≡◌, ◌≢◌, ◌↔◌, ◌<◌, ◌≤◌, [], IfErr, IfOk, IsTrue, OnOk, length, replicate, take};
ghost use Rattle.std.specs.Io.KnownBytes.{Consumes, IsAtEnd};
ghost use Rattle.std.specs.IoError.{error_kind};
ghost use Rattle.acvp_causes.specs.Begins.{magic};

use std::fs::File;
use std::io::{self, ErrorKind, Read};

/// The bytes of a log that change whenever it is emptied.
pub const LOG_HEADER: usize = 32;

/// How a database begins.
const MAGIC: &[u8] = b"SQLite format 3\0";

/// The most reads that the first bytes of a file are taken in.
const READS: usize = 32;

/// The first bytes that a reader has, as many as there is room for, and how many there are. A read gives one at least,
/// so fewer than there are reads are all that it has.
fn begin_in<R: Read>(reader: &mut R, begin: &mut [u8]) -> io::Result<usize>
    ensures count { IfOk result (λ count. count ≤ length begin.new) }
    ensures bytes { IfOk result (λ count.
        Consumes (R.remaining reader.old) (R.remaining reader.new) (take count begin.new)) }
    ensures whole { IfOk result (λ count. count < READS → count < length begin.new → IsAtEnd (R.remaining reader.new)) }
{
    let mut count = 0;
    for _ in 0..READS {
        if count == begin.len() {
            break;
        }
        match reader.read(&mut begin[count..])? {
            0 => break,
            more => count += more,
        }
    }
    Ok(count)
}

/// The first bytes of a file, as many as there is room for, and how many there are.
pub(crate) fn begin_of(rt: &HostRuntime, path: &str, begin: &mut [u8]) -> io::Result<usize>
    ensures { IfOk result (λ count. count ≤ length begin.new) }
{
    let mut file = File::open(rt, path)?;
    begin_in(&mut file, begin)
}

/// A header that was read, of zeros where there is nothing to read it of.
fn header_read(read: io::Result<usize>, header: [u8; LOG_HEADER]) -> io::Result<[u8; LOG_HEADER]>
    ensures read { OnOk read (result ≡ Ok header) }
    ensures absent { IfErr read (λ error.
        error_kind error ≡ ErrorKind.NotFound → result ≡ Ok (replicate LOG_HEADER 0)) }
    ensures refused { IfErr read (λ error. error_kind error ≢ ErrorKind.NotFound → result ≡ Err error) }
{
    match read {
        Ok(_) => Ok(header),
        Err(error) if error.kind() == ErrorKind::NotFound => Ok([0; LOG_HEADER]),
        Err(error) => Err(error),
    }
}

/// The header of a log, of zeros where there is no log: that is no error.
pub fn header_of(rt: &HostRuntime, log: &str) -> io::Result<[u8; LOG_HEADER]>
    ensures { IfErr result (λ error. error_kind error ≢ ErrorKind.NotFound) }
{
    let mut header = [0; LOG_HEADER];
    let read = begin_of(rt, log, &mut header);
    header_read(read, header)
}

/// Whether a file that begins so begins as a database.
fn begins_database(begin: &[u8]) -> bool
    ensures { IsTrue result ↔ (begin.now ≡ magic) }
{
    begin == MAGIC
}

/// Whether a file that begins so holds something else.
fn begins_other(begin: &[u8]) -> bool
    ensures { IsTrue result ↔ ((begin.now ≢ []) × (begin.now ≢ magic)) }
{
    !begin.is_empty() && !begins_database(begin)
}

/// Whether a file begins as a database.
pub fn is_database(rt: &HostRuntime, path: &str) -> io::Result<bool> {
    let mut begin = [0; MAGIC.len()];
    let count = begin_of(rt, path, &mut begin)?;
    Ok(begins_database(&begin[..count]))
}

/// Whether a file is there that holds something else than a database.
pub fn is_foreign(rt: &HostRuntime, path: &str) -> bool {
    let mut begin = [0; MAGIC.len()];
    match begin_of(rt, path, &mut begin) {
        Ok(count) => begins_other(&begin[..count]),
        Err(_) => false,
    }
}
