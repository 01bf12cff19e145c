//! Whether a file is locked: as the system's table of locks tells, and if that doesn't tell, by a lock that is tried.
ghost use Rattle.std.specs.Prelude.{◌≡◌};
ghost use Rattle.acvp_causes.specs.Devices.{major_of, minor_of};

use crate::names::unless_refused;
use std::alloc::{AllocError, AllocGlobal, Global};
use std::fs::{File, Metadata};
use std::io::{self, ErrorKind, Read};
use std::os::fd::AsRawFd;
use std::os::unix::fs::MetadataExt;

/// The system's table of locks (proc_locks(5)).
const LOCKS: &str = "/proc/locks";

/// For how many bytes of the table there is room at first, so that they are read at once.
const MOST_BYTES: usize = 65536;

/// How often the table is read, if it doesn't have a lock.
const READINGS: u32 = 16;

/// The bytes that SQLite locks, from the first on.
const LOCK_START: u64 = 1 << 30;

const LOCK_BYTES: u64 = 512;

/// The major number of a device, in Linux's encoding.
fn major_of(device: u64) -> u64
    ensures { result ≡ major_of device }
{
    device / 256 % 4096 + device / 17592186044416 * 4096
}

/// The minor number of a device, in Linux's encoding.
fn minor_of(device: u64) -> u64
    ensures { result ≡ minor_of device }
{
    device % 256 + device / 1048576 % 16777216 * 256
}

/// Whether the table of locks tells the device of a file. One without a number of its own (btrfs, overlayfs, a file
/// system in memory) may have another one there.
fn is_told(there: &Metadata) -> bool {
    major_of(there.dev()) != 0
}

/// How the table of locks writes that a file is locked from the first byte on that SQLite locks, as far as it tells.
fn lock_on(alloc: Global, there: &Metadata) -> Result<String, AllocError> {
    let (device, number) = (there.dev(), there.ino());
    if is_told(there) {
        let (major, minor) = (major_of(device), minor_of(device));
        format!(in alloc; " {major:02x}:{minor:02x}:{number} {LOCK_START} ")
    } else {
        format!(in alloc; ":{number} {LOCK_START} ")
    }
}

/// Whether another open file holds a lock in the way of this one. A lock that is had ends with the file's close.
pub(crate) fn is_held(file: &File, lock: os::RangeLock) -> bool {
    os::try_lock_range(file.as_raw_fd(), lock, LOCK_START, LOCK_BYTES) != 0
}

/// Whether some process has the file of a path locked for itself, as a shared lock on it tells. One that can't be
/// opened is taken for one that nobody has.
fn is_locked_by_any(rt: &HostRuntime, path: &str) -> bool {
    match File::open(rt, path) {
        Ok(file) => is_held(&file, os::RangeLock::Shared),
        Err(_) => false,
    }
}

/// What the table of locks says. It is as it is at one moment only if it is no longer than what the system hands out at
/// once: in the next piece a lock is missed if one that stood before it was given up meanwhile.
fn table_of_locks(rt: &HostRuntime) -> io::Result<String> {
    let mut table = Vec::with_capacity(rt.alloc(), MOST_BYTES)?;
    File::open(rt, LOCKS)?.read_to_end(&mut table)?;
    match String::from_utf8(table) {
        Ok(table) => Ok(table),
        Err(_) => Err(ErrorKind::InvalidData.into()),
    }
}

/// Whether the table of locks has a line of this lock, in one of some readings. None if it tells nothing: it is empty,
/// as one that is hidden is, or can't be read. The error is that memory ran out.
fn is_told_of(rt: &HostRuntime, lock: &str) -> Result<Option<bool>, AllocError> {
    for _ in 0..READINGS {
        match unless_refused(table_of_locks(rt))? {
            Some(table) if table.is_empty() => return Ok(None),
            Some(table) if table.contains(lock) => return Ok(Some(true)),
            Some(_) => {}
            None => return Ok(None),
        }
    }
    Ok(Some(false))
}

/// Whether some process has a database's file, or a log, locked as SQLite locks it. The table is asked first, since a
/// lock that is tried keeps others out for a moment. The error is that memory ran out.
pub(crate) fn is_locked(
    rt: &HostRuntime,
    path: &str,
    there: &Metadata,
) -> Result<bool, AllocError> {
    let lock = lock_on(rt.alloc(), there)?;
    match is_told_of(rt, lock.as_str())? {
        Some(false) => Ok(false),
        Some(true) if is_told(there) => Ok(true),
        _ => Ok(is_locked_by_any(rt, path)),
    }
}
