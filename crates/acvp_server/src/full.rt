//! Whether a disk is full, as a file shows that is made on it, loses its name at once, and is to take a page.
use acvp_connections::remove;
use std::alloc::AllocGlobal;
use std::fs::OpenOptions;
use std::io::{self, ErrorKind, Write};
use std::os::unix::fs::OpenOptionsExt;

/// As many bytes as a page of a database has.
const PAGE: [u8; 4096] = [0; 4096];

/// The number in the first name that is tried, which has as many digits as that of a copy.
const FIRST_NAME: u64 = 1000000000000000000;

/// How many names are tried, if other commands try them too.
const MOST_NAMES: u64 = 10;

/// Makes a file of this path, and has it take a page. Nothing is left of it.
fn fill(rt: &HostRuntime, path: &str) -> io::Result<()> {
    let mut file = OpenOptions::new()
        .write(true)
        .create_new(true)
        .mode(0o600)
        .open(rt, path)?;
    remove(rt, path)?;
    file.write_all(&PAGE)?;
    file.sync_all()
}

/// Whether the disk on which a file lies, or is to lie, is full. If this is killed, the next command that copies the
/// database takes away what is left.
pub(crate) fn is_disk_full(rt: &HostRuntime, file: &str) -> bool {
    for number in FIRST_NAME..FIRST_NAME + MOST_NAMES {
        let Ok(path) = format!(in rt.alloc(); "{file}-look-{number}") else {
            return false;
        };
        match fill(rt, path.as_str()) {
            Ok(()) => return false,
            Err(error) if error.kind() == ErrorKind::AlreadyExists => {}
            Err(error) => {
                return matches!(
                    error.kind(),
                    ErrorKind::StorageFull | ErrorKind::QuotaExceeded
                );
            }
        }
    }
    false
}
