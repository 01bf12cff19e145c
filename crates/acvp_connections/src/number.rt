//! Which file a name is of.
use std::fs::{self, Files, Metadata};
use std::io;
use std::os::unix::fs::MetadataExt;
use std::time::SystemTime;

/// Which file a name is of: its device, its number there, and when it was made, as far as the system tells. A number
/// is given again once its file is gone.
#[derive(Clone, Copy, PartialEq, Eq)]
pub struct FileNumber {
    device: u64,
    number: u64,
    made: Option<SystemTime>,
}

/// The number of a file.
pub fn number_of(there: &Metadata) -> FileNumber {
    FileNumber {
        device: there.dev(),
        number: there.ino(),
        made: there.created().ok(),
    }
}

/// Which file a name is of. A link is one itself.
pub fn file_at(files: &impl Files, path: &str) -> io::Result<FileNumber> {
    Ok(number_of(&fs::symlink_metadata(files, path)?))
}
