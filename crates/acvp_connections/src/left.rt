//! The names that killed commands have left of files that have names of their own.
use crate::number::{FileNumber, file_at, number_of};
use acvp_causes::{folder_of, is_copy};
use std::alloc::AllocGlobal;
use std::fs::{self, File};
use std::io::{self, ErrorKind};
use std::os::unix::fs::MetadataExt;

/// Takes a file away, if it is there.
pub fn remove(rt: &HostRuntime, path: &str) -> io::Result<()> {
    match fs::remove_file(rt, path) {
        Ok(()) => Ok(()),
        Err(error) if error.kind() == ErrorKind::NotFound => Ok(()),
        Err(error) => Err(error),
    }
}

/// The file of a copy at a path, locked, if nobody makes the copy any more. It is to be kept until the copy's names are
/// taken away: were it let go before, the command that has just made the file could lock it, and lose it then.
pub fn left_file(rt: &HostRuntime, path: &str) -> Option<File> {
    match File::open(rt, path) {
        Ok(file) if file.try_lock().is_ok() => Some(file),
        _ => None,
    }
}

/// Takes a name away if it is a copy's that nobody makes any more, and of this file.
fn remove_name(rt: &HostRuntime, path: &str, number: FileNumber) {
    if is_copy(path)
        && matches!(file_at(rt, path), Ok(there) if there == number)
        && let Some(left) = left_file(rt, path)
    {
        let _ = remove(rt, path);
        drop(left);
    }
}

/// Takes the other names of a file away that killed commands have left: the file was their copy, and has its own name.
fn settle_file(rt: &HostRuntime, path: &str) {
    let there = match fs::symlink_metadata(rt, path) {
        Ok(there) if there.is_file() && there.nlink() > 1 && !is_copy(path) => there,
        _ => return,
    };
    let Ok(names) = fs::read_dir(rt, folder_of(path)) else {
        return;
    };
    for entry in names {
        if let Ok(entry) = entry
            && let Ok(other) = format!(in rt.alloc(); "{}/{}", folder_of(path), entry.file_name())
        {
            remove_name(rt, other.as_str(), number_of(&there));
        }
    }
}

/// Does so with a database and its log.
pub fn settle_names(rt: &HostRuntime, path: &str) {
    settle_file(rt, path);
    if let Ok(log) = format!(in rt.alloc(); "{path}-wal") {
        settle_file(rt, log.as_str());
    }
}
