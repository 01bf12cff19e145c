//! Who may read the files of a laboratory: what others may read, or a folder that others may write, is warned of.
use acvp_causes::{EMPTY_LOG, OF_OTHERS, folder_of, name_of};
use std::alloc::AllocGlobal;
use std::fs;
use std::os::unix::fs::MetadataExt;

/// The bits of a folder's mode by which others than its owner make files in it.
const WRITE_OF_OTHERS: u32 = 0o022;

/// Warns on standard error of a file that others than its owner may read or write.
pub fn tell_open(rt: &HostRuntime, path: &str) {
    if let Ok(there) = fs::metadata(rt, path)
        && there.mode() & OF_OTHERS != 0
    {
        let _ = eprintln!(rt; "warning: others than its owner may read {path}");
    }
}

/// Warns on standard error of a database, its log, or their folder that others may read or write.
pub fn tell_open_database(rt: &HostRuntime, path: &str) {
    let Ok(name) = name_of(rt, path) else {
        return;
    };
    tell_open(rt, name.as_str());
    if let Ok(log) = format!(in rt.alloc(); "{}-wal", name.as_str()) {
        tell_open(rt, log.as_str());
    }
    let folder = folder_of(name.as_str());
    if let Ok(there) = fs::metadata(rt, folder)
        && there.mode() & WRITE_OF_OTHERS != 0
    {
        let _ = eprintln!(rt; "warning: others than its owner may make files in {folder}");
    }
}

/// Takes a new log away again that holds nothing. Its database is still held, so that nobody else has the log.
pub fn remove_empty_log(rt: &HostRuntime, path: &str) {
    if let Ok(log) = format!(in rt.alloc(); "{path}-wal")
        && let Ok(there) = fs::metadata(rt, log.as_str())
        && there.len() <= EMPTY_LOG
    {
        let _ = fs::remove_file(rt, log.as_str());
    }
}
