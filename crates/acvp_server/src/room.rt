//! How much room a restore may take.
use crate::database::named;
use acvp_causes::{cause_of_folder, cause_of_path, has_sums};
use std::alloc::AllocGlobal;
use std::fs;

/// The bytes of a regular file, or 0.
fn length_of(rt: &HostRuntime, path: &str) -> u64 {
    match fs::metadata(rt, path) {
        Ok(there) if there.is_file() => there.len(),
        _ => 0,
    }
}

/// The bytes of a database and of the log beside it.
fn lengths_of(rt: &HostRuntime, name: &str) -> u64 {
    let file = length_of(rt, name);
    match format!(in rt.alloc(); "{name}-wal") {
        Ok(log) => file.saturating_add(length_of(rt, log.as_str())),
        Err(_) => file,
    }
}

/// How often the bytes of a backup may lie beside the database at once: those of its copy, with what a log held. If its
/// pages have no sums, those of another one too, and of its log.
fn copies_of(rt: &HostRuntime, backup: &str) -> u64 {
    if matches!(has_sums(rt, backup), Ok(true)) {
        2
    } else {
        4
    }
}

/// Whether something has a path that no database is put in the place of.
fn is_no_file(rt: &HostRuntime, path: &str) -> bool {
    matches!(fs::metadata(rt, path), Ok(there) if !there.is_file())
}

/// Whether a database can have a path, by its last name and its folder.
fn may_have(rt: &HostRuntime, path: &str) -> bool {
    cause_of_path(path).is_none() && cause_of_folder(rt, path).is_none()
}

/// Says how much room a restore may take: that of copies of the backup, and of a copy of what is there. A backup that
/// isn't there needs none, nor does a restore to a path that no database can have.
pub(crate) fn tell_room(rt: &HostRuntime, from: &str, db: &str) {
    let (Ok(backup), Ok(database)) = (named(rt, from), named(rt, db)) else {
        return;
    };
    let bytes = lengths_of(rt, backup.as_str());
    if bytes > 0 && may_have(rt, db) && !is_no_file(rt, database.as_str()) {
        let copies = bytes.saturating_mul(copies_of(rt, backup.as_str()));
        let room = copies.saturating_add(lengths_of(rt, database.as_str()));
        let _ = eprintln!(rt; "room: up to {room} bytes beside {db}");
    }
}
