//! What can be seen at a database's files afterwards. They are looked at once more, and nothing is written.
ghost use Rattle.std.specs.Prelude.{◌≡◌, ◌≢◌, ◌↔◌, IfErr, IfOk, IsErr, None, Some, false, nat_lt, true};
ghost use Rattle.std.specs.IoError.{error_kind};
ghost use Rattle.std.specs.Fs.{IsFile, file_type};
ghost use Rattle.acvp_causes.specs.Causes.{cause_of_error, cause_of_length};
ghost use Rattle.acvp_causes.specs.Folders.{folder_of, last_of};
ghost use Rattle.acvp_causes.specs.Pages.{bytes_told};

use crate::begins::{begin_of, is_foreign};
use crate::cause::{Because, Cause, Place};
use crate::holders::{is_held, is_locked};
use crate::names::{is_companion, is_mounted, name_of, why_unnamed};
use crate::owners::{cause_of_link, cause_of_log_access, cause_of_neighbour, cause_of_planted};
use crate::pages::{self, HEADER, bytes_told, has_tables};
use std::alloc::{AllocError, AllocGlobal, Global};
use std::fs::{self, File, Files, Metadata, OpenOptions};
use std::io::{self, ErrorKind};
use std::os::unix::fs::MetadataExt;

/// The most bytes of a log that holds nothing.
pub const EMPTY_LOG: u64 = 41;

/// How much memory is asked for, where it is to be seen whether there is any.
const TRIED_BYTES: usize = 16777216;

/// Whether a log of this length holds something. Where there is no log, nothing is held.
fn length_holds_any(length: io::Result<u64>) -> io::Result<bool>
    ensures there { IfOk length (λ bytes. result ≡ Ok (nat_lt EMPTY_LOG bytes)) }
    ensures absent { IfErr length (λ error. error_kind error ≡ ErrorKind.NotFound → result ≡ Ok false) }
    ensures refused { IfErr length (λ error. error_kind error ≢ ErrorKind.NotFound → result ≡ Err error) }
{
    match length {
        Ok(bytes) => Ok(bytes > EMPTY_LOG),
        Err(error) if error.kind() == ErrorKind::NotFound => Ok(false),
        Err(error) => Err(error),
    }
}

/// Whether a log holds something. That there is none is no error.
pub fn holds_any(rt: &HostRuntime, log: &str) -> io::Result<bool>
    ensures { IfErr result (λ error. error_kind error ≢ ErrorKind.NotFound) }
{
    length_holds_any(match fs::metadata(rt, log) {
        Ok(there) => Ok(there.len()),
        Err(error) => Err(error),
    })
}

/// The folder of a path.
pub fn folder_of(path: &str) -> &str
    ensures { result.now ≡ folder_of path.now }
{
    match path.rsplit_once('/') {
        Some(("", _)) => "/",
        Some((folder, _)) => folder,
        None => ".",
    }
}

/// The last part of a path.
pub fn last_of(path: &str) -> &str
    ensures { result.now ≡ last_of path.now }
{
    match path.rsplit_once('/') {
        Some((_, name)) => name,
        None => path,
    }
}

/// Why a file can't be looked at, by the error: there is none, or the system refuses.
pub fn cause_of_error(error: io::Error) -> Cause
    ensures { result ≡ cause_of_error error }
{
    match error.kind() {
        ErrorKind::NotFound => Cause::Missing,
        _ => Cause::Refused(error),
    }
}

/// What can't be of a file that a database is in.
fn cause_of_place(there: &Metadata) -> Option<Cause>
    ensures { (result ≡ Some Cause.NoFile) ↔ ¬ IsFile (file_type there.now) }
{
    if !there.is_file() {
        Some(Cause::NoFile)
    } else if there.nlink() != 1 {
        Some(Cause::Names(there.nlink()))
    } else {
        None
    }
}

/// Why what a path names isn't taken for a file of a database: it is no file of one name, or is mounted by itself.
fn cause_of_name(rt: &HostRuntime, path: &str) -> Option<Cause> {
    match fs::symlink_metadata(rt, path) {
        Ok(there) => match cause_of_place(&there) {
            None => cause_where(is_mounted(rt, path), Cause::Mounted),
            cause => cause,
        },
        Err(error) => Some(cause_of_error(error)),
    }
}

/// A cause, if it is so. That memory ran out while it was looked is a cause, too.
fn cause_where(is_so: Result<bool, AllocError>, cause: Cause) -> Option<Cause>
    ensures so { is_so ≡ Ok true → result ≡ Some cause }
    ensures not { is_so ≡ Ok false → result ≡ None }
    ensures memory { IsErr is_so → result ≡ Some Cause.Memory }
{
    match is_so {
        Ok(true) => Some(cause),
        Ok(false) => None,
        Err(_) => Some(Cause::Memory),
    }
}

/// Why a file can't be had alone.
fn cause_of_hold(rt: &HostRuntime, path: &str) -> Option<Cause> {
    if let Some(cause) = cause_of_name(rt, path) {
        return Some(cause);
    }
    match OpenOptions::new().read(true).write(true).open(rt, path) {
        Ok(file) if is_held(&file, os::RangeLock::Exclusive) => Some(Cause::Held),
        Ok(_) => None,
        Err(error) => Some(cause_of_error(error)),
    }
}

/// Whether there is something beside a file that another program has to settle: a journal that begins with no zero.
pub fn has_journal(rt: &HostRuntime, path: &str) -> Result<bool, AllocError> {
    let journal = format!(in rt.alloc(); "{path}-journal")?;
    let Ok(there) = fs::symlink_metadata(rt, journal.as_str()) else {
        return Ok(false);
    };
    let mut first = [0];
    match begin_of(rt, journal.as_str(), &mut first) {
        Ok(_) => Ok(!there.is_file() || first != [0]),
        Err(_) => Ok(true),
    }
}

/// Whether what is committed may stand in the log beside a file.
pub fn has_log(rt: &HostRuntime, path: &str) -> bool {
    match format!(in rt.alloc(); "{path}-wal") {
        Ok(log) => holds_any(rt, log.as_str()).unwrap_or(false),
        Err(_) => false,
    }
}

/// A cause that there is no file is none.
fn unless_missing(cause: Option<Cause>) -> Option<Cause>
    ensures missing { cause ≡ Some Cause.Missing → result ≡ None }
    ensures other { cause ≢ Some Cause.Missing → result ≡ cause }
{
    match cause {
        Some(Cause::Missing) => None,
        cause => cause,
    }
}

/// Why the log beside a database isn't taken, whoever has it.
fn cause_of_log(rt: &HostRuntime, database: &str, log: &str) -> Option<Cause> {
    match unless_missing(cause_of_name(rt, log)) {
        None => cause_of_log_access(rt, database, log),
        cause => cause,
    }
}

/// Why the files beside a database aren't taken, whoever has them: the log is no file of its own, another user has made
/// it or the socket of orders, or others may do more with the log than with the database.
fn cause_of_neighbours(rt: &HostRuntime, option: &'static str, db: &str) -> Option<Because> {
    let alloc = rt.alloc();
    let (Ok(log), Ok(socket)) = (
        format!(in alloc; "{db}-wal"),
        format!(in alloc; "{db}-orders"),
    ) else {
        return Some(Because::of(option, Cause::Memory));
    };
    if let Some(cause) = cause_of_log(rt, db, log.as_str()) {
        let place = Place::Log;
        return Some(Because {
            option,
            place,
            cause,
        });
    }
    let place = Place::Socket;
    match cause_of_neighbour(rt, db, socket.as_str()) {
        Some(cause) => Some(Because {
            option,
            place,
            cause,
        }),
        None => None,
    }
}

/// Why a name isn't taken for that of a database's file, whether it is there or not: it is that of a file that lies
/// beside one, or of no file of one name, or the file is mounted by itself.
fn cause_of_database_name(rt: &HostRuntime, db: &str) -> Option<Cause> {
    if is_companion(db) {
        return Some(Cause::Companion);
    }
    cause_of_name(rt, db)
}

/// Why the file of a database's name isn't taken, if it is there: by its name, or since another user has made it.
fn cause_of_database_file(rt: &HostRuntime, db: &str) -> Option<Cause> {
    match unless_missing(cause_of_database_name(rt, db)) {
        None => cause_of_planted(rt, db),
        cause => cause,
    }
}

/// Why the files of a database's name aren't taken, whoever has them: the database, if it is there, or what lies beside
/// it.
pub fn cause_of_files(rt: &HostRuntime, option: &'static str, db: &str) -> Option<Because> {
    match cause_of_database_file(rt, db) {
        Some(cause) => Some(Because::of(option, cause)),
        None => cause_of_neighbours(rt, option, db),
    }
}

/// What is wrong with the length of a file that begins so.
fn cause_of_length(length: u64, header: &[u8; HEADER]) -> Option<Cause>
    ensures { result ≡ cause_of_length length (bytes_told header.now) }
{
    match bytes_told(header) {
        Some(told) if length < told => Some(Cause::Cut(length, told)),
        _ => None,
    }
}

/// What is wrong with a file whose log holds nothing, as its first bytes and its length tell.
fn cause_of_content(rt: &HostRuntime, path: &str) -> Option<Cause> {
    if has_log(rt, path) {
        return None;
    }
    if is_foreign(rt, path) {
        return Some(Cause::Foreign);
    }
    let mut header = [0; HEADER];
    let length = match fs::metadata(rt, path) {
        Ok(there) => there.len(),
        Err(error) => return Some(cause_of_error(error)),
    };
    match begin_of(rt, path, &mut header) {
        Ok(HEADER) => cause_of_length(length, &header),
        Ok(0) => None,
        Ok(_) => Some(Cause::Foreign),
        Err(error) => Some(Cause::Refused(error)),
    }
}

/// Whether the database in a file has tables.
pub fn are_there(rt: &HostRuntime, path: &str) -> bool {
    let mut header = [0; HEADER];
    match begin_of(rt, path, &mut header) {
        Ok(HEADER) => has_log(rt, path) || has_tables(&header),
        _ => has_log(rt, path),
    }
}

/// Whether the pages of the database in a file have sums, by which changed bits are found.
pub fn has_sums(rt: &HostRuntime, path: &str) -> io::Result<bool> {
    let mut header = [0; HEADER];
    let count = begin_of(rt, path, &mut header)?;
    Ok(count == HEADER && pages::has_sums(&header))
}

/// Why the log beside a file can't be had alone.
fn cause_of_held_log(rt: &HostRuntime, path: &str) -> Option<Cause> {
    match format!(in rt.alloc(); "{path}-wal") {
        Ok(log) => unless_missing(cause_of_hold(rt, log.as_str())),
        Err(_) => Some(Cause::Memory),
    }
}

/// Why a database can't be opened, as can be seen at its file.
fn cause_of_file(rt: &HostRuntime, path: &str) -> Option<Cause> {
    if let Some(cause) = cause_of_database_file(rt, path) {
        return Some(cause);
    }
    match cause_of_hold(rt, path) {
        None => cause_where(has_journal(rt, path), Cause::Journal),
        cause => cause,
    }
}

/// Why a database can't be opened, where that can be seen.
pub fn cause_of_database(rt: &HostRuntime, db: &str) -> Option<Because> {
    let option = "--db";
    let name = match name_of(rt, db) {
        Ok(name) => name,
        Err(error) => return Some(Because::of(option, why_unnamed(rt, db, error))),
    };
    let path = name.as_str();
    if let Some(cause) = cause_of_file(rt, path) {
        return Some(Because::of(option, cause));
    }
    if let Some(because) = cause_of_neighbours(rt, option, path) {
        return Some(because);
    }
    if let Some(cause) = cause_of_held_log(rt, path) {
        let place = Place::Log;
        return Some(Because {
            option,
            place,
            cause,
        });
    }
    match cause_of_content(rt, path) {
        Some(cause) => Some(Because::of(option, cause)),
        None => None,
    }
}

/// Why there can't be a file in the folder of a path: it can't be looked at, or the way to it goes by a link that isn't
/// followed.
pub fn cause_of_folder(rt: &HostRuntime, path: &str) -> Option<Cause> {
    let folder = folder_of(path);
    if let Some(cause) = cause_of_link(rt, folder) {
        return Some(cause);
    }
    match fs::metadata(rt, folder) {
        Ok(_) => None,
        Err(error) => Some(Cause::Refused(error)),
    }
}

/// Whether a new file at a path would have a log for its own that another has left: there is no file, but a log that
/// holds something, or that somebody has. The error is that memory ran out.
pub fn is_left_alone(rt: &HostRuntime, path: &str) -> Result<bool, AllocError> {
    if !matches!(fs::exists(rt, path), Ok(false)) {
        return Ok(false);
    }
    let log = format!(in rt.alloc(); "{path}-wal")?;
    Ok(has_log(rt, path) || is_held_by_any(rt, log.as_str())?)
}

/// Whether somebody has the file of a name locked. One that isn't there is locked by nobody.
pub fn is_held_by_any(rt: &HostRuntime, path: &str) -> Result<bool, AllocError> {
    match fs::symlink_metadata(rt, path) {
        Ok(there) => is_locked(rt, path, &there),
        Err(_) => Ok(false),
    }
}

/// Whether somebody has a database or the log beside it, but not both, as far as the system tells. The error is that
/// memory ran out.
pub fn is_moved(rt: &HostRuntime, path: &str, log: &str) -> Result<bool, AllocError> {
    Ok(is_held_by_any(rt, path)? != is_held_by_any(rt, log)?)
}

/// What is wrong with the file that a database is to be copied from, whoever has it.
fn cause_of_copied_file(rt: &HostRuntime, path: &str) -> Option<Cause> {
    match cause_of_database_name(rt, path) {
        None => match File::open(rt, path) {
            Ok(_) => cause_where(has_journal(rt, path), Cause::Journal),
            Err(error) => Some(cause_of_error(error)),
        },
        cause => cause,
    }
}

/// What is wrong with what a database holds that is to be copied.
fn cause_of_copied_content(rt: &HostRuntime, path: &str) -> Option<Cause> {
    match fs::metadata(rt, path) {
        Ok(there) if there.len() == 0 && !has_log(rt, path) => Some(Cause::Foreign),
        _ => cause_of_content(rt, path),
    }
}

/// Why the database of a name, which this option gives, isn't copied, where that can be seen. Whoever has it goes on
/// having it.
pub fn cause_of_source(rt: &HostRuntime, option: &'static str, name: &str) -> Option<Because> {
    if let Some(cause) = cause_of_copied_file(rt, name) {
        return Some(Because::of(option, cause));
    }
    if let Some(because) = cause_of_neighbours(rt, option, name) {
        return Some(because);
    }
    match cause_of_copied_content(rt, name) {
        Some(cause) => Some(Because::of(option, cause)),
        None => None,
    }
}

/// Why a request or an order was unavailable while a database is served. Its files are looked at from outside alone:
/// were one of them opened, its close could let go what the server holds.
pub fn why_refused(files: &impl Files, alloc: Global, db: &str) -> Cause {
    if Vec::<u8>::with_capacity(alloc, TRIED_BYTES).is_err() {
        return Cause::Memory;
    }
    match fs::metadata(files, db) {
        Ok(there) => match cause_of_place(&there) {
            Some(cause) => cause,
            None => Cause::Store(""),
        },
        Err(error) => cause_of_error(error),
    }
}
