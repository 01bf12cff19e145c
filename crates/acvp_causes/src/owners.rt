//! Whose the files are that a command takes, and who else may use them.
ghost use Rattle.std.specs.Prelude.{◌≡◌};
ghost use Rattle.acvp_causes.specs.Owners.{gives_more, is_of, may_own};

use crate::cause::Cause;
use crate::places::{cause_of_error, folder_of};
use crate::texts::MOST_TEXT;
use std::alloc::{AllocError, AllocGlobal};
use std::fs::{self, File, Metadata};
use std::io::{self, ErrorKind, Read};
use std::os::unix::fs::MetadataExt;

/// The bits of a file's mode by which others than its owner read and write it.
pub const OF_OTHERS: u32 = 0o066;

/// The mode of a file that is for its owner alone.
const PRIVATE: u32 = 0o600;

/// Whether an owner is this one, if there is one.
fn is_of(owner: u32, other: Option<u32>) -> bool
    ensures { result ≡ is_of owner other }
{
    match other {
        Some(other) => owner == other,
        None => false,
    }
}

/// Whether a file of this owner is taken: it is of root, of the user that the command runs as, or of the owner of what
/// the command was told to take.
fn may_own(owner: u32, user: u32, other: Option<u32>) -> bool
    ensures { result ≡ may_own owner user other }
{
    owner == 0 || owner == user || is_of(owner, other)
}

/// Whether a mode lets others read or write what another mode doesn't.
fn gives_more(mode: u32, bound: u32) -> bool
    ensures { result ≡ gives_more mode bound }
{
    mode & OF_OTHERS & bound != mode & OF_OTHERS
}

/// Whether what the command was told to take, with this owner if it has one, makes it take this file too.
fn is_taken(there: &Metadata, other: Option<u32>) -> bool {
    may_own(there.uid(), libc::geteuid(), other)
}

/// The owner of what a path leads to, if it can be looked at.
fn owner_at(rt: &HostRuntime, path: &str) -> Option<u32> {
    match fs::metadata(rt, path) {
        Ok(there) => Some(there.uid()),
        Err(_) => None,
    }
}

/// The owner of a database, if there is one.
fn owner_of(rt: &HostRuntime, database: Option<&str>) -> Option<u32> {
    match database {
        Some(database) => owner_at(rt, database),
        None => None,
    }
}

/// The most links that lead from one to the next, as the system has it.
const MOST_LINKS: u32 = 40;

/// The path that a link leads to, which isn't looked at.
fn target_of(rt: &HostRuntime, path: &str) -> io::Result<String> {
    let target = fs::read_link(rt, path)?;
    if target.as_str().starts_with('/') {
        return Ok(String::from_str(rt.alloc(), target.as_str())?);
    }
    Ok(format!(in rt.alloc(); "{}/{}", folder_of(path), target.as_str())?)
}

/// Why one link isn't followed: it is of somebody else than root, the user of the command or the owner of its folder.
fn cause_of_one_link(rt: &HostRuntime, path: &str, link: &Metadata) -> Option<Cause> {
    if is_taken(link, owner_at(rt, folder_of(path))) {
        None
    } else {
        Some(Cause::Link(link.uid()))
    }
}

/// Where a path leads, if it is a link itself. The cause of one that isn't followed is the error.
fn target_at(rt: &HostRuntime, path: &str) -> Result<Option<String>, Cause> {
    let link = match fs::symlink_metadata(rt, path) {
        Ok(there) if there.is_symlink() => there,
        _ => return Ok(None),
    };
    if let Some(cause) = cause_of_one_link(rt, path, &link) {
        return Err(cause);
    }
    match target_of(rt, path) {
        Ok(target) => Ok(Some(target)),
        Err(error) => Err(cause_of_error(error)),
    }
}

/// Adds a part to a path, of which so many parts are there already.
fn lengthen(way: &mut String, count: usize, part: &str) -> Result<(), AllocError> {
    if count > 0 {
        way.push('/')?;
    }
    way.push_str(part)
}

/// A path with where it leads in the place of its first link, folders first. None if there is no link on the way.
fn followed(rt: &HostRuntime, path: &str) -> Result<Option<String>, Cause> {
    let mut way = String::new(rt.alloc());
    let mut is_followed = false;
    for (count, part) in path.split('/').enumerate() {
        if lengthen(&mut way, count, part).is_err() {
            return Err(Cause::Memory);
        }
        if !is_followed && let Some(target) = target_at(rt, way.as_str())? {
            way = target;
            is_followed = true;
        }
    }
    Ok(is_followed.then_some(way))
}

/// Why a path isn't followed: a link on the way, of its folders or its own, isn't. Links are followed one behind the
/// other, as the system does.
pub(crate) fn cause_of_link(rt: &HostRuntime, path: &str) -> Option<Cause> {
    let Ok(mut path) = String::from_str(rt.alloc(), path) else {
        return Some(Cause::Memory);
    };
    for _ in 0..=MOST_LINKS {
        path = match followed(rt, path.as_str()) {
            Ok(Some(next)) => next,
            Ok(None) => return None,
            Err(cause) => return Some(cause),
        };
    }
    None
}

/// The bits of a folder's mode by which others than its owner make files in it.
const WRITE_OF_OTHERS: u32 = 0o022;

/// Whether a file of this owner may be in the folder of a path: others can't make files there, or it is of root, the
/// user of the command or the folder's owner.
fn may_be_there(rt: &HostRuntime, path: &str, there: &Metadata) -> bool {
    match fs::metadata(rt, folder_of(path)) {
        Ok(folder) => {
            folder.mode() & WRITE_OF_OTHERS == 0 || is_taken(there, Some(folder.uid()))
        }
        Err(_) => is_taken(there, None),
    }
}

/// The error of a path that isn't followed for this cause. Memory that ran out stays what it is.
pub(crate) fn refusal(cause: Cause) -> io::Error {
    match cause {
        Cause::Memory => ErrorKind::OutOfMemory.into(),
        Cause::Missing => ErrorKind::NotFound.into(),
        Cause::Refused(error) => error,
        _ => ErrorKind::PermissionDenied.into(),
    }
}

/// Why the file of a database isn't opened: others can make files in its folder, and it belongs to somebody else than
/// root, the user of the command or the owner of the folder.
pub(crate) fn cause_of_planted(rt: &HostRuntime, path: &str) -> Option<Cause> {
    match fs::symlink_metadata(rt, path) {
        Ok(there) if !may_be_there(rt, path, &there) => Some(Cause::Planted(there.uid())),
        _ => None,
    }
}

/// Why a file of keys or of a secret isn't taken, for a database or for none: it, or the link to it, belongs to another
/// user. What can't be looked at, its reader tells.
pub fn cause_of_maker(rt: &HostRuntime, path: &str, database: Option<&str>) -> Option<Cause> {
    if let Some(cause) = cause_of_link(rt, path) {
        return Some(cause);
    }
    let other = owner_of(rt, database);
    match fs::metadata(rt, path) {
        Ok(there) if !is_taken(&there, other) => Some(Cause::Owner(there.uid())),
        _ => None,
    }
}

/// Reads what an open file of keys or of a secret holds. Of a longer text, which is neither's, it reads so much that
/// this can be seen, and no more: there are files that never end.
fn read_text(rt: &HostRuntime, mut file: &File) -> io::Result<Vec<u8>> {
    let mut text = Vec::new(rt.alloc());
    file.take(MOST_TEXT as u64 + 1).read_to_end(&mut text)?;
    Ok(text)
}

/// What a file of keys or of a secret holds, whosever it is.
pub fn text_at(rt: &HostRuntime, path: &str) -> io::Result<Vec<u8>> {
    let file = File::open(rt, path)?;
    read_text(rt, &file)
}

/// What a file of keys or of a secret holds, for a database or for none. If it, or the link to it, belongs to another
/// user, that is PermissionDenied. Whose it is, is asked of the open file: one that is put there meanwhile isn't read.
pub fn own_text(rt: &HostRuntime, path: &str, database: Option<&str>) -> io::Result<Vec<u8>> {
    // An open of what another user has put there may wait for that user.
    if let Some(cause) = cause_of_maker(rt, path, database) {
        return Err(refusal(cause));
    }
    let file = File::open(rt, path)?;
    if !is_taken(&file.metadata()?, owner_of(rt, database)) {
        return Err(ErrorKind::PermissionDenied.into());
    }
    read_text(rt, &file)
}

/// Why what lies beside a database isn't taken: it belongs to another user.
pub(crate) fn cause_of_neighbour(rt: &HostRuntime, database: &str, path: &str) -> Option<Cause> {
    match fs::symlink_metadata(rt, path) {
        Ok(there) if is_taken(&there, owner_at(rt, database)) => None,
        Ok(there) => Some(Cause::Owner(there.uid())),
        Err(error) if error.kind() == ErrorKind::NotFound => None,
        Err(error) => Some(cause_of_error(error)),
    }
}

/// Why the log beside a database isn't taken, as its owner and its mode tell: it belongs to another user, or others
/// may do more with it than with the database.
pub(crate) fn cause_of_log_access(rt: &HostRuntime, database: &str, log: &str) -> Option<Cause> {
    if let Some(cause) = cause_of_neighbour(rt, database, log) {
        return Some(cause);
    }
    let bound = match fs::symlink_metadata(rt, database) {
        Ok(database) => database.mode(),
        Err(_) => PRIVATE,
    };
    match fs::symlink_metadata(rt, log) {
        Ok(there) if gives_more(there.mode(), bound) => Some(Cause::Open),
        _ => None,
    }
}
