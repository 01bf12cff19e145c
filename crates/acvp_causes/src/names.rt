//! The name of a database: beside it lie the log, the socket of orders and the copies that are made.
ghost use Rattle.std.specs.Prelude.{◌≡◌, ◌≢◌, IfErr, IfOk, IsErr, None, Some};
ghost use Rattle.std.specs.List.{list_all};
ghost use Rattle.std.specs.Char.{is_ascii_digit};
ghost use Rattle.std.specs.IoError.{error_kind};
ghost use Rattle.acvp_causes.specs.Copies.{is_copy};
ghost use Rattle.acvp_causes.specs.Folders.{is_companion};
ghost use Rattle.acvp_causes.specs.Names.{cause_of_path};

use crate::cause::Cause;
use crate::owners::{cause_of_link, refusal};
use crate::places::{cause_of_error, last_of};
use std::alloc::{AllocError, AllocGlobal, Global};
use std::fs;
use std::io::{self, ErrorKind};

/// The system's table of mounts (proc_pid_mountinfo(5)).
const MOUNTS: &str = "/proc/self/mountinfo";

/// How many digits the moment of a copy has, in billionths of a second since 1970: from 2001 to 2286.
pub const MOMENT_DIGITS: usize = 19;

/// How many bytes the name of a file may have that is copied. The system allows 255 (NAME_MAX of limits.h), and where a
/// copy is opened, the name of a journal beside it is looked for, which has 33 more.
const MOST_NAME: usize = 222;

/// The number in the first second name that is tried, which has as many digits as that of a copy.
const FIRST_NAME: u64 = 1000000000000000000;

/// How many second names are tried.
const MOST_NAMES: u64 = 10;

/// The name under which the database at a path is opened: where the path leads, if its last part is a link, and else
/// the path as it is. The error of a link that leads nowhere is NotFound; if another user has made a link on the
/// way there, it is PermissionDenied.
pub fn name_of(rt: &HostRuntime, path: &str) -> io::Result<String> {
    if let Some(cause) = cause_of_link(rt, path) {
        return Err(refusal(cause));
    }
    let is_link = match fs::symlink_metadata(rt, path) {
        Ok(there) => there.is_symlink(),
        Err(error) if error.kind() == ErrorKind::NotFound => false,
        Err(error) => return Err(error),
    };
    if is_link {
        let real = fs::canonicalize(rt, path)?;
        return Ok(String::from_str(rt.alloc(), real.as_str())?);
    }
    Ok(String::from_str(rt.alloc(), path)?)
}

/// Whether a path is a link itself.
fn is_link(rt: &HostRuntime, path: &str) -> bool {
    match fs::symlink_metadata(rt, path) {
        Ok(there) => there.is_symlink(),
        Err(_) => false,
    }
}

/// Why a path has no name, by the error.
pub fn why_unnamed(rt: &HostRuntime, path: &str, error: io::Error) -> Cause {
    match cause_of_link(rt, path) {
        Some(cause) => cause,
        None if error.kind() == ErrorKind::NotFound && is_link(rt, path) => Cause::LeadsNowhere,
        None => cause_of_error(error),
    }
}

/// Why no file that is copied can have a path: it ends without a name, or the names of the file's copies are too long.
pub fn cause_of_path(path: &str) -> Option<Cause>
    ensures { result ≡ cause_of_path path.now }
{
    let length = last_of(path).len();
    if length == 0 {
        Some(Cause::Nameless)
    } else if length > MOST_NAME {
        Some(Cause::LongName(length, MOST_NAME))
    } else {
        None
    }
}

/// Whether a path ends as that of a file that lies beside a database.
pub fn is_companion(path: &str) -> bool
    ensures { result ≡ is_companion path.now }
{
    let name = path.as_bytes();
    name.ends_with(b"-wal")
        || name.ends_with(b"-shm")
        || name.ends_with(b"-journal")
        || name.ends_with(b"-orders")
}

/// Whether all bytes are decimal digits.
fn are_digits(text: &[u8]) -> bool
    ensures { result ≡ list_all is_ascii_digit text.now }
{
    text.iter().all(|byte| byte.is_ascii_digit())
}

/// Whether a path has the name of a copy that is being made, or that was left.
pub fn is_copy(path: &str) -> bool
    ensures { result ≡ is_copy path.now }
{
    let name = last_of(path).as_bytes();
    let (front, moment) = name.split_at(name.len().saturating_sub(MOMENT_DIGITS));
    (front.ends_with(b"-part-") || front.ends_with(b"-look-")) && are_digits(moment)
}

/// How the table of mounts writes a character that would end a field: by its octal number.
fn octal(character: char) -> Option<&'static str> {
    match character {
        '\t' => Some("\\011"),
        '\n' => Some("\\012"),
        ' ' => Some("\\040"),
        '\\' => Some("\\134"),
        _ => None,
    }
}

/// How the line of a mount at a path goes on from the path: a space, the path, and the options `rw` or `ro`.
fn mount_at(alloc: Global, path: &str) -> Result<String, AllocError> {
    let mut text = String::from_str(alloc, " ")?;
    for character in path.chars() {
        match octal(character) {
            Some(number) => text.push_str(number)?,
            None => text.push(character)?,
        }
    }
    text.push_str(" r")?;
    Ok(text)
}

/// Whether a line is of this mount. What stands behind the hyphen is the mount's source, which its maker chooses.
fn is_line_of(line: &str, mount: &str) -> bool {
    match line.split_once(" - ") {
        Some((front, _)) => front.contains(mount),
        None => line.contains(mount),
    }
}

/// Whether a file is of another mount than its folder, as the try tells to give it a second name there; also if each
/// name that is tried is had already. A name that a kill has left is a copy's, and is taken away as these are.
fn is_of_another_mount(rt: &HostRuntime, path: &str) -> Result<bool, AllocError> {
    for number in FIRST_NAME..FIRST_NAME + MOST_NAMES {
        let second = format!(in rt.alloc(); "{path}-part-{number}")?;
        match fs::hard_link(rt, path, second.as_str()) {
            Ok(()) => {
                let _ = fs::remove_file(rt, second.as_str());
                return Ok(false);
            }
            Err(error) if error.kind() == ErrorKind::AlreadyExists => {}
            Err(error) => return Ok(error.kind() == ErrorKind::CrossesDevices),
        }
    }
    Ok(true)
}

/// Whether the file of a path is mounted there by itself: what lies beside the path doesn't lie beside the file. If the
/// table of mounts can't be read, a second name is tried. The error is that memory ran out.
pub(crate) fn is_mounted(rt: &HostRuntime, path: &str) -> Result<bool, AllocError> {
    let Some(real) = unless_refused(fs::canonicalize(rt, path))? else {
        return Ok(false);
    };
    let mount = mount_at(rt.alloc(), real.as_str())?;
    match unless_refused(fs::read_to_string(rt, MOUNTS))? {
        Some(table) => Ok(
            table
                .split('\n')
                .any(|line| is_line_of(line, mount.as_str())),
        ),
        None => is_of_another_mount(rt, real.as_str()),
    }
}

/// What the system tells, if it does. The error is that memory ran out.
pub(crate) fn unless_refused<T>(told: io::Result<T>) -> Result<Option<T>, AllocError>
    ensures told { IfOk told (λ value. result ≡ Ok (Some value)) }
    ensures memory { IfErr told (λ error. error_kind error ≡ ErrorKind.OutOfMemory → IsErr result) }
    ensures refused { IfErr told (λ error. error_kind error ≢ ErrorKind.OutOfMemory → result ≡ Ok None) }
{
    match told {
        Ok(value) => Ok(Some(value)),
        Err(error) if error.kind() == ErrorKind::OutOfMemory => Err(AllocError),
        Err(_) => Ok(None),
    }
}
