//! The copies that a command makes beside a file, the name of what a restore keeps, and what a killed command has left.
//!
//! Whoever makes a copy has it locked until it is taken away or has its name. So a copy that nobody has locked was
//! left.
use acvp_causes::{MOMENT_DIGITS, folder_of, is_copy, last_of};
use acvp_connections::{FileFault, file_at, left_file, number_of, refused, remove};
use std::alloc::{AllocError, AllocGlobal, Global};
use std::fs::{self, File, Metadata, OpenOptions, Permissions};
use std::io::{self, ErrorKind};
use std::os::unix::fs::{MetadataExt, OpenOptionsExt, PermissionsExt, fchown};
use std::time::{SystemTime, UNIX_EPOCH};

/// How many bytes the name of a copy has more than that of its file: a word of six, and a moment.
const COPY_BYTES: usize = 6 + MOMENT_DIGITS;

/// The bits of a file's mode by which its owner, its group and others read, write and run it.
const RIGHTS: u32 = 0o777;

/// How often a copy is begun anew, if another command has its name or has taken it for one that was left.
const TRIES: u32 = 100;

/// What a copy is made for.
#[derive(Clone, Copy)]
pub(crate) enum Use {
    /// To be a file of its own.
    Part,

    /// To be looked at.
    Look,
}

impl Use {
    /// The word of a use in the name of a copy.
    fn word(self) -> &'static str {
        match self {
            Use::Part => "-part-",
            Use::Look => "-look-",
        }
    }
}

/// The paths of a database and of its log.
#[derive(Drop)]
pub(crate) struct Pair {
    pub(crate) file: String,
    pub(crate) log: String,
}

/// The database at a path, with its log.
pub(crate) fn pair_at(alloc: Global, path: &str) -> Result<Pair, FileFault> {
    Ok(Pair {
        file: String::from_str(alloc, path)?,
        log: format!(in alloc; "{path}-wal")?,
    })
}

/// A copy that is being made, and its two open files. The first is locked by this command alone as long as this is
/// kept. What is copied goes into these, whatever has their names.
#[derive(Drop)]
pub(crate) struct Part {
    pub(crate) pair: Pair,
    pub(crate) file: File,
    pub(crate) log: File,
}

impl Part {
    /// Whether the copy that was made still has its name.
    fn has_its_name(&self, rt: &HostRuntime) -> io::Result<bool> {
        has_name(rt, &self.file, self.pair.file.as_str())
    }

    /// Refuses a copy whose name another file has.
    pub(crate) fn is_still_named(&self, rt: &HostRuntime) -> io::Result<()> {
        if self.has_its_name(rt)? {
            Ok(())
        } else {
            Err(ErrorKind::NotFound.into())
        }
    }

    /// Gives a copy the owner, the group and the mode of the file that it is to replace. If the system refuses the
    /// owner or the group, the copy stays its maker's alone. The file that was made gets them, whatever has its name.
    pub(crate) fn keep_access(&self, there: &Metadata) -> io::Result<()> {
        match fchown(&self.file, Some(there.uid()), Some(there.gid())) {
            Ok(()) => self
                .file
                .set_permissions(Permissions::from_mode(there.mode() & RIGHTS)),
            Err(error) if error.kind() == ErrorKind::PermissionDenied => Ok(()),
            Err(error) => Err(error),
        }
    }
}

/// The moment to the billionth of a second; 0 if the clock doesn't tell it.
fn precise_moment(rt: &HostRuntime) -> u128 {
    match SystemTime::now(rt) {
        Ok(now) => match now.duration_since(UNIX_EPOCH) {
            Ok(since) => since.as_nanos(),
            Err(_) => 0,
        },
        Err(_) => 0,
    }
}

/// Makes an empty file that only its owner may read. If there is one, it stays as it is, and that is the error.
pub(crate) fn make_new(rt: &HostRuntime, path: &str) -> io::Result<File> {
    OpenOptions::new()
        .write(true)
        .create_new(true)
        .mode(0o600)
        .open(rt, path)
}

/// Takes both files away, if they are there.
fn remove_pair(rt: &HostRuntime, pair: &Pair) {
    let _ = remove(rt, pair.file.as_str());
    let _ = remove(rt, pair.log.as_str());
}

/// Whether a file has a name.
pub(crate) fn has_name(rt: &HostRuntime, file: &File, path: &str) -> io::Result<bool> {
    let number = number_of(&file.metadata()?);
    match file_at(rt, path) {
        Ok(there) => Ok(there == number),
        Err(error) if error.kind() == ErrorKind::NotFound => Ok(false),
        Err(error) => Err(error),
    }
}

/// Locks a file that was just made. Until the lock another command may take it for one that was left: it locks it, and
/// takes it away.
fn lock_new(rt: &HostRuntime, path: &str, file: &File) -> io::Result<()> {
    if file.try_lock().is_ok() && has_name(rt, file, path)? {
        Ok(())
    } else {
        Err(ErrorKind::ResourceBusy.into())
    }
}

/// Makes the empty log of a copy whose file was just made, once the file is locked.
fn make_log(rt: &HostRuntime, pair: &Pair, file: &File) -> io::Result<File> {
    lock_new(rt, pair.file.as_str(), file)?;
    make_new(rt, pair.log.as_str())
}

/// Makes the two empty files of a copy, and locks the first, or makes none.
fn make_pair(rt: &HostRuntime, pair: Pair) -> io::Result<Part> {
    let file = make_new(rt, pair.file.as_str())?;
    match make_log(rt, &pair, &file) {
        Ok(log) => Ok(Part { pair, file, log }),
        Err(error) => {
            let _ = remove(rt, pair.file.as_str());
            Err(error)
        }
    }
}

/// Whether a copy can't be begun by this name alone: another command has it, or has locked it.
fn is_passing(error: &io::Error) -> bool {
    matches!(
        error.kind(),
        ErrorKind::AlreadyExists | ErrorKind::ResourceBusy
    )
}

/// The paths of a copy beside a path, named after this moment.
fn pair_of_now(rt: &HostRuntime, base: &str, what: Use) -> Result<Pair, FileFault> {
    let (word, moment) = (what.word(), precise_moment(rt));
    let name = format!(in rt.alloc(); "{base}{word}{moment}")?;
    pair_at(rt.alloc(), name.as_str())
}

/// The empty files of a copy beside a path. No other command has their names, and no file that was there is touched.
/// Copies of the same name that a killed command has left are taken away before.
pub(crate) fn new_copy(rt: &HostRuntime, base: &str, what: Use) -> Result<Part, FileFault> {
    remove_left(rt, base);
    for _ in 0..TRIES {
        let pair = pair_of_now(rt, base, what)?;
        match make_pair(rt, pair) {
            Ok(part) => return Ok(part),
            Err(error) if is_passing(&error) => {}
            Err(error) => return Err(refused(&error)),
        }
    }
    Err(FileFault::Unavailable)
}

/// Takes the files of a copy away that are still there.
pub(crate) fn give_up(rt: &HostRuntime, part: &Part) {
    remove_pair(rt, &part.pair);
}

/// Whether a name is that of a copy that is made beside the file of another.
fn is_copy_of(name: &str, base: &str) -> bool {
    match name.strip_prefix(base) {
        Some(rest) => rest.len() == COPY_BYTES && is_copy(rest),
        None => false,
    }
}

/// Takes a copy away that nobody has: its file is there and can be locked, or only its log is left.
fn remove_unheld(rt: &HostRuntime, pair: &Pair) {
    match fs::symlink_metadata(rt, pair.file.as_str()) {
        Ok(there) if there.is_file() => {
            if let Some(left) = left_file(rt, pair.file.as_str()) {
                remove_pair(rt, pair);
                drop(left);
            }
        }
        Err(error) if error.kind() == ErrorKind::NotFound => {
            let _ = remove(rt, pair.log.as_str());
        }
        _ => {}
    }
}

/// Takes away what killed commands have left of copies beside a path.
pub(crate) fn remove_left(rt: &HostRuntime, base: &str) {
    let Ok(names) = fs::read_dir(rt, folder_of(base)) else {
        return;
    };
    for entry in names {
        let Ok(entry) = entry else {
            continue;
        };
        let name = entry.file_name();
        let file = name.strip_suffix("-wal").unwrap_or(name);
        if is_copy_of(file, last_of(base))
            && let Ok(path) = format!(in rt.alloc(); "{}/{file}", folder_of(base))
            && let Ok(pair) = pair_at(rt.alloc(), path.as_str())
        {
            remove_unheld(rt, &pair);
        }
    }
}

/// The path under which a restore keeps what it replaces, named after this moment.
pub(crate) fn replaced_at(rt: &HostRuntime, database: &str) -> Result<String, AllocError> {
    let moment = precise_moment(rt);
    format!(in rt.alloc(); "{database}-replaced-{moment}")
}
