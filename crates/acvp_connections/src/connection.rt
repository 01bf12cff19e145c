//! Connections to the database in a file.
ghost use Rattle.std.specs.Prelude.{◌≡◌, IfNone, IfOk, IfSome, IsErr, IsTrue, Ok, codes, false, true};
ghost use Rattle.std.specs.Result.{result_ok};
ghost use Rattle.sqlite.specs.Closing.{IsCopied};
ghost use Rattle.sqlite.specs.Files.{IsClosed};
ghost use Rattle.sqlite_std_file.specs.File.{IsFresh, file_is_usable};
ghost use Rattle.sqlite_wal.specs.Files.{image_at};
ghost use Rattle.sqlite_wal.specs.Reads.{AreClean};
ghost use Rattle.acvp_connections.specs.Connections.{IsConnected};
ghost use Rattle.acvp_connections.specs.Faults.{why_unfound};

use crate::fault::{FileFault, fault_of_cause, fault_of_error, refused};
use crate::left::settle_names;
use crate::number::{FileNumber, file_at};
use crate::passing::Passing;
use crate::watch::Watch;
use crate::watched::Watched;
use acvp_causes::{
    cause_of_files, cause_of_path, has_log, is_companion, is_copy, is_foreign, is_left_alone,
    is_moved,
};
use sqlite::{Connection, Error, FileFrom, FileStore, Files, Leftover, Options, Start};
use sqlite_disk::Disk;
use sqlite_std_file::OpenError;
use std::alloc::AllocGlobal;
use std::fs::{self, OpenOptions};
use std::hash::{BuildHasher, RandomState};
use std::io::ErrorKind;
use std::os::unix::fs::OpenOptionsExt;

/// A connection to the database in a file, whose reads and writes are counted.
pub type FileConnection<S> = Connection<FileStore<Watched<FileFrom<S>>>>;

/// Why there is no connection to a database.
#[derive(Clone, Copy)]
pub enum Unopened {
    /// Another process has it.
    Taken,

    /// It can't be opened.
    Failed(FileFault),
}

/// Why the files of a database can't be opened.
fn why_unfound(error: OpenError) -> Unopened
    ensures { result ≡ why_unfound error }
{
    match error {
        OpenError::Busy => Unopened::Taken,
        OpenError::OutOfMemory => Unopened::Failed(FileFault::Memory),
        OpenError::Io(error) => Unopened::Failed(refused(&error)),
        OpenError::HotJournal => Unopened::Failed(FileFault::Unavailable),
    }
}

/// The file at a path and its log, which are made where there are none. What SQLite takes for a path of its own is
/// none.
fn files_at<S: Start>(
    rt: &HostRuntime,
    path: &str,
    start: S,
) -> Result<Files<FileFrom<S>>, Unopened>
    ensures memory { path.now ≡ codes ":memory:" → IsErr result }
    ensures usable { IfOk result (λ files.
        IsTrue (file_is_usable S.Start files.log) × IsTrue (file_is_usable S.Start files.db)) }
    ensures fresh { IfOk result (λ files. IsFresh true files.log × IsFresh false files.db) }
{
    if path == ":memory:" || path.starts_with("file:") {
        return Err(Unopened::Failed(FileFault::Unavailable));
    }
    match sqlite_std_file::open(rt, path, start) {
        Ok(files) => Ok(files),
        Err(error) => Err(why_unfound(error)),
    }
}

/// How a database is opened: the header of its log gets a random number.
fn options(rt: &HostRuntime) -> Result<Options, Unopened> {
    match RandomState::new(rt) {
        Ok(state) => Ok(Options::new(state.hash_one(&0u8))),
        Err(_) => Err(Unopened::Failed(FileFault::Unavailable)),
    }
}

/// A connection that was opened, with the machine's clock. What an open has left that failed is given up.
fn clocked<D: Disk + Drop>(
    rt: &HostRuntime,
    opened: Result<Connection<FileStore<D>>, (Error, Leftover<D>)>,
) -> Result<Connection<FileStore<D>>, Unopened>
    ensures { IfOk result (λ connection. opened ≡ Ok connection) }
{
    match opened {
        Ok(mut connection) => {
            connection.set_clock(rt);
            Ok(connection)
        }
        Err((error, _)) => Err(Unopened::Failed(fault_of_error(error))),
    }
}

/// A connection to the database in a file, which is made where there is none. The pages of a new one have sums.
fn connect<S: Start>(
    rt: &HostRuntime,
    path: &str,
    start: S,
    watch: &Watch,
) -> Result<FileConnection<S>, Unopened>
    ensures memory { path.now ≡ codes ":memory:" → IsErr result }
    ensures connected { IfOk result (IsConnected (image_at S.Start)) }
{
    let files = files_at(rt, path, start)?;
    let options = options(rt)?;
    let watched = Files {
        log: Watched::of(files.log, Watch::nobody()),
        db: Watched::of(files.db, watch.shared()),
    };
    watch.begin_open();
    let opened = Connection::open_files_with(rt.alloc(), watched, options, true);
    watch.end();
    clocked(rt, opened)
}

/// Whether the files of a name may be taken for a database's: the file, if it is there, isn't mounted by itself, and no
/// other user has made what lies beside it.
fn may_be_taken(rt: &HostRuntime, path: &str) -> Result<(), FileFault> {
    match cause_of_files(rt, "", path) {
        None => Ok(()),
        Some(because) => Err(fault_of_cause(because.cause)),
    }
}

/// Whether a name is still that of the file that it was of, and the files beside it may be taken.
fn is_still(rt: &HostRuntime, path: &str, file: FileNumber) -> Result<(), FileFault> {
    match file_at(rt, path) {
        Ok(there) if there == file => may_be_taken(rt, path),
        Ok(_) => Err(FileFault::Unavailable),
        Err(error) => Err(refused(&error)),
    }
}

/// Whether the log that has the name beside a database is the one that its connection has, which locks both.
fn has_its_log(rt: &HostRuntime, path: &str) -> Result<(), FileFault> {
    let log = format!(in rt.alloc(); "{path}-wal")?;
    if is_moved(rt, path, log.as_str())? {
        Err(FileFault::Unavailable)
    } else {
        Ok(())
    }
}

/// Whether the names of a database and of its log are still those of what a connection has, and may be taken.
fn are_still(rt: &HostRuntime, path: &str, file: FileNumber) -> Result<(), FileFault> {
    is_still(rt, path, file)?;
    has_its_log(rt, path)
}

/// A connection to the database in a file that is there. The system opens a name and locks the file only then: a file
/// that was replaced between the two is nobody's any more, so it is looked at the name once more behind the lock.
fn connect_held<S: Start>(
    rt: &HostRuntime,
    path: &str,
    start: S,
    watch: &Watch,
) -> Result<FileConnection<S>, Unopened>
    ensures memory { path.now ≡ codes ":memory:" → IsErr result }
    ensures connected { IfOk result (IsConnected (image_at S.Start)) }
{
    let file = match file_at(rt, path) {
        Ok(file) => file,
        Err(error) => return Err(Unopened::Failed(refused(&error))),
    };
    let connection = connect(rt, path, start, watch)?;
    match are_still(rt, path, file) {
        Ok(()) => Ok(connection),
        Err(fault) => Err(Unopened::Failed(fault)),
    }
}

/// Whether there is no log beside a database.
pub fn has_no_log(rt: &HostRuntime, path: &str) -> bool {
    match format!(in rt.alloc(); "{path}-wal") {
        Ok(log) => match fs::symlink_metadata(rt, log.as_str()) {
            Ok(_) => false,
            Err(error) => error.kind() == ErrorKind::NotFound,
        },
        Err(_) => false,
    }
}

/// A connection to the database in a file. If the file holds something else, and there is no log that could make it
/// one, it isn't opened; nor if another user has made what lies beside it.
fn connect_known<S: Start>(
    rt: &HostRuntime,
    path: &str,
    start: S,
    watch: &Watch,
) -> Result<FileConnection<S>, Unopened>
    ensures memory { path.now ≡ codes ":memory:" → IsErr result }
    ensures connected { IfOk result (IsConnected (image_at S.Start)) }
{
    settle_names(rt, path);
    if let Err(fault) = may_be_taken(rt, path) {
        return Err(Unopened::Failed(fault));
    }
    if has_no_log(rt, path) && is_foreign(rt, path) {
        return Err(Unopened::Failed(FileFault::Unavailable));
    }
    connect_held(rt, path, start, watch)
}

/// Refuses a path that a database can't be made at: it is that of a file that lies beside a database, it ends without a
/// name or with one that is too long for copies, or beside it there is a log that another has left.
fn may_be_made(rt: &HostRuntime, path: &str) -> Result<(), FileFault> {
    if is_companion(path)
        || is_copy(path)
        || cause_of_path(path).is_some()
        || is_left_alone(rt, path)?
    {
        Err(FileFault::Unavailable)
    } else {
        Ok(())
    }
}

/// Makes an empty file for its owner alone, where there is none. Its log is made for whom the file is.
fn make_private(rt: &HostRuntime, path: &str) {
    let mut options = OpenOptions::new();
    let _ = options
        .write(true)
        .create_new(true)
        .mode(0o600)
        .open(rt, path);
}

/// A connection to the database in a file, which is made for its owner alone where there is none. It isn't made beside
/// a log that another has left, nor with the name of a file that lies beside a database.
pub fn connect_new<S: Start>(
    rt: &HostRuntime,
    path: &str,
    start: S,
    watch: &Watch,
) -> Result<FileConnection<S>, Unopened>
    ensures memory { path.now ≡ codes ":memory:" → IsErr result }
    ensures connected { IfOk result (IsConnected (image_at S.Start)) }
{
    if let Err(fault) = may_be_made(rt, path) {
        return Err(Unopened::Failed(fault));
    }
    if path != ":memory:" {
        make_private(rt, path);
    }
    connect_known(rt, path, start, watch)
}

/// A connection to the database in a file that is there, or to an empty file.
pub fn connect_there<S: Start>(
    rt: &HostRuntime,
    path: &str,
    start: S,
    watch: &Watch,
) -> Result<FileConnection<S>, Unopened>
    ensures memory { path.now ≡ codes ":memory:" → IsErr result }
    ensures connected { IfOk result (IsConnected (image_at S.Start)) }
{
    match fs::exists(rt, path) {
        Ok(true) => connect_known(rt, path, start, watch),
        Ok(false) => Err(Unopened::Failed(FileFault::Unavailable)),
        Err(error) => Err(Unopened::Failed(refused(&error))),
    }
}

/// Whether a file is there that holds nothing, and no log that could fill it: an open would make it a database.
fn is_blank(rt: &HostRuntime, path: &str) -> bool {
    matches!(fs::metadata(rt, path), Ok(there) if there.len() == 0) && !has_log(rt, path)
}

/// A connection to the database in a file that is there. An empty file has no tables, and stays as it is.
pub fn connect_existing<S: Start>(
    rt: &HostRuntime,
    path: &str,
    start: S,
    watch: &Watch,
) -> Result<FileConnection<S>, Unopened>
    ensures memory { path.now ≡ codes ":memory:" → IsErr result }
    ensures connected { IfOk result (IsConnected (image_at S.Start)) }
{
    settle_names(rt, path);
    if let Err(fault) = may_be_taken(rt, path) {
        return Err(Unopened::Failed(fault));
    }
    if is_blank(rt, path) {
        return Err(Unopened::Failed(FileFault::Schema));
    }
    connect_there(rt, path, start, watch)
}

/// The files that a close has handed back. None where it failed: its store is given up.
fn files_of<D: Disk + Drop>(closed: Result<Files<D>, (Error, FileStore<D>)>) -> Option<Files<D>>
    ensures { result ≡ result_ok closed }
{
    match closed {
        Ok(files) => Some(files),
        Err((_, store)) => {
            drop(store.close());
            None
        }
    }
}

/// Copies what the log beside the file holds into the file, and hands both back: what was committed is in the file
/// then, as it reads and as a crash leaves it. Nothing where that fails: what was committed is kept also then, the log
/// stays, and the next command reads it.
pub fn copied<D: Disk + Drop>(connection: Connection<FileStore<D>>) -> Option<Files<D>>
    ensures copied { IfSome result (λ files. AreClean D.Disk files.log files.db → IsCopied connection files) }
    ensures kept { IfNone result ((last : _) × IsClosed connection last) }
{
    files_of(connection.close_files())
}

/// Closes the file and the log beside it, once the one is copied into the other.
pub fn close<D: Disk + Drop>(connection: Connection<FileStore<D>>) {
    drop(copied(connection));
}
