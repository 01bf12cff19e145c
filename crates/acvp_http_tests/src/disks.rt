//! The two files of a database on disks in memory, one of which fails from a call on.

use sqlite::{Connection, FileStore, Files, Options};
use sqlite_disk::{Crash, Disk, Fuse, Memory};
use std::alloc::Global;
use std::process::Abort;

/// What the log and the database file hold.
#[derive(Drop)]
pub(crate) struct Held {
    log: Vec<u8>,
    database: Vec<u8>,
}

impl Held {
    /// Nothing.
    pub(crate) fn nothing(alloc: Global) -> Held {
        Held {
            log: Vec::new(alloc),
            database: Vec::new(alloc),
        }
    }

    /// The same.
    pub(crate) fn copied(&self, rt: &impl Abort, alloc: Global) -> Held {
        Held {
            log: copied(rt, alloc, &self.log),
            database: copied(rt, alloc, &self.database),
        }
    }
}

/// The disk that fails, from the call behind so many on.
#[derive(Clone, Copy)]
pub(crate) enum Stop {
    /// Neither.
    Never,

    /// That of the log.
    Log(u64),

    /// That of the database file.
    Database(u64),
}

/// Disks in memory, which may fail.
pub(crate) type Disks = Files<Fuse<Memory>>;

/// A store on them.
pub(crate) type MemoryStore = FileStore<Fuse<Memory>>;

/// A connection to the database on them.
pub(crate) type MemoryFile = Connection<MemoryStore>;

/// A disk that holds these bytes, and fails behind so many calls.
fn disk(rt: &impl Abort, alloc: Global, bytes: &[u8], calls: u64) -> Fuse<Memory> {
    let mut memory = Memory::new(alloc);
    memory.write_at(0, bytes).ok().expect(rt, "memory");
    memory.sync().ok().expect(rt, "memory");
    Fuse::new(memory, calls)
}

/// Disks that hold these bytes.
fn disks_with(rt: &impl Abort, alloc: Global, log: &[u8], database: &[u8], stop: Stop) -> Disks {
    let (log_calls, database_calls) = match stop {
        Stop::Never => (u64::MAX, u64::MAX),
        Stop::Log(calls) => (calls, u64::MAX),
        Stop::Database(calls) => (u64::MAX, calls),
    };
    Files {
        log: disk(rt, alloc, log, log_calls),
        db: disk(rt, alloc, database, database_calls),
    }
}

/// Disks that hold this.
pub(crate) fn disks(rt: &impl Abort, alloc: Global, held: &Held, stop: Stop) -> Disks {
    disks_with(rt, alloc, &held.log, &held.database, stop)
}

/// The database on disks, or they again.
pub(crate) fn opened(alloc: Global, files: Disks) -> Result<MemoryFile, Disks> {
    if !files.may_be_used() {
        return Err(files);
    }
    match Connection::open_files(alloc, files, Options::new(1)) {
        Ok(connection) => Ok(connection),
        Err((_, left)) => Err(left.into_files()),
    }
}

/// The disks once the log is copied into the database file, as far as they let it.
pub(crate) fn closed(connection: MemoryFile) -> Disks {
    match connection.close_files() {
        Ok(files) => files,
        Err((_, store)) => store.close(),
    }
}

/// Whether a disk fails from now on.
fn has_stopped(disk: &mut Fuse<Memory>) -> bool {
    !disk.may_be_used() || disk.len().is_err()
}

/// Whether either does.
pub(crate) fn have_stopped(files: &mut Disks) -> bool {
    has_stopped(&mut files.log) || has_stopped(&mut files.db)
}

/// The same bytes.
fn copied(rt: &impl Abort, alloc: Global, bytes: &[u8]) -> Vec<u8> {
    bytes.to_vec(alloc).ok().expect(rt, "memory")
}

/// What was written.
fn written(rt: &impl Abort, alloc: Global, disk: &Fuse<Memory>) -> Vec<u8> {
    copied(rt, alloc, disk.inner().bytes())
}

/// What was written on both.
pub(crate) fn all_written(rt: &impl Abort, alloc: Global, files: &Disks) -> Held {
    Held {
        log: written(rt, alloc, &files.log),
        database: written(rt, alloc, &files.db),
    }
}

/// What was written on disks, and what was synced alone.
#[derive(Drop)]
pub(crate) struct Left {
    all: Held,
    synced: Held,
}

/// Whether the log and the database file hold what was synced alone, for all that a crash may leave of them.
pub(crate) const OF_A_CRASH: [(bool, bool); 4] = [
    (false, false),
    (true, false),
    (false, true),
    (true, true),
];

impl Left {
    /// What the disks hold when the machine comes back: of each all that was written, or what was synced alone.
    pub(crate) fn held(
        &self,
        rt: &impl Abort,
        alloc: Global,
        (is_log_synced, is_database_synced): (bool, bool),
    ) -> Held {
        let log = if is_log_synced {
            &self.synced
        } else {
            &self.all
        };
        let database = if is_database_synced {
            &self.synced
        } else {
            &self.all
        };
        Held {
            log: copied(rt, alloc, &log.log),
            database: copied(rt, alloc, &database.database),
        }
    }
}

/// What is left of disks by a crash.
pub(crate) fn left_by_a_crash(rt: &impl Abort, alloc: Global, files: Disks) -> Left {
    let mut files = files;
    let all = all_written(rt, alloc, &files);
    files.log.crash();
    files.db.crash();
    Left {
        all,
        synced: all_written(rt, alloc, &files),
    }
}
