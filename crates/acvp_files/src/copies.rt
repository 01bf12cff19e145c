//! Whole copies of a database: a backup, also while it is served, and the tables of one that is looked at.
use crate::fault::{CopyFault, Step, at};
use crate::naming::{give_name, keep_names};
use crate::parts::{Pair, Part, Use, give_up, new_copy, pair_at};
use crate::progress::{end_copied, tell_copied, tell_copied_whole};
use crate::rows::count_rows;
use acvp_causes::{Mark, cause_of_source, is_database, is_moved, mark_of, name_of};
use acvp_connections::{
    FileConnection, FileFault, FileNumber, Unopened, Watch, Watched, connect_there, copied, done,
    fault_of_cause, file_at, remove, settle_names,
};
use acvp_copying::{Copying, Half, Making, Naming, Seen, copy_whole};
use acvp_store::{SqlTables, adopt};
use sqlite::{Alter, Connection, FileFrom, FileStore, Wary};
use sqlite_disk::Disk;
use std::alloc::{AllocGlobal, Global};
use std::fs::{self, File};
use std::io::{self, ErrorKind, Read, Seek};

/// How many bytes are copied at once.
const PIECE: u64 = 67108864;

/// What is seen of a database's files.
fn look_at(rt: &HostRuntime, pair: &Pair) -> io::Result<Seen<FileNumber>> {
    let log = match file_at(rt, pair.log.as_str()) {
        Ok(log) => Some(log),
        Err(error) if error.kind() == ErrorKind::NotFound => None,
        Err(error) => return Err(error),
    };
    Ok(Seen {
        file: file_at(rt, pair.file.as_str())?,
        log,
        mark: mark_of(rt, pair.log.as_str())?,
    })
}

/// Copies what is left of a file behind what another one holds.
fn copy_all_pieces(rt: &HostRuntime, mut from: &File, mut to: &File, all: u64) -> io::Result<()> {
    tell_copied(rt, 0, all);
    for piece in 0..all / PIECE {
        io::copy(&mut from.take(PIECE), &mut to)?;
        tell_copied(rt, piece.saturating_add(1).saturating_mul(PIECE), all);
    }
    // The last piece; and what was added to the file meanwhile.
    io::copy(&mut from, &mut to)?;
    Ok(())
}

/// The same, and says on a terminal how much of it is copied.
fn copy_pieces(rt: &HostRuntime, from: &File, to: &File) -> io::Result<()> {
    let all = from.metadata()?.len();
    let outcome = copy_all_pieces(rt, from, to, all);
    match &outcome {
        Ok(()) => tell_copied_whole(rt, all),
        Err(_) => end_copied(rt, all),
    }
    outcome
}

/// Copies a file into an open one, in the place of all that this holds, and says whether it is there. One that isn't
/// there has an empty copy.
pub(crate) fn copy_file(rt: &HostRuntime, from: &str, mut to: &File) -> io::Result<bool> {
    to.set_len(0)?;
    to.rewind()?;
    let source = match File::open(rt, from) {
        Ok(source) => source,
        Err(error) if error.kind() == ErrorKind::NotFound => return Ok(false),
        Err(error) => return Err(error),
    };
    copy_pieces(rt, &source, to)?;
    Ok(true)
}

/// The same of a file that must be there.
pub(crate) fn copy_there(rt: &HostRuntime, from: &str, to: &File) -> io::Result<()> {
    if copy_file(rt, from, to)? {
        Ok(())
    } else {
        Err(ErrorKind::NotFound.into())
    }
}

/// A connection to a database that nobody else has.
pub(crate) fn connection_to(
    rt: &HostRuntime,
    path: &str,
) -> Result<FileConnection<Wary>, FileFault> {
    match connect_there(rt, path, Wary, &Watch::of(rt, path)) {
        Ok(connection) => Ok(connection),
        Err(Unopened::Taken) => Err(FileFault::Unavailable),
        Err(Unopened::Failed(fault)) => Err(fault),
    }
}

/// Takes over the tables of this version.
fn taken_over<S: Alter + Drop>(
    alloc: Global,
    connection: Connection<S>,
) -> Result<SqlTables<S>, FileFault> {
    match adopt(alloc, connection) {
        Ok(tables) => Ok(tables),
        Err((_, fault)) => Err(FileFault::from(fault)),
    }
}

/// Takes over the tables of this version, and gives the connection to them back.
pub(crate) fn with_tables<S: Alter + Drop>(
    alloc: Global,
    connection: Connection<S>,
) -> Result<Connection<S>, FileFault> {
    match taken_over(alloc, connection) {
        Ok(tables) => Ok(tables.into_connection()),
        Err(fault) => Err(fault),
    }
}

/// Copies what the log of a copy holds into its file, and takes the log away. The copy still has its name then.
pub(crate) fn merge<D: Disk + Drop>(
    rt: &HostRuntime,
    part: &Part,
    connection: Connection<FileStore<D>>,
) -> Result<(), FileFault> {
    if copied(connection).is_none() || !done(is_database(rt, part.pair.file.as_str()))? {
        return Err(FileFault::Unavailable);
    }
    done(part.is_still_named(rt))?;
    done(remove(rt, part.pair.log.as_str()))
}

/// A connection to a copy that was made.
pub(crate) fn connection_to_part(
    rt: &HostRuntime,
    part: &Part,
) -> Result<FileConnection<Wary>, FileFault> {
    connection_to(rt, part.pair.file.as_str())
}

/// Takes over tables that are to be served, which must be those of this version.
fn if_known<S: Alter + Drop>(
    alloc: Global,
    connection: Connection<S>,
    is_served: bool,
) -> Result<Connection<S>, FileFault> {
    if is_served {
        with_tables(alloc, connection)
    } else {
        Ok(connection)
    }
}

/// Says how many rows a copy has, and gives its connection back. If it is to be served, its tables must be those of
/// this version.
fn counted_if_known<S: Alter + Drop>(
    alloc: Global,
    connection: Connection<S>,
    is_served: bool,
) -> Result<(Connection<S>, u64), FileFault> {
    let mut known = if_known(alloc, connection, is_served)?;
    match count_rows(alloc, &mut known) {
        Ok(count) => Ok((known, count)),
        Err(fault) => Err(fault),
    }
}

/// Has all that a copy's database and its log hold in the file alone, and says how many rows it has. If it is to be
/// served, its tables must be those of this version.
fn finish<D: Disk + Drop>(
    rt: &HostRuntime,
    connection: Connection<FileStore<D>>,
    part: &Part,
    is_served: bool,
) -> Result<u64, FileFault> {
    match counted_if_known(rt.alloc(), connection, is_served) {
        Ok((counted, rows)) => match merge(rt, part, counted) {
            Ok(()) => Ok(rows),
            Err(fault) => Err(fault),
        },
        Err(fault) => Err(fault),
    }
}

/// Makes one whole file of a copy and its log, and says how many rows it has.
fn finish_part(rt: &HostRuntime, part: &Part, is_served: bool) -> Result<u64, FileFault> {
    match connection_to_part(rt, part) {
        Ok(connection) => finish(rt, connection, part, is_served),
        Err(fault) => Err(fault),
    }
}

/// A database, the copy that is made of it, and where the copy is to be.
#[derive(Clone, Copy)]
pub(crate) struct CopyOf<'a> {
    pub(crate) rt: &'a HostRuntime,

    /// The database.
    pub(crate) source: &'a Pair,

    /// The copy, under its first name.
    pub(crate) part: &'a Part,

    /// Whether it is to be served: its tables must be those of this version.
    pub(crate) is_served: bool,

    /// The path that it is to have.
    pub(crate) to: &'a str,
}

impl Making for CopyOf<'_> {
    ghost use Rattle.std.specs.Prelude.{⊤};

    type Number = FileNumber;

    type Fault = CopyFault;

    // No contract can say what files hold.
    ghost does = { λ _ _ _. ⊤ };

    fn is_still_named(&mut self) -> Result<(), CopyFault> {
        at(Step::Target, done(self.part.is_still_named(self.rt)))
    }
}

impl Copying for CopyOf<'_> {
    fn look(&mut self) -> Result<Seen<FileNumber>, CopyFault> {
        at(Step::Copying, done(look_at(self.rt, self.source)))
    }

    fn are_apart(&mut self) -> Result<bool, CopyFault> {
        let (file, log) = (self.source.file.as_str(), self.source.log.as_str());
        match is_moved(self.rt, file, log) {
            Ok(is_apart) => Ok(is_apart),
            Err(error) => at(Step::Copying, Err(FileFault::from(error))),
        }
    }

    fn copy(&mut self, half: Half) -> Result<bool, CopyFault> {
        match half {
            Half::File => {
                let outcome = copy_there(self.rt, self.source.file.as_str(), &self.part.file);
                at(Step::Copying, done(outcome))?;
                Ok(true)
            }
            Half::Log => {
                let outcome = copy_file(self.rt, self.source.log.as_str(), &self.part.log);
                at(Step::Copying, done(outcome))
            }
        }
    }

    fn sync(&mut self, half: Half) -> Result<(), CopyFault> {
        let outcome = match half {
            Half::File => self.part.file.sync_all(),
            Half::Log => self.part.log.sync_all(),
        };
        at(Step::Copying, done(outcome))
    }

    fn mark_of_copy(&mut self) -> Result<Mark, CopyFault> {
        at(
            Step::Copying,
            done(mark_of(self.rt, self.part.pair.log.as_str())),
        )
    }

    fn finish(&mut self) -> Result<u64, CopyFault> {
        at(
            Step::Content,
            finish_part(self.rt, self.part, self.is_served),
        )
    }

    fn fault_of_changes(&self) -> CopyFault {
        CopyFault {
            step: Step::Source,
            fault: FileFault::Unavailable,
        }
    }
}

impl Naming for CopyOf<'_> {
    fn give_name(&mut self) -> Result<(), CopyFault> {
        at(Step::Target, give_name(self.rt, self.part, self.to))
    }

    fn sync_folder(&mut self) -> Result<(), CopyFault> {
        at(Step::Target, done(keep_names(self.rt, self.to)))
    }
}

/// The paths of the database of a name that is to be copied, if it can be.
pub(crate) fn source_at(rt: &HostRuntime, from: &str) -> Result<Pair, CopyFault> {
    settle_names(rt, from);
    if let Some(because) = cause_of_source(rt, "", from) {
        return at(Step::Source, Err(fault_of_cause(because.cause)));
    }
    at(Step::Copying, pair_at(rt.alloc(), from))
}

/// Copies the database of a name into the empty files of a copy, which still have their names then.
fn copy_into(rt: &HostRuntime, from: &str, part: &Part) -> Result<(), CopyFault> {
    let source = source_at(rt, from)?;
    copy_whole(&mut CopyOf {
        rt,
        source: &source,
        part,
        is_served: false,
        to: part.pair.file.as_str(),
    })
}

/// The tables in a file.
pub type FileTables = SqlTables<FileStore<Watched<FileFrom<Wary>>>>;

/// Copies the database of a name, and opens the copy.
fn connection_to_copy(
    rt: &HostRuntime,
    from: &str,
    part: &Part,
) -> Result<FileConnection<Wary>, FileFault> {
    match copy_into(rt, from, part) {
        Ok(()) => connection_to_part(rt, part),
        Err(told) => Err(told.fault),
    }
}

/// A connection to a copy of the database of a name, whose files have no names any more: nothing of it is left when it
/// is given up.
fn connection_to_look(rt: &HostRuntime, from: &str) -> Result<FileConnection<Wary>, FileFault> {
    let part = new_copy(rt, from, Use::Look)?;
    let connection = connection_to_copy(rt, from, &part);
    give_up(rt, &part);
    connection
}

/// A connection to a copy of the database at a path.
fn connection_to_look_at(rt: &HostRuntime, path: &str) -> Result<FileConnection<Wary>, FileFault> {
    let name = done(name_of(rt, path))?;
    connection_to_look(rt, name.as_str())
}

/// The tables of a copy of the database at a path, also while it is served.
pub fn tables_of_copy(rt: &HostRuntime, database: &str) -> Result<FileTables, FileFault> {
    match connection_to_look_at(rt, database) {
        Ok(connection) => taken_over(rt.alloc(), connection),
        Err(fault) => Err(fault),
    }
}

/// The number of the schema that a database names, if it names one.
pub fn schema_in<S: Alter + Drop>(connection: &mut Connection<S>) -> Option<i64> {
    let Ok(rows) = connection.query_all("SELECT value FROM meta WHERE name = 'schema'", &[]) else {
        return None;
    };
    match rows.as_slice().first() {
        Some(row) => row.get(0).ok(),
        None => None,
    }
}

/// The same of a copy of the database at a path. The fault is that of the copy.
pub fn schema_of_copy(rt: &HostRuntime, database: &str) -> Result<Option<i64>, FileFault> {
    match connection_to_look_at(rt, database) {
        Ok(connection) => {
            let mut connection = connection;
            Ok(schema_in(&mut connection))
        }
        Err(fault) => Err(fault),
    }
}
