//! Backups of a database, and the way back from one.
use crate::copies::{CopyOf, connection_to, copy_there, source_at};
use crate::fault::{CopyFault, Step, at};
use crate::naming::{NewName, give_name, keep_names};
use crate::parts::{Pair, Part, Use, give_up, has_name, new_copy, pair_at, replaced_at};
use crate::sums::copy_with_sums;
use acvp_causes::{
    cause_of_folder, cause_of_path, folder_of, has_journal, has_log, has_sums, holds_any,
    is_companion, is_copy, is_database, is_held_by_any, last_of, name_of,
};
use acvp_connections::{
    FileFault, FileNumber, copied, done, fault_of_cause, file_at, number_of, refused, remove,
};
use acvp_copying::{
    InPlace, Making, Naming, Placing, Replacing, Restoring, back_up, bring_back, place_alone,
    replace_kept,
};
use std::alloc::{AllocError, AllocGlobal, Global};
use std::fs::{self, Metadata};
use std::io::{self, ErrorKind};

/// Whether there is a file of a path, whatever it is.
fn is_there(rt: &HostRuntime, path: &str) -> io::Result<bool> {
    match fs::symlink_metadata(rt, path) {
        Ok(_) => Ok(true),
        Err(error) if error.kind() == ErrorKind::NotFound => Ok(false),
        Err(error) => Err(error),
    }
}

/// Whether somebody has the log of a name, as a server does whose file was moved away from it.
fn is_log_held(rt: &HostRuntime, path: &str) -> Result<bool, FileFault> {
    let log = format!(in rt.alloc(); "{path}-wal")?;
    Ok(is_held_by_any(rt, log.as_str())?)
}

/// Whether a new database can't have a name: there is a file, or a log or a journal that would be taken for its own.
fn is_taken(rt: &HostRuntime, path: &str) -> Result<bool, FileFault> {
    Ok(
        done(is_there(rt, path))?
            || has_log(rt, path)
            || is_log_held(rt, path)?
            || has_journal(rt, path)?,
    )
}

/// Refuses a path that ends as that of a file beside a database, without a name, or with one too long for copies.
fn may_be_named(path: &str) -> Result<(), FileFault> {
    if is_companion(path) || is_copy(path) || cause_of_path(path).is_some() {
        Err(FileFault::Unavailable)
    } else {
        Ok(())
    }
}

/// Refuses a path that no new file can have: by how it ends, or since the way to it goes by a link that isn't followed.
pub(crate) fn may_have_path(rt: &HostRuntime, path: &str) -> Result<(), FileFault> {
    may_be_named(path)?;
    match cause_of_folder(rt, path) {
        Some(cause) => Err(fault_of_cause(cause)),
        None => Ok(()),
    }
}

/// Refuses a path that a new file can't have, or that is taken.
pub(crate) fn may_be_made(rt: &HostRuntime, path: &str) -> Result<(), FileFault> {
    may_have_path(rt, path)?;
    if is_taken(rt, path)? {
        return Err(FileFault::Taken);
    }
    Ok(())
}

/// The path beside which the copy of a database is made that gets a name: the database's own name, in the folder of
/// the other. So a later backup finds what a killed one has left.
fn base_for(alloc: Global, database: &str, to: &str) -> Result<String, AllocError> {
    format!(in alloc; "{}/{}", folder_of(to), last_of(database))
}

/// The empty files of the copy of a database that is to have a path.
fn new_part(rt: &HostRuntime, database: &str, to: &str) -> Result<Part, FileFault> {
    may_be_made(rt, to)?;
    let base = base_for(rt.alloc(), database, to)?;
    new_copy(rt, base.as_str(), Use::Part)
}

/// Makes a whole copy of the database of a name, and gives it a path that no file has.
fn back_up_part(rt: &HostRuntime, database: &str, part: &Part, to: &str) -> Result<u64, CopyFault> {
    let source = source_at(rt, database)?;
    back_up(&mut CopyOf {
        rt,
        source: &source,
        part,
        is_served: false,
        to,
    })
}

/// Makes a copy of the database of a name, whole, and says how many rows it has.
fn backup_of(rt: &HostRuntime, database: &str, to: &str) -> Result<u64, CopyFault> {
    let part = at(Step::Begin, new_part(rt, database, to))?;
    let outcome = back_up_part(rt, database, &part, to);
    give_up(rt, &part);
    outcome
}

/// Makes a copy of the database at a path, whole, also while it is served, and says how many rows it has. Another file
/// isn't written over.
pub fn backup(rt: &HostRuntime, database: &str, to: &str) -> Result<u64, CopyFault> {
    let name = at(Step::Source, done(name_of(rt, database)))?;
    if cause_of_path(name.as_str()).is_some() {
        return at(Step::Source, Err(FileFault::Unavailable));
    }
    backup_of(rt, name.as_str(), to)
}

/// Whether a file still has its path.
fn is_still_there(rt: &HostRuntime, path: &str, number: FileNumber) -> bool {
    matches!(file_at(rt, path), Ok(there) if there == number)
}

/// A copy, a database in whose place it is to be put, and another copy, of that database.
#[derive(Clone, Copy)]
struct Replacement<'a> {
    rt: &'a HostRuntime,

    /// The copy that is put in its place.
    part: &'a Part,

    /// The database that is replaced, and what it is.
    database: &'a Pair,
    there: &'a Metadata,

    /// The copy of it, and the path under which it is kept.
    old: &'a Part,
    kept: &'a str,
}

impl Making for Replacement<'_> {
    ghost use Rattle.std.specs.Prelude.{⊤};

    type Number = FileNumber;

    type Fault = FileFault;

    // No contract can say what files hold.
    ghost does = { λ _ _ _. ⊤ };

    fn is_still_named(&mut self) -> Result<(), FileFault> {
        done(self.old.is_still_named(self.rt))
    }
}

impl Naming for Replacement<'_> {
    fn give_name(&mut self) -> Result<(), FileFault> {
        give_name(self.rt, self.old, self.kept)
    }

    fn sync_folder(&mut self) -> Result<(), FileFault> {
        done(keep_names(self.rt, self.database.file.as_str()))
    }
}

impl Placing for Replacement<'_> {
    fn is_log_full(&mut self) -> Result<bool, FileFault> {
        done(holds_any(self.rt, self.database.log.as_str()))
    }

    fn is_log_held(&mut self) -> Result<bool, FileFault> {
        Ok(is_held_by_any(self.rt, self.database.log.as_str())?)
    }

    fn remove_log(&mut self) -> Result<(), FileFault> {
        done(remove(self.rt, self.database.log.as_str()))
    }

    fn fault_of_place(&self) -> FileFault {
        FileFault::Unavailable
    }
}

impl Replacing for Replacement<'_> {
    fn copy_old(&mut self) -> Result<(), FileFault> {
        done(copy_there(self.rt, self.database.file.as_str(), &self.old.file))
    }

    fn sync_old(&mut self) -> Result<(), FileFault> {
        done(self.old.file.sync_all())
    }

    fn keep_access(&mut self) -> Result<(), FileFault> {
        done(self.old.keep_access(self.there))
    }

    fn is_still_there(&mut self) -> bool {
        is_still_there(self.rt, self.database.file.as_str(), number_of(self.there))
    }

    fn take_path(&mut self) -> Result<(), FileFault> {
        let (from, to) = (self.part.pair.file.as_str(), self.database.file.as_str());
        done(fs::rename(self.rt, from, to))
    }

    fn drop_kept(&mut self) {
        let path = self.database.file.as_str();
        if is_still_there(self.rt, path, number_of(self.there))
            && matches!(has_name(self.rt, &self.old.file, self.kept), Ok(true))
        {
            let _ = remove(self.rt, self.kept);
        }
    }
}

/// The same, where no other file may have the name that is given.
fn unless_taken<T>(outcome: Result<T, FileFault>) -> Result<T, FileFault> {
    match outcome {
        Err(FileFault::Taken) => Err(FileFault::Unavailable),
        outcome => outcome,
    }
}

/// Keeps a copy of a database, puts another in its place, and says under which name the first is kept. A database that
/// is still there needs none.
fn keep_and_take(
    rt: &HostRuntime,
    part: &Part,
    database: &Pair,
    there: &Metadata,
    old: &Part,
) -> Result<InPlace<String>, FileFault> {
    let kept = replaced_at(rt, database.file.as_str())?;
    let mut files = Replacement {
        rt,
        part,
        database,
        there,
        old,
        kept: kept.as_str(),
    };
    match unless_taken(replace_kept(&mut files)) {
        Ok(in_place) => Ok(in_place.named(kept)),
        Err(fault) => Err(fault),
    }
}

/// Puts a copy in the place of a database of this number, whose log holds nothing, and says under which name another
/// copy keeps what was there.
fn put_in_place(
    rt: &HostRuntime,
    part: &Part,
    database: &Pair,
    number: FileNumber,
) -> Result<InPlace<String>, FileFault> {
    let there = done(fs::symlink_metadata(rt, database.file.as_str()))?;
    if number_of(&there) != number {
        return Err(FileFault::Unavailable);
    }
    done(part.keep_access(&there))?;
    done(part.is_still_named(rt))?;
    let copy = new_copy(rt, database.file.as_str(), Use::Part)?;
    let outcome = keep_and_take(rt, part, database, &there, &copy);
    give_up(rt, &copy);
    outcome
}

/// Puts a copy in the place of a database that is there, and that nobody else may have meanwhile. What its log holds
/// goes into its file before, so that it is whole until the other is in its place, and so is the copy that is kept.
fn replace_there(
    rt: &HostRuntime,
    part: &Part,
    database: &Pair,
) -> Result<InPlace<String>, FileFault> {
    let path = database.file.as_str();
    if !done(is_database(rt, path))? {
        return Err(FileFault::Unavailable);
    }
    let number = done(file_at(rt, path))?;
    let held = copied(connection_to(rt, path)?);
    if held.is_none() {
        return Err(FileFault::Unavailable);
    }
    let outcome = put_in_place(rt, part, database, number);
    drop(held);
    outcome
}

/// A copy, and the path of a database that isn't there.
#[derive(Clone, Copy)]
struct Vacancy<'a> {
    name: NewName<'a>,

    /// The path of the log that would be taken for the copy's.
    log: &'a str,
}

impl Making for Vacancy<'_> {
    ghost use Rattle.std.specs.Prelude.{⊤};

    type Number = FileNumber;

    type Fault = FileFault;

    // No contract can say what files hold.
    ghost does = { λ _ _ _. ⊤ };

    fn is_still_named(&mut self) -> Result<(), FileFault> {
        self.name.is_still_named()
    }
}

impl Naming for Vacancy<'_> {
    fn give_name(&mut self) -> Result<(), FileFault> {
        self.name.give_name()
    }

    fn sync_folder(&mut self) -> Result<(), FileFault> {
        self.name.sync_folder()
    }
}

impl Placing for Vacancy<'_> {
    fn is_log_full(&mut self) -> Result<bool, FileFault> {
        done(holds_any(self.name.rt, self.log))
    }

    fn is_log_held(&mut self) -> Result<bool, FileFault> {
        Ok(is_held_by_any(self.name.rt, self.log)?)
    }

    fn remove_log(&mut self) -> Result<(), FileFault> {
        done(remove(self.name.rt, self.log))
    }

    fn fault_of_place(&self) -> FileFault {
        FileFault::Unavailable
    }
}

/// Puts a copy where there is no database, nor a log that holds something or that somebody has.
fn place_part(
    rt: &HostRuntime,
    part: &Part,
    database: &Pair,
) -> Result<InPlace<String>, FileFault> {
    unless_taken(place_alone(&mut Vacancy {
        name: NewName {
            rt,
            part,
            to: database.file.as_str(),
        },
        log: database.log.as_str(),
    }))
}

/// Puts a copy in the place of a database, or where there is none. It gives the name under which what was there is
/// kept.
fn replace(rt: &HostRuntime, part: &Part, database: &Pair) -> Result<InPlace<String>, FileFault> {
    if has_journal(rt, database.file.as_str())? {
        return Err(FileFault::Unavailable);
    }
    if done(is_there(rt, database.file.as_str()))? {
        return replace_there(rt, part, database);
    }
    place_part(rt, part, database)
}

/// Puts a copy in the place of the database of a name.
fn replace_named(
    rt: &HostRuntime,
    part: &Part,
    database: &str,
) -> Result<InPlace<String>, FileFault> {
    let place = pair_at(rt.alloc(), database)?;
    replace(rt, part, &place)
}

/// Puts another copy in the place of a database, which has the rows of one without sums, so many, and sums.
fn replace_with_sums(
    rt: &HostRuntime,
    part: &Part,
    database: &str,
    rows: u64,
) -> Result<InPlace<String>, FileFault> {
    let other = new_copy(rt, database, Use::Part)?;
    let outcome = match copy_with_sums(rt, part, &other, rows) {
        Ok(()) => replace_named(rt, &other, database),
        Err(fault) => Err(fault),
    };
    give_up(rt, &other);
    outcome
}

/// Puts a whole copy of so many rows in the place of a database; one without sums gets them before.
fn put_back(
    rt: &HostRuntime,
    part: &Part,
    database: &str,
    rows: u64,
) -> Result<InPlace<String>, FileFault> {
    match has_sums(rt, part.pair.file.as_str()) {
        Ok(true) => replace_named(rt, part, database),
        Ok(false) => replace_with_sums(rt, part, database, rows),
        Err(error) => Err(refused(&error)),
    }
}

/// What a restore has done.
#[derive(Drop)]
pub struct Restored {
    /// The number of rows of what was restored.
    pub rows: u64,

    /// The path under which what was replaced is kept, if there was something.
    pub replaced: Option<String>,
}

impl Restoring for CopyOf<'_> {
    type Kept = String;

    fn put_back(&mut self, rows: u64) -> Result<InPlace<String>, CopyFault> {
        at(Step::Target, put_back(self.rt, self.part, self.to, rows))
    }
}

/// Makes a whole copy of the backup of a name, and puts it in the place of a database.
fn restore_part(
    rt: &HostRuntime,
    backup: &str,
    part: &Part,
    database: &str,
) -> Result<Restored, CopyFault> {
    let source = source_at(rt, backup)?;
    let (rows, replaced) = bring_back(&mut CopyOf {
        rt,
        source: &source,
        part,
        is_served: true,
        to: database,
    })?;
    Ok(Restored { rows, replaced })
}

/// Puts the copy of a backup in the place of a database, by their names.
fn restore_named(rt: &HostRuntime, backup: &str, database: &str) -> Result<Restored, CopyFault> {
    let part = at(Step::Begin, new_copy(rt, database, Use::Part))?;
    let outcome = restore_part(rt, backup, &part, database);
    give_up(rt, &part);
    outcome
}

/// Refuses what is there and is no regular file, before anything is copied for its place, and before it is opened: an
/// open of a pipe waits for its other end.
fn is_file_or_none(rt: &HostRuntime, path: &str) -> Result<(), FileFault> {
    match fs::symlink_metadata(rt, path) {
        Ok(there) if !there.is_file() => Err(FileFault::Unavailable),
        _ => Ok(()),
    }
}

/// Puts the copy of the backup at a path in the place of the database at another, whole or not at all. Its pages have
/// sums then, also where those of the backup have none. What was there is kept beside it.
pub fn restore(rt: &HostRuntime, backup: &str, database: &str) -> Result<Restored, CopyFault> {
    let from = at(Step::Source, done(name_of(rt, backup)))?;
    let to = at(Step::Target, done(name_of(rt, database)))?;
    // A copy that was left may be half of one, and the next copy takes it away.
    if is_copy(from.as_str()) {
        return at(Step::Source, Err(FileFault::Unavailable));
    }
    at(Step::Begin, may_be_named(to.as_str()))?;
    at(Step::Target, is_file_or_none(rt, to.as_str()))?;
    restore_named(rt, from.as_str(), to.as_str())
}
