//! Putting a copy in the place of a database, or where there is none.
ghost use Rattle.std.specs.Prelude.{◌≡◌, IfOk, IsSome, None};
ghost use Rattle.acvp_copying.specs.Deeds.{Did};
ghost use Rattle.acvp_copying.specs.Replacements.{IsKept, IsOldCopied, IsPlacement, IsReplacement, IsTaken};
ghost use Rattle.acvp_copying.specs.Replacements.{kept_in, named};

use crate::naming::{Naming, name_new};

/// A copy, and a path that it is to get, beside which the log of a database may lie.
pub trait Placing: Naming {
    ghost use Rattle.std.specs.Prelude.{IfOk};
    ghost use Rattle.acvp_copying.specs.Deeds.{LogFull, LogHeld, LogRemoved};

    /// Whether the log holds anything.
    fn is_log_full(&mut self) -> Result<bool, Self::Fault>
        ensures { IfOk result (λ is_full. Self.does self.old (LogFull is_full) self.new) };

    /// Whether somebody has the log.
    fn is_log_held(&mut self) -> Result<bool, Self::Fault>
        ensures { IfOk result (λ is_held. Self.does self.old (LogHeld is_held) self.new) };

    /// Takes the log away.
    fn remove_log(&mut self) -> Result<(), Self::Fault>
        ensures { IfOk result (λ done. Self.does self.old LogRemoved self.new) };

    /// The fault of a path that the copy can't get.
    fn fault_of_place(&self) -> Self::Fault;
}

/// A copy, a database in whose place it is to be put, and another copy, of that database, which is given the name under
/// which it is kept.
pub trait Replacing: Placing {
    ghost use Rattle.std.specs.Prelude.{IfOk};
    ghost use Rattle.acvp_copying.specs.Deeds.{AccessKept, OldCopied, OldSynced, Replaced, StillThere};

    /// Copies the database in the place of all that the other copy holds. One that isn't there is a fault.
    fn copy_old(&mut self) -> Result<(), Self::Fault>
        ensures { IfOk result (λ done. Self.does self.old OldCopied self.new) };

    /// Brings the copy of the database to the disk.
    fn sync_old(&mut self) -> Result<(), Self::Fault>
        ensures { IfOk result (λ done. Self.does self.old OldSynced self.new) };

    /// Gives the copy of the database its owner, its group and its mode, or leaves it to its maker alone.
    fn keep_access(&mut self) -> Result<(), Self::Fault>
        ensures { IfOk result (λ done. Self.does self.old AccessKept self.new) };

    /// Whether the path is still that of the database.
    fn is_still_there(&mut self) -> bool
        ensures { Self.does self.old (StillThere result) self.new };

    /// Gives the copy the path of the database, in its place.
    fn take_path(&mut self) -> Result<(), Self::Fault>
        ensures { IfOk result (λ done. Self.does self.old Replaced self.new) };

    /// Takes away the name under which the copy of the database was to be kept, if it has it, and the database is still
    /// there.
    fn drop_kept(&mut self);
}

/// That a copy has the path of a database. Only what has given it the path makes one.
#[derive(Drop)]
pub struct InPlace<K> {
    kept: Option<K>,
}

impl<K> InPlace<K> {
    /// The name under which what was there is kept, if there was something.
    pub(crate) fn into_kept(self) -> Option<K>
        ensures { result ≡ kept_in self }
    {
        let InPlace { kept } = self;
        kept
    }
}

impl InPlace<()> {
    /// The same, where what was there, if there was something, is kept under this name.
    pub fn named<K: Drop>(self, name: K) -> InPlace<K>
        ensures { kept_in result ≡ named (kept_in self) name }
    {
        match self.into_kept() {
            Some(()) => InPlace { kept: Some(name) },
            None => InPlace { kept: None },
        }
    }
}

/// Copies a database that is to be replaced, and brings the copy to the disk.
fn copy_old<F: Replacing>(files: &mut F) -> Result<(), F::Fault>
    ensures { IfOk result (λ done. Did F.does IsOldCopied files.old files.new) }
{
    files.copy_old()?;
    files.sync_old()
}

/// Copies a database that is to be replaced, and gives the copy a name. Its log holds nothing. The copy has its owner,
/// its group and its mode.
fn keep<F: Replacing>(files: &mut F) -> Result<(), F::Fault>
    ensures { IfOk result (λ done. Did F.does IsKept files.old files.new) }
{
    copy_old(files)?;
    files.keep_access()?;
    name_new(files)
}

/// Gives a copy the path of a database, which is still there, with a log that holds nothing. The log goes first: it
/// isn't one of the copy's.
fn take_place<F: Replacing>(files: &mut F) -> Result<(), F::Fault>
    ensures { IfOk result (λ done. Did F.does IsTaken files.old files.new) }
{
    if !files.is_still_there() {
        return Err(files.fault_of_place());
    }
    if files.is_log_full()? {
        return Err(files.fault_of_place());
    }
    files.remove_log()?;
    files.take_path()
}

/// Keeps a copy of a database, and puts another in its place.
fn keep_and_take<F: Replacing>(files: &mut F) -> Result<(), F::Fault>
    ensures { IfOk result (λ done. (mid : F) × Did F.does IsKept files.old mid × Did F.does IsTaken mid files.new) }
{
    keep(files)?;
    take_place(files)
}

/// The same, and has the disk keep it. A database that is still there needs no copy that is kept.
fn keep_and_replace<F: Replacing>(files: &mut F) -> Result<(), F::Fault>
    ensures { IfOk result (λ done. Did F.does IsReplacement files.old files.new) }
{
    match keep_and_take(files) {
        Ok(()) => files.sync_folder(),
        Err(fault) => {
            files.drop_kept();
            Err(fault)
        }
    }
}

/// Keeps a copy of a database, and puts another in its place.
pub fn replace_kept<F: Replacing>(files: &mut F) -> Result<InPlace<()>, F::Fault>
    ensures kept { IfOk result (λ in_place. IsSome (kept_in in_place)) }
    ensures replaced { IfOk result (λ in_place. Did F.does IsReplacement files.old files.new) }
{
    keep_and_replace(files)?;
    Ok(InPlace { kept: Some(()) })
}

/// Puts a copy where there is no database, nor a log that holds something or that somebody has.
pub fn place_alone<F: Placing, K>(files: &mut F) -> Result<InPlace<K>, F::Fault>
    ensures kept { IfOk result (λ in_place. kept_in in_place ≡ None) }
    ensures placed { IfOk result (λ in_place. Did F.does IsPlacement files.old files.new) }
{
    if files.is_log_full()? || files.is_log_held()? {
        return Err(files.fault_of_place());
    }
    files.remove_log()?;
    name_new(files)?;
    Ok(InPlace { kept: None })
}
