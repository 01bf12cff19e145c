//! Whole copies of a database, also while it is served.
//!
//! A database is a file and the log beside it. Pages only go from the log to the file, and the log tells by its header
//! when it was emptied. So the file and then the log are a whole copy if the header is the same before and after, and
//! the log is that of whoever has the file.
ghost use Rattle.std.specs.Prelude.{◌↔◌, IfOk, IsTrue, MatchBool};
ghost use Rattle.acvp_copying.specs.Copies.{IsCopy, IsHalfCopied, IsSameLog, IsUnchanged, IsWholeCopy, OnlyTries};
ghost use Rattle.acvp_copying.specs.Deeds.{Did};

use crate::naming::Making;
use acvp_causes::{Mark, is_whole};

/// How often a copy is begun anew, if the log was emptied meanwhile.
const TRIES: u32 = 100;

/// One of a database's two files.
#[derive(Clone, Copy)]
pub enum Half {
    /// The database itself.
    File,

    /// The log beside it.
    Log,
}

/// What is seen of a database's files from outside.
#[derive(Clone, Copy, Drop)]
pub struct Seen<N> {
    /// Which file it is.
    pub file: N,

    /// Which file its log is, if there is one.
    pub log: Option<N>,

    /// The mark of the log: how it begins, and how many bytes it has.
    pub mark: Mark,
}

/// A database, and the copy that is made of it.
pub trait Copying: Making<Number: PartialEq + Copy> {
    ghost use Rattle.std.specs.Prelude.{◌≡◌, ◌⊎◌, true, IfOk};
    ghost use Rattle.acvp_copying.specs.Deeds.{Apart, Copied, Finished, Looked, Marked, Synced};

    /// Looks at the database's files.
    fn look(&mut self) -> Result<Seen<Self::Number>, Self::Fault>
        ensures { IfOk result (λ seen. Self.does self.old (Looked seen) self.new) };

    /// Whether somebody has the database or its log, but not both, as far as the system tells.
    fn are_apart(&mut self) -> Result<bool, Self::Fault>
        ensures { IfOk result (λ is_apart. Self.does self.old (Apart is_apart) self.new) };

    /// Copies one of the database's files in the place of all that its copy holds, and says whether it is there. A log
    /// that isn't there has an empty copy; a database that isn't there is a fault.
    fn copy(&mut self, half: Half) -> Result<bool, Self::Fault>
        ensures copied { IfOk result (λ is_there. Self.does self.old (Copied half is_there) self.new) }
        ensures there { IfOk result (λ is_there. (is_there ≡ true) ⊎ (half ≡ Half.Log)) };

    /// Brings the copy of one of the files to the disk.
    fn sync(&mut self, half: Half) -> Result<(), Self::Fault>
        ensures { IfOk result (λ done. Self.does self.old (Synced half) self.new) };

    /// The mark of the log's copy.
    fn mark_of_copy(&mut self) -> Result<Mark, Self::Fault>
        ensures { IfOk result (λ mark. Self.does self.old (Marked mark) self.new) };

    /// Makes the copy one whole file on the disk, and says how many rows it has.
    fn finish(&mut self) -> Result<u64, Self::Fault>
        ensures { IfOk result (λ rows. Self.does self.old (Finished rows) self.new) };

    /// The fault of a database that changes too often to be copied.
    fn fault_of_changes(&self) -> Self::Fault;
}

/// Copies one of a database's files, and brings the copy to the disk.
fn copy_half<F: Copying>(files: &mut F, half: Half) -> Result<(), F::Fault>
    ensures { IfOk result (λ done. Did F.does (IsHalfCopied half) files.old files.new) }
{
    if files.copy(half)? {
        files.sync(half)?;
    }
    Ok(())
}

/// Whether there is no log, or this one.
fn is_same_log<N: PartialEq>(before: &Option<N>, after: &Option<N>) -> bool
    ensures { IsTrue result ↔ IsSameLog N.eq before.now after.now }
{
    match (before, after) {
        (None, None) => true,
        (Some(before), Some(after)) => before == after,
        _ => false,
    }
}

/// Whether a database was the same before and after, and the copy of its log has all that the log had before.
fn is_unchanged<N: PartialEq>(before: &Seen<N>, after: &Seen<N>, copy: &Mark) -> bool
    ensures { IsTrue result ↔ IsUnchanged N.eq before.now after.now copy.now }
{
    before.file == after.file
        && is_same_log(&before.log, &after.log)
        && is_whole(&before.mark, &after.mark, copy)
}

/// Copies a database once, and says whether that is it, as it is at one moment between two changes. Whoever has the
/// file must have the log, before and after.
fn copy_once<F: Copying>(files: &mut F) -> Result<bool, F::Fault>
    ensures { IfOk result (λ is_it. Did F.does
        (λ deeds. MatchBool is_it (IsWholeCopy F.Number.eq deeds) (OnlyTries deeds)) files.old files.new) }
{
    let before = files.look()?;
    let was_apart = files.are_apart()?;
    copy_half(files, Half::File)?;
    copy_half(files, Half::Log)?;
    let copy = files.mark_of_copy()?;
    let after = files.look()?;
    if was_apart {
        return Ok(false);
    }
    if files.are_apart()? {
        return Ok(false);
    }
    Ok(is_unchanged(&before, &after, &copy))
}

/// Copies a database whole, as it is at one moment between two changes. The copy still has its first name then.
pub fn copy_whole<F: Copying>(files: &mut F) -> Result<(), F::Fault>
    ensures { IfOk result (λ done. Did F.does (IsCopy F.Number.eq) files.old files.new) }
{
    for _ in 0..TRIES {
        if copy_once(files)? {
            return files.is_still_named();
        }
    }
    Err(files.fault_of_changes())
}
