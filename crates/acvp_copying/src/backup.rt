//! Backups of a database, and the way back from one.
ghost use Rattle.std.specs.Prelude.{[], ◌∷◌, IfOk};
ghost use Rattle.acvp_copying.specs.Copies.{IsBackup, IsCopyThen, IsRestore};
ghost use Rattle.acvp_copying.specs.Deeds.{Did, Finished, StillNamed};

use crate::copying::{Copying, copy_whole};
use crate::naming::{Naming, name_new};
use crate::replacing::InPlace;

/// Makes one whole file of a database, and says how many rows it has.
fn make_copy<F: Copying>(files: &mut F) -> Result<u64, F::Fault>
    ensures { IfOk result (λ rows. Did F.does (IsCopyThen F.Number.eq (StillNamed ∷ Finished rows ∷ []))
        files.old files.new) }
{
    copy_whole(files)?;
    files.finish()
}

/// Makes a whole copy of a database, gives it its name, and says how many rows it has.
pub fn back_up<F: Copying + Naming>(files: &mut F) -> Result<u64, F::Fault>
    ensures { IfOk result (λ rows. Did F.does (IsBackup F.Number.eq rows) files.old files.new) }
{
    let count = make_copy(files)?;
    name_new(files)?;
    Ok(count)
}

/// A backup, the copy that is made of it, and the database in whose place it is to be put.
pub trait Restoring: Copying {
    ghost use Rattle.std.specs.Prelude.{IfOk};
    ghost use Rattle.acvp_copying.specs.Deeds.{PutBack};

    /// The name of what is kept.
    type Kept: Drop;

    /// Puts the copy, which is one whole file of so many rows, in the place of the database.
    fn put_back(&mut self, rows: u64) -> Result<InPlace<Self::Kept>, Self::Fault>
        ensures { IfOk result (λ in_place. Self.does self.old (PutBack rows) self.new) };
}

/// Makes a whole copy of a backup, puts it in the place of a database, and says how many rows it has, and under which
/// name what was there is kept, if there was something.
pub fn bring_back<F: Restoring>(files: &mut F) -> Result<(u64, Option<F::Kept>), F::Fault>
    ensures { IfOk result (λ restored. Did F.does (IsRestore F.Number.eq restored.0) files.old files.new) }
{
    let rows = make_copy(files)?;
    let in_place = files.put_back(rows)?;
    Ok((rows, in_place.into_kept()))
}
