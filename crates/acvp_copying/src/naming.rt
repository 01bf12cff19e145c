//! Giving a copy its name.
ghost use Rattle.std.specs.Prelude.{IfOk};
ghost use Rattle.acvp_copying.specs.Copies.{IsNaming};
ghost use Rattle.acvp_copying.specs.Deeds.{Did};

/// A copy that is made, under a first name.
pub trait Making {
    ghost use Rattle.std.specs.Prelude.{IfOk};
    ghost use Rattle.acvp_copying.specs.Deeds.{Deed, StillNamed};

    /// Which file a name is of.
    type Number;

    /// Why something isn't done.
    type Fault;

    /// What it is to do something.
    ghost does: { Self → Deed Self.Number → Self → Type 0 };

    /// Refuses a copy whose first name another file has.
    fn is_still_named(&mut self) -> Result<(), Self::Fault>
        ensures { IfOk result (λ done. does self.old StillNamed self.new) };
}

/// A copy that is to be given its name.
pub trait Naming: Making {
    ghost use Rattle.std.specs.Prelude.{IfOk};
    ghost use Rattle.acvp_copying.specs.Deeds.{FolderSynced, Named};

    /// Gives the copy its name, if no file has it.
    fn give_name(&mut self) -> Result<(), Self::Fault>
        ensures { IfOk result (λ done. Self.does self.old Named self.new) };

    /// Brings the names of the folder to the disk.
    fn sync_folder(&mut self) -> Result<(), Self::Fault>
        ensures { IfOk result (λ done. Self.does self.old FolderSynced self.new) };
}

/// Gives a copy its name, if no file has it, and has the disk keep it.
pub fn name_new<F: Naming>(files: &mut F) -> Result<(), F::Fault>
    ensures { IfOk result (λ done. Did F.does IsNaming files.old files.new) }
{
    files.is_still_named()?;
    files.give_name()?;
    files.sync_folder()
}
