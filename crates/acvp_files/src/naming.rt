//! The name of a copy that was made.
use crate::parts::{Part, has_name, make_new};
use acvp_causes::folder_of;
use acvp_connections::{FileFault, FileNumber, done, refused, remove};
use acvp_copying::{Making, Naming};
use std::fs::{self, File};
use std::io::{self, ErrorKind};

/// Has the names in the folder of a path kept by the disk.
pub(crate) fn keep_names(rt: &HostRuntime, path: &str) -> io::Result<()> {
    File::open(rt, folder_of(path))?.sync_all()
}

/// Gives a copy its name by a second one, if no file has it. If the first can't be taken away, it has that alone.
fn link_new(rt: &HostRuntime, file: &str, to: &str) -> io::Result<()> {
    fs::hard_link(rt, file, to)?;
    match remove(rt, file) {
        Ok(()) => Ok(()),
        Err(_) => {
            let _ = remove(rt, to);
            Err(ErrorKind::ResourceBusy.into())
        }
    }
}

/// Gives a copy its name, if no file has it, without a second one: an empty file keeps the name until the copy has it.
fn rename_new(rt: &HostRuntime, file: &str, to: &str) -> io::Result<()> {
    let made = make_new(rt, to)?;
    match fs::rename(rt, file, to) {
        Ok(()) => Ok(()),
        Err(error) => {
            if matches!(has_name(rt, &made, to), Ok(true)) {
                let _ = remove(rt, to);
            }
            Err(error)
        }
    }
}

/// Gives a copy its name, if no file has it. Some file systems know no second names.
pub(crate) fn give_name(rt: &HostRuntime, part: &Part, to: &str) -> Result<(), FileFault> {
    let file = part.pair.file.as_str();
    let named = match link_new(rt, file, to) {
        Err(error)
            if matches!(
                error.kind(),
                ErrorKind::PermissionDenied | ErrorKind::Unsupported
            ) => { rename_new(rt, file, to) }
        named => named,
    };
    match named {
        Ok(()) => Ok(()),
        Err(error) if error.kind() == ErrorKind::AlreadyExists => Err(FileFault::Taken),
        Err(error) => Err(refused(&error)),
    }
}

/// A copy, and the path that it is to have.
#[derive(Clone, Copy)]
pub(crate) struct NewName<'a> {
    pub(crate) rt: &'a HostRuntime,
    pub(crate) part: &'a Part,
    pub(crate) to: &'a str,
}

impl Making for NewName<'_> {
    ghost use Rattle.std.specs.Prelude.{⊤};

    type Number = FileNumber;

    type Fault = FileFault;

    // No contract can say what files hold.
    ghost does = { λ _ _ _. ⊤ };

    fn is_still_named(&mut self) -> Result<(), FileFault> {
        done(self.part.is_still_named(self.rt))
    }
}

impl Naming for NewName<'_> {
    fn give_name(&mut self) -> Result<(), FileFault> {
        give_name(self.rt, self.part, self.to)
    }

    fn sync_folder(&mut self) -> Result<(), FileFault> {
        done(keep_names(self.rt, self.to))
    }
}
