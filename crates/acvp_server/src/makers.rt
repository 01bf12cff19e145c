//! The files of keys and of secrets that a command reads: those of another user aren't taken.
use acvp_causes::own_text;
use acvp_commands::TextFiles;
use std::io;

/// The files that may be taken with the database at a path, or for none.
#[derive(Clone, Copy)]
pub(crate) struct OwnFiles<'a> {
    pub(crate) rt: &'a HostRuntime,
    pub(crate) database: Option<&'a str>,
}

/// The files that may be taken with the database at a path.
pub(crate) fn own_files<'a>(rt: &'a HostRuntime, database: &'a str) -> OwnFiles<'a> {
    OwnFiles {
        rt,
        database: Some(database),
    }
}

impl TextFiles for OwnFiles<'_> {
    ghost use Rattle.std.specs.Prelude.{⊤};

    // No contract can say what a file of the machine holds.
    ghost holds = { λ _ _ _. ⊤ };

    ghost fails = { λ _ _ _. ⊤ };

    fn text_of(&self, path: &str) -> io::Result<Vec<u8>> {
        own_text(self.rt, path, self.database)
    }
}
