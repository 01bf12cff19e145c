//! The files that a command reads: of keys, and of an account's secret.
ghost use Rattle.std.specs.Prelude.{MatchResult};
ghost use Rattle.acvp_commands.specs.Files.{HasNoKeys, HasNoSecret, HoldsKeys, HoldsSecret};

use crate::fault::Fault;
use acvp_desk::Keys;
use acvp_keys::{bytes_of, read_keys};
use std::io;

/// Where files are read from.
pub trait TextFiles {
    ghost use Rattle.std.specs.Prelude.{ℕ, List};
    ghost use Rattle.std.specs.IoError.{error_kind};
    ghost use Rattle.std.specs.declared.io.ErrorKind.{ErrorKind};

    /// What a file of a path was found to hold.
    ghost holds: { Self → List ℕ → List ℕ → Type 0 };

    /// That a file of a path couldn't be read, and for what kind of reason.
    ghost fails: { Self → List ℕ → ErrorKind → Type 0 };

    /// All that a file holds.
    fn text_of(&self, path: &str) -> io::Result<Vec<u8>>
        ensures { MatchResult result (λ text. holds self.now path.now text.items)
            (λ error. fails self.now path.now (error_kind error)) };
}

/// The keys in a file.
pub fn keys_in<F: TextFiles>(files: &F, path: &str) -> Result<Keys, Fault>
    ensures { MatchResult result (HoldsKeys (F.holds files.now) path.now)
        (HasNoKeys (F.holds files.now) (F.fails files.now) path.now) }
{
    match files.text_of(path) {
        Ok(text) => match read_keys(&text) {
            Some((token, seed)) => Ok(Keys { token, seed }),
            None => Err(Fault::Keys),
        },
        Err(error) => Err(Fault::Keys.of_system(&error)),
    }
}

/// The secret of an account, in a file.
pub fn secret_in<F: TextFiles>(files: &F, path: &str) -> Result<[u8; 32], Fault>
    ensures { MatchResult result (HoldsSecret (F.holds files.now) path.now)
        (HasNoSecret (F.holds files.now) (F.fails files.now) path.now) }
{
    match files.text_of(path) {
        Ok(text) => bytes_of(&text).ok_or(Fault::Secret),
        Err(error) => Err(Fault::Secret.of_system(&error)),
    }
}
