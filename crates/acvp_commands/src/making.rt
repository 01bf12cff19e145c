//! The texts of files of keys and of secrets that are made.
ghost use Rattle.std.specs.Prelude.{MatchResult};
ghost use Rattle.acvp_commands.specs.Makings.{IsTextOf, IsUnchanged, IsChangedFile, HasNoText};

use crate::asked::Making;
use crate::fault::Fault;
use crate::files::TextFiles;
use acvp_keys::{Change, changed, keys_text, line_text};
use std::alloc::Global;

/// Bytes that nobody can foresee, drawn for one file: a token key or a secret, and a seed.
#[derive(Clone, Copy)]
pub struct Drawn {
    pub first: [u8; 32],
    pub second: [u8; 32],
}

/// The text of a keys file behind a change.
fn changed_text<F: TextFiles>(
    files: &F,
    alloc: Global,
    path: &str,
    change: Change,
) -> Result<Vec<u8>, Fault>
    ensures { MatchResult result (λ text. IsChangedFile (F.holds files.now) path.now change text.items)
        (IsUnchanged (F.holds files.now) (F.fails files.now) path.now change) }
{
    let text = match files.text_of(path) {
        Ok(text) => text,
        Err(error) => return Err(Fault::Keys.of_system(&error)),
    };
    match changed(alloc, &text, change)? {
        Some(new) => Ok(new),
        None => Err(Fault::Keys),
    }
}

/// The text of the file that is made, of bytes that were drawn for it.
pub fn text_to_make<F: TextFiles>(
    files: &F,
    alloc: Global,
    making: Making<'_>,
    drawn: Drawn,
) -> Result<Vec<u8>, Fault>
    ensures { MatchResult result (λ text. IsTextOf (F.holds files.now) making.entry drawn text.items)
        (HasNoText (F.holds files.now) (F.fails files.now) making.entry drawn) }
{
    match making {
        Making::Keys { .. } => {
            match keys_text(alloc, &[Some(drawn.first)], &[drawn.second])? {
                Some(text) => Ok(text),
                None => Err(Fault::Keys),
            }
        }
        Making::TokenMore { from, .. } => {
            changed_text(files, alloc, from, Change::AddToken(drawn.first))
        }
        Making::TokenLess { from, .. } => changed_text(files, alloc, from, Change::RetireToken),
        Making::SeedMore { from, .. } => {
            changed_text(files, alloc, from, Change::AddSeed(drawn.second))
        }
        Making::Secret { .. } => Ok(line_text(alloc, &drawn.first)?),
    }
}
