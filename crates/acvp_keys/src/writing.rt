//! The lines of a keys file or of a secret file, as they are written.
ghost use Rattle.std.specs.Prelude.{IfOk};
ghost use Rattle.acvp_keys.specs.KeysFile.{IsLine, IsSeedLine, IsTokenLine};
ghost use Rattle.acvp_keys.specs.Private.Adding.{HasLineMore, HasLinesMore};

use hex::encode;
use std::alloc::{AllocError, Global};

/// Adds the line of hex digits that these bytes have.
fn put_line(alloc: Global, text: &mut Vec<u8>, bytes: &[u8; 32]) -> Result<(), AllocError>
    ensures { IfOk result (λ done. HasLineMore IsLine text.old.items bytes.now text.new.items) }
{
    let digits = encode(alloc, *bytes)?;
    text.extend_from_slice(digits.as_bytes())?;
    text.push(b'\n')?;
    Ok(())
}

/// The text of a secret file: the line of hex digits that these bytes have.
pub fn line_text(alloc: Global, bytes: &[u8; 32]) -> Result<Vec<u8>, AllocError>
    ensures { IfOk result (λ text. IsLine text.items bytes.now) }
{
    let mut text = Vec::new(alloc);
    put_line(alloc, &mut text, bytes)?;
    Ok(text)
}

/// Adds the line of an entry of a ring.
fn put_token_line(
    alloc: Global,
    text: &mut Vec<u8>,
    entry: Option<[u8; 32]>,
) -> Result<(), AllocError>
    ensures { IfOk result (λ done. HasLineMore IsTokenLine text.old.items entry text.new.items) }
{
    match entry {
        None => text.extend_from_slice(b"token -\n"),
        Some(key) => {
            text.extend_from_slice(b"token ")?;
            put_line(alloc, text, &key)
        }
    }
}

/// Adds the line of a seed.
fn put_seed_line(alloc: Global, text: &mut Vec<u8>, seed: &[u8; 32]) -> Result<(), AllocError>
    ensures { IfOk result (λ done. HasLineMore IsSeedLine text.old.items seed.now text.new.items) }
{
    text.extend_from_slice(b"seed ")?;
    put_line(alloc, text, seed)
}

/// Adds the lines of a ring's entries.
pub(crate) fn put_tokens(
    alloc: Global,
    text: &mut Vec<u8>,
    entries: &[Option<[u8; 32]>],
) -> Result<(), AllocError>
    ensures { IfOk result (λ done. HasLinesMore IsTokenLine text.old.items entries.now text.new.items) }
{
    match entries {
        [] => Ok(()),
        [first, rest @ ..] => {
            put_token_line(alloc, text, *first)?;
            put_tokens(alloc, text, rest)
        }
    }
}

/// Adds the lines of seeds.
pub(crate) fn put_seeds(
    alloc: Global,
    text: &mut Vec<u8>,
    seeds: &[[u8; 32]],
) -> Result<(), AllocError>
    ensures { IfOk result (λ done. HasLinesMore IsSeedLine text.old.items seeds.now text.new.items) }
{
    match seeds {
        [] => Ok(()),
        [first, rest @ ..] => {
            put_seed_line(alloc, text, first)?;
            put_seeds(alloc, text, rest)
        }
    }
}
