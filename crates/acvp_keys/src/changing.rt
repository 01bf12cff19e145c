//! Keys files that are made, or changed. Nothing that a keys file says is ever taken away but a key that is retired:
//! tokens and vector sets name its lines by their places.
ghost use Rattle.std.specs.Prelude.{◌≡◌, IfOk, MatchOption};
ghost use Rattle.acvp_keys.specs.Changes.{AreNoKeys, CantBeChanged, IsChanged};
ghost use Rattle.acvp_keys.specs.Changes.{ring_behind, seeds_behind, with_oldest_retired};
ghost use Rattle.acvp_keys.specs.KeysFile.{IsLongText};

use crate::reading::lines_of;
use crate::writing::{put_seeds, put_tokens};
use acvp_gen::Seeds;
use acvp_token::KeyRing;
use std::alloc::{AllocError, Global};

/// What is changed in a keys file.
#[derive(Clone, Copy)]
pub enum Change {
    /// A token key more, which signs from then on.
    AddToken([u8; 32]),

    /// The oldest token key of those that aren't retired is. The last one can't be.
    RetireToken,

    /// A seed more, from which new vector sets are made.
    AddSeed([u8; 32]),
}

/// The text of a keys file, in its longer form. None if there are no such keys: more than 16 of one kind, none of one,
/// or no token key that signs.
pub fn keys_text(
    alloc: Global,
    entries: &[Option<[u8; 32]>],
    seeds: &[[u8; 32]],
) -> Result<Option<Vec<u8>>, AllocError>
    ensures { IfOk result (λ made. MatchOption made (AreNoKeys entries.now seeds.now)
        (λ text. IsLongText text.items entries.now seeds.now)) }
{
    if KeyRing::of(entries).is_none() || Seeds::of(seeds).is_none() {
        return Ok(None);
    }
    let mut text = Vec::new(alloc);
    put_tokens(alloc, &mut text, entries)?;
    put_seeds(alloc, &mut text, seeds)?;
    Ok(Some(text))
}

/// Retires the oldest key of those that aren't.
fn retire_oldest(entries: &mut [Option<[u8; 32]>])
    ensures { entries.new ≡ with_oldest_retired entries.old }
{
    for place in 0..entries.len() {
        if entries[place].is_some() {
            entries[place] = None;
            return;
        }
    }
}

/// Changes the entries of a ring, or the seeds.
fn change_lists(
    entries: &mut Vec<Option<[u8; 32]>>,
    seeds: &mut Vec<[u8; 32]>,
    change: Change,
) -> Result<(), AllocError>
    ensures ring { IfOk result (λ done. entries.new.items ≡ ring_behind change entries.old.items) }
    ensures seeds { IfOk result (λ done. seeds.new.items ≡ seeds_behind change seeds.old.items) }
{
    match change {
        Change::AddToken(key) => entries.push(Some(key))?,
        Change::RetireToken => retire_oldest(entries),
        Change::AddSeed(seed) => seeds.push(seed)?,
    }
    Ok(())
}

/// The text of a keys file behind a change, in the longer form. None if the text is that of no keys file, or if there
/// are no such keys then.
pub fn changed(alloc: Global, text: &[u8], change: Change) -> Result<Option<Vec<u8>>, AllocError>
    ensures { IfOk result (λ made. MatchOption made (CantBeChanged change text.now)
        (λ new. IsChanged change text.now new.items)) }
{
    let Some(lines) = lines_of(text) else {
        return Ok(None);
    };
    let mut entries = Vec::new(alloc);
    entries.extend_from_slice(lines.entries())?;
    let mut seeds = Vec::new(alloc);
    seeds.extend_from_slice(lines.seeds())?;
    change_lists(&mut entries, &mut seeds, change)?;
    keys_text(alloc, &entries, &seeds)
}
