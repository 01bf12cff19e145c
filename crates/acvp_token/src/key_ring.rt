//! The keys that tokens are signed under, old and new.

ghost use Rattle.std.specs.Prelude.{◌≡◌, MatchOption};
ghost use Rattle.serde_json.specs.View.{view};
ghost use Rattle.acvp_token.specs.Keys.{IsKeyRing, key_at, last_place, named_key, signing_key};
ghost use Rattle.acvp_token.specs.Private.Places.{IsNoPlaceText, IsPlaceText, NamesNoPlace, NamesPlace};

use serde_json::Value;
use std::marker::Model;

/// The most entries of a ring.
const ENTRY_LIMIT: usize = 16;

/// The keys of tokens in the order of their making. The last one signs, and a token names its key by the key's place,
/// from 0 on. A place without a key is that of a retired one: no token that names it is good. A ring can't be cloned or
/// printed, so that no key is copied or shown by accident.
#[derive(Drop)]
pub struct KeyRing {
    entries: [Option<[u8; 32]>; ENTRY_LIMIT],
    count: usize,
}

impl Model for KeyRing {
    ghost use Rattle.std.specs.Prelude.{◌≤◌, ℕ, List, Option, take};
    ghost use Rattle.acvp_token.specs.Keys.{IsKeyRing};

    ghost Value = { List (Option (List ℕ)) };

    ghost view = { λ ring. take ring.count ring.entries };

    ghost invariant = { λ ring. IsKeyRing (take ring.count ring.entries) × (ring.count ≤ 16) };
}

impl KeyRing {
    /// The ring of these entries, the oldest first; none where there is no entry, where there are more than 16, or
    /// where the last is retired.
    pub fn of(entries: &[Option<[u8; 32]>]) -> Option<Self>
        ensures { MatchOption result (¬ IsKeyRing entries.now)
            (λ ring. (ring ≡ entries.now) × IsKeyRing entries.now) }
    {
        let Some(Some(_)) = entries.last() else {
            return None;
        };
        if entries.len() > ENTRY_LIMIT {
            return None;
        }
        let mut kept = [None; ENTRY_LIMIT];
        kept[..entries.len()].copy_from_slice(entries);
        Some(KeyRing {
            entries: kept,
            count: entries.len(),
        })
    }

    /// The place of the key that signs.
    pub(crate) fn last_place(&self) -> usize
        ensures { result ≡ last_place self.now }
    {
        self.entries().len() - 1
    }

    /// The key that signs.
    pub(crate) fn signing_key(&self) -> &[u8]
        ensures value { result.now ≡ signing_key self.now }
        ensures ring { IsKeyRing self.now }
    {
        let entries = self.entries();
        key_at(entries, entries.len() - 1).unwrap()
    }

    /// The key that a header names.
    pub(crate) fn named_key(&self, header: &Value) -> Option<&[u8]>
        ensures { MatchOption result (named_key self.now (view header.now) ≡ None)
            (λ key. named_key self.now (view header.now) ≡ Some key.now) }
    {
        let entries = self.entries();
        match named_place(header) {
            Some(place) => key_at(entries, place),
            None => None,
        }
    }

    /// All entries.
    fn entries(&self) -> &[Option<[u8; 32]>]
        ensures value { result.now ≡ self.now }
        ensures ring { IsKeyRing self.now }
    {
        &self.entries[..self.count]
    }
}

/// The key at a place, unless it is retired or missing.
fn key_at(entries: &[Option<[u8; 32]>], place: usize) -> Option<&[u8]>
    ensures { MatchOption result (key_at entries.now place ≡ None)
        (λ key. key_at entries.now place ≡ Some key.now) }
{
    match entries.get(place) {
        Some(Some(key)) => Some(key),
        _ => None,
    }
}

/// The place that a header names.
fn named_place(header: &Value) -> Option<usize>
    ensures { MatchOption result (NamesNoPlace (view header.now)) (NamesPlace (view header.now)) }
{
    match header.get("kid") {
        None => Some(0),
        Some(Value::String(text)) => key_place(text.as_str().as_bytes()),
        Some(_) => None,
    }
}

/// The place of which this is the plain decimal.
fn key_place(text: &[u8]) -> Option<usize>
    ensures { MatchOption result (IsNoPlaceText text.now) (IsPlaceText text.now) }
{
    if text.len() == 1 && text[0] >= b'0' && text[0] <= b'9' {
        Some((text[0] - b'0') as usize)
    } else if text.len() == 2 && text[0] == b'1' && text[1] >= b'0' && text[1] <= b'5' {
        Some((text[1] - b'0') as usize + 10)
    } else {
        None
    }
}
