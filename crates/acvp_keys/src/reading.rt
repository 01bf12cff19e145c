//! The text of a keys file, in either of its forms: two lines of 64 hex digits, the token key and then the generator's
//! seed; or the entries of a ring of token keys and then the seeds, each a line that begins with its word.
ghost use Rattle.std.specs.Prelude.{◌≡◌, ◌≢◌, ◌<◌, ◌≤◌, ◌++◌, ◌∷◌, [], MatchOption, ℕ, List, Some, length, take};
ghost use Rattle.acvp_token.specs.Keys.{Ring};
ghost use Rattle.acvp_keys.specs.KeysFile.{IsKeysText, IsLine, IsLongText, IsSeedLine, IsShortText, IsTokenLine};
ghost use Rattle.acvp_keys.specs.Private.Taking.{HasNoLine, StartsWith, StartsWithLines};

use acvp_gen::Seeds;
use acvp_token::KeyRing;
use hex::FromHex;
use std::marker::Model;

/// The length of a line of 64 hex digits, with its line feed.
const LINE: usize = 65;

/// The most entries of a ring, and the most seeds.
const MOST_LINES: usize = 16;

/// What a keys file says: the entries of its ring and its seeds, the oldest of each first. Contracts see both lists.
#[derive(Drop)]
pub(crate) struct Lines {
    entries: [Option<[u8; 32]>; MOST_LINES],
    entry_count: usize,
    seeds: [[u8; 32]; MOST_LINES],
    seed_count: usize,
}

impl Model for Lines {
    ghost use Rattle.std.specs.Prelude.{List, ℕ, ◌≤◌, take};
    ghost use Rattle.acvp_token.specs.Keys.{IsKeyRing, Ring};
    ghost use Rattle.acvp_gen.specs.Seeds.{AreSeeds};

    ghost Value = { Ring × List (List ℕ) };

    ghost view = { λ l. (take l.entry_count l.entries, take l.seed_count l.seeds) };

    ghost invariant = { λ l. (l.entry_count ≤ 16) × (l.seed_count ≤ 16)
        × IsKeyRing (take l.entry_count l.entries) × AreSeeds (take l.seed_count l.seeds) };
}

impl Lines {
    /// One token key and one seed.
    fn short(token: [u8; 32], seed: [u8; 32]) -> Lines
        ensures { result ≡ (Some token ∷ [], seed ∷ []) }
    {
        let mut entries = [None; MOST_LINES];
        entries[0] = Some(token);
        let mut seeds = [[0; 32]; MOST_LINES];
        seeds[0] = seed;
        Lines {
            entries,
            entry_count: 1,
            seeds,
            seed_count: 1,
        }
    }

    /// The entries of the ring.
    pub(crate) fn entries(&self) -> &[Option<[u8; 32]>]
        ensures { result.now ≡ self.now.0 }
    {
        &self.entries[..self.entry_count]
    }

    /// The seeds.
    pub(crate) fn seeds(&self) -> &[[u8; 32]]
        ensures { result.now ≡ self.now.1 }
    {
        &self.seeds[..self.seed_count]
    }
}

/// The 32 bytes that a line of 64 hex digits and a line feed gives: a line of the keys file, or a secret file whole.
pub fn bytes_of(line: &[u8]) -> Option<[u8; 32]>
    ensures { MatchOption result ((bytes : List ℕ) → IsLine line.now bytes → ⊥) (IsLine line.now) }
{
    let [digits @ .., b'\n'] = line else {
        return None;
    };
    <[u8; 32] as FromHex>::from_hex(digits).ok()
}

/// The bytes of the line of hex digits at the front, and what stands behind it.
fn read_line(text: &[u8]) -> Option<([u8; 32], &[u8])>
    ensures { MatchOption result (HasNoLine IsLine text.now)
        (λ read. StartsWith IsLine text.now read.0 read.1.now) }
{
    let (line, rest) = text.split_at_checked(LINE)?;
    let bytes = bytes_of(line)?;
    Some((bytes, rest))
}

/// What stands behind a word at the front.
fn behind<'a>(text: &'a [u8], word: &[u8]) -> Option<&'a [u8]>
    ensures { MatchOption result ((rest : List ℕ) → text.now ≢ word.now ++ rest)
        (λ rest. text.now ≡ word.now ++ rest.now) }
{
    text.strip_prefix(word)
}

/// The entry of a ring that the line at the front says, and what stands behind it.
fn read_token_line(text: &[u8]) -> Option<(Option<[u8; 32]>, &[u8])>
    ensures { MatchOption result (HasNoLine IsTokenLine text.now)
        (λ read. StartsWith IsTokenLine text.now read.0 read.1.now) }
{
    if let Some(rest) = behind(text, b"token -\n") {
        return Some((None, rest));
    }
    let digits = behind(text, b"token ")?;
    let (key, rest) = read_line(digits)?;
    Some((Some(key), rest))
}

/// The seed that the line at the front says, and what stands behind it.
fn read_seed_line(text: &[u8]) -> Option<([u8; 32], &[u8])>
    ensures { MatchOption result (HasNoLine IsSeedLine text.now)
        (λ read. StartsWith IsSeedLine text.now read.0 read.1.now) }
{
    let digits = behind(text, b"seed ")?;
    read_line(digits)
}

/// Takes the lines of a ring's entries from the front, while there are any and there is room. Gives their number and
/// what stands behind them.
fn read_ring<'a>(text: &'a [u8], entries: &mut [Option<[u8; 32]>]) -> (usize, &'a [u8])
    ensures room { result.0 ≤ length entries.new }
    ensures lines { StartsWithLines IsTokenLine text.now (take result.0 entries.new) result.1.now }
    ensures all { result.0 < length entries.new → HasNoLine IsTokenLine result.1.now }
{
    let mut rest = text;
    for count in 0..entries.len() {
        let Some((entry, after)) = read_token_line(rest) else {
            return (count, rest);
        };
        entries[count] = entry;
        rest = after;
    }
    (entries.len(), rest)
}

/// Takes the lines of seeds in the same way.
fn read_seeds<'a>(text: &'a [u8], seeds: &mut [[u8; 32]]) -> (usize, &'a [u8])
    ensures room { result.0 ≤ length seeds.new }
    ensures lines { StartsWithLines IsSeedLine text.now (take result.0 seeds.new) result.1.now }
    ensures all { result.0 < length seeds.new → HasNoLine IsSeedLine result.1.now }
{
    let mut rest = text;
    for count in 0..seeds.len() {
        let Some(read) = read_seed_line(rest) else {
            return (count, rest);
        };
        let (seed, after) = read;
        seeds[count] = seed;
        rest = after;
    }
    (seeds.len(), rest)
}

/// The token key and the seed of two lines without words.
fn read_short(text: &[u8]) -> Option<([u8; 32], [u8; 32])>
    ensures { MatchOption result ((ring : Ring) (seeds : List (List ℕ)) → IsShortText text.now ring seeds → ⊥)
        (λ read. IsShortText text.now (Some read.0 ∷ []) (read.1 ∷ [])) }
{
    let (token, rest) = read_line(text)?;
    let (seed, rest) = read_line(rest)?;
    if rest.is_empty() {
        Some((token, seed))
    } else {
        None
    }
}

/// What lines that begin with words say.
fn read_long(text: &[u8]) -> Option<Lines>
    ensures { MatchOption result ((ring : Ring) (seeds : List (List ℕ)) → IsLongText text.now ring seeds → ⊥)
        (λ lines. IsLongText text.now lines.0 lines.1) }
{
    let mut entries = [None; MOST_LINES];
    let (entry_count, rest) = read_ring(text, &mut entries);
    let mut seeds = [[0; 32]; MOST_LINES];
    let (seed_count, rest) = read_seeds(rest, &mut seeds);
    if !rest.is_empty() {
        return None;
    }
    let _token = KeyRing::of(&entries[..entry_count])?;
    let _seed = Seeds::of(&seeds[..seed_count])?;
    Some(Lines {
        entries,
        entry_count,
        seeds,
        seed_count,
    })
}

/// What the text of a keys file says.
pub(crate) fn lines_of(text: &[u8]) -> Option<Lines>
    ensures { MatchOption result ((ring : Ring) (seeds : List (List ℕ)) → IsKeysText text.now ring seeds → ⊥)
        (λ lines. IsKeysText text.now lines.0 lines.1) }
{
    let Some(read) = read_short(text) else {
        return read_long(text);
    };
    let (token, seed) = read;
    Some(Lines::short(token, seed))
}

/// The ring of token keys and the seeds that the text of a keys file gives.
pub fn read_keys(text: &[u8]) -> Option<(KeyRing, Seeds)>
    ensures { MatchOption result ((ring : Ring) (seeds : List (List ℕ)) → IsKeysText text.now ring seeds → ⊥)
        (λ keys. IsKeysText text.now keys.0 keys.1) }
{
    let lines = lines_of(text)?;
    match (KeyRing::of(lines.entries()), Seeds::of(lines.seeds())) {
        (Some(ring), Some(seeds)) => Some((ring, seeds)),
        _ => unreachable!(),
    }
}
