//! The Monte Carlo test of a hash function (NIST, The Secure Hash Algorithm Validation System, section 6.4).
ghost use Rattle.std.specs.Prelude.{◌≡◌, ℕ, ◌++◌, List};
ghost use Rattle.std.specs.Fn.{iterate};
ghost use Rattle.acvp_mac.specs.Hash.{digest_of};
ghost use Rattle.acvp_answers.specs.MonteCarlo.{AreMembers, extended, last_of, next_checkpoint};
ghost use Rattle.acvp_answers.specs.Private.Ending.{EndsIn};

use acvp_mac::{Digest, HashName, hash_pieces};

/// How often is hashed for a checkpoint.
const HASHES: usize = 1000;

/// The hash of three members, joined.
fn next_member(name: HashName, first: &[u8], second: &[u8], third: &[u8]) -> Digest
    ensures { result ≡ digest_of name (first.now ++ second.now ++ third.now) }
{
    hash_pieces(name, &[first, second, third])
}

/// The member so many places after three others: of the members, the last three are all that is kept.
fn later_member(
    name: HashName,
    first: Digest,
    second: Digest,
    third: Digest,
    places: usize,
) -> Digest
    ensures { (members : List (List ℕ)) → EndsIn members first second third
        → result ≡ last_of (iterate (extended (digest_of name)) places members) }
{
    let mut first = first;
    let mut second = second;
    let mut third = third;
    for _ in 0..places {
        let next = next_member(name, first.as_slice(), second.as_slice(), third.as_slice());
        first = second;
        second = third;
        third = next;
    }
    third
}

/// The checkpoint after a seed, or after another: the last of the 1003 members that it begins. It takes no memory.
pub(crate) fn next_checkpoint(name: HashName, seed: &[u8]) -> Digest
    ensures { result ≡ next_checkpoint (digest_of name) seed.now }
{
    let first = next_member(name, seed, seed, seed);
    let second = next_member(name, seed, seed, first.as_slice());
    let third = next_member(name, seed, first.as_slice(), second.as_slice());
    later_member(name, first, second, third, HASHES - 3)
}

/// The definition of the next checkpoint is what it says: one list is as the standard describes the members that a seed
/// begins, and its last member is that checkpoint.
pub fn checkpoint_is_the_standards()
    ensures some { (hash : List ℕ → List ℕ) (seed : List ℕ) → (members : List (List ℕ)) × AreMembers hash seed members }
    ensures last { (hash : List ℕ → List ℕ) (seed : List ℕ) (members : List (List ℕ)) →
        AreMembers hash seed members → next_checkpoint hash seed ≡ last_of members }
{}
