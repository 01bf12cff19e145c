//! Tokens are read.

ghost use Rattle.std.specs.Prelude.{◌≡◌, ◌↔◌, ℕ, List, Ok, IsTrue};
ghost use Rattle.acvp_token.specs.Faults.{IsReading, IsReadingUnder, IsVerdict, IsVerdictUnder};
ghost use Rattle.acvp_token.specs.Keys.{Ring};
ghost use Rattle.acvp_token.specs.Private.Opening.{IsSignedReading};
ghost use Rattle.acvp_token.specs.Reads.{Reads, ReadsUnder};
ghost use Rattle.acvp_token.specs.Verdict.{IsUnlessMemory, lasting_at, reading_of, reading_under, verdict_of};
ghost use Rattle.acvp_token.specs.Verdict.{verdict_under};

use crate::claims_json::read_claims;
use crate::opening::{OpenToken, open_token};
use crate::{Claims, KeyRing, TokenFault};
use acvp_mac::{HashName, hmac};
use std::alloc::Global;

/// The claims of a token that lasts at a moment, in seconds since 1970.
pub fn verify(alloc: Global, key: &[u8], text: &[u8], moment: u64) -> Result<Claims, TokenFault>
    ensures verdict { IsVerdict key.now text.now moment result }
    ensures value { IsUnlessMemory (verdict_of key.now text.now moment) result }
{
    let claims = verify_for_renewal(alloc, key, text)?;
    lasting_at(claims, moment)
}

/// The claims of a token, whether it still lasts or not.
pub fn verify_for_renewal(alloc: Global, key: &[u8], text: &[u8]) -> Result<Claims, TokenFault>
    ensures reading { IsReading key.now text.now result }
    ensures value { IsUnlessMemory (reading_of key.now text.now) result }
{
    let token = open_token(alloc, text)?;
    read_signed(alloc, key, &token)
}

/// The claims of a token that lasts at a moment, in seconds since 1970, under a ring.
pub fn verify_ring(
    alloc: Global,
    ring: &KeyRing,
    text: &[u8],
    moment: u64,
) -> Result<Claims, TokenFault>
    ensures verdict { IsVerdictUnder ring.now text.now moment result }
    ensures value { IsUnlessMemory (verdict_under ring.now text.now moment) result }
{
    let claims = verify_ring_for_renewal(alloc, ring, text)?;
    lasting_at(claims, moment)
}

/// The claims of a token, whether it still lasts or not, under a ring.
pub fn verify_ring_for_renewal(
    alloc: Global,
    ring: &KeyRing,
    text: &[u8],
) -> Result<Claims, TokenFault>
    ensures reading { IsReadingUnder ring.now text.now result }
    ensures value { IsUnlessMemory (reading_under ring.now text.now) result }
{
    let token = open_token(alloc, text)?;
    let Some(key) = ring.named_key(&token.header) else {
        return Err(TokenFault::Malformed);
    };
    read_signed(alloc, key, &token)
}

/// These claims, where they last at a moment.
fn lasting_at(claims: Claims, moment: u64) -> Result<Claims, TokenFault>
    ensures { result ≡ lasting_at moment (Ok claims) }
{
    if moment < claims.expires {
        Ok(claims)
    } else {
        Err(TokenFault::Expired)
    }
}

/// The claims of a token that is signed under the key.
fn read_signed(alloc: Global, key: &[u8], token: &OpenToken<'_>) -> Result<Claims, TokenFault>
    ensures { IsSignedReading key.now token.now.signed.now token.now.claims.items token.now.signature.items result }
{
    let signature = hmac(HashName::Sha256, key, token.signed);
    if is_same(token.signature.as_slice(), signature.as_slice()) {
        read_claims(alloc, &token.claims)
    } else {
        Err(TokenFault::Signature)
    }
}

/// Whether a signature is the one that was made. Each byte is compared, wherever the first that differs is.
fn is_same(given: &[u8], made: &[u8]) -> bool
    ensures { IsTrue result ↔ (given.now ≡ made.now) }
{
    if given.len() != made.len() {
        return false;
    }
    let mut same = true;
    for (byte, other) in given.iter().zip(made) {
        same &= byte == other;
    }
    same
}

/// The definition of what a text reads as gives one answer: under a key, no text reads as two claims, nor under a ring.
pub fn reads_one_way()
    ensures key { (key text : List ℕ) (first second : Claims) → Reads key text first → Reads key text second
        → first ≡ second }
    ensures ring { (ring : Ring) (text : List ℕ) (first second : Claims) → ReadsUnder ring text first
        → ReadsUnder ring text second → first ≡ second }
{}
