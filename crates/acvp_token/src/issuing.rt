//! Tokens are written.

ghost use Rattle.std.specs.Prelude.{◌≡◌, ◌≤◌, ◌<◌, ◌^◌, ℕ, List, IfOk, IfSome, OnOk, string_bytes};
ghost use Rattle.base64.specs.GeneralPurpose.{IsBytes};
ghost use Rattle.acvp_token.specs.Keys.{IsKeyRing, Ring, key_at, last_place};
ghost use Rattle.acvp_token.specs.Reads.{Reads, ReadsUnder};
ghost use Rattle.acvp_token.specs.TokenText.{issued_header, ring_token_text, signature_of, token_of, token_text};

use crate::claims_json::claims_text;
use crate::{Claims, KeyRing};
use acvp_mac::{HashName, hmac};
use base64::engine::general_purpose::URL_SAFE_NO_PAD;
use std::alloc::{AllocError, Global};

/// The header of a token that names no key.
const PLAIN_HEADER: &str = "{\"alg\":\"HS256\",\"typ\":\"JWT\"}";

/// The token with these claims, signed under the key.
pub fn issue(alloc: Global, key: &[u8], claims: &Claims) -> Result<String, AllocError>
    ensures text { IfOk result (λ t. string_bytes t ≡ token_text key.now claims.now) }
    ensures reads { 1 ≤ claims.now.account → claims.now.account ≤ 9999
        → IfOk result (λ t. Reads key.now (string_bytes t) claims.now) }
{
    let payload = claims_text(alloc, *claims)?;
    write_token(alloc, PLAIN_HEADER.as_bytes(), key, payload.as_bytes())
}

/// The token with these claims, signed under the ring's last key and, but for place 0, with that key's place as `kid`.
pub fn issue_ring(alloc: Global, ring: &KeyRing, claims: &Claims) -> Result<String, AllocError>
    ensures text { IfOk result (λ t. string_bytes t ≡ ring_token_text ring.now claims.now) }
    ensures reads { 1 ≤ claims.now.account → claims.now.account ≤ 9999
        → IfOk result (λ t. ReadsUnder ring.now (string_bytes t) claims.now) }
{
    let header = header_text(alloc, ring.last_place())?;
    let payload = claims_text(alloc, *claims)?;
    write_token(
        alloc,
        header.as_bytes(),
        ring.signing_key(),
        payload.as_bytes(),
    )
}

/// The header of a token that is signed under the key at a place.
fn header_text(alloc: Global, place: usize) -> Result<String, AllocError>
    ensures { IfOk result (λ t. string_bytes t ≡ issued_header place) }
{
    if place == 0 {
        PLAIN_HEADER.to_string(alloc)
    } else {
        format!(in alloc; "{{\"alg\":\"HS256\",\"kid\":\"{place}\",\"typ\":\"JWT\"}}")
    }
}

/// The token with this header and payload, signed under the key.
fn write_token(
    alloc: Global,
    header: &[u8],
    key: &[u8],
    payload: &[u8],
) -> Result<String, AllocError>
    ensures text { IfOk result (λ t. string_bytes t
        ≡ token_of header.now payload.now (signature_of key.now header.now payload.now)) }
    ensures bytes { OnOk result (IsBytes payload.now) }
{
    let mut token = String::new(alloc);
    URL_SAFE_NO_PAD.encode_string(header, &mut token)?;
    token.push_str(".")?;
    URL_SAFE_NO_PAD.encode_string(payload, &mut token)?;
    let signature = hmac(HashName::Sha256, key, token.as_bytes());
    token.push_str(".")?;
    URL_SAFE_NO_PAD.encode_string(signature.as_slice(), &mut token)?;
    Ok(token)
}

/// The definitions of a token's text and of its reading fit: whoever writes it, the token of any claims reads as them,
/// under one key and under a ring.
pub fn issued_reads_back()
    ensures key { (key : List ℕ) (claims : Claims) → 1 ≤ claims.account → claims.account ≤ 9999
        → IfSome claims.session (λ n. n < 2 ^ 64) → claims.issued < 2 ^ 64 → claims.expires < 2 ^ 64
        → Reads key (token_text key claims) claims }
    ensures ring { (ring : Ring) (claims : Claims) → IsKeyRing ring
        → 1 ≤ claims.account → claims.account ≤ 9999
        → IfSome claims.session (λ n. n < 2 ^ 64) → claims.issued < 2 ^ 64 → claims.expires < 2 ^ 64
        → ReadsUnder ring (ring_token_text ring claims) claims }
{}

/// A token stays good under a later ring, as long as the key that signed it stands there at its place; and so does one
/// that was issued under one key, where that key is entry 0.
pub fn reads_while_its_key_stands()
    ensures key { (key : List ℕ) (later : Ring) (claims : Claims) → IsKeyRing later
        → key_at later 0 ≡ Some key → 1 ≤ claims.account → claims.account ≤ 9999
        → IfSome claims.session (λ n. n < 2 ^ 64) → claims.issued < 2 ^ 64 → claims.expires < 2 ^ 64
        → ReadsUnder later (token_text key claims) claims }
    ensures ring { (ring later : Ring) (claims : Claims) → IsKeyRing ring → IsKeyRing later
        → key_at later (last_place ring) ≡ key_at ring (last_place ring)
        → 1 ≤ claims.account → claims.account ≤ 9999
        → IfSome claims.session (λ n. n < 2 ^ 64) → claims.issued < 2 ^ 64 → claims.expires < 2 ^ 64
        → ReadsUnder later (ring_token_text ring claims) claims }
{}
