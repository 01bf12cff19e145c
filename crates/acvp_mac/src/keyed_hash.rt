//! The keyed-hash message authentication code (FIPS 198-1) over any of the hash functions.

ghost use Rattle.std.specs.Prelude.{◌≡◌, ◌<◌, ◌++◌, length, take, replicate, map, bit_xor, All};
ghost use Rattle.acvp_mac.specs.Hash.{digest_of, out_of};
ghost use Rattle.acvp_mac.specs.Hmac.{block_key, hmac_of, xor_each};

use crate::digest_bytes::zero_filled;
use crate::hash_functions::{HashFunction, hash_under};
use crate::{Digest, HashName};
use sha2::{Sha224, Sha256, Sha384, Sha512, Sha512_224, Sha512_256};

/// The bytes of the largest block.
const BLOCK_LIMIT: usize = 128;

/// The byte of the inner pad (FIPS 198-1, section 2.3).
const INNER_PAD: u8 = 0x36;

/// The byte of the outer pad (FIPS 198-1, section 2.3).
const OUTER_PAD: u8 = 0x5c;

/// HMAC of a text under a key of any length.
pub fn hmac(name: HashName, key: &[u8], text: &[u8]) -> Digest
    ensures value { result ≡ hmac_of name key.now text.now }
    ensures len { length result ≡ out_of name }
    ensures bytes { All (λ b. b < 256) result }
{
    match name {
        HashName::Sha224 => hmac_under::<Sha224>(key, text),
        HashName::Sha256 => hmac_under::<Sha256>(key, text),
        HashName::Sha384 => hmac_under::<Sha384>(key, text),
        HashName::Sha512 => hmac_under::<Sha512>(key, text),
        HashName::Sha512_224 => hmac_under::<Sha512_224>(key, text),
        HashName::Sha512_256 => hmac_under::<Sha512_256>(key, text),
    }
}

/// HMAC over one hash function.
fn hmac_under<H: HashFunction>(key: &[u8], text: &[u8]) -> Digest
    ensures value { result ≡ hmac_of H.name key.now text.now }
    ensures len { length result ≡ H.OUT }
    ensures bytes { All (λ b. b < 256) result }
{
    let block = key_block::<H>(key);
    let inner = padded_hash::<H>(&block, INNER_PAD, text);
    padded_hash::<H>(&block, OUTER_PAD, inner.as_slice())
}

/// The key as a block, with zeros after it.
fn key_block<H: HashFunction>(key: &[u8]) -> [u8; BLOCK_LIMIT]
    ensures { take H.BLOCK result ≡ block_key H.name key.now }
{
    if key.len() > H::BLOCK {
        zero_filled(hash_under::<H>(key).as_slice())
    } else {
        zero_filled(key)
    }
}

/// The digest of a block, each byte of it changed by the pad, and a text after it.
fn padded_hash<H: HashFunction>(block: &[u8; BLOCK_LIMIT], pad: u8, text: &[u8]) -> Digest
    ensures value { result ≡ digest_of H.name
        (xor_each (take H.BLOCK block.now) (replicate H.BLOCK pad) ++ text.now) }
    ensures len { length result ≡ H.OUT }
    ensures bytes { All (λ b. b < 256) result }
{
    let padded = masked(block, pad);
    let mut state = H::start();
    state.update(&padded[..H::BLOCK]);
    state.update(text);
    state.finish()
}

/// A block with each byte changed by the pad.
fn masked(block: &[u8; BLOCK_LIMIT], pad: u8) -> [u8; BLOCK_LIMIT]
    ensures { result ≡ map (λ b. bit_xor b pad) block.now }
{
    let mut masked = [0u8; BLOCK_LIMIT];
    for (i, byte) in block.iter().enumerate() {
        masked[i] = *byte ^ pad;
    }
    masked
}
