//! The texts with which the standard answers a single test: bytes as hex digits in lower case.
ghost use Rattle.std.specs.Prelude.{◌≡◌, ◌≤◌, [], ◌∷◌, IfOk, map, string_bytes};
ghost use Rattle.hex.specs.Hex.{encode_lower};
ghost use Rattle.acvp_mac.specs.Hash.{digest_of, out_of};
ghost use Rattle.acvp_answers.specs.MonteCarlo.{next_checkpoint};
ghost use Rattle.acvp_answers.specs.Private.Ending.{before_or};
ghost use Rattle.acvp_answers.specs.Standards as standards;

use crate::monte_carlo::next_checkpoint;
use acvp_mac::{Digest, HashName, hash, hmac};
use std::alloc::{AllocError, Global};

/// How many checkpoints a Monte Carlo test has.
const CHECKPOINTS: usize = 100;

/// One text, of these bytes.
fn one_text(alloc: Global, bytes: &[u8]) -> Result<Vec<String>, AllocError>
    ensures { IfOk result (λ texts. map string_bytes texts.items ≡ encode_lower bytes.now ∷ []) }
{
    let mut texts = Vec::with_capacity(alloc, 1)?;
    texts.push(hex::encode(alloc, bytes)?)?;
    Ok(texts)
}

/// The digest of a message (FIPS 180-4): the answer to a functional test of a hash function.
pub fn digest_texts(
    alloc: Global,
    name: HashName,
    message: &[u8],
) -> Result<Vec<String>, AllocError>
    ensures { IfOk result (λ texts. map string_bytes texts.items ≡ standards.digest_texts name message.now) }
{
    one_text(alloc, hash(name, message).as_slice())
}

/// The leftmost `bytes` bytes of the HMAC of a message (FIPS 198-1): the answer to a test of HMAC.
pub fn mac_texts(
    alloc: Global,
    name: HashName,
    key: &[u8],
    message: &[u8],
    bytes: usize,
) -> Result<Vec<String>, AllocError>
    requires { bytes ≤ out_of name }
    ensures { IfOk result (λ texts. map string_bytes texts.items ≡ standards.mac_texts name key.now message.now bytes) }
{
    one_text(alloc, hmac(name, key, message).leftmost(bytes))
}

/// The checkpoint after another one, or after the seed where there is none yet.
fn checkpoint_after(name: HashName, seed: &[u8], before: Option<Digest>) -> Digest
    ensures { result ≡ next_checkpoint (digest_of name) (before_or seed.now before) }
{
    match before {
        Some(checkpoint) => next_checkpoint(name, checkpoint.as_slice()),
        None => next_checkpoint(name, seed),
    }
}

/// The first checkpoints of a Monte Carlo test, as many as are asked for. It takes memory for their texts alone.
pub fn checkpoint_texts(
    alloc: Global,
    name: HashName,
    seed: &[u8],
    count: usize,
) -> Result<Vec<String>, AllocError>
    ensures { IfOk result (λ texts. map string_bytes texts.items ≡ standards.checkpoint_texts name seed.now count) }
{
    let mut texts = Vec::with_capacity(alloc, count)?;
    let mut last = None;
    for _ in 0..count {
        let checkpoint = checkpoint_after(name, seed, last);
        let text = hex::encode(alloc, checkpoint.as_slice())?;
        texts.push(text)?;
        last = Some(checkpoint);
    }
    Ok(texts)
}

/// The hundred checkpoints that answer a Monte Carlo test.
pub fn monte_carlo_texts(
    alloc: Global,
    name: HashName,
    seed: &[u8],
) -> Result<Vec<String>, AllocError>
    ensures { IfOk result (λ texts. map string_bytes texts.items ≡ standards.monte_carlo_texts name seed.now) }
{
    checkpoint_texts(alloc, name, seed, CHECKPOINTS)
}
