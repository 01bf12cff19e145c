//! A word of the stream by its place, and values that are made of words.

ghost use Rattle.std.specs.Prelude.{◌≡◌, ◌<◌, ◌≤◌, ◌^◌, IfOk};
ghost use Rattle.acvp_gen.specs.Words.{word_bytes_of, words_in, bytes_of};
ghost use Rattle.acvp_gen.specs.Private.Generator.{moved};

use crate::generator::Generator;
use std::alloc::{AllocError, Global};

/// The word at a place of the ChaCha20 stream (RFC 8439, section 2.3, with a block counter and a stream number of 64
/// bits each) of a vector set's number under the seed: its four bytes, least significant first. It takes no memory.
pub fn word_bytes(seed: &[u8; 32], vs: u64, place: u64) -> [u8; 4]
    requires { place < 2 ^ 32 }
    ensures { result ≡ word_bytes_of seed.now vs place }
{
    Generator::at(seed, vs, place).next_word().to_le_bytes()
}

/// The value of so many bytes that begins at the next word.
pub(crate) fn value(alloc: Global, words: &mut Generator, size: u64) -> Result<Vec<u8>, AllocError>
    requires place { words.old.place < 2 ^ 32 }
    requires size { size ≤ 65536 }
    ensures value { IfOk result
        (λ bytes. bytes.items ≡ bytes_of words.old.seed words.old.vs words.old.place size) }
    ensures moved { IfOk result (λ _. words.new ≡ moved words.old (words_in size)) }
{
    let mut bytes = vec![in alloc; 0; size as usize]?;
    words.fill(&mut bytes);
    Ok(bytes)
}
