//! The generator, which is moved along a stream word by word.

ghost use Rattle.std.specs.Prelude.{◌≡◌, ◌<◌, ◌≤◌, ◌^◌, length};
ghost use Rattle.acvp_gen.specs.Words.{word_of, words_in, bytes_of};
ghost use Rattle.acvp_gen.specs.Private.Generator.{moved};

use rand_chacha::ChaCha20Rng;
use rand_core::SeedableRng;
use rand_core::utils::{self, NextWord};
use std::marker::Model;

/// The ChaCha20 generator of a seed and a vector set's number, at a place of its stream.
#[derive(Drop)]
pub(crate) struct Generator {
    seed: [u8; 32],
    words: ChaCha20Rng,
}

impl Model for Generator {
    ghost use Rattle.std.specs.Prelude.{◌≡◌};
    ghost use Rattle.rand_chacha.specs.ChaCha.{key_of};
    ghost use Rattle.acvp_gen.specs.Private.Generator.{GeneratorValue};

    ghost Value = { GeneratorValue };

    ghost view = { λ g. record { seed = g.seed; vs = g.words.stream; place = g.words.word_pos } };

    ghost invariant = { λ g. g.words.key ≡ key_of g.seed };
}

impl Generator {
    /// The generator at a place.
    pub fn at(seed: &[u8; 32], vs: u64, place: u64) -> Generator
        requires { place < 2 ^ 32 }
        ensures { result ≡ record { seed = seed.now; vs = vs; place = place } }
    {
        let mut words = ChaCha20Rng::from_seed(*seed);
        words.set_stream(vs);
        words.set_word_pos(u128::from(place));
        Generator { seed: *seed, words }
    }

    /// The next word.
    pub fn next_word(&mut self) -> u32
        requires { self.old.place < 2 ^ 32 }
        ensures value { result ≡ word_of self.old.seed self.old.vs self.old.place }
        ensures moved { self.new ≡ moved self.old 1 }
    {
        self.words.next_word()
    }

    /// Fills the bytes with a value that begins at the next word. The rest of its last word is dropped.
    pub fn fill(&mut self, bytes: &mut [u8])
        requires place { self.old.place < 2 ^ 32 }
        requires size { length bytes.old ≤ 65536 }
        ensures value { bytes.new ≡ bytes_of self.old.seed self.old.vs self.old.place (length bytes.old) }
        ensures moved { self.new ≡ moved self.old (words_in (length bytes.old)) }
    {
        utils::fill_bytes_via_u32(&mut self.words, bytes)
    }
}
