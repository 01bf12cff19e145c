//! A test of a vector set.

ghost use Rattle.std.specs.Prelude.{◌≡◌};

use std::marker::Model;

/// A test. It is made by `prompts`, and its calls take no memory.
#[derive(Drop)]
pub struct Test {
    pub(crate) number: u64,
    pub(crate) bits: u64,
    pub(crate) message: Vec<u8>,
    pub(crate) key: Vec<u8>,
}

impl Model for Test {
    ghost use Rattle.acvp_gen.specs.Prompt.{TestValue};

    ghost Value = { TestValue };

    ghost view = { λ t. record { number = t.number; bits = t.bits; message = t.message.items; key = t.key.items } };
}

impl Test {
    /// The number, from 1 on through all groups.
    pub fn number(&self) -> u64
        ensures { result ≡ self.now.number }
    {
        self.number
    }

    /// The bits of the message.
    pub fn bits(&self) -> u64
        ensures { result ≡ self.now.bits }
    {
        self.bits
    }

    /// The message, or the seed of a Monte Carlo test.
    pub fn message(&self) -> &[u8]
        ensures { result.now ≡ self.now.message }
    {
        &self.message
    }

    /// The key, which is empty for a hash function.
    pub fn key(&self) -> &[u8]
        ensures { result.now ≡ self.now.key }
    {
        &self.key
    }
}
