//! A group of tests.

ghost use Rattle.std.specs.Prelude.{◌≡◌, option_map};
ghost use Rattle.acvp_gen.specs.Prompt.{kind_of, sizes_of};

use crate::test_case::Test;
use std::marker::Model;

/// What the tests of a group ask for.
#[derive(Clone, Copy, PartialEq, Eq)]
pub enum GroupKind {
    /// The digest of each message, or its HMAC under the key.
    Functional,

    /// The hundred checkpoints of the Monte Carlo test that the message is the seed of.
    MonteCarlo,
}

/// The sizes that the tests of an HMAC group share, in bits.
#[derive(Clone, Copy, PartialEq, Eq)]
pub struct Sizes {
    /// Of the key.
    pub key_bits: u64,

    /// Of the message.
    pub message_bits: u64,

    /// Of the MAC, the leftmost bits of HMAC's output (FIPS 198-1, section 5).
    pub mac_bits: u64,
}

/// What a group asks for, and the sizes that its tests share where it asks for MACs.
#[derive(Clone, Copy)]
pub enum GroupForm {
    /// The digest of each message.
    Digest,

    /// The hundred checkpoints of the Monte Carlo test that the message is the seed of.
    MonteCarlo,

    /// The HMAC of each message under the key, cut to the MAC's bits.
    Mac(Sizes),
}

/// A group of tests. It is made by `prompts`, and its calls take no memory.
#[derive(Drop)]
pub struct Group {
    pub(crate) number: u64,
    pub(crate) form: GroupForm,
    pub(crate) tests: Vec<Test>,
}

impl Model for Group {
    ghost use Rattle.acvp_gen.specs.Prompt.{GroupValue};

    ghost Value = { GroupValue };

    ghost view = { λ g. record { number = g.number; form = g.form; tests = g.tests.items } };
}

impl Group {
    /// The number, from 1 on.
    pub fn number(&self) -> u64
        ensures { result ≡ self.now.number }
    {
        self.number
    }

    /// What the group asks for, with the sizes of an HMAC group.
    pub fn form(&self) -> GroupForm
        ensures { result ≡ self.now.form }
    {
        self.form
    }

    /// What the tests ask for.
    pub fn kind(&self) -> GroupKind
        ensures { result ≡ kind_of self.now.form }
    {
        match self.form {
            GroupForm::MonteCarlo => GroupKind::MonteCarlo,
            GroupForm::Digest | GroupForm::Mac(_) => GroupKind::Functional,
        }
    }

    /// The sizes that an HMAC group has, and none of a hash function.
    pub fn sizes(&self) -> Option<Sizes>
        ensures { result ≡ sizes_of self.now.form }
    {
        match self.form {
            GroupForm::Mac(sizes) => Some(sizes),
            GroupForm::Digest | GroupForm::MonteCarlo => None,
        }
    }

    /// The bits of an HMAC group's keys.
    pub fn key_bits(&self) -> Option<u64>
        ensures { result ≡ option_map (λ s. s.key_bits) (sizes_of self.now.form) }
    {
        Some(self.sizes()?.key_bits)
    }

    /// The bits of an HMAC group's messages.
    pub fn message_bits(&self) -> Option<u64>
        ensures { result ≡ option_map (λ s. s.message_bits) (sizes_of self.now.form) }
    {
        Some(self.sizes()?.message_bits)
    }

    /// The bits of an HMAC group's MACs.
    pub fn mac_bits(&self) -> Option<u64>
        ensures { result ≡ option_map (λ s. s.mac_bits) (sizes_of self.now.form) }
    {
        Some(self.sizes()?.mac_bits)
    }

    /// The tests in their order.
    pub fn tests(&self) -> &[Test]
        ensures { result.now ≡ self.now.tests }
    {
        &self.tests
    }
}
