//! The prompts of a vector set.

ghost use Rattle.std.specs.Prelude.{◌≡◌};
ghost use Rattle.acvp_gen.specs.Prompts.{AreGroupsOf};

use crate::group::Group;
use acvp_caps::Algorithm;
use std::marker::Model;

/// The prompts of a vector set. They are made by `prompts`, and their calls take no memory.
#[derive(Drop)]
pub struct Prompts {
    pub(crate) vs: u64,
    pub(crate) algorithm: Algorithm,
    pub(crate) groups: Vec<Group>,
}

impl Model for Prompts {
    ghost use Rattle.acvp_gen.specs.Prompt.{PromptsValue};
    ghost use Rattle.acvp_gen.specs.Prompts.{AreGroupsOf};

    ghost Value = { PromptsValue };

    ghost view = { λ p. record { vs = p.vs; algorithm = p.algorithm; groups = p.groups.items } };

    ghost invariant = { λ p. AreGroupsOf p.algorithm p.groups.items };
}

impl Prompts {
    /// The number of the vector set.
    pub fn vs(&self) -> u64
        ensures { result ≡ self.now.vs }
    {
        self.vs
    }

    /// The algorithm under test.
    pub fn algorithm(&self) -> Algorithm
        ensures { result ≡ self.now.algorithm }
    {
        self.algorithm
    }

    /// The groups in their order.
    pub fn groups(&self) -> &[Group]
        ensures value { result.now ≡ self.now.groups }
        ensures fit { AreGroupsOf self.now.algorithm self.now.groups }
    {
        &self.groups
    }
}
