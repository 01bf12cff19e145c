//! An entry of the cache.

ghost use Rattle.std.specs.Prelude.{◌≡◌, None, Some, IfOk, IfSome, IsTrue, OnOk, OnErr, IsSome};
ghost use Rattle.acvp_gen.specs.Prompts.{prompts_of};
ghost use Rattle.acvp_answers.specs.Standards.{standard_of};
ghost use Rattle.acvp_json.specs.VectorSet.{vector_set_data};
ghost use Rattle.acvp_desk.specs.Answer.{IsReply};
ghost use Rattle.acvp_desk.specs.Cached.{HasItsReply, HasItsStandard, StaysTrue};

use acvp_answers::{Answers, standard};
use acvp_caps::Capability;
use acvp_gen::{Prompts, prompts};
use std::alloc::{AllocError, Global};

/// The reply that shows the prompts of a vector set, by whether it is a sample.
#[derive(Drop)]
pub(crate) struct Shown {
    pub sample: bool,
    pub reply: Vec<u8>,
}

/// What was computed of a vector set, by its capability and under the seed of its epoch.
#[derive(Drop)]
pub(crate) struct Entry {
    pub capability: Capability,
    pub epoch: u64,
    pub prompts: Prompts,

    /// The standard answers, once they were asked for.
    pub standard: Option<Answers>,

    /// The reply that shows the prompts, once it was asked for.
    pub shown: Option<Shown>,
}

impl Entry {
    /// The entry of the vector set of a number, with these standard answers.
    pub(crate) fn make(
        alloc: Global,
        seed: &[u8; 32],
        number: u64,
        capability: Capability,
        epoch: u64,
        standard: Option<Answers>,
    ) -> Result<Entry, AllocError>
        ensures { IfOk result (λ e. e ≡ record {
          capability = capability;
          epoch = epoch;
          prompts = prompts_of seed.now number capability;
          standard = standard;
          shown = None;
        }) }
    {
        let prompts = prompts(alloc, seed, number, &capability)?;
        Ok(Entry {
            capability,
            epoch,
            prompts,
            standard,
            shown: None,
        })
    }

    /// Whether it is of this capability, as its items were given, and of this epoch.
    pub(crate) fn is_of(&self, capability: &Capability, epoch: u64) -> bool
        ensures capability { IsTrue result → self.now.capability ≡ capability.now }
        ensures epoch { IsTrue result → self.now.epoch ≡ epoch }
    {
        self.epoch == epoch && self.capability.is_same(capability)
    }

    /// Whether its standard answers take long to make: those of a Monte Carlo test do.
    pub(crate) fn takes_long(&self) -> bool {
        !self.capability.algorithm().is_hmac()
    }

    /// Makes the standard answers where they aren't there. Where memory is refused, the entry stays as it was.
    pub(crate) fn complete(&mut self, alloc: Global) -> Result<(), AllocError>
        requires { HasItsStandard self.old }
        ensures ok { OnOk result (self.new.standard ≡ Some (standard_of self.old.prompts)) }
        ensures err { OnErr result (self.new ≡ self.old) }
        ensures prompts { self.new.prompts ≡ self.old.prompts }
        ensures stays { StaysTrue self.old self.new }
    {
        if self.standard.is_none() {
            self.standard = Some(standard(alloc, &self.prompts)?);
        }
        Ok(())
    }

    /// The reply that shows the prompts, where it is kept.
    pub(crate) fn reply(&self, sample: bool) -> Option<&Vec<u8>>
        requires { HasItsReply self.now }
        ensures { IfSome result (λ reply. IsReply reply.now.items (Some (vector_set_data sample self.now.prompts))) }
    {
        match &self.shown {
            Some(shown) if shown.sample == sample => Some(&shown.reply),
            _ => None,
        }
    }

    /// Keeps a copy of the reply that shows the prompts. Where memory is refused, the entry stays as it was.
    pub(crate) fn keep_reply(&mut self, sample: bool, reply: &Vec<u8>)
        requires { IsReply reply.now.items (Some (vector_set_data sample self.old.prompts)) }
        ensures { StaysTrue self.old self.new }
    {
        if let Ok(reply) = reply.clone() {
            self.shown = Some(Shown { sample, reply });
        }
    }

    /// The prompts.
    pub(crate) fn prompts(&self) -> &Prompts
        ensures { result.now ≡ self.now.prompts }
    {
        &self.prompts
    }

    /// The standard answers, which were made.
    pub(crate) fn standard(&self) -> &Answers
        requires { IsSome self.now.standard }
        ensures { self.now.standard ≡ Some result.now }
    {
        self.standard.as_ref().unwrap()
    }
}
