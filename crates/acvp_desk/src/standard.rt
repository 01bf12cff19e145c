//! The standard answers of a vector set, as they are kept once they were made.

ghost use Rattle.std.specs.Prelude.{◌≡◌, IfSome, IsTrue};
ghost use Rattle.acvp_desk.specs.Cached.{IsStandardIn};

use crate::entry::Entry;
use acvp_answers::Answers;
use acvp_caps::Capability;

/// The standard answers of a vector set, by its capability and under the seed of its epoch.
#[derive(Drop)]
pub(crate) struct Standard {
    pub capability: Capability,
    pub epoch: u64,
    pub answers: Answers,
}

impl Standard {
    /// A copy of the standard answers of an entry, where they were made. Where memory is refused there is none.
    pub(crate) fn of(entry: &Entry) -> Option<Standard>
        ensures { IfSome result (IsStandardIn entry.now) }
    {
        let answers = entry.standard.as_ref()?.clone().ok()?;
        let capability = entry.capability.clone().ok()?;
        Some(Standard {
            capability,
            epoch: entry.epoch,
            answers,
        })
    }

    /// Whether it is of this capability, as its items were given, and of this epoch.
    pub(crate) fn is_of(&self, capability: &Capability, epoch: u64) -> bool
        ensures capability { IsTrue result → self.now.capability ≡ capability.now }
        ensures epoch { IsTrue result → self.now.epoch ≡ epoch }
    {
        self.epoch == epoch && self.capability.is_same(capability)
    }
}
