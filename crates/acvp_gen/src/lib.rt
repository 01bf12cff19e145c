//! The choice of tests: the prompts of a vector set, which a seed, the set's number and a capability determine.
#![tactic(auto)]

mod choice;
mod filling;
mod generation;
mod generator;
mod group;
mod lengths;
mod prompt;
mod seeds;
mod shape;
mod test_case;
mod words;

pub use acvp_caps::{Algorithm, CapFault, Capability};
pub use generation::prompts;
pub use group::{Group, GroupForm, GroupKind, Sizes};
pub use prompt::Prompts;
pub use seeds::Seeds;
pub use test_case::Test;
pub use words::word_bytes;
