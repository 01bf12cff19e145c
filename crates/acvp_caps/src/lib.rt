//! What an implementation under test can do: the algorithms, the domains of their parameters, and
//! the registrations that claim them.
#![tactic(auto)]

ghost use Rattle.std.specs.Prelude.{◌≡◌};
ghost use Rattle.acvp_caps.specs.declared.CapFault.TheVariants.{Memory};

pub use algorithm::Algorithm;
pub use capability::{Capability, Domains};
pub use domain::{Domain, members_are_exact};
pub use registration::{Registration, read_registration};
use std::alloc::{AllocError, AllocFailed};

mod algorithm;
mod capability;
mod domain;
mod given;
mod item;
pub mod json;
mod registration;
mod walk;

/// Why a registration, or one capability, is not read.
#[derive(Clone, Copy, PartialEq, Eq, Debug)]
pub enum CapFault {
    /// 1: a member is absent, or has not the form that it needs. The rule bodyField (33).
    Field,

    /// 2: a length is not a whole number of bytes. The rule notByteOriented (34).
    NotByteOriented,

    /// 3: a length is outside what the algorithm is tested at. The rule lengthOutOfRange (35).
    OutOfRange,

    /// 4: an algorithm, a revision or an option that is not offered. The rule unsupported (36).
    Unsupported,

    /// 5: memory was refused. The rule unavailable (45).
    Memory,
}

impl From<AllocError> for CapFault {
    ghost from_gives = { λ _ fault. fault ≡ Memory };

    fn from(_: AllocError) -> CapFault {
        CapFault::Memory
    }
}

impl<T: Drop> From<AllocFailed<T>> for CapFault {
    ghost from_gives = { λ _ fault. fault ≡ Memory };

    fn from(_: AllocFailed<T>) -> CapFault {
        CapFault::Memory
    }
}
