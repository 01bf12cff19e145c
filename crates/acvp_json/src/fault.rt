//! Why a body isn't read.
ghost use Rattle.std.specs.Prelude.{◌≡◌};
ghost use Rattle.acvp_json.specs.declared.fault.BodyFault.TheVariants.{Memory};

use std::alloc::{AllocError, AllocFailed};

/// Why a body isn't read, with the number of its rule of refusal; Memory is none.
#[derive(Clone, Copy, Debug, PartialEq, Eq)]
pub enum BodyFault {
    /// Rule 31: the bytes aren't JSON, or hold a number that is kept as a float.
    BodyNotJson,
    /// Rule 32: the JSON value isn't two objects, the first with the version of the protocol.
    BodyEnvelope,
    /// Rule 33: a member is missing or isn't of its kind.
    BodyField,
    /// Rule 37: an answer is to a test that the vector set doesn't have in that group.
    UnknownTest,
    /// Rule 38: a test is answered twice.
    DuplicateTest,
    /// Rule 39: the answers are for another vector set, algorithm or revision.
    SetMismatch,
    /// Rule 40: a text isn't the URL of an object of the kind that is meant.
    NoReference,
    /// Memory was refused. Rule 45, unavailable.
    Memory,
}

impl From<AllocError> for BodyFault {
    ghost from_gives = { λ _ fault. fault ≡ Memory };

    fn from(_: AllocError) -> BodyFault {
        BodyFault::Memory
    }
}

impl<T: Drop> From<AllocFailed<T>> for BodyFault {
    ghost from_gives = { λ _ fault. fault ≡ Memory };

    fn from(_: AllocFailed<T>) -> BodyFault {
        BodyFault::Memory
    }
}
