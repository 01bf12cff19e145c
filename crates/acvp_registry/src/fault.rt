//! Why a JSON value isn't read or isn't kept.
ghost use Rattle.std.specs.Prelude.{◌≡◌};
ghost use Rattle.acvp_registry.specs.declared.fault.RegFault.TheVariants.{Memory};

use std::alloc::{AllocError, AllocFailed};

/// Why a JSON value isn't read or isn't kept, with the number of its rule of refusal; Memory is none.
#[derive(Clone, Copy, Debug, PartialEq, Eq)]
pub enum RegFault {
    /// Rule 33: a member is missing or isn't of its kind, or the value doesn't fit what is kept. Of `body_value`, rule
    /// 31: the bytes aren't JSON, or hold a number that is kept as a float.
    Field,
    /// Rule 40: `vendorUrl` isn't the URL of a vendor.
    NoReference,
    /// Memory was refused. Rule 45, unavailable.
    Memory,
}

impl From<AllocError> for RegFault {
    ghost from_gives = { λ _ fault. fault ≡ Memory };

    fn from(_: AllocError) -> RegFault {
        RegFault::Memory
    }
}

impl<T: Drop> From<AllocFailed<T>> for RegFault {
    ghost from_gives = { λ _ fault. fault ≡ Memory };

    fn from(_: AllocFailed<T>) -> RegFault {
        RegFault::Memory
    }
}
