//! Why nothing, or not all, is shown.
use acvp_desk::NewFault;
use acvp_tables::StoreFault;
use std::alloc::AllocError;

/// Why nothing, or not all, is shown.
#[derive(Clone, Copy, Debug, PartialEq, Eq)]
pub enum ViewFault {
    /// There is no such request.
    Unknown,

    /// A statement was refused, or a row was met that stands for nothing.
    Refused,

    /// A vector set names a seed that isn't among the keys.
    Seed,

    /// A line can't be written.
    Write,

    /// Memory ran out.
    Memory,
}

impl From<AllocError> for ViewFault {
    ghost use Rattle.std.specs.Prelude.{◌≡◌};
    ghost use Rattle.acvp_view.specs.declared.fault.ViewFault.TheVariants.{Memory};

    ghost from_gives = { λ _ fault. fault ≡ Memory };

    fn from(_: AllocError) -> ViewFault {
        ViewFault::Memory
    }
}

impl From<StoreFault> for ViewFault {
    ghost use Rattle.std.specs.Prelude.{◌≡◌};
    ghost use Rattle.acvp_view.specs.Faults.{fault_of_store};

    ghost from_gives = { λ refused fault. fault ≡ fault_of_store refused };

    fn from(fault: StoreFault) -> ViewFault {
        match fault {
            StoreFault::Refused => ViewFault::Refused,
            StoreFault::Memory => ViewFault::Memory,
        }
    }
}

impl From<NewFault> for ViewFault {
    ghost use Rattle.std.specs.Prelude.{◌≡◌};
    ghost use Rattle.acvp_view.specs.Faults.{fault_of_desk};

    ghost from_gives = { λ refused fault. fault ≡ fault_of_desk refused };

    fn from(fault: NewFault) -> ViewFault {
        match fault {
            NewFault::Memory => ViewFault::Memory,
            NewFault::Epoch => ViewFault::Seed,
            NewFault::Store => ViewFault::Refused,
        }
    }
}
