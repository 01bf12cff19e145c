//! What a command that failed comes to.
use crate::database::fault_of_files;
use acvp_commands::Fault;
use acvp_files::{CopyFault, Step};

/// A fault, and of a copy of a whole database the step that failed.
#[derive(Clone, Copy)]
pub(crate) struct Failed {
    pub(crate) fault: Fault,
    pub(crate) step: Option<Step>,
}

impl From<Fault> for Failed {
    fn from(fault: Fault) -> Failed {
        Failed { fault, step: None }
    }
}

impl From<CopyFault> for Failed {
    fn from(told: CopyFault) -> Failed {
        Failed {
            fault: fault_of_files(told.fault),
            step: Some(told.step),
        }
    }
}
