//! Why a whole database isn't copied.
ghost use Rattle.std.specs.Prelude.{◌≡◌, IfErr, IfOk};

use acvp_connections::FileFault;

/// At what a copy of a whole database failed.
#[derive(Clone, Copy, Debug, PartialEq, Eq)]
pub enum Step {
    /// What is copied isn't taken, or changes too often.
    Source,

    /// Reading it, or writing the copy, is refused.
    Copying,

    /// The copy can't be opened, or a page of it is damaged.
    Content,

    /// The copy can't be begun beside where it is to be.
    Begin,

    /// The copy can't be put where it is to be.
    Target,
}

/// Why a whole database isn't copied.
#[derive(Clone, Copy, Debug, PartialEq, Eq)]
pub struct CopyFault {
    pub step: Step,
    pub fault: FileFault,
}

/// What a step of a copy comes to.
pub(crate) fn at<T>(step: Step, outcome: Result<T, FileFault>) -> Result<T, CopyFault>
    ensures ok { IfOk outcome (λ value. result ≡ Ok value) }
    ensures err { IfErr outcome (λ fault. IfErr result (λ told. (told.step ≡ step) × (told.fault ≡ fault))) }
{
    match outcome {
        Ok(value) => Ok(value),
        Err(fault) => Err(CopyFault { step, fault }),
    }
}
