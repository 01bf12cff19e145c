//! Why a command failed.
ghost use Rattle.std.specs.Prelude.{◌≡◌};
ghost use Rattle.std.specs.IoError.{error_kind};
ghost use Rattle.acvp_commands.specs.Faults.{fault_of_kind};

use acvp_desk::NewFault;
use acvp_http::ScriptFault;
use acvp_store::AdoptFault;
use acvp_tables::StoreFault;
use std::alloc::AllocError;
use std::io;

/// Why a command failed: the word that is printed after `fault: `.
#[derive(Clone, Copy, Debug, PartialEq, Eq, thiserror::Error)]
pub enum Fault {
    /// The account's number is there already.
    #[error("taken")]
    Taken,
    /// There is no such account or request.
    #[error("unknown")]
    Unknown,
    /// The request was decided before.
    #[error("notInitial")]
    NotInitial,
    /// The database isn't there or can't be opened; the store refuses a statement, or has a row that stands for
    /// nothing.
    #[error("unavailable")]
    Unavailable,
    /// The tables of the database aren't those of this version.
    #[error("schema")]
    Schema,
    /// The keys file can't be read, or is of neither form; or a vector set's epoch has no seed in it.
    #[error("keys")]
    Keys,
    /// The secret file can't be read, or isn't a line of 64 hex digits.
    #[error("secret")]
    Secret,
    /// The port can't be listened on.
    #[error("bind")]
    Bind,
    /// No connection can be taken any more.
    #[error("accept")]
    Accept,
    /// Standard input can't be read.
    #[error("read")]
    Read,
    /// Standard output can't be written to.
    #[error("write")]
    Write,
    /// The input isn't a script.
    #[error("syntax")]
    Syntax,
    /// The script is longer than one run goes.
    #[error("limit")]
    Limit,
    /// Memory ran out.
    #[error("memory")]
    Memory,
}

impl From<AllocError> for Fault {
    ghost use Rattle.std.specs.Prelude.{◌≡◌};
    ghost use Rattle.acvp_commands.specs.declared.fault.Fault.TheVariants.{Memory};

    ghost from_gives = { λ _ fault. fault ≡ Memory };

    fn from(_: AllocError) -> Fault {
        Fault::Memory
    }
}

impl From<ScriptFault> for Fault {
    ghost use Rattle.std.specs.Prelude.{◌≡◌};
    ghost use Rattle.acvp_commands.specs.Faults.{fault_of_run};

    ghost from_gives = { λ stopped fault. fault ≡ fault_of_run stopped };

    fn from(fault: ScriptFault) -> Fault {
        match fault {
            ScriptFault::Read => Fault::Read,
            ScriptFault::Write => Fault::Write,
            ScriptFault::Syntax => Fault::Syntax,
            ScriptFault::Limit => Fault::Limit,
            ScriptFault::Memory => Fault::Memory,
        }
    }
}

impl From<NewFault> for Fault {
    ghost use Rattle.std.specs.Prelude.{◌≡◌};
    ghost use Rattle.acvp_commands.specs.Faults.{fault_of_desk};

    ghost from_gives = { λ refused fault. fault ≡ fault_of_desk refused };

    fn from(fault: NewFault) -> Fault {
        match fault {
            NewFault::Memory => Fault::Memory,
            NewFault::Epoch => Fault::Keys,
            NewFault::Store => Fault::Unavailable,
        }
    }
}

impl From<StoreFault> for Fault {
    ghost use Rattle.std.specs.Prelude.{◌≡◌};
    ghost use Rattle.acvp_commands.specs.Faults.{fault_of_store};

    ghost from_gives = { λ refused fault. fault ≡ fault_of_store refused };

    fn from(fault: StoreFault) -> Fault {
        match fault {
            StoreFault::Refused => Fault::Unavailable,
            StoreFault::Memory => Fault::Memory,
        }
    }
}

impl From<AdoptFault> for Fault {
    ghost use Rattle.std.specs.Prelude.{◌≡◌};
    ghost use Rattle.acvp_commands.specs.Faults.{fault_of_adopt};

    ghost from_gives = { λ refused fault. fault ≡ fault_of_adopt refused };

    fn from(fault: AdoptFault) -> Fault {
        match fault {
            AdoptFault::Schema => Fault::Schema,
            AdoptFault::Refused => Fault::Unavailable,
            AdoptFault::Memory => Fault::Memory,
        }
    }
}

impl Fault {
    /// This fault of the system's, or want of memory where the system says so.
    pub fn of_system(self, error: &io::Error) -> Fault
        ensures { result ≡ fault_of_kind self (error_kind error.now) }
    {
        match error.kind() {
            io::ErrorKind::OutOfMemory => Fault::Memory,
            _ => self,
        }
    }
}
