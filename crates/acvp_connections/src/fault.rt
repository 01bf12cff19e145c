//! Why a database isn't opened, or isn't copied.
ghost use Rattle.std.specs.Prelude.{◌≡◌, IfErr, IfOk};
ghost use Rattle.std.specs.IoError.{error_kind};
ghost use Rattle.acvp_connections.specs.Faults.{fault_of_cause, fault_of_kind, fault_of_open};

use acvp_causes::Cause;
use acvp_store::AdoptFault;
use acvp_tables::StoreFault;
use sqlite::{Error, ErrorCode};
use std::alloc::AllocError;
use std::io;

/// Why a database isn't opened, or isn't copied.
#[derive(Clone, Copy, Debug, PartialEq, Eq)]
pub enum FileFault {
    /// There is a file already where one is to be made.
    Taken,

    /// The database, or a file beside it, isn't there or can't be had, or isn't one.
    Unavailable,

    /// Nothing of the database can be read: another program made or changed it, its rows break the rules of its tables,
    /// or a page of it is damaged.
    Broken,

    /// Its tables aren't those of this version.
    Schema,

    /// Memory ran out.
    Memory,
}

impl From<AllocError> for FileFault {
    ghost use Rattle.std.specs.Prelude.{◌≡◌};
    ghost use Rattle.acvp_connections.specs.declared.fault.FileFault.TheVariants.{Memory};

    ghost from_gives = { λ _ fault. fault ≡ Memory };

    fn from(_: AllocError) -> FileFault {
        FileFault::Memory
    }
}

impl From<AdoptFault> for FileFault {
    ghost use Rattle.std.specs.Prelude.{◌≡◌};
    ghost use Rattle.acvp_connections.specs.Faults.{fault_of_adopt};

    ghost from_gives = { λ refused fault. fault ≡ fault_of_adopt refused };

    fn from(fault: AdoptFault) -> FileFault {
        match fault {
            AdoptFault::Schema => FileFault::Schema,
            AdoptFault::Refused => FileFault::Unavailable,
            AdoptFault::Memory => FileFault::Memory,
        }
    }
}

impl From<StoreFault> for FileFault {
    ghost use Rattle.std.specs.Prelude.{◌≡◌};
    ghost use Rattle.acvp_connections.specs.Faults.{fault_of_store};

    ghost from_gives = { λ refused fault. fault ≡ fault_of_store refused };

    fn from(fault: StoreFault) -> FileFault {
        match fault {
            StoreFault::Refused => FileFault::Unavailable,
            StoreFault::Memory => FileFault::Memory,
        }
    }
}

/// The fault of a database that can't be opened, or of a statement that isn't carried out.
pub fn fault_of_error(error: Error) -> FileFault
    ensures { result ≡ fault_of_open error }
{
    match error {
        Error::SqliteFailure(ErrorCode::OutOfMemory) => FileFault::Memory,
        Error::SqliteFailure(ErrorCode::NotADatabase | ErrorCode::DatabaseCorrupt) => {
            FileFault::Broken
        }
        _ => FileFault::Unavailable,
    }
}

/// The fault of a file that isn't taken.
pub fn fault_of_cause(cause: Cause) -> FileFault
    ensures { result ≡ fault_of_cause cause }
{
    match cause {
        Cause::Memory => FileFault::Memory,
        _ => FileFault::Unavailable,
    }
}

/// The fault of what the system refuses.
pub fn refused(error: &io::Error) -> FileFault
    ensures { result ≡ fault_of_kind (error_kind error.now) }
{
    match error.kind() {
        io::ErrorKind::OutOfMemory => FileFault::Memory,
        _ => FileFault::Unavailable,
    }
}

/// What an answer of the system comes to.
pub fn done<T>(answer: io::Result<T>) -> Result<T, FileFault>
    ensures ok { IfOk answer (λ value. result ≡ Ok value) }
    ensures err { IfErr answer (λ error. result ≡ Err (fault_of_kind (error_kind error))) }
{
    match answer {
        Ok(value) => Ok(value),
        Err(error) => Err(refused(&error)),
    }
}
