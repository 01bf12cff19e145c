//! What the errors of statements are told as.
ghost use Rattle.std.specs.Prelude.{◌≡◌, ◌≢◌, IfErr, IfOk, IsErrAnd, IsOk};

use acvp_tables::StoreFault;
use sqlite::{Error, ErrorCode, Row};

/// Why a database isn't taken over. No call on tables that were has a fault like Schema, so it is a type of its own.
#[derive(Clone, Copy, Debug, PartialEq, Eq)]
pub enum AdoptFault {
    /// Its tables aren't the store's, or it doesn't name their version.
    Schema,

    /// A statement was refused.
    Refused,

    /// Memory ran out.
    Memory,
}

/// A call's fault, of a database whose tables may well be the store's.
pub(crate) fn adopt_fault(fault: StoreFault) -> AdoptFault
    ensures refused { fault ≡ StoreFault.Refused → result ≡ AdoptFault.Refused }
    ensures memory { fault ≡ StoreFault.Memory → result ≡ AdoptFault.Memory }
    ensures other { result ≢ AdoptFault.Schema }
{
    match fault {
        StoreFault::Refused => AdoptFault::Refused,
        StoreFault::Memory => AdoptFault::Memory,
    }
}

/// Memory where memory ran out, else Refused.
pub(crate) fn fault_of(error: Error) -> StoreFault
    ensures memory { error ≡ Error.SqliteFailure ErrorCode.OutOfMemory → result ≡ StoreFault.Memory }
    ensures refused { error ≢ Error.SqliteFailure ErrorCode.OutOfMemory → result ≡ StoreFault.Refused }
{
    match error {
        Error::SqliteFailure(ErrorCode::OutOfMemory) => StoreFault::Memory,
        _ => StoreFault::Refused,
    }
}

/// What a statement that writes answers, without the number of rows.
pub(crate) fn done(outcome: Result<usize, Error>) -> Result<(), StoreFault>
    ensures { IsOk result → IsOk outcome }
{
    match outcome {
        Ok(_) => Ok(()),
        Err(error) => Err(fault_of(error)),
    }
}

/// What a query answers.
pub(crate) fn rows_in(outcome: Result<Vec<Row>, Error>) -> Result<Vec<Row>, StoreFault>
    ensures same { IfOk result (λ found. IfOk outcome (λ rows. found ≡ rows)) }
    ensures refused { IfErr result (λ fault. fault ≡ StoreFault.Refused
        → IsErrAnd outcome (λ error. error ≢ Error.SqliteFailure ErrorCode.OutOfMemory)) }
    ensures ok { IsOk result → IsOk outcome }
{
    match outcome {
        Ok(rows) => Ok(rows),
        Err(error) => Err(fault_of(error)),
    }
}
