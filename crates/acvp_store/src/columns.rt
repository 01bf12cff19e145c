//! The columns of a row, and numbers as columns keep them.
ghost use Rattle.std.specs.Prelude.{◌≡◌, ◌≢◌, ◌<◌, ◌≤◌, ◌^◌, ℕ, Bool, negsuc, length, IfOk, IfErr};
ghost use Rattle.sqlite_value.specs.Order.{column};
ghost use Rattle.sqlite_value.specs.declared.value.Value.TheVariants.{Int};
ghost use Rattle.acvp_store.specs.Values.{flag, whole};
ghost use Rattle.acvp_store.specs.Private.Performed.{parameter};

use crate::fault::fault_of;
use acvp_tables::StoreFault;
use sqlite::Row;
use sqlite::types::{FromSql, ValueRef};

/// The column at a place, from 0 on.
pub(crate) fn field<T: FromSql>(row: &Row, at: usize) -> Result<T, StoreFault>
    ensures value { IfOk result (λ x. T.FromSql.reads_as (column row.now at) x) }
    ensures within { IfOk result (λ _. at < length row.now) }
    ensures refused { IfErr result (λ fault. fault ≡ StoreFault.Refused → at < length row.now
        → ¬ T.FromSql.is_readable (column row.now at)) }
{
    match row.get(at) {
        Ok(value) => Ok(value),
        Err(error) => Err(fault_of(error)),
    }
}

/// The truth value in a column, 0 or 1.
pub(crate) fn truth(row: &Row, at: usize) -> Result<bool, StoreFault>
    ensures value { IfOk result (λ b. column row.now at ≡ flag b) }
    ensures within { IfOk result (λ _. at < length row.now) }
    ensures refused { IfErr result (λ fault. fault ≡ StoreFault.Refused → at < length row.now → (b : Bool)
        → column row.now at ≢ flag b) }
{
    let value: u32 = field(row, at)?;
    match value {
        0 => Ok(false),
        1 => Ok(true),
        _ => Err(StoreFault::Refused),
    }
}

/// The account's number in a column.
pub(crate) fn account_number(row: &Row, at: usize) -> Result<u16, StoreFault>
    ensures value { IfOk result (λ n. column row.now at ≡ whole n) }
    ensures within { IfOk result (λ _. at < length row.now) }
    ensures refused { IfErr result (λ fault. fault ≡ StoreFault.Refused → at < length row.now → (n : ℕ) → n < 2 ^ 16
        → column row.now at ≢ whole n) }
{
    let number: u32 = field(row, at)?;
    match u16::try_from(number) {
        Ok(number) => Ok(number),
        Err(_) => Err(StoreFault::Refused),
    }
}

/// The number as a query takes it. Where it is too large it is -1, which no row has, so the database is asked as ever.
pub(crate) fn key(number: u64) -> ValueRef<'static>
    ensures fits { number < 2 ^ 63 → parameter result ≡ whole number }
    ensures too_large { 2 ^ 63 ≤ number → parameter result ≡ Int (negsuc 0) }
{
    if number < 9223372036854775808 {
        ValueRef::Int(number as i64)
    } else {
        ValueRef::Int(-1)
    }
}

/// The number as a statement that writes it takes it. It is Refused where it is too large.
pub(crate) fn fitting(number: u64) -> Result<ValueRef<'static>, StoreFault>
    ensures { IfOk result (λ given. (number < 2 ^ 63) × (parameter given ≡ whole number)) }
{
    if number < 9223372036854775808 {
        Ok(ValueRef::Int(number as i64))
    } else {
        Err(StoreFault::Refused)
    }
}
