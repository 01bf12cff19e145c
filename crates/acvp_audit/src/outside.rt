//! Rows whose numbers begin with no account's.
ghost use Rattle.std.specs.Prelude.{◌≡◌, ℤ, Some, None, IfErr};
ghost use Rattle.sqlite.specs.Held.{state};
ghost use Rattle.acvp_store.specs.Connection.{IsRead};
ghost use Rattle.acvp_audit.specs.Read.{Blames};
ghost use Rattle.acvp_audit.specs.Wrong.{AreWithin, IsWithin, HasOutside};
ghost use Rattle.acvp_audit.specs.Checked.{AreWithinBefore};
ghost use Rattle.acvp_audit.specs.Private.Looks.{Tells, IsOutside, IsBehind};
ghost use Rattle.acvp_audit.specs.declared.damage.Damage.{Damage as DamageValue};
ghost use Rattle.acvp_audit.specs.declared.table.Table.{Table as TableValue};

use crate::damage::{AuditFault, Damage};
use crate::table::Table;
use acvp_store::SqlTables;
use acvp_tables::StoreFault;
use sqlite::Alter;

/// The number of a row of a table that lies outside, if there is one.
fn outside_of<S: Alter>(tables: &mut SqlTables<S>, table: Table) -> Result<Option<i64>, StoreFault>
    ensures none { Tells result (state S.Store tables.old) (state S.Store tables.new)
        (λ layout trees found. found ≡ None
        → IsWithin table layout trees) }
    ensures some { Tells result (state S.Store tables.old) (state S.Store tables.new)
        (λ layout trees found. (number : ℤ) → found ≡ Some number → HasOutside table number layout trees) }
    ensures read { IsRead result (state S.Store tables.old) (state S.Store tables.new) }
{
    match table {
        Table::Account => tables.account_outside(),
        Table::Session => tables.session_outside(),
        Table::Set => tables.set_outside(),
        Table::Object => tables.object_outside(),
        Table::Request => tables.request_outside(),
        Table::Reviewer => tables.reviewer_outside(),
    }
}

/// That no row of a table lies outside.
fn is_within<S: Alter>(tables: &mut SqlTables<S>, table: Table) -> Result<(), AuditFault>
    ensures within { Tells result (state S.Store tables.old) (state S.Store tables.new)
        (λ layout trees _. IsWithin table layout trees) }
    ensures wrong { Blames result (state S.Store tables.old) (state S.Store tables.new)
        (λ layout trees fault. (found : DamageValue) → fault ≡ AuditFault.Wrong found → IsOutside layout trees found) }
    ensures whose { IfErr result (λ fault. (t : TableValue) (number : ℤ)
        → fault ≡ AuditFault.Wrong (Damage.Outside t number) → t ≡ table) }
    ensures read { IsRead result (state S.Store tables.old) (state S.Store tables.new) }
{
    match outside_of(tables, table) {
        Ok(None) => Ok(()),
        Ok(Some(number)) => Err(AuditFault::Wrong(Damage::Outside(table, number))),
        Err(fault) => Err(AuditFault::Store(fault)),
    }
}

/// That no row of three tables does.
fn are_within<S: Alter>(
    tables: &mut SqlTables<S>,
    first: Table,
    second: Table,
    third: Table,
) -> Result<(), AuditFault>
    ensures within { Tells result (state S.Store tables.old) (state S.Store tables.new)
        (λ layout trees _. IsWithin first layout trees
        × IsWithin second layout trees
        × IsWithin third layout trees) }
    ensures wrong { Blames result (state S.Store tables.old) (state S.Store tables.new)
        (λ layout trees fault. (found : DamageValue) → fault ≡ AuditFault.Wrong found → IsOutside layout trees found) }
    ensures before { Blames result (state S.Store tables.old) (state S.Store tables.new)
        (λ layout trees fault. (t : TableValue) (number : ℤ) → fault ≡ AuditFault.Wrong (Damage.Outside t number)
        → IsBehind first second third t layout trees) }
    ensures read { IsRead result (state S.Store tables.old) (state S.Store tables.new) }
{
    is_within(tables, first)?;
    is_within(tables, second)?;
    is_within(tables, third)
}

/// That no row of any table does.
pub(crate) fn all_within<S: Alter>(tables: &mut SqlTables<S>) -> Result<(), AuditFault>
    ensures within { Tells result (state S.Store tables.old) (state S.Store tables.new)
        (λ layout trees _. AreWithin layout trees) }
    ensures wrong { Blames result (state S.Store tables.old) (state S.Store tables.new)
        (λ layout trees fault. (found : DamageValue) → fault ≡ AuditFault.Wrong found → IsOutside layout trees found) }
    ensures first { Blames result (state S.Store tables.old) (state S.Store tables.new)
        (λ layout trees fault. (t : TableValue) (number : ℤ) → fault ≡ AuditFault.Wrong (Damage.Outside t number)
        → AreWithinBefore t layout trees) }
    ensures read { IsRead result (state S.Store tables.old) (state S.Store tables.new) }
{
    match are_within(tables, Table::Account, Table::Session, Table::Set) {
        Ok(()) => are_within(tables, Table::Object, Table::Request, Table::Reviewer),
        Err(fault) => Err(fault),
    }
}
