//! Reads of registered objects in a range of numbers, whatever the rows are.
ghost use Rattle.std.specs.Prelude.{◌≡◌, ℤ, Some, None, IfOk, IfErr, IsTrue};
ghost use Rattle.std.specs.List.{AllByRecursion, filter};
ghost use Rattle.sqlite.specs.Held.{state};
ghost use Rattle.acvp_tables.specs.Content.{kind_number};
ghost use Rattle.acvp_store.specs.Connection.{ServesStore, IsRead};
ghost use Rattle.acvp_store.specs.Ranges.{is_object_between, IsTree, KeepsObjects, HasStrayRow, IsObjectRow};
ghost use Rattle.acvp_store.specs.Ranges.{FitsObject, first_number, last_number, HasRowOutside, IsRegisteredWithin};
ghost use Rattle.acvp_store.specs.Stands.{object_tree};

use crate::objects::kind_number;
use crate::queries::asked;
use crate::ranges::{RangeFault, number_in, numbers_of, ranged};
use acvp_registry::Kind;
use acvp_tables::{ObjectRow, StoreFault};
use sqlite::types::ToSql;
use sqlite::{Alter, Connection};
use std::alloc::Global;

/// The objects of a kind whose numbers begin with an account's, whatever the rows are. A stray one is told by its
/// number.
pub(crate) fn objects_numbered<S: Alter>(
    alloc: Global,
    conn: &mut Connection<S>,
    kind: Kind,
    account: u16,
) -> Result<Vec<ObjectRow>, RangeFault>
    requires { ServesStore (state S.Store conn.old) }
    ensures rows { IsTrue (state S.Store conn.new).is_open
        → IfOk result (λ found. IsTree ((state S.Store conn.old).now.trees object_tree)
        → KeepsObjects (filter (is_object_between (kind_number kind) (first_number account) (last_number account))
        ((state S.Store conn.old).now.trees object_tree)) found.items) }
    ensures stray { IsTrue (state S.Store conn.new).is_open
        → IfErr result (λ fault. (number : ℤ) → fault ≡ RangeFault.Stray number
        → HasStrayRow KeepsObjects IsObjectRow FitsObject
        (is_object_between (kind_number kind) (first_number account) (last_number account)) 2 number
        ((state S.Store conn.old).now.trees object_tree)) }
    ensures read { IsRead result (state S.Store conn.old) (state S.Store conn.new) }
{
    let numbers = numbers_of(account);
    ranged(
        alloc,
        asked(
            conn,
            "SELECT kind, number, account, body FROM object WHERE kind = ?3 AND number BETWEEN ?1 AND ?2 ORDER BY number",
            &[numbers.first, numbers.last, kind_number(kind).to_sql()],
        ),
        1,
    )
}

/// The number of an object that isn't of one of the three kinds, or whose number begins with no account's, 1 to 9999,
/// if there is one.
pub(crate) fn object_outside<S: Alter>(conn: &mut Connection<S>) -> Result<Option<i64>, StoreFault>
    requires { ServesStore (state S.Store conn.old) }
    ensures none { IsTrue (state S.Store conn.new).is_open
        → IfOk result (λ found. found ≡ None
        → AllByRecursion (IsRegisteredWithin 9999) ((state S.Store conn.old).now.trees object_tree)) }
    ensures some { IsTrue (state S.Store conn.new).is_open
        → IfOk result (λ found. (number : ℤ) → found ≡ Some number
        → HasRowOutside (IsRegisteredWithin 9999) 2 number ((state S.Store conn.old).now.trees object_tree)) }
    ensures read { IsRead result (state S.Store conn.old) (state S.Store conn.new) }
{
    number_in(asked(
        conn,
        "SELECT number FROM object WHERE kind NOT BETWEEN 1 AND 3 OR number NOT BETWEEN 1000000 AND 9999999999 LIMIT 1",
        &[],
    ))
}
