//! Reads of requests in a range of numbers, whatever the rows are.
ghost use Rattle.std.specs.Prelude.{◌≡◌, ℤ, true, None, Some, IfOk, IfErr, IsTrue};
ghost use Rattle.std.specs.List.{AllByRecursion};
ghost use Rattle.sqlite.specs.Held.{state};
ghost use Rattle.acvp_store.specs.Connection.{ServesStore, IsRead};
ghost use Rattle.acvp_store.specs.Ranges.{is_between, IsTree, AreFull, IsRange, HasStrayRow, IsRequestRow, FitsRequest};
ghost use Rattle.acvp_store.specs.Ranges.{HasRowOutside, first_number, last_number};
ghost use Rattle.acvp_store.specs.Stands.{request_tree, request_key, HoldsRequests};

use crate::queries::asked;
use crate::ranges::{RangeFault, number_in, numbers_of, ranged};
use acvp_tables::{RequestRow, StoreFault};
use sqlite::{Alter, Connection};
use std::alloc::Global;

/// The requests whose numbers begin with an account's, whatever the rows are.
pub(crate) fn requests_numbered<S: Alter>(
    alloc: Global,
    conn: &mut Connection<S>,
    account: u16,
) -> Result<Vec<RequestRow>, RangeFault>
    requires { ServesStore (state S.Store conn.old) }
    ensures rows { IsTrue (state S.Store conn.new).is_open
        → IfOk result (λ found. IsTree ((state S.Store conn.old).now.trees request_tree)
        → AreFull 7 ((state S.Store conn.old).now.trees request_tree)
        → IsRange HoldsRequests request_key (first_number account) (last_number account)
        ((state S.Store conn.old).now.trees request_tree) found.items) }
    ensures stray { IsTrue (state S.Store conn.new).is_open
        → IfErr result (λ fault. (number : ℤ) → fault ≡ RangeFault.Stray number
        → HasStrayRow HoldsRequests IsRequestRow FitsRequest
        (is_between (first_number account) (last_number account)) 0 number
        ((state S.Store conn.old).now.trees request_tree)) }
    ensures read { IsRead result (state S.Store conn.old) (state S.Store conn.new) }
{
    let numbers = numbers_of(account);
    ranged(
        alloc,
        asked(
            conn,
            "SELECT request, account, kind, body, status, approved FROM request WHERE request BETWEEN ?1 AND ?2 ORDER BY request",
            &[numbers.first, numbers.last],
        ),
        0,
    )
}

/// A request whose number begins with no account's, 1 to 9999, if there is one.
pub(crate) fn request_outside<S: Alter>(conn: &mut Connection<S>) -> Result<Option<i64>, StoreFault>
    requires { ServesStore (state S.Store conn.old) }
    ensures none { IsTrue (state S.Store conn.new).is_open
        → IfOk result (λ found. IsTree ((state S.Store conn.old).now.trees request_tree) → found ≡ None
        → AllByRecursion (λ row. is_between (first_number 1) (last_number 9999) row ≡ true)
        ((state S.Store conn.old).now.trees request_tree)) }
    ensures some { IsTrue (state S.Store conn.new).is_open
        → IfOk result (λ found. (number : ℤ) → found ≡ Some number
        → HasRowOutside (λ row. is_between (first_number 1) (last_number 9999) row ≡ true) 0 number
        ((state S.Store conn.old).now.trees request_tree)) }
    ensures read { IsRead result (state S.Store conn.old) (state S.Store conn.new) }
{
    number_in(asked(
        conn,
        "SELECT request FROM request WHERE request NOT BETWEEN 1000000 AND 9999999999 LIMIT 1",
        &[],
    ))
}
