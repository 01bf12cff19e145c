//! Reads of reviewers by the numbers of their sessions, whatever the rows are.
ghost use Rattle.std.specs.Prelude.{◌≡◌, ℤ, None, Some, IfOk, IfErr, IsTrue};
ghost use Rattle.std.specs.List.{AllByRecursion, filter};
ghost use Rattle.sqlite.specs.Held.{state};
ghost use Rattle.acvp_store.specs.Connection.{ServesStore, InStore, IsRead};
ghost use Rattle.acvp_store.specs.Ranges.{is_column_between, HasNumberBetween, IsTree, HasStrayRow, HasRowOutside};
ghost use Rattle.acvp_store.specs.Ranges.{first_number, last_number, IsReviewerRow, FitsReviewer};
ghost use Rattle.acvp_store.specs.Stands.{reviewer_tree, HoldsReviewers};

use crate::columns::{account_number, field};
use crate::members::Member;
use crate::queries::asked;
use crate::ranges::{RangeFault, number_in, numbers_of, ranged};
use acvp_tables::{ReviewerRow, StoreFault};
use sqlite::{Alter, Connection, Row};
use std::alloc::Global;

impl Member for ReviewerRow {
    ghost use Rattle.std.specs.Prelude.{⊤};
    ghost use Rattle.acvp_store.specs.Ranges.{FitsReviewer};
    ghost use Rattle.acvp_store.specs.Stands.{reviewer_columns};

    ghost shown = { reviewer_columns };

    ghost reads = { λ _. ⊤ };

    ghost fits = { FitsReviewer };

    ghost judged_so = { FitsReviewer };

    fn read(row: &Row) -> Result<ReviewerRow, StoreFault> {
        let session: u64 = field(row, 0)?;
        let account = account_number(row, 1)?;
        Ok(ReviewerRow { session, account })
    }
}

/// The reviewers of the test sessions whose numbers begin with an account's, whatever the rows are. A stray one is told
/// by its session's number.
pub(crate) fn reviewers_numbered<S: Alter>(
    alloc: Global,
    conn: &mut Connection<S>,
    account: u16,
) -> Result<Vec<ReviewerRow>, RangeFault>
    requires { ServesStore (state S.Store conn.old) }
    ensures rows { IsTrue (state S.Store conn.new).is_open
        → IfOk result (λ found. InStore (state S.Store conn.old).now
        (λ layout. IsTree ((state S.Store conn.old).now.trees (reviewer_tree layout))
        → HoldsReviewers (filter (is_column_between 1 (first_number account) (last_number account))
        ((state S.Store conn.old).now.trees (reviewer_tree layout))) found.items)) }
    ensures stray { IsTrue (state S.Store conn.new).is_open
        → IfErr result (λ fault. InStore (state S.Store conn.old).now
        (λ layout. (number : ℤ) → fault ≡ RangeFault.Stray number
        → HasStrayRow HoldsReviewers IsReviewerRow FitsReviewer
        (is_column_between 1 (first_number account) (last_number account)) 1 number
        ((state S.Store conn.old).now.trees (reviewer_tree layout)))) }
    ensures read { IsRead result (state S.Store conn.old) (state S.Store conn.new) }
{
    let numbers = numbers_of(account);
    ranged(
        alloc,
        asked(
            conn,
            "SELECT session, account FROM reviewer WHERE session BETWEEN ?1 AND ?2 ORDER BY session",
            &[numbers.first, numbers.last],
        ),
        0,
    )
}

/// The session of a reviewer whose number begins with no account's, 1 to 9999, if there is one.
pub(crate) fn reviewer_outside<S: Alter>(
    conn: &mut Connection<S>,
) -> Result<Option<i64>, StoreFault>
    requires { ServesStore (state S.Store conn.old) }
    ensures none { IsTrue (state S.Store conn.new).is_open
        → IfOk result (λ found. InStore (state S.Store conn.old).now (λ layout. found ≡ None
        → AllByRecursion (HasNumberBetween 1 (first_number 1) (last_number 9999))
        ((state S.Store conn.old).now.trees (reviewer_tree layout)))) }
    ensures some { IsTrue (state S.Store conn.new).is_open
        → IfOk result (λ found. InStore (state S.Store conn.old).now (λ layout. (number : ℤ) → found ≡ Some number
        → HasRowOutside (HasNumberBetween 1 (first_number 1) (last_number 9999)) 1 number
        ((state S.Store conn.old).now.trees (reviewer_tree layout)))) }
    ensures read { IsRead result (state S.Store conn.old) (state S.Store conn.new) }
{
    number_in(asked(
        conn,
        "SELECT session FROM reviewer WHERE session NOT BETWEEN 1000000 AND 9999999999 LIMIT 1",
        &[],
    ))
}
