//! The table of reviewers.
ghost use Rattle.std.specs.Prelude.{◌≡◌, nat_lt, length, not, filter, IsTrue, IfOk, IsOk, List};
ghost use Rattle.sqlite.specs.Held.{state};
ghost use Rattle.acvp_tables.specs.Content.{Content, is_reviewer, reviewers_of};
ghost use Rattle.acvp_tables.specs.State.{AreWellNumbered};
ghost use Rattle.acvp_tables.specs.Changes.{is_pair, with_reviewer};
ghost use Rattle.acvp_tables.specs.declared.rows.ReviewerRow.{ReviewerRow as Reviewer};
ghost use Rattle.acvp_store.specs.Alters.{Alters};
ghost use Rattle.acvp_store.specs.Connection.{ServesStore, InStore, IsRead, UnderStore};
ghost use Rattle.acvp_store.specs.Stands.{reviewer_tree, HoldsReviewers};

use crate::columns::{fitting, key};
use crate::members::listed;
use crate::queries::asked;
use crate::work::{Work, perform};
use acvp_tables::{ReviewerRow, StoreFault};
use sqlite::types::ToSql;
use sqlite::{Alter, Connection, Row, Transaction};
use std::alloc::Global;

/// Whether a query's answer has a row.
pub(crate) fn any(outcome: Result<Vec<Row>, StoreFault>) -> Result<bool, StoreFault>
    ensures found { IfOk result (λ found. IfOk outcome (λ rows. found ≡ nat_lt 0 (length rows.items))) }
    ensures ok { IsOk result → IsOk outcome }
{
    match outcome {
        Ok(rows) => Ok(!rows.is_empty()),
        Err(fault) => Err(fault),
    }
}

/// Whether an account is a reviewer of a test session.
pub(crate) fn find_reviewer<S: Alter>(
    conn: &mut Connection<S>,
    session: u64,
    account: u16,
) -> Result<bool, StoreFault>
    requires { ServesStore (state S.Store conn.old) }
    ensures found { IsTrue (state S.Store conn.new).is_open
        → IfOk result (λ found. InStore (state S.Store conn.old).now (λ layout. (reviewers : List Reviewer)
        → HoldsReviewers ((state S.Store conn.old).now.trees (reviewer_tree layout)) reviewers
        → found ≡ is_reviewer session account reviewers)) }
    ensures read { IsRead result (state S.Store conn.old) (state S.Store conn.new) }
{
    any(asked(
        conn,
        "SELECT account FROM reviewer WHERE session = ?1 AND account = ?2",
        &[key(session), u32::from(account).to_sql()],
    ))
}

/// The accounts that are reviewers of a test session.
pub(crate) fn find_reviewers<S: Alter>(
    alloc: Global,
    conn: &mut Connection<S>,
    session: u64,
) -> Result<Vec<u16>, StoreFault>
    requires { ServesStore (state S.Store conn.old) }
    ensures found { IsTrue (state S.Store conn.new).is_open
        → IfOk result (λ found. InStore (state S.Store conn.old).now (λ layout. (c : Content) → AreWellNumbered c
        → HoldsReviewers ((state S.Store conn.old).now.trees (reviewer_tree layout)) c.reviewers
        → found.items ≡ reviewers_of session c.reviewers)) }
    ensures read { IsRead result (state S.Store conn.old) (state S.Store conn.new) }
{
    listed(
        alloc,
        asked(
            conn,
            "SELECT account FROM reviewer WHERE session = ?1 ORDER BY account",
            &[key(session)],
        ),
    )
}

/// A reviewer who is put in, where it isn't there.
#[derive(Clone, Copy)]
pub(crate) struct ReviewerAdded {
    pub reviewer: ReviewerRow,
}

impl Work for ReviewerAdded {
    ghost use Rattle.acvp_tables.specs.Changes.{with_reviewer};
    ghost use Rattle.acvp_store.specs.Alters.{Alters};
    ghost use Rattle.acvp_store.specs.Connection.{UnderStore};
    ghost use Rattle.acvp_store.specs.Stands.{reviewer_tree, HoldsReviewers};

    ghost change = { λ r. UnderStore
        (λ layout. Alters layout (reviewer_tree layout) HoldsReviewers (with_reviewer r.reviewer)) };

    fn run<S: Alter>(&self, tx: &mut Transaction<'_, S>) -> Result<(), StoreFault> {
        let session = fitting(self.reviewer.session)?;
        perform(
            tx,
            "INSERT INTO reviewer (session, account) VALUES (?1, ?2)",
            &[session, u32::from(self.reviewer.account).to_sql()],
        )
    }
}

/// A reviewer who is taken out.
#[derive(Clone, Copy)]
pub(crate) struct ReviewerRemoved {
    pub reviewer: ReviewerRow,
}

impl Work for ReviewerRemoved {
    ghost use Rattle.std.specs.Prelude.{not, filter};
    ghost use Rattle.acvp_tables.specs.Changes.{is_pair};
    ghost use Rattle.acvp_store.specs.Alters.{Alters};
    ghost use Rattle.acvp_store.specs.Connection.{UnderStore};
    ghost use Rattle.acvp_store.specs.Stands.{reviewer_tree, HoldsReviewers};

    ghost change = { λ r. UnderStore (λ layout. Alters layout (reviewer_tree layout) HoldsReviewers
        (filter (λ row. not (is_pair r.reviewer row)))) };

    fn run<S: Alter>(&self, tx: &mut Transaction<'_, S>) -> Result<(), StoreFault> {
        let session = fitting(self.reviewer.session)?;
        perform(
            tx,
            "DELETE FROM reviewer WHERE session = ?1 AND account = ?2",
            &[session, u32::from(self.reviewer.account).to_sql()],
        )
    }
}
