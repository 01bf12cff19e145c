//! The table of test sessions.
ghost use Rattle.std.specs.Prelude.{◌≡◌, ◌<◌, ◌^◌, ◌++◌, ◌∷◌, [], IsTrue, IfOk, List};
ghost use Rattle.sqlite.specs.Held.{state};
ghost use Rattle.acvp_tables.specs.Changes.{changed, is_session, cancelled_session, with_counts, with_passed};
ghost use Rattle.acvp_tables.specs.Changes.{with_last_request, new_session};
ghost use Rattle.acvp_tables.specs.Content.{Content, session_at, sessions_of, page};
ghost use Rattle.acvp_tables.specs.State.{AreWellNumbered};
ghost use Rattle.acvp_tables.specs.declared.rows.SessionRow.{SessionRow as Session};
ghost use Rattle.acvp_store.specs.Alters.{Alters};
ghost use Rattle.acvp_store.specs.Connection.{ServesStore, IsRead, UnderStore};
ghost use Rattle.acvp_store.specs.Rows.{session_tree, session_shown, HoldsSessions};
ghost use Rattle.acvp_store.specs.Private.Columns.{session_columns};
ghost use Rattle.acvp_store.specs.Private.Shown.{AreMet, is_under};

use crate::columns::{account_number, field, fitting, key, truth};
use crate::members::{Member, answered, listed};
use crate::pages::page_of;
use crate::queries::asked;
use crate::work::{Work, perform};
use acvp_tables::{NewSession, SessionRow, StoreFault};
use sqlite::types::ToSql;
use sqlite::{Alter, Connection, Row, Transaction};
use std::alloc::Global;

impl Member for SessionRow {
    ghost use Rattle.std.specs.Prelude.{⊤};
    ghost use Rattle.acvp_store.specs.Ranges.{FitsSession};
    ghost use Rattle.acvp_store.specs.Rows.{session_shown};

    ghost shown = { session_shown };

    ghost reads = { λ _. ⊤ };

    ghost fits = { FitsSession };

    ghost judged_so = { FitsSession };

    fn read(row: &Row) -> Result<SessionRow, StoreFault> {
        let number: u64 = field(row, 0)?;
        let account = account_number(row, 1)?;
        let sample = truth(row, 2)?;
        let created: u64 = field(row, 3)?;
        let cancelled = truth(row, 4)?;
        let last_request: Option<u64> = field(row, 5)?;
        let live: u64 = field(row, 6)?;
        let passed: u64 = field(row, 7)?;
        Ok(SessionRow {
            number,
            account,
            sample,
            created,
            cancelled,
            last_request,
            live,
            passed,
        })
    }
}

/// The test session of a number.
pub(crate) fn find_session<S: Alter>(
    conn: &mut Connection<S>,
    number: u64,
) -> Result<Option<SessionRow>, StoreFault>
    requires { ServesStore (state S.Store conn.old) }
    ensures found { IsTrue (state S.Store conn.new).is_open
        → IfOk result (λ found. (sessions : List Session)
        → HoldsSessions ((state S.Store conn.old).now.trees session_tree) sessions
        → found ≡ session_at number sessions) }
    ensures judged { IsTrue (state S.Store conn.new).is_open → number < 2 ^ 63
        → IfOk result (λ _. AreMet (is_under number) session_columns session_shown (λ s. s.account < 2 ^ 16)
        ((state S.Store conn.old).now.trees session_tree)) }
    ensures read { IsRead result (state S.Store conn.old) (state S.Store conn.new) }
{
    answered(asked(
        conn,
        "SELECT session, account, sample, created, cancelled, certify, live, passed FROM session WHERE session = ?1",
        &[key(number)],
    ))
}

/// So many test sessions of an account, from the offset on.
pub(crate) fn page_sessions<S: Alter>(
    alloc: Global,
    conn: &mut Connection<S>,
    account: u16,
    offset: u64,
    limit: u64,
) -> Result<Vec<SessionRow>, StoreFault>
    requires { ServesStore (state S.Store conn.old) }
    ensures found { IsTrue (state S.Store conn.new).is_open
        → IfOk result (λ found. (c : Content) → AreWellNumbered c
        → HoldsSessions ((state S.Store conn.old).now.trees session_tree) c.sessions
        → found.items ≡ page offset limit (sessions_of account c.sessions)) }
    ensures read { IsRead result (state S.Store conn.old) (state S.Store conn.new) }
{
    let at = page_of(account, offset, limit);
    listed(
        alloc,
        asked(
            conn,
            "SELECT session, account, sample, created, cancelled, certify, live, passed FROM session WHERE session BETWEEN ?1 AND ?2 ORDER BY session LIMIT ?3",
            &[at.first, at.last, at.limit],
        ),
    )
}

/// A test session that is cancelled.
#[derive(Clone, Copy)]
pub(crate) struct CancelledSession {
    pub number: u64,
}

impl Work for CancelledSession {
    ghost use Rattle.acvp_tables.specs.Changes.{changed, is_session, cancelled_session};
    ghost use Rattle.acvp_store.specs.Alters.{Alters};
    ghost use Rattle.acvp_store.specs.Connection.{UnderStore};
    ghost use Rattle.acvp_store.specs.Rows.{session_tree, HoldsSessions};

    ghost change = { λ s. UnderStore
        (λ layout. Alters layout session_tree HoldsSessions (changed (is_session s.number) cancelled_session)) };

    fn run<S: Alter>(&self, tx: &mut Transaction<'_, S>) -> Result<(), StoreFault> {
        let number = fitting(self.number)?;
        perform(
            tx,
            "UPDATE session SET cancelled = 1 WHERE session = ?1",
            &[number],
        )
    }
}

/// How many sets a test session has that aren't cancelled, and how many of these have passed.
#[derive(Clone, Copy)]
pub(crate) struct CountedSession {
    pub number: u64,
    pub live: u64,
    pub passed: u64,
}

impl Work for CountedSession {
    ghost use Rattle.acvp_tables.specs.Changes.{changed, is_session, with_counts};
    ghost use Rattle.acvp_store.specs.Alters.{Alters};
    ghost use Rattle.acvp_store.specs.Connection.{UnderStore};
    ghost use Rattle.acvp_store.specs.Rows.{session_tree, HoldsSessions};

    ghost change = { λ s. UnderStore (λ layout. Alters layout session_tree HoldsSessions
        (changed (is_session s.number) (with_counts s.live s.passed))) };

    fn run<S: Alter>(&self, tx: &mut Transaction<'_, S>) -> Result<(), StoreFault> {
        let number = fitting(self.number)?;
        let live = fitting(self.live)?;
        let passed = fitting(self.passed)?;
        perform(
            tx,
            "UPDATE session SET live = ?2, passed = ?3 WHERE session = ?1",
            &[number, live, passed],
        )
    }
}

/// How many sets of a test session that aren't cancelled have passed.
#[derive(Clone, Copy)]
pub(crate) struct PassedSession {
    pub number: u64,
    pub passed: u64,
}

impl Work for PassedSession {
    ghost use Rattle.acvp_tables.specs.Changes.{changed, is_session, with_passed};
    ghost use Rattle.acvp_store.specs.Alters.{Alters};
    ghost use Rattle.acvp_store.specs.Connection.{UnderStore};
    ghost use Rattle.acvp_store.specs.Rows.{session_tree, HoldsSessions};

    ghost change = { λ s. UnderStore
        (λ layout. Alters layout session_tree HoldsSessions (changed (is_session s.number) (with_passed s.passed))) };

    fn run<S: Alter>(&self, tx: &mut Transaction<'_, S>) -> Result<(), StoreFault> {
        let number = fitting(self.number)?;
        let passed = fitting(self.passed)?;
        perform(
            tx,
            "UPDATE session SET passed = ?2 WHERE session = ?1",
            &[number, passed],
        )
    }
}

/// The last certification request of a test session.
#[derive(Clone, Copy)]
pub(crate) struct CertifiedSession {
    pub number: u64,
    pub request: u64,
}

impl Work for CertifiedSession {
    ghost use Rattle.acvp_tables.specs.Changes.{changed, is_session, with_last_request};
    ghost use Rattle.acvp_store.specs.Alters.{Alters};
    ghost use Rattle.acvp_store.specs.Connection.{UnderStore};
    ghost use Rattle.acvp_store.specs.Rows.{session_tree, HoldsSessions};

    ghost change = { λ s. UnderStore
        (λ layout. Alters layout session_tree HoldsSessions
        (changed (is_session s.number) (with_last_request s.request))) };

    fn run<S: Alter>(&self, tx: &mut Transaction<'_, S>) -> Result<(), StoreFault> {
        let number = fitting(self.number)?;
        let request = fitting(self.request)?;
        perform(
            tx,
            "UPDATE session SET certify = ?2 WHERE session = ?1",
            &[number, request],
        )
    }
}

/// A new test session, without its vector sets.
#[derive(Clone, Copy)]
pub(crate) struct SessionBegun<'a> {
    pub session: &'a NewSession,
}

impl<'a> Work for SessionBegun<'a> {
    ghost use Rattle.std.specs.Prelude.{◌++◌, ◌∷◌, []};
    ghost use Rattle.acvp_tables.specs.Changes.{new_session};
    ghost use Rattle.acvp_store.specs.Alters.{Alters};
    ghost use Rattle.acvp_store.specs.Connection.{UnderStore};
    ghost use Rattle.acvp_store.specs.Rows.{session_tree, HoldsSessions};

    ghost change = { λ s. UnderStore
        (λ layout. Alters layout session_tree HoldsSessions (λ rows. rows ++ new_session s.session.now ∷ [])) };

    fn run<S: Alter>(&self, tx: &mut Transaction<'_, S>) -> Result<(), StoreFault> {
        let session = self.session;
        let number = fitting(session.number)?;
        let created = fitting(session.created)?;
        let live = session.registration.capabilities().len() as u32;
        perform(
            tx,
            "INSERT INTO session (session, account, sample, created, cancelled, certify, live, passed) VALUES (?1, ?2, ?3, ?4, 0, NULL, ?5, 0)",
            &[
                number,
                u32::from(session.account).to_sql(),
                session.registration.sample().to_sql(),
                created,
                live.to_sql(),
            ],
        )
    }
}
