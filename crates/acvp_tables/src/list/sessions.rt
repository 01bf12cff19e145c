//! Test sessions as a list.
ghost use Rattle.std.specs.Prelude.{◌≡◌, ◌==◌};
ghost use Rattle.acvp_tables.specs.Changes.{is_session, cancelled_session, with_last_request, with_passed, with_counts};
ghost use Rattle.acvp_tables.specs.Changes.{new_session};

use crate::change::NewSession;
use crate::list::walks::{Edit, Predicate, Show};
use crate::rows::SessionRow;
use std::alloc::AllocError;

/// The session of a number.
#[derive(Drop)]
pub(crate) struct SessionIs {
    pub number: u64,
}

impl Predicate<SessionRow> for SessionIs {
    ghost passes = { λ t row. is_session t.number row };

    fn test(&self, row: &SessionRow) -> bool {
        row.number == self.number
    }
}

/// The sessions of an account.
#[derive(Drop)]
pub(crate) struct SessionsOf {
    pub account: u16,
}

impl Predicate<SessionRow> for SessionsOf {
    ghost passes = { λ t row. row.account == t.account };

    fn test(&self, row: &SessionRow) -> bool {
        row.account == self.account
    }
}

/// The row itself.
#[derive(Drop)]
pub(crate) struct WholeSession;

impl Show<SessionRow, SessionRow> for WholeSession {
    ghost shown = { λ _ row. row };

    fn show(&self, row: &SessionRow) -> Result<SessionRow, AllocError> {
        Ok(*row)
    }
}

/// It is cancelled.
#[derive(Drop)]
pub(crate) struct CancelSession;

impl Edit<SessionRow> for CancelSession {
    ghost edited = { λ _ row. cancelled_session row };

    fn edit(&self, row: &mut SessionRow) {
        row.cancelled = true;
    }
}

/// The number of its last certification request.
#[derive(Drop)]
pub(crate) struct WithCertify {
    pub request: u64,
}

impl Edit<SessionRow> for WithCertify {
    ghost edited = { λ e row. with_last_request e.request row };

    fn edit(&self, row: &mut SessionRow) {
        row.last_request = Some(self.request);
    }
}

/// How many of its sets have passed.
#[derive(Drop)]
pub(crate) struct WithPassed {
    pub passed: u64,
}

impl Edit<SessionRow> for WithPassed {
    ghost edited = { λ e row. with_passed e.passed row };

    fn edit(&self, row: &mut SessionRow) {
        row.passed = self.passed;
    }
}

/// How many sets it has, and how many of them have passed.
#[derive(Drop)]
pub(crate) struct WithCounts {
    pub live: u64,
    pub passed: u64,
}

impl Edit<SessionRow> for WithCounts {
    ghost edited = { λ e row. with_counts e.live e.passed row };

    fn edit(&self, row: &mut SessionRow) {
        row.live = self.live;
        row.passed = self.passed;
    }
}

/// The row of a new session.
pub(crate) fn new_session(session: &NewSession) -> SessionRow
    ensures { result ≡ new_session session.now }
{
    SessionRow {
        number: session.number,
        account: session.account,
        sample: session.registration.sample(),
        created: session.created,
        cancelled: false,
        last_request: None,
        live: session.registration.capabilities().len() as u64,
        passed: 0,
    }
}
