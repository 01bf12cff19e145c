//! The conditions on sessions.
ghost use Rattle.std.specs.Prelude.{◌≡◌, ◌==◌, ◌&&◌, length, nat_le, true};
ghost use Rattle.std.specs.List.{flat_map, list_any};
ghost use Rattle.acvp_mac.specs.Conditions.{judged};
ghost use Rattle.acvp_tables.specs.Counted.{answers_passed, is_counted, is_passed_in};
ghost use Rattle.acvp_tables.specs.Content.{is_live_in};
ghost use Rattle.acvp_tables.specs.State.{certifies};
ghost use Rattle.acvp_tables.specs.declared.rows.SetRow.{SetRow as SetValue};
ghost use Rattle.acvp_check.specs.Conditions.{is_certified, session_conditions, session_count_conditions};
ghost use Rattle.acvp_check.specs.Conditions.{session_counter_conditions, session_own_conditions};
ghost use Rattle.acvp_check.specs.Conditions.{session_row_conditions, sets_of};
ghost use Rattle.acvp_check.specs.Conditions.{session_numbers, set_numbers};
ghost use Rattle.acvp_check.specs.Near.{AreItsSets, Ascend};
ghost use Rattle.acvp_check.specs.declared.finding.RowKey.TheVariants as key_value;

use crate::finding::{Finding, RowKey, Wrong};
use crate::near::{ascend, at_its_place, sets_near};
use crate::numbers::{first_of_account, first_of_session};
use crate::rows::Rows;
use crate::walks::{Numbers, Predicate, any, check, count, rise};
use acvp_answers::Disposition;
use acvp_desk::END_OF_MOMENTS;
use acvp_tables::{Graded, RequestBody, RequestRow, SessionRow, SetRow};

/// The most vector sets of a session.
const SET_LIMIT: u64 = 20;

/// The most sessions of an account.
const SESSION_LIMIT: usize = 999_999;

/// The vector sets of a session.
#[derive(Clone, Copy)]
struct SetsOf {
    session: u64,
}

impl Predicate<SetRow> for SetsOf {
    ghost passes = { λ t row. row.session == t.session };

    fn test(&self, row: &SetRow) -> bool {
        row.session == self.session
    }
}

impl Numbers<SetRow> for SetsOf {
    ghost selected = { λ t row. row.session == t.session };

    ghost number = { λ row. row.number };

    ghost key = { λ row. key_value.Set row.number };

    fn selects(&self, row: &SetRow) -> bool {
        row.session == self.session
    }

    fn number(&self, row: &SetRow) -> u64 {
        row.number
    }

    fn key(&self, row: &SetRow) -> RowKey {
        RowKey::Set(row.number)
    }
}

/// The vector sets of a session that aren't cancelled.
#[derive(Clone, Copy)]
struct LiveIn {
    session: u64,
}

impl Predicate<SetRow> for LiveIn {
    ghost passes = { λ t row. is_live_in t.session row };

    fn test(&self, row: &SetRow) -> bool {
        row.session == self.session && !row.cancelled
    }
}

/// Whether answers have passed.
fn answers_passed(graded: &Option<Graded>) -> bool
    ensures { result ≡ answers_passed graded.now }
{
    match graded {
        Some(graded) => match graded.disposition() {
            Disposition::Passed => true,
            _ => false,
        },
        None => false,
    }
}

/// Those of them that have passed.
#[derive(Clone, Copy)]
struct PassedIn {
    session: u64,
}

impl Predicate<SetRow> for PassedIn {
    ghost passes = { λ t row. is_passed_in t.session row };

    fn test(&self, row: &SetRow) -> bool {
        row.session == self.session && !row.cancelled && answers_passed(&row.graded)
    }
}

/// The request of a number for a session's certification.
#[derive(Clone, Copy)]
struct CertifiedBy {
    session: u64,
    request: u64,
}

impl Predicate<RequestRow> for CertifiedBy {
    ghost passes = { λ t row. (row.number == t.request) && certifies t.session row.body };

    fn test(&self, row: &RequestRow) -> bool {
        row.number == self.request && certifies(self.session, &row.body)
    }
}

/// Whether a request's body is for a session's certification.
fn certifies(session: u64, body: &RequestBody) -> bool
    ensures { result ≡ certifies session body.now }
{
    match body {
        RequestBody::Registration(_) => false,
        RequestBody::Certification(it) => it.session == session,
    }
}

/// All sessions, by their numbers.
#[derive(Clone, Copy)]
struct Sessions;

impl Numbers<SessionRow> for Sessions {
    ghost selected = { λ _ _. true };

    ghost number = { λ row. row.number };

    ghost key = { λ row. key_value.Session row.number };

    fn selects(&self, _row: &SessionRow) -> bool {
        true
    }

    fn number(&self, row: &SessionRow) -> u64 {
        row.number
    }

    fn key(&self, row: &SessionRow) -> RowKey {
        RowKey::Session(row.number)
    }
}

/// Whether a session's counters count its vector sets.
fn is_counted(sets: &[SetRow], row: &SessionRow) -> bool
    ensures { result ≡ is_counted sets.now row.now }
{
    let session = row.number;
    row.live == count(sets, &LiveIn { session }) && row.passed == count(sets, &PassedIn { session })
}

/// Whether the request of a number is at its place, and for a session's certification.
fn is_certified_at_its_place(requests: &[RequestRow], session: u64, request: u64) -> bool
    ensures { result ≡ true
        → list_any (λ row. (row.number == request) && certifies session row.body) requests.now ≡ true }
{
    match at_its_place(requests, request) {
        Some(row) => certifies(session, &row.body),
        None => false,
    }
}

/// Whether the request of a number is there, and for a session's certification.
fn is_certified_by(requests: &[RequestRow], session: u64, request: u64) -> bool
    ensures { result ≡ list_any (λ row. (row.number == request) && certifies session row.body) requests.now }
{
    is_certified_at_its_place(requests, session, request)
        || any(requests, &CertifiedBy { session, request })
}

/// Whether a session's last request is there, and for its certification.
fn is_certified(requests: &[RequestRow], row: &SessionRow) -> bool
    ensures { result ≡ is_certified requests.now row.now }
{
    match row.last_request {
        None => true,
        Some(request) => is_certified_by(requests, row.number, request),
    }
}

/// What is wrong with a session's moment or its last request.
#[tactic(auto, unfolding(crate::specs::Conditions::session_own_conditions))]
fn session_own_wrong(mine: &Rows, row: &SessionRow) -> Result<(), Finding>
    ensures { result ≡ judged (session_own_conditions mine.now row.now) tt }
{
    let key = RowKey::Session(row.number);
    check(row.created < END_OF_MOMENTS, key, Wrong::Created)?;
    check(is_certified(&mine.requests, row), key, Wrong::LastRequest)
}

/// Whether a session has a vector set.
fn has_sets(sets: &[SetRow], session: u64) -> bool
    ensures { result ≡ list_any (λ set. set.session == session) sets.now }
{
    any(sets, &SetsOf { session })
}

/// Whether a session has 20 vector sets at most.
fn are_few(sets: &[SetRow], session: u64) -> bool
    ensures { result ≡ nat_le (length (sets_of session sets.now)) 20 }
{
    count(sets, &SetsOf { session }) <= SET_LIMIT
}

/// What is wrong with the number of a session's vector sets.
#[tactic(auto, unfolding(crate::specs::Conditions::session_count_conditions))]
fn session_count_wrong(mine: &Rows, sets: &[SetRow], row: &SessionRow) -> Result<(), Finding>
    requires { AreItsSets row.now mine.now.sets sets.now }
    ensures { result ≡ judged (session_count_conditions mine.now row.now) tt }
{
    let key = RowKey::Session(row.number);
    check(has_sets(sets, row.number), key, Wrong::NoSet)?;
    check(are_few(sets, row.number), key, Wrong::ManySets)
}

/// What is wrong with a session's counters.
#[tactic(auto, unfolding(crate::specs::Conditions::session_counter_conditions))]
fn session_counter_wrong(mine: &Rows, sets: &[SetRow], row: &SessionRow) -> Result<(), Finding>
    requires { AreItsSets row.now mine.now.sets sets.now }
    ensures { result ≡ judged (session_counter_conditions mine.now row.now) tt }
{
    let is_counted = is_counted(sets, row);
    check(is_counted, RowKey::Session(row.number), Wrong::Counter)
}

/// The first of a session's vector sets that hasn't the next number.
fn set_numbers_wrong(mine: &Rows, sets: &[SetRow], row: &SessionRow) -> Result<(), Finding>
    requires { AreItsSets row.now mine.now.sets sets.now }
    ensures { result ≡ judged (set_numbers row.now.number mine.now.sets) tt }
{
    let session = row.number;
    rise(sets, &SetsOf { session }, first_of_session(session))
}

/// What is wrong with a session, all of whose vector sets are among these.
#[tactic(auto, using(crate::proofs::Joins::judged_joined))]
fn session_row_wrong(mine: &Rows, sets: &[SetRow], row: &SessionRow) -> Result<(), Finding>
    requires { AreItsSets row.now mine.now.sets sets.now }
    ensures { result ≡ judged (session_row_conditions mine.now row.now) tt }
{
    session_own_wrong(mine, row)?;
    session_count_wrong(mine, sets, row)?;
    session_counter_wrong(mine, sets, row)?;
    set_numbers_wrong(mine, sets, row)
}

/// What is wrong with a session, where vector sets ascend by their sessions or don't.
fn session_wrong(mine: &Rows, ascending: bool, row: &SessionRow) -> Result<(), Finding>
    requires { ascending ≡ true → Ascend (λ (set : SetValue). set.session) mine.now.sets }
    ensures { result ≡ judged (session_row_conditions mine.now row.now) tt }
{
    session_row_wrong(mine, sets_near(&mine.sets, ascending, row), row)
}

/// What is wrong with the first of these sessions that isn't right.
fn session_rows_wrong(mine: &Rows, rows: &[SessionRow]) -> Result<(), Finding>
    ensures { result ≡ judged (flat_map (session_row_conditions mine.now) rows.now) tt }
{
    let ascending = ascend(&mine.sets);
    for row in rows {
        session_wrong(mine, ascending, row)?;
    }
    Ok(())
}

/// The first session of an account that hasn't the next number.
#[tactic(auto, using(crate::proofs::Joins::all_selected))]
fn session_numbers_wrong(account: u16, rows: &[SessionRow]) -> Result<(), Finding>
    ensures { result ≡ judged (session_numbers account rows.now) tt }
{
    rise(rows, &Sessions, first_of_account(account))
}

/// What is wrong with an account's sessions.
#[tactic(auto, using(crate::proofs::Joins::judged_joined), unfolding(crate::specs::Conditions::session_conditions))]
pub(crate) fn sessions_wrong(account: u16, mine: &Rows) -> Result<(), Finding>
    ensures { result ≡ judged (session_conditions account mine.now) tt }
{
    check(
        mine.sessions.len() <= SESSION_LIMIT,
        RowKey::Account(account),
        Wrong::ManySessions,
    )?;
    session_numbers_wrong(account, &mine.sessions)?;
    session_rows_wrong(mine, &mine.sessions)
}
