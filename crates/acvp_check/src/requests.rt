//! The conditions on requests.
ghost use Rattle.std.specs.Prelude.{◌≡◌, ◌==◌, true};
ghost use Rattle.acvp_mac.specs.Conditions.{judged};
ghost use Rattle.acvp_tables.specs.State.{has_all_given, has_given, is_sound_body, state_of};
ghost use Rattle.acvp_check.specs.Conditions.{request_conditions, request_row_conditions};
ghost use Rattle.acvp_check.specs.Conditions.{request_numbers};
ghost use Rattle.acvp_check.specs.declared.finding.RowKey.TheVariants as key_value;
ghost use Rattle.acvp_tables.specs.declared.rows.RequestBody.TheVariants as body_value;

use crate::finding::{Finding, RowKey, Wrong};
use crate::near::has_session;
use crate::numbers::first_of_account;
use crate::objects::{has_object, is_sound_object};
use crate::rows::Rows;
use crate::walks::{Judge, Numbers, check, each, rise};
use acvp_registry::Kind;
use acvp_tables::{Certification, ObjectRow, RequestBody, RequestRow, RequestStatus};

/// The most requests of an account.
const REQUEST_LIMIT: usize = 999_999;

/// All requests, by their numbers.
#[derive(Clone, Copy)]
struct Requests;

impl Numbers<RequestRow> for Requests {
    ghost selected = { λ _ _. true };

    ghost number = { λ row. row.number };

    ghost key = { λ row. key_value.Request row.number };

    fn selects(&self, _row: &RequestRow) -> bool {
        true
    }

    fn number(&self, row: &RequestRow) -> u64 {
        row.number
    }

    fn key(&self, row: &RequestRow) -> RowKey {
        RowKey::Request(row.number)
    }
}

/// Whether a request's body is one that is kept, and what it names is there.
#[tactic(auto, unfolding(acvp_tables::specs::State::state_of))]
fn is_sound_body(mine: &Rows, body: &RequestBody) -> bool
    ensures { result ≡ is_sound_body (state_of mine.now) body.now }
{
    match body {
        RequestBody::Registration(object) => is_sound_object(&mine.objects, object),
        RequestBody::Certification(it) => names_rows(mine, it),
    }
}

/// Whether the module, the environment and the session of a certification are there.
#[tactic(auto, using(crate::proofs::Joins::session_there), unfolding(acvp_tables::specs::State::state_of))]
fn names_rows(mine: &Rows, it: &Certification) -> bool
    ensures { result ≡ is_sound_body (state_of mine.now) (body_value.Certification it.now) }
{
    has_object(&mine.objects, Kind::Module, it.module)
        && has_object(&mine.objects, Kind::Environment, it.environment)
        && has_session(&mine.sessions, it.session)
}

/// Whether what an approval gave under a number is there.
fn has_given(objects: &[ObjectRow], body: &RequestBody, number: u64) -> bool
    ensures { result ≡ has_given objects.now body.now number }
{
    match body {
        RequestBody::Registration(object) => has_object(objects, object.kind(), number),
        RequestBody::Certification(it) => it.session == number,
    }
}

/// Whether what a request gave, where it is approved, is there.
fn has_all_given(objects: &[ObjectRow], row: &RequestRow) -> bool
    ensures { result ≡ has_all_given objects.now row.now }
{
    match row.status {
        RequestStatus::Approved(number) => has_given(objects, &row.body, number),
        RequestStatus::Initial | RequestStatus::Rejected => true,
    }
}

/// The conditions on a request, among an account's rows.
#[derive(Clone, Copy)]
struct InAccount<'a> {
    mine: &'a Rows,
}

impl Judge<RequestRow> for InAccount<'_> {
    ghost conditions = { λ t row. request_row_conditions t.mine.now row };

    fn judge(&self, row: &RequestRow) -> Result<(), Finding> {
        let mine = self.mine;
        let key = RowKey::Request(row.number);
        check(is_sound_body(mine, &row.body), key, Wrong::Body)?;
        check(has_all_given(&mine.objects, row), key, Wrong::NotGiven)
    }
}

/// The first request of an account that hasn't the next number.
#[tactic(auto, using(crate::proofs::Joins::all_selected))]
fn request_numbers_wrong(account: u16, rows: &[RequestRow]) -> Result<(), Finding>
    ensures { result ≡ judged (request_numbers account rows.now) tt }
{
    rise(rows, &Requests, first_of_account(account))
}

/// What is wrong with an account's requests.
#[tactic(auto, using(crate::proofs::Joins::judged_joined), unfolding(crate::specs::Conditions::request_conditions))]
pub(crate) fn requests_wrong(account: u16, mine: &Rows) -> Result<(), Finding>
    ensures { result ≡ judged (request_conditions account mine.now) tt }
{
    check(
        mine.requests.len() <= REQUEST_LIMIT,
        RowKey::Account(account),
        Wrong::ManyRequests,
    )?;
    request_numbers_wrong(account, &mine.requests)?;
    each(&mine.requests, &InAccount { mine })
}
