//! The conditions on registrations: what every run keeps of them.
ghost use Rattle.std.specs.Prelude.{◌≡◌, ◌==◌, find};
ghost use Rattle.acvp_mac.specs.Conditions.{judged};
ghost use Rattle.acvp_policy.specs.Conditions.{is_some_and};
ghost use Rattle.acvp_desk.specs.Registrations.{is_as_asked, is_given, is_given_once, is_object_of};
ghost use Rattle.acvp_tables.specs.Content.{object_at};
ghost use Rattle.acvp_check.specs.Conditions.{registration_conditions, registration_row_conditions};

use crate::finding::{Finding, RowKey, Wrong};
use crate::objects::{is_kind, is_registration_of};
use crate::rows::Rows;
use crate::walks::{Judge, check, each};
use acvp_registry::{Kind, Object};
use acvp_tables::{ObjectRow, RequestBody, RequestRow, RequestStatus};

/// Whether the object of the kind and the number is there, of the account and with the text of the one that was asked
/// for.
fn is_there_as_asked(objects: &[ObjectRow], account: u16, asked: &Object, number: u64) -> bool
    ensures { result ≡ is_some_and (object_at asked.now.kind number objects.now) (is_object_of account asked.now) }
{
    for row in objects {
        if is_kind(row.object.kind(), asked.kind()) && row.number == number {
            return row.account == account && row.object.text() == asked.text();
        }
    }
    false
}

/// Whether what a request registered, where it is approved, is there as it was asked for.
fn is_as_asked(objects: &[ObjectRow], row: &RequestRow) -> bool
    ensures { result ≡ is_as_asked objects.now row.now }
{
    match (row.status, &row.body) {
        (RequestStatus::Approved(number), RequestBody::Registration(asked)) => {
            is_there_as_asked(objects, row.account, asked, number)
        }
        _ => true,
    }
}

/// Whether a request is for the registration of an object of a kind, and approved with this number.
fn is_given(kind: Kind, number: u64, row: &RequestRow) -> bool
    ensures { result ≡ is_given kind number row.now }
{
    is_registration_of(kind, &row.body)
        && matches!(row.status, RequestStatus::Approved(given) if given == number)
}

/// Whether the first request that gave an object's number is this one.
fn is_first_given(requests: &[RequestRow], request: u64, kind: Kind, number: u64) -> bool
    ensures { result ≡ is_some_and (find (is_given kind number) requests.now) (λ row. row.number == request) }
{
    for row in requests {
        if is_given(kind, number, row) {
            return row.number == request;
        }
    }
    false
}

/// Whether no request before this one gave the number of the object that it registered, where it is approved.
fn is_given_once(requests: &[RequestRow], row: &RequestRow) -> bool
    ensures { result ≡ is_given_once requests.now row.now }
{
    match (row.status, &row.body) {
        (RequestStatus::Approved(number), RequestBody::Registration(asked)) => {
            is_first_given(requests, row.number, asked.kind(), number)
        }
        _ => true,
    }
}

/// The conditions on a request, among an account's rows.
#[derive(Clone, Copy)]
struct InAccount<'a> {
    mine: &'a Rows,
}

impl Judge<RequestRow> for InAccount<'_> {
    ghost conditions = { λ t row. registration_row_conditions t.mine.now row };

    fn judge(&self, row: &RequestRow) -> Result<(), Finding> {
        let mine = self.mine;
        let key = RowKey::Request(row.number);
        check(is_as_asked(&mine.objects, row), key, Wrong::NotAsAsked)?;
        check(is_given_once(&mine.requests, row), key, Wrong::GivenTwice)
    }
}

/// What is wrong with an account's registrations.
#[tactic(auto, unfolding(crate::specs::Conditions::registration_conditions))]
pub(crate) fn registrations_wrong(mine: &Rows) -> Result<(), Finding>
    ensures { result ≡ judged (registration_conditions mine.now) tt }
{
    each(&mine.requests, &InAccount { mine })
}
