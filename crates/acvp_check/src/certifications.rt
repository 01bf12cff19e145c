//! The conditions on certifications: what every run keeps of them.
ghost use Rattle.std.specs.Prelude.{◌≡◌, option_map, true};
ghost use Rattle.std.specs.List.{flat_map};
ghost use Rattle.acvp_mac.specs.Conditions.{judged};
ghost use Rattle.acvp_desk.specs.Certifications.{is_certifiable, is_last, is_rejected, names_it};
ghost use Rattle.acvp_tables.specs.Content.{request_at, session_at};
ghost use Rattle.acvp_tables.specs.declared.rows.RequestRow.{RequestRow as RequestValue};
ghost use Rattle.acvp_tables.specs.declared.rows.SessionRow.{SessionRow as SessionValue};
ghost use Rattle.acvp_check.specs.Near.{Rise};
ghost use Rattle.acvp_check.specs.Conditions.{certifiable_conditions, certification_conditions, last_conditions};

use crate::finding::{Finding, RowKey, Wrong};
use crate::near::{first_of, numbers_rise};
use crate::rows::Rows;
use crate::walks::check;
use acvp_desk::may_be_certified;
use acvp_tables::{RequestBody, RequestRow, RequestStatus, SessionRow};

/// Whether a request is rejected.
fn is_rejected(status: RequestStatus) -> bool
    ensures { result ≡ is_rejected status }
{
    match status {
        RequestStatus::Initial | RequestStatus::Approved(_) => false,
        RequestStatus::Rejected => true,
    }
}

/// The status of the request of a number, where it is there.
fn status_at(requests: &[RequestRow], rising: bool, number: u64) -> Option<RequestStatus>
    requires { rising ≡ true → Rise (λ (row : RequestValue). row.number) requests.now }
    ensures { result ≡ option_map (λ row. row.status) (request_at number requests.now) }
{
    match first_of(requests, rising, number) {
        Some(row) => Some(row.status),
        None => None,
    }
}

/// The last request of the session of a number, where it is there.
fn last_request_at(sessions: &[SessionRow], rising: bool, number: u64) -> Option<Option<u64>>
    requires { rising ≡ true → Rise (λ (row : SessionValue). row.number) sessions.now }
    ensures { result ≡ option_map (λ row. row.last_request) (session_at number sessions.now) }
{
    match first_of(sessions, rising, number) {
        Some(row) => Some(row.last_request),
        None => None,
    }
}

/// Whether the request that a session names is there, and rejected unless the session may be certified.
#[tactic(auto, using(crate::proofs::CertificationLemmas::by_status))]
fn is_certifiable(requests: &[RequestRow], rising: bool, row: &SessionRow) -> bool
    requires { rising ≡ true → Rise (λ (row : RequestValue). row.number) requests.now }
    ensures { result ≡ is_certifiable requests.now row.now }
{
    let may = may_be_certified(row);
    match row.last_request {
        None => true,
        Some(number) => match status_at(requests, rising, number) {
            None => false,
            Some(status) => is_rejected(status) || may,
        },
    }
}

/// Whether the session of a number names this request as the last, or, where it is rejected, a later one.
#[tactic(auto, using(crate::proofs::CertificationLemmas::by_last))]
fn names_it(sessions: &[SessionRow], rising: bool, session: u64, row: &RequestRow) -> bool
    requires { rising ≡ true → Rise (λ (row : SessionValue). row.number) sessions.now }
    ensures { result ≡ names_it row.now (session_at session sessions.now) }
{
    match last_request_at(sessions, rising, session) {
        Some(Some(last)) => last == row.number || (is_rejected(row.status) && row.number < last),
        Some(None) | None => false,
    }
}

/// Whether a request asks for no certification, or is the one that its session names, or, rejected, an earlier one.
fn is_last(sessions: &[SessionRow], rising: bool, row: &RequestRow) -> bool
    requires { rising ≡ true → Rise (λ (row : SessionValue). row.number) sessions.now }
    ensures { result ≡ is_last sessions.now row.now }
{
    match &row.body {
        RequestBody::Registration(_) => true,
        RequestBody::Certification(it) => names_it(sessions, rising, it.session, row),
    }
}

/// What is wrong with the certification of a session.
fn certifiable_wrong(requests: &[RequestRow], rising: bool, row: &SessionRow) -> Result<(), Finding>
    requires { rising ≡ true → Rise (λ (row : RequestValue). row.number) requests.now }
    ensures { result ≡ judged (certifiable_conditions requests.now row.now) tt }
{
    let holds = is_certifiable(requests, rising, row);
    check(holds, RowKey::Session(row.number), Wrong::NotCertifiable)
}

/// What is wrong with the first of these sessions whose certification isn't right.
fn sessions_certifiable(requests: &[RequestRow], rows: &[SessionRow]) -> Result<(), Finding>
    ensures { result ≡ judged (flat_map (certifiable_conditions requests.now) rows.now) tt }
{
    let rising = numbers_rise(requests);
    for row in rows {
        certifiable_wrong(requests, rising, row)?;
    }
    Ok(())
}

/// What is wrong with a request for a certification.
fn last_wrong(sessions: &[SessionRow], rising: bool, row: &RequestRow) -> Result<(), Finding>
    requires { rising ≡ true → Rise (λ (row : SessionValue). row.number) sessions.now }
    ensures { result ≡ judged (last_conditions sessions.now row.now) tt }
{
    let holds = is_last(sessions, rising, row);
    check(holds, RowKey::Request(row.number), Wrong::NotLast)
}

/// What is wrong with the first of these requests that isn't the last of its session.
fn requests_last(sessions: &[SessionRow], rows: &[RequestRow]) -> Result<(), Finding>
    ensures { result ≡ judged (flat_map (last_conditions sessions.now) rows.now) tt }
{
    let rising = numbers_rise(sessions);
    for row in rows {
        last_wrong(sessions, rising, row)?;
    }
    Ok(())
}

/// What is wrong with an account's certifications.
#[tactic(auto, using(crate::proofs::Joins::judged_joined), unfolding(crate::specs::Conditions::certification_conditions))]
pub(crate) fn certifications_wrong(mine: &Rows) -> Result<(), Finding>
    ensures { result ≡ judged (certification_conditions mine.now) tt }
{
    sessions_certifiable(&mine.requests, &mine.sessions)?;
    requests_last(&mine.sessions, &mine.requests)
}
