//! Requests as a list.
ghost use Rattle.std.specs.Prelude.{◌≡◌, ◌==◌, IfOk, Option, option_to_list};
ghost use Rattle.acvp_tables.specs.Content.{request_summary};
ghost use Rattle.acvp_tables.specs.Changes.{is_request, with_status, new_request, new_certification, new_objects};

use crate::change::{NewCertification, NewRequest};
use crate::list::walks::{Edit, Predicate, Show};
use crate::rows::{ObjectRow, RequestBody, RequestRow, RequestStatus};
use crate::summary::RequestSummary;
use std::alloc::AllocError;

/// The request of a number.
#[derive(Drop)]
pub(crate) struct RequestIs {
    pub number: u64,
}

impl Predicate<RequestRow> for RequestIs {
    ghost passes = { λ t row. is_request t.number row };

    fn test(&self, row: &RequestRow) -> bool {
        row.number == self.number
    }
}

/// The requests of an account.
#[derive(Drop)]
pub(crate) struct RequestsOf {
    pub account: u16,
}

impl Predicate<RequestRow> for RequestsOf {
    ghost passes = { λ t row. row.account == t.account };

    fn test(&self, row: &RequestRow) -> bool {
        row.account == self.account
    }
}

/// A request without the object that it asks to register.
#[derive(Drop)]
pub(crate) struct RequestInShort;

impl Show<RequestRow, RequestSummary> for RequestInShort {
    ghost shown = { λ _ row. request_summary row };

    fn show(&self, row: &RequestRow) -> Result<RequestSummary, AllocError> {
        Ok(RequestSummary::of(row))
    }
}

/// What was decided on it.
#[derive(Drop)]
pub(crate) struct ItsStatus;

impl Show<RequestRow, RequestStatus> for ItsStatus {
    ghost shown = { λ _ row. row.status };

    fn show(&self, row: &RequestRow) -> Result<RequestStatus, AllocError> {
        Ok(row.status)
    }
}

/// It is decided so.
#[derive(Drop)]
pub(crate) struct WithStatus {
    pub status: RequestStatus,
}

impl Edit<RequestRow> for WithStatus {
    ghost edited = { λ e row. with_status e.status row };

    fn edit(&self, row: &mut RequestRow) {
        row.status = self.status;
    }
}

/// The row of a new request.
pub(crate) fn new_request(request: &NewRequest) -> Result<RequestRow, AllocError>
    ensures { IfOk result (λ row. row ≡ new_request request.now) }
{
    let object = request.object.clone()?;
    Ok(RequestRow {
        number: request.number,
        account: request.account,
        body: RequestBody::Registration(object),
        status: RequestStatus::Initial,
    })
}

/// The row of a new certification request.
pub(crate) fn new_certification(request: &NewCertification) -> RequestRow
    ensures { result ≡ new_certification request.now }
{
    RequestRow {
        number: request.number,
        account: request.account,
        body: RequestBody::Certification(request.certification),
        status: RequestStatus::Initial,
    }
}

/// The row of what is registered under a number where a request is approved.
pub(crate) fn new_object(row: &RequestRow, number: u64) -> Result<Option<ObjectRow>, AllocError>
    ensures { IfOk result (λ found. option_to_list found ≡ new_objects row.now.account row.now.body number) }
{
    match &row.body {
        RequestBody::Registration(object) => {
            let object = object.clone()?;
            Ok(Some(ObjectRow {
                number,
                account: row.account,
                object,
            }))
        }
        RequestBody::Certification(_) => Ok(None),
    }
}
