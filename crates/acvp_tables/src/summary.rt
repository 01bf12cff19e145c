//! What is read of a row without the parts of it that take memory.
ghost use Rattle.std.specs.Prelude.{◌≡◌};
ghost use Rattle.acvp_tables.specs.Content.{request_summary, purpose_of};

use crate::rows::{Certification, RequestBody, RequestRow, RequestStatus};
use acvp_answers::Disposition;
use acvp_registry::Kind;

/// A vector set without its capability and answers.
#[derive(Clone, Copy)]
pub struct SetSummary {
    pub number: u64,
    pub session: u64,
    pub epoch: u64,
    pub cancelled: bool,

    /// What its last answers came to; none where no answers are kept.
    pub disposition: Option<Disposition>,
}

/// What a request asks for: the registration of an object of a kind, or a certification.
#[derive(Clone, Copy)]
pub enum RequestPurpose {
    Registration(Kind),
    Certification(Certification),
}

/// A request without the object that it asks to register.
#[derive(Clone, Copy)]
pub struct RequestSummary {
    pub number: u64,
    pub account: u16,
    pub purpose: RequestPurpose,
    pub status: RequestStatus,
}

/// What a request asks for.
fn purpose(body: &RequestBody) -> RequestPurpose
    ensures { result ≡ purpose_of body.now }
{
    match body {
        RequestBody::Registration(object) => RequestPurpose::Registration(object.kind()),
        RequestBody::Certification(certification) => RequestPurpose::Certification(*certification),
    }
}

impl RequestSummary {
    /// A request without the object that it asks to register.
    pub fn of(row: &RequestRow) -> RequestSummary
        ensures { result ≡ request_summary row.now }
    {
        RequestSummary {
            number: row.number,
            account: row.account,
            purpose: purpose(&row.body),
            status: row.status,
        }
    }
}

/// Which rows of an account are counted.
#[derive(Clone, Copy)]
pub enum Counted {
    Sessions,
    Objects(Kind),
    Requests,
}
