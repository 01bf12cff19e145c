//! The objects of vendors, modules and operational environments, and of the requests for them.
ghost use Rattle.std.specs.Prelude.{◌≡◌};
ghost use Rattle.acvp_json.specs.Registry.{registered_data, status_word, request_data};

use crate::array::Shows;
use crate::object::object;
use crate::session::outcome_value;
use crate::urls::{approved_url, request_url};
use acvp_registry::{Object, PendingRequest, RegFault, Status, with_url};
use serde_json::Value;
use std::alloc::{AllocError, Global};

/// A vendor, a module or an operational environment, with its number.
#[derive(Clone, Copy)]
pub struct Registered<'a> {
    pub number: u64,
    pub object: &'a Object,
}

/// What is registered: the kept object with its own URL.
pub(crate) struct Objects;

impl<'a> Shows<Registered<'a>> for Objects {
    ghost data_of = { λ _ row. registered_data row };

    fn value(&self, alloc: Global, row: &Registered<'a>) -> Result<Value, AllocError> {
        match with_url(alloc, row.object, row.number) {
            Ok(value) => Ok(value),
            Err(_) => Err(AllocError),
        }
    }
}

/// The word for where a request stands.
fn status_word(status: Status) -> &'static str
    ensures { result.now ≡ status_word status }
{
    match status {
        Status::Initial => "initial",
        Status::Approved => "approved",
        Status::Rejected => "rejected",
    }
}

/// Requests in their states. A number that stands beside another status than approved isn't shown.
pub(crate) struct Requests;

impl Shows<PendingRequest> for Requests {
    ghost data_of = { λ _ request. request_data request };

    fn value(&self, alloc: Global, request: &PendingRequest) -> Result<Value, AllocError> {
        let url = request_url(alloc, request.number)?;
        match (request.status, request.approved) {
            (Status::Approved, Some(number)) => {
                let approved = approved_url(alloc, request.kind, number)?;
                object(
                    alloc,
                    &[("status", "approved")],
                    &["approvedUrl", "url"],
                    [Value::String(approved), Value::String(url)],
                )
            }
            (status, _) => outcome_value(alloc, status_word(status), url),
        }
    }
}
