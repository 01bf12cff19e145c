//! Requests for registration or certification, on which the laboratory's operator decides.

use crate::kind::Kind;

/// What was decided on a request.
#[derive(Clone, Copy)]
pub enum Status {
    /// Nothing yet.
    Initial,
    Approved,
    Rejected,
}

/// A request for registration or certification.
#[derive(Clone, Copy)]
pub struct PendingRequest {
    /// The request's own number.
    pub number: u64,
    pub kind: Kind,
    pub status: Status,
    /// The number of what was registered, or of the session that was certified, once the request is approved.
    pub approved: Option<u64>,
}
