//! The rows of the records, one type for each table. A number is at most 9999 of an account. Of a session, a registered
//! object or a request it is the account's number times 1000000 and what the row adds to it, from 1 on; of a vector set
//! it is the session's times 100 and what the set adds to it, from 1 on.

use crate::graded::Graded;
use acvp_caps::Capability;
use acvp_registry::Object;

/// An account that may log in.
#[derive(Clone, Copy)]
pub struct AccountRow {
    pub number: u16,

    /// The secret of its one-time codes.
    pub secret: [u8; 32],
    pub enabled: bool,

    /// The time step of the newest one-time code that it has used.
    pub last_step: Option<u64>,
}

/// A test session.
#[derive(Clone, Copy)]
pub struct SessionRow {
    pub number: u64,
    pub account: u16,

    /// Whether the expected answers may be shown.
    pub sample: bool,

    /// In seconds since 1970.
    pub created: u64,
    pub cancelled: bool,

    /// The number of its last certification request.
    pub last_request: Option<u64>,

    /// How many of its vector sets aren't cancelled.
    pub live: u64,

    /// How many of these have the disposition `passed`.
    pub passed: u64,
}

/// A vector set of a test session.
#[derive(Drop)]
pub struct SetRow {
    pub number: u64,
    pub session: u64,
    pub capability: Capability,

    /// The place of the seed that its prompts are made from, from 0 on.
    pub epoch: u64,
    pub cancelled: bool,

    /// The last answers, where there are any, and what they came to.
    pub graded: Option<Graded>,
}

/// A vendor, a module or an operational environment that was approved.
#[derive(Drop)]
pub struct ObjectRow {
    pub number: u64,
    pub account: u16,
    pub object: Object,
}

/// What a request for certification names: a module, an operational environment and a test session, by their numbers.
#[derive(Clone, Copy)]
pub struct Certification {
    pub module: u64,
    pub environment: u64,
    pub session: u64,
}

/// What a request asks for.
#[derive(Drop)]
pub enum RequestBody {
    Registration(Object),
    Certification(Certification),
}

/// What was decided on a request.
#[derive(Clone, Copy)]
pub enum RequestStatus {
    /// Nothing yet.
    Initial,

    /// It was approved. The number is that of what was registered, or of the session that was certified.
    Approved(u64),
    Rejected,
}

/// A request for registration or certification.
#[derive(Drop)]
pub struct RequestRow {
    pub number: u64,
    pub account: u16,
    pub body: RequestBody,
    pub status: RequestStatus,
}

/// Leave for an account, by its number, to read the results of a test session. The account needn't have a row.
#[derive(Clone, Copy)]
pub struct ReviewerRow {
    pub session: u64,
    pub account: u16,
}
