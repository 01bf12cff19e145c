//! What changes the records: an accepted action, or the operator's order.

use crate::graded::Graded;
use crate::rows::{Certification, ReviewerRow};
use acvp_caps::Registration;
use acvp_registry::Object;

/// The time step of a one-time code that an account has used.
#[derive(Clone, Copy)]
pub struct UsedStep {
    pub account: u16,
    pub step: u64,
}

/// A test session with a vector set for each capability, in their order.
#[derive(Drop)]
pub struct NewSession {
    pub number: u64,
    pub account: u16,

    /// In seconds since 1970.
    pub created: u64,

    /// The place of the newest seed.
    pub epoch: u64,
    pub registration: Registration,
}

/// Answers to a vector set, in the place of those that were kept.
#[derive(Drop)]
pub struct KeptAnswers {
    pub session: u64,
    pub set: u64,
    pub graded: Graded,

    /// How many of the session's uncancelled sets have the disposition `passed` with these answers.
    pub passed: u64,
}

/// A vector set that is cancelled.
#[derive(Clone, Copy)]
pub struct CancelledSet {
    pub session: u64,
    pub set: u64,

    /// How many of the session's sets aren't cancelled without this one.
    pub live: u64,

    /// How many of these have the disposition `passed`.
    pub passed: u64,
}

/// A request for the registration of an object.
#[derive(Drop)]
pub struct NewRequest {
    pub number: u64,
    pub account: u16,
    pub object: Object,
}

/// A request for the certification of a test session.
#[derive(Clone, Copy)]
pub struct NewCertification {
    pub number: u64,
    pub account: u16,
    pub certification: Certification,
}

/// What an accepted action changes, whole. It names rows by their numbers alone: whose they are is a matter of the
/// numbers and of the grant. Counters come with it, so that a store writes what it is given and counts nothing.
#[derive(Drop)]
pub enum Change {
    UseStep(UsedStep),
    NewSession(NewSession),
    KeepAnswers(KeptAnswers),

    /// Of the session of this number.
    CancelSession(u64),
    CancelSet(CancelledSet),
    NewRequest(NewRequest),
    Certify(NewCertification),

    /// Where the reviewer is there already, nothing changes.
    AddReviewer(ReviewerRow),
    RemoveReviewer(ReviewerRow),
}

/// An account that the operator adds.
#[derive(Clone, Copy)]
pub struct NewAccount {
    pub account: u16,

    /// The secret of its one-time codes.
    pub secret: [u8; 32],
}

/// A request that the operator approves.
#[derive(Clone, Copy)]
pub struct Approval {
    pub request: u64,

    /// The number of the object that is registered, or of the session that is certified.
    pub approved: u64,
}

/// What the operator's order changes, whole.
#[derive(Clone, Copy)]
pub enum OrderChange {
    AddAccount(NewAccount),

    /// Of this number.
    DisableAccount(u16),
    Approve(Approval),

    /// The request of this number.
    Reject(u64),
}
