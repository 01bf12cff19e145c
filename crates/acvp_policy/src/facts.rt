//! What is known when a request is decided.

use acvp_token::Claims;

/// What is known when a request is decided: what was found, and nothing that is still to be looked up.
/// A login is decided on its findings alone, and leaves `token`, `standing` and `reviewer` unread.
#[derive(Clone, Copy)]
pub struct Facts {
    /// The moment of the request, in seconds since 1970.
    pub moment: u64,

    /// What reading the bearer token came to, at this moment.
    pub token: Token,

    /// How the account of the token's claims stands.
    pub standing: Standing,

    /// Whether the account of the token's claims is a reviewer of the session that the path names.
    pub reviewer: bool,

    /// What the request's path names, with what was found there.
    pub subject: Subject,
}

/// What reading a bearer token came to: the first of its tests that failed, or its claims.
#[derive(Clone, Copy)]
pub enum Token {
    /// There is none.
    Missing,

    /// It has the shape of no token, or there are two.
    Malformed,

    /// It isn't signed under the key that it names.
    NotSigned,

    /// Its claims don't say whom it stands for and how long.
    NotRead,

    /// The moment is its end or past it.
    Expired,

    /// It is good at the moment.
    Verified(Claims),
}

/// How an account stands.
#[derive(Clone, Copy, PartialEq, Eq)]
pub enum Standing {
    Absent,
    Disabled,
    Enabled,
}

/// What a request's path names, with what was found there: one variant for each kind of resource, so
/// that only the facts of that kind can be given.
#[derive(Clone, Copy)]
pub enum Subject {
    /// The account that logs in.
    Login(LoginFacts),

    /// The account of the token: its own row, its lists, and what is added to them.
    Account,

    /// The algorithm of a number.
    Algorithm(u64),

    /// A session.
    Session(SessionSubject),

    /// A vector set of a session.
    Set(SetSubject),

    /// A reviewer of a session.
    Reviewer(ReviewerSubject),

    /// A vendor, module or environment, or a request.
    Vendor(RowSubject),
    Module(RowSubject),
    Environment(RowSubject),
    Request(RowSubject),
}

/// What a login's body came to.
#[derive(Clone, Copy)]
pub struct LoginFacts {
    /// The account whose plain decimal `user` is, where it has a row.
    pub user: Option<UserFacts>,

    /// The token that is handed in for renewal.
    pub renewal: Renewal,
}

/// An account that logs in.
#[derive(Clone, Copy)]
pub struct UserFacts {
    pub account: u16,
    pub enabled: bool,

    /// The accepted step of the one-time code, where there is one.
    pub step: Option<u64>,
}

/// The token that a login hands in for renewal.
#[derive(Clone, Copy)]
pub enum Renewal {
    /// There is none.
    Unasked,

    /// It doesn't read as a token of this server.
    Unreadable,

    /// It reads as these claims, whether it still lasts or not.
    Reads(Claims),
}

/// The session that a path names.
#[derive(Clone, Copy)]
pub struct SessionSubject {
    pub session: u64,
    pub found: Option<SessionFacts>,
}

/// The vector set that a path names.
#[derive(Clone, Copy)]
pub struct SetSubject {
    pub session: u64,
    pub set: u64,

    /// The session and its set; none where either isn't there, or the set isn't the session's.
    pub found: Option<SetFacts>,
}

/// The reviewer of a session that a path names.
#[derive(Clone, Copy)]
pub struct ReviewerSubject {
    pub session: u64,

    /// The number of an account.
    pub reviewer: u64,

    /// The session; none where it isn't there, or the account is no reviewer of it.
    pub found: Option<SessionFacts>,
}

/// The row that a path names by its number.
#[derive(Clone, Copy)]
pub struct RowSubject {
    pub number: u64,

    /// Whether the account of the token has a row of this kind and number.
    pub found: bool,
}

/// How a session stands.
#[derive(Clone, Copy)]
pub struct SessionFacts {
    pub cancelled: bool,

    /// When it was created, in seconds since 1970.
    pub created: u64,

    pub sample: bool,

    /// The status of its last certification request, where it has one.
    pub certification: Option<CertificationStatus>,

    /// Whether it has a vector set that isn't cancelled, and each such set has the disposition `passed`.
    pub passed: bool,
}

/// The status of a certification request.
#[derive(Clone, Copy)]
pub enum CertificationStatus {
    Initial,
    Approved,
    Rejected,
}

/// How a vector set stands, and its session.
#[derive(Clone, Copy)]
pub struct SetFacts {
    pub session: SessionFacts,
    pub cancelled: bool,

    /// Whether answers are kept.
    pub answered: bool,
}
