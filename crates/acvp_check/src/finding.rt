//! What is found where a condition on the records doesn't hold.

use acvp_registry::Kind;

/// A row, by its table and its key.
#[derive(Clone, Copy, Debug, PartialEq, Eq)]
pub enum RowKey {
    Account(u16),
    Session(u64),
    Set(u64),
    Object(Kind, u64),
    Request(u64),
    /// A reviewer, by the session and the account.
    Reviewer(u64, u16),
}

/// What is wrong with a row.
#[derive(Clone, Copy, Debug, PartialEq, Eq)]
pub enum Wrong {
    /// It is there more than once.
    Twice,
    /// It isn't of the account that its number names, or that is no account's number.
    Owner,
    /// It hasn't the number that it should have.
    Number,
    /// The account has rows, and isn't there itself.
    NoAccount,
    /// The account has more than 999999 sessions.
    ManySessions,
    /// The account has more than 999999 requests.
    ManyRequests,
    /// The account has more objects of a kind than approved requests for them.
    ManyObjects,
    /// The session was created past the last moment that is served.
    Created,
    /// The session has no vector set.
    NoSet,
    /// The session has more than 20 vector sets.
    ManySets,
    /// A counter isn't the number of the vector sets that it counts.
    Counter,
    /// The session's last request isn't there, or isn't for its certification.
    LastRequest,
    /// The session that it is of isn't there.
    NoSession,
    /// There is no seed of its epoch.
    NoSeed,
    /// The disposition isn't that of the verdicts.
    Disposition,
    /// The verdicts aren't those on the answers.
    Verdicts,
    /// An answer is to a test that the vector set doesn't have.
    Answers,
    /// The body names what isn't there, or isn't one that is kept.
    Body,
    /// What its approval gave isn't there.
    NotGiven,
    /// No approved request is for it under its number.
    NotAskedFor,
    /// The object isn't one that is kept, or its vendor isn't there.
    Object,
    /// The session may not be certified, and the request that it names isn't rejected: it hasn't passed, is a sample or
    /// is cancelled.
    NotCertifiable,
    /// The certification's session names another, or none; if it is rejected, neither it nor a later one.
    NotLast,
    /// The object that its approval registered isn't the one that it asks for.
    NotAsAsked,
    /// An earlier request was approved with the number of the same object.
    GivenTwice,
    /// A vector set of its session, or of an earlier one of its account, has a later epoch.
    Epoch,
    /// Its session has more than 16 reviewers.
    ManyReviewers,
    /// The number of its reviewer is none of an account.
    NoAccountNumber,
}

/// The condition that doesn't hold: of which row, and what is wrong with it.
#[derive(Clone, Copy, Debug, PartialEq, Eq)]
pub struct Finding {
    pub row: RowKey,
    pub wrong: Wrong,
}
