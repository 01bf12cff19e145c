//! What any form of the tables tells, as words. Each word stands behind a space, so that an empty list is an empty
//! text. Where there is no row, the word is `none`, and a dash where a row lacks a number.

use crate::changes::SECRET;
use crate::words::{Of, account, kind_in, rows_in};
use acvp_answers::{Disposition, Verdict};
use acvp_caps::{Algorithm, Capability};
use acvp_registry::{Counts, Kind, Object};
use acvp_tables::{
    AccountRow, ObjectRow, RequestPurpose, RequestStatus, RequestSummary, SessionRow, SetSummary,
    StoreFault, Tables,
};
use std::alloc::AllocError;
use std::fmt::Write;
use std::process::Abort;

/// Reads.
#[derive(Clone, Copy)]
pub(crate) enum Read {
    /// An account's number, whether its secret is that of every account here, whether it is enabled, and its last step.
    Account,

    /// How many sessions, vendors, modules, environments and requests an account has.
    Counts,

    /// How many rows of one kind an account has.
    Count,

    /// The numbers of an account's sessions on a page.
    Sessions,

    /// The numbers of account 7's vendors on a page.
    Vendors,

    /// The numbers of account 7's requests on a page.
    Requests,

    /// The greatest epoch of all sets.
    GreatestEpoch,

    /// A session's account, whether it is a sample, when it was created, and whether it is cancelled.
    Session,

    /// How many sets a session has, and how many have passed.
    Counters,

    /// The number of a session's last certification request.
    CertifiedBy,

    /// A set's session, its epoch, whether it is cancelled, and what its last answers came to.
    Set,

    /// The algorithm of a set's capability.
    Algorithm,

    /// The verdicts on a set's last answers.
    Verdicts,

    /// The numbers of a session's sets that aren't cancelled.
    SetsOf,

    /// The reviewers of a session.
    ReviewersOf,

    /// Whether an account is a reviewer of a session.
    Reviewer,

    /// The account of an object.
    Owner,

    /// The text of an object.
    Object,

    /// The vendor of a module.
    VendorOf,

    /// What was decided on a request.
    Status,

    /// The same, read alone.
    Decision,

    /// What a request asks to register or to certify: a kind, or a module, an environment and a session.
    Subject,
}

/// The names of reads.
const READS: &[(&str, Read)] = &[
    ("account", Read::Account),
    ("counts", Read::Counts),
    ("count", Read::Count),
    ("sessions", Read::Sessions),
    ("vendors", Read::Vendors),
    ("requests", Read::Requests),
    ("greatest_epoch", Read::GreatestEpoch),
    ("session", Read::Session),
    ("counters", Read::Counters),
    ("certified_by", Read::CertifiedBy),
    ("set", Read::Set),
    ("algorithm", Read::Algorithm),
    ("verdicts", Read::Verdicts),
    ("sets_of", Read::SetsOf),
    ("reviewers_of", Read::ReviewersOf),
    ("reviewer", Read::Reviewer),
    ("owner", Read::Owner),
    ("object", Read::Object),
    ("vendor_of", Read::VendorOf),
    ("status", Read::Status),
    ("decision", Read::Decision),
    ("subject", Read::Subject),
];

/// The read of this name, if there is one.
pub(crate) fn read_named(name: &str) -> Option<Read> {
    for (of, read) in READS {
        if *of == name {
            return Some(*read);
        }
    }
    None
}

/// A word, or a number.
#[derive(Clone, Copy)]
enum Word {
    Text(&'static str),
    Number(u64),
}

/// A number, or a dash where there is none.
fn maybe(number: Option<u64>) -> Word {
    match number {
        Some(number) => Word::Number(number),
        None => Word::Text("-"),
    }
}

/// One of two words.
fn either(is_so: bool, word: &'static str, other: &'static str) -> Word {
    Word::Text(if is_so { word } else { other })
}

/// Writes a number behind a space.
fn try_number(text: &mut String, number: u64) -> Result<(), AllocError> {
    write!(text, " {number}")
}

/// Writes a word behind a space.
fn try_word(text: &mut String, word: &str) -> Result<(), AllocError> {
    text.push_str(" ")?;
    text.push_str(word)
}

/// Writes a number behind a space.
pub(crate) fn put_number(rt: &impl Abort, text: &mut String, number: u64) {
    try_number(text, number).ok().expect(rt, "memory");
}

/// Writes a word behind a space.
pub(crate) fn put_word(rt: &impl Abort, text: &mut String, word: &str) {
    try_word(text, word).ok().expect(rt, "memory");
}

/// Writes words.
fn put_all(rt: &impl Abort, text: &mut String, words: &[Word]) {
    for word in words {
        match *word {
            Word::Text(word) => put_word(rt, text, word),
            Word::Number(number) => put_number(rt, text, number),
        }
    }
}

/// Writes the word for a fault.
pub(crate) fn put_fault(rt: &impl Abort, text: &mut String, fault: StoreFault) {
    match fault {
        StoreFault::Refused => put_word(rt, text, "refused"),
        StoreFault::Memory => put_word(rt, text, "out of memory"),
    }
}

/// What a read finds, if anything.
type Found<R> = Result<Option<R>, StoreFault>;

/// What a read lists.
type Listed<R> = Result<Vec<R>, StoreFault>;

/// Writes an account.
fn put_account(rt: &impl Abort, text: &mut String, found: Found<AccountRow>) {
    match found {
        Ok(Some(row)) => put_all(
            rt,
            text,
            &[
                Word::Number(u64::from(row.number)),
                either(row.secret == SECRET, "secret", "another"),
                either(row.enabled, "enabled", "disabled"),
                maybe(row.last_step),
            ],
        ),
        Ok(None) => put_word(rt, text, "none"),
        Err(fault) => put_fault(rt, text, fault),
    }
}

/// Writes counts.
fn put_counts(rt: &impl Abort, text: &mut String, counts: Result<Counts, StoreFault>) {
    match counts {
        Ok(counts) => put_all(
            rt,
            text,
            &[
                Word::Number(counts.sessions),
                Word::Number(counts.vendors),
                Word::Number(counts.modules),
                Word::Number(counts.environments),
                Word::Number(counts.requests),
            ],
        ),
        Err(fault) => put_fault(rt, text, fault),
    }
}

/// Writes a number, if there is one.
fn put_found(rt: &impl Abort, text: &mut String, found: Found<u64>) {
    match found {
        Ok(Some(number)) => put_number(rt, text, number),
        Ok(None) => put_word(rt, text, "none"),
        Err(fault) => put_fault(rt, text, fault),
    }
}

/// Writes what a read tells of a session.
fn put_parts(rt: &impl Abort, text: &mut String, read: Read, row: SessionRow) {
    match read {
        Read::Counters => put_all(
            rt,
            text,
            &[Word::Number(row.live), Word::Number(row.passed)],
        ),
        Read::CertifiedBy => put_all(rt, text, &[maybe(row.last_request)]),
        _ => put_all(
            rt,
            text,
            &[
                Word::Number(u64::from(row.account)),
                either(row.sample, "sample", "test"),
                Word::Number(row.created),
                either(row.cancelled, "cancelled", "open"),
            ],
        ),
    }
}

/// Writes what a read tells of a session, if there is one.
fn put_session(rt: &impl Abort, text: &mut String, read: Read, found: Found<SessionRow>) {
    match found {
        Ok(Some(row)) => put_parts(rt, text, read, row),
        Ok(None) => put_word(rt, text, "none"),
        Err(fault) => put_fault(rt, text, fault),
    }
}

/// The word for what a set's last answers came to.
fn disposition_word(disposition: Option<Disposition>) -> Word {
    Word::Text(match disposition {
        Some(Disposition::Passed) => "passed",
        Some(Disposition::Fail) => "fail",
        Some(_) => "another disposition",
        None => "-",
    })
}

/// Writes a set.
fn put_set(rt: &impl Abort, text: &mut String, found: Found<SetSummary>) {
    match found {
        Ok(Some(row)) => put_all(
            rt,
            text,
            &[
                Word::Number(row.session),
                Word::Number(row.epoch),
                either(row.cancelled, "cancelled", "open"),
                disposition_word(row.disposition),
            ],
        ),
        Ok(None) => put_word(rt, text, "none"),
        Err(fault) => put_fault(rt, text, fault),
    }
}

/// The word for an algorithm.
fn algorithm_word(algorithm: Algorithm) -> &'static str {
    match algorithm {
        Algorithm::Sha2_256 => "Sha2_256",
        Algorithm::Sha2_512 => "Sha2_512",
        _ => "another algorithm",
    }
}

/// Writes the algorithm of a capability.
fn put_algorithm(rt: &impl Abort, text: &mut String, found: Found<Capability>) {
    match found {
        Ok(Some(capability)) => put_word(rt, text, algorithm_word(capability.algorithm())),
        Ok(None) => put_word(rt, text, "none"),
        Err(fault) => put_fault(rt, text, fault),
    }
}

/// The word for a verdict.
fn verdict_word(verdict: Verdict) -> &'static str {
    match verdict {
        Verdict::Passed => "passed",
        Verdict::Fail => "fail",
        Verdict::Missing => "missing",
    }
}

/// Writes verdicts.
fn put_verdicts(rt: &impl Abort, text: &mut String, found: Found<Vec<Verdict>>) {
    match found {
        Ok(Some(verdicts)) => {
            for verdict in &verdicts {
                put_word(rt, text, verdict_word(*verdict));
            }
        }
        Ok(None) => put_word(rt, text, "none"),
        Err(fault) => put_fault(rt, text, fault),
    }
}

/// Writes the numbers of sets.
fn put_sets(rt: &impl Abort, text: &mut String, listed: Listed<SetSummary>) {
    match listed {
        Ok(sets) => {
            for set in &sets {
                put_number(rt, text, set.number);
            }
        }
        Err(fault) => put_fault(rt, text, fault),
    }
}

/// Writes the numbers of accounts.
fn put_accounts(rt: &impl Abort, text: &mut String, listed: Listed<u16>) {
    match listed {
        Ok(accounts) => {
            for account in &accounts {
                put_number(rt, text, u64::from(*account));
            }
        }
        Err(fault) => put_fault(rt, text, fault),
    }
}

/// Writes the numbers of sessions.
fn put_sessions(rt: &impl Abort, text: &mut String, listed: Listed<SessionRow>) {
    match listed {
        Ok(rows) => {
            for row in &rows {
                put_number(rt, text, row.number);
            }
        }
        Err(fault) => put_fault(rt, text, fault),
    }
}

/// Writes the numbers of objects.
fn put_objects(rt: &impl Abort, text: &mut String, listed: Listed<ObjectRow>) {
    match listed {
        Ok(rows) => {
            for row in &rows {
                put_number(rt, text, row.number);
            }
        }
        Err(fault) => put_fault(rt, text, fault),
    }
}

/// Writes the numbers of requests.
fn put_requests(rt: &impl Abort, text: &mut String, listed: Listed<RequestSummary>) {
    match listed {
        Ok(rows) => {
            for row in &rows {
                put_number(rt, text, row.number);
            }
        }
        Err(fault) => put_fault(rt, text, fault),
    }
}

/// Writes whether an account is a reviewer.
fn put_reviewer(rt: &impl Abort, text: &mut String, is_reviewer: Result<bool, StoreFault>) {
    match is_reviewer {
        Ok(true) => put_word(rt, text, "reviewer"),
        Ok(false) => put_word(rt, text, "none"),
        Err(fault) => put_fault(rt, text, fault),
    }
}

/// Writes the account of an object.
fn put_owner(rt: &impl Abort, text: &mut String, found: Found<u16>) {
    match found {
        Ok(Some(account)) => put_number(rt, text, u64::from(account)),
        Ok(None) => put_word(rt, text, "none"),
        Err(fault) => put_fault(rt, text, fault),
    }
}

/// Writes what a read tells of an object: the vendor of a module, or its text.
fn put_object(rt: &impl Abort, text: &mut String, read: Read, object: &Object) {
    match read {
        Read::VendorOf => put_all(rt, text, &[maybe(object.vendor())]),
        _ => put_word(rt, text, object.text()),
    }
}

/// The same, if there is one.
fn put_object_row(rt: &impl Abort, text: &mut String, read: Read, found: Found<ObjectRow>) {
    match found {
        Ok(Some(row)) => put_object(rt, text, read, &row.object),
        Ok(None) => put_word(rt, text, "none"),
        Err(fault) => put_fault(rt, text, fault),
    }
}

/// Writes what was decided, with the number that it gave.
fn put_status(rt: &impl Abort, text: &mut String, status: RequestStatus) {
    match status {
        RequestStatus::Initial => put_word(rt, text, "initial"),
        RequestStatus::Approved(given) => {
            put_word(rt, text, "approved");
            put_number(rt, text, given);
        }
        RequestStatus::Rejected => put_word(rt, text, "rejected"),
    }
}

/// Writes what was decided on a request, if there is one.
fn put_decision(rt: &impl Abort, text: &mut String, found: Found<RequestStatus>) {
    match found {
        Ok(Some(status)) => put_status(rt, text, status),
        Ok(None) => put_word(rt, text, "none"),
        Err(fault) => put_fault(rt, text, fault),
    }
}

/// The word for a kind.
fn kind_word(kind: Kind) -> &'static str {
    match kind {
        Kind::Vendor => "Vendor",
        Kind::Module => "Module",
        Kind::Environment => "Environment",
        Kind::Certification => "Certification",
    }
}

/// Writes what a request asks for.
fn put_purpose(rt: &impl Abort, text: &mut String, purpose: RequestPurpose) {
    match purpose {
        RequestPurpose::Registration(kind) => put_word(rt, text, kind_word(kind)),
        RequestPurpose::Certification(named) => {
            put_number(rt, text, named.module);
            put_number(rt, text, named.environment);
            put_number(rt, text, named.session);
        }
    }
}

/// Writes what a read tells of a request, if there is one.
fn put_request(rt: &impl Abort, text: &mut String, read: Read, found: Found<RequestSummary>) {
    match (read, found) {
        (Read::Subject, Ok(Some(request))) => put_purpose(rt, text, request.purpose),
        (_, Ok(Some(request))) => put_status(rt, text, request.status),
        (_, Ok(None)) => put_word(rt, text, "none"),
        (_, Err(fault)) => put_fault(rt, text, fault),
    }
}

/// Writes what a read of an account, or of all sets, tells.
fn of_account<T: Tables>(rt: &impl Abort, text: &mut String, tables: &mut T, read: Read, of: Of) {
    match read {
        Read::Account => put_account(rt, text, tables.account(account(rt, of.first))),
        Read::Counts => put_counts(rt, text, tables.counts(account(rt, of.first))),
        Read::Count => {
            let count = tables.count(account(rt, of.first), rows_in(rt, of));
            put_found(rt, text, count.map(Some));
        }
        Read::Sessions => {
            let listed = tables.sessions(account(rt, of.first), of.second, of.third);
            put_sessions(rt, text, listed);
        }
        Read::Vendors => {
            let listed = tables.objects(Kind::Vendor, 7, of.first, of.second);
            put_objects(rt, text, listed);
        }
        Read::Requests => put_requests(rt, text, tables.requests(7, of.first, of.second)),
        _ => put_found(rt, text, tables.greatest_epoch()),
    }
}

/// Writes what a read of a session or of a set tells.
fn of_session<T: Tables>(rt: &impl Abort, text: &mut String, tables: &mut T, read: Read, of: Of) {
    match read {
        Read::Set => put_set(rt, text, tables.set(of.first)),
        Read::Algorithm => put_algorithm(rt, text, tables.capability(of.first)),
        Read::Verdicts => put_verdicts(rt, text, tables.verdicts(of.first)),
        Read::SetsOf => put_sets(rt, text, tables.sets_of(of.first)),
        Read::ReviewersOf => put_accounts(rt, text, tables.reviewers_of(of.first)),
        Read::Reviewer => {
            let is_reviewer = tables.is_reviewer(of.first, account(rt, of.second));
            put_reviewer(rt, text, is_reviewer);
        }
        _ => put_session(rt, text, read, tables.session(of.first)),
    }
}

/// Writes what a read of an object or of a request tells.
fn of_registry<T: Tables>(rt: &impl Abort, text: &mut String, tables: &mut T, read: Read, of: Of) {
    match read {
        Read::Owner => put_owner(rt, text, tables.owner(kind_in(rt, of), of.first)),
        Read::Object => {
            let found = tables.object(kind_in(rt, of), of.first);
            put_object_row(rt, text, read, found);
        }
        Read::VendorOf => {
            let found = tables.object(Kind::Module, of.first);
            put_object_row(rt, text, read, found);
        }
        Read::Decision => put_decision(rt, text, tables.request_status(of.first)),
        _ => put_request(rt, text, read, tables.request(of.first)),
    }
}

/// Writes what a read tells, or the word for a fault.
pub(crate) fn tells<T: Tables>(
    rt: &impl Abort,
    text: &mut String,
    tables: &mut T,
    read: Read,
    of: Of,
) {
    match read {
        Read::Account
        | Read::Counts
        | Read::Count
        | Read::Sessions
        | Read::Vendors
        | Read::Requests
        | Read::GreatestEpoch => of_account(rt, text, tables, read, of),
        Read::Owner
        | Read::Object
        | Read::VendorOf
        | Read::Status
        | Read::Decision
        | Read::Subject => of_registry(rt, text, tables, read, of),
        _ => of_session(rt, text, tables, read, of),
    }
}
