//! The objects of accepted replies, and their bytes.
ghost use Rattle.std.specs.Prelude.{◌≡◌, IfOk};
ghost use Rattle.serde_json.specs.View.{view};
ghost use Rattle.acvp_json.specs.Written.{body_of, enveloped};
ghost use Rattle.acvp_json.specs.ReplyData.{token_data, reply_data};

use crate::account::{account_value, reviewers_value};
use crate::algorithms::{Algorithms, algorithms_value};
use crate::array::Shows;
use crate::expected::expected_value;
use crate::object::object;
use crate::page::{Page, page_value};
use crate::registered::{Objects, Registered, Requests};
use crate::session::{
    Session, Sessions, SetResult, new_session_value, outcome_value, session_results_value,
    session_value, sets_value,
};
use crate::set_results::set_results_value;
use crate::time::Created;
use crate::urls::{list_path, results_url, session_url, set_url};
use crate::vector_set::vector_set_value;
use acvp_answers::{Answers, Disposition, Verdict};
use acvp_caps::Algorithm;
use acvp_gen::Prompts;
use acvp_registry::{Counts, Kind, PendingRequest};
use serde_json::Value;
use std::alloc::{AllocError, Global};

/// What an accepted request is answered, one variant for each kind of answer. It borrows what it shows.
#[derive(Clone, Copy)]
pub enum ReplyObject<'a> {
    /// A new token.
    Login {
        token: &'a str,
    },
    /// An account, and how many rows it has of each kind.
    ReadAccount {
        account: u16,
        counts: Counts,
    },
    /// All algorithms that can be registered, in the order of their numbers.
    ListAlgorithms,
    ReadAlgorithm {
        algorithm: Algorithm,
    },
    /// A page of an account's sessions, of which there are so many.
    ListSessions {
        page: Page,
        total: u64,
        sessions: &'a [Session],
    },
    /// A new session, a token that is bound to it, and the numbers of its vector sets.
    NewSession {
        token: &'a str,
        number: u64,
        created: Created,
        sets: &'a [u64],
    },
    /// A session, whether it has passed, and the numbers of its vector sets.
    ReadSession {
        session: Session,
        passed: bool,
        sets: &'a [u64],
    },
    /// A session of this number is cancelled.
    CancelSession {
        session: u64,
    },
    /// Whether a session has passed, and what each of its vector sets comes to.
    SessionResults {
        passed: bool,
        sets: &'a [SetResult],
    },
    /// The numbers of a session's vector sets.
    ListSets {
        sets: &'a [u64],
    },
    /// A vector set, and whether its session is a sample.
    ReadSet {
        sample: bool,
        prompts: &'a Prompts,
    },
    /// A vector set of this number is cancelled.
    CancelSet {
        vs: u64,
    },
    /// What a vector set of this number and each of its tests come to, the tests from 1 on.
    SetResults {
        vs: u64,
        disposition: Disposition,
        verdicts: &'a [Verdict],
    },
    /// The answers to a vector set of this number are kept.
    Received {
        vs: u64,
    },
    /// A vector set's tests, and the standard's answers to them.
    Expected {
        prompts: &'a Prompts,
        standard: &'a Answers,
    },
    /// A vendor, a module or an operational environment.
    ReadObject {
        object: Registered<'a>,
    },
    /// A page of an account's vendors, modules or operational environments, of which there are so many.
    ListObjects {
        kind: Kind,
        page: Page,
        total: u64,
        objects: &'a [Registered<'a>],
    },
    /// A request in its state.
    Request {
        request: PendingRequest,
    },
    /// A page of an account's requests, of which there are so many.
    ListRequests {
        page: Page,
        total: u64,
        requests: &'a [PendingRequest],
    },
    /// The accounts that review a session.
    Reviewers {
        accounts: &'a [u16],
    },
}

/// The object of a token.
fn token_value(alloc: Global, token: &str) -> Result<Value, AllocError>
    ensures { IfOk result (λ value. view value ≡ token_data token.now) }
{
    object(alloc, &[("accessToken", token)], &[], [])
}

/// The object of a reply.
#[tactic(auto, unfolding(crate::specs::ReplyData::reply_data))]
fn object_value<'a>(alloc: Global, reply: &'a ReplyObject<'a>) -> Result<Value, AllocError>
    ensures { IfOk result (λ value. view value ≡ reply_data reply.now) }
{
    match reply {
        ReplyObject::Login { token } => token_value(alloc, token),
        ReplyObject::ReadAccount { account, counts } => account_value(alloc, *account, *counts),
        ReplyObject::ListAlgorithms => algorithms_value(alloc),
        ReplyObject::ReadAlgorithm { algorithm } => Algorithms.value(alloc, algorithm),
        ReplyObject::ListSessions {
            page,
            total,
            sessions,
        } => page_value(
            alloc,
            &Sessions,
            "/acvp/v1/testSessions",
            *page,
            *total,
            sessions,
        ),
        ReplyObject::NewSession {
            token,
            number,
            created,
            sets,
        } => new_session_value(alloc, token, *number, *created, sets),
        ReplyObject::ReadSession {
            session,
            passed,
            sets,
        } => session_value(alloc, *session, *passed, sets),
        ReplyObject::CancelSession { session } => {
            outcome_value(alloc, "cancelled", session_url(alloc, *session)?)
        }
        ReplyObject::SessionResults { passed, sets } => session_results_value(alloc, *passed, sets),
        ReplyObject::ListSets { sets } => sets_value(alloc, sets),
        ReplyObject::ReadSet { sample, prompts } => vector_set_value(alloc, *sample, prompts),
        ReplyObject::CancelSet { vs } => outcome_value(alloc, "cancelled", set_url(alloc, *vs)?),
        ReplyObject::SetResults {
            vs,
            disposition,
            verdicts,
        } => set_results_value(alloc, *vs, *disposition, verdicts),
        ReplyObject::Received { vs } => outcome_value(alloc, "received", results_url(alloc, *vs)?),
        ReplyObject::Expected { prompts, standard } => expected_value(alloc, prompts, standard),
        ReplyObject::ReadObject { object } => Objects.value(alloc, object),
        ReplyObject::ListObjects {
            kind,
            page,
            total,
            objects,
        } => page_value(alloc, &Objects, list_path(*kind), *page, *total, objects),
        ReplyObject::Request { request } => Requests.value(alloc, request),
        ReplyObject::ListRequests {
            page,
            total,
            requests,
        } => page_value(
            alloc,
            &Requests,
            "/acvp/v1/requests",
            *page,
            *total,
            requests,
        ),
        ReplyObject::Reviewers { accounts } => reviewers_value(alloc, accounts),
    }
}

/// An object in the envelope of every body.
fn enveloped(alloc: Global, shown: Value) -> Result<Value, AllocError>
    ensures { IfOk result (λ value. view value ≡ enveloped (view shown)) }
{
    let version = object(alloc, &[("acvVersion", "1.0")], &[], [])?;
    Ok(Value::Array(vec![in alloc; version, shown]?))
}

/// The body of a reply: the version and the object, as compact JSON.
pub fn write_reply<'a>(alloc: Global, reply: &'a ReplyObject<'a>) -> Result<Vec<u8>, AllocError>
    ensures { IfOk result (λ bytes. bytes.items ≡ body_of (reply_data reply.now)) }
{
    let object = object_value(alloc, reply)?;
    let value = enveloped(alloc, object)?;
    let text = value.to_string(alloc)?;
    Ok(text.into_bytes())
}
