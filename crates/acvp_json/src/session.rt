//! The objects of a test session.
ghost use Rattle.std.specs.Prelude.{◌≡◌, IfOk, string_bytes};
ghost use Rattle.serde_json.specs.Data.{string};
ghost use Rattle.serde_json.specs.View.{view};
ghost use Rattle.acvp_json.specs.Session.{session_word, session_row_data, session_data, new_session_data};
ghost use Rattle.acvp_json.specs.Session.{outcome_data, sets_data, set_result_data, session_results_data};
ghost use Rattle.acvp_json.specs.Urls.{set_url};

use crate::array::{Shows, array};
use crate::object::object;
use crate::set_results::disposition_word;
use crate::time::Created;
use crate::urls::{session_url, set_url};
use acvp_answers::Disposition;
use serde_json::Value;
use std::alloc::{AllocError, Global};

/// Where a test session stands.
#[derive(Clone, Copy)]
pub enum SessionStatus {
    Open,
    /// Its last request for certification waits.
    Initial,
    /// Its last request for certification was approved.
    Approved,
    Cancelled,
}

/// A test session.
#[derive(Clone, Copy)]
pub struct Session {
    pub number: u64,
    pub created: Created,
    pub sample: bool,
    pub status: SessionStatus,
}

/// What a vector set of a session comes to.
#[derive(Clone, Copy)]
pub struct SetResult {
    /// The number of the vector set.
    pub vs: u64,

    pub disposition: Disposition,
}

/// The word for where a session stands.
fn session_word(status: SessionStatus) -> &'static str
    ensures { result.now ≡ session_word status }
{
    match status {
        SessionStatus::Open => "open",
        SessionStatus::Initial => "initial",
        SessionStatus::Approved => "approved",
        SessionStatus::Cancelled => "cancelled",
    }
}

/// The URLs of vector sets.
struct SetUrls;

impl Shows<u64> for SetUrls {
    ghost data_of = { λ _ vs. string (set_url vs) };

    fn value(&self, alloc: Global, vs: &u64) -> Result<Value, AllocError> {
        Ok(Value::String(set_url(alloc, *vs)?))
    }
}

/// The sessions of a list.
pub(crate) struct Sessions;

impl Shows<Session> for Sessions {
    ghost data_of = { λ _ session. session_row_data session };

    fn value(&self, alloc: Global, session: &Session) -> Result<Value, AllocError> {
        let created = session.created.created_on(alloc)?;
        let expires = session.created.expires_on(alloc)?;
        let url = session_url(alloc, session.number)?;
        object(
            alloc,
            &[("status", session_word(session.status))],
            &["createdOn", "expiresOn", "isSample", "url"],
            [
                Value::String(created),
                Value::String(expires),
                Value::Bool(session.sample),
                Value::String(url),
            ],
        )
    }
}

/// A session, whether it has passed, and its vector sets.
pub(crate) fn session_value(
    alloc: Global,
    session: Session,
    passed: bool,
    sets: &[u64],
) -> Result<Value, AllocError>
    ensures { IfOk result (λ value. view value ≡ session_data session passed sets.now) }
{
    let created = session.created.created_on(alloc)?;
    let expires = session.created.expires_on(alloc)?;
    let url = session_url(alloc, session.number)?;
    let sets = array(alloc, &SetUrls, sets)?;
    object(
        alloc,
        &[("status", session_word(session.status))],
        &[
            "createdOn",
            "expiresOn",
            "isSample",
            "passed",
            "url",
            "vectorSetUrls",
        ],
        [
            Value::String(created),
            Value::String(expires),
            Value::Bool(session.sample),
            Value::Bool(passed),
            Value::String(url),
            sets,
        ],
    )
}

/// A new session, a token that is bound to it, and its vector sets.
pub(crate) fn new_session_value(
    alloc: Global,
    token: &str,
    number: u64,
    created: Created,
    sets: &[u64],
) -> Result<Value, AllocError>
    ensures { IfOk result (λ value. view value ≡ new_session_data token.now number created sets.now) }
{
    let created_on = created.created_on(alloc)?;
    let expires = created.expires_on(alloc)?;
    let url = session_url(alloc, number)?;
    let sets = array(alloc, &SetUrls, sets)?;
    object(
        alloc,
        &[("accessToken", token)],
        &["createdOn", "expiresOn", "url", "vectorSetUrls"],
        [
            Value::String(created_on),
            Value::String(expires),
            Value::String(url),
            sets,
        ],
    )
}

/// What became of a session, a vector set, its answers or a request, and its URL.
pub(crate) fn outcome_value(alloc: Global, word: &str, url: String) -> Result<Value, AllocError>
    ensures { IfOk result (λ value. view value ≡ outcome_data word.now (string_bytes url)) }
{
    object(alloc, &[("status", word)], &["url"], [Value::String(url)])
}

/// The vector sets of a session.
pub(crate) fn sets_value(alloc: Global, sets: &[u64]) -> Result<Value, AllocError>
    ensures { IfOk result (λ value. view value ≡ sets_data sets.now) }
{
    let sets = array(alloc, &SetUrls, sets)?;
    object(alloc, &[], &["vectorSetUrls"], [sets])
}

/// What each vector set of a session comes to.
struct SetResults;

impl Shows<SetResult> for SetResults {
    ghost data_of = { λ _ set. set_result_data set };

    fn value(&self, alloc: Global, set: &SetResult) -> Result<Value, AllocError> {
        let url = set_url(alloc, set.vs)?;
        object(
            alloc,
            &[("status", disposition_word(set.disposition))],
            &["vectorSetUrl"],
            [Value::String(url)],
        )
    }
}

/// Whether a session has passed, and what each of its vector sets comes to.
pub(crate) fn session_results_value(
    alloc: Global,
    passed: bool,
    sets: &[SetResult],
) -> Result<Value, AllocError>
    ensures { IfOk result (λ value. view value ≡ session_results_data passed sets.now) }
{
    let results = array(alloc, &SetResults, sets)?;
    object(
        alloc,
        &[],
        &["passed", "results"],
        [Value::Bool(passed), results],
    )
}
