//! What is given to who reads a test session or its lists, or cancels it.

ghost use Rattle.std.specs.Prelude.{◌≡◌, ◌⊎◌, ◌<◌, map, Some, None, IfOk, IfErr};
ghost use Rattle.acvp_json.specs.Session.{session_data, session_results_data};
ghost use Rattle.acvp_mac.specs.Conditions.{first_broken};
ghost use Rattle.acvp_desk.specs.Answer.{end_of_moments, IsReply};
ghost use Rattle.acvp_desk.specs.OwnConditions.{session_place_conditions};
ghost use Rattle.acvp_desk.specs.Replies.{disposition_at, result_shown, session_change, session_reply, session_shown};
ghost use Rattle.acvp_desk.specs.Replies.{session_status};

use crate::ask::END_OF_MOMENTS;
use crate::draft::{Draft, told};
use crate::found::{SessionPlace, SetOutcome};
use crate::reviewers::draft_added;
use acvp_answers::Disposition;
use acvp_json::{Created, ReplyObject, Session, SessionStatus, SetResult};
use acvp_policy::{CertificationStatus, Rule, SET_LIFE, SessionFacts};
use acvp_tables::Change;
use std::alloc::{AllocError, Global};

/// How a session stands: cancelled, or as its last certification request stands, or open.
pub(crate) fn session_status(
    cancelled: bool,
    certification: Option<CertificationStatus>,
) -> SessionStatus
    ensures { result ≡ session_status cancelled certification }
{
    match certification {
        _ if cancelled => SessionStatus::Cancelled,
        Some(CertificationStatus::Initial) => SessionStatus::Initial,
        Some(CertificationStatus::Approved) => SessionStatus::Approved,
        None | Some(CertificationStatus::Rejected) => SessionStatus::Open,
    }
}

/// What is shown of a session. A row of a session that was created at a moment that isn't served stands for nothing.
fn session_shown(number: u64, facts: &SessionFacts) -> Result<Session, Rule>
    ensures shown { IfOk result (λ session. session ≡ session_shown number facts.now) }
    ensures denied { IfErr result (λ rule. rule ≡ Rule.Unavailable) }
{
    if facts.created >= END_OF_MOMENTS {
        return Err(Rule::Unavailable);
    }
    Ok(Session {
        number,
        created: Created::at(facts.created),
        sample: facts.sample,
        status: session_status(facts.cancelled, facts.certification),
    })
}

/// What is given to who reads a session.
#[tactic(auto, unfolding(acvp_json::specs::ReplyData::reply_data))]
fn draft_read(alloc: Global, number: u64, facts: &SessionFacts, sets: &[u64]) -> Result<Draft, Rule>
    ensures reply { IfOk result
        (λ draft. IsReply draft.reply.items
        (Some (session_data (session_shown number facts.now) facts.now.passed sets.now))) }
    ensures change { IfOk result (λ draft. draft.change ≡ None) }
    ensures denied { IfErr result (λ rule. rule ≡ Rule.Unavailable) }
{
    let session = session_shown(number, facts)?;
    let object = ReplyObject::ReadSession {
        session,
        passed: facts.passed,
        sets,
    };
    told(alloc, &object, None)
}

/// What a vector set comes to at a moment, by the creation of its session, which is so early that it ends before the
/// end of all numbers.
pub(crate) fn disposition_at(
    moment: u64,
    created: u64,
    disposition: Option<Disposition>,
) -> Disposition
    requires { created < end_of_moments }
    ensures { result ≡ disposition_at moment created disposition }
{
    match disposition {
        Some(disposition) => disposition,
        None if moment >= created + SET_LIFE => Disposition::Expired,
        None => Disposition::Unreceived,
    }
}

/// What each vector set comes to at a moment.
fn results_at(
    alloc: Global,
    moment: u64,
    facts: &SessionFacts,
    outcomes: &[SetOutcome],
) -> Result<Vec<SetResult>, AllocError>
    requires { facts.now.created < end_of_moments }
    ensures { IfOk result (λ results. results.items ≡ map (result_shown moment facts.now) outcomes.now) }
{
    let mut results = Vec::with_capacity(alloc, outcomes.len())?;
    for outcome in outcomes {
        let disposition = disposition_at(moment, facts.created, outcome.disposition);
        results.push(SetResult {
            vs: outcome.vs,
            disposition,
        })?;
    }
    Ok(results)
}

/// What is given to who reads the results of a session.
#[tactic(auto, unfolding(acvp_json::specs::ReplyData::reply_data))]
fn draft_results(
    alloc: Global,
    moment: u64,
    facts: &SessionFacts,
    outcomes: &[SetOutcome],
) -> Result<Draft, Rule>
    ensures reply { IfOk result
        (λ draft. IsReply draft.reply.items
        (Some (session_results_data facts.now.passed (map (result_shown moment facts.now) outcomes.now)))) }
    ensures change { IfOk result (λ draft. draft.change ≡ None) }
    ensures denied { IfErr result (λ rule. rule ≡ Rule.Unavailable) }
{
    if facts.created >= END_OF_MOMENTS {
        return Err(Rule::Unavailable);
    }
    let Ok(results) = results_at(alloc, moment, facts, outcomes) else {
        return Err(Rule::Unavailable);
    };
    let object = ReplyObject::SessionResults {
        passed: facts.passed,
        sets: &results,
    };
    told(alloc, &object, None)
}

/// What is given on a session that stands so.
#[tactic(auto, unfolding(acvp_json::specs::ReplyData::reply_data))]
pub(crate) fn draft_session(
    alloc: Global,
    moment: u64,
    number: u64,
    body: &[u8],
    it: &SessionPlace,
    facts: &SessionFacts,
) -> Result<Draft, Rule>
    ensures held { IfOk result (λ _. first_broken (session_place_conditions body.now it.now) ≡ None) }
    ensures reply { IfOk result
        (λ draft. IsReply draft.reply.items (session_reply moment number body.now it.now facts.now)) }
    ensures change { IfOk result (λ draft. draft.change ≡ session_change number body.now it.now) }
    ensures denied { IfErr result (λ rule. (rule ≡ Rule.Unavailable)
        ⊎ (first_broken (session_place_conditions body.now it.now) ≡ Some rule)) }
{
    match it {
        SessionPlace::Read(sets) => draft_read(alloc, number, facts, &sets.numbers),
        SessionPlace::Cancel => {
            let cancelled = Some(Change::CancelSession(number));
            told(
                alloc,
                &ReplyObject::CancelSession { session: number },
                cancelled,
            )
        }
        SessionPlace::Results(outcomes) => draft_results(alloc, moment, facts, &outcomes.sets),
        SessionPlace::ListSets(sets) => {
            let sets = &sets.numbers;
            told(alloc, &ReplyObject::ListSets { sets }, None)
        }
        SessionPlace::ListReviewers(reviewers) => {
            let accounts = &reviewers.numbers;
            told(alloc, &ReplyObject::Reviewers { accounts }, None)
        }
        SessionPlace::AddReviewer(reviewers) => {
            draft_added(alloc, number, body, &reviewers.numbers)
        }
    }
}
