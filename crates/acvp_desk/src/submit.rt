//! What is given to who submits answers to a vector set.

ghost use Rattle.std.specs.Prelude.{◌≡◌, ◌⊎◌, Some, None, option_and_then, IfOk, IfErr, IfSome};
ghost use Rattle.acvp_mac.specs.Conditions.{first_broken};
ghost use Rattle.acvp_policy.specs.Conditions.{is_some_and};
ghost use Rattle.acvp_tables.specs.Counted.{is_passed, one_if};
ghost use Rattle.acvp_desk.specs.Answer.{IsReply};
ghost use Rattle.acvp_desk.specs.Cached.{HasItsStandard, StaysTrue};
ghost use Rattle.acvp_desk.specs.OwnConditions.{prompted_conditions};
ghost use Rattle.acvp_desk.specs.Replies.{prompts_from, received_reply, submission_change};
ghost use Rattle.acvp_desk.specs.Submissions.{answers_conditions, graded_at, kept_answers};

use crate::body::answers_body;
use crate::cache::Cache;
use crate::draft::{Draft, told};
use crate::entry::Entry;
use crate::found::{SetSource, Submission};
use acvp_answers::{Disposition, grade};
use acvp_json::ReplyObject;
use acvp_policy::Rule;
use acvp_tables::{Change, Graded, KeptAnswers};
use std::alloc::Global;

/// How many vector sets have passed, of one whose answers came to this, if it has any.
pub(crate) fn one_if_passed(disposition: Option<Disposition>) -> u64
    ensures { result ≡ one_if (is_some_and disposition is_passed) }
{
    match disposition {
        Some(Disposition::Passed) => 1,
        _ => 0,
    }
}

/// The answers that a body gives, graded; or the rule of the first condition on it that doesn't hold.
fn graded(alloc: Global, body: &[u8], entry: &mut Entry) -> Result<Graded, Rule>
    requires { HasItsStandard entry.old }
    ensures held { IfOk result (λ _. first_broken (answers_conditions entry.old.prompts body.now) ≡ None) }
    ensures graded { IfOk result (λ graded. graded_at body.now entry.old.prompts ≡ Some graded) }
    ensures denied { IfErr result (λ rule. (rule ≡ Rule.Unavailable)
        ⊎ (first_broken (answers_conditions entry.old.prompts body.now) ≡ Some rule)) }
    ensures stays { StaysTrue entry.old entry.new }
{
    let answers = match answers_body(alloc, body, entry.prompts()) {
        Ok(answers) => answers,
        Err(rule) => return Err(rule),
    };
    if entry.complete(alloc).is_err() {
        return Err(Rule::Unavailable);
    }
    let Ok(verdicts) = grade(alloc, entry.standard(), &answers) else {
        return Err(Rule::Unavailable);
    };
    Ok(Graded::new(answers, verdicts))
}

/// What is kept of them, where so many others of the session's sets have passed.
fn kept_answers(session: u64, number: u64, others: u64, graded: Graded) -> Option<KeptAnswers>
    ensures { IfSome result (λ kept. kept ≡ kept_answers session number others graded) }
{
    let passed = others.checked_add(one_if_passed(Some(graded.disposition())))?;
    Some(KeptAnswers {
        session,
        set: number,
        graded,
        passed,
    })
}

/// The answers that a body gives to the vector set of a number, graded. The prompts are taken out of the cache, or made
/// where they aren't there, and put in again. A row of an epoch without a seed stands for nothing.
fn graded_by(
    alloc: Global,
    cache: &mut Cache,
    number: u64,
    body: &[u8],
    source: SetSource,
) -> Result<Graded, Rule>
    ensures held { IfOk result
        (λ _. first_broken (prompted_conditions body.now (prompts_from cache.old.seeds number source)) ≡ None) }
    ensures graded { IfOk result
        (λ graded. option_and_then (graded_at body.now) (prompts_from cache.old.seeds number source) ≡ Some graded) }
    ensures seeds { cache.new.seeds ≡ cache.old.seeds }
    ensures denied { IfErr result (λ rule. (rule ≡ Rule.Unavailable)
        ⊎ (first_broken (prompted_conditions body.now (prompts_from cache.old.seeds number source)) ≡ Some rule)) }
{
    let SetSource { capability, epoch } = source;
    if epoch > cache.seeds().newest() {
        return Err(Rule::Unavailable);
    }
    let Ok(mut entry) = cache.take(alloc, number, capability, epoch) else {
        return Err(Rule::Unavailable);
    };
    let graded = graded(alloc, body, &mut entry);
    cache.keep(number, entry);
    graded
}

/// What is given to who submits answers, or the rule of the first condition on the body that doesn't hold. A row that
/// counts too many sets stands for nothing.
#[tactic(auto, unfolding(acvp_json::specs::ReplyData::reply_data))]
pub(crate) fn draft_answers(
    alloc: Global,
    cache: &mut Cache,
    session: u64,
    number: u64,
    body: &[u8],
    submission: Submission,
) -> Result<Draft, Rule>
    ensures held { IfOk result
        (λ _. first_broken (prompted_conditions body.now (prompts_from cache.old.seeds number submission.source))
        ≡ None) }
    ensures reply { IfOk result
        (λ draft. IsReply draft.reply.items (Some (received_reply number))) }
    ensures change { IfOk result
        (λ draft. draft.change ≡ submission_change cache.old.seeds session number body.now submission) }
    ensures seeds { cache.new.seeds ≡ cache.old.seeds }
    ensures denied { IfErr result (λ rule. (rule ≡ Rule.Unavailable)
        ⊎ (first_broken (prompted_conditions body.now (prompts_from cache.old.seeds number submission.source))
        ≡ Some rule)) }
{
    let Submission { source, others } = submission;
    let graded = match graded_by(alloc, cache, number, body, source) {
        Ok(graded) => graded,
        Err(rule) => return Err(rule),
    };
    let Some(kept) = kept_answers(session, number, others, graded) else {
        return Err(Rule::Unavailable);
    };
    let object = ReplyObject::Received { vs: number };
    told(alloc, &object, Some(Change::KeepAnswers(kept)))
}
