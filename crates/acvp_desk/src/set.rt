//! What is given on a vector set: its prompts, its expected answers, its results, or that answers to it are kept.

ghost use Rattle.std.specs.Prelude.{◌≡◌, ◌⊎◌, ◌++◌, [], map, Some, None, IfOk, IfErr};
ghost use Rattle.acvp_answers.specs.Standards.{standard_of};
ghost use Rattle.acvp_answers.specs.Verdicts.{verdicts_of};
ghost use Rattle.acvp_answers.specs.declared.verdict.Verdict.TheVariants as verdict;
ghost use Rattle.acvp_json.specs.VectorSet.{vector_set_data};
ghost use Rattle.acvp_mac.specs.Conditions.{first_broken};
ghost use Rattle.acvp_desk.specs.Answer.{IsReply};
ghost use Rattle.acvp_desk.specs.Cached.{HasItsReply, HasItsStandard, StaysTrue};
ghost use Rattle.acvp_desk.specs.OwnConditions.{set_place_conditions};
ghost use Rattle.acvp_desk.specs.Replies.{prompts_reply, set_change, set_reply, set_results_reply, source_reply};

use crate::ask::END_OF_MOMENTS;
use crate::cache::Cache;
use crate::draft::{Draft, told, told_again};
use crate::entry::Entry;
use crate::found::{ByPrompts, SetPlace, SetSource};
use crate::session::disposition_at;
use crate::submit::draft_answers;
use acvp_answers::{Disposition, Verdict, disposition};
use acvp_gen::{Group, Prompts};
use acvp_json::ReplyObject;
use acvp_policy::{Rule, SetFacts};
use std::alloc::{AllocError, Global};

/// Adds that each test of a group isn't answered.
fn add_missing(verdicts: &mut Vec<Verdict>, group: &Group) -> Result<(), AllocError>
    ensures { IfOk result (λ _. verdicts.new.items ≡ verdicts.old.items ++ map (λ _. verdict.Missing) group.now.tests) }
{
    for _test in group.tests() {
        verdicts.push(Verdict::Missing)?;
    }
    Ok(())
}

/// The verdicts where no test is answered.
fn all_missing(alloc: Global, prompts: &Prompts) -> Result<Vec<Verdict>, AllocError>
    ensures { IfOk result (λ verdicts. verdicts.items ≡ verdicts_of (standard_of prompts.now) []) }
{
    let mut verdicts = Vec::new(alloc);
    for group in prompts.groups() {
        add_missing(&mut verdicts, group)?;
    }
    Ok(verdicts)
}

/// What is given to who reads the results of a vector set.
#[tactic(auto, unfolding(acvp_json::specs::ReplyData::reply_data))]
fn told_results(
    alloc: Global,
    moment: u64,
    number: u64,
    facts: &SetFacts,
    disposition: Option<Disposition>,
    verdicts: &[Verdict],
) -> Result<Draft, Rule>
    ensures reply { IfOk result (λ draft. IsReply draft.reply.items
        (Some (set_results_reply moment number facts.now disposition verdicts.now))) }
    ensures change { IfOk result (λ draft. draft.change ≡ None) }
    ensures denied { IfErr result (λ rule. rule ≡ Rule.Unavailable) }
{
    let created = facts.session.created;
    if created >= END_OF_MOMENTS {
        return Err(Rule::Unavailable);
    }
    let object = ReplyObject::SetResults {
        vs: number,
        disposition: disposition_at(moment, created, disposition),
        verdicts,
    };
    told(alloc, &object, None)
}

/// The prompts of a vector set. The reply that was written last is kept.
#[tactic(auto, unfolding(acvp_json::specs::ReplyData::reply_data))]
fn told_prompts(alloc: Global, sample: bool, entry: &mut Entry) -> Result<Draft, Rule>
    requires { HasItsReply entry.old }
    ensures reply { IfOk result
        (λ draft. IsReply draft.reply.items (Some (vector_set_data sample entry.old.prompts))) }
    ensures change { IfOk result (λ draft. draft.change ≡ None) }
    ensures denied { IfErr result (λ rule. rule ≡ Rule.Unavailable) }
    ensures stays { StaysTrue entry.old entry.new }
{
    if let Some(kept) = entry.reply(sample) {
        return told_again(kept);
    }
    let object = ReplyObject::ReadSet {
        sample,
        prompts: entry.prompts(),
    };
    let draft = told(alloc, &object, None)?;
    entry.keep_reply(sample, &draft.reply);
    Ok(draft)
}

/// What is given by the prompts of a vector set.
#[tactic(auto, unfolding(acvp_json::specs::ReplyData::reply_data))]
fn told_of(
    alloc: Global,
    moment: u64,
    number: u64,
    facts: &SetFacts,
    it: ByPrompts,
    entry: &mut Entry,
) -> Result<Draft, Rule>
    requires standard { HasItsStandard entry.old }
    requires reply { HasItsReply entry.old }
    ensures reply { IfOk result
        (λ draft. IsReply draft.reply.items (Some (prompts_reply moment number facts.now it entry.old.prompts))) }
    ensures change { IfOk result (λ draft. draft.change ≡ None) }
    ensures denied { IfErr result (λ rule. rule ≡ Rule.Unavailable) }
    ensures stays { StaysTrue entry.old entry.new }
{
    match it {
        ByPrompts::Prompts => told_prompts(alloc, facts.session.sample, entry),
        ByPrompts::Expected => {
            if entry.complete(alloc).is_err() {
                return Err(Rule::Unavailable);
            }
            let object = ReplyObject::Expected {
                prompts: entry.prompts(),
                standard: entry.standard(),
            };
            told(alloc, &object, None)
        }
        ByPrompts::Results => {
            let Ok(verdicts) = all_missing(alloc, entry.prompts()) else {
                return Err(Rule::Unavailable);
            };
            told_results(alloc, moment, number, facts, None, &verdicts)
        }
    }
}

/// What is given by the prompts of a vector set, which are taken out of the cache, or made where they aren't there, and
/// put in again. A row of an epoch without a seed stands for nothing.
fn draft_made(
    alloc: Global,
    cache: &mut Cache,
    moment: u64,
    number: u64,
    facts: &SetFacts,
    it: ByPrompts,
    source: SetSource,
) -> Result<Draft, Rule>
    ensures reply { IfOk result
        (λ draft. IsReply draft.reply.items (source_reply cache.old.seeds moment number facts.now it source)) }
    ensures change { IfOk result (λ draft. draft.change ≡ None) }
    ensures seeds { cache.new.seeds ≡ cache.old.seeds }
    ensures denied { IfErr result (λ rule. rule ≡ Rule.Unavailable) }
{
    let SetSource { capability, epoch } = source;
    if epoch > cache.seeds().newest() {
        return Err(Rule::Unavailable);
    }
    let Ok(mut entry) = cache.take(alloc, number, capability, epoch) else {
        return Err(Rule::Unavailable);
    };
    let draft = told_of(alloc, moment, number, facts, it, &mut entry);
    cache.keep(number, entry);
    draft
}

/// What is given on a vector set that stands so.
pub(crate) fn draft_set(
    alloc: Global,
    cache: &mut Cache,
    moment: u64,
    session: u64,
    number: u64,
    body: &[u8],
    it: SetPlace,
    facts: &SetFacts,
) -> Result<Draft, Rule>
    ensures held { IfOk result (λ _. first_broken (set_place_conditions cache.old.seeds number body.now it) ≡ None) }
    ensures reply { IfOk result
        (λ draft. IsReply draft.reply.items (set_reply cache.old.seeds moment number it facts.now)) }
    ensures change { IfOk result (λ draft. draft.change ≡ set_change cache.old.seeds session number body.now it) }
    ensures seeds { cache.new.seeds ≡ cache.old.seeds }
    ensures denied { IfErr result (λ rule. (rule ≡ Rule.Unavailable)
        ⊎ (first_broken (set_place_conditions cache.old.seeds number body.now it) ≡ Some rule)) }
{
    match it {
        SetPlace::Made(shown, Some(source)) => {
            draft_made(alloc, cache, moment, number, facts, shown, source)
        }
        SetPlace::Verdicts(found) => {
            let verdicts = &found.verdicts;
            let came_to = disposition(verdicts);
            told_results(alloc, moment, number, facts, Some(came_to), verdicts)
        }
        SetPlace::Submit(Some(submission)) => {
            draft_answers(alloc, cache, session, number, body, submission)
        }
        SetPlace::Resubmit(Some(submission)) => {
            draft_answers(alloc, cache, session, number, body, submission)
        }
        // The row of the set was found, but not its capability: it stands for nothing.
        SetPlace::Made(_, None) | SetPlace::Submit(None) | SetPlace::Resubmit(None) => {
            Err(Rule::Unavailable)
        }
    }
}
