//! What is given to who cancels a vector set.

ghost use Rattle.std.specs.Prelude.{◌≡◌, ◌&&◌, Some, IfOk, IfErr, codes, filter, length};
ghost use Rattle.acvp_json.specs.Session.{outcome_data};
ghost use Rattle.acvp_json.specs.Urls.{set_url};
ghost use Rattle.acvp_tables.specs.declared.change.Change.TheVariants as change;
ghost use Rattle.acvp_desk.specs.Answer.{IsReply};
ghost use Rattle.acvp_desk.specs.Replies.{cancelled_set, outcome_passed, is_other};

use crate::draft::{Draft, told};
use crate::found::SetOutcome;
use acvp_answers::Disposition;
use acvp_json::ReplyObject;
use acvp_policy::Rule;
use acvp_tables::{CancelledSet, Change};
use std::alloc::Global;

fn outcome_passed(set: &SetOutcome) -> bool
    ensures { result ≡ outcome_passed set.now }
{
    set.disposition == Some(Disposition::Passed)
}

/// How many vector sets there are beside one.
fn others(sets: &[SetOutcome], number: u64) -> usize
    ensures { result ≡ length (filter (is_other number) sets.now) }
{
    sets.iter().filter(|set| set.vs != number).count()
}

/// How many of these have passed.
fn others_passed(sets: &[SetOutcome], number: u64) -> usize
    ensures { result ≡ length (filter (λ set. is_other number set && outcome_passed set) sets.now) }
{
    sets.iter()
        .filter(|set| set.vs != number && outcome_passed(set))
        .count()
}

/// What is given to who cancels a vector set, by those of its session that aren't cancelled.
#[tactic(auto, unfolding(acvp_json::specs::ReplyData::reply_data))]
pub(crate) fn draft_cancelled(
    alloc: Global,
    session: u64,
    set: u64,
    sets: &[SetOutcome],
) -> Result<Draft, Rule>
    ensures reply { IfOk result
        (λ draft. IsReply draft.reply.items (Some (outcome_data (codes "cancelled") (set_url set)))) }
    ensures change { IfOk result
        (λ draft. draft.change ≡ Some (change.CancelSet (cancelled_set session set sets.now))) }
    ensures denied { IfErr result (λ rule. rule ≡ Rule.Unavailable) }
{
    let cancelled = CancelledSet {
        session,
        set,
        live: others(sets, set) as u64,
        passed: others_passed(sets, set) as u64,
    };
    told(
        alloc,
        &ReplyObject::CancelSet { vs: set },
        Some(Change::CancelSet(cancelled)),
    )
}
