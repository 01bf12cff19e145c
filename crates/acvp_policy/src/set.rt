//! The rules on a vector set: how it and its session must stand for each action.

ghost use Rattle.std.specs.Prelude.{◌≡◌, [], ◌∷◌, nat_lt, ◌+◌, not};
ghost use Rattle.acvp_token.specs.Conditions.{judged};
ghost use Rattle.acvp_policy.specs.declared.action.Action.TheVariants as action;
ghost use Rattle.acvp_policy.specs.Policy.{resource_conditions};
ghost use Rattle.acvp_policy.specs.Conditions.{set_found, is_frozen, session_life, set_life};

use crate::caller::check;
use crate::facts::{Facts, SetFacts, Subject};
use crate::rule::Rule;
use crate::session::{frozen, session_lasts};

/// The seconds from a session's creation to the end of its vector sets.
pub const SET_LIFE: u64 = 604_800;

/// The set that the path names, where it is there.
fn found_set(subject: Subject) -> Option<SetFacts>
    ensures { result ≡ set_found subject }
{
    match subject {
        Subject::Set(on) => on.found,
        _ => None,
    }
}

/// Whether a vector set may be read.
pub fn set_read_allowed(facts: &Facts) -> Result<(), Rule>
    ensures { result ≡ judged (resource_conditions action.ReadSet facts.now) tt }
{
    let Some(set) = found_set(facts.subject) else {
        return Err(Rule::NoResource);
    };
    check(!set.session.cancelled, Rule::SessionCancelled)?;
    check(
        session_lasts(set.session, facts.moment),
        Rule::SessionExpired,
    )?;
    check(!set.cancelled, Rule::SetCancelled)?;
    check(set_lasts(set, facts.moment), Rule::SetExpired)
}

/// Whether a vector set may be cancelled.
pub fn cancel_set_allowed(facts: &Facts) -> Result<(), Rule>
    ensures { result ≡ judged (resource_conditions action.CancelSet facts.now) tt }
{
    let Some(set) = found_set(facts.subject) else {
        return Err(Rule::NoResource);
    };
    check(!set.session.cancelled, Rule::SessionCancelled)?;
    check(!frozen(set.session), Rule::SessionFrozen)?;
    check(!set.cancelled, Rule::SetCancelled)
}

/// Whether a vector set's results may be read.
pub fn set_results_allowed(facts: &Facts) -> Result<(), Rule>
    ensures { result ≡ judged (resource_conditions action.SetResults facts.now) tt }
{
    let Some(set) = found_set(facts.subject) else {
        return Err(Rule::NoResource);
    };
    check(!set.session.cancelled, Rule::SessionCancelled)?;
    check(!set.cancelled, Rule::SetCancelled)
}

/// Whether a vector set's expected answers may be read.
pub fn expected_allowed(facts: &Facts) -> Result<(), Rule>
    ensures { result ≡ judged (resource_conditions action.Expected facts.now) tt }
{
    let Some(set) = found_set(facts.subject) else {
        return Err(Rule::NoResource);
    };
    check(!set.session.cancelled, Rule::SessionCancelled)?;
    check(!set.cancelled, Rule::SetCancelled)?;
    check(set.session.sample, Rule::NotSample)
}

/// Whether answers may be sent for the first time.
pub fn submission_allowed(facts: &Facts) -> Result<(), Rule>
    ensures { result ≡ judged (resource_conditions action.Submit facts.now) tt }
{
    let Some(set) = found_set(facts.subject) else {
        return Err(Rule::NoResource);
    };
    answers_allowed(set, facts.moment, !set.answered, Rule::AlreadySubmitted)
}

/// Whether answers may be sent in the place of earlier ones.
pub fn resubmission_allowed(facts: &Facts) -> Result<(), Rule>
    ensures { result ≡ judged (resource_conditions action.Resubmit facts.now) tt }
{
    let Some(set) = found_set(facts.subject) else {
        return Err(Rule::NoResource);
    };
    answers_allowed(set, facts.moment, set.answered, Rule::NotSubmitted)
}

/// Whether a set and its session are open for answers, and these are in turn, or else the rule that says why they
/// aren't.
fn answers_allowed(set: SetFacts, moment: u64, in_turn: bool, otherwise: Rule) -> Result<(), Rule>
    ensures { result ≡ judged ((not set.session.cancelled, Rule.SessionCancelled)
        ∷ (nat_lt moment (set.session.created + session_life), Rule.SessionExpired)
        ∷ (not (is_frozen set.session.certification), Rule.SessionFrozen)
        ∷ (not set.cancelled, Rule.SetCancelled)
        ∷ (nat_lt moment (set.session.created + set_life), Rule.SetExpired)
        ∷ (in_turn, otherwise)
        ∷ []) tt }
{
    check(!set.session.cancelled, Rule::SessionCancelled)?;
    check(session_lasts(set.session, moment), Rule::SessionExpired)?;
    check(!frozen(set.session), Rule::SessionFrozen)?;
    check(!set.cancelled, Rule::SetCancelled)?;
    check(set_lasts(set, moment), Rule::SetExpired)?;
    check(in_turn, otherwise)
}

/// Whether the moment is before the set's end; before its session's creation it is, too.
fn set_lasts(set: SetFacts, moment: u64) -> bool
    ensures { result ≡ nat_lt moment (set.session.created + set_life) }
{
    moment.saturating_sub(set.session.created) < SET_LIFE
}
