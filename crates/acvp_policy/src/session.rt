//! The rules on a session: how it must stand for each action.

ghost use Rattle.std.specs.Prelude.{◌≡◌, nat_lt, ◌+◌};
ghost use Rattle.acvp_token.specs.Conditions.{judged};
ghost use Rattle.acvp_policy.specs.declared.action.Action.TheVariants as action;
ghost use Rattle.acvp_policy.specs.Policy.{resource_conditions};
ghost use Rattle.acvp_policy.specs.Conditions.{is_frozen, session_life};

use crate::caller::check;
use crate::facts::{CertificationStatus, Facts, SessionFacts, Subject};
use crate::rule::Rule;

/// The seconds from a session's creation to its end.
pub const SESSION_LIFE: u64 = 2_592_000;

/// Whether a session is there, to be read, or to have its sets or reviewers listed.
pub fn session_found(facts: &Facts) -> Result<(), Rule>
    ensures { result ≡ judged (resource_conditions action.ReadSession facts.now) tt }
{
    let Subject::Session(on) = facts.subject else {
        return Err(Rule::NoResource);
    };
    check(on.found.is_some(), Rule::NoResource)
}

/// Whether a session is there and not cancelled, to have its results read or a reviewer added.
pub fn live_session_found(facts: &Facts) -> Result<(), Rule>
    ensures { result ≡ judged (resource_conditions action.SessionResults facts.now) tt }
{
    let Subject::Session(on) = facts.subject else {
        return Err(Rule::NoResource);
    };
    let Some(session) = on.found else {
        return Err(Rule::NoResource);
    };
    check(!session.cancelled, Rule::SessionCancelled)
}

/// Whether a session's reviewer may be removed.
pub fn reviewer_removal_allowed(facts: &Facts) -> Result<(), Rule>
    ensures { result ≡ judged (resource_conditions action.RemoveReviewer facts.now) tt }
{
    let Subject::Reviewer(on) = facts.subject else {
        return Err(Rule::NoResource);
    };
    let Some(session) = on.found else {
        return Err(Rule::NoResource);
    };
    check(!session.cancelled, Rule::SessionCancelled)
}

/// Whether a session may be cancelled.
pub fn cancel_session_allowed(facts: &Facts) -> Result<(), Rule>
    ensures { result ≡ judged (resource_conditions action.CancelSession facts.now) tt }
{
    let Subject::Session(on) = facts.subject else {
        return Err(Rule::NoResource);
    };
    let Some(session) = on.found else {
        return Err(Rule::NoResource);
    };
    check(!session.cancelled, Rule::SessionCancelled)?;
    check(!frozen(session), Rule::SessionFrozen)
}

/// Whether a session may be sent for certification.
pub fn certification_allowed(facts: &Facts) -> Result<(), Rule>
    ensures { result ≡ judged (resource_conditions action.Certify facts.now) tt }
{
    let Subject::Session(on) = facts.subject else {
        return Err(Rule::NoResource);
    };
    let Some(session) = on.found else {
        return Err(Rule::NoResource);
    };
    check(!session.cancelled, Rule::SessionCancelled)?;
    check(session_lasts(session, facts.moment), Rule::SessionExpired)?;
    check(!frozen(session), Rule::SessionFrozen)?;
    check(!session.sample, Rule::SampleNotCertifiable)?;
    check(session.passed, Rule::NotPassed)
}

/// Whether the moment is before the session's end; before its creation it is, too.
pub fn session_lasts(session: SessionFacts, moment: u64) -> bool
    ensures { result ≡ nat_lt moment (session.created + session_life) }
{
    moment.saturating_sub(session.created) < SESSION_LIFE
}

/// Whether the session's certification is asked for or given.
pub fn frozen(session: SessionFacts) -> bool
    ensures { result ≡ is_frozen session.certification }
{
    match session.certification {
        None | Some(CertificationStatus::Rejected) => false,
        Some(CertificationStatus::Initial | CertificationStatus::Approved) => true,
    }
}
