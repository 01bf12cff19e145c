//! The rules on what a path names, and on the findings of a login.

ghost use Rattle.std.specs.Prelude.{◌≡◌, [], ◌∷◌};
ghost use Rattle.acvp_token.specs.Conditions.{judged};
ghost use Rattle.acvp_policy.specs.Policy.{resource_conditions};
ghost use Rattle.acvp_policy.specs.Conditions.{may_renew};

use crate::action::Action;
use crate::caller::check;
use crate::facts::{Facts, Renewal, Subject};
use crate::rule::Rule;
use crate::session::{
    cancel_session_allowed, certification_allowed, live_session_found, reviewer_removal_allowed,
    session_found,
};
use crate::set::{
    cancel_set_allowed, expected_allowed, resubmission_allowed, set_read_allowed,
    set_results_allowed, submission_allowed,
};
use acvp_token::account_of_session;

/// Whether the action may be taken on what its path names, as it was found.
pub fn resource_allows(action: Action, facts: &Facts) -> Result<(), Rule>
    ensures { result ≡ judged (resource_conditions action facts.now) tt }
{
    match action {
        Action::Login => login_allowed(facts),
        Action::ReadAlgorithm => resource_found(matches!(
            facts.subject,
            Subject::Algorithm(1..=12)
        )),
        Action::ReadSession | Action::ListSets | Action::ListReviewers => session_found(facts),
        Action::Certify => certification_allowed(facts),
        Action::CancelSession => cancel_session_allowed(facts),
        Action::SessionResults | Action::AddReviewer => live_session_found(facts),
        Action::RemoveReviewer => reviewer_removal_allowed(facts),
        Action::ReadSet => set_read_allowed(facts),
        Action::CancelSet => cancel_set_allowed(facts),
        Action::SetResults => set_results_allowed(facts),
        Action::Submit => submission_allowed(facts),
        Action::Resubmit => resubmission_allowed(facts),
        Action::Expected => expected_allowed(facts),
        Action::ReadVendor => resource_found(
            matches!(facts.subject, Subject::Vendor(row) if row.found),
        ),
        Action::ReadModule => resource_found(
            matches!(facts.subject, Subject::Module(row) if row.found),
        ),
        Action::ReadEnvironment => resource_found(
            matches!(facts.subject, Subject::Environment(row) if row.found),
        ),
        Action::ReadRequest => resource_found(
            matches!(facts.subject, Subject::Request(row) if row.found),
        ),
        _ => resource_found(matches!(facts.subject, Subject::Account)),
    }
}

/// Whether what the path names is there, and is of the kind that the action is about. The account of an account's own
/// actions is there, so of these it is broken by facts about something else alone.
fn resource_found(found: bool) -> Result<(), Rule>
    ensures { result ≡ judged ((found, Rule.NoResource) ∷ []) tt }
{
    check(found, Rule::NoResource)
}

/// Whether an account may log in with what was found of its code and of the token that it hands in.
fn login_allowed(facts: &Facts) -> Result<(), Rule>
    ensures { result ≡ judged (resource_conditions Action.Login facts.now) tt }
{
    let Subject::Login(login) = facts.subject else {
        return Err(Rule::LoginRefused);
    };
    let Some(user) = login.user else {
        return Err(Rule::LoginRefused);
    };
    check(user.enabled && user.step.is_some(), Rule::LoginRefused)?;
    check(renews(user.account, login.renewal), Rule::RenewalRefused)
}

/// Whether the account may have the claims of the token that it hands in, if any. Of its session the number alone is
/// looked at, and not whether it is there.
fn renews(account: u16, renewal: Renewal) -> bool
    ensures { result ≡ may_renew account renewal }
{
    match renewal {
        Renewal::Unasked => true,
        Renewal::Unreadable => false,
        Renewal::Reads(claims) => {
            claims.account == account
                && match claims.session {
                    None => true,
                    Some(session) => account_of_session(session) == account as u64,
                }
        }
    }
}
