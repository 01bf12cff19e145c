//! Decisions and the grants that they give.

ghost use Rattle.std.specs.Prelude.{◌≡◌, ◌↔◌, ◌⊎◌, ℕ, IsTrue, IfOk, IfErr, None, Err};
ghost use Rattle.acvp_token.specs.Conditions.{first_broken, judged};
ghost use Rattle.acvp_token.specs.SessionNumber.{account_of_session};
ghost use Rattle.acvp_policy.specs.Callers.{AgreeOnCaller};
ghost use Rattle.acvp_policy.specs.Decision.{account_of, decision, granted};
ghost use Rattle.acvp_policy.specs.Granted.{Granted};
ghost use Rattle.acvp_policy.specs.Kinds.{IsOfItsKind, IsOfSession, IsReview};
ghost use Rattle.acvp_policy.specs.Policy.{claims_conditions};
ghost use Rattle.acvp_policy.specs.Scope.{scope_of};
ghost use Rattle.acvp_policy.specs.declared.facts.Facts.{Facts};

use crate::action::Action;
use crate::caller::claims_allow;
use crate::facts::{Facts, Subject, Token};
use crate::found::resource_allows;
use crate::resource::Resource;
use crate::rule::Rule;
use std::marker::Model;

/// Leave for an account to take an action on a resource. Only `decide` and `decide_admitted` give one. It can't be
/// copied, and it must be spent: by `release`, or by the change that it stands for.
pub struct Grant {
    action: Action,
    account: u16,
    resource: Resource,
}

impl Model for Grant {
    ghost use Rattle.acvp_policy.specs.Granted.{Granted};

    ghost Value = { Granted };

    ghost view = { λ g. record { action = g.action; account = g.account; resource = g.resource } };
}

/// Whether the caller may ask for an action, before anything is looked up that the path names. Whatever is found there,
/// a refusal is what `decide` gives.
pub fn admit(action: Action, facts: &Facts) -> Result<(), Rule>
    ensures judged { result ≡ judged (claims_conditions (scope_of action) facts.now) tt }
    ensures refused { IfErr result (λ rule. (found : Facts) → AgreeOnCaller facts.now found
        → decision action found ≡ Err rule) }
    ensures admitted { IfOk result (λ _. (found : Facts) → AgreeOnCaller facts.now found
        → first_broken (claims_conditions (scope_of action) found) ≡ None) }
{
    let scope = action.scope();
    claims_allow(scope, facts)
}

/// Decides whether an action may be taken: the first rule that is broken, or a grant. It asks nothing of its callers,
/// and answers on any facts.
pub fn decide(action: Action, facts: &Facts) -> Result<Grant, Rule>
    ensures decision { result ≡ decision action facts.now }
    ensures grant { IfOk result (λ g. g ≡ granted action facts.now) }
{
    claims_allow(action.scope(), facts)?;
    decide_admitted(action, facts)
}

/// Decides on the same where `admit` has let the caller through, whose rules aren't looked at again.
pub fn decide_admitted(action: Action, facts: &Facts) -> Result<Grant, Rule>
    requires { first_broken (claims_conditions (scope_of action) facts.now) ≡ None }
    ensures decision { result ≡ decision action facts.now }
    ensures grant { IfOk result (λ g. g ≡ granted action facts.now) }
{
    resource_allows(action, facts)?;
    Ok(Grant {
        action,
        account: acting_account(facts),
        resource: facts.subject.resource(),
    })
}

/// A grant is for a resource of its action's kind. On a session, its sets and its reviewers it is given to the account
/// that the session is of, unless a reviewer reads results.
pub fn granted_resources()
    ensures kind { (action : Action) (facts : Facts) (grant : Granted) → decision action facts ≡ Ok grant
        → IsOfItsKind action grant.resource }
    ensures own { (action : Action) (facts : Facts) (grant : Granted) → decision action facts ≡ Ok grant
        → (session : ℕ) → IsOfSession session grant.resource
        → (account_of_session session ≡ grant.account) ⊎ IsReview action facts }
{}

/// Spends a grant without a change.
pub fn release(grant: Grant) {
    let Grant {
        action: _,
        account: _,
        resource: _,
    } = grant;
}

/// Whether a grant is for this resource of this account.
pub fn allows(grant: &Grant, account: u16, resource: Resource) -> bool
    ensures { IsTrue result ↔ ((grant.now.account ≡ account) × (grant.now.resource ≡ resource)) }
{
    grant.account == account && grant.resource == resource
}

/// The account that acts: a login's user, or else that of the token's claims.
fn acting_account(facts: &Facts) -> u16
    ensures { result ≡ account_of facts.now }
{
    match (facts.subject, facts.token) {
        (Subject::Login(login), _) => login.user.map_or(0, |user| user.account),
        (_, Token::Verified(claims)) => claims.account,
        _ => 0,
    }
}
