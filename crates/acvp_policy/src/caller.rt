//! The rules on a caller: the token, its account, and the session that it is bound to.

ghost use Rattle.std.specs.Prelude.{◌≡◌, [], ◌∷◌};
ghost use Rattle.acvp_token.specs.Conditions.{judged};
ghost use Rattle.acvp_policy.specs.Policy.{claims_conditions};
ghost use Rattle.acvp_policy.specs.Conditions.{are_of_session, is_some_and};
ghost use Rattle.acvp_policy.specs.Resource.{session_number};

use crate::action::Scope;
use crate::facts::{Facts, Standing, Token};
use crate::resource::Resource;
use crate::rule::Rule;
use acvp_token::{Claims, account_of_session};

/// Whether a condition holds, or else its rule.
pub fn check(holds: bool, rule: Rule) -> Result<(), Rule>
    ensures { result ≡ judged ((holds, rule) ∷ []) tt }
{
    if holds { Ok(()) } else { Err(rule) }
}

/// Whether the caller may ask for actions of this scope.
pub fn claims_allow(scope: Scope, facts: &Facts) -> Result<(), Rule>
    ensures { result ≡ judged (claims_conditions scope facts.now) tt }
{
    if scope == Scope::Login {
        return Ok(());
    }
    let claims = match facts.token {
        Token::Missing => return Err(Rule::TokenMissing),
        Token::Malformed => return Err(Rule::TokenMalformed),
        Token::NotSigned => return Err(Rule::TokenSignature),
        Token::NotRead => return Err(Rule::TokenClaims),
        Token::Expired => return Err(Rule::TokenExpired),
        Token::Verified(claims) => claims,
    };
    check(facts.standing == Standing::Enabled, Rule::AccountRefused)?;
    match scope {
        Scope::Login | Scope::AccountRead => Ok(()),
        Scope::AccountChange => check(claims.session.is_none(), Rule::AccountTokenNeeded),
        Scope::ReviewableResource if claims.session.is_none() && facts.reviewer => Ok(()),
        Scope::SessionResource | Scope::ReviewableResource => {
            check(claims.session.is_some(), Rule::SessionTokenNeeded)?;
            check(
                is_bound_to(claims, facts.subject.resource()),
                Rule::OtherSession,
            )
        }
    }
}

/// Whether claims are bound to the session of a resource, and are of the account that has it.
fn is_bound_to(claims: Claims, resource: Resource) -> bool
    ensures { result ≡ is_some_and (session_number resource) (λ s. are_of_session s claims) }
{
    let (Resource::Session(session) | Resource::Set(session, _) | Resource::Reviewer(session, _)) =
        resource
    else {
        return false;
    };
    claims.session == Some(session) && account_of_session(session) == claims.account as u64
}
