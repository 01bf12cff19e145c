//! What the rules on a caller depend on, and what they show of a session's account.

ghost use Rattle.std.specs.Prelude.{◌≡◌, ◌⊎◌, ◌↔◌, ℕ, None, Err};
ghost use Rattle.acvp_token.specs.Conditions.{first_broken};
ghost use Rattle.acvp_token.specs.SessionNumber.{account_of_session};
ghost use Rattle.acvp_policy.specs.Callers.{AgreeOnCaller, IsCallerRule};
ghost use Rattle.acvp_policy.specs.Decision.{account_of, decision};
ghost use Rattle.acvp_policy.specs.Kinds.{IsOfItsKind, IsOfSession, IsReview};
ghost use Rattle.acvp_policy.specs.Policy.{claims_conditions};
ghost use Rattle.acvp_policy.specs.Resource.{resource_of};
ghost use Rattle.acvp_policy.specs.Scope.{scope_of};

use crate::action::{Action, Scope};
use crate::facts::Facts;
use crate::rule::Rule;

/// A rule on the token, its account or the session that it is bound to is the same, whatever was found at the
/// path: a session that isn't there and one of another account are refused alike.
pub fn caller_rules_agree()
    ensures rules { (action : Action) (one other : Facts) (rule : Rule) → AgreeOnCaller one other → IsCallerRule rule
        → (decision action one ≡ Err rule) ↔ (decision action other ≡ Err rule) }
    ensures conditions { (scope : Scope) (one other : Facts) → AgreeOnCaller one other
        → claims_conditions scope one ≡ claims_conditions scope other }
{}

/// A caller that no rule on callers refuses asks of a session of its own account, or is a reviewer of it who reads
/// results.
pub fn callers_own_the_session()
    ensures { (action : Action) (facts : Facts) (session : ℕ) → first_broken (claims_conditions (scope_of action) facts)
        ≡ None
        → IsOfItsKind action (resource_of facts.subject) → IsOfSession session (resource_of facts.subject)
        → (account_of_session session ≡ account_of facts) ⊎ IsReview action facts }
{}
