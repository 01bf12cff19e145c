//! What an account is told and what is left of its rows depends on the rows that it owns or sees, whoever keeps them.

ghost use Rattle.std.specs.Prelude.{◌≡◌, ℕ, None, Some};
ghost use Rattle.acvp_tables.specs.Own.{account_of_change};
ghost use Rattle.acvp_tables.specs.State.{State, own, seen, IsWellNumbered};
ghost use Rattle.acvp_tables.specs.declared.change.Change.{Change};
ghost use Rattle.acvp_tables.specs.declared.change.Change.TheVariants as change;
ghost use Rattle.acvp_desk.specs.Answer.{accepted_change, answer, effect, who_of};
ghost use Rattle.acvp_policy.specs.declared.rule.Rule.{Rule};
ghost use Rattle.acvp_desk.specs.Denials.{HaveSameCallers, IsDeniedFirst};
ghost use Rattle.acvp_desk.specs.Isolation.{own_after_order, own_after_request, reviewer_asked, SeesTheSame};
ghost use Rattle.acvp_desk.specs.Orders.{order_effect};
ghost use Rattle.acvp_desk.specs.Request.{RequestValue};
ghost use Rattle.acvp_desk.specs.declared.keys.Keys.{Keys};
ghost use Rattle.acvp_desk.specs.declared.order.Order.{Order};

use acvp_policy::{caller_rules_agree, callers_own_the_session, granted_resources};
use acvp_tables::{
    changes_are_of_one_account, grants_name_the_account, numbers_name, numbers_tell,
};

/// What an order leaves of the rows that an account owns depends on the order and on these rows alone, whichever
/// account it is; of every account but the one that the order is of it leaves them as they were.
pub fn orders_are_apart()
    ensures { (u : ℕ) (it : Order) (state : State) → IsWellNumbered state
        → own u (order_effect it state) ≡ own_after_order it u (own u state) }
{
    changes_are_of_one_account();
    numbers_name();
    numbers_tell();
}

/// A request that names no account has the same answer whatever the records hold, and changes nothing.
pub fn nobody_is_answered_alike()
    ensures answer { (keys : Keys) (moment : ℕ) (r : RequestValue) (one other : State) → who_of keys moment r ≡ None
        → answer keys moment r one ≡ answer keys moment r other }
    ensures change { (keys : Keys) (moment : ℕ) (r : RequestValue) (state : State) → who_of keys moment r ≡ None
        → accepted_change keys moment r state ≡ None }
    ensures effect { (keys : Keys) (moment : ℕ) (r : RequestValue) (state : State) → who_of keys moment r ≡ None
        → effect keys moment r state ≡ state }
{}

/// What a request leaves of the rows that an account owns depends on the request and on these rows alone, whichever
/// account it is; of every account but the one that the request is of it leaves them as they were.
pub fn requests_are_apart()
    ensures { (v : ℕ) (keys : Keys) (moment : ℕ) (r : RequestValue) (state : State) → IsWellNumbered state
        → own v (effect keys moment r state) ≡ own_after_request keys moment r v (own v state) }
{
    caller_rules_agree();
    callers_own_the_session();
    granted_resources();
    grants_name_the_account();
    numbers_tell();
    numbers_name();
    changes_are_of_one_account();
}

/// A change that a request makes is of the account that the request is of; and who is added as a reviewer is asked for.
pub fn changes_are_of_who_asks()
    ensures account { (keys : Keys) (moment : ℕ) (r : RequestValue) (state : State) (u : ℕ) (it : Change)
        → IsWellNumbered state → who_of keys moment r ≡ Some u
        → accepted_change keys moment r state ≡ Some it → account_of_change it ≡ u }
    ensures reviewer { (keys : Keys) (moment : ℕ) (r : RequestValue) (state : State) (s a : ℕ)
        → accepted_change keys moment r state ≡ Some (change.AddReviewer (record { session = s; account = a }))
        → reviewer_asked r ≡ Some a }
{
    granted_resources();
    grants_name_the_account();
    numbers_tell();
    numbers_name();
}

/// A request that is denied by a rule on its caller is denied by the same rule over all records with the same accounts
/// and reviewers. So such a denial doesn't tell whether a session, a vector set or anything else is there, nor whose it
/// is.
pub fn callers_are_denied_alike()
    ensures { (keys : Keys) (moment : ℕ) (r : RequestValue) (broken : Rule) (one other : State)
        → HaveSameCallers one other → IsDeniedFirst keys moment r one broken
        → IsDeniedFirst keys moment r other broken }
{
    caller_rules_agree();
}

/// An account is answered alike in all records in which it sees the same. It sees the same where the rows are the same
/// that it owns, and those of the sessions that it reviews.
pub fn seen_rows_answer()
    ensures alike { (u : ℕ) (keys : Keys) (moment : ℕ) (r : RequestValue) (one other : State) → IsWellNumbered one
        → IsWellNumbered other → who_of keys moment r ≡ Some u
        → SeesTheSame u one other → answer keys moment r one ≡ answer keys moment r other }
    ensures seen { (u : ℕ) (one other : State) → IsWellNumbered one → IsWellNumbered other → seen u one ≡ seen u other
        → SeesTheSame u one other }
{
    caller_rules_agree();
    callers_own_the_session();
    numbers_tell();
    numbers_name();
}
