//! What holds of the records after requests and orders, whoever keeps them.

ghost use Rattle.std.specs.Prelude.{◌≡◌, ◌++◌, ◌≤◌, ℕ, Err, IfOk, List, Some, codes, is_some, length, true};
ghost use Rattle.acvp_tables.specs.Changes.{reviewers_after};
ghost use Rattle.acvp_tables.specs.Content.{Content, no_rows, request_at, reviewers_of};
ghost use Rattle.acvp_tables.specs.State.{State, is_account_number, state_of};
ghost use Rattle.acvp_tables.specs.declared.change.Change.TheVariants as change;
ghost use Rattle.acvp_tables.specs.declared.rows.RequestRow.{RequestRow};
ghost use Rattle.acvp_tables.specs.declared.rows.ReviewerRow.{ReviewerRow};
ghost use Rattle.acvp_desk.specs.Answer.{answer, effect, content_effect};
ghost use Rattle.acvp_desk.specs.Approvals.{may_approve};
ghost use Rattle.acvp_desk.specs.Errors.{error_body};
ghost use Rattle.acvp_desk.specs.Certifications.{IsLeft};
ghost use Rattle.acvp_desk.specs.Kept.{IsKept};
ghost use Rattle.acvp_desk.specs.Reviewers.{with_account, without_account};
ghost use Rattle.acvp_desk.specs.Orders.{IsOrder, HasSecret, is_initial, order_effect, content_order_effect};
ghost use Rattle.acvp_policy.specs.Rule.{rule_word};
ghost use Rattle.acvp_policy.specs.declared.rule.Rule.{Rule};
ghost use Rattle.acvp_policy.specs.declared.rule.Rule.TheVariants as rule;
ghost use Rattle.acvp_desk.specs.declared.keys.Keys.{Keys};
ghost use Rattle.acvp_desk.specs.declared.order.Order.{Order};
ghost use Rattle.acvp_desk.specs.Request.{RequestValue};

use acvp_tables::{
    approvals_name_the_account, counts_are_kept, counts_differ_by_one, numbers_are_kept,
    numbers_count, numbers_name, numbers_tell, records_begin_well, selections_follow,
    sets_are_there_once, state_follows,
};

/// What a request or an order makes of what is kept is what it makes of the records of it.
pub fn effects_follow()
    ensures request { (keys : Keys) (moment : ℕ) (r : RequestValue) (c : Content)
        → state_of (content_effect keys moment r c) ≡ effect keys moment r (state_of c) }
    ensures order { (it : Order) (c : Content) → state_of (content_order_effect it c) ≡ order_effect it (state_of c) }
{
    state_follows();
}

/// What holds of the records at all times holds without a row, after a request, and after an order.
pub fn records_are_kept()
    ensures start { (seeds : List (List ℕ)) → IsKept seeds no_rows }
    ensures request { (keys : Keys) (moment : ℕ) (r : RequestValue) (c : Content) → IsKept keys.seed c
        → IsKept keys.seed (content_effect keys moment r c) }
    ensures order { (seeds : List (List ℕ)) (it : Order) (c : Content) → IsOrder it → HasSecret it → IsKept seeds c
        → IsKept seeds (content_order_effect it c) }
{
    records_begin_well();
    state_follows();
    numbers_are_kept();
    counts_are_kept();
    numbers_tell();
    numbers_count();
    sets_are_there_once();
    selections_follow();
    numbers_name();
    counts_differ_by_one();
}

/// What runs leave of the records, whatever is asked and ordered, holds without a row, after a request, and after an
/// order.
pub fn left_records_are_left()
    ensures start { (seeds : List (List ℕ)) → IsLeft seeds no_rows }
    ensures request { (keys : Keys) (moment : ℕ) (r : RequestValue) (c : Content) → IsLeft keys.seed c
        → IsLeft keys.seed (content_effect keys moment r c) }
    ensures order { (seeds : List (List ℕ)) (it : Order) (c : Content) → IsOrder it → HasSecret it → IsLeft seeds c
        → IsLeft seeds (content_order_effect it c) }
{
    records_are_kept();
    sets_are_there_once();
    selections_follow();
    numbers_name();
    numbers_tell();
    numbers_count();
    approvals_name_the_account();
}

/// In records as every run leaves them, each request that waits may be approved.
pub fn left_requests_may_be_approved()
    ensures { (seeds : List (List ℕ)) (c : Content) (n : ℕ) (row : RequestRow) → IsLeft seeds c
        → request_at n c.requests ≡ Some row → is_initial row.status ≡ true → may_approve n c row ≡ true }
{
    selections_follow();
    numbers_name();
    numbers_tell();
}

/// The reply to a request that is accepted shows an object, where what is kept is right and there is a seed.
pub fn accepted_requests_are_told()
    ensures { (keys : Keys) (moment : ℕ) (r : RequestValue) (c : Content) → IsKept keys.seed c → 1 ≤ length keys.seed
        → IfOk (answer keys moment r (state_of c)) (λ object. is_some object ≡ true) }
{
    selections_follow();
}

/// No answer is that the server is unavailable: that is said for want of memory or of the store alone.
pub fn no_answer_is_unavailable()
    ensures { (keys : Keys) (moment : ℕ) (r : RequestValue) (state : State)
        → answer keys moment r state ≡ Err rule.Unavailable → ⊥ }
{}

/// The list that is told to who adds or removes a reviewer of a session is that of its reviewers after the change.
pub fn reviewers_are_told()
    ensures added { (session account : ℕ) (rows : List ReviewerRow) → is_account_number account ≡ true
        → with_account account (reviewers_of session rows) ≡ reviewers_of session
        (reviewers_after (change.AddReviewer (record { session = session; account = account })) rows) }
    ensures removed { (session account : ℕ) (rows : List ReviewerRow)
        → without_account account (reviewers_of session rows) ≡ reviewers_of session
        (reviewers_after (change.RemoveReviewer (record { session = session; account = account })) rows) }
{}

/// The bytes of the body that names a rule.
pub fn errors_are_named()
    ensures { (rule : Rule) → error_body rule
        ≡ codes "[{\"acvVersion\":\"1.0\"},{\"error\":\"" ++ rule_word rule ++ codes "\"}]" }
{}
