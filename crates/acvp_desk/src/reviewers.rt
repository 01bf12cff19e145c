//! What is given to who adds or removes a reviewer of a test session.

ghost use Rattle.std.specs.Prelude.{◌≡◌, ◌⊎◌, ◌≤◌, filter, nat_lt, Some, None, IfOk, IfErr};
ghost use Rattle.acvp_json.specs.Account.{reviewers_data};
ghost use Rattle.acvp_mac.specs.Conditions.{first_broken};
ghost use Rattle.acvp_tables.specs.declared.change.Change.TheVariants as change;
ghost use Rattle.acvp_desk.specs.Answer.{IsReply};
ghost use Rattle.acvp_desk.specs.OwnConditions.{added_conditions};
ghost use Rattle.acvp_desk.specs.Replies.{added_change, added_reply};
ghost use Rattle.acvp_desk.specs.Reviewers.{has_room, with_account, without_account};

use crate::body::reviewer_body;
use crate::draft::{Draft, told};
use acvp_json::ReplyObject;
use acvp_mac::joined_conditions;
use acvp_policy::Rule;
use acvp_tables::{Change, ReviewerRow};
use std::alloc::{AllocError, Global};

/// How many accounts may review a session.
const MOST_REVIEWERS: usize = 16;

/// Whether an account is among others, or may become one of them.
fn has_room(accounts: &[u16], account: u16) -> bool
    ensures { result ≡ has_room accounts.now (Some account) }
{
    accounts.contains(&account) || accounts.len() < MOST_REVIEWERS
}

/// The accounts below one.
fn below(alloc: Global, accounts: &[u16], account: u16) -> Result<Vec<u16>, AllocError>
    ensures { IfOk result (λ some. some.items ≡ filter (λ b. nat_lt b account) accounts.now) }
{
    let mut some = Vec::new(alloc);
    for other in accounts {
        if *other < account {
            some.push(*other)?;
        }
    }
    Ok(some)
}

/// The accounts above one.
fn above(alloc: Global, accounts: &[u16], account: u16) -> Result<Vec<u16>, AllocError>
    ensures { IfOk result (λ some. some.items ≡ filter (λ b. nat_lt account b) accounts.now) }
{
    let mut some = Vec::new(alloc);
    for other in accounts {
        if account < *other {
            some.push(*other)?;
        }
    }
    Ok(some)
}

/// Ascending accounts with one more among them.
fn with_account(alloc: Global, accounts: &[u16], account: u16) -> Result<Vec<u16>, AllocError>
    ensures { IfOk result (λ all. all.items ≡ with_account account accounts.now) }
{
    let mut all = below(alloc, accounts, account)?;
    all.push(account)?;
    all.extend_from_slice(&above(alloc, accounts, account)?)?;
    Ok(all)
}

/// Accounts without one.
fn without_account(alloc: Global, accounts: &[u16], account: u64) -> Result<Vec<u16>, AllocError>
    ensures { IfOk result (λ left. left.items ≡ without_account account accounts.now) }
{
    let mut left = Vec::new(alloc);
    for other in accounts {
        if u64::from(*other) != account {
            left.push(*other)?;
        }
    }
    Ok(left)
}

/// What is given to who adds a reviewer, or the rule of the first condition on the body and the room that doesn't hold.
#[tactic(auto, unfolding(acvp_json::specs::ReplyData::reply_data))]
pub(crate) fn draft_added(
    alloc: Global,
    session: u64,
    body: &[u8],
    accounts: &[u16],
) -> Result<Draft, Rule>
    ensures held { IfOk result (λ _. first_broken (added_conditions body.now accounts.now) ≡ None) }
    ensures reply { IfOk result (λ draft. IsReply draft.reply.items (added_reply body.now accounts.now)) }
    ensures change { IfOk result (λ draft. draft.change ≡ added_change session body.now) }
    ensures denied { IfErr result (λ denied. (denied ≡ Rule.Unavailable)
        ⊎ (first_broken (added_conditions body.now accounts.now) ≡ Some denied)) }
{
    joined_conditions::<Rule>();
    let account = match reviewer_body(alloc, body) {
        Ok(account) => account,
        Err(rule) => return Err(rule),
    };
    if !has_room(accounts, account) {
        return Err(Rule::ReviewersFull);
    }
    let Ok(accounts) = with_account(alloc, accounts, account) else {
        return Err(Rule::Unavailable);
    };
    let object = ReplyObject::Reviewers {
        accounts: &accounts,
    };
    told(
        alloc,
        &object,
        Some(Change::AddReviewer(ReviewerRow { session, account })),
    )
}

/// What is given to who removes a reviewer.
#[tactic(auto, unfolding(acvp_json::specs::ReplyData::reply_data))]
pub(crate) fn draft_removed(
    alloc: Global,
    session: u64,
    reviewer: u64,
    accounts: &[u16],
) -> Result<Draft, Rule>
    requires { reviewer ≤ 9999 }
    ensures reply { IfOk result
        (λ draft. IsReply draft.reply.items (Some (reviewers_data (without_account reviewer accounts.now)))) }
    ensures change { IfOk result
        (λ draft. draft.change ≡ Some (change.RemoveReviewer (record { session = session; account = reviewer }))) }
    ensures denied { IfErr result (λ denied. denied ≡ Rule.Unavailable) }
{
    let Ok(accounts) = without_account(alloc, accounts, reviewer) else {
        return Err(Rule::Unavailable);
    };
    let removed = ReviewerRow {
        session,
        account: reviewer as u16,
    };
    let object = ReplyObject::Reviewers {
        accounts: &accounts,
    };
    told(alloc, &object, Some(Change::RemoveReviewer(removed)))
}
