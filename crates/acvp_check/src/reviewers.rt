//! The conditions on reviewers.
ghost use Rattle.std.specs.Prelude.{◌≡◌, ◌==◌, ◌&&◌, length, nat_le, true};
ghost use Rattle.std.specs.List.{flat_map};
ghost use Rattle.acvp_mac.specs.Conditions.{judged};
ghost use Rattle.acvp_tables.specs.declared.rows.ReviewerRow.{ReviewerRow as ReviewerValue};
ghost use Rattle.acvp_check.specs.Conditions.{reviewer_conditions, reviewer_count_conditions};
ghost use Rattle.acvp_check.specs.Conditions.{reviewer_own_conditions, reviewer_row_conditions};
ghost use Rattle.acvp_check.specs.Conditions.{reviewers_at, reviewers_in};
ghost use Rattle.acvp_check.specs.Near.{Ascend};

use crate::finding::{Finding, RowKey, Wrong};
use crate::near::{ascend, has_session, reviewers_near};
use crate::numbers::is_account_number;
use crate::rows::Rows;
use crate::walks::{Predicate, check, count};
use acvp_tables::ReviewerRow;

/// The most reviewers of a session.
const REVIEWER_LIMIT: u64 = 16;

/// The reviewers of a session.
#[derive(Clone, Copy)]
struct ReviewersOf {
    session: u64,
}

impl Predicate<ReviewerRow> for ReviewersOf {
    ghost passes = { λ t row. row.session == t.session };

    fn test(&self, row: &ReviewerRow) -> bool {
        row.session == self.session
    }
}

/// The reviewer of a session and an account.
#[derive(Clone, Copy)]
struct ReviewerIs {
    session: u64,
    account: u16,
}

impl Predicate<ReviewerRow> for ReviewerIs {
    ghost passes = { λ t row. (row.session == t.session) && (row.account == t.account) };

    fn test(&self, row: &ReviewerRow) -> bool {
        row.session == self.session && row.account == self.account
    }
}

/// What is wrong with what a reviewer's row names.
#[tactic(auto, unfolding(crate::specs::Conditions::reviewer_own_conditions))]
fn reviewer_own_wrong(mine: &Rows, row: ReviewerRow) -> Result<(), Finding>
    ensures { result ≡ judged (reviewer_own_conditions mine.now row) tt }
{
    let key = RowKey::Reviewer(row.session, row.account);
    let has_session = has_session(&mine.sessions, row.session);
    check(has_session, key, Wrong::NoSession)?;
    check(is_account_number(row.account), key, Wrong::NoAccountNumber)
}

/// Whether a session has 16 reviewers at most.
fn are_few(reviewers: &[ReviewerRow], session: u64) -> bool
    ensures { result ≡ nat_le (length (reviewers_in session reviewers.now)) 16 }
{
    count(reviewers, &ReviewersOf { session }) <= REVIEWER_LIMIT
}

/// Whether a reviewer is there once at most.
fn is_once(reviewers: &[ReviewerRow], row: ReviewerRow) -> bool
    ensures { result ≡ nat_le (length (reviewers_at row.session row.account reviewers.now)) 1 }
{
    let ReviewerRow { session, account } = row;
    count(reviewers, &ReviewerIs { session, account }) <= 1
}

/// What is wrong with the number of a session's reviewers, where all ascend by their sessions or don't.
#[tactic(auto, unfolding(crate::specs::Conditions::reviewer_count_conditions))]
fn reviewer_count_wrong(mine: &Rows, ascending: bool, row: ReviewerRow) -> Result<(), Finding>
    requires { ascending ≡ true → Ascend (λ (row : ReviewerValue). row.session) mine.now.reviewers }
    ensures { result ≡ judged (reviewer_count_conditions mine.now row) tt }
{
    let key = RowKey::Reviewer(row.session, row.account);
    let its = reviewers_near(&mine.reviewers, ascending, row.session);
    check(are_few(its, row.session), key, Wrong::ManyReviewers)?;
    check(is_once(its, row), key, Wrong::Twice)
}

/// What is wrong with a reviewer, where all ascend by their sessions or don't.
#[tactic(auto, using(crate::proofs::Joins::judged_joined))]
fn reviewer_wrong(mine: &Rows, ascending: bool, row: ReviewerRow) -> Result<(), Finding>
    requires { ascending ≡ true → Ascend (λ (row : ReviewerValue). row.session) mine.now.reviewers }
    ensures { result ≡ judged (reviewer_row_conditions mine.now row) tt }
{
    reviewer_own_wrong(mine, row)?;
    reviewer_count_wrong(mine, ascending, row)
}

/// What is wrong with the first of these reviewers that isn't right.
fn reviewer_rows_wrong(mine: &Rows, rows: &[ReviewerRow]) -> Result<(), Finding>
    ensures { result ≡ judged (flat_map (reviewer_row_conditions mine.now) rows.now) tt }
{
    let ascending = ascend(&mine.reviewers);
    for row in rows {
        reviewer_wrong(mine, ascending, *row)?;
    }
    Ok(())
}

/// What is wrong with the reviewers of an account's sessions.
#[tactic(auto, unfolding(crate::specs::Conditions::reviewer_conditions))]
pub(crate) fn reviewers_wrong(mine: &Rows) -> Result<(), Finding>
    ensures { result ≡ judged (reviewer_conditions mine.now) tt }
{
    reviewer_rows_wrong(mine, &mine.reviewers)
}
