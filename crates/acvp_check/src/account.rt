//! The conditions on all rows of an account.
ghost use Rattle.std.specs.Prelude.{◌≡◌, ◌==◌, IfOk};
ghost use Rattle.acvp_mac.specs.Conditions.{first_broken, judged};
ghost use Rattle.acvp_tables.specs.State.{has_rows, is_account_there, state_of};
ghost use Rattle.acvp_check.specs.Conditions.{account_conditions, account_row_conditions, all_conditions};
ghost use Rattle.acvp_check.specs.Conditions.{own_row_conditions};

use crate::certifications::certifications_wrong;
use crate::epochs::epochs_wrong;
use crate::finding::{Finding, RowKey, Wrong};
use crate::numbers::is_account_number;
use crate::objects::objects_wrong;
use crate::registrations::registrations_wrong;
use crate::requests::requests_wrong;
use crate::reviewers::reviewers_wrong;
use crate::rows::Rows;
use crate::sessions::sessions_wrong;
use crate::sets::sets_wrong;
use crate::verdicts::verdicts_wrong;
use crate::walks::{Judge, Predicate, check, each, found};
use acvp_gen::Seeds;
use acvp_mac::joined_conditions;
use acvp_tables::AccountRow;
use std::alloc::{AllocError, Global};

/// The account of a number.
#[derive(Clone, Copy)]
struct AccountIs {
    number: u16,
}

impl Predicate<AccountRow> for AccountIs {
    ghost passes = { λ t row. row.number == t.number };

    fn test(&self, row: &AccountRow) -> bool {
        row.number == self.number
    }
}

/// An account's number is one.
#[derive(Clone, Copy)]
struct OwnRow;

impl Judge<AccountRow> for OwnRow {
    ghost conditions = { λ _ row. account_row_conditions row };

    fn judge(&self, row: &AccountRow) -> Result<(), Finding> {
        check(
            is_account_number(row.number),
            RowKey::Account(row.number),
            Wrong::Number,
        )
    }
}

/// Whether there is a session, an object or a request.
#[tactic(auto, unfolding(acvp_tables::specs::State::state_of))]
fn has_rows(mine: &Rows) -> bool
    ensures { result ≡ has_rows (state_of mine.now) }
{
    !mine.sessions.is_empty() || !mine.objects.is_empty() || !mine.requests.is_empty()
}

/// Whether the account is there.
#[tactic(auto, unfolding(acvp_tables::specs::State::state_of))]
fn is_there(account: u16, mine: &Rows) -> bool
    ensures { result ≡ is_account_there account (state_of mine.now) }
{
    found(&mine.accounts, &AccountIs { number: account })
}

/// What is wrong with the account's own row.
#[tactic(auto, unfolding(crate::specs::Conditions::own_row_conditions))]
fn own_row_wrong(account: u16, mine: &Rows) -> Result<(), Finding>
    ensures { result ≡ judged (own_row_conditions account mine.now) tt }
{
    let row = RowKey::Account(account);
    check(mine.accounts.len() <= 1, row, Wrong::Twice)?;
    check(
        !has_rows(mine) || is_there(account, mine),
        row,
        Wrong::NoAccount,
    )?;
    each(&mine.accounts, &OwnRow)
}

/// The first condition that is broken of those on an account's rows, but for the verdicts on answers.
#[tactic(auto, using(crate::proofs::Joins::judged_joined), unfolding(crate::specs::Conditions::account_conditions))]
fn account_wrong(account: u16, mine: &Rows, seeds: &Seeds) -> Result<(), Finding>
    ensures { result ≡ judged (account_conditions seeds.now account mine.now) tt }
{
    own_row_wrong(account, mine)?;
    sessions_wrong(account, mine)?;
    sets_wrong(mine, seeds)?;
    requests_wrong(account, mine)?;
    objects_wrong(account, mine)?;
    reviewers_wrong(mine)?;
    certifications_wrong(mine)?;
    registrations_wrong(mine)?;
    epochs_wrong(mine)
}

/// The first condition that is broken, of those on all rows of an account: none where all hold. Where `grades` is set,
/// the verdicts are compared last, with those that are worked out anew under the seeds; without it they are left out.
#[tactic(auto, using(crate::proofs::Joins::is_broken, crate::proofs::Joins::is_held))]
pub fn judge_account(
    alloc: Global,
    account: u16,
    mine: &Rows,
    seeds: &Seeds,
    grades: bool,
) -> Result<Option<Finding>, AllocError>
    ensures { IfOk result (λ found. found ≡ first_broken (all_conditions grades seeds.now account mine.now)) }
{
    joined_conditions::<Finding>();
    if let Err(found) = account_wrong(account, mine, seeds) {
        return Ok(Some(found));
    }
    if grades {
        verdicts_wrong(alloc, mine, seeds)
    } else {
        Ok(None)
    }
}
