//! Whose each row is.
ghost use Rattle.std.specs.Prelude.{◌≡◌};
ghost use Rattle.acvp_mac.specs.Conditions.{judged};
ghost use Rattle.acvp_tables.specs.State.{is_account_number, owner_of};
ghost use Rattle.acvp_check.specs.Owners.{account_owner, is_in, is_of, object_owner, owner_conditions};
ghost use Rattle.acvp_check.specs.Owners.{registry_owners, request_owner, reviewer_owner, session_owner};
ghost use Rattle.acvp_check.specs.Owners.{session_owners, set_owner};

use crate::finding::{Finding, RowKey, Wrong};
use crate::numbers::is_account_number;
use crate::rows::Rows;
use crate::walks::{Judge, check, each};
use acvp_tables::{AccountRow, ObjectRow, RequestRow, ReviewerRow, SessionRow, SetRow};

/// How many numbers an account has.
pub(crate) const NUMBERS_OF_AN_ACCOUNT: u64 = 1_000_000;

/// How many numbers a session has.
const NUMBERS_OF_A_SESSION: u64 = 100;

/// Whether a row is of an account, which its number names.
fn is_of(account: u16, number: u64) -> bool
    ensures { result ≡ is_of account number }
{
    is_account_number(account) && number / NUMBERS_OF_AN_ACCOUNT == u64::from(account)
}

/// Whether the account of a session has an account's number.
fn has_owner(session: u64) -> bool
    ensures { result ≡ is_account_number (owner_of session) }
{
    let owner = session / NUMBERS_OF_AN_ACCOUNT;
    1 <= owner && owner <= 9999
}

/// Whether a row is of an account's session, which its number names.
fn is_in(session: u64, number: u64) -> bool
    ensures { result ≡ is_in session number }
{
    has_owner(session) && number / NUMBERS_OF_A_SESSION == session
}

/// Whose a row is.
#[derive(Clone, Copy)]
struct Owner;

impl Judge<AccountRow> for Owner {
    ghost conditions = { λ _ row. account_owner row };

    fn judge(&self, row: &AccountRow) -> Result<(), Finding> {
        let key = RowKey::Account(row.number);
        check(is_account_number(row.number), key, Wrong::Owner)
    }
}

impl Judge<SessionRow> for Owner {
    ghost conditions = { λ _ row. session_owner row };

    fn judge(&self, row: &SessionRow) -> Result<(), Finding> {
        let key = RowKey::Session(row.number);
        check(is_of(row.account, row.number), key, Wrong::Owner)
    }
}

impl Judge<SetRow> for Owner {
    ghost conditions = { λ _ row. set_owner row };

    fn judge(&self, row: &SetRow) -> Result<(), Finding> {
        let key = RowKey::Set(row.number);
        check(is_in(row.session, row.number), key, Wrong::Owner)
    }
}

impl Judge<ObjectRow> for Owner {
    ghost conditions = { λ _ row. object_owner row };

    fn judge(&self, row: &ObjectRow) -> Result<(), Finding> {
        let key = RowKey::Object(row.object.kind(), row.number);
        check(is_of(row.account, row.number), key, Wrong::Owner)
    }
}

impl Judge<RequestRow> for Owner {
    ghost conditions = { λ _ row. request_owner row };

    fn judge(&self, row: &RequestRow) -> Result<(), Finding> {
        let key = RowKey::Request(row.number);
        check(is_of(row.account, row.number), key, Wrong::Owner)
    }
}

impl Judge<ReviewerRow> for Owner {
    ghost conditions = { λ _ row. reviewer_owner row };

    fn judge(&self, row: &ReviewerRow) -> Result<(), Finding> {
        let key = RowKey::Reviewer(row.session, row.account);
        check(has_owner(row.session), key, Wrong::Owner)
    }
}

/// The first of the rows of accounts and test sessions.
#[tactic(auto, using(crate::proofs::Joins::judged_joined), unfolding(crate::specs::Owners::session_owners))]
fn session_owners_wrong(rows: &Rows) -> Result<(), Finding>
    ensures { result ≡ judged (session_owners rows.now) tt }
{
    each(&rows.accounts, &Owner)?;
    each(&rows.sessions, &Owner)?;
    each(&rows.sets, &Owner)
}

/// The first of the rows of what is registered, asked for and reviewed.
#[tactic(auto, using(crate::proofs::Joins::judged_joined), unfolding(crate::specs::Owners::registry_owners))]
fn registry_owners_wrong(rows: &Rows) -> Result<(), Finding>
    ensures { result ≡ judged (registry_owners rows.now) tt }
{
    each(&rows.objects, &Owner)?;
    each(&rows.requests, &Owner)?;
    each(&rows.reviewers, &Owner)
}

/// The first row, of whichever accounts, that isn't of the account that its number names: accounts first, then
/// sessions, vector sets, objects, requests and reviewers.
#[tactic(auto, using(crate::proofs::Joins::judged_joined), unfolding(crate::specs::Owners::owner_conditions))]
pub fn owners_wrong(rows: &Rows) -> Result<(), Finding>
    ensures { result ≡ judged (owner_conditions rows.now) tt }
{
    session_owners_wrong(rows)?;
    registry_owners_wrong(rows)
}
