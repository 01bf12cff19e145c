//! Accounts as a list.
ghost use Rattle.std.specs.Prelude.{◌≡◌};
ghost use Rattle.acvp_tables.specs.Changes.{is_account, with_step, disabled, new_account};

use crate::change::NewAccount;
use crate::list::walks::{Edit, Predicate, Show};
use crate::rows::AccountRow;
use std::alloc::AllocError;

/// The account of a number.
#[derive(Drop)]
pub(crate) struct AccountIs {
    pub number: u16,
}

impl Predicate<AccountRow> for AccountIs {
    ghost passes = { λ t row. is_account t.number row };

    fn test(&self, row: &AccountRow) -> bool {
        row.number == self.number
    }
}

/// The row itself.
#[derive(Drop)]
pub(crate) struct WholeAccount;

impl Show<AccountRow, AccountRow> for WholeAccount {
    ghost shown = { λ _ row. row };

    fn show(&self, row: &AccountRow) -> Result<AccountRow, AllocError> {
        Ok(*row)
    }
}

/// A used step.
#[derive(Drop)]
pub(crate) struct WithStep {
    pub step: u64,
}

impl Edit<AccountRow> for WithStep {
    ghost edited = { λ e row. with_step e.step row };

    fn edit(&self, row: &mut AccountRow) {
        row.last_step = Some(self.step);
    }
}

/// The account can't log in any more.
#[derive(Drop)]
pub(crate) struct Disabled;

impl Edit<AccountRow> for Disabled {
    ghost edited = { λ _ row. disabled row };

    fn edit(&self, row: &mut AccountRow) {
        row.enabled = false;
    }
}

/// The row of a new account.
pub(crate) fn new_account(account: &NewAccount) -> AccountRow
    ensures { result ≡ new_account account.now }
{
    AccountRow {
        number: account.account,
        secret: account.secret,
        enabled: true,
        last_step: None,
    }
}
