//! The table of accounts.
ghost use Rattle.std.specs.Prelude.{◌≡◌, ◌<◌, ◌^◌, length, ◌++◌, ◌∷◌, [], IsTrue, IfOk, List};
ghost use Rattle.sqlite.specs.Held.{state};
ghost use Rattle.acvp_tables.specs.Content.{account_at};
ghost use Rattle.acvp_tables.specs.Changes.{changed, is_account, with_step, disabled, new_account};
ghost use Rattle.acvp_tables.specs.declared.rows.AccountRow.{AccountRow as Account};
ghost use Rattle.acvp_store.specs.Alters.{Alters};
ghost use Rattle.acvp_store.specs.Connection.{ServesStore, IsRead, UnderStore};
ghost use Rattle.acvp_store.specs.Rows.{account_tree, HoldsAccounts, account_shown};
ghost use Rattle.acvp_store.specs.Private.Columns.{account_columns};
ghost use Rattle.acvp_store.specs.Private.Shown.{AreMet, is_under};

use crate::columns::{account_number, field, fitting, truth};
use crate::members::{Member, answered};
use crate::queries::asked;
use crate::work::{Work, perform};
use acvp_tables::{AccountRow, NewAccount, StoreFault, UsedStep};
use sqlite::types::ToSql;
use sqlite::{Alter, Connection, Row, Transaction};

impl Member for AccountRow {
    ghost use Rattle.std.specs.Prelude.{⊤};
    ghost use Rattle.acvp_store.specs.Ranges.{FitsAccount};
    ghost use Rattle.acvp_store.specs.Rows.{account_shown};

    ghost shown = { account_shown };

    ghost reads = { λ _. ⊤ };

    ghost fits = { FitsAccount };

    ghost judged_so = { FitsAccount };

    fn read(row: &Row) -> Result<AccountRow, StoreFault> {
        let number = account_number(row, 0)?;
        let secret: Vec<u8> = field(row, 1)?;
        let Ok(secret) = <[u8; 32]>::try_from(secret.as_slice()) else {
            return Err(StoreFault::Refused);
        };
        let enabled = truth(row, 2)?;
        let last_step: Option<u64> = field(row, 3)?;
        Ok(AccountRow {
            number,
            secret,
            enabled,
            last_step,
        })
    }
}

/// The account of a number.
pub(crate) fn find_account<S: Alter>(
    conn: &mut Connection<S>,
    number: u16,
) -> Result<Option<AccountRow>, StoreFault>
    requires { ServesStore (state S.Store conn.old) }
    ensures found { IsTrue (state S.Store conn.new).is_open
        → IfOk result (λ found. (accounts : List Account)
        → HoldsAccounts ((state S.Store conn.old).now.trees account_tree) accounts
        → found ≡ account_at number accounts) }
    ensures judged { IsTrue (state S.Store conn.new).is_open
        → IfOk result (λ _. AreMet (is_under number) account_columns account_shown
        (λ a. (a.number < 2 ^ 16) × (length a.secret ≡ 32)) ((state S.Store conn.old).now.trees account_tree)) }
    ensures read { IsRead result (state S.Store conn.old) (state S.Store conn.new) }
{
    answered(asked(
        conn,
        "SELECT account, secret, enabled, last_step FROM account WHERE account = ?1",
        &[u32::from(number).to_sql()],
    ))
}

impl Work for NewAccount {
    ghost use Rattle.std.specs.Prelude.{◌++◌, ◌∷◌, []};
    ghost use Rattle.acvp_tables.specs.Changes.{new_account};
    ghost use Rattle.acvp_store.specs.Alters.{Alters};
    ghost use Rattle.acvp_store.specs.Connection.{UnderStore};
    ghost use Rattle.acvp_store.specs.Rows.{account_tree, HoldsAccounts};

    ghost change = { λ a. UnderStore
        (λ layout. Alters layout account_tree HoldsAccounts (λ accounts. accounts ++ new_account a ∷ [])) };

    fn run<S: Alter>(&self, tx: &mut Transaction<'_, S>) -> Result<(), StoreFault> {
        perform(
            tx,
            "INSERT INTO account (account, secret, enabled, last_step) VALUES (?1, ?2, 1, NULL)",
            &[
                u32::from(self.account).to_sql(),
                self.secret.as_slice().to_sql(),
            ],
        )
    }
}

impl Work for UsedStep {
    ghost use Rattle.acvp_tables.specs.Changes.{changed, is_account, with_step};
    ghost use Rattle.acvp_store.specs.Alters.{Alters};
    ghost use Rattle.acvp_store.specs.Connection.{UnderStore};
    ghost use Rattle.acvp_store.specs.Rows.{account_tree, HoldsAccounts};

    ghost change = { λ u. UnderStore
        (λ layout. Alters layout account_tree HoldsAccounts (changed (is_account u.account) (with_step u.step))) };

    fn run<S: Alter>(&self, tx: &mut Transaction<'_, S>) -> Result<(), StoreFault> {
        let step = fitting(self.step)?;
        perform(
            tx,
            "UPDATE account SET last_step = ?2 WHERE account = ?1",
            &[u32::from(self.account).to_sql(), step],
        )
    }
}

/// An account that is disabled.
#[derive(Clone, Copy)]
pub(crate) struct DisabledAccount {
    pub account: u16,
}

impl Work for DisabledAccount {
    ghost use Rattle.acvp_tables.specs.Changes.{changed, is_account, disabled};
    ghost use Rattle.acvp_store.specs.Alters.{Alters};
    ghost use Rattle.acvp_store.specs.Connection.{UnderStore};
    ghost use Rattle.acvp_store.specs.Rows.{account_tree, HoldsAccounts};

    ghost change = { λ d. UnderStore
        (λ layout. Alters layout account_tree HoldsAccounts (changed (is_account d.account) disabled)) };

    fn run<S: Alter>(&self, tx: &mut Transaction<'_, S>) -> Result<(), StoreFault> {
        perform(
            tx,
            "UPDATE account SET enabled = 0 WHERE account = ?1",
            &[u32::from(self.account).to_sql()],
        )
    }
}
