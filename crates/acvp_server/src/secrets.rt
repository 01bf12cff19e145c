//! Whether another account has the secret of one that is to be added.
use crate::copies::{Visit, in_copy};
use acvp_commands::{Task, Work};
use acvp_desk::Order;
use acvp_store::SqlTables;
use acvp_tables::AccountRow;
use sqlite::Alter;

/// An account that is to be added with a secret.
#[derive(Clone, Copy)]
struct Added<'a> {
    rt: &'a HostRuntime,
    account: u16,
    secret: &'a [u8; 32],
}

/// The number of an account, other than this one, that has its secret.
fn other_with(accounts: &[AccountRow], added: Added<'_>) -> Option<u16> {
    for row in accounts {
        if row.number != added.account && row.secret == *added.secret {
            return Some(row.number);
        }
    }
    None
}

impl Visit for Added<'_> {
    type Told = ();

    fn visit<S: Alter + Drop>(self, tables: SqlTables<S>) {
        let mut tables = tables;
        match tables.accounts_between(1, 9999) {
            Ok(accounts) => {
                if let Some(other) = other_with(&accounts, self) {
                    let _ = eprintln!(self.rt; "warning: account {other} has the same secret");
                }
            }
            Err(_) => {
                let _ = eprintln!(self.rt; "warning: the other accounts' secrets can't be read");
            }
        }
    }
}

/// Warns of another account that has the secret of an account that is to be added, since each can log in as the other.
pub(crate) fn tell_same_secret(rt: &HostRuntime, db: &str, work: &Work) {
    if let Work::Take(Task::Order(Order::AddAccount { account, secret })) = work {
        let account = *account;
        let _ = in_copy(
            rt,
            db,
            Added {
                rt,
                account,
                secret,
            },
        );
    }
}
