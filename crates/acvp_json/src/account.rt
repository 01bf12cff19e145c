//! The objects of an account, and of a session's reviewers.
ghost use Rattle.std.specs.Prelude.{◌≡◌, IfOk};
ghost use Rattle.serde_json.specs.View.{view};
ghost use Rattle.acvp_json.specs.Account.{account_data, reviewers_data};
ghost use Rattle.acvp_json.specs.Values.{count};

use crate::array::{Shows, array};
use crate::object::object;
use acvp_registry::Counts;
use serde_json::Value;
use std::alloc::{AllocError, Global};

/// An account's number, and how many rows it has of each kind.
pub(crate) fn account_value(
    alloc: Global,
    account: u16,
    counts: Counts,
) -> Result<Value, AllocError>
    ensures { IfOk result (λ value. view value ≡ account_data account counts) }
{
    object(
        alloc,
        &[],
        &[
            "account", "modules", "oes", "requests", "sessions", "vendors",
        ],
        [
            Value::from(account),
            Value::from(counts.modules),
            Value::from(counts.environments),
            Value::from(counts.requests),
            Value::from(counts.sessions),
            Value::from(counts.vendors),
        ],
    )
}

/// The numbers of accounts.
struct Accounts;

impl Shows<u16> for Accounts {
    ghost data_of = { λ _ account. count account };

    fn value(&self, alloc: Global, account: &u16) -> Result<Value, AllocError> {
        Ok(Value::from(*account))
    }
}

/// The accounts that review a session.
pub(crate) fn reviewers_value(alloc: Global, accounts: &[u16]) -> Result<Value, AllocError>
    ensures { IfOk result (λ value. view value ≡ reviewers_data accounts.now) }
{
    let accounts = array(alloc, &Accounts, accounts)?;
    object(alloc, &[], &["reviewers"], [accounts])
}
