//! The first numbers that accounts and sessions give.
ghost use Rattle.std.specs.Prelude.{◌≡◌, ◌<◌, ◌^◌};
ghost use Rattle.acvp_tables.specs.State.{first_of_account, first_of_session, is_account_number};

/// The first that an account gives.
pub(crate) fn first_of_account(account: u16) -> u128
    ensures value { result ≡ first_of_account account }
    ensures low { result < 2 ^ 80 }
{
    u128::from(account) * 1_000_000 + 1
}

/// The first that a session gives to its vector sets.
pub(crate) fn first_of_session(session: u64) -> u128
    ensures value { result ≡ first_of_session session }
    ensures low { result < 2 ^ 80 }
{
    u128::from(session) * 100 + 1
}

/// Whether it is an account's number.
pub(crate) fn is_account_number(number: u16) -> bool
    ensures { result ≡ is_account_number number }
{
    1 <= number && number <= 9999
}
