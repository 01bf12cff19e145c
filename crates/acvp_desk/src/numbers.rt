//! The numbers that an account gives.

ghost use Rattle.std.specs.Prelude.{◌≡◌, ◌+◌, ◌<◌, ◌==◌};
ghost use Rattle.acvp_tables.specs.State.{first_of_account, owner_of};

/// How many numbers each account has of a kind.
pub(crate) const NUMBERS_OF_ACCOUNT: u64 = 1000000;

/// How many rows of a kind an account may have.
pub(crate) const MOST_ROWS: u64 = 999999;

/// An account's next number of a kind, of which it has given so many.
pub(crate) fn next_number(account: u16, so_many: u64) -> u64
    requires { so_many < 999999 }
    ensures { result ≡ first_of_account account + so_many }
{
    u64::from(account) * NUMBERS_OF_ACCOUNT + 1 + so_many
}

/// Whether a number is one that an account gives. A row of another account is never read for it.
pub(crate) fn is_of_account(number: u64, account: u16) -> bool
    ensures { result ≡ (owner_of number == account) }
{
    number / NUMBERS_OF_ACCOUNT == u64::from(account)
}
