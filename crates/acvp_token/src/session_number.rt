//! The numbers of test sessions.

ghost use Rattle.std.specs.Prelude.{◌≡◌};
ghost use Rattle.acvp_token.specs.SessionNumber.{account_of_session};

/// A session's number divided by this is its account's.
const ACCOUNT_SPAN: u64 = 1_000_000;

/// The account that a test session is of: the session's number is its account's times 1000000 plus its place.
pub fn account_of_session(session: u64) -> u64
    ensures { result ≡ account_of_session session }
{
    session / ACCOUNT_SPAN
}
