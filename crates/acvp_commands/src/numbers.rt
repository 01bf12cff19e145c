//! The whole numbers of the command line. They are read as in paths and scripts: `clap` by itself would take `+7` and
//! `007`.
ghost use Rattle.std.specs.Prelude.{◌<◌, ◌^◌, ℕ, MatchOption};
ghost use Rattle.acvp_commands.specs.Numbers.{IsNumber, most_account, most_request, most_port, most_count};
ghost use Rattle.acvp_commands.specs.Numbers.{most_patience};

use acvp_registry::plain_number;

/// The greatest number of an account.
const MOST_ACCOUNT: u16 = 9999;

/// The greatest number of a request.
const MOST_REQUEST: u64 = 9999999999;

/// The greatest port.
const MOST_PORT: u16 = 65535;

/// The most connections of one run.
const MOST_COUNT: u64 = 1000000;

/// The most seconds that a client may have.
const MOST_PATIENCE: u64 = 3600;

/// The number from 1 to the most that a text is the plain decimal of.
fn number_within(text: &str, most: u64) -> Option<u64>
    requires { most < 10 ^ 19 }
    ensures { MatchOption result ((n : ℕ) → IsNumber most text.now n → ⊥) (λ n. IsNumber most text.now n) }
{
    let number = plain_number(text.as_bytes())?;
    if number >= 1 && number <= most {
        Some(number)
    } else {
        None
    }
}

/// The same, of numbers that have 16 bits.
fn short_within(text: &str, most: u16) -> Option<u16>
    ensures { MatchOption result ((n : ℕ) → IsNumber most text.now n → ⊥) (λ n. IsNumber most text.now n) }
{
    let number = number_within(text, u64::from(most))?;
    Some(number as u16)
}

/// The number of an account.
pub fn account_number(text: &str) -> Option<u16>
    ensures { MatchOption result ((n : ℕ) → IsNumber most_account text.now n → ⊥)
        (λ n. IsNumber most_account text.now n) }
{
    short_within(text, MOST_ACCOUNT)
}

/// The number of a request.
pub fn request_number(text: &str) -> Option<u64>
    ensures { MatchOption result ((n : ℕ) → IsNumber most_request text.now n → ⊥)
        (λ n. IsNumber most_request text.now n) }
{
    number_within(text, MOST_REQUEST)
}

/// A port of this machine.
pub fn port_number(text: &str) -> Option<u16>
    ensures { MatchOption result ((n : ℕ) → IsNumber most_port text.now n → ⊥) (λ n. IsNumber most_port text.now n) }
{
    short_within(text, MOST_PORT)
}

/// A number of connections.
pub fn connection_count(text: &str) -> Option<u64>
    ensures { MatchOption result ((n : ℕ) → IsNumber most_count text.now n → ⊥) (λ n. IsNumber most_count text.now n) }
{
    number_within(text, MOST_COUNT)
}

/// How many seconds a client has.
pub fn patience_number(text: &str) -> Option<u64>
    ensures { MatchOption result ((n : ℕ) → IsNumber most_patience text.now n → ⊥)
        (λ n. IsNumber most_patience text.now n) }
{
    number_within(text, MOST_PATIENCE)
}
