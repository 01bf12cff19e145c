//! Numbers in decimal digits.
ghost use Rattle.std.specs.Prelude.{◌≡◌, ◌≢◌, ◌^◌, ◌<◌, ℕ, IfSome, MatchOption, length, decimal};
ghost use Rattle.acvp_registry.specs.Number.{digits_number_of, plain_number_of};

const LONGEST: usize = 19;

/// The number that 1 to 19 decimal digits write, leading zeros among them, as a one-time code and a Content-Length may
/// have.
pub fn digits_number(text: &[u8]) -> Option<u64>
    ensures value { result ≡ digits_number_of text.now }
    ensures size { IfSome result (λ number. number < 10 ^ length text.now) }
{
    if text.is_empty() || text.len() > LONGEST {
        return None;
    }
    let mut number: u64 = 0;
    for digit in text {
        if !digit.is_ascii_digit() {
            return None;
        }
        number = number * 10 + u64::from(*digit - b'0');
    }
    Some(number)
}

/// The number that 1 to 19 decimal digits without leading zeros write, a lone `0` being one: that of a URL, of a path,
/// of a script and of a login's user.
pub fn plain_number(text: &[u8]) -> Option<u64>
    ensures written { MatchOption result ((n : ℕ) → n < 10 ^ 19 → text.now ≢ decimal n) (λ n. (n < 10 ^ 19)
        × (text.now ≡ decimal n)) }
    ensures value { result ≡ plain_number_of text.now }
{
    if text.len() > 1 && text[0] == b'0' {
        return None;
    }
    digits_number(text)
}
