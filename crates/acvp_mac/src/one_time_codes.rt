//! One-time codes of a time step (RFC 4226 and RFC 6238).

ghost use Rattle.std.specs.Prelude.{◌≡◌, ◌<◌, ◌↔◌, IsTrue};
ghost use Rattle.acvp_mac.specs.Codes as codes;
ghost use Rattle.acvp_mac.specs.Codes.{IsAcceptedStep, accepted, code_of};

use crate::{HashName, hmac};

/// The seconds of a time step.
const STEP_SECONDS: u64 = 30;

/// The codes are the numbers below this, of 8 digits.
const CODE_LIMIT: u32 = 100_000_000;

/// The time step of a moment in seconds since 1970 (RFC 6238, section 4.2).
pub fn step_of(moment: u64) -> u64
    ensures { result ≡ codes.step_of moment }
{
    moment / STEP_SECONDS
}

/// The code of a time step, as a number (RFC 4226, section 5.3).
pub fn totp(secret: &[u8], step: u64) -> u32
    ensures value { result ≡ code_of secret.now step }
    ensures digits { result < 100000000 }
{
    let mac = hmac(HashName::Sha256, secret, &step.to_be_bytes());
    let bytes = mac.as_slice();
    let offset = (bytes[31] & 0x0f) as usize;
    let word = u32::from_be_bytes([
        bytes[offset],
        bytes[offset + 1],
        bytes[offset + 2],
        bytes[offset + 3],
    ]);
    (word & 0x7fff_ffff) % CODE_LIMIT
}

/// The step that a code stands for at a moment: the current step or the one before it, above the
/// last one that was used. Both codes are always made, so that the time it takes tells of none.
pub fn accepted_step(secret: &[u8], last: Option<u64>, moment: u64, code: u32) -> Option<u64>
    ensures greatest { IsAcceptedStep secret.now last moment code result }
    ensures value { result ≡ accepted secret.now last moment code }
{
    let current = step_of(moment);
    let earlier = current.checked_sub(1);
    let current_code = totp(secret, current);
    let earlier_code = totp(secret, earlier.unwrap_or(current));
    if is_fresh(last, current) && current_code == code {
        return Some(current);
    }
    let earlier = earlier?;
    if is_fresh(last, earlier) && earlier_code == code {
        return Some(earlier);
    }
    None
}

/// Whether a step comes after the last one that was used.
fn is_fresh(last: Option<u64>, step: u64) -> bool
    ensures { IsTrue result ↔ codes.IsUnused last step }
{
    match last {
        Some(used) => used < step,
        None => true,
    }
}
