//! The bytes that a hash function gives, kept without memory of their own.

ghost use Rattle.std.specs.Prelude.{◌≡◌, ◌<◌, ◌≤◌, ◌-◌, ◌++◌, length, take, replicate, All};

use std::marker::Model;

/// A digest of at most 64 bytes, or the front of one.
#[derive(Clone, Copy, PartialEq, Eq, Debug)]
pub struct Digest {
    bytes: [u8; 64],
    len: usize,
}

impl Model for Digest {
    ghost use Rattle.std.specs.Prelude.{ℕ, List};

    ghost Value = { List ℕ };

    ghost use Rattle.acvp_mac.specs.Private.DigestBytes.{shown_bytes, IsZeroFilled, from_shown, from_shown-shown_bytes};

    ghost view = { shown_bytes };

    ghost invariant = { IsZeroFilled };

    ghost inverse = { from_shown };

    ghost inverse_ok = { from_shown-shown_bytes };
}

impl Digest {
    /// A digest of these bytes.
    pub(crate) fn from_bytes(bytes: &[u8]) -> Self
        requires { length bytes.now ≤ 64 }
        ensures value { result ≡ bytes.now }
        ensures bytes { All (λ b. b < 256) result }
    {
        Digest {
            bytes: zero_filled(bytes),
            len: bytes.len(),
        }
    }

    /// All bytes of the digest.
    pub fn as_slice(&self) -> &[u8]
        ensures value { result.now ≡ self.now }
        ensures len { length self.now ≤ 64 }
    {
        &self.bytes[..self.len]
    }

    /// The first `n` bytes.
    pub fn leftmost(&self, n: usize) -> &[u8]
        requires { n ≤ length self.now }
        ensures { result.now ≡ take n self.now }
    {
        &self.as_slice()[..n]
    }
}

/// The bytes, and then zeros up to `N` bytes.
pub(crate) fn zero_filled<const N: usize>(bytes: &[u8]) -> [u8; N]
    requires { length bytes.now ≤ N }
    ensures { result ≡ bytes.now ++ replicate (N - length bytes.now) 0 }
{
    let mut filled = [0u8; N];
    filled[..bytes.len()].copy_from_slice(bytes);
    filled
}
