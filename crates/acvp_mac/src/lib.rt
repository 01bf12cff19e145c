//! Message digests (FIPS 180-4), keyed digests (FIPS 198-1) and one-time codes (RFC 4226 and
//! RFC 6238). Nothing here takes memory, and no call fails.
#![tactic(auto)]

pub use conditions::{joined_conditions, renamed_conditions};
pub use digest_bytes::Digest;
pub use hash_functions::{HashFunction, hash, hash_pieces};
pub use keyed_hash::hmac;
pub use one_time_codes::{accepted_step, step_of, totp};
pub use sha2::{Sha224, Sha256, Sha384, Sha512, Sha512_224, Sha512_256};

mod conditions;
mod digest_bytes;
mod hash_functions;
mod keyed_hash;
mod one_time_codes;

/// The hash functions of FIPS 180-4 but SHA-1.
#[derive(Clone, Copy, PartialEq, Eq, Debug)]
pub enum HashName {
    /// SHA-224.
    Sha224,
    /// SHA-256.
    Sha256,
    /// SHA-384.
    Sha384,
    /// SHA-512.
    Sha512,
    /// SHA-512/224.
    Sha512_224,
    /// SHA-512/256.
    Sha512_256,
}
