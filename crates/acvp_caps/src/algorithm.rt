//! The algorithms that are tested.

ghost use Rattle.std.specs.Prelude.{◌≡◌, ◌≢◌, ◌≤◌, MatchOption};
ghost use Rattle.acvp_mac.specs.declared.HashName.{HashName};
ghost use Rattle.acvp_caps.specs.declared.algorithm.Algorithm.{Algorithm};
ghost use Rattle.acvp_caps.specs.Capability.{block_bits, digest_bits};
ghost use Rattle.acvp_caps.specs.Algorithms.{algorithms, hash_of, is_hmac_of, name_of, named, algorithm_number};

use acvp_mac::HashName;

/// The hash functions of FIPS 180-4 but SHA-1, and HMAC (FIPS 198-1) over each of them, all in
/// revision `1.0`.
#[derive(Clone, Copy, PartialEq, Eq, Debug)]
pub enum Algorithm {
    /// SHA-224.
    Sha2_224,
    /// SHA-256.
    Sha2_256,
    /// SHA-384.
    Sha2_384,
    /// SHA-512.
    Sha2_512,
    /// SHA-512/224.
    Sha2_512_224,
    /// SHA-512/256.
    Sha2_512_256,
    /// HMAC with SHA-224.
    HmacSha2_224,
    /// HMAC with SHA-256.
    HmacSha2_256,
    /// HMAC with SHA-384.
    HmacSha2_384,
    /// HMAC with SHA-512.
    HmacSha2_512,
    /// HMAC with SHA-512/224.
    HmacSha2_512_224,
    /// HMAC with SHA-512/256.
    HmacSha2_512_256,
}

const ALL: [Algorithm; 12] = [
    Algorithm::Sha2_224,
    Algorithm::Sha2_256,
    Algorithm::Sha2_384,
    Algorithm::Sha2_512,
    Algorithm::Sha2_512_224,
    Algorithm::Sha2_512_256,
    Algorithm::HmacSha2_224,
    Algorithm::HmacSha2_256,
    Algorithm::HmacSha2_384,
    Algorithm::HmacSha2_512,
    Algorithm::HmacSha2_512_224,
    Algorithm::HmacSha2_512_256,
];

impl Algorithm {
    /// The algorithms in the order of their numbers.
    pub fn all() -> [Algorithm; 12]
        ensures { result ≡ algorithms }
    {
        ALL
    }

    /// The name in registrations, as `HMAC-SHA2-512/256`.
    pub fn name(self) -> &'static str
        ensures { result.now ≡ name_of self }
    {
        match self {
            Algorithm::Sha2_224 => "SHA2-224",
            Algorithm::Sha2_256 => "SHA2-256",
            Algorithm::Sha2_384 => "SHA2-384",
            Algorithm::Sha2_512 => "SHA2-512",
            Algorithm::Sha2_512_224 => "SHA2-512/224",
            Algorithm::Sha2_512_256 => "SHA2-512/256",
            Algorithm::HmacSha2_224 => "HMAC-SHA2-224",
            Algorithm::HmacSha2_256 => "HMAC-SHA2-256",
            Algorithm::HmacSha2_384 => "HMAC-SHA2-384",
            Algorithm::HmacSha2_512 => "HMAC-SHA2-512",
            Algorithm::HmacSha2_512_224 => "HMAC-SHA2-512/224",
            Algorithm::HmacSha2_512_256 => "HMAC-SHA2-512/256",
        }
    }

    /// The number, 1 to 12, by which URLs name the algorithm.
    pub fn number(self) -> u64
        ensures { result ≡ algorithm_number self }
    {
        match self {
            Algorithm::Sha2_224 => 1,
            Algorithm::Sha2_256 => 2,
            Algorithm::Sha2_384 => 3,
            Algorithm::Sha2_512 => 4,
            Algorithm::Sha2_512_224 => 5,
            Algorithm::Sha2_512_256 => 6,
            Algorithm::HmacSha2_224 => 7,
            Algorithm::HmacSha2_256 => 8,
            Algorithm::HmacSha2_384 => 9,
            Algorithm::HmacSha2_512 => 10,
            Algorithm::HmacSha2_512_224 => 11,
            Algorithm::HmacSha2_512_256 => 12,
        }
    }

    /// The algorithm of a name.
    pub fn from_name(name: &str) -> Option<Algorithm>
        ensures value { result ≡ named name.now }
        ensures name { MatchOption result ((a : Algorithm) → name_of a ≢ name.now) (λ a. name_of a ≡ name.now) }
    {
        algorithm_named(name)
    }

    /// The hash function, of HMAC the one within.
    pub fn hash(self) -> HashName
        ensures { result ≡ hash_of self }
    {
        match self {
            Algorithm::Sha2_224 | Algorithm::HmacSha2_224 => HashName::Sha224,
            Algorithm::Sha2_256 | Algorithm::HmacSha2_256 => HashName::Sha256,
            Algorithm::Sha2_384 | Algorithm::HmacSha2_384 => HashName::Sha384,
            Algorithm::Sha2_512 | Algorithm::HmacSha2_512 => HashName::Sha512,
            Algorithm::Sha2_512_224 | Algorithm::HmacSha2_512_224 => HashName::Sha512_224,
            Algorithm::Sha2_512_256 | Algorithm::HmacSha2_512_256 => HashName::Sha512_256,
        }
    }

    /// The bits of a block of the hash function (FIPS 180-4, section 1).
    pub fn block_bits(self) -> u64
        ensures { result ≡ block_bits self }
    {
        match self.hash() {
            HashName::Sha224 | HashName::Sha256 => 512,
            HashName::Sha384 | HashName::Sha512 | HashName::Sha512_224 | HashName::Sha512_256 => {
                1024
            }
        }
    }

    /// The bits of the hash function's digest (FIPS 180-4, section 1), the most that HMAC gives.
    pub fn digest_bits(self) -> u64
        ensures value { result ≡ digest_bits self }
        ensures most { result ≤ 512 }
    {
        match self.hash() {
            HashName::Sha224 | HashName::Sha512_224 => 224,
            HashName::Sha256 | HashName::Sha512_256 => 256,
            HashName::Sha384 => 384,
            HashName::Sha512 => 512,
        }
    }

    /// Whether it is HMAC, and so takes a key.
    pub fn is_hmac(self) -> bool
        ensures { result ≡ is_hmac_of self }
    {
        matches!(
            self,
            Algorithm::HmacSha2_224
                | Algorithm::HmacSha2_256
                | Algorithm::HmacSha2_384
                | Algorithm::HmacSha2_512
                | Algorithm::HmacSha2_512_224
                | Algorithm::HmacSha2_512_256
        )
    }
}

/// The algorithm of a name, looked for in the order of their numbers.
#[tactic(auto, unfolding(crate::specs::Algorithms::named))]
fn algorithm_named(name: &str) -> Option<Algorithm>
    ensures { result ≡ named name.now }
{
    ALL.iter()
        .copied()
        .find(|algorithm| algorithm.name() == name)
}
