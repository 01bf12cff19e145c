//! Bearer tokens: JSON Web Tokens (RFC 7519) in the compact form of RFC 7515, signed with
//! HMAC-SHA-256.
#![tactic(auto)]

pub use issuing::{issue, issue_ring, issued_reads_back, reads_while_its_key_stands};
pub use key_ring::KeyRing;
pub use session_number::account_of_session;
pub use verifying::{
    reads_one_way, verify, verify_for_renewal, verify_ring, verify_ring_for_renewal,
};

mod claims_json;
mod issuing;
mod key_ring;
mod opening;
mod session_number;
mod splitting;
mod verifying;

use std::alloc::AllocError;

/// What a token says: whom it stands for, and how long.
#[derive(Clone, Copy, PartialEq, Eq, Debug)]
pub struct Claims {
    /// The account, in the claim `sub`.
    pub account: u16,

    /// The test session that the token is bound to, in the claim `sid`.
    pub session: Option<u64>,

    /// When the token was issued, in seconds since 1970, in the claim `iat`.
    pub issued: u64,

    /// The first second at which the token is no longer good, in the claim `exp`.
    pub expires: u64,
}

/// Why a text is refused as a token, in the order of the tests, each with the rule by which such a bearer token is
/// refused.
#[derive(Clone, Copy, PartialEq, Eq, Debug)]
pub enum TokenFault {
    /// The first test, rule 12 `tokenMalformed`: the text has the shape of no token. It is too long, its parts do not
    /// decode, or its header does not ask for HMAC-SHA-256 alone; or, under a ring, names
    /// no key that is there and not retired.
    Malformed,

    /// The second test, rule 13 `tokenSignature`: the signature is not that of the key.
    Signature,

    /// The third test, rule 14 `tokenClaims`: the claims do not say whom the token stands for and how long.
    Claims,

    /// The fourth test, rule 15 `tokenExpired`: the moment is the end of the token or past it.
    Expired,

    /// The fifth fault, rule 45 `unavailable`: memory ran out, at any of the tests.
    Memory,
}

impl From<AllocError> for TokenFault {
    ghost use Rattle.std.specs.Prelude.{◌≡◌};
    ghost use Rattle.acvp_token.specs.declared.TokenFault.TheVariants.{Memory};

    ghost from_gives = { λ _ fault. fault ≡ Memory };

    fn from(_refused: AllocError) -> TokenFault {
        TokenFault::Memory
    }
}
