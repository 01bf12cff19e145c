//! The URLs of vendors, modules and operational environments.
ghost use Rattle.std.specs.Prelude.{◌≡◌, ◌++◌, ℕ, IfOk, MatchOption, decimal, option_map, string_bytes};
ghost use Rattle.acvp_registry.specs.Url.{url_front, IsUrl, url_number_of, url_of};

use crate::kind::Kind;
use crate::number::plain_number;
use std::alloc::{AllocError, Global};

/// What stands before the number in the URLs of a kind. Certifications have no URL of their own.
fn place(kind: Kind) -> Option<&'static str>
    ensures { option_map (λ place. place.now) result ≡ url_front kind }
{
    match kind {
        Kind::Vendor => Some("/acvp/v1/vendors/"),
        Kind::Module => Some("/acvp/v1/modules/"),
        Kind::Environment => Some("/acvp/v1/oes/"),
        Kind::Certification => None,
    }
}

/// The number of the object of this kind that the URL names. A number has 1 to 19 digits without leading zeros. Whether
/// the object is there isn't asked.
pub fn url_number(kind: Kind, text: &str) -> Option<u64>
    ensures named { MatchOption result ((number : ℕ) → IsUrl kind number text.now
        → ⊥) (λ number. IsUrl kind number text.now) }
    ensures value { result ≡ url_number_of kind text.now }
{
    let digits = text.as_bytes().strip_prefix(place(kind)?.as_bytes())?;
    plain_number(digits)
}

/// The URL of the object of a kind and number. Certifications have no URL of their own.
pub fn object_url(alloc: Global, kind: Kind, number: u64) -> Result<Option<String>, AllocError>
    ensures { IfOk result (λ url. option_map string_bytes url ≡ url_of kind number) }
{
    match place(kind) {
        Some(place) => Ok(Some(numbered(alloc, place, number)?)),
        None => Ok(None),
    }
}

/// The text, and the number in decimal behind it.
fn numbered(alloc: Global, text: &str, number: u64) -> Result<String, AllocError>
    ensures { IfOk result (λ url. string_bytes url ≡ text.now ++ decimal number) }
{
    format!(in alloc; "{text}{number}")
}
