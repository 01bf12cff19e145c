//! The token that a head carries.
ghost use Rattle.std.specs.Prelude.{◌≡◌, ◌≤◌, All, length, map};
ghost use Rattle.httparse.specs.Spans.{header_bytes, IsHeaderWithin};
ghost use Rattle.acvp_desk.specs.Request.{token_value};
ghost use Rattle.acvp_http.specs.Asks.{skip_spaces, without_spaces, bearer_of, token_of};
ghost use Rattle.acvp_http.specs.Private.Spaces.{skip_last_spaces};

use crate::framing::field_values_of;
use acvp_desk::TokenField;
use httparse::spans::HeaderSpan;

/// The name of the scheme (RFC 6750, section 2.1), in any case, and its space.
const SCHEME: &[u8] = b"Bearer ";

/// The bytes from the first that is no space.
fn without_first_spaces(text: &[u8]) -> &[u8]
    ensures { result.now ≡ skip_spaces text.now }
{
    let mut rest = text;
    while let Some((b' ', behind)) = rest.split_first() {
        rest = behind;
    }
    rest
}

/// The bytes up to the last that is no space.
fn without_last_spaces(text: &[u8]) -> &[u8]
    ensures { result.now ≡ skip_last_spaces text.now }
{
    let mut rest = text;
    while let Some((b' ', before)) = rest.split_last() {
        rest = before;
    }
    rest
}

/// The bytes without the spaces at their ends.
#[tactic(auto, unfolding(crate::specs::Asks::without_spaces))]
fn without_spaces(text: &[u8]) -> &[u8]
    ensures { result.now ≡ without_spaces text.now }
{
    without_last_spaces(without_first_spaces(text))
}

/// The token of a field's value.
fn bearer_of(value: &[u8]) -> TokenField<'_>
    ensures { token_value result ≡ bearer_of value.now }
{
    match value.split_at_checked(SCHEME.len()) {
        Some((scheme, rest)) if scheme.eq_ignore_ascii_case(SCHEME) => {
            TokenField::Bearer(without_spaces(rest))
        }
        _ => TokenField::Missing,
    }
}

/// What the `Authorization` fields of a head hold.
pub(crate) fn token_of<'a>(block: &'a [u8], headers: &[HeaderSpan]) -> TokenField<'a>
    requires within { All (IsHeaderWithin (length block.now)) headers.now }
    requires few { length headers.now ≤ 64 }
    ensures { token_value result ≡ token_of (map (header_bytes block.now) headers.now) }
{
    let fields = field_values_of(block, headers, b"authorization");
    match fields.as_slice() {
        [] => TokenField::Missing,
        [value] => bearer_of(value.of(block)),
        _ => TokenField::Doubled,
    }
}
