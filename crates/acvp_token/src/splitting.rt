//! A token's text is taken apart at its dots.

ghost use Rattle.std.specs.Prelude.{◌≡◌, ◌++◌, ◌∷◌, codes, MatchOption};
ghost use Rattle.acvp_token.specs.Private.Splitting.{HasNoDot, IsSplit, IsUnsplit};

/// The parts of a token's text.
#[derive(Clone, Copy)]
pub(crate) struct TextParts<'t> {
    /// The header, in base64url.
    pub(crate) header: &'t [u8],

    /// The claims, in base64url.
    pub(crate) claims: &'t [u8],

    /// The header and the claims with their dot.
    pub(crate) signed: &'t [u8],

    /// All that follows the second dot.
    pub(crate) signature: &'t [u8],
}

/// The parts round the first two dots of a text.
pub(crate) fn split_parts(text: &[u8]) -> Option<TextParts<'_>>
    ensures { MatchOption result (IsUnsplit text.now)
        (λ p. IsSplit text.now p.header.now p.claims.now p.signature.now
        × (p.signed.now ≡ p.header.now ++ codes "." ++ p.claims.now)) }
{
    let (header, rest) = split_at_dot(text)?;
    let (claims, signature) = split_at_dot(rest)?;
    let signed = &text[..header.len() + 1 + claims.len()];
    Some(TextParts {
        header,
        claims,
        signed,
        signature,
    })
}

/// What comes before the first dot of a text, and what comes after it.
fn split_at_dot(text: &[u8]) -> Option<(&[u8], &[u8])>
    ensures { MatchOption result (HasNoDot text.now)
        (λ p. (text.now ≡ p.0.now ++ 46 ∷ p.1.now) × HasNoDot p.0.now) }
{
    let place = text.iter().position(|b| *b == b'.')?;
    Some((&text[..place], &text[place + 1..]))
}
