//! What the token of a request comes to.

ghost use Rattle.std.specs.Prelude.{◌≡◌, IfOk, IfErr};
ghost use Rattle.acvp_desk.specs.Request.{token_value};
ghost use Rattle.acvp_desk.specs.Wish.{token_at};

use crate::request::TokenField;
use acvp_policy::{Rule, Token};
use acvp_token::{KeyRing, TokenFault, verify_ring};
use std::alloc::Global;

/// What verifying the token field of a request comes to, at a moment; nothing where memory was refused.
pub(crate) fn token_at(
    alloc: Global,
    ring: &KeyRing,
    moment: u64,
    field: &TokenField<'_>,
) -> Result<Token, Rule>
    ensures value { IfOk result (λ token. token ≡ token_at ring.now moment (token_value field.now)) }
    ensures memory { IfErr result (λ rule. rule ≡ Rule.Unavailable) }
{
    let text = match field {
        TokenField::Missing => return Ok(Token::Missing),
        TokenField::Doubled => return Ok(Token::Malformed),
        TokenField::Bearer(text) => *text,
    };
    match verify_ring(alloc, ring, text, moment) {
        Ok(claims) => Ok(Token::Verified(claims)),
        Err(TokenFault::Malformed) => Ok(Token::Malformed),
        Err(TokenFault::Signature) => Ok(Token::NotSigned),
        Err(TokenFault::Claims) => Ok(Token::NotRead),
        Err(TokenFault::Expired) => Ok(Token::Expired),
        Err(TokenFault::Memory) => Err(Rule::Unavailable),
    }
}
