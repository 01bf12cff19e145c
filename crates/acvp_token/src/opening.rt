//! A token's text is decoded and its header judged.

ghost use Rattle.std.specs.Prelude.{◌≡◌, IfOk, IfErr};
ghost use Rattle.base64.specs.GeneralPurpose.{IsBytes};
ghost use Rattle.serde_json.specs.View.{view};
ghost use Rattle.acvp_token.specs.TokenText.{encoded};
ghost use Rattle.acvp_token.specs.Private.Opening.{IsUndecoded, IsNoHeader, IsHeaderText, HasOpened, IsUnopened};

use crate::TokenFault;
use crate::splitting::split_parts;
use base64::DecodeAllocError;
use base64::engine::general_purpose::URL_SAFE_NO_PAD;
use serde_json::Value;
use std::alloc::Global;

/// The most bytes that a token has.
const TEXT_LIMIT: usize = 1024;

/// A token whose header is judged, with its signature not yet checked.
#[derive(Drop)]
pub(crate) struct OpenToken<'t> {
    /// The header.
    pub(crate) header: Value,

    /// What the signature is over.
    pub(crate) signed: &'t [u8],

    /// The claims as JSON text.
    pub(crate) claims: Vec<u8>,

    /// The signature.
    pub(crate) signature: Vec<u8>,
}

/// The parts of a token, decoded.
pub(crate) fn open_token(alloc: Global, text: &[u8]) -> Result<OpenToken<'_>, TokenFault>
    ensures ok { IfOk result
        (λ t. HasOpened text.now (view t.header) t.signed.now t.claims.items t.signature.items) }
    ensures err { IfErr result (IsUnopened text.now) }
{
    if text.len() > TEXT_LIMIT {
        return Err(TokenFault::Malformed);
    }
    let Some(parts) = split_parts(text) else {
        return Err(TokenFault::Malformed);
    };
    let header = decode_part(alloc, parts.header)?;
    let claims = decode_part(alloc, parts.claims)?;
    let signature = decode_part(alloc, parts.signature)?;
    let header = read_header(alloc, &header)?;
    Ok(OpenToken {
        header,
        signed: parts.signed,
        claims,
        signature,
    })
}

/// The bytes that a part encodes.
fn decode_part(alloc: Global, part: &[u8]) -> Result<Vec<u8>, TokenFault>
    ensures value { IfOk result (λ v. part.now ≡ encoded v.items) }
    ensures bytes { IfOk result (λ v. IsBytes v.items) }
    ensures err { IfErr result (IsUndecoded part.now) }
{
    match URL_SAFE_NO_PAD.decode(alloc, part) {
        Ok(bytes) => Ok(bytes),
        Err(DecodeAllocError::DecodeError(_)) => Err(TokenFault::Malformed),
        Err(DecodeAllocError::OutOfMemory) => Err(TokenFault::Memory),
    }
}

/// The value of a header that asks for the one algorithm and for no extension.
fn read_header(alloc: Global, header: &[u8]) -> Result<Value, TokenFault>
    ensures ok { IfOk result (λ v. IsHeaderText header.now (view v)) }
    ensures err { IfErr result (IsNoHeader header.now) }
{
    let value = match Value::from_slice(alloc, header) {
        Ok(value) => value,
        Err(e) if e.is_memory() => return Err(TokenFault::Memory),
        Err(_) => return Err(TokenFault::Malformed),
    };
    let is_signed_so = value.get("alg").and_then(Value::as_str) == Some("HS256");
    if is_signed_so && value.get("crit").is_none() {
        Ok(value)
    } else {
        Err(TokenFault::Malformed)
    }
}
