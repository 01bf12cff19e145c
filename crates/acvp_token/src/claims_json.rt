//! The claims of a token as a JSON object, written and read.

ghost use Rattle.std.specs.Prelude.{◌≡◌, ◌≢◌, ◌≤◌, ℕ, decimal, string_bytes, Some, None, IfOk, IfErr};
ghost use Rattle.std.specs.Prelude.{MatchOption, Option};
ghost use Rattle.serde_json.specs.Data.{number, unsigned};
ghost use Rattle.serde_json.specs.Find.{get};
ghost use Rattle.serde_json.specs.View.{view};
ghost use Rattle.acvp_token.specs.ClaimsJson.{claims_data, claims_text};
ghost use Rattle.acvp_token.specs.Private.ClaimsWriting.{IsClaimsWritten};
ghost use Rattle.acvp_token.specs.Private.ClaimsReading.{IsAccount, IsNoAccount, IsSession, IsNoSession, GivesNoClaims};
ghost use Rattle.acvp_token.specs.Private.ClaimsReading.{IsNoClaimsText, IsNoSubject};
ghost use Rattle.acvp_token.specs.Reads.{GivesClaims, IsClaimsText};

use crate::{Claims, TokenFault};
use serde_json::{Value, json};
use std::alloc::{AllocError, Global};

/// The largest account.
const ACCOUNT_LIMIT: u16 = 9999;

/// The compact JSON text of the claims.
pub(crate) fn claims_text(alloc: Global, claims: Claims) -> Result<String, AllocError>
    ensures { IfOk result (λ t. IsClaimsWritten (string_bytes t) claims) }
{
    claims_value(alloc, claims)?.to_string(alloc)
}

/// The claims as a JSON value.
fn claims_value(alloc: Global, claims: Claims) -> Result<Value, AllocError>
    ensures { IfOk result (λ v. view v ≡ claims_data claims) }
{
    let issued = claims.issued;
    let expires = claims.expires;
    match claims.session {
        Some(session) => session_claims(alloc, claims.account, session, issued, expires),
        None => account_claims(alloc, claims.account, issued, expires),
    }
}

/// The claims of a token that is bound to a session, as a JSON value.
fn session_claims(
    alloc: Global,
    account: u16,
    session: u64,
    issued: u64,
    expires: u64,
) -> Result<Value, AllocError>
    ensures { IfOk result (λ v. view v
        ≡ claims_data (record { account = account; session = Some session; issued = issued; expires = expires })) }
{
    let subject = account.to_string(alloc)?;
    json!(in alloc; {"exp": expires, "iat": issued, "sid": session, "sub": subject})
}

/// The claims of a token that is bound to no session, as a JSON value.
fn account_claims(
    alloc: Global,
    account: u16,
    issued: u64,
    expires: u64,
) -> Result<Value, AllocError>
    ensures { IfOk result (λ v. view v
        ≡ claims_data (record { account = account; session = None; issued = issued; expires = expires })) }
{
    let subject = account.to_string(alloc)?;
    json!(in alloc; {"exp": expires, "iat": issued, "sub": subject})
}

/// The claims of a JSON text.
pub(crate) fn read_claims(alloc: Global, text: &[u8]) -> Result<Claims, TokenFault>
    ensures ok { IfOk result (IsClaimsText text.now) }
    ensures err { IfErr result (IsNoClaimsText text.now) }
{
    match Value::from_slice(alloc, text) {
        Ok(value) => claims_of(alloc, &value),
        Err(e) if e.is_memory() => Err(TokenFault::Memory),
        Err(_) => Err(TokenFault::Claims),
    }
}

/// The claims that the members of an object give.
fn claims_of(alloc: Global, value: &Value) -> Result<Claims, TokenFault>
    ensures ok { IfOk result (GivesClaims (view value.now)) }
    ensures err { IfErr result (GivesNoClaims (view value.now)) }
{
    if value.get("nbf").is_some() || value.get("aud").is_some() {
        return Err(TokenFault::Claims);
    }
    let issued = whole_number_in(value, "iat").ok_or(TokenFault::Claims)?;
    let expires = whole_number_in(value, "exp").ok_or(TokenFault::Claims)?;
    let session = session_of(value).ok_or(TokenFault::Claims)?;
    let account = account_of(alloc, value)?;
    Ok(Claims {
        account,
        session,
        issued,
        expires,
    })
}

/// The whole number below 2^64 in a member.
fn whole_number_in(value: &Value, name: &str) -> Option<u64>
    ensures { MatchOption result
        ((n : ℕ) → get name.now (view value.now) ≢ Some (number (unsigned n)))
        (λ n. get name.now (view value.now) ≡ Some (number (unsigned n))) }
{
    value.get(name).and_then(Value::as_u64)
}

/// The session, if there is one; nothing where the member is no whole number, as a float or null, which are there.
fn session_of(value: &Value) -> Option<Option<u64>>
    ensures { MatchOption result (IsNoSession (view value.now)) (IsSession (view value.now)) }
{
    match value.get("sid") {
        Some(session) => Some(Some(session.as_u64()?)),
        None => Some(None),
    }
}

/// The account that a token stands for.
fn account_of(alloc: Global, value: &Value) -> Result<u16, TokenFault>
    ensures ok { IfOk result (IsAccount (view value.now)) }
    ensures err { IfErr result (IsNoAccount (view value.now)) }
{
    match value.get("sub") {
        Some(Value::String(text)) => read_account(alloc, text.as_str()),
        _ => Err(TokenFault::Claims),
    }
}

/// The account of which this is the plain decimal.
fn read_account(alloc: Global, text: &str) -> Result<u16, TokenFault>
    ensures text { IfOk result (λ n. text.now ≡ decimal n) }
    ensures least { IfOk result (λ n. 1 ≤ n) }
    ensures greatest { IfOk result (λ n. n ≤ 9999) }
    ensures err { IfErr result (IsNoSubject text.now) }
{
    let Ok(account) = text.parse::<u16>() else {
        return Err(TokenFault::Claims);
    };
    let plain = account.to_string(alloc)?;
    if plain.as_str() == text && account >= 1 && account <= ACCOUNT_LIMIT {
        Ok(account)
    } else {
        Err(TokenFault::Claims)
    }
}
