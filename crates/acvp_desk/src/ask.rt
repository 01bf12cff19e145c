//! What a request asks, as far as it is known before a row is looked at.

ghost use Rattle.std.specs.Prelude.{◌≡◌, ◌⊎◌, ◌<◌, ◌≤◌, ℕ, List, Some, None, IfOk, IfErr};
ghost use Rattle.acvp_mac.specs.Conditions.{first_broken};
ghost use Rattle.acvp_json.specs.LoginBody.{login_body_conditions};
ghost use Rattle.acvp_desk.specs.Request.{request_value};
ghost use Rattle.acvp_desk.specs.Bodies.{rule_of, body_conditions};
ghost use Rattle.acvp_desk.specs.Wish.{token_at};
ghost use Rattle.acvp_desk.specs.Login.{login_ask_at, password_of, user_of, renewal_of};
ghost use Rattle.acvp_desk.specs.Answer.{asker_of, first_conditions, action_of, end_of_moments, who};
ghost use Rattle.acvp_desk.specs.Named.{verified_account};
ghost use Rattle.acvp_desk.specs.Desk.{keys_of};

use crate::body::login_body;
use crate::request::{Ask, TypedRequest};
use crate::token::token_at;
use crate::wish::CallerAsk;
use acvp_json::Text;
use acvp_policy::{Action, Renewal, Rule};
use acvp_registry::{digits_number, plain_number};
use acvp_token::{KeyRing, TokenFault, verify_ring_for_renewal};
use std::alloc::Global;

/// The first moment that is no longer served: the year 2100, in seconds since 1970.
pub const END_OF_MOMENTS: u64 = 4102444800;

/// What a login asks: whose it is, where the user is the plain decimal of an account's number; the number of its
/// one-time code, where the password has the form of one; and what the token that it hands in came to.
#[derive(Clone, Copy)]
pub(crate) struct LoginAsk {
    pub user: Option<u16>,
    pub password: Option<u32>,
    pub renewal: Renewal,
}

/// What is asked.
#[derive(Clone, Copy)]
pub(crate) enum Asker {
    Login(LoginAsk),

    /// What a caller with a token asks.
    Caller(CallerAsk),
}

impl Asker {
    /// The action that it is.
    pub fn action(self) -> Action
        ensures { result ≡ action_of self }
    {
        match self {
            Asker::Login(_) => Action::Login,
            Asker::Caller(caller) => caller.wish.action(),
        }
    }

    /// The account of a caller's claims, which were verified. A login's isn't known before its code is.
    pub fn verified_account(self) -> Option<u16>
        ensures { result ≡ verified_account self }
    {
        match self {
            Asker::Login(_) => None,
            Asker::Caller(caller) => caller.account(),
        }
    }

    /// The account that is looked up: the login's user, or that of a caller's claims.
    pub fn who(self) -> Option<u16>
        ensures { result ≡ who self }
    {
        match self {
            Asker::Login(login) => login.user,
            Asker::Caller(caller) => caller.account(),
        }
    }
}

/// The number of a one-time code.
fn password_number(text: &[u8]) -> Option<u32>
    ensures { result ≡ password_of text.now }
{
    if text.len() != 8 {
        return None;
    }
    let number = digits_number(text)?;
    Some(number as u32)
}

/// The account's number that the user is.
fn user_number(text: &[u8]) -> Option<u16>
    ensures { result ≡ user_of text.now }
{
    match plain_number(text)? {
        number if number >= 1 && number <= 9999 => Some(number as u16),
        _ => None,
    }
}

/// What the token that is handed in came to; nothing where memory was refused.
fn renewal(alloc: Global, ring: &KeyRing, text: &Option<Text>) -> Result<Renewal, Rule>
    ensures value { IfOk result (λ renewal. renewal ≡ renewal_of ring.now text.now) }
    ensures memory { IfErr result (λ rule. rule ≡ Rule.Unavailable) }
{
    let Some(text) = text else {
        return Ok(Renewal::Unasked);
    };
    match verify_ring_for_renewal(alloc, ring, text.as_str().as_bytes()) {
        Ok(claims) => Ok(Renewal::Reads(claims)),
        Err(TokenFault::Memory) => Err(Rule::Unavailable),
        Err(_) => Ok(Renewal::Unreadable),
    }
}

/// What a login asks.
fn login_ask(alloc: Global, ring: &KeyRing, body: &[u8]) -> Result<LoginAsk, Rule>
    ensures ok { IfOk result (λ ask. (first_broken (body_conditions rule_of login_body_conditions body.now) ≡ None)
        × (login_ask_at ring.now body.now ≡ Some ask)) }
    ensures err { IfErr result (λ rule. (rule ≡ Rule.Unavailable)
        ⊎ (first_broken (body_conditions rule_of login_body_conditions body.now) ≡ Some rule)) }
{
    let login = login_body(alloc, body)?;
    let renewal = renewal(alloc, ring, &login.access_token)?;
    Ok(LoginAsk {
        user: user_number(login.user.as_str().as_bytes()),
        password: password_number(login.password.as_str().as_bytes()),
        renewal,
    })
}

/// What a request asks, or the rule of the first condition that is looked at before a row is and doesn't hold.
pub(crate) fn asker_for(
    alloc: Global,
    ring: &KeyRing,
    moment: u64,
    request: &TypedRequest<'_>,
) -> Result<Asker, Rule>
    ensures moment { IfOk result (λ _. moment < end_of_moments) }
    ensures clock { IfErr result (λ rule. end_of_moments ≤ moment → rule ≡ Rule.ClockOutOfRange) }
    ensures ok { IfOk result (λ ask. (first_broken (first_conditions moment (request_value request.now)) ≡ None)
        × ((seeds : List (List ℕ)) → asker_of (keys_of ring.now seeds) moment (request_value request.now) ≡ Some ask)) }
    ensures err { IfErr result (λ rule. (rule ≡ Rule.Unavailable)
        ⊎ (first_broken (first_conditions moment (request_value request.now)) ≡ Some rule)) }
{
    if moment >= END_OF_MOMENTS {
        return Err(Rule::ClockOutOfRange);
    }
    match request.ask {
        Ask::Login => Ok(Asker::Login(login_ask(alloc, ring, request.body)?)),
        Ask::Caller(wish) => {
            let token = token_at(alloc, ring, moment, &request.token)?;
            Ok(Asker::Caller(CallerAsk { token, wish }))
        }
    }
}
