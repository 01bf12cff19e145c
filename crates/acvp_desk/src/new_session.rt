//! What is given to who registers a new test session.

ghost use Rattle.std.specs.Prelude.{◌≡◌, ◌⊎◌, ◌<◌, Some, None, IfOk, IfErr, option_map};
ghost use Rattle.std.specs.List.{range_with_len};
ghost use Rattle.acvp_mac.specs.Conditions.{first_broken};
ghost use Rattle.acvp_tables.specs.State.{first_of_session};
ghost use Rattle.acvp_tables.specs.declared.change.Change.TheVariants as change;
ghost use Rattle.acvp_desk.specs.Answer.{end_of_moments, IsReply};
ghost use Rattle.acvp_desk.specs.NewSessions.{new_session_in, newest_epoch, session_made_data};
ghost use Rattle.acvp_desk.specs.OwnConditions.{new_session_conditions};

use crate::body::registration_body;
use crate::draft::{Draft, TOKEN_LIFE, told};
use crate::numbers::{MOST_ROWS, next_number};
use acvp_gen::Seeds;
use acvp_json::{Created, ReplyObject};
use acvp_mac::joined_conditions;
use acvp_policy::Rule;
use acvp_tables::{Change, NewSession};
use acvp_token::{Claims, KeyRing, issue_ring};
use std::alloc::{AllocError, Global};

/// How many numbers each session has for its vector sets.
const NUMBERS_OF_SESSION: u64 = 100;

/// The place of the newest seed.
fn newest_epoch(seeds: &Seeds) -> u64
    ensures { newest_epoch seeds.now ≡ Some result }
{
    seeds.newest()
}

/// So many numbers of a session's vector sets, from its first on.
fn numbers_of(alloc: Global, session: u64, count: usize) -> Result<Vec<u64>, AllocError>
    requires session { session < 100000000000 }
    requires count { count < 100 }
    ensures { IfOk result (λ numbers. numbers.items ≡ range_with_len (first_of_session session) count) }
{
    let first = session * NUMBERS_OF_SESSION + 1;
    let mut numbers = Vec::with_capacity(alloc, count)?;
    for place in 0..count {
        numbers.push(first + place as u64)?;
    }
    Ok(numbers)
}

/// What is told of a new session: a token that is bound to it, its times and its vector sets.
#[tactic(auto, unfolding(acvp_json::specs::ReplyData::reply_data))]
fn told_session(alloc: Global, ring: &KeyRing, session: NewSession) -> Result<Draft, Rule>
    requires created { session.created < end_of_moments }
    requires number { session.number < 100000000000 }
    ensures reply { IfOk result (λ draft. IsReply draft.reply.items (Some (session_made_data ring.now session))) }
    ensures change { IfOk result (λ draft. draft.change ≡ Some (change.NewSession session)) }
    ensures denied { IfErr result (λ denied. denied ≡ Rule.Unavailable) }
{
    let claims = Claims {
        account: session.account,
        session: Some(session.number),
        issued: session.created,
        expires: session.created + TOKEN_LIFE,
    };
    let Ok(token) = issue_ring(alloc, ring, &claims) else {
        return Err(Rule::Unavailable);
    };
    let count = session.registration.capabilities().len();
    let Ok(sets) = numbers_of(alloc, session.number, count) else {
        return Err(Rule::Unavailable);
    };
    let object = ReplyObject::NewSession {
        token: token.as_str(),
        number: session.number,
        created: Created::at(session.created),
        sets: &sets,
    };
    told(alloc, &object, Some(Change::NewSession(session)))
}

/// What is given to who registers a new session beside so many of its account, or the rule of the first condition on
/// the body and the numbers that are left that doesn't hold.
pub(crate) fn draft_new_session(
    alloc: Global,
    ring: &KeyRing,
    seeds: &Seeds,
    moment: u64,
    account: u16,
    sessions: u64,
    body: &[u8],
) -> Result<Draft, Rule>
    requires { moment < end_of_moments }
    ensures held { IfOk result (λ _. first_broken (new_session_conditions body.now sessions) ≡ None) }
    ensures reply { IfOk result (λ draft. IsReply draft.reply.items
        (option_map (session_made_data ring.now) (new_session_in seeds.now moment account sessions body.now))) }
    ensures change { IfOk result (λ draft. draft.change
        ≡ option_map change.NewSession (new_session_in seeds.now moment account sessions body.now)) }
    ensures denied { IfErr result (λ denied. (denied ≡ Rule.Unavailable)
        ⊎ (first_broken (new_session_conditions body.now sessions) ≡ Some denied)) }
{
    joined_conditions::<Rule>();
    let registration = match registration_body(alloc, body) {
        Ok(registration) => registration,
        Err(rule) => return Err(rule),
    };
    if sessions >= MOST_ROWS {
        return Err(Rule::AccountFull);
    }
    let session = NewSession {
        number: next_number(account, sessions),
        account,
        created: moment,
        epoch: newest_epoch(seeds),
        registration,
    };
    told_session(alloc, ring, session)
}
