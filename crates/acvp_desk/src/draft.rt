//! What is given where all conditions hold: the reply, and the change that is made.

ghost use Rattle.std.specs.Prelude.{◌≡◌, ◌⊎◌, ◌<◌, true, Some, None, IfOk, IfErr};
ghost use Rattle.acvp_mac.specs.Conditions.{first_broken};
ghost use Rattle.acvp_token.specs.TokenText.{ring_token_text};
ghost use Rattle.acvp_json.specs.ReplyData.{reply_data, token_data};
ghost use Rattle.acvp_desk.specs.Answer.{acting, change_of, end_of_moments, login_change, login_reply};
ghost use Rattle.acvp_desk.specs.Answer.{own_conditions, policy_conditions, reply_of, IsReply};
ghost use Rattle.acvp_desk.specs.Desk.{keys_of};
ghost use Rattle.acvp_desk.specs.OwnConditions.{place_conditions};
ghost use Rattle.acvp_desk.specs.Replies.{place_change, place_reply};
ghost use Rattle.acvp_desk.specs.Login.{renewed_session};
ghost use Rattle.acvp_desk.specs.Private.Within.{is_fit, is_within};
ghost use Rattle.acvp_desk.specs.declared.found.Found.TheVariants as found;

use crate::algorithm::draft_algorithm;
use crate::ask::LoginAsk;
use crate::cache::Cache;
use crate::cancel::draft_cancelled;
use crate::facts::login_step;
use crate::find::acting;
use crate::found::{Found, FoundCaller, Place};
use crate::listing::draft_sessions;
use crate::new_session::draft_new_session;
use crate::registration::draft_certification;
use crate::registry::draft_registry;
use crate::reviewers::draft_removed;
use crate::session::draft_session;
use crate::set::draft_set;
use acvp_json::{ReplyObject, write_reply};
use acvp_policy::{Renewal, Rule};
use acvp_tables::{AccountRow, Change, UsedStep};
use acvp_token::{Claims, KeyRing, issue_ring};
use std::alloc::{AllocError, Global};

/// How long a token lives, in seconds.
pub(crate) const TOKEN_LIFE: u64 = 1800;

/// How many bytes stand before the body of a reply, for its head.
pub const SPARE_BYTES: usize = 256;

const SPARE: [u8; SPARE_BYTES] = [0; SPARE_BYTES];

/// A reply's bytes, and the change that it tells of.
#[derive(Drop)]
pub(crate) struct Draft {
    pub reply: Vec<u8>,
    pub change: Option<Change>,
}

/// The spare bytes, and then the body of an object.
fn written<'a>(alloc: Global, object: &'a ReplyObject<'a>) -> Result<Vec<u8>, AllocError>
    ensures { IfOk result (λ reply. IsReply reply.items (Some (reply_data object.now))) }
{
    let body = write_reply(alloc, object)?;
    let mut reply = Vec::with_capacity(alloc, SPARE.len() + body.len())?;
    reply.extend_from_slice(&SPARE)?;
    reply.extend_from_slice(&body)?;
    Ok(reply)
}

/// The reply with an object, and the change that it tells of.
#[tactic(auto, unfolding(acvp_json::specs::ReplyData::reply_data))]
pub(crate) fn told<'a>(
    alloc: Global,
    object: &'a ReplyObject<'a>,
    change: Option<Change>,
) -> Result<Draft, Rule>
    ensures reply { IfOk result (λ draft. IsReply draft.reply.items (Some (reply_data object.now))) }
    ensures change { IfOk result (λ draft. draft.change ≡ change) }
    ensures denied { IfErr result (λ rule. rule ≡ Rule.Unavailable) }
{
    match written(alloc, object) {
        Ok(reply) => Ok(Draft { reply, change }),
        Err(_) => Err(Rule::Unavailable),
    }
}

/// A copy of a reply that was written before, and tells of no change.
pub(crate) fn told_again(reply: &Vec<u8>) -> Result<Draft, Rule>
    ensures reply { IfOk result (λ draft. draft.reply.items ≡ reply.now.items) }
    ensures change { IfOk result (λ draft. draft.change ≡ None) }
    ensures denied { IfErr result (λ rule. rule ≡ Rule.Unavailable) }
{
    match reply.clone() {
        Ok(reply) => Ok(Draft {
            reply,
            change: None,
        }),
        Err(_) => Err(Rule::Unavailable),
    }
}

/// The reply with the new token of an account, and the change that it tells of.
#[tactic(auto, unfolding(acvp_json::specs::ReplyData::reply_data))]
fn token_told(alloc: Global, ring: &KeyRing, claims: &Claims, change: Change) -> Result<Draft, Rule>
    ensures reply { IfOk result
        (λ draft. IsReply draft.reply.items (Some (token_data (ring_token_text ring.now claims.now)))) }
    ensures change { IfOk result (λ draft. draft.change ≡ Some change) }
    ensures denied { IfErr result (λ rule. rule ≡ Rule.Unavailable) }
{
    let Ok(token) = issue_ring(alloc, ring, claims) else {
        return Err(Rule::Unavailable);
    };
    let object = ReplyObject::Login {
        token: token.as_str(),
    };
    told(alloc, &object, Some(change))
}

/// The session of the token that is renewed.
fn renewed_session(renewal: Renewal) -> Option<u64>
    ensures { result ≡ renewed_session renewal }
{
    match renewal {
        Renewal::Reads(claims) => claims.session,
        Renewal::Unasked | Renewal::Unreadable => None,
    }
}

/// What a login is given: the new token, and that its step is used.
fn draft_login(
    alloc: Global,
    ring: &KeyRing,
    moment: u64,
    login: &LoginAsk,
    account: &Option<AccountRow>,
) -> Result<Draft, Rule>
    requires moment { moment < end_of_moments }
    requires held { first_broken (policy_conditions moment (found.Login login.now account.now)) ≡ None }
    ensures reply { IfOk result
        (λ draft. IsReply draft.reply.items (login_reply ring.now moment login.now account.now)) }
    ensures change { IfOk result (λ draft. draft.change ≡ login_change moment login.now account.now) }
    ensures denied { IfErr result (λ rule. rule ≡ Rule.Unavailable) }
{
    // Who has no account or no code was refused before.
    let Some(row) = account else {
        return Err(Rule::LoginRefused);
    };
    let Some(step) = login_step(moment, login, row) else {
        return Err(Rule::LoginRefused);
    };
    let claims = Claims {
        account: row.number,
        session: renewed_session(login.renewal),
        issued: moment,
        expires: moment + TOKEN_LIFE,
    };
    let used = UsedStep {
        account: row.number,
        step,
    };
    token_told(alloc, ring, &claims, Change::UseStep(used))
}

/// What a caller is given, or the rule of the first condition of the action's own that doesn't hold.
#[tactic(auto, unfolding(acvp_json::specs::ReplyData::reply_data))]
fn draft_place(
    alloc: Global,
    ring: &KeyRing,
    cache: &mut Cache,
    moment: u64,
    body: &[u8],
    caller: FoundCaller,
) -> Result<Draft, Rule>
    requires moment { moment < end_of_moments }
    requires held { first_broken (policy_conditions moment (found.Caller caller)) ≡ None }
    requires within { is_within caller.place ≡ true }
    ensures held { IfOk result (λ _. first_broken (place_conditions cache.old.seeds body.now caller.place) ≡ None) }
    ensures reply { IfOk result (λ draft. IsReply draft.reply.items
        (place_reply (keys_of ring.now cache.old.seeds) moment (acting caller) body.now caller.place)) }
    ensures change { IfOk result
        (λ draft. draft.change ≡ place_change cache.old.seeds moment (acting caller) body.now caller.place) }
    ensures seeds { cache.new.seeds ≡ cache.old.seeds }
    ensures denied { IfErr result (λ rule. (rule ≡ Rule.Unavailable)
        ⊎ (first_broken (place_conditions cache.old.seeds body.now caller.place) ≡ Some rule)) }
{
    let account = acting(&caller.token);
    match caller.place {
        Place::Account(counts) => {
            told(alloc, &ReplyObject::ReadAccount { account, counts }, None)
        }
        Place::Algorithms => told(alloc, &ReplyObject::ListAlgorithms, None),
        Place::Algorithm(number) => draft_algorithm(alloc, number),
        Place::Session(number, found, it) => {
            // What isn't there was refused before.
            let Some(facts) = found else {
                return Err(Rule::NoResource);
            };
            draft_session(alloc, moment, number, body, &it, &facts)
        }
        Place::Reviewer(session, reviewer, found, accounts) => {
            let Some(_) = found else {
                return Err(Rule::NoResource);
            };
            draft_removed(alloc, session, reviewer, &accounts.numbers)
        }
        Place::NewSession(sessions) => {
            draft_new_session(alloc, ring, cache.seeds(), moment, account, sessions, body)
        }
        Place::Set(session, number, found, it) => {
            let Some(facts) = found else {
                return Err(Rule::NoResource);
            };
            draft_set(alloc, cache, moment, session, number, body, it, &facts)
        }
        Place::CancelSet(session, set, _, sets) => {
            draft_cancelled(alloc, session, set, &sets.sets)
        }
        Place::Sessions(found) => draft_sessions(alloc, &found),
        Place::Certify(session, _, parts, grounds) => {
            draft_certification(alloc, account, session, parts, &grounds)
        }
        Place::Registry(it) => draft_registry(alloc, account, it),
    }
}

/// What is given where the policy lets through, or the rule of the first condition of the action's own that doesn't
/// hold.
pub(crate) fn draft_for(
    alloc: Global,
    ring: &KeyRing,
    cache: &mut Cache,
    moment: u64,
    body: &[u8],
    found: Found,
) -> Result<Draft, Rule>
    requires moment { moment < end_of_moments }
    requires held { first_broken (policy_conditions moment found) ≡ None }
    requires fit { is_fit found ≡ true }
    ensures held { IfOk result (λ _. first_broken (own_conditions cache.old.seeds body.now found) ≡ None) }
    ensures reply { IfOk result
        (λ draft. IsReply draft.reply.items (reply_of (keys_of ring.now cache.old.seeds) moment body.now found)) }
    ensures change { IfOk result
        (λ draft. draft.change ≡ change_of (keys_of ring.now cache.old.seeds) moment body.now found) }
    ensures seeds { cache.new.seeds ≡ cache.old.seeds }
    ensures denied { IfErr result (λ rule. (rule ≡ Rule.Unavailable)
        ⊎ (first_broken (own_conditions cache.old.seeds body.now found) ≡ Some rule)) }
{
    match found {
        Found::Login(login, account) => draft_login(alloc, ring, moment, &login, &account),
        Found::Caller(caller) => draft_place(alloc, ring, cache, moment, body, caller),
    }
}
