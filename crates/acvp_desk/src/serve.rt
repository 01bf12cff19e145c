//! A request is served: found, decided, drafted, and carried out.

ghost use Rattle.std.specs.Prelude.{◌≡◌, ◌<◌, ◌⊎◌, true, None, Some, IfOk, IfErr};
ghost use Rattle.acvp_mac.specs.Conditions.{first_broken};
ghost use Rattle.acvp_desk.specs.Answer.{action_in, change_of, end_of_moments, later_conditions};
ghost use Rattle.acvp_desk.specs.Answer.{reply_of, IsReply};
ghost use Rattle.acvp_desk.specs.Desk.{keys_of};
ghost use Rattle.acvp_desk.specs.Named.{IsNamed};
ghost use Rattle.acvp_desk.specs.Private.Admitted.{IsAdmitted};
ghost use Rattle.acvp_desk.specs.Request.{request_value};
ghost use Rattle.acvp_desk.specs.Serves.{Serves};
ghost use Rattle.acvp_desk.specs.Private.Covered.{CoversAny};
ghost use Rattle.acvp_desk.specs.Private.Within.{is_fit};

use crate::ask::asker_for;
use crate::cache::Cache;
use crate::draft::{Draft, draft_for};
use crate::facts::facts_in;
use crate::find::find;
use crate::found::Found;
use crate::laws::records_are_kept;
use crate::request::TypedRequest;
use acvp_policy::{Action, Grant, Rule, decide_admitted, granted_resources, release};
use acvp_tables::Tables;
use acvp_token::KeyRing;
use std::alloc::Global;

/// Leave for what is drafted. Its grant must be spent.
struct Allowed {
    grant: Grant,
    draft: Draft,
}

/// Decides what the rules on the caller have let through, and then drafts: the one place that holds a grant while
/// something can fail.
fn plan(
    alloc: Global,
    ring: &KeyRing,
    cache: &mut Cache,
    moment: u64,
    body: &[u8],
    action: Action,
    found: Found,
) -> Result<Allowed, Rule>
    requires moment { moment < end_of_moments }
    requires action { action_in found ≡ action }
    requires fit { is_fit found ≡ true }
    requires admitted { IsAdmitted moment found }
    ensures held { IfOk result
        (λ _. first_broken (later_conditions cache.old.seeds moment body.now found) ≡ None) }
    ensures reply { IfOk result (λ allowed. IsReply allowed.draft.reply.items
        (reply_of (keys_of ring.now cache.old.seeds) moment body.now found)) }
    ensures change { IfOk result (λ allowed. allowed.draft.change
        ≡ change_of (keys_of ring.now cache.old.seeds) moment body.now found) }
    ensures seeds { cache.new.seeds ≡ cache.old.seeds }
    ensures covers { IfOk result (λ allowed. CoversAny allowed.grant allowed.draft.change) }
    ensures denied { IfErr result (λ rule. (rule ≡ Rule.Unavailable)
        ⊎ (first_broken (later_conditions cache.old.seeds moment body.now found) ≡ Some rule)) }
{
    granted_resources();
    let grant = match decide_admitted(action, &facts_in(moment, &found)) {
        Ok(grant) => grant,
        Err(rule) => return Err(rule),
    };
    match draft_for(alloc, ring, cache, moment, body, found) {
        Ok(draft) => Ok(Allowed { grant, draft }),
        Err(rule) => {
            release(grant);
            Err(rule)
        }
    }
}

/// What is given: the bytes of the reply, and whether a change was made.
#[derive(Drop)]
pub(crate) struct Served {
    pub reply: Vec<u8>,
    pub changed: bool,
}

/// What serving a request came to, and the account that asked, as far as it is known.
#[derive(Drop)]
pub(crate) struct Ended {
    pub result: Result<Served, Rule>,
    pub account: Option<u16>,
}

/// Serves a request.
pub(crate) fn serve<T: Tables>(
    alloc: Global,
    ring: &KeyRing,
    cache: &mut Cache,
    tables: &mut T,
    moment: u64,
    request: &TypedRequest<'_>,
) -> Ended
    ensures served { Serves T.meaning result.result tables.old tables.new (keys_of ring.now cache.old.seeds) moment
        (request_value request.now) }
    ensures named { IsNamed result.result tables.old tables.new (keys_of ring.now cache.old.seeds) moment
        (request_value request.now) result.account }
    ensures seeds { cache.new.seeds ≡ cache.old.seeds }
{
    records_are_kept();
    let ask = match asker_for(alloc, ring, moment, request) {
        Ok(ask) => ask,
        Err(rule) => {
            return Ended {
                result: Err(rule),
                account: None,
            };
        }
    };
    let found = match find(alloc, tables, moment, request.body, &ask) {
        Ok(found) => found,
        Err(rule) => {
            return Ended {
                result: Err(rule),
                account: ask.verified_account(),
            };
        }
    };
    let action = ask.action();
    let Allowed { grant, draft } = match plan(
        alloc,
        ring,
        cache,
        moment,
        request.body,
        action,
        found,
    ) {
        Ok(allowed) => allowed,
        Err(rule) => {
            return Ended {
                result: Err(rule),
                account: ask.verified_account(),
            };
        }
    };
    let Draft { reply, change } = draft;
    match change {
        None => {
            release(grant);
            Ended {
                result: Ok(Served {
                    reply,
                    changed: false,
                }),
                account: ask.who(),
            }
        }
        Some(change) => match tables.apply(grant, &change) {
            Ok(()) => Ended {
                result: Ok(Served {
                    reply,
                    changed: true,
                }),
                account: ask.who(),
            },
            Err(_) => Ended {
                result: Err(Rule::Unavailable),
                account: ask.verified_account(),
            },
        },
    }
}
