//! What is given to who asks the operator for a registration or a certification.

ghost use Rattle.std.specs.Prelude.{◌≡◌, ◌⊎◌, ◌<◌, Some, None, IfOk, IfErr};
ghost use Rattle.acvp_json.specs.Registry.{request_data};
ghost use Rattle.acvp_mac.specs.Conditions.{first_broken};
ghost use Rattle.acvp_registry.specs.declared.kind.Kind.TheVariants as of_kind;
ghost use Rattle.acvp_desk.specs.Answer.{IsReply};
ghost use Rattle.acvp_desk.specs.Asked.{requested_conditions, grounds_conditions, waiting_reply, certification_change};
ghost use Rattle.acvp_desk.specs.Asked.{next_request, object_change, request_waiting};

use crate::draft::{Draft, told};
use crate::found::Grounds;
use crate::numbers::{MOST_ROWS, next_number};
use acvp_json::{CertifyBody, ReplyObject};
use acvp_policy::Rule;
use acvp_registry::{Kind, Object, PendingRequest, Status};
use acvp_tables::{Certification, Change, NewCertification, NewRequest};
use std::alloc::Global;

/// The number of the account's next request, or the rule of the first condition beside those on the body that doesn't
/// hold.
pub(crate) fn next_request(account: u16, grounds: &Grounds) -> Result<u64, Rule>
    ensures ok { IfOk result (λ number. (first_broken (grounds_conditions grounds.now) ≡ None)
        × (number ≡ next_request account grounds.now)) }
    ensures err { IfErr result (λ rule. first_broken (grounds_conditions grounds.now) ≡ Some rule) }
{
    if !grounds.named {
        return Err(Rule::NoReference);
    }
    if grounds.requests >= MOST_ROWS {
        return Err(Rule::AccountFull);
    }
    Ok(next_number(account, grounds.requests))
}

/// What is told of a request that waits for the operator's decision.
#[tactic(auto, unfolding(acvp_json::specs::ReplyData::reply_data))]
fn told_waiting(alloc: Global, number: u64, kind: Kind, change: Change) -> Result<Draft, Rule>
    ensures reply { IfOk result
        (λ draft. IsReply draft.reply.items (Some (request_data (request_waiting kind number)))) }
    ensures change { IfOk result (λ draft. draft.change ≡ Some change) }
    ensures denied { IfErr result (λ rule. rule ≡ Rule.Unavailable) }
{
    let request = PendingRequest {
        number,
        kind,
        status: Status::Initial,
        approved: None,
    };
    told(alloc, &ReplyObject::Request { request }, Some(change))
}

/// What is given to who asks for the registration of an object, or the rule of the first condition that doesn't hold.
pub(crate) fn draft_new_object(
    alloc: Global,
    account: u16,
    kind: Kind,
    object: Result<Object, Rule>,
    grounds: &Grounds,
) -> Result<Draft, Rule>
    ensures held { IfOk result (λ _. first_broken (requested_conditions object grounds.now) ≡ None) }
    ensures reply { IfOk result
        (λ draft. IsReply draft.reply.items (Some (waiting_reply kind account grounds.now))) }
    ensures change { IfOk result (λ draft. draft.change ≡ object_change account object grounds.now) }
    ensures denied { IfErr result (λ rule. (rule ≡ Rule.Unavailable)
        ⊎ (first_broken (requested_conditions object grounds.now) ≡ Some rule)) }
{
    let object = match object {
        Ok(object) => object,
        Err(rule) => return Err(rule),
    };
    let number = match next_request(account, grounds) {
        Ok(number) => number,
        Err(rule) => return Err(rule),
    };
    let request = NewRequest {
        number,
        account,
        object,
    };
    told_waiting(alloc, number, kind, Change::NewRequest(request))
}

/// What is given to who asks for the certification of a session, or the rule of the first condition that doesn't hold.
pub(crate) fn draft_certification(
    alloc: Global,
    account: u16,
    session: u64,
    parts: Result<CertifyBody, Rule>,
    grounds: &Grounds,
) -> Result<Draft, Rule>
    ensures held { IfOk result (λ _. first_broken (requested_conditions parts grounds.now) ≡ None) }
    ensures reply { IfOk result
        (λ draft. IsReply draft.reply.items (Some (waiting_reply of_kind.Certification account grounds.now))) }
    ensures change { IfOk result
        (λ draft. draft.change ≡ certification_change account session parts grounds.now) }
    ensures denied { IfErr result (λ rule. (rule ≡ Rule.Unavailable)
        ⊎ (first_broken (requested_conditions parts grounds.now) ≡ Some rule)) }
{
    let parts = match parts {
        Ok(parts) => parts,
        Err(rule) => return Err(rule),
    };
    let number = match next_request(account, grounds) {
        Ok(number) => number,
        Err(rule) => return Err(rule),
    };
    let certified = NewCertification {
        number,
        account,
        certification: Certification {
            module: parts.module,
            environment: parts.environment,
            session,
        },
    };
    told_waiting(
        alloc,
        number,
        Kind::Certification,
        Change::Certify(certified),
    )
}
