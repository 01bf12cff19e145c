//! What is given on the registries and the requests of an account.

ghost use Rattle.std.specs.Prelude.{◌≡◌, ◌⊎◌, map, option_map, Some, None, IfOk, IfErr};
ghost use Rattle.acvp_json.specs.Registry.{registered_data};
ghost use Rattle.acvp_mac.specs.Conditions.{first_broken};
ghost use Rattle.acvp_desk.specs.Answer.{IsReply};
ghost use Rattle.acvp_desk.specs.OwnConditions.{page_conditions, registry_place_conditions};
ghost use Rattle.acvp_desk.specs.Registries.{kind_asked, object_shown, objects_reply, request_reply};
ghost use Rattle.acvp_desk.specs.Registries.{request_shown, requests_reply};
ghost use Rattle.acvp_desk.specs.Replies.{registry_change, registry_reply};

use crate::draft::{Draft, told};
use crate::found::{ObjectsPage, RegistryPlace, RequestsPage};
use crate::registration::draft_new_object;
use acvp_json::{Registered, ReplyObject};
use acvp_policy::Rule;
use acvp_registry::{Kind, PendingRequest, Status};
use acvp_tables::{ObjectRow, RequestPurpose, RequestStatus, RequestSummary};
use std::alloc::{AllocError, Global};

// ---- what is shown

/// The kind of what a request asks for.
pub(crate) fn kind_asked(subject: RequestPurpose) -> Kind
    ensures { result ≡ kind_asked subject }
{
    match subject {
        RequestPurpose::Registration(kind) => kind,
        RequestPurpose::Certification(_) => Kind::Certification,
    }
}

/// A request as it is shown.
fn request_shown(row: &RequestSummary) -> PendingRequest
    ensures { result ≡ request_shown row.now }
{
    let (status, approved) = match row.status {
        RequestStatus::Initial => (Status::Initial, None),
        RequestStatus::Approved(number) => (Status::Approved, Some(number)),
        RequestStatus::Rejected => (Status::Rejected, None),
    };
    PendingRequest {
        number: row.number,
        kind: kind_asked(row.purpose),
        status,
        approved,
    }
}

/// Objects as they are shown.
fn objects_shown<'a>(
    alloc: Global,
    rows: &'a [ObjectRow],
) -> Result<Vec<Registered<'a>>, AllocError>
    ensures { IfOk result (λ shown. map registered_data shown.items ≡ map object_shown rows.now) }
{
    let mut shown = Vec::with_capacity(alloc, rows.len())?;
    for row in rows {
        shown.push(Registered {
            number: row.number,
            object: &row.object,
        })?;
    }
    Ok(shown)
}

/// Requests as they are shown.
fn requests_shown(alloc: Global, rows: &[RequestSummary]) -> Result<Vec<PendingRequest>, AllocError>
    ensures { IfOk result (λ shown. shown.items ≡ map request_shown rows.now) }
{
    let mut shown = Vec::with_capacity(alloc, rows.len())?;
    for row in rows {
        shown.push(request_shown(row))?;
    }
    Ok(shown)
}

// ---- what is given

/// What is given to who reads an object. One that isn't there was refused before.
#[tactic(auto, unfolding(acvp_json::specs::ReplyData::reply_data))]
fn draft_object(alloc: Global, row: &Option<ObjectRow>) -> Result<Draft, Rule>
    ensures reply { IfOk result (λ draft. IsReply draft.reply.items (option_map object_shown row.now)) }
    ensures change { IfOk result (λ draft. draft.change ≡ None) }
    ensures denied { IfErr result (λ rule. rule ≡ Rule.Unavailable) }
{
    let Some(row) = row else {
        return Err(Rule::Unavailable);
    };
    let object = Registered {
        number: row.number,
        object: &row.object,
    };
    told(alloc, &ReplyObject::ReadObject { object }, None)
}

/// What is given to who reads a request. One that isn't there was refused before.
#[tactic(auto, unfolding(acvp_json::specs::ReplyData::reply_data))]
fn draft_request(alloc: Global, row: &Option<RequestSummary>) -> Result<Draft, Rule>
    ensures reply { IfOk result (λ draft. IsReply draft.reply.items (option_map request_reply row.now)) }
    ensures change { IfOk result (λ draft. draft.change ≡ None) }
    ensures denied { IfErr result (λ rule. rule ≡ Rule.Unavailable) }
{
    let Some(row) = row else {
        return Err(Rule::Unavailable);
    };
    let request = request_shown(row);
    told(alloc, &ReplyObject::Request { request }, None)
}

/// What is given to who lists what a registry holds, where the query is a page.
#[tactic(auto, unfolding(acvp_json::specs::ReplyData::reply_data))]
fn draft_objects(alloc: Global, kind: Kind, found: &Option<ObjectsPage>) -> Result<Draft, Rule>
    ensures held { IfOk result (λ _. first_broken (page_conditions found.now) ≡ None) }
    ensures reply { IfOk result (λ draft. IsReply draft.reply.items (option_map (objects_reply kind) found.now)) }
    ensures change { IfOk result (λ draft. draft.change ≡ None) }
    ensures denied { IfErr result (λ rule. (rule ≡ Rule.Unavailable)
        ⊎ (first_broken (page_conditions found.now) ≡ Some rule)) }
{
    let Some(found) = found else {
        return Err(Rule::BadPage);
    };
    let Ok(objects) = objects_shown(alloc, &found.objects.rows) else {
        return Err(Rule::Unavailable);
    };
    let object = ReplyObject::ListObjects {
        kind,
        page: found.page,
        total: found.total,
        objects: &objects,
    };
    told(alloc, &object, None)
}

/// What is given to who lists requests, where the query is a page.
#[tactic(auto, unfolding(acvp_json::specs::ReplyData::reply_data))]
fn draft_requests(alloc: Global, found: &Option<RequestsPage>) -> Result<Draft, Rule>
    ensures held { IfOk result (λ _. first_broken (page_conditions found.now) ≡ None) }
    ensures reply { IfOk result (λ draft. IsReply draft.reply.items (option_map requests_reply found.now)) }
    ensures change { IfOk result (λ draft. draft.change ≡ None) }
    ensures denied { IfErr result (λ rule. (rule ≡ Rule.Unavailable)
        ⊎ (first_broken (page_conditions found.now) ≡ Some rule)) }
{
    let Some(found) = found else {
        return Err(Rule::BadPage);
    };
    let Ok(requests) = requests_shown(alloc, &found.requests.rows) else {
        return Err(Rule::Unavailable);
    };
    let object = ReplyObject::ListRequests {
        page: found.page,
        total: found.total,
        requests: &requests,
    };
    told(alloc, &object, None)
}

/// What is given on the registries and requests of an account, or the rule of the first condition of the action's own
/// that doesn't hold.
pub(crate) fn draft_registry(
    alloc: Global,
    account: u16,
    place: RegistryPlace,
) -> Result<Draft, Rule>
    ensures held { IfOk result (λ _. first_broken (registry_place_conditions place) ≡ None) }
    ensures reply { IfOk result (λ draft. IsReply draft.reply.items (registry_reply account place)) }
    ensures change { IfOk result (λ draft. draft.change ≡ registry_change account place) }
    ensures denied { IfErr result (λ rule. (rule ≡ Rule.Unavailable)
        ⊎ (first_broken (registry_place_conditions place) ≡ Some rule)) }
{
    match place {
        RegistryPlace::Object(_, _, row) => draft_object(alloc, &row),
        RegistryPlace::New(registry, object, grounds) => {
            draft_new_object(alloc, account, registry.kind(), object, &grounds)
        }
        RegistryPlace::Objects(registry, found) => draft_objects(alloc, registry.kind(), &found),
        RegistryPlace::Request(_, row) => draft_request(alloc, &row),
        RegistryPlace::Requests(found) => draft_requests(alloc, &found),
    }
}
