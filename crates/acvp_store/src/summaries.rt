//! Requests without the objects that they ask to register, as queries show them.
ghost use Rattle.std.specs.Prelude.{◌≡◌, ◌≢◌, ◌<◌, None, Some, IfErr, IfOk, MatchOption, ℕ, List, option_map};
ghost use Rattle.std.specs.Prelude.{string_bytes};
ghost use Rattle.serde_json.specs.Written.{compact_text};
ghost use Rattle.acvp_caps.specs.Json.{text_at};
ghost use Rattle.serde_json.specs.View.{view};
ghost use Rattle.acvp_registry.specs.Json.{body_json};
ghost use Rattle.acvp_registry.specs.Url.{IsUrl};
ghost use Rattle.acvp_tables.specs.Content.{kind_number};
ghost use Rattle.acvp_tables.specs.State.{given_number};
ghost use Rattle.acvp_tables.specs.declared.rows.Certification.{Certification as Certified};
ghost use Rattle.acvp_tables.specs.declared.rows.RequestStatus.{RequestStatus as Decided};
ghost use Rattle.acvp_tables.specs.declared.rows.RequestBody.TheVariants as body;
ghost use Rattle.acvp_tables.specs.declared.summary.RequestPurpose.{RequestPurpose as Purpose};
ghost use Rattle.acvp_registry.specs.declared.kind.Kind.{Kind as ObjectKind};
ghost use Rattle.acvp_store.specs.Stands.{BodyReads, certification_data, status_number};
ghost use Rattle.acvp_store.specs.Private.Summaries.{purpose_number, purpose_text, FitsCertification, FitsPurpose};
ghost use Rattle.acvp_store.specs.Private.Summaries.{PurposeReads};

use crate::columns::{account_number, field};
use crate::members::Member;
use crate::requests::certification_text;
use acvp_caps::json::{number_at, text_at};
use acvp_registry::{Kind, RegFault, body_value, url_number};
use acvp_tables::{Certification, RequestPurpose, RequestStatus, RequestSummary, StoreFault};
use serde_json::Value;
use sqlite::Row;
use std::alloc::Global;

/// The kind of a number, of those that are registered.
pub(crate) fn registered_kind(number: u32) -> Result<Kind, StoreFault>
    ensures known { IfOk result (λ found. (kind : ObjectKind) → number ≡ kind_number kind → found ≡ kind) }
    ensures judged { IfOk result (λ found. (number ≡ kind_number found) × (number < 4)) }
    ensures refused { IfErr result (λ fault. (fault ≡ StoreFault.Refused)
        × ((kind : ObjectKind) → kind_number kind < 4 → number ≢ kind_number kind)) }
{
    match number {
        1 => Ok(Kind::Vendor),
        2 => Ok(Kind::Module),
        3 => Ok(Kind::Environment),
        _ => Err(StoreFault::Refused),
    }
}

/// The value of a JSON text that a column keeps.
pub(crate) fn kept_value(alloc: Global, text: &str) -> Result<Value, StoreFault>
    ensures value { IfOk result (λ value. body_json text.now ≡ Some (view value)) }
    ensures refused { IfErr result (λ fault. fault ≡ StoreFault.Refused → body_json text.now ≡ None) }
{
    match body_value(alloc, text.as_bytes()) {
        Ok(value) => Ok(value),
        Err(RegFault::Memory) => Err(StoreFault::Memory),
        Err(_) => Err(StoreFault::Refused),
    }
}

/// The number of what a URL at a name is of; none where there is no such URL.
fn linked(value: &Value, name: &str, kind: Kind) -> Option<u64>
    ensures { (url : List ℕ) → text_at name.now (view value.now) ≡ Some url
        → MatchOption result ((number : ℕ) → ¬ IsUrl kind number url) (λ number. IsUrl kind number url) }
{
    let url = text_at(value, name)?;
    url_number(kind, url)
}

/// The certification of a text. It is Refused where the text isn't that of one.
pub(crate) fn certification(text: String) -> Result<Certification, StoreFault>
    ensures known { IfOk result (λ found. (c : Certified) → BodyReads (body.Certification c)
        → string_bytes text ≡ compact_text (certification_data c) → found ≡ c) }
    ensures judged { IfOk result (λ found. (string_bytes text ≡ compact_text (certification_data found))
        × BodyReads (body.Certification found)) }
    ensures refused { IfErr result (λ fault. fault ≡ StoreFault.Refused → (c : Certified)
        → BodyReads (body.Certification c) → FitsCertification c
        → string_bytes text ≢ compact_text (certification_data c)) }
{
    let alloc = *text.allocator();
    let value = kept_value(alloc, text.as_str())?;
    let Some(module) = linked(&value, "moduleUrl", Kind::Module) else {
        return Err(StoreFault::Refused);
    };
    let Some(environment) = linked(&value, "oeUrl", Kind::Environment) else {
        return Err(StoreFault::Refused);
    };
    let Some(session) = number_at(&value, "session") else {
        return Err(StoreFault::Refused);
    };
    let found = Certification {
        module,
        environment,
        session,
    };
    let written = certification_text(alloc, found)?;
    if written.as_str() == text.as_str() {
        Ok(found)
    } else {
        Err(StoreFault::Refused)
    }
}

/// What is asked for, by the number of its kind and the text of a certification.
fn purpose(number: u32, text: Option<String>) -> Result<RequestPurpose, StoreFault>
    ensures known { IfOk result (λ found. (s : Purpose) → PurposeReads s → number ≡ purpose_number s
        → option_map string_bytes text ≡ purpose_text s → found ≡ s) }
    ensures judged { IfOk result (λ found. (number ≡ purpose_number found)
        × (option_map string_bytes text ≡ purpose_text found)) }
    ensures refused { IfErr result (λ fault. fault ≡ StoreFault.Refused → (s : Purpose) → PurposeReads s → FitsPurpose s
        → number ≡ purpose_number s → option_map string_bytes text ≢ purpose_text s) }
{
    match text {
        Some(text) if number == 4 => Ok(RequestPurpose::Certification(certification(text)?)),
        Some(_) => Err(StoreFault::Refused),
        None => Ok(RequestPurpose::Registration(registered_kind(number)?)),
    }
}

/// What was decided, by its number and what it gave.
pub(crate) fn status(number: u32, given: Option<u64>) -> Result<RequestStatus, StoreFault>
    ensures known { IfOk result (λ found. (s : Decided) → number ≡ status_number s → given ≡ given_number s
        → found ≡ s) }
    ensures judged { IfOk result (λ found. (number ≡ status_number found) × (given ≡ given_number found)) }
    ensures refused { IfErr result (λ fault. (s : Decided) → number ≡ status_number s → given ≢ given_number s) }
{
    match (number, given) {
        (0, None) => Ok(RequestStatus::Initial),
        (1, Some(number)) => Ok(RequestStatus::Approved(number)),
        (2, None) => Ok(RequestStatus::Rejected),
        _ => Err(StoreFault::Refused),
    }
}

impl Member for RequestStatus {
    ghost use Rattle.std.specs.Prelude.{⊤};
    ghost use Rattle.acvp_store.specs.Private.Summaries.{status_shown};

    ghost shown = { status_shown };

    ghost reads = { λ _. ⊤ };

    ghost fits = { λ _. ⊤ };

    ghost judged_so = { λ _. ⊤ };

    fn read(row: &Row) -> Result<RequestStatus, StoreFault> {
        let decided: u32 = field(row, 0)?;
        let given: Option<u64> = field(row, 1)?;
        status(decided, given)
    }
}

impl Member for RequestSummary {
    ghost use Rattle.std.specs.Prelude.{◌<◌, ◌^◌};
    ghost use Rattle.acvp_store.specs.Private.Shown.{IsText};
    ghost use Rattle.acvp_store.specs.Private.Summaries.{FitsPurpose, purpose_text};
    ghost use Rattle.acvp_store.specs.Private.Summaries.{PurposeReads, summary_shown};

    ghost shown = { summary_shown };

    ghost reads = { λ s. PurposeReads s.purpose };

    ghost fits = { λ s. (s.account < 2 ^ 16) × FitsPurpose s.purpose × IsText (purpose_text s.purpose) };

    ghost judged_so = { λ s. s.account < 2 ^ 16 };

    fn read(row: &Row) -> Result<RequestSummary, StoreFault> {
        let number: u64 = field(row, 0)?;
        let account = account_number(row, 1)?;
        let kind: u32 = field(row, 2)?;
        let text: Option<String> = field(row, 3)?;
        let decided: u32 = field(row, 4)?;
        let given: Option<u64> = field(row, 5)?;
        Ok(RequestSummary {
            number,
            account,
            purpose: purpose(kind, text)?,
            status: status(decided, given)?,
        })
    }
}
