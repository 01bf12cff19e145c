//! The envelope that every body has: an array of the protocol's version and an object.
ghost use Rattle.std.specs.Prelude.{◌≡◌, ◌⊎◌, Some, None, option_map, MatchResult, IfOk, false};
ghost use Rattle.serde_json.specs.View.{view};
ghost use Rattle.serde_json.specs.Written.{has_float};
ghost use Rattle.acvp_registry.specs.Json.{body_json};
ghost use Rattle.acvp_json.specs.Envelope.{is_envelope, envelope_of, object_of, envelope_conditions};
ghost use Rattle.acvp_caps.specs.Conditions.{IsJudged, judged};

use crate::fault::BodyFault;
use acvp_caps::json::{is_text, text_at};
use acvp_registry::{RegFault, body_value};
use serde_json::Value;
use std::alloc::Global;

/// The JSON value that the bytes are.
pub(crate) fn parse(alloc: Global, body: &[u8]) -> Result<Value, BodyFault>
    ensures { MatchResult result (λ value. body_json body.now ≡ Some (view value))
        (λ fault. (fault ≡ BodyFault.Memory) ⊎ ((fault ≡ BodyFault.BodyNotJson) × (body_json body.now ≡ None))) }
{
    match body_value(alloc, body) {
        Ok(value) => Ok(value),
        Err(RegFault::Memory) => Err(BodyFault::Memory),
        Err(_) => Err(BodyFault::BodyNotJson),
    }
}

/// Whether they are two objects, the first of which names the version.
fn is_envelope(first: &Value, second: &Value) -> bool
    ensures { result ≡ is_envelope (view first.now) (view second.now) }
{
    is_text(text_at(first, "acvVersion"), "1.0") && second.is_object()
}

/// The object in an envelope.
fn object_in(value: Value) -> Option<Value>
    ensures { option_map view result ≡ envelope_of (view value) }
{
    let Value::Array(mut items) = value else {
        return None;
    };
    if items.len() != 2 {
        return None;
    }
    if is_envelope(&items[0], &items[1]) {
        items.pop()
    } else {
        None
    }
}

/// Reads a body's envelope, and gives the object in it, in which no number is kept as a float. The faults are
/// BodyNotJson, BodyEnvelope and Memory.
pub fn open_envelope(alloc: Global, body: &[u8]) -> Result<Value, BodyFault>
    ensures value { IsJudged BodyFault.Memory (λ value. Some (view value))
        (judged (envelope_conditions body.now) (object_of body.now)) result }
    ensures plain { IfOk result (λ value. has_float (view value) ≡ false) }
{
    let value = parse(alloc, body)?;
    match object_in(value) {
        Some(object) => Ok(object),
        None => Err(BodyFault::BodyEnvelope),
    }
}
