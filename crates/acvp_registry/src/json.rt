//! The JSON value that bytes are, and the texts in it.
ghost use Rattle.std.specs.Prelude.{◌≡◌, ◌⊎◌, Some, None, option_map, MatchResult};
ghost use Rattle.serde_json.specs.View.{view};
ghost use Rattle.acvp_registry.specs.Json.{body_json, text_member};

use crate::fault::RegFault;
use crate::floats::has_float;
use serde_json::Value;
use std::alloc::Global;

/// The JSON value that the bytes are. The faults are Field, where the bytes aren't JSON or hold a number that is kept
/// as a float, and Memory.
pub fn body_value(alloc: Global, body: &[u8]) -> Result<Value, RegFault>
    ensures { MatchResult result (λ value. body_json body.now ≡ Some (view value))
        (λ fault. (fault ≡ RegFault.Memory) ⊎ ((fault ≡ RegFault.Field) × (body_json body.now ≡ None))) }
{
    match Value::from_slice(alloc, body) {
        Ok(value) if has_float(&value) => Err(RegFault::Field),
        Ok(value) => Ok(value),
        Err(error) if error.is_memory() => Err(RegFault::Memory),
        Err(_) => Err(RegFault::Field),
    }
}

/// The text at a name; none where the member is absent or no text.
pub(crate) fn text_member<'a>(object: &'a Value, name: &str) -> Option<&'a str>
    ensures { option_map (λ s. s.now) result ≡ text_member name.now (view object.now) }
{
    match object.get(name) {
        Some(member) => member.as_str(),
        None => None,
    }
}
