//! What a JSON value has at a name, as registrations and the other bodies are read.

ghost use Rattle.std.specs.Prelude.{◌≡◌, option_map, map};
ghost use Rattle.serde_json.specs.Find.{as_array};
ghost use Rattle.serde_json.specs.View.{view};
ghost use Rattle.acvp_caps.specs.Json.{number_at, text_at, is_text, flag, array_list, elements, is_optional_array};

use serde_json::Value;

/// The whole number at a name, from 0 on and below 2^64; none where the member is absent or anything else.
pub fn number_at(object: &Value, name: &str) -> Option<u64>
    ensures { result ≡ number_at name.now (view object.now) }
{
    object.get(name).and_then(Value::as_u64)
}

/// The text at a name; none where the member is absent or no text.
pub fn text_at<'a>(object: &'a Value, name: &str) -> Option<&'a str>
    ensures { option_map (λ s. s.now) result ≡ text_at name.now (view object.now) }
{
    match object.get(name) {
        Some(member) => member.as_str(),
        None => None,
    }
}

/// Whether a text is there and is this one.
pub fn is_text(text: Option<&str>, wanted: &str) -> bool
    ensures { result ≡ is_text wanted.now (option_map (λ s. s.now) text.entry) }
{
    match text {
        Some(text) => text == wanted,
        None => false,
    }
}

/// The truth value of a member, which is false where the member is absent.
pub fn flag(member: Option<&Value>) -> Option<bool>
    ensures { result ≡ flag (option_map (λ v. view v.now) member.entry) }
{
    match member {
        Some(member) => member.as_bool(),
        None => Some(false),
    }
}

/// The elements of an array, and none of anything else.
pub fn elements(member: Option<&Value>) -> &[Value]
    ensures { map view result.now ≡ elements (option_map (λ v. view v.now) member.entry) }
{
    match member {
        Some(member) => array_elements(member),
        None => &[],
    }
}

/// The elements of an array, and none of anything else.
fn array_elements(value: &Value) -> &[Value]
    ensures { map view result.now ≡ array_list (as_array (view value.now)) }
{
    match value.as_array() {
        Some(values) => values.as_slice(),
        None => &[],
    }
}

/// Whether a member is absent, or an array.
pub fn is_optional_array(member: Option<&Value>) -> bool
    ensures { result ≡ is_optional_array (option_map (λ v. view v.now) member.entry) }
{
    match member {
        Some(member) => member.is_array(),
        None => true,
    }
}
