//! The members of a JSON object.
ghost use Rattle.std.specs.Prelude.{◌≡◌, option_and_then, option_map};
ghost use Rattle.serde_json.specs.Find.{as_array};
ghost use Rattle.serde_json.specs.View.{view, items_view};
ghost use Rattle.acvp_json.specs.Members.{optional_text};
ghost use Rattle.acvp_json.specs.Private.Borrowed.{texts};

use serde_json::Value;

/// A member that is absent or a text.
pub(crate) fn optional_text(member: Option<&Value>) -> Option<Option<&str>>
    ensures { option_map texts result ≡ optional_text (option_map (λ v. view v.now) member.entry) }
{
    match member {
        Some(member) => Some(Some(member.as_str()?)),
        None => Some(None),
    }
}

/// The elements of a member that is an array.
pub(crate) fn elements(member: Option<&Value>) -> Option<&Vec<Value>>
    ensures { option_map (λ v. items_view v.now.items) result ≡ option_and_then as_array
        (option_map (λ v. view v.now) member.entry) }
{
    match member {
        Some(member) => member.as_array(),
        None => None,
    }
}
