//! How deep a JSON value nests.
ghost use Rattle.std.specs.Prelude.{◌≡◌, nat_le};
ghost use Rattle.serde_json.specs.Data.{depth, items_depth, members_depth};
ghost use Rattle.serde_json.specs.View.{view, items_view, members_view};

use serde_json::{Map, Value};

/// Whether arrays and objects nest at most so deep.
#[cycle(depth)]
pub(crate) fn is_within(value: &Value, limit: usize) -> bool
    ensures { result ≡ nat_le (depth (view value.now)) limit }
{
    match value {
        Value::Null | Value::Bool(_) | Value::Number(_) | Value::String(_) => true,
        Value::Array(items) => limit > 0 && items_are_within(items, limit - 1),
        Value::Object(members) => limit > 0 && members_are_within(members, limit - 1),
    }
}

#[cycle(depth)]
fn items_are_within(items: &Vec<Value>, limit: usize) -> bool
    ensures { result ≡ nat_le (items_depth (items_view items.now.items)) limit }
{
    for item in items {
        if !is_within(item, limit) {
            return false;
        }
    }
    true
}

#[cycle(depth)]
fn members_are_within(members: &Map<String, Value>, limit: usize) -> bool
    ensures { result ≡ nat_le (members_depth (members_view members.now.entries)) limit }
{
    for (_, member) in members.iter() {
        if !is_within(member, limit) {
            return false;
        }
    }
    true
}
