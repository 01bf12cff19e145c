//! JSON objects of given members.
ghost use Rattle.std.specs.Prelude.{◌≡◌, ◌≤◌, IfOk, length, map};
ghost use Rattle.serde_json.specs.Data.{object, no_members};
ghost use Rattle.serde_json.specs.View.{view};
ghost use Rattle.acvp_json.specs.Private.Placed.{placed, with_texts};

use serde_json::{Map, Value, put};
use std::alloc::{AllocError, Global};

/// The object of these members: texts by their names, and other values beside their names.
pub(crate) fn object<const N: usize>(
    alloc: Global,
    texts: &[(&str, &str)],
    names: &[&str],
    values: [Value; N],
) -> Result<Value, AllocError>
    requires { N ≤ length names.now }
    ensures { IfOk result (λ value. view value ≡ object (placed (map view values.entry) (map (λ n. n.now) names.now)
        (with_texts (map (λ t. (t.0.now, t.1.now)) texts.now) no_members))) }
{
    let mut left = Vec::from_array(alloc, values)?;
    let mut members = Map::new(alloc);
    for (name, text) in texts {
        put(
            &mut members,
            alloc,
            *name,
            Value::try_from_str(alloc, *text)?,
        )?;
    }
    while let Some(value) = left.pop() {
        put(&mut members, alloc, names[left.len()], value)?;
    }
    Ok(Value::Object(members))
}
