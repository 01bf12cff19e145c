//! Members that are null where there is nothing to say.
ghost use Rattle.std.specs.Prelude.{◌≡◌, IfOk, option_map};
ghost use Rattle.serde_json.specs.View.{view};
ghost use Rattle.acvp_json.specs.Nullable.{number_or_null, text_or_null};

use serde_json::Value;
use std::alloc::{AllocError, Global};

/// A number, or null.
pub fn number_or_null(number: Option<u64>) -> Value
    ensures { view result ≡ number_or_null number }
{
    match number {
        Some(number) => Value::from(number),
        None => Value::Null,
    }
}

/// A text, or null.
pub fn text_or_null(alloc: Global, text: Option<&str>) -> Result<Value, AllocError>
    ensures { IfOk result (λ value. view value ≡ text_or_null (option_map (λ t. t.now) text.entry)) }
{
    match text {
        Some(text) => Value::try_from_str(alloc, text),
        None => Ok(Value::Null),
    }
}
