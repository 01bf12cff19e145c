//! JSON arrays of what the elements of a list are shown as.
ghost use Rattle.std.specs.Prelude.{◌≡◌, IfOk};
ghost use Rattle.serde_json.specs.Data.{Data};
ghost use Rattle.serde_json.specs.View.{view};
ghost use Rattle.acvp_json.specs.Values.{array_of};

use serde_json::Value;
use std::alloc::{AllocError, Global};

/// How each element of a list is shown as a JSON value.
pub(crate) trait Shows<T> {
    ghost data_of: { Self → T → Data };

    fn value(&self, alloc: Global, element: &T) -> Result<Value, AllocError>
        ensures { IfOk result (λ value. view value ≡ data_of self.now element.now) };
}

/// The array of the elements' values, in their order.
pub(crate) fn array<T, S: Shows<T>>(
    alloc: Global,
    show: &S,
    elements: &[T],
) -> Result<Value, AllocError>
    ensures { IfOk result (λ value. view value ≡ array_of (S.data_of show.now) elements.now) }
{
    let mut values = Vec::new(alloc);
    for element in elements {
        values.push(show.value(alloc, element)?)?;
    }
    Ok(Value::Array(values))
}
