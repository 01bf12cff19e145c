//! The objects of the algorithms that can be registered.
ghost use Rattle.std.specs.Prelude.{◌≡◌, ◌++◌, IfOk, codes, decimal, string_bytes};
ghost use Rattle.serde_json.specs.View.{view};
ghost use Rattle.acvp_caps.specs.Algorithms.{algorithm_number};
ghost use Rattle.acvp_json.specs.AlgorithmData.{algorithm_data, algorithms_data};

use crate::array::{Shows, array};
use crate::object::object;
use acvp_caps::Algorithm;
use serde_json::Value;
use std::alloc::{AllocError, Global};

/// The URL of an algorithm.
fn algorithm_url(alloc: Global, algorithm: Algorithm) -> Result<String, AllocError>
    ensures { IfOk result (λ url. string_bytes url ≡ codes "/acvp/v1/algorithms/"
        ++ decimal (algorithm_number algorithm)) }
{
    let number = algorithm.number();
    format!(in alloc; "/acvp/v1/algorithms/{number}")
}

/// Algorithms.
pub(crate) struct Algorithms;

impl Shows<Algorithm> for Algorithms {
    ghost data_of = { λ _ algorithm. algorithm_data algorithm };

    fn value(&self, alloc: Global, algorithm: &Algorithm) -> Result<Value, AllocError> {
        let url = algorithm_url(alloc, *algorithm)?;
        object(
            alloc,
            &[("name", algorithm.name()), ("revision", "1.0")],
            &["url"],
            [Value::String(url)],
        )
    }
}

/// All algorithms, in the order of their numbers.
pub(crate) fn algorithms_value(alloc: Global) -> Result<Value, AllocError>
    ensures { IfOk result (λ value. view value ≡ algorithms_data) }
{
    let all = Algorithm::all();
    let algorithms = array(alloc, &Algorithms, &all)?;
    object(alloc, &[], &["algorithms"], [algorithms])
}
