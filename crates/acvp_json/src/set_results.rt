//! The object of a vector set's results: what the set and each of its tests come to.
ghost use Rattle.std.specs.Prelude.{◌≡◌, IfOk, map};
ghost use Rattle.std.specs.List.{enumerate_from};
ghost use Rattle.serde_json.specs.View.{view};
ghost use Rattle.acvp_json.specs.SetResults.{verdict_word, disposition_word, result_data, set_results_data};

use crate::object::object;
use acvp_answers::{Disposition, Verdict};
use serde_json::Value;
use std::alloc::{AllocError, Global};

/// The word for what an answer comes to.
fn verdict_word(verdict: Verdict) -> &'static str
    ensures { result.now ≡ verdict_word verdict }
{
    match verdict {
        Verdict::Passed => "passed",
        Verdict::Fail => "fail",
        Verdict::Missing => "missing",
    }
}

/// The word for what a vector set comes to.
pub(crate) fn disposition_word(disposition: Disposition) -> &'static str
    ensures { result.now ≡ disposition_word disposition }
{
    match disposition {
        Disposition::Passed => "passed",
        Disposition::Fail => "fail",
        Disposition::Missing => "missing",
        Disposition::Expired => "expired",
        Disposition::Unreceived => "unreceived",
    }
}

/// The result of the test of a number.
fn result_value(alloc: Global, number: u64, verdict: Verdict) -> Result<Value, AllocError>
    ensures { IfOk result (λ value. view value ≡ result_data (number, verdict)) }
{
    object(
        alloc,
        &[("result", verdict_word(verdict))],
        &["tcId"],
        [Value::from(number)],
    )
}

/// The results of tests that are numbered from 1 on.
fn result_values(alloc: Global, verdicts: &[Verdict]) -> Result<Vec<Value>, AllocError>
    ensures { IfOk result (λ values. map view values.items ≡ map result_data (enumerate_from 1 verdicts.now)) }
{
    let mut values = Vec::new(alloc);
    for (place, verdict) in verdicts.iter().enumerate() {
        values.push(result_value(alloc, place as u64 + 1, *verdict)?)?;
    }
    Ok(values)
}

/// What a vector set comes to, and the results of its tests.
pub(crate) fn set_results_value(
    alloc: Global,
    vs: u64,
    disposition: Disposition,
    verdicts: &[Verdict],
) -> Result<Value, AllocError>
    ensures { IfOk result (λ value. view value ≡ set_results_data vs disposition verdicts.now) }
{
    let results = Value::Array(result_values(alloc, verdicts)?);
    object(
        alloc,
        &[("disposition", disposition_word(disposition))],
        &["tests", "vsId"],
        [results, Value::from(vs)],
    )
}
