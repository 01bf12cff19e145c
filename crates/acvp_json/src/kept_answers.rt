//! Answers as they are kept: the text `[[number,[text,..]],..]` of JSON.
ghost use Rattle.std.specs.Prelude.{◌≡◌, ◌↔◌, List, false, Some, IfOk, map, option_map, string_bytes};
ghost use Rattle.serde_json.specs.Data.{string};
ghost use Rattle.serde_json.specs.View.{view};
ghost use Rattle.serde_json.specs.Written.{has_float};
ghost use Rattle.acvp_answers.specs.Answer.{Answer, AreAscending, shown_texts};
ghost use Rattle.acvp_json.specs.KeptAnswers.{texts_data, answer_data, answers_data, kept_text, texts_of, pair_of};
ghost use Rattle.acvp_json.specs.KeptAnswers.{answer_of, is_above, answers_of, is_compact, kept_answers};
ghost use Rattle.acvp_json.specs.KeptAnswers.{kept_answers_conditions, IsKeptAs};
ghost use Rattle.acvp_caps.specs.Conditions.{IsJudged, judged};
ghost use Rattle.acvp_json.specs.Private.Readings.{IsRead};

use crate::array::{Shows, array};
use crate::envelope::parse;
use crate::fault::BodyFault;
use crate::text::copied;
use acvp_answers::Answers;
use serde_json::Value;
use std::alloc::{AllocError, Global};

/// The texts of an answer.
struct Texts;

impl Shows<String> for Texts {
    ghost data_of = { λ _ text. string (string_bytes text) };

    fn value(&self, alloc: Global, text: &String) -> Result<Value, AllocError> {
        Value::try_from_str(alloc, text.as_str())
    }
}

/// The array of texts.
fn texts_value(alloc: Global, texts: &[String]) -> Result<Value, AllocError>
    ensures { IfOk result (λ value. view value ≡ texts_data (map string_bytes texts.now)) }
{
    array(alloc, &Texts, texts)
}

/// A test's number and its texts.
fn answer_value(alloc: Global, number: u64, texts: &[String]) -> Result<Value, AllocError>
    ensures { IfOk result (λ value. view value ≡ answer_data (number, map string_bytes texts.now)) }
{
    let texts = texts_value(alloc, texts)?;
    Ok(Value::Array(vec![in alloc; Value::from(number), texts]?))
}

/// The array of answers.
fn answers_value(alloc: Global, answers: &Answers) -> Result<Value, AllocError>
    ensures value { IfOk result (λ value. view value ≡ answers_data answers.now) }
    ensures ascending { AreAscending answers.now }
{
    let mut values = Vec::with_capacity(alloc, answers.len())?;
    for (number, texts) in answers.iter() {
        values.push(answer_value(alloc, number, texts)?)?;
    }
    Ok(Value::Array(values))
}

/// The answers as compact JSON, ascending by the tests' numbers. It takes time in the length of the text.
pub fn answers_to_text(alloc: Global, answers: &Answers) -> Result<String, AllocError>
    ensures text { IfOk result (λ text. string_bytes text ≡ kept_text answers.now) }
    ensures reads_back { IfOk result (λ text. kept_answers (string_bytes text) ≡ Some answers.now) }
{
    answers_value(alloc, answers)?.to_string(alloc)
}

/// The texts of an array of texts.
fn texts_in(alloc: Global, value: &Value) -> Result<Vec<String>, BodyFault>
    ensures { IsRead result shown_texts (texts_of (view value.now)) }
{
    let Some(items) = value.as_array() else {
        return Err(BodyFault::BodyField);
    };
    let mut texts = Vec::new(alloc);
    for item in items {
        let Some(text) = item.as_str() else {
            return Err(BodyFault::BodyField);
        };
        texts.push(copied(alloc, text)?.into_string())?;
    }
    Ok(texts)
}

/// The first of exactly two elements, a whole number, and the second.
#[tactic(auto, using(crate::proofs::KeptLemmas::pair_items_other))]
fn pair_in(value: &Value) -> Option<(u64, &Value)>
    ensures { option_map (λ pair. (pair.0, view pair.1.now)) result ≡ pair_of (view value.now) }
{
    let items = value.as_array()?;
    if items.len() != 2 {
        return None;
    }
    let number = items[0].as_u64()?;
    Some((number, &items[1]))
}

/// A test's number and its texts.
fn answer_in(alloc: Global, value: &Value) -> Result<(u64, Vec<String>), BodyFault>
    ensures { IsRead result (λ answer. (answer.0, shown_texts answer.1)) (answer_of (view value.now)) }
{
    let Some((number, texts)) = pair_in(value) else {
        return Err(BodyFault::BodyField);
    };
    Ok((number, texts_in(alloc, texts)?))
}

/// Whether a number is above the one before it, if any.
pub(crate) fn is_above(last: Option<u64>, number: u64) -> bool
    ensures { result ≡ is_above last number }
{
    match last {
        Some(last) => last < number,
        None => true,
    }
}

/// The ascending answers that a JSON value is.
fn answers_in(alloc: Global, value: &Value) -> Result<Answers, BodyFault>
    ensures { IsRead result (λ answers. answers) (answers_of (view value.now)) }
{
    let Some(items) = value.as_array() else {
        return Err(BodyFault::BodyField);
    };
    let mut answers = Answers::new(alloc);
    let mut last = None;
    for item in items {
        let (number, texts) = answer_in(alloc, item)?;
        if !is_above(last, number) {
            return Err(BodyFault::BodyField);
        }
        answers.insert(number, texts)?;
        last = Some(number);
    }
    Ok(answers)
}

/// Whether a text is the compact one of its value.
fn is_compact(alloc: Global, text: &str, value: &Value) -> Result<bool, AllocError>
    requires { has_float (view value.now) ≡ false }
    ensures { IfOk result (λ is. is ≡ is_compact text.now (view value.now)) }
{
    let compact = value.to_string(alloc)?;
    Ok(text == compact.as_str())
}

/// The answers that a text keeps.
#[tactic(auto, unfolding(crate::specs::KeptAnswers::kept_answers))]
fn kept_answers(alloc: Global, text: &str) -> Result<Answers, BodyFault>
    ensures { IsJudged BodyFault.Memory (λ answers. Some answers)
        (judged (kept_answers_conditions text.now) (kept_answers text.now)) result }
{
    let value = parse(alloc, text.as_bytes())?;
    let answers = answers_in(alloc, &value)?;
    if is_compact(alloc, text, &value)? {
        Ok(answers)
    } else {
        Err(BodyFault::BodyField)
    }
}

/// Reads answers from the text that `answers_to_text` gives for them. The faults are BodyNotJson where the text isn't
/// JSON or holds a number kept as a float, as one from 2^64 on is, BodyField for any other text, and Memory.
pub fn answers_from_text(alloc: Global, text: &str) -> Result<Answers, BodyFault>
    ensures answer { IsJudged BodyFault.Memory (λ answers. Some answers)
        (judged (kept_answers_conditions text.now) (kept_answers text.now)) result }
    ensures exact { (answers : List Answer) → (kept_answers text.now ≡ Some answers) ↔ IsKeptAs text.now answers }
{
    kept_answers(alloc, text)
}
