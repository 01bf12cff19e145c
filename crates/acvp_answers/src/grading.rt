//! The comparison of answers with the standard's.
ghost use Rattle.std.specs.Prelude.{◌≡◌, IfOk, length, map, option_map, string_bytes};
ghost use Rattle.acvp_answers.specs.Verdicts.{is_lowered_to, are_lowered_to, verdict_on, verdicts_of, disposition_of};

use crate::answers::Answers;
use crate::verdict::{self, Verdict};
use std::alloc::{AllocError, Global};

/// Whether the text with its ASCII letters in lower case is this one.
fn is_lowered_to(given: &str, wanted: &str) -> bool
    ensures { result ≡ is_lowered_to given.now wanted.now }
{
    let given = given.as_bytes();
    let wanted = wanted.as_bytes();
    if given.len() != wanted.len() {
        return false;
    }
    for (i, byte) in given.iter().enumerate() {
        if byte.to_ascii_lowercase() != wanted[i] {
            return false;
        }
    }
    true
}

/// The same of each text. One text too few or too many is another list.
fn are_lowered_to(given: &[String], wanted: &[String]) -> bool
    ensures { result ≡ are_lowered_to (map string_bytes given.now) (map string_bytes wanted.now) }
{
    if given.len() != wanted.len() {
        return false;
    }
    for (i, text) in given.iter().enumerate() {
        if !is_lowered_to(text, &wanted[i]) {
            return false;
        }
    }
    true
}

/// The verdict on a test.
fn verdict_on(given: Option<&[String]>, wanted: &[String]) -> Verdict
    ensures { result ≡ verdict_on (option_map (λ texts. map string_bytes texts.now) given.entry)
        (map string_bytes wanted.now) }
{
    match given {
        None => Verdict::Missing,
        Some(texts) if are_lowered_to(texts, wanted) => Verdict::Passed,
        Some(_) => Verdict::Fail,
    }
}

/// The verdicts on the tests that the standard answers, in the order of their numbers.
pub fn grade(alloc: Global, standard: &Answers, given: &Answers) -> Result<Vec<Verdict>, AllocError>
    ensures value { IfOk result (λ verdicts. verdicts.items ≡ verdicts_of standard.now given.now) }
    ensures count { IfOk result (λ verdicts. length verdicts.items ≡ length standard.now) }
{
    let mut verdicts = Vec::with_capacity(alloc, standard.len())?;
    for (number, wanted) in standard.iter() {
        verdicts.push(verdict_on(given.texts_for(number), wanted))?;
    }
    Ok(verdicts)
}

/// What the verdicts on the answers to a vector set come to. It takes no memory.
pub fn disposition(verdicts: &[Verdict]) -> verdict::Disposition
    ensures { result ≡ disposition_of verdicts.now }
{
    if verdicts.contains(&Verdict::Fail) {
        verdict::Disposition::Fail
    } else if verdicts.contains(&Verdict::Missing) {
        verdict::Disposition::Missing
    } else {
        verdict::Disposition::Passed
    }
}
