//! The vector sets of a test session, as a decision on its certification needs them: the cancelled ones too.
ghost use Rattle.std.specs.Prelude.{◌≡◌, ◌∷◌, [], ◌++◌, ℕ, List, IfOk, Ok, OnOk, Some, codes, decimal, option_map};
ghost use Rattle.std.specs.Prelude.{string_bytes};
ghost use Rattle.acvp_caps.specs.Registered.{registered_text};
ghost use Rattle.acvp_desk.specs.Serves.{Looks};
ghost use Rattle.acvp_json.specs.SetResults.{set_results_data};
ghost use Rattle.acvp_json.specs.Written.{body_of};
ghost use Rattle.acvp_view.specs.Decision.{AreSetTexts, AreTextsAt, AreTextsTo, Shows, capability_object};
ghost use Rattle.acvp_view.specs.Decision.{capability_text, most_sets, results_object, results_text, results_texts};
ghost use Rattle.acvp_view.specs.Decision.{set_words, spaced, state_word};
ghost use Rattle.acvp_view.specs.Escaped.{HandsOnShown, TakesShown};

use crate::escape::show_text;
use crate::fault::ViewFault;
use crate::form::Form;
use crate::lines::Lines;
use acvp_answers::{Disposition, Verdict};
use acvp_caps::Capability;
use acvp_json::{ReplyObject, write_reply};
use acvp_tables::{SetSummary, Tables};
use std::alloc::{AllocError, Global};

/// How many vector sets a session has at most.
const MOST_SETS: u64 = 20;

/// The greatest number of a test session.
const MOST_SESSION: u64 = 9_999_999_999;

pub(crate) fn spaced(alloc: Global, first: &str, second: &str) -> Result<String, AllocError>
    ensures { IfOk result (λ text. string_bytes text ≡ spaced first.now second.now) }
{
    format!(in alloc; "{first} {second}")
}

/// The word of a vector set that was cancelled, or wasn't.
fn state_word(cancelled: bool) -> &'static str
    ensures { result.now ≡ state_word cancelled }
{
    if cancelled { "cancelled" } else { "kept" }
}

fn set_words(alloc: Global, number: u64, text: &str) -> Result<String, AllocError>
    ensures { IfOk result (λ line. string_bytes line ≡ set_words number text.now) }
{
    format!(in alloc; "vectorSet {number} {text}")
}

fn capability_object(
    alloc: Global,
    number: u64,
    state: &str,
    capability: &str,
) -> Result<String, AllocError>
    ensures { IfOk result (λ text. string_bytes text ≡ capability_object number state.now capability.now) }
{
    format!(in alloc;
        "{{\"capability\":{capability},\"state\":\"{state}\",\"vectorSet\":{number}}}"
    )
}

/// The number of a vector set, whether it was cancelled, and its capability.
fn capability_text(
    alloc: Global,
    form: Form,
    number: u64,
    cancelled: bool,
    capability: &str,
) -> Result<String, AllocError>
    ensures { IfOk result (λ text. string_bytes text ≡ capability_text form number cancelled capability.now) }
{
    let state = state_word(cancelled);
    match form {
        Form::Words => {
            let text = spaced(alloc, state, capability)?;
            set_words(alloc, number, text.as_str())
        }
        Form::Json => capability_object(alloc, number, state, capability),
    }
}

/// Hands on whether a vector set was cancelled, and its capability.
fn show_capability<L: Lines>(
    alloc: Global,
    lines: &mut L,
    form: Form,
    set: &SetSummary,
    capability: &Capability,
) -> Result<(), ViewFault>
    ensures taken { OnOk result ((text : List ℕ) × (registered_text text ≡ Ok (Some capability.now))
        × TakesShown form L.takes (capability_text form set.now.number set.now.cancelled text ∷ []) lines.old
        lines.new) }
    ensures shown { HandsOnShown form L.takes lines.old lines.new }
{
    let text = capability.to_text(alloc)?;
    let line = capability_text(alloc, form, set.number, set.cancelled, text.as_str())?;
    show_text(alloc, lines, form, line.as_str())
}

fn results_object(alloc: Global, number: u64, results: &str) -> Result<String, AllocError>
    ensures { IfOk result (λ text. string_bytes text ≡ results_object number results.now) }
{
    format!(in alloc; "{{\"results\":{results},\"vectorSet\":{number}}}")
}

/// What the last answers to a vector set came to.
fn results_text(alloc: Global, form: Form, number: u64, results: &str) -> Result<String, AllocError>
    ensures { IfOk result (λ text. string_bytes text ≡ results_text form number results.now) }
{
    match form {
        Form::Words => set_words(alloc, number, results),
        Form::Json => results_object(alloc, number, results),
    }
}

/// The body of the results of a vector set.
#[tactic(auto, unfolding(acvp_json::specs::ReplyData::reply_data))]
fn results_body(
    alloc: Global,
    number: u64,
    disposition: Disposition,
    verdicts: &[Verdict],
) -> Result<Vec<u8>, AllocError>
    ensures { IfOk result (λ body. body.items ≡ body_of (set_results_data number disposition verdicts.now)) }
{
    let results = ReplyObject::SetResults {
        vs: number,
        disposition,
        verdicts,
    };
    write_reply(alloc, &results)
}

/// What these verdicts on a vector set's answers come to, as a text. Each body is one.
fn verdicts_text(
    alloc: Global,
    form: Form,
    number: u64,
    disposition: Disposition,
    verdicts: &[Verdict],
) -> Result<String, ViewFault>
    ensures { IfOk result (λ text. string_bytes text
        ≡ results_text form number (body_of (set_results_data number disposition verdicts.now))) }
{
    let body = results_body(alloc, number, disposition, verdicts)?;
    match std::str::from_utf8(&body) {
        Ok(text) => Ok(results_text(alloc, form, number, text)?),
        Err(_) => Err(ViewFault::Refused),
    }
}

/// Hands on what the last answers to a vector set came to, where it has any.
fn show_results<L: Lines>(
    alloc: Global,
    lines: &mut L,
    form: Form,
    set: &SetSummary,
    verdicts: &Option<Vec<Verdict>>,
) -> Result<(), ViewFault>
    ensures taken { OnOk result (TakesShown form L.takes (results_texts form set.now.number set.now.disposition
        (option_map (λ v. v.items) verdicts.now)) lines.old lines.new) }
    ensures shown { HandsOnShown form L.takes lines.old lines.new }
{
    match (set.disposition, verdicts) {
        (Some(disposition), Some(verdicts)) => {
            let text = verdicts_text(alloc, form, set.number, disposition, verdicts)?;
            show_text(alloc, lines, form, text.as_str())
        }
        _ => Ok(()),
    }
}

/// Hands on a vector set: whether it was cancelled, its capability, and what its last answers came to.
#[tactic(auto, using(crate::proofs::EscapeLemmas::shown_both))]
fn show_set<L: Lines>(
    alloc: Global,
    lines: &mut L,
    form: Form,
    set: &SetSummary,
    capability: &Capability,
    verdicts: &Option<Vec<Verdict>>,
) -> Result<(), ViewFault>
    ensures taken { OnOk result ((texts : List (List ℕ))
        × AreSetTexts form set.now capability.now (option_map (λ v. v.items) verdicts.now) texts
        × TakesShown form L.takes texts lines.old lines.new) }
    ensures shown { HandsOnShown form L.takes lines.old lines.new }
{
    show_capability(alloc, lines, form, set, capability)?;
    show_results(alloc, lines, form, set, verdicts)
}

/// Hands on the vector set of a number, where there is one.
fn show_set_at<T: Tables, L: Lines>(
    alloc: Global,
    tables: &mut T,
    lines: &mut L,
    form: Form,
    number: u64,
) -> Result<(), ViewFault>
    ensures told { Shows form L.takes T.meaning result tables.old tables.new lines.old lines.new
        (AreTextsAt form number) }
    ensures looks { Looks T.meaning result tables.old tables.new }
    ensures shown { HandsOnShown form L.takes lines.old lines.new }
{
    let Some(set) = tables.set(number)? else {
        return Ok(());
    };
    let Some(capability) = tables.capability(number)? else {
        return Err(ViewFault::Refused);
    };
    let verdicts = tables.verdicts(number)?;
    show_set(alloc, lines, form, &set, &capability, &verdicts)
}

/// Hands on each vector set of a test session, the cancelled ones too.
#[tactic(auto, using(crate::proofs::EscapeLemmas::shown_both))]
pub(crate) fn show_sets<T: Tables, L: Lines>(
    alloc: Global,
    tables: &mut T,
    lines: &mut L,
    form: Form,
    session: u64,
) -> Result<(), ViewFault>
    ensures told { Shows form L.takes T.meaning result tables.old tables.new lines.old lines.new
        (AreTextsTo form session most_sets) }
    ensures looks { Looks T.meaning result tables.old tables.new }
    ensures shown { HandsOnShown form L.takes lines.old lines.new }
{
    if session > MOST_SESSION {
        return Err(ViewFault::Refused);
    }
    for place in 0..MOST_SETS {
        show_set_at(alloc, tables, lines, form, session * 100 + 1 + place)?;
    }
    Ok(())
}
