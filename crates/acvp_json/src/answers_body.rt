//! The body of answers to a vector set's tests.
ghost use Rattle.std.specs.Prelude.{◌≡◌, Some, map, option_map};
ghost use Rattle.serde_json.specs.View.{view};
ghost use Rattle.acvp_answers.specs.Answer.{shown_texts};
ghost use Rattle.acvp_caps.specs.Conditions.{IsJudged, judged};
ghost use Rattle.acvp_json.specs.AnswersBody.{is_text_or_absent, is_for_set, has_test, group_for, one_text};
ghost use Rattle.acvp_json.specs.AnswersBody.{texts_by_form, answers_body_conditions, answers_body_of};
ghost use Rattle.acvp_json.specs.Elements.{joined};
ghost use Rattle.acvp_json.specs.Private.AnswersReading.{after_given, after_all, LeadsTo};
ghost use Rattle.acvp_json.specs.Private.Borrowed.{texts};
ghost use Rattle.acvp_json.specs.Private.Readings.{IsRead};

use crate::fault::BodyFault;
use crate::submission::{Given, SubmittedAnswers, submission_in};
use crate::text::copied;
use acvp_answers::Answers;
use acvp_gen::{Group, GroupForm, Prompts};
use serde_json::Value;
use std::alloc::{AllocError, Global};

/// Whether a text isn't told, or is this one.
fn is_text_or_absent(text: Option<&str>, wanted: &str) -> bool
    ensures { result ≡ is_text_or_absent wanted.now (texts text.entry) }
{
    match text {
        Some(text) => text == wanted,
        None => true,
    }
}

/// Whether a body is for this vector set, and names no other algorithm or revision.
fn is_for_set(submission: &SubmittedAnswers<'_>, prompts: &Prompts) -> bool
    ensures { result ≡ is_for_set submission.now prompts.now }
{
    submission.vs == prompts.vs()
        && is_text_or_absent(submission.algorithm, prompts.algorithm().name())
        && is_text_or_absent(submission.revision, "1.0")
}

/// Whether a group has the test of a number.
fn has_test(number: u64, group: &Group) -> bool
    ensures { result ≡ has_test number group.now }
{
    group.tests().iter().any(|test| test.number() == number)
}

/// The vector set's group that an answer names, where it has the test.
fn group_for<'a>(prompts: &'a Prompts, given: &Given<'_>) -> Option<&'a Group>
    ensures { option_map (λ g. g.now) result ≡ group_for prompts.now given.now }
{
    for group in prompts.groups() {
        if group.number() == given.group && has_test(given.test, group) {
            return Some(group);
        }
    }
    None
}

/// A text as the only one.
fn one_text(alloc: Global, text: Option<&str>) -> Result<Vec<String>, BodyFault>
    ensures { IsRead result shown_texts (one_text (texts text.entry)) }
{
    let Some(text) = text else {
        return Err(BodyFault::BodyField);
    };
    let mut texts = Vec::new(alloc);
    texts.push(copied(alloc, text)?.into_string())?;
    Ok(texts)
}

/// Texts of their own.
fn copies(alloc: Global, texts: &[&str]) -> Result<Vec<String>, BodyFault>
    ensures { IsRead result shown_texts (Some (map (λ t. t.now) texts.now)) }
{
    let mut copies = Vec::new(alloc);
    for text in texts {
        copies.push(copied(alloc, *text)?.into_string())?;
    }
    Ok(copies)
}

/// The texts of an answer to a test of a group of this form, by the member of its kind.
fn texts_by_form(
    alloc: Global,
    form: GroupForm,
    given: &Given<'_>,
) -> Result<Vec<String>, BodyFault>
    ensures { IsRead result shown_texts (texts_by_form form given.now) }
{
    match form {
        GroupForm::Digest => one_text(alloc, given.md),
        GroupForm::MonteCarlo => match &given.checkpoints {
            Some(checkpoints) => copies(alloc, checkpoints),
            None => Err(BodyFault::BodyField),
        },
        GroupForm::Mac(_) => one_text(alloc, given.mac),
    }
}

/// Adds an answer.
fn add_given(
    alloc: Global,
    answers: &mut Answers,
    prompts: &Prompts,
    given: &Given<'_>,
) -> Result<(), BodyFault>
    ensures { LeadsTo result answers.new (after_given prompts.now answers.old given.now) }
{
    let Some(group) = group_for(prompts, given) else {
        return Err(BodyFault::UnknownTest);
    };
    if answers.contains(given.test) {
        return Err(BodyFault::DuplicateTest);
    }
    let texts = texts_by_form(alloc, group.form(), given)?;
    answers.insert(given.test, texts)?;
    Ok(())
}

/// Adds the answers of a group.
fn add_group(
    alloc: Global,
    answers: &mut Answers,
    prompts: &Prompts,
    group: &[Given<'_>],
) -> Result<(), BodyFault>
    ensures { LeadsTo result answers.new (after_all prompts.now answers.old group.now) }
{
    for given in group {
        add_given(alloc, answers, prompts, given)?;
    }
    Ok(())
}

/// Adds the answers of all groups.
fn add_groups(
    alloc: Global,
    answers: &mut Answers,
    prompts: &Prompts,
    groups: &[Vec<Given<'_>>],
) -> Result<(), BodyFault>
    ensures { LeadsTo result answers.new (after_all prompts.now answers.old (joined (map (λ g. g.items) groups.now))) }
{
    for group in groups {
        add_group(alloc, answers, prompts, group)?;
    }
    Ok(())
}

/// Reads the answers to a vector set's tests. The faults are BodyField where the object hasn't its form, SetMismatch,
/// and then of the answers in their order UnknownTest, DuplicateTest, and BodyField where the member of the test's kind
/// is absent; or Memory. After the form, an answer costs a look through the vector set's tests, and there are no more
/// answers than tests before the first fault.
pub fn read_answers(alloc: Global, object: &Value, prompts: &Prompts) -> Result<Answers, BodyFault>
    ensures { IsJudged BodyFault.Memory (λ answers. Some answers)
        (judged (answers_body_conditions (view object.now) prompts.now)
        (answers_body_of (view object.now) prompts.now)) result }
{
    let submission = submission_in(alloc, object)?;
    if !is_for_set(&submission, prompts) {
        return Err(BodyFault::SetMismatch);
    }
    let mut answers = Answers::new(alloc);
    add_groups(alloc, &mut answers, prompts, &submission.groups)?;
    Ok(answers)
}
