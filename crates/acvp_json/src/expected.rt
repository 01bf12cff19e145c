//! The object of a vector set's expected answers: the standard's, in the places that a client's take.
ghost use Rattle.std.specs.Prelude.{◌≡◌, IfOk, map, string_bytes};
ghost use Rattle.serde_json.specs.View.{view};
ghost use Rattle.acvp_json.specs.Values.{array_of};
ghost use Rattle.acvp_json.specs.Expected.{texts_at, first_text, digest_data, expected_checkpoints};
ghost use Rattle.acvp_json.specs.Expected.{expected_answer, expected_test, expected_group, expected_data};

use crate::array::{Shows, array};
use crate::object::object;
use acvp_answers::Answers;
use acvp_gen::{Group, GroupForm, Prompts, Test};
use serde_json::Value;
use std::alloc::{AllocError, Global};

/// The texts that answer the test of a number, of which there may be none.
fn texts_at(standard: &Answers, number: u64) -> &[String]
    ensures { map string_bytes result.now ≡ texts_at standard.now number }
{
    match standard.texts_for(number) {
        Some(texts) => texts,
        None => &[],
    }
}

/// The first of some texts, empty where there is none.
fn first_text(texts: &[String]) -> &str
    ensures { result.now ≡ first_text (map string_bytes texts.now) }
{
    match texts.first() {
        Some(text) => text.as_str(),
        None => "",
    }
}

/// Checkpoints of a Monte Carlo test.
struct Checkpoints;

impl Shows<String> for Checkpoints {
    ghost data_of = { λ _ text. digest_data (string_bytes text) };

    fn value(&self, alloc: Global, text: &String) -> Result<Value, AllocError> {
        object(alloc, &[("md", text.as_str())], &[], [])
    }
}

/// The checkpoints of a Monte Carlo test.
fn checkpoints_value(alloc: Global, texts: &[String]) -> Result<Value, AllocError>
    ensures { IfOk result (λ value. view value ≡ array_of digest_data (map string_bytes texts.now)) }
{
    array(alloc, &Checkpoints, texts)
}

/// A Monte Carlo test: each checkpoint.
fn expected_checkpoints(alloc: Global, texts: &[String], number: u64) -> Result<Value, AllocError>
    ensures { IfOk result (λ value. view value ≡ expected_checkpoints (map string_bytes texts.now) number) }
{
    let checkpoints = checkpoints_value(alloc, texts)?;
    object(
        alloc,
        &[],
        &["resultsArray", "tcId"],
        [checkpoints, Value::from(number)],
    )
}

/// A test of a group of this form.
fn expected_answer(
    alloc: Global,
    form: GroupForm,
    texts: &[String],
    number: u64,
) -> Result<Value, AllocError>
    ensures { IfOk result (λ value. view value ≡ expected_answer form (map string_bytes texts.now) number) }
{
    match form {
        GroupForm::Digest => object(
            alloc,
            &[("md", first_text(texts))],
            &["tcId"],
            [Value::from(number)],
        ),
        GroupForm::MonteCarlo => expected_checkpoints(alloc, texts, number),
        GroupForm::Mac(_) => object(
            alloc,
            &[("mac", first_text(texts))],
            &["tcId"],
            [Value::from(number)],
        ),
    }
}

/// The tests of a group of this form, and the standard's answers to them.
#[derive(Clone, Copy)]
struct ExpectedTests<'a> {
    standard: &'a Answers,
    form: GroupForm,
}

impl Shows<Test> for ExpectedTests<'_> {
    ghost data_of = { λ tests test. expected_test tests.standard.now tests.form test };

    fn value(&self, alloc: Global, test: &Test) -> Result<Value, AllocError> {
        let texts = texts_at(self.standard, test.number());
        expected_answer(alloc, self.form, texts, test.number())
    }
}

/// The groups of a vector set, and the standard's answers to their tests.
#[derive(Clone, Copy)]
struct ExpectedGroups<'a> {
    standard: &'a Answers,
}

impl Shows<Group> for ExpectedGroups<'_> {
    ghost data_of = { λ groups group. expected_group groups.standard.now group };

    fn value(&self, alloc: Global, group: &Group) -> Result<Value, AllocError> {
        let show = ExpectedTests {
            standard: self.standard,
            form: group.form(),
        };
        let tests = array(alloc, &show, group.tests())?;
        object(
            alloc,
            &[],
            &["tests", "tgId"],
            [tests, Value::from(group.number())],
        )
    }
}

/// The standard's answers to the tests of a vector set, as they are handed in. A test that they lack has the empty
/// text, or no checkpoints, so that any answers can be shown.
pub(crate) fn expected_value(
    alloc: Global,
    prompts: &Prompts,
    standard: &Answers,
) -> Result<Value, AllocError>
    ensures { IfOk result (λ value. view value ≡ expected_data prompts.now standard.now) }
{
    let groups = array(alloc, &ExpectedGroups { standard }, prompts.groups())?;
    object(
        alloc,
        &[
            ("algorithm", prompts.algorithm().name()),
            ("revision", "1.0"),
        ],
        &["testGroups", "vsId"],
        [groups, Value::from(prompts.vs())],
    )
}
