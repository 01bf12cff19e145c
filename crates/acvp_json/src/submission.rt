//! What a body of answers says, whatever the vector set's prompts are.
ghost use Rattle.std.specs.Prelude.{map, option_map, codes};
ghost use Rattle.serde_json.specs.View.{view};
ghost use Rattle.acvp_json.specs.Members.{text_at};
ghost use Rattle.acvp_json.specs.SubmittedAnswers.{each_in, optional_checkpoints, given_of, group_of, submission_of};
ghost use Rattle.acvp_json.specs.Private.Borrowed.{bytes_of};
ghost use Rattle.acvp_json.specs.Private.Readings.{IsRead};

use crate::fault::BodyFault;
use crate::members::{elements, optional_text};
use acvp_caps::json::{number_at, text_at};
use serde_json::Value;
use std::alloc::Global;
use std::marker::Model;

/// An answer that is given, with its texts as they stand in the body.
#[derive(Drop)]
pub(crate) struct Given<'a> {
    /// The number of the group that it stands in.
    pub(crate) group: u64,

    /// The number of the test.
    pub(crate) test: u64,

    pub(crate) md: Option<&'a str>,
    pub(crate) mac: Option<&'a str>,
    pub(crate) checkpoints: Option<Vec<&'a str>>,
}

impl<'a> Model for Given<'a> {
    ghost use Rattle.std.specs.Prelude.{option_map};
    ghost use Rattle.acvp_json.specs.SubmittedAnswers.{GivenValue};
    ghost use Rattle.acvp_json.specs.Private.Borrowed.{texts, bytes_of};

    ghost Value = { GivenValue };

    ghost view = { λ g. record {
      group = g.group;
      test = g.test;
      md = texts g.md;
      mac = texts g.mac;
      checkpoints = option_map bytes_of g.checkpoints;
    } };
}

/// A body of answers: the vector set's number, what it tests where that is told, and the answers, by groups.
#[derive(Drop)]
pub(crate) struct SubmittedAnswers<'a> {
    pub(crate) vs: u64,
    pub(crate) algorithm: Option<&'a str>,
    pub(crate) revision: Option<&'a str>,
    pub(crate) groups: Vec<Vec<Given<'a>>>,
}

impl<'a> Model for SubmittedAnswers<'a> {
    ghost use Rattle.std.specs.Prelude.{map};
    ghost use Rattle.acvp_json.specs.SubmittedAnswers.{SubmissionValue};
    ghost use Rattle.acvp_json.specs.Private.Borrowed.{texts};

    ghost Value = { SubmissionValue };

    ghost view = { λ s. record {
      vs = s.vs;
      algorithm = texts s.algorithm;
      revision = texts s.revision;
      groups = map (λ g. g.items) s.groups.items;
    } };
}

/// The checkpoints of a Monte Carlo test.
fn checkpoints_in<'a>(alloc: Global, member: Option<&'a Value>) -> Result<Vec<&'a str>, BodyFault>
    ensures { IsRead result bytes_of (each_in (text_at (codes "md")) (option_map (λ v. view v.now) member.entry)) }
{
    let Some(results) = elements(member) else {
        return Err(BodyFault::BodyField);
    };
    let mut texts = Vec::new(alloc);
    for result in results {
        let Some(text) = text_at(result, "md") else {
            return Err(BodyFault::BodyField);
        };
        texts.push(text)?;
    }
    Ok(texts)
}

/// The checkpoints, where the member is there.
fn optional_checkpoints<'a>(
    alloc: Global,
    member: Option<&'a Value>,
) -> Result<Option<Vec<&'a str>>, BodyFault>
    ensures { IsRead result (option_map bytes_of) (optional_checkpoints (option_map (λ v. view v.now) member.entry)) }
{
    if member.is_none() {
        return Ok(None);
    }
    Ok(Some(checkpoints_in(alloc, member)?))
}

/// An answer in the group of a number.
fn given_in<'a>(alloc: Global, group: u64, value: &'a Value) -> Result<Given<'a>, BodyFault>
    ensures { IsRead result (λ given. given) (given_of group (view value.now)) }
{
    let (Some(test), Some(md), Some(mac)) = (
        number_at(value, "tcId"),
        optional_text(value.get("md")),
        optional_text(value.get("mac")),
    ) else {
        return Err(BodyFault::BodyField);
    };
    Ok(Given {
        group,
        test,
        md,
        mac,
        checkpoints: optional_checkpoints(alloc, value.get("resultsArray"))?,
    })
}

/// The answers among the tests of the group of a number.
fn tests_in<'a>(
    alloc: Global,
    group: u64,
    member: Option<&'a Value>,
) -> Result<Vec<Given<'a>>, BodyFault>
    ensures { IsRead result (λ tests. tests.items)
        (each_in (given_of group) (option_map (λ v. view v.now) member.entry)) }
{
    let Some(items) = elements(member) else {
        return Err(BodyFault::BodyField);
    };
    let mut tests = Vec::new(alloc);
    for item in items {
        tests.push(given_in(alloc, group, item)?)?;
    }
    Ok(tests)
}

/// The answers in a group.
fn group_in<'a>(alloc: Global, value: &'a Value) -> Result<Vec<Given<'a>>, BodyFault>
    ensures { IsRead result (λ tests. tests.items) (group_of (view value.now)) }
{
    let Some(group) = number_at(value, "tgId") else {
        return Err(BodyFault::BodyField);
    };
    tests_in(alloc, group, value.get("tests"))
}

/// The answers, by groups.
fn groups_in<'a>(alloc: Global, member: Option<&'a Value>) -> Result<Vec<Vec<Given<'a>>>, BodyFault>
    ensures { IsRead result (λ groups. map (λ g. g.items) groups.items) (each_in group_of
        (option_map (λ v. view v.now) member.entry)) }
{
    let Some(items) = elements(member) else {
        return Err(BodyFault::BodyField);
    };
    let mut groups = Vec::new(alloc);
    for item in items {
        groups.push(group_in(alloc, item)?)?;
    }
    Ok(groups)
}

/// What the object of a body of answers says. It takes time and memory in the length of the body.
pub(crate) fn submission_in<'a>(
    alloc: Global,
    object: &'a Value,
) -> Result<SubmittedAnswers<'a>, BodyFault>
    ensures { IsRead result (λ submission. submission) (submission_of (view object.now)) }
{
    let (Some(vs), Some(algorithm), Some(revision)) = (
        number_at(object, "vsId"),
        optional_text(object.get("algorithm")),
        optional_text(object.get("revision")),
    ) else {
        return Err(BodyFault::BodyField);
    };
    Ok(SubmittedAnswers {
        vs,
        algorithm,
        revision,
        groups: groups_in(alloc, object.get("testGroups"))?,
    })
}
