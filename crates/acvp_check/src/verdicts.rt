//! The verdicts on the answers to vector sets, and these answers' tests, worked out anew.
ghost use Rattle.std.specs.Prelude.{◌≡◌, IfOk};
ghost use Rattle.std.specs.List.{flat_map};
ghost use Rattle.std.specs.Cmp.Lexicographic.{pointwise};
ghost use Rattle.acvp_mac.specs.Conditions.{first_broken};
ghost use Rattle.acvp_desk.specs.Answered.{are_to_its_tests, are_to_tests, has_own_answers};
ghost use Rattle.acvp_check.specs.Conditions.{is_right, is_right_under, is_verdict, verdict_conditions};
ghost use Rattle.acvp_check.specs.Conditions.{verdict_row_conditions};

use crate::finding::{Finding, RowKey, Wrong};
use crate::rows::Rows;
use acvp_answers::{Answers, Verdict, grade, standard};
use acvp_gen::{Seeds, prompts};
use acvp_tables::{Graded, SetRow};
use std::alloc::{AllocError, Global};

/// Whether a verdict is another.
fn is_verdict(kept: Verdict, other: Verdict) -> bool
    ensures { result ≡ is_verdict kept other }
{
    match kept {
        Verdict::Passed => matches!(other, Verdict::Passed),
        Verdict::Fail => matches!(other, Verdict::Fail),
        Verdict::Missing => matches!(other, Verdict::Missing),
    }
}

/// Whether verdicts are others, one by one.
fn are_verdicts(kept: &[Verdict], others: &[Verdict]) -> bool
    ensures { result ≡ pointwise is_verdict kept.now others.now }
{
    if kept.len() != others.len() {
        return false;
    }
    for (i, verdict) in kept.iter().enumerate() {
        if !is_verdict(*verdict, others[i]) {
            return false;
        }
    }
    true
}

/// Whether each answer is to a test that the standard answers.
fn are_to_tests(standard: &Answers, answers: &Answers) -> bool
    ensures { result ≡ are_to_tests standard.now answers.now }
{
    for (number, _) in answers.iter() {
        if !standard.contains(number) {
            return false;
        }
    }
    true
}

/// Whether the kept verdicts are those on the kept answers, and whether these are to tests of the vector set, under a
/// seed.
fn judged_under(
    alloc: Global,
    row: &SetRow,
    graded: &Graded,
    seed: &[u8; 32],
) -> Result<(bool, bool), AllocError>
    ensures { IfOk result (λ judged. (judged.0 ≡ is_right_under row.now graded.now seed.now)
        × (judged.1 ≡ are_to_its_tests row.now graded.now.answers seed.now)) }
{
    let prompts = prompts(alloc, seed, row.number, &row.capability)?;
    let standard = standard(alloc, &prompts)?;
    let verdicts = grade(alloc, &standard, graded.answers())?;
    let right = are_verdicts(graded.verdicts(), &verdicts);
    Ok((right, are_to_tests(&standard, graded.answers())))
}

/// The same under the seed of its epoch, where there are answers and a seed.
#[tactic(auto, unfolding(acvp_desk::specs::Answered::has_own_answers))]
fn judged_set(alloc: Global, row: &SetRow, seeds: &Seeds) -> Result<(bool, bool), AllocError>
    ensures { IfOk result (λ judged. (judged.0 ≡ is_right seeds.now row.now)
        × (judged.1 ≡ has_own_answers seeds.now row.now)) }
{
    let Some(graded) = &row.graded else {
        return Ok((true, true));
    };
    let Some(seed) = seeds.get(row.epoch) else {
        return Ok((true, true));
    };
    judged_under(alloc, row, graded, seed)
}

/// What is wrong with the verdicts or the answers of a vector set.
fn set_wrong(alloc: Global, row: &SetRow, seeds: &Seeds) -> Result<Option<Finding>, AllocError>
    ensures { IfOk result (λ found. found ≡ first_broken (verdict_row_conditions seeds.now row.now)) }
{
    let (right, own) = judged_set(alloc, row, seeds)?;
    let wrong = if !right {
        Wrong::Verdicts
    } else if !own {
        Wrong::Answers
    } else {
        return Ok(None);
    };
    Ok(Some(Finding {
        row: RowKey::Set(row.number),
        wrong,
    }))
}

/// The first vector set of rows whose verdicts or answers are wrong.
fn first_wrong(alloc: Global, rows: &[SetRow], seeds: &Seeds) -> Result<Option<Finding>, AllocError>
    ensures { IfOk result
        (λ found. found ≡ first_broken (flat_map (verdict_row_conditions seeds.now) rows.now)) }
{
    for row in rows {
        let found = set_wrong(alloc, row, seeds)?;
        if found.is_some() {
            return Ok(found);
        }
    }
    Ok(None)
}

/// What is wrong with the verdicts or the answers of an account's vector sets.
#[tactic(auto, unfolding(crate::specs::Conditions::verdict_conditions))]
pub(crate) fn verdicts_wrong(
    alloc: Global,
    mine: &Rows,
    seeds: &Seeds,
) -> Result<Option<Finding>, AllocError>
    ensures { IfOk result (λ found. found ≡ first_broken (verdict_conditions seeds.now mine.now)) }
{
    first_wrong(alloc, &mine.sets, seeds)
}
