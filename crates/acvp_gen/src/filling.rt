//! Tests with their numbers and bytes, made of what groups are to be.

ghost use Rattle.std.specs.Prelude.{◌≡◌, ◌≤◌, ◌+◌, [], length, All, IfOk};
ghost use Rattle.std.specs.List.{sum_by};
ghost use Rattle.acvp_gen.specs.Prompts.{test_at, words_of_test, groups_after};
ghost use Rattle.acvp_gen.specs.Private.Filling.{tests_from, groups_from, IsShort, AreSmall};
ghost use Rattle.acvp_gen.specs.Private.Generator.{moved};

use crate::generator::Generator;
use crate::group::Group;
use crate::shape::{Shape, TestShape};
use crate::test_case::Test;
use crate::words::value;
use std::alloc::{AllocError, Global};

/// The test of a number, whose key begins at the next word, and the message after it.
fn test_at(
    alloc: Global,
    words: &mut Generator,
    number: u64,
    shape: &TestShape,
) -> Result<Test, AllocError>
    requires short { IsShort shape.now }
    requires place { words.old.place ≤ 10000000 }
    ensures value { IfOk result
        (λ test. test ≡ test_at words.old.seed words.old.vs number words.old.place shape.now) }
    ensures moved { IfOk result (λ _. words.new ≡ moved words.old (words_of_test shape.now)) }
{
    let key = value(alloc, words, shape.key_bits / 8)?;
    let message = value(alloc, words, shape.message_bits / 8)?;
    Ok(Test {
        number,
        bits: shape.message_bits,
        message,
        key,
    })
}

/// The tests of a group, whose first has this number and begins at the next word.
fn tests_from(
    alloc: Global,
    words: &mut Generator,
    number: u64,
    shapes: &[TestShape],
) -> Result<Vec<Test>, AllocError>
    requires few { length shapes.now ≤ 26 }
    requires short { All IsShort shapes.now }
    requires number { number ≤ 1000 }
    requires place { words.old.place ≤ 8000000 }
    ensures value { IfOk result
        (λ tests. tests.items ≡ tests_from words.old.seed words.old.vs number words.old.place shapes.now) }
    ensures moved { IfOk result (λ _. words.new ≡ moved words.old (sum_by words_of_test shapes.now)) }
    ensures most { IfOk result (λ _. words.new.place ≤ words.old.place + 479232) }
{
    let mut tests = Vec::with_capacity(alloc, shapes.len())?;
    let mut number = number;
    for shape in shapes {
        tests.push(test_at(alloc, words, number, shape)?)?;
        number += 1;
    }
    Ok(tests)
}

/// The groups, whose first test begins at the next word.
pub(crate) fn groups_from(
    alloc: Global,
    words: &mut Generator,
    shapes: &[Shape],
) -> Result<Vec<Group>, AllocError>
    requires small { AreSmall shapes.now }
    requires draws { words.old.place ≤ 16 }
    ensures { IfOk result
        (λ groups. groups.items ≡ groups_after words.old.seed words.old.vs words.old.place [] 1 shapes.now) }
{
    let mut groups = Vec::with_capacity(alloc, shapes.len())?;
    let mut group = 1;
    let mut number = 1;
    for shape in shapes {
        groups.push(Group {
            number: group,
            form: shape.form,
            tests: tests_from(alloc, words, number, &shape.tests)?,
        })?;
        group += 1;
        number += shape.tests.len() as u64;
    }
    Ok(groups)
}
