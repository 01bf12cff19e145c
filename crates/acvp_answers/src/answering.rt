//! The standard's answers to the tests of a vector set.

ghost use Rattle.std.specs.Prelude.{◌≡◌, ◌≤◌, ◌+◌, ◌*◌, ◌++◌, IfOk, IfSome, length, map, string_bytes};
ghost use Rattle.std.specs.List.{range_with_len};
ghost use Rattle.acvp_mac.specs.Hash.{out_of};
ghost use Rattle.acvp_gen.specs.Prompt.{sizes_of};
ghost use Rattle.acvp_answers.specs.Answer.{AreWithoutGaps};
ghost use Rattle.acvp_answers.specs.Standards as standards;

use crate::answers::Answers;
use crate::texts::{digest_texts, mac_texts, monte_carlo_texts};
use acvp_gen::{Group, GroupForm, Prompts, Test};
use acvp_mac::HashName;
use std::alloc::{AllocError, Global};

/// The standard's texts for a test of a group.
fn texts_on(
    alloc: Global,
    name: HashName,
    group: &Group,
    test: &Test,
) -> Result<Vec<String>, AllocError>
    requires { IfSome (sizes_of group.now.form) (λ s. s.mac_bits ≤ 8 * out_of name) }
    ensures { IfOk result (λ texts. map string_bytes texts.items ≡ standards.texts_on name group.now.form test.now) }
{
    match group.form() {
        GroupForm::Digest => digest_texts(alloc, name, test.message()),
        GroupForm::MonteCarlo => monte_carlo_texts(alloc, name, test.message()),
        GroupForm::Mac(sizes) => {
            let bytes = (sizes.mac_bits / 8) as usize;
            mac_texts(alloc, name, test.key(), test.message(), bytes)
        }
    }
}

/// Adds the standard's answers to the tests of a group, which are numbered after those answered already.
fn answer_group(
    alloc: Global,
    answers: &mut Answers,
    name: HashName,
    group: &Group,
) -> Result<(), AllocError>
    requires before { AreWithoutGaps answers.now }
    requires next { map (λ t. t.number) group.now.tests ≡ range_with_len (length answers.now + 1)
        (length group.now.tests) }
    requires sized { IfSome (sizes_of group.now.form) (λ s. s.mac_bits ≤ 8 * out_of name) }
    ensures value { IfOk result (λ _. answers.new ≡ answers.old ++ standards.group_answers name group.now) }
    ensures before { IfOk result (λ _. AreWithoutGaps answers.new) }
{
    for test in group.tests() {
        let texts = texts_on(alloc, name, group, test)?;
        answers.insert(test.number(), texts)?;
    }
    Ok(())
}

/// The standard's answers to the tests of a vector set: the digest of each message (FIPS 180-4), the leftmost bits of
/// its HMAC (FIPS 198-1), or a hundred checkpoints (NIST, The Secure Hash Algorithm Validation System, section 6.4), as
/// hex digits in lower case.
pub fn standard(alloc: Global, prompts: &Prompts) -> Result<Answers, AllocError>
    ensures value { IfOk result (λ answers. answers ≡ standards.standard_of prompts.now) }
    ensures numbered { IfOk result AreWithoutGaps }
{
    let mut answers = Answers::new(alloc);
    let name = prompts.algorithm().hash();
    for group in prompts.groups() {
        answer_group(alloc, &mut answers, name, group)?;
    }
    Ok(answers)
}
