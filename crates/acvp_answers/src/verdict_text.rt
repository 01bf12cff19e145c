//! Verdicts as a text of one letter each, as they are kept.
ghost use Rattle.std.specs.Prelude.{◌≡◌, ◌≢◌, [], ◌∷◌, IfOk, List, MatchOption, MatchResult, string_bytes};
ghost use Rattle.acvp_answers.specs.declared.verdict.Verdict.{Verdict};
ghost use Rattle.acvp_answers.specs.VerdictText.{IsUnread, letter_of, verdicts_text};

use crate::verdict::Verdict;
use std::alloc::{AllocError, Global};

/// Why a text isn't read as verdicts.
#[derive(Clone, Copy, PartialEq, Eq, Debug)]
pub enum TextFault {
    /// A byte is none of the three letters.
    Letter,

    /// Memory ran out, whatever the text is.
    Memory,
}

impl From<AllocError> for TextFault {
    ghost use Rattle.std.specs.Prelude.{◌≡◌};
    ghost use Rattle.acvp_answers.specs.declared.verdict_text.TextFault.TheVariants.{Memory};

    ghost from_gives = { λ _ fault. fault ≡ Memory };

    fn from(_refused: AllocError) -> TextFault {
        TextFault::Memory
    }
}

/// The letter of a verdict.
fn letter(verdict: Verdict) -> &'static str
    ensures { result.now ≡ letter_of verdict ∷ [] }
{
    match verdict {
        Verdict::Passed => "p",
        Verdict::Missing => "m",
        Verdict::Fail => "f",
    }
}

/// The verdict of a letter.
fn verdict_of_letter(letter: u8) -> Option<Verdict>
    ensures { MatchOption result ((v : Verdict) → letter_of v ≢ letter) (λ v. letter_of v ≡ letter) }
{
    match letter {
        b'p' => Some(Verdict::Passed),
        b'm' => Some(Verdict::Missing),
        b'f' => Some(Verdict::Fail),
        _ => None,
    }
}

/// The text of verdicts: `p` for passed, `m` for missing, `f` for fail.
pub fn verdicts_to_text(alloc: Global, verdicts: &[Verdict]) -> Result<String, AllocError>
    ensures { IfOk result (λ text. string_bytes text ≡ verdicts_text verdicts.now) }
{
    let mut text = String::with_capacity(alloc, verdicts.len())?;
    for verdict in verdicts {
        text.push_str(letter(*verdict))?;
    }
    Ok(text)
}

/// A text is that of one list of verdicts at most.
pub fn verdict_texts_read_one_way()
    ensures { (one other : List Verdict) → verdicts_text one ≡ verdicts_text other → one ≡ other }
{}

/// The verdicts of a text. It reads the texts that `verdicts_to_text` writes, and no other.
pub fn verdicts_from_text(alloc: Global, text: &str) -> Result<Vec<Verdict>, TextFault>
    ensures read { MatchResult result (λ verdicts. text.now ≡ verdicts_text verdicts.items) (IsUnread text.now) }
    ensures back { (verdicts : List Verdict) → text.now ≡ verdicts_text verdicts
        → IfOk result (λ read. read.items ≡ verdicts) }
{
    let mut verdicts = Vec::with_capacity(alloc, text.len())?;
    for letter in text.as_bytes() {
        let Some(verdict) = verdict_of_letter(*letter) else {
            return Err(TextFault::Letter);
        };
        if verdicts.push(verdict).is_err() {
            return Err(TextFault::Memory);
        }
    }
    Ok(verdicts)
}
