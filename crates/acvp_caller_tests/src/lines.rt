//! Cases as lines of words: a check takes long over a table of constants, and no time over a text.

use acvp_token::TokenFault;
use std::process::Abort;

/// What stands before the first space of a text, and behind it.
pub(crate) fn cut(text: &str) -> (&str, &str) {
    match text.split_once(' ') {
        Some(parts) => parts,
        None => (text, ""),
    }
}

/// The place of the line that begins with a word, and what stands behind that.
pub(crate) fn line_of<'a>(rt: &impl Abort, table: &'a str, word: &str) -> (usize, &'a str) {
    let mut place = 0usize;
    for line in table.lines() {
        let (first, behind) = cut(line);
        if first == word {
            return (place, behind);
        }
        place = place.saturating_add(1);
    }
    panic!(rt; "no line for {word}")
}

/// A number.
pub(crate) fn number(rt: &impl Abort, word: &str) -> u64 {
    word.parse::<u64>().ok().expect(rt, "a number")
}

/// A number, or nothing where a dash stands.
pub(crate) fn optional(rt: &impl Abort, word: &str) -> Option<u64> {
    if word == "-" {
        return None;
    }
    Some(number(rt, word))
}

/// A fault by its name.
pub(crate) fn fault_of(rt: &impl Abort, name: &str) -> TokenFault {
    match name {
        "Malformed" => TokenFault::Malformed,
        "Signature" => TokenFault::Signature,
        "Claims" => TokenFault::Claims,
        _ => {
            assert_eq!(rt; name, "Expired");
            TokenFault::Expired
        }
    }
}
