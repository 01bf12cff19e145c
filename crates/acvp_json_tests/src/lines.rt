//! Cases as lines of words: a check takes long over a table of constants, and no time over a text.

use acvp_json::BodyFault;
use std::process::Abort;

/// What stands before the first space of a text, and behind it.
pub(crate) fn cut(text: &str) -> (&str, &str) {
    match text.split_once(' ') {
        Some(parts) => parts,
        None => (text, ""),
    }
}

/// A number.
pub(crate) fn number(rt: &impl Abort, word: &str) -> u64 {
    word.parse::<u64>().ok().expect(rt, "a number")
}

/// That what a line says is so.
pub(crate) fn is_so(rt: &impl Abort, holds: bool, line: &str) {
    assert!(rt; holds, "{line}");
}

/// The word for a fault.
pub(crate) fn fault_word(fault: BodyFault) -> &'static str {
    match fault {
        BodyFault::BodyNotJson => "BodyNotJson",
        BodyFault::BodyEnvelope => "BodyEnvelope",
        BodyFault::BodyField => "BodyField",
        BodyFault::UnknownTest => "UnknownTest",
        BodyFault::DuplicateTest => "DuplicateTest",
        BodyFault::SetMismatch => "SetMismatch",
        BodyFault::NoReference => "NoReference",
        _ => "another fault",
    }
}
