//! What a line tells, and its text.
ghost use Rattle.std.specs.Prelude.{◌≡◌, IfOk, string_bytes};
ghost use Rattle.acvp_log.specs.Lines.{moment_text};

use acvp_causes::Cause;
use acvp_json::time_text;
use acvp_policy::{Action, Rule};
use std::alloc::{AllocError, Global};
use std::fmt;

/// The first second of the year 10000, for which there is no date in four digits.
const END_OF_DATES: u64 = 253402300800;

/// A moment in seconds since 1970 as its date and time in UTC, or as the number where it has no date.
pub(crate) fn moment_text(alloc: Global, moment: u64) -> Result<String, AllocError>
    ensures { IfOk result (λ text. string_bytes text ≡ moment_text moment) }
{
    if moment < END_OF_DATES {
        time_text(alloc, moment)
    } else {
        format!(in alloc; "{moment}")
    }
}

/// When something was handed on: its text, or the seconds since 1970 where memory ran out for one.
#[derive(Clone, Copy)]
pub(crate) struct When<'a> {
    pub text: Option<&'a str>,
    pub moment: u64,
}

impl fmt::Display for When<'_> {
    fn fmt<W: fmt::Write>(&self, f: &mut fmt::Formatter<W>) -> fmt::Result {
        match self.text {
            Some(text) => f.write_str(text),
            None => write!(f, "{}", self.moment),
        }
    }
}

/// What was asked for.
#[derive(Clone, Copy)]
pub(crate) enum Asked {
    /// None of the protocol's actions, and no order.
    Nothing,

    Action(Action),

    /// The order of this word.
    Order(&'static str),
}

impl fmt::Display for Asked {
    fn fmt<W: fmt::Write>(&self, f: &mut fmt::Formatter<W>) -> fmt::Result {
        match *self {
            Asked::Nothing => f.write_str("-"),
            Asked::Action(action) => write!(f, "{action:?}"),
            Asked::Order(word) => f.write_str(word),
        }
    }
}

/// A number, or none.
#[derive(Clone, Copy)]
pub(crate) struct Number(pub Option<u64>);

impl fmt::Display for Number {
    fn fmt<W: fmt::Write>(&self, f: &mut fmt::Formatter<W>) -> fmt::Result {
        match *self {
            Number(Some(number)) => write!(f, "{number}"),
            Number(None) => f.write_str("-"),
        }
    }
}

/// A rule that a request is refused by.
#[derive(Clone, Copy)]
pub(crate) struct Refusal {
    pub rule: Rule,
}

impl fmt::Display for Refusal {
    fn fmt<W: fmt::Write>(&self, f: &mut fmt::Formatter<W>) -> fmt::Result {
        f.write_str(self.rule.word())
    }
}

/// What came of it, in a word: E is what a request, or an order, is refused by.
#[derive(Clone, Copy)]
pub(crate) enum Came<E> {
    /// It is done.
    Done,

    /// It is refused.
    Refused(E),

    /// Its connection broke before it was whole, or its client took too long.
    Broken,
}

impl<E: fmt::Display> fmt::Display for Came<E> {
    fn fmt<W: fmt::Write>(&self, f: &mut fmt::Formatter<W>) -> fmt::Result {
        match self {
            Came::Done => f.write_str("ok"),
            Came::Refused(word) => write!(f, "{word}"),
            Came::Broken => f.write_str("broken"),
        }
    }
}

/// What stands behind the milliseconds.
#[derive(Clone, Copy)]
pub(crate) struct Tail {
    /// Whether the client went before its reply was out.
    pub unsent: bool,

    /// Why it was unavailable.
    pub because: Option<Cause>,
}

impl fmt::Display for Tail {
    fn fmt<W: fmt::Write>(&self, f: &mut fmt::Formatter<W>) -> fmt::Result {
        if self.unsent {
            f.write_str(" unsent")?;
        }
        match self.because {
            Some(cause) => write!(f, " because: {cause}"),
            None => Ok(()),
        }
    }
}

/// What a line tells.
#[derive(Clone, Copy)]
pub(crate) struct Entry<E> {
    pub account: Option<u16>,
    pub asked: Asked,

    /// The number of the vector set or the test session that a request is about, or the number that an order names.
    pub subject: Option<u64>,

    /// The status of a reply.
    pub status: Option<u64>,
    pub came: Came<E>,
    pub tail: Tail,
}
