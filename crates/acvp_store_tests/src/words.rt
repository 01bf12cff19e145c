//! The words of lines.

use acvp_registry::Kind;
use acvp_tables::Counted;
use std::process::Abort;

/// That what a line says is so.
pub(crate) fn is_so(rt: &impl Abort, holds: bool, line: &str) {
    assert!(rt; holds, "{line}");
}

/// What stands before the first space of a text, and behind it.
pub(crate) fn cut(text: &str) -> (&str, &str) {
    match text.split_once(' ') {
        Some(parts) => parts,
        None => (text, ""),
    }
}

/// The names of rows.
const ROWS: &[(&str, Counted)] = &[
    ("Sessions", Counted::Sessions),
    ("Requests", Counted::Requests),
    ("Vendor", Counted::Objects(Kind::Vendor)),
    ("Module", Counted::Objects(Kind::Module)),
    ("Environment", Counted::Objects(Kind::Environment)),
];

/// The rows of this name, if there are any.
fn rows_named(name: &str) -> Option<Counted> {
    for (of, rows) in ROWS {
        if *of == name {
            return Some(*rows);
        }
    }
    None
}

/// What a step is of: rows, where its first word names some, and numbers, which are 0 where it has no more words.
#[derive(Clone, Copy)]
pub(crate) struct Of {
    rows: Option<Counted>,
    pub first: u64,
    pub second: u64,
    pub third: u64,
}

/// A number, or 0 where there is no word.
fn number(rt: &impl Abort, word: &str) -> u64 {
    if word.is_empty() {
        return 0;
    }
    word.parse::<u64>().ok().expect(rt, "a number")
}

/// What a step is of, by the rows and the words of its numbers.
fn of_numbers(rt: &impl Abort, rows: Option<Counted>, words: &str) -> Of {
    let (first, words) = cut(words);
    let (second, third) = cut(words);
    Of {
        rows,
        first: number(rt, first),
        second: number(rt, second),
        third: number(rt, third),
    }
}

/// What a step of these words is of.
pub(crate) fn of_words(rt: &impl Abort, words: &str) -> Of {
    let (name, numbers) = cut(words);
    match rows_named(name) {
        Some(rows) => of_numbers(rt, Some(rows), numbers),
        None => of_numbers(rt, None, words),
    }
}

/// The rows that a step is of.
pub(crate) fn rows_in(rt: &impl Abort, of: Of) -> Counted {
    of.rows.expect(rt, "rows")
}

/// The kind of the objects that a step is of.
pub(crate) fn kind_in(rt: &impl Abort, of: Of) -> Kind {
    match of.rows {
        Some(Counted::Objects(kind)) => kind,
        _ => panic!(rt; "no kind"),
    }
}

/// The account of a number.
pub(crate) fn account(rt: &impl Abort, number: u64) -> u16 {
    u16::try_from(number).ok().expect(rt, "an account")
}
