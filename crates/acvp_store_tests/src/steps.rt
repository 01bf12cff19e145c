//! Steps over any form of the tables, as lines of text: a change with what came of it, as `adds 7: made`, or a read
//! with the words that it tells, as `counters 7000001: 2 0`. Where a row must be there, whatever it says, the word is
//! `found`. `changes.rt` and `reads.rt` say what the steps are.
//!
//! Steps are text since a check takes long over each assertion beside tables, and no time over a text.

use crate::changes::change;
use crate::reads::{read_named, tells};
use crate::words::{cut, of_words};
use acvp_tables::Tables;
use std::alloc::Global;
use std::process::Abort;

/// Takes a step, and writes what it tells: the words of a read, or the word for what came of a change or for a fault.
fn take<T: Tables>(rt: &impl Abort, alloc: Global, text: &mut String, tables: &mut T, step: &str) {
    let (name, words) = cut(step);
    let of = of_words(rt, words);
    match read_named(name) {
        Some(read) => tells(rt, text, tables, read, of),
        None => change(rt, alloc, text, tables, (name, of)),
    }
}

/// What is told where there is no row.
const NO_ROW: &[&str] = &["", " none", " refused", " out of memory"];

/// Whether a row is told.
fn is_row(text: &str) -> bool {
    for told in NO_ROW {
        if *told == text {
            return false;
        }
    }
    true
}

/// Whether what is told are the wanted words.
fn is_wanted(text: &str, wanted: &str) -> bool {
    if wanted == " found" {
        is_row(text)
    } else {
        text == wanted
    }
}

/// Asserts that what a step tells are the wanted words.
pub(crate) fn is_told(rt: &impl Abort, step: &str, text: &str, wanted: &str) {
    assert!(rt; is_wanted(text, wanted), "{step}:{text}");
}

/// Takes a step, which comes to these words.
fn comes_to<T: Tables>(rt: &impl Abort, alloc: Global, tables: &mut T, step: &str, wanted: &str) {
    let mut text = String::new(alloc);
    take(rt, alloc, &mut text, tables, step);
    is_told(rt, step, &text, wanted);
}

/// Takes the step of each line, which comes to what the line says.
pub(crate) fn takes<T: Tables>(rt: &impl Abort, alloc: Global, tables: &mut T, lines: &str) {
    for line in lines.lines() {
        let (step, wanted) = line.split_once(':').expect(rt, "a step and its words");
        comes_to(rt, alloc, tables, step, wanted);
    }
}

/// Takes steps, and then further ones.
pub(crate) fn takes_both<T: Tables>(
    rt: &impl Abort,
    alloc: Global,
    tables: &mut T,
    steps: &str,
    further: &str,
) {
    takes(rt, alloc, tables, steps);
    takes(rt, alloc, tables, further);
}
