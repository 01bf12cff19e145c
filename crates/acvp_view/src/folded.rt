//! Lines that fit a terminal of 80 columns.
ghost use Rattle.std.specs.Prelude.{◌≡◌, ◌≤◌, ◌++◌, IfOk, true, string_bytes};
ghost use Rattle.acvp_view.specs.Folded.{column_behind, fits, folded, is_beyond, placed};

use std::alloc::{AllocError, Global};

/// How many bytes a line has at most.
pub(crate) const WIDTH: usize = 80;

/// How a line begins that goes on, and how many bytes of it stand in the line.
const FURTHER_LINE: &str = "\n        ";

const INDENTATION: usize = 8;

/// Whether a character has no room in its line, behind so many bytes of it.
fn is_beyond(column: usize, c: char) -> bool
    requires { column ≤ 80 }
    ensures { result ≡ is_beyond column c }
{
    c != '\n' && column + c.len_utf8() > WIDTH
}

/// How many bytes a line has with a character, behind so many bytes of it.
fn column_behind(column: usize, c: char) -> usize
    requires { column ≤ 80 }
    ensures value { result ≡ column_behind column c }
    ensures few { result ≤ 80 }
{
    if c == '\n' {
        0
    } else if is_beyond(column, c) {
        INDENTATION + c.len_utf8()
    } else {
        column + c.len_utf8()
    }
}

/// Adds a character behind so many bytes of its line, in a further line if it has no room in this one.
fn push_placed(shown: &mut String, column: usize, c: char) -> Result<(), AllocError>
    requires { column ≤ 80 }
    ensures { IfOk result (λ _. string_bytes shown.new ≡ string_bytes shown.old ++ placed column c) }
{
    if is_beyond(column, c) {
        shown.push_str(FURTHER_LINE)?;
    }
    shown.push(c)
}

/// A text in lines that fit.
#[tactic(auto, unfolding(crate::specs::Folded::folded))]
pub(crate) fn folded(alloc: Global, text: &str) -> Result<String, AllocError>
    ensures value { IfOk result (λ shown. string_bytes shown ≡ folded text.now) }
    ensures narrow { IfOk result (λ shown. fits (string_bytes shown) ≡ true) }
{
    let mut shown = String::new(alloc);
    let mut column = 0;
    for c in text.chars() {
        push_placed(&mut shown, column, c)?;
        column = column_behind(column, c);
    }
    Ok(shown)
}
