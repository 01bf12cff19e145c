//! How a text that a client wrote is shown. Some characters act on the terminal that shows them, change in which order
//! it shows others, or aren't seen, so they are escaped as JSON does it (RFC 8259, section 7).
ghost use Rattle.std.specs.Prelude.{◌≡◌, ◌++◌, ◌∷◌, [], ◌||◌, IfOk, OnOk, string_bytes};
ghost use Rattle.acvp_view.specs.Escaped.{HandsOnShown, TakesShown, escape_of, escape_of_unit, escaped, is_acting};
ghost use Rattle.acvp_view.specs.Escaped.{is_escaped, shown_char, shown_in};
ghost use Rattle.acvp_view.specs.Lines.{HandsOn};

use crate::fault::ViewFault;
use crate::folded::folded;
use crate::form::Form;
use crate::lines::Lines;
use std::alloc::{AllocError, Global};
use ucd_category::GeneralCategory;
use ucd_derived::is_default_ignorable_code_point;

/// Whether a character controls or formats, or separates lines or paragraphs, by its general category.
fn is_acting(c: char) -> bool
    ensures { result ≡ is_acting c }
{
    matches!(
        GeneralCategory::for_char(c),
        GeneralCategory::Control
            | GeneralCategory::Format
            | GeneralCategory::LineSeparator
            | GeneralCategory::ParagraphSeparator
    )
}

/// Whether a character is escaped.
fn is_escaped(c: char) -> bool
    ensures { result ≡ is_escaped c }
{
    is_acting(c) || is_default_ignorable_code_point(c)
}

/// Adds the escape of one unit of UTF-16.
fn push_unit(alloc: Global, shown: &mut String, unit: u16) -> Result<(), AllocError>
    ensures { OnOk result (string_bytes shown.new ≡ string_bytes shown.old ++ escape_of_unit unit) }
{
    let digits = hex::encode(alloc, unit.to_be_bytes().as_slice())?;
    let escape = format!(in alloc; "\\u{digits}")?;
    shown.push_str(&escape)
}

/// Adds the escape of a character: that of its unit, or of the two.
fn push_escape(alloc: Global, shown: &mut String, c: char) -> Result<(), AllocError>
    ensures { OnOk result (string_bytes shown.new ≡ string_bytes shown.old ++ escape_of c) }
{
    let mut room = [0; 2];
    for unit in c.encode_utf16(&mut room).iter() {
        push_unit(alloc, shown, *unit)?;
    }
    Ok(())
}

/// Adds a character as it is shown.
fn push_shown(alloc: Global, shown: &mut String, c: char) -> Result<(), AllocError>
    ensures { OnOk result (string_bytes shown.new ≡ string_bytes shown.old ++ shown_char c) }
{
    if is_escaped(c) {
        push_escape(alloc, shown, c)
    } else {
        shown.push(c)
    }
}

/// A text, as it is shown. A JSON text stays the same value: these characters stand only within its strings.
#[tactic(auto, unfolding(crate::specs::Escaped::escaped))]
pub(crate) fn escaped(alloc: Global, text: &str) -> Result<String, AllocError>
    ensures { IfOk result (λ shown. string_bytes shown ≡ escaped text.now) }
{
    let mut shown = String::new(alloc);
    for c in text.chars() {
        push_shown(alloc, &mut shown, c)?;
    }
    Ok(shown)
}

/// A text, as it is shown in a form.
fn shown_in(alloc: Global, form: Form, text: &str) -> Result<String, AllocError>
    ensures { IfOk result (λ shown. string_bytes shown ≡ shown_in form text.now) }
{
    let shown = escaped(alloc, text)?;
    match form {
        Form::Words => folded(alloc, shown.as_str()),
        Form::Json => Ok(shown),
    }
}

/// Hands on a text, as it is shown in a form.
pub(crate) fn show_text<L: Lines>(
    alloc: Global,
    lines: &mut L,
    form: Form,
    text: &str,
) -> Result<(), ViewFault>
    ensures handed { HandsOn L.takes result (shown_in form text.now ∷ []) lines.old lines.new }
    ensures taken { OnOk result (TakesShown form L.takes (text.now ∷ []) lines.old lines.new) }
    ensures shown { HandsOnShown form L.takes lines.old lines.new }
{
    let line = shown_in(alloc, form, text)?;
    lines.take(line.as_str())
}
