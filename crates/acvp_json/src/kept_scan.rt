//! Whether a text keeps answers, told byte by byte, so that none are built.
ghost use Rattle.std.specs.Prelude.{◌≡◌, is_some, true};
ghost use Rattle.acvp_json.specs.KeptAnswers.{kept_answers};
ghost use Rattle.acvp_json.specs.Private.Scan.{accepts, either, escape, expected, first_digit, in_number, inside};
ghost use Rattle.acvp_json.specs.Private.Scan.{is_digit, is_end, is_letter, is_low, low, more, next};

use crate::kept_answers::is_above;

/// What of the text was read last. Beside it stands the number of the answer that it is of, or behind.
#[derive(Clone, Copy)]
pub(crate) enum Place {
    /// Nothing.
    Begin,

    /// The bracket that opens the answers.
    Opened,

    /// The comma behind an answer.
    NextAnswer(u64),

    /// The bracket that opens an answer.
    Number(Option<u64>),

    /// Digits of an answer's number, with their value, after that of the answer before.
    Digits(Option<u64>, u64),

    /// The comma behind the number.
    Texts(u64),

    /// The bracket that opens the texts.
    TextsOpened(u64),

    /// The comma behind a text.
    NextText(u64),

    /// The quote that opens a text, or a part of the text.
    Inside(u64),

    /// A backslash.
    Escape(u64),

    /// A backslash and `u`, with no zero, one and two behind it.
    Unicode(u64),
    Zero(u64),
    High(u64),

    /// The third digit behind them, whether it is 1 or 0.
    Low(u64, bool),

    /// The quote that closes a text.
    AfterText(u64),

    /// The bracket that closes the texts.
    AfterTexts(u64),

    /// The bracket that closes an answer.
    AfterAnswer(u64),

    /// The bracket that closes the answers.
    End,
}

/// The place behind a byte that has to be this one.
fn expected(byte: u8, wanted: u8, place: Place) -> Option<Place>
    ensures { result ≡ expected byte wanted place }
{
    if byte == wanted { Some(place) } else { None }
}

/// The place behind a byte that has to be one of two.
fn either(byte: u8, one: u8, first: Place, other: u8, second: Place) -> Option<Place>
    ensures { result ≡ either byte one first other second }
{
    if byte == one {
        Some(first)
    } else {
        expected(byte, other, second)
    }
}

/// Whether a byte is a digit.
fn is_digit(byte: u8) -> bool
    ensures { result ≡ is_digit byte }
{
    b'0' <= byte && byte <= b'9'
}

/// Behind the first digit of an answer's number.
fn first_digit(last: Option<u64>, byte: u8) -> Option<Place>
    ensures { result ≡ first_digit last byte }
{
    if is_digit(byte) {
        Some(Place::Digits(last, u64::from(byte - b'0')))
    } else {
        None
    }
}

/// Behind one more digit. None follows a zero that leads, and the number has 64 bits.
fn more(last: Option<u64>, number: u64, byte: u8) -> Option<Place>
    requires { is_digit byte ≡ true }
    ensures { result ≡ more last number byte }
{
    if number == 0 {
        return None;
    }
    let longer = number.checked_mul(10)?.checked_add(u64::from(byte - b'0'))?;
    Some(Place::Digits(last, longer))
}

/// Behind a digit of a number, or the comma that ends it.
fn in_number(last: Option<u64>, number: u64, byte: u8) -> Option<Place>
    ensures { result ≡ in_number last number byte }
{
    if is_digit(byte) {
        more(last, number, byte)
    } else if byte == b',' && is_above(last, number) {
        Some(Place::Texts(number))
    } else {
        None
    }
}

/// Behind a byte of a text, or the quote that ends it.
fn inside(number: u64, byte: u8) -> Option<Place>
    ensures { result ≡ inside number byte }
{
    if byte == b'"' {
        Some(Place::AfterText(number))
    } else if byte == b'\\' {
        Some(Place::Escape(number))
    } else if byte < b' ' {
        None
    } else {
        Some(Place::Inside(number))
    }
}

/// Whether a byte is the letter of a short escape that is written.
fn is_letter(byte: u8) -> bool
    ensures { result ≡ is_letter byte }
{
    byte == b'"'
        || byte == b'\\'
        || byte == b'b'
        || byte == b'f'
        || byte == b'n'
        || byte == b'r'
        || byte == b't'
}

/// Behind the byte after a backslash.
fn escape(number: u64, byte: u8) -> Option<Place>
    ensures { result ≡ escape number byte }
{
    if byte == b'u' {
        Some(Place::Unicode(number))
    } else if is_letter(byte) {
        Some(Place::Inside(number))
    } else {
        None
    }
}

/// Whether a byte is the last digit of a control character that has no short escape.
fn is_low(is_second: bool, byte: u8) -> bool
    ensures { result ≡ is_low is_second byte }
{
    if is_second {
        is_digit(byte) || (b'a' <= byte && byte <= b'f')
    } else {
        (b'0' <= byte && byte <= b'7') || byte == b'b' || byte == b'e' || byte == b'f'
    }
}

/// Behind that digit.
fn low(number: u64, is_second: bool, byte: u8) -> Option<Place>
    ensures { result ≡ low number is_second byte }
{
    if is_low(is_second, byte) {
        Some(Place::Inside(number))
    } else {
        None
    }
}

/// The place behind a byte, where it may stand.
fn next(place: Place, byte: u8) -> Option<Place>
    ensures { result ≡ next place byte }
{
    match place {
        Place::Begin => expected(byte, b'[', Place::Opened),
        Place::Opened => either(byte, b'[', Place::Number(None), b']', Place::End),
        Place::NextAnswer(n) => expected(byte, b'[', Place::Number(Some(n))),
        Place::Number(last) => first_digit(last, byte),
        Place::Digits(last, n) => in_number(last, n, byte),
        Place::Texts(n) => expected(byte, b'[', Place::TextsOpened(n)),
        Place::TextsOpened(n) => either(byte, b'"', Place::Inside(n), b']', Place::AfterTexts(n)),
        Place::NextText(n) => expected(byte, b'"', Place::Inside(n)),
        Place::Inside(n) => inside(n, byte),
        Place::Escape(n) => escape(n, byte),
        Place::Unicode(n) => expected(byte, b'0', Place::Zero(n)),
        Place::Zero(n) => expected(byte, b'0', Place::High(n)),
        Place::High(n) => either(byte, b'0', Place::Low(n, false), b'1', Place::Low(n, true)),
        Place::Low(n, is_second) => low(n, is_second, byte),
        Place::AfterText(n) => either(byte, b',', Place::NextText(n), b']', Place::AfterTexts(n)),
        Place::AfterTexts(n) => expected(byte, b']', Place::AfterAnswer(n)),
        Place::AfterAnswer(n) => either(byte, b',', Place::NextAnswer(n), b']', Place::End),
        Place::End => None,
    }
}

/// Whether the text may end here.
fn is_end(place: Place) -> bool
    ensures { result ≡ is_end place }
{
    matches!(place, Place::End)
}

/// Whether bytes are the text of answers.
fn scan(bytes: &[u8]) -> bool
    ensures { result ≡ accepts Place.Begin bytes.now }
{
    let mut place = Place::Begin;
    for byte in bytes {
        match next(place, *byte) {
            Some(behind) => place = behind,
            None => return false,
        }
    }
    is_end(place)
}

/// Whether `answers_from_text` would read answers from the text. It builds none, takes no memory, and reads each byte
/// once.
#[tactic(auto, using(crate::proofs::ExactLemmas::exact))]
pub fn are_kept_answers(text: &str) -> bool
    ensures kept { result ≡ is_some (kept_answers text.now) }
{
    scan(text.as_bytes())
}
