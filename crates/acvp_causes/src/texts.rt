//! What is wrong with the text of a secret or of keys that isn't of its form. Of the text itself nothing is told but
//! numbers of lines and of bytes.
ghost use Rattle.std.specs.Prelude.{◌≡◌, ◌≢◌, IfSome, None};
ghost use Rattle.std.specs.List.{list_all};
ghost use Rattle.std.specs.Char.{is_ascii_hexdigit};
ghost use Rattle.acvp_causes.specs.Texts.{digits_fault, ends_fault, is_ended, line_count};
ghost use Rattle.acvp_causes.specs.declared.texts.TextFault.TheVariants.{Lines};

use std::fmt;

/// How many hex digits a line has.
const DIGITS: usize = 64;

/// The most lines of keys, and of seeds.
const MOST_LINES: usize = 16;

/// No text of keys or of a secret has as many bytes.
pub(crate) const MOST_TEXT: usize = 4096;

/// What is wrong with a text.
#[derive(Clone, Copy, Debug, PartialEq, Eq)]
pub enum TextFault {
    /// It has zero bytes, as no text of these has.
    Zeros,

    /// It has more bytes than any text of keys.
    Long,

    /// It has carriage returns.
    CarriageReturn,

    /// Its last line has no end.
    NoLastFeed,

    /// It has so many lines, and is to have so many.
    Lines(usize, usize),

    /// This line has so many bytes where the digits stand.
    Digits(usize, usize),

    /// This line has something else than hex digits.
    NotHex(usize),

    /// This line begins with no word of a keys file.
    Word(usize),

    /// This line is of a key, behind one of a seed.
    Order(usize),

    /// It has no line of a key, or of a seed, or too many.
    Count(usize, usize),

    /// Its last key is retired.
    Retired,
}

impl fmt::Display for TextFault {
    fn fmt<W: fmt::Write>(&self, f: &mut fmt::Formatter<W>) -> fmt::Result {
        match *self {
            TextFault::Zeros => {
                f.write_str("it has zero bytes, as a database or a text in UTF-16 has")
            }
            TextFault::Long => write!(f, "it has more than {MOST_TEXT} bytes"),
            TextFault::CarriageReturn => {
                f.write_str(
                    "it has carriage returns (CR LF), where a line ends with a line feed alone",
                )
            }
            TextFault::NoLastFeed => f.write_str("its last line ends without a line feed"),
            TextFault::Lines(count, wanted) => write!(
                f,
                "it has {count} lines, and is to have {wanted}"
            ),
            TextFault::Digits(line, count) => {
                write!(f, "line {line} has {count} digits, and is to have {DIGITS}")
            }
            TextFault::NotHex(line) => write!(f, "line {line} has something else than hex digits"),
            TextFault::Word(line) => write!(f, "line {line} begins with neither token nor seed"),
            TextFault::Order(line) => write!(f, "line {line} is a key behind a seed"),
            TextFault::Count(keys, seeds) => write!(
                f,
                "it has {keys} lines of keys and {seeds} of seeds, and is to have 1 to {MOST_LINES} of each"
            ),
            TextFault::Retired => f.write_str("its last key is retired"),
        }
    }
}

/// Whether all bytes are hex digits.
fn are_hex(digits: &[u8]) -> bool
    ensures { result ≡ list_all is_ascii_hexdigit digits.now }
{
    digits.iter().all(|digit| digit.is_ascii_hexdigit())
}

/// What is wrong with the digits of a line.
fn digits_fault(number: usize, digits: &[u8]) -> Option<TextFault>
    ensures { result ≡ digits_fault number digits.now }
{
    if digits.len() != DIGITS {
        Some(TextFault::Digits(number, digits.len()))
    } else if are_hex(digits) {
        None
    } else {
        Some(TextFault::NotHex(number))
    }
}

/// Whether the last line of a text has its end.
fn is_ended(text: &[u8]) -> bool
    ensures { result ≡ is_ended text.now }
{
    text.is_empty() || text.ends_with(b"\n")
}

/// What is wrong with the ends of a text's lines.
fn ends_fault(text: &[u8]) -> Option<TextFault>
    ensures { result ≡ ends_fault text.now }
{
    if text.contains(&0) {
        Some(TextFault::Zeros)
    } else if text.len() > MOST_TEXT {
        Some(TextFault::Long)
    } else if text.contains(&b'\r') {
        Some(TextFault::CarriageReturn)
    } else if is_ended(text) {
        None
    } else {
        Some(TextFault::NoLastFeed)
    }
}

/// How many lines a text has.
fn line_count(text: &[u8]) -> usize
    ensures { result ≡ line_count text.now }
{
    text.iter().filter(|byte| **byte == b'\n').count()
}

/// What is wrong with the first line of a text that has one that is wrong.
fn first_fault(text: &[u8], most: usize) -> Option<TextFault> {
    let mut number: usize = 0;
    for line in text.split(|byte| *byte == b'\n') {
        number = number.saturating_add(1);
        if number > most {
            return None;
        }
        if let Some(fault) = digits_fault(number, line) {
            return Some(fault);
        }
    }
    None
}

/// What is wrong with a text of so many lines of digits.
fn plain_fault(text: &[u8], wanted: usize) -> TextFault
    ensures ends { IfSome (ends_fault text.now) (λ fault. result ≡ fault) }
    ensures lines { ends_fault text.now ≡ None → line_count text.now ≢ wanted
        → result ≡ Lines (line_count text.now) wanted }
{
    if let Some(fault) = ends_fault(text) {
        return fault;
    }
    let count = line_count(text);
    if count == wanted
        && let Some(fault) = first_fault(text, wanted)
    {
        return fault;
    }
    TextFault::Lines(count, wanted)
}

/// What is wrong with the text of a secret.
pub fn secret_fault(text: &[u8]) -> TextFault
    ensures ends { IfSome (ends_fault text.now) (λ fault. result ≡ fault) }
    ensures lines { ends_fault text.now ≡ None → line_count text.now ≢ 1 → result ≡ Lines (line_count text.now) 1 }
{
    plain_fault(text, 1)
}

/// The lines of keys and of seeds before one.
#[derive(Clone, Copy)]
struct Counted {
    lines: usize,
    keys: usize,
    seeds: usize,
    is_retired: bool,
}

impl Counted {
    /// Counts a line, or says what is wrong with it.
    fn count(&mut self, line: &[u8]) -> Option<TextFault> {
        self.lines = self.lines.saturating_add(1);
        if let Some(digits) = line.strip_prefix(b"token ") {
            self.keys = self.keys.saturating_add(1);
            self.is_retired = digits == b"-".as_slice();
            if self.seeds > 0 {
                return Some(TextFault::Order(self.lines));
            }
            if self.is_retired {
                return None;
            }
            return digits_fault(self.lines, digits);
        }
        let Some(digits) = line.strip_prefix(b"seed ") else {
            return Some(TextFault::Word(self.lines));
        };
        self.seeds = self.seeds.saturating_add(1);
        digits_fault(self.lines, digits)
    }
}

/// What is wrong with a text of lines that begin with words.
fn worded_fault(text: &[u8]) -> TextFault
    ensures ends { IfSome (ends_fault text.now) (λ fault. result ≡ fault) }
{
    if let Some(fault) = ends_fault(text) {
        return fault;
    }
    let mut counted = Counted {
        lines: 0,
        keys: 0,
        seeds: 0,
        is_retired: false,
    };
    let whole = text.strip_suffix(b"\n").unwrap_or(text);
    for line in whole.split(|byte| *byte == b'\n') {
        if let Some(fault) = counted.count(line) {
            return fault;
        }
    }
    let Counted {
        keys,
        seeds,
        is_retired,
        ..
    } = counted;
    if is_retired && keys <= MOST_LINES && seeds > 0 && seeds <= MOST_LINES {
        TextFault::Retired
    } else {
        TextFault::Count(keys, seeds)
    }
}

/// What is wrong with the text of a keys file.
pub fn keys_fault(text: &[u8]) -> TextFault
    ensures ends { IfSome (ends_fault text.now) (λ fault. result ≡ fault) }
{
    if text.starts_with(b"token") || text.starts_with(b"seed") {
        worded_fault(text)
    } else {
        plain_fault(text, 2)
    }
}
