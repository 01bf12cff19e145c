//! The framing of a request: which fields say where its body ends (RFC 9112, section 6).
ghost use Rattle.std.specs.Prelude.{◌≡◌, ◌≤◌, ◌<◌, ◌∷◌, ◌++◌, [], All, length, map, take, drop, true, false, not};
ghost use Rattle.std.specs.Prelude.{◌||◌, Some, None, codes, nat_le, if◌then◌else◌};
ghost use Rattle.std.specs.List.{list_all};
ghost use Rattle.std.specs.Str.{str_eq_ignore_ascii_case};
ghost use Rattle.httparse.specs.Spans.{span_bytes, header_bytes, IsWithin, IsHeaderWithin};
ghost use Rattle.acvp_http.specs.Asks.{values_of, same_number, lengths_agree, needs_length, hosts_fit};
ghost use Rattle.acvp_http.specs.Asks.{body_length, is_nil, framing_conditions, body_limit, body_size};
ghost use Rattle.acvp_desk.specs.Conditions.{judged};
ghost use Rattle.acvp_desk.specs.Number.{digits_number_of};

use acvp_desk::digits_number;
use acvp_policy::Rule;
use httparse::spans::{HeaderSpan, Span};
use std::marker::Model;

/// Whether a field's name is this one, ASCII case aside.
fn is_named(name: &[u8], wanted: &[u8]) -> bool
    ensures { result ≡ str_eq_ignore_ascii_case name.now wanted.now }
{
    name.eq_ignore_ascii_case(wanted)
}

/// Where the values of one field are, at most 64.
#[derive(Drop)]
pub(crate) struct FieldValues {
    spans: [Span; 64],
    count: usize,
}

impl Model for FieldValues {
    ghost use Rattle.std.specs.Prelude.{List, take, ◌≤◌};
    ghost use Rattle.httparse.specs.declared.spans.Span.{Span};

    ghost Value = { List Span };

    ghost view = { λ v. take v.count v.spans };

    ghost invariant = { λ v. v.count ≤ 64 };
}

impl FieldValues {
    fn new() -> FieldValues
        ensures { result ≡ [] }
    {
        FieldValues {
            spans: [Span::default(); 64],
            count: 0,
        }
    }

    /// Takes the span in, where it is wanted.
    fn push_if(&mut self, is_wanted: bool, span: Span)
        requires { length self.old < 64 }
        ensures { self.new ≡ (if is_wanted then self.old ++ span ∷ [] else self.old) }
    {
        if is_wanted {
            self.spans[self.count] = span;
            self.count += 1;
        }
    }

    fn len(&self) -> usize
        ensures { result ≡ length self.now }
    {
        self.as_slice().len()
    }

    fn is_empty(&self) -> bool
        ensures { result ≡ is_nil self.now }
    {
        self.as_slice().is_empty()
    }

    pub fn as_slice(&self) -> &[Span]
        ensures { result.now ≡ self.now }
    {
        &self.spans[..self.count]
    }
}

/// The values of the fields of this name.
pub(crate) fn field_values_of(block: &[u8], headers: &[HeaderSpan], name: &[u8]) -> FieldValues
    requires within { All (IsHeaderWithin (length block.now)) headers.now }
    requires few { length headers.now ≤ 64 }
    ensures value { map (span_bytes block.now) result ≡ values_of name.now (map (header_bytes block.now) headers.now) }
    ensures within { All (IsWithin (length block.now)) result }
    ensures few { length result ≤ length headers.now }
{
    let mut found = FieldValues::new();
    for header in headers {
        found.push_if(is_named(header.name.of(block), name), header.value);
    }
    found
}

/// Whether each value is this number.
fn all_are(block: &[u8], spans: &[Span], number: u64) -> bool
    requires { All (IsWithin (length block.now)) spans.now }
    ensures { result ≡ list_all (λ value. same_number (digits_number_of value) (Some number))
        (map (span_bytes block.now) spans.now) }
{
    for span in spans {
        match digits_number(span.of(block)) {
            Some(other) if other == number => {}
            _ => return false,
        }
    }
    true
}

/// The body's length, where each value is a number and they agree.
fn agreed_length(block: &[u8], spans: &[Span]) -> Option<u64>
    requires { All (IsWithin (length block.now)) spans.now }
    ensures { result ≡ (if lengths_agree (map (span_bytes block.now) spans.now)
        then Some (body_length (map (span_bytes block.now) spans.now)) else None) }
{
    let Some(first) = spans.first() else {
        return Some(0);
    };
    let number = digits_number(first.of(block))?;
    if all_are(block, spans, number) {
        Some(number)
    } else {
        None
    }
}

/// Whether a method needs a length.
fn needs_length(method: &[u8]) -> bool
    ensures { result ≡ needs_length method.now }
{
    method == b"POST".as_slice() || method == b"PUT".as_slice()
}

/// Whether a length is there, or the method needs none.
fn is_told(method: &[u8], lengths: &FieldValues) -> bool
    ensures { result ≡ (not (needs_length method.now) || not (is_nil lengths.now)) }
{
    !needs_length(method) || !lengths.is_empty()
}

/// Whether a version may have so many Host fields.
fn hosts_fit(minor: u8, hosts: usize) -> bool
    ensures { result ≡ hosts_fit minor hosts }
{
    if minor == 0 { hosts <= 1 } else { hosts == 1 }
}

fn check(holds: bool, rule: Rule) -> Result<(), Rule>
    ensures { result ≡ judged ((holds, rule) ∷ []) tt }
{
    if holds { Ok(()) } else { Err(rule) }
}

/// The most bytes that a body may have.
pub const BODY_BYTES: u64 = 2097152;

/// How long the body is that a head tells, or the rule that its framing breaks.
pub(crate) fn body_size(
    block: &[u8],
    method: &[u8],
    minor: u8,
    headers: &[HeaderSpan],
) -> Result<usize, Rule>
    requires within { All (IsHeaderWithin (length block.now)) headers.now }
    requires few { length headers.now ≤ 64 }
    ensures { result ≡ body_size method.now minor (map (header_bytes block.now) headers.now) }
{
    let codings = field_values_of(block, headers, b"transfer-encoding");
    check(codings.is_empty(), Rule::TransferCoding)?;
    told_size(block, method, minor, headers)
}

/// The same where there is no transfer coding.
fn told_size(block: &[u8], method: &[u8], minor: u8, headers: &[HeaderSpan]) -> Result<usize, Rule>
    requires within { All (IsHeaderWithin (length block.now)) headers.now }
    requires few { length headers.now ≤ 64 }
    ensures { let fields = map (header_bytes block.now) headers.now in
        result ≡ judged (drop 1 (framing_conditions method.now minor fields))
        (body_length (values_of (codes "content-length") fields)) }
{
    let lengths = field_values_of(block, headers, b"content-length");
    let hosts = field_values_of(block, headers, b"host");
    check(is_told(method, &lengths), Rule::LengthMissing)?;
    let Some(size) = agreed_length(block, lengths.as_slice()) else {
        return Err(Rule::BadLength);
    };
    fitting_size(size, minor, hosts.len())
}

/// The body's size, where its length was told: it may be so long, and the version may have so many Host fields.
fn fitting_size(size: u64, minor: u8, hosts: usize) -> Result<usize, Rule>
    ensures { result ≡ judged ((nat_le size body_limit, Rule.BodyTooLarge)
        ∷ (hosts_fit minor hosts, Rule.HostMissing)
        ∷ []) size }
{
    check(size <= BODY_BYTES, Rule::BodyTooLarge)?;
    check(hosts_fit(minor, hosts), Rule::HostMissing)?;
    Ok(size as usize)
}
