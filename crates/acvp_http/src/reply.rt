//! The reply to a request: its head and its body.
ghost use Rattle.std.specs.Prelude.{◌≡◌, ◌≤◌, ◌<◌, ◌++◌, ◌+◌, ◌↔◌, ℕ, List, [], IsTrue, codes, length, drop, decimal};
ghost use Rattle.std.specs.Prelude.{Some, None, option_copied, unwrap_or};
ghost use Rattle.acvp_policy.specs.Rule.{rule_status};
ghost use Rattle.acvp_desk.specs.Answer.{spare};
ghost use Rattle.acvp_desk.specs.Errors.{error_body};
ghost use Rattle.acvp_http.specs.Paths.{allowed_on};
ghost use Rattle.acvp_http.specs.Reply.{phrase_of, line, date_line, rule_line, head_text, framed, date_shown, refusal};
ghost use Rattle.acvp_http.specs.Reply.{method_refusal};

use crate::path::Path;
use crate::text::ShortText;
use acvp_desk::{SPARE_BYTES, errors_are_named};
use acvp_policy::Rule;
use http::StatusCode;
use std::marker::Model;

/// The phrase of a status code (RFC 9110, section 15).
fn phrase(status: u16) -> &'static str
    requires { (100 ≤ status) × (status < 1000) }
    ensures { result.now ≡ phrase_of status }
{
    match StatusCode::from_u16(status) {
        Ok(status) => status.canonical_reason().unwrap_or(""),
        Err(_) => "",
    }
}

/// The first line, with its end.
fn status_line(status: u16) -> ShortText
    requires code { (100 ≤ status) × (status < 1000) }
    requires short { length (phrase_of status) ≤ 31 }
    ensures value { result ≡ line (codes "HTTP/1.1 " ++ decimal status ++ codes " " ++ phrase_of status) }
    ensures len { length result ≤ 63 }
{
    let mut text = ShortText::new();
    text.push(b"HTTP/1.1 ");
    text.push_number(u64::from(status));
    text.push(b" ");
    text.push(phrase(status).as_bytes());
    text.push(b"\r\n");
    text
}

/// The `Date` line, where there is a date.
fn push_date(text: &mut ShortText, date: Option<&[u8; 29]>)
    requires { length text.old ≤ 80 }
    ensures bytes { text.new ≡ text.old ++ date_line (option_copied date.entry) }
    ensures len { length text.new ≤ length text.old + 37 }
{
    if let Some(date) = date {
        text.push(b"Date: ");
        text.push(date);
        text.push(b"\r\n");
    }
}

/// The head of a reply whose body has this length.
fn head(status: u16, date: Option<&[u8; 29]>, extra_fields: &[u8], body_length: u64) -> ShortText
    requires code { (100 ≤ status) × (status < 1000) }
    requires short { length (phrase_of status) ≤ 31 }
    requires extra_fields { length extra_fields.now ≤ 64 }
    ensures value { result ≡ head_text status (option_copied date.entry) extra_fields.now body_length }
    ensures len { length result ≤ 256 }
{
    let mut text = status_line(status);
    push_date(&mut text, date);
    text.push(b"Content-Type: application/json\r\nContent-Length: ");
    text.push_number(body_length);
    text.push(b"\r\nConnection: close\r\n");
    text.push(extra_fields);
    text.push(b"\r\n");
    text
}

/// The field of a reply with status 401.
const AUTHENTICATE: &[u8] = b"WWW-Authenticate: Bearer\r\n";

/// The fields that a refusal has beside those of every reply.
fn extra_fields(rule: Rule) -> &'static [u8]
    ensures value { result.now ≡ rule_line rule }
    ensures len { length result.now ≤ 64 }
{
    match rule {
        Rule::TokenMissing | Rule::TokenMalformed | Rule::TokenSignature => AUTHENTICATE,
        Rule::TokenClaims | Rule::TokenExpired => AUTHENTICATE,
        _ => b"",
    }
}

/// The `Allow` line of a path.
fn allow_line(path: Path) -> ShortText
    ensures value { result ≡ line (codes "Allow: " ++ allowed_on path) }
    ensures len { length result ≤ 64 }
{
    let mut text = ShortText::new();
    text.push(b"Allow: ");
    text.push(path.allowed().as_slice());
    text.push(b"\r\n");
    text
}

/// The date that a refusal shows.
fn date_shown(date: Option<&[u8; 29]>, rule: Rule) -> Option<&[u8; 29]>
    ensures { option_copied result ≡ date_shown (option_copied date.entry) rule }
{
    match rule {
        Rule::ClockOutOfRange | Rule::Unavailable => None,
        _ => date,
    }
}

/// The body of a refusal.
fn error_body(rule: Rule) -> ShortText
    ensures value { result ≡ error_body rule }
    ensures len { length result ≤ 64 }
{
    errors_are_named();
    let mut body = ShortText::new();
    body.push(b"[{\"acvVersion\":\"1.0\"},{\"error\":\"");
    body.push(rule.word().as_bytes());
    body.push(b"\"}]");
    body
}

#[derive(Drop)]
enum Bytes {
    Short(ShortText),

    /// The bytes of a buffer from this place on.
    Long { buffer: Vec<u8>, start: usize },
}

/// The bytes of a reply.
#[derive(Drop)]
pub struct Reply {
    bytes: Bytes,
}

impl Model for Reply {
    ghost use Rattle.std.specs.Prelude.{List, ℕ};
    ghost use Rattle.acvp_http.specs.Private.ReplyBytes.{bytes_of, IsCut};

    ghost Value = { List ℕ };

    ghost view = { λ r. bytes_of r.bytes };

    ghost invariant = { λ r. IsCut r.bytes };
}

/// The reply that names a rule, with this date and these fields.
#[tactic(auto, unfolding(crate::specs::Reply::framed))]
fn refusal_text(date: Option<&[u8; 29]>, rule: Rule, fields: &[u8]) -> ShortText
    requires { length fields.now ≤ 64 }
    ensures { result ≡ framed (rule_status rule) (option_copied date.entry) fields.now (error_body rule) }
{
    let body = error_body(rule);
    let mut text = head(rule.status(), date, fields, body.len() as u64);
    text.push(body.as_slice());
    text
}

impl Reply {
    /// The reply that names a rule. It takes no memory.
    pub(crate) fn refusal(date: Option<&[u8; 29]>, rule: Rule) -> Reply
        ensures { result ≡ refusal (option_copied date.entry) rule }
    {
        Reply {
            bytes: Bytes::Short(refusal_text(date_shown(date, rule), rule, extra_fields(rule))),
        }
    }

    /// The reply to a method that a path hasn't. It takes no memory.
    pub(crate) fn wrong_method(date: &[u8; 29], path: Path) -> Reply
        ensures { result ≡ method_refusal date.now path }
    {
        let fields = allow_line(path);
        Reply {
            bytes: Bytes::Short(refusal_text(Some(date), Rule::NoMethod, fields.as_slice())),
        }
    }

    /// The reply of status 200 with the body that stands behind the spare bytes. It takes no memory.
    #[tactic(auto, unfolding(crate::specs::Reply::framed))]
    pub(crate) fn accepted(date: &[u8; 29], buffer: Vec<u8>) -> Reply
        requires { spare ≤ length buffer.items }
        ensures { result ≡ framed 200 (Some date.now) [] (drop spare buffer.items) }
    {
        let mut buffer = buffer;
        let size = buffer.len() - SPARE_BYTES;
        let head = head(200, Some(date), b"", size as u64);
        let start = SPARE_BYTES - head.len();
        buffer[start..SPARE_BYTES].copy_from_slice(head.as_slice());
        Reply {
            bytes: Bytes::Long { buffer, start },
        }
    }

    /// Whether this is the reply of a server that is unavailable. It takes no memory.
    pub fn is_unavailable(&self) -> bool
        ensures { IsTrue result ↔ (self.now ≡ refusal None Rule.Unavailable) }
    {
        self.bytes() == Reply::refusal(None, Rule::Unavailable).bytes()
    }

    /// All the bytes, from the status line to the end of the body.
    pub fn bytes(&self) -> &[u8]
        ensures { result.now ≡ self.now }
    {
        match &self.bytes {
            Bytes::Short(text) => text.as_slice(),
            Bytes::Long { buffer, start } => &buffer[*start..],
        }
    }
}
