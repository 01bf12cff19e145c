//! The page of a certification: HTML that stands by itself, with what the document says.
ghost use Rattle.std.specs.Prelude.{◌≡◌, ◌<◌, ◌++◌, IfOk, OnOk, codes, decimal, string_bytes};
ghost use Rattle.hex.specs.Hex.{encode_lower};
ghost use Rattle.acvp_json.specs.Time.{time_of};
ghost use Rattle.acvp_view.specs.Page.{account_row, asked_rows, coded, environment_row, html, html_char, module_row};
ghost use Rattle.acvp_view.specs.Page.{named_rows, page_end, page_head, page_middle, request_row, row, session_place};
ghost use Rattle.acvp_view.specs.Page.{session_row, set_row, vendor_row};

use crate::certificate::{Certificate, CertifiedSet, digits_of, disposition_word};
use crate::escape::escaped;
use crate::listed::joined;
use acvp_json::time_text;
use std::alloc::{AllocError, Global};

/// Adds a character as HTML has it.
fn push_html(html: &mut String, c: char) -> Result<(), AllocError>
    ensures { OnOk result (string_bytes html.new ≡ string_bytes html.old ++ html_char c) }
{
    match c {
        '&' => html.push_str("&amp;"),
        '<' => html.push_str("&lt;"),
        '>' => html.push_str("&gt;"),
        _ => html.push(c),
    }
}

/// A text as the text of an element.
#[tactic(auto, unfolding(crate::specs::Page::html))]
fn html(alloc: Global, text: &str) -> Result<String, AllocError>
    ensures { IfOk result (λ html_text. string_bytes html_text ≡ html text.now) }
{
    let mut shown = String::new(alloc);
    for c in text.chars() {
        push_html(&mut shown, c)?;
    }
    Ok(shown)
}

/// A text of HTML as code.
fn in_code(alloc: Global, text: &str) -> Result<String, AllocError>
    ensures { IfOk result (λ whole. string_bytes whole ≡ codes "<code>" ++ text.now ++ codes "</code>") }
{
    format!(in alloc; "<code>{text}</code>")
}

/// A JSON text as code.
fn coded(alloc: Global, json: &str) -> Result<String, AllocError>
    ensures { IfOk result (λ text. string_bytes text ≡ coded json.now) }
{
    let shown = escaped(alloc, json)?;
    let text = html(alloc, &shown)?;
    in_code(alloc, &text)
}

/// A row of the first table.
fn row(alloc: Global, label: &str, text: &str) -> Result<String, AllocError>
    ensures { IfOk result (λ whole. string_bytes whole ≡ row label.now text.now) }
{
    format!(in alloc; "<tr><th>{label}</th><td>{text}</td></tr>\n")
}

/// A row of the first table that shows a JSON text.
fn code_row(alloc: Global, label: &str, json: &str) -> Result<String, AllocError>
    ensures { IfOk result (λ text. string_bytes text ≡ row label.now (coded json.now)) }
{
    let shown = coded(alloc, json)?;
    row(alloc, label, &shown)
}

/// The path of a request.
fn request_path(alloc: Global, number: u64) -> Result<String, AllocError>
    ensures { IfOk result (λ text. string_bytes text ≡ codes "/acvp/v1/requests/" ++ decimal number) }
{
    format!(in alloc; "/acvp/v1/requests/{number}")
}

fn request_row(alloc: Global, it: &Certificate) -> Result<String, AllocError>
    ensures { IfOk result (λ text. string_bytes text ≡ request_row it.now) }
{
    let path = request_path(alloc, it.request)?;
    row(alloc, "Request", &path)
}

/// The digits of an account's number.
fn account_digits(alloc: Global, number: u16) -> Result<String, AllocError>
    ensures { IfOk result (λ text. string_bytes text ≡ decimal number) }
{
    format!(in alloc; "{number}")
}

fn account_row(alloc: Global, it: &Certificate) -> Result<String, AllocError>
    ensures { IfOk result (λ text. string_bytes text ≡ account_row it.now) }
{
    let digits = account_digits(alloc, it.account)?;
    row(alloc, "Account", &digits)
}

/// The path of a test session, and when it was made.
fn session_place(alloc: Global, number: u64, time: &str) -> Result<String, AllocError>
    ensures { IfOk result (λ text. string_bytes text ≡ session_place number time.now) }
{
    format!(in alloc; "/acvp/v1/testSessions/{number} of {time}")
}

fn session_row(alloc: Global, it: &Certificate) -> Result<String, AllocError>
    requires { it.now.created < 253402300800 }
    ensures { IfOk result (λ text. string_bytes text ≡ session_row it.now) }
{
    let time = time_text(alloc, it.created)?;
    let place = session_place(alloc, it.session, &time)?;
    row(alloc, "Test session", &place)
}

/// Three texts as one.
pub(crate) fn three(
    alloc: Global,
    first: &str,
    second: &str,
    third: &str,
) -> Result<String, AllocError>
    ensures { IfOk result (λ text. string_bytes text ≡ first.now ++ second.now ++ third.now) }
{
    format!(in alloc; "{first}{second}{third}")
}

/// Which request of which account, and of which test session.
#[tactic(auto, unfolding(crate::specs::Page::asked_rows))]
fn asked_rows(alloc: Global, it: &Certificate) -> Result<String, AllocError>
    requires { it.now.created < 253402300800 }
    ensures { IfOk result (λ text. string_bytes text ≡ asked_rows it.now) }
{
    let request = request_row(alloc, it)?;
    let account = account_row(alloc, it)?;
    let session = session_row(alloc, it)?;
    three(alloc, &request, &account, &session)
}

/// For whom and of what.
#[tactic(auto, unfolding(crate::specs::Page::named_rows))]
fn named_rows(alloc: Global, it: &Certificate) -> Result<String, AllocError>
    ensures { IfOk result (λ text. string_bytes text ≡ named_rows it.now) }
{
    let vendor = code_row(alloc, "Vendor", &it.vendor)?;
    let module = code_row(alloc, "Module", &it.module)?;
    let environment = code_row(alloc, "Operational environment", &it.environment)?;
    three(alloc, &vendor, &module, &environment)
}

/// The rows of the first table.
pub(crate) fn first_rows(alloc: Global, it: &Certificate) -> Result<String, AllocError>
    requires { it.now.created < 253402300800 }
    ensures { IfOk result (λ text. string_bytes text ≡ asked_rows it.now ++ named_rows it.now) }
{
    let asked = asked_rows(alloc, it)?;
    let named = named_rows(alloc, it)?;
    joined(alloc, &asked, &named)
}

/// The front of a vector set's row.
fn set_cells(alloc: Global, number: u64, word: &str) -> Result<String, AllocError>
    ensures { IfOk result (λ text. string_bytes text
        ≡ codes "<tr><td>" ++ decimal number ++ codes "</td><td>" ++ word.now ++ codes "</td>") }
{
    format!(in alloc; "<tr><td>{number}</td><td>{word}</td>")
}

/// The rest of it.
fn code_cells(alloc: Global, capability: &str, digits: &str) -> Result<String, AllocError>
    ensures { IfOk result (λ text. string_bytes text
        ≡ codes "<td>" ++ capability.now ++ codes "</td><td><code>" ++ digits.now ++ codes "</code></td></tr>") }
{
    format!(in alloc; "<td>{capability}</td><td><code>{digits}</code></td></tr>")
}

/// The rest of it, with what it holds.
fn set_codes(alloc: Global, set: &CertifiedSet) -> Result<String, AllocError>
    ensures { IfOk result (λ text. string_bytes text
        ≡ codes "<td>" ++ coded (string_bytes set.now.capability) ++ codes "</td><td><code>"
        ++ encode_lower set.now.digest ++ codes "</code></td></tr>") }
{
    let capability = coded(alloc, &set.capability)?;
    let digits = digits_of(alloc, &set.digest)?;
    code_cells(alloc, &capability, &digits)
}

/// A row of the table of vector sets.
#[tactic(auto, unfolding(crate::specs::Page::set_row))]
pub(crate) fn set_row(alloc: Global, set: &CertifiedSet) -> Result<String, AllocError>
    ensures { IfOk result (λ text. string_bytes text ≡ set_row set.now) }
{
    let cells = set_cells(alloc, set.number, disposition_word(set.disposition))?;
    let codes = set_codes(alloc, set)?;
    joined(alloc, &cells, &codes)
}

/// What stands before the first table's rows.
#[tactic(auto, unfolding(crate::specs::Page::page_head))]
pub(crate) fn page_head() -> &'static str
    ensures { result.now ≡ page_head }
{
    "\
<!DOCTYPE html>\n\
<html lang=\"en\"><head><meta charset=\"utf-8\"><title>Validation certificate</title>\n\
<style>body{font:10pt/1.3 sans-serif;margin:2cm auto;max-width:17cm}\n\
h1{font-size:16pt} h2{font-size:13pt}\n\
table{border-collapse:collapse;width:100%} tr{break-inside:avoid}\n\
th,td{border:1px solid #999;padding:3pt 5pt;text-align:left;vertical-align:top}\n\
code{font-size:8pt;overflow-wrap:anywhere;white-space:pre-wrap}\n\
@page{size:A4;margin:15mm} @media print{body{margin:0;max-width:none}}</style></head>\n\
<body><h1>Validation certificate</h1>\n\
<table>\n"
}

/// What stands between the two tables' rows.
#[tactic(auto, unfolding(crate::specs::Page::page_middle))]
pub(crate) fn page_middle() -> &'static str
    ensures { result.now ≡ page_middle }
{
    "\
</table>\n\
<h2>Vector sets</h2>\n\
<table>\n\
<tr><th>Number</th><th>Disposition</th><th>Capability</th><th>SHA-256 of the answers</th></tr>\n"
}

/// What stands behind the second table's rows.
#[tactic(auto, unfolding(crate::specs::Page::page_end))]
pub(crate) fn page_end() -> &'static str
    ensures { result.now ≡ page_end }
{
    "\n</table></body></html>"
}
