//! The document of an approved certification, and the page that says the same. They hold what no later event changes,
//! so each is the same bytes whenever it is made.
ghost use Rattle.std.specs.Prelude.{◌≡◌, ◌++◌, ◌<◌, IfOk, codes, decimal, map, string_bytes, true};
ghost use Rattle.hex.specs.Hex.{encode_lower};
ghost use Rattle.acvp_json.specs.SetResults.{disposition_word};
ghost use Rattle.acvp_view.specs.Certificate.{between_sets, certificate_text, certified_text, document, named_text};
ghost use Rattle.acvp_view.specs.Certificate.{page_text, session_text, set_front_text, set_part, set_rest_text};
ghost use Rattle.acvp_view.specs.Certificate.{set_text, sets_text};
ghost use Rattle.acvp_view.specs.Escaped.{escaped};
ghost use Rattle.acvp_view.specs.Page.{asked_rows, named_rows, page_end, page_head, page_middle};

use crate::escape::escaped;
use crate::listed::joined;
use crate::page::{first_rows, page_end, page_head, page_middle, set_row, three};
use acvp_answers::Disposition;
use acvp_json::time_text;
use acvp_mac::Digest;
use std::alloc::{AllocError, Global};

/// A vector set that is certified.
#[derive(Drop)]
pub struct CertifiedSet {
    pub number: u64,

    /// Its capability, as compact JSON.
    pub capability: String,

    /// What its answers come to.
    pub disposition: Disposition,

    /// The digest of its answers.
    pub digest: Digest,
}

/// What the document says. The three objects are compact JSON, as the account reads them.
#[derive(Drop)]
pub struct Certificate {
    /// The number of the request that was approved.
    pub request: u64,
    pub account: u16,

    /// The number of the test session, and when it was made, in seconds since 1970.
    pub session: u64,
    pub created: u64,
    pub module: String,
    pub vendor: String,
    pub environment: String,

    /// The vector sets of the session that weren't cancelled.
    pub sets: Vec<CertifiedSet>,
}

/// The word for what a vector set comes to.
pub(crate) fn disposition_word(disposition: Disposition) -> &'static str
    ensures { result.now ≡ disposition_word disposition }
{
    match disposition {
        Disposition::Passed => "passed",
        Disposition::Fail => "fail",
        Disposition::Missing => "missing",
        Disposition::Expired => "expired",
        Disposition::Unreceived => "unreceived",
    }
}

/// The front of a vector set's object.
fn set_front(alloc: Global, digits: &str, capability: &str) -> Result<String, AllocError>
    ensures { IfOk result (λ text. string_bytes text
        ≡ codes "{\"answersSha256\":\"" ++ digits.now ++ codes "\",\"capability\":" ++ capability.now) }
{
    format!(in alloc; "{{\"answersSha256\":\"{digits}\",\"capability\":{capability}")
}

/// The rest of a vector set's object.
fn set_rest(alloc: Global, word: &str, number: u64) -> Result<String, AllocError>
    ensures { IfOk result (λ text. string_bytes text
        ≡ codes ",\"disposition\":\"" ++ word.now ++ codes "\",\"vsId\":" ++ decimal number ++ codes "}") }
{
    format!(in alloc; ",\"disposition\":\"{word}\",\"vsId\":{number}}}")
}

/// The digits of a digest.
pub(crate) fn digits_of(alloc: Global, digest: &Digest) -> Result<String, AllocError>
    ensures { IfOk result (λ text. string_bytes text ≡ encode_lower digest.now) }
{
    hex::encode(alloc, digest.as_slice())
}

/// The front of a vector set's object, with what it holds.
#[tactic(auto, unfolding(crate::specs::Certificate::set_front_text))]
fn set_front_text(alloc: Global, set: &CertifiedSet) -> Result<String, AllocError>
    ensures { IfOk result (λ text. string_bytes text ≡ set_front_text set.now) }
{
    let digits = digits_of(alloc, &set.digest)?;
    set_front(alloc, &digits, &set.capability)
}

/// The rest of it.
#[tactic(auto, unfolding(crate::specs::Certificate::set_rest_text))]
fn set_rest_text(alloc: Global, set: &CertifiedSet) -> Result<String, AllocError>
    ensures { IfOk result (λ text. string_bytes text ≡ set_rest_text set.now) }
{
    set_rest(alloc, disposition_word(set.disposition), set.number)
}

/// A vector set's object.
fn set_text(alloc: Global, set: &CertifiedSet) -> Result<String, AllocError>
    ensures { IfOk result (λ text. string_bytes text ≡ set_text set.now) }
{
    let front = set_front_text(alloc, set)?;
    let rest = set_rest_text(alloc, set)?;
    joined(alloc, &front, &rest)
}

/// A vector set in the document, or on the page.
fn set_part(alloc: Global, set: &CertifiedSet, page: bool) -> Result<String, AllocError>
    ensures { IfOk result (λ text. string_bytes text ≡ set_part page set.now) }
{
    if page {
        set_row(alloc, set)
    } else {
        set_text(alloc, set)
    }
}

/// What stands between two vector sets.
fn between_sets(page: bool) -> &'static str
    ensures { result.now ≡ between_sets page }
{
    if page { "\n" } else { "," }
}

/// Each of these vector sets.
fn set_texts(alloc: Global, sets: &[CertifiedSet], page: bool) -> Result<Vec<String>, AllocError>
    ensures { IfOk result (λ texts. map string_bytes texts.items ≡ map (set_part page) sets.now) }
{
    let mut texts = Vec::new(alloc);
    for set in sets {
        texts.push(set_part(alloc, set, page)?)?;
    }
    Ok(texts)
}

/// All of them: the items of the array, or the rows of the table.
fn sets_text(alloc: Global, sets: &[CertifiedSet], page: bool) -> Result<String, AllocError>
    ensures { IfOk result (λ text. string_bytes text ≡ sets_text page sets.now) }
{
    let texts = set_texts(alloc, sets, page)?;
    let text = texts.join(alloc, between_sets(page))?;
    Ok(text)
}

/// The members for whom and of what.
fn named_members(
    alloc: Global,
    account: u16,
    module: &str,
    environment: &str,
) -> Result<String, AllocError>
    ensures { IfOk result (λ text. string_bytes text
        ≡ codes "{\"account\":" ++ decimal account ++ codes ",\"module\":" ++ «module».now
        ++ codes ",\"oe\":" ++ environment.now) }
{
    format!(in alloc; "{{\"account\":{account},\"module\":{module},\"oe\":{environment}")
}

/// The members of the request and of the test session, whose time is this text.
fn session_members(
    alloc: Global,
    request: u64,
    session: u64,
    time: &str,
) -> Result<String, AllocError>
    ensures { IfOk result (λ text. string_bytes text
        ≡ codes ",\"requestUrl\":\"/acvp/v1/requests/" ++ decimal request
        ++ codes "\",\"testSession\":{\"createdOn\":\"" ++ time.now
        ++ codes "\",\"url\":\"/acvp/v1/testSessions/" ++ decimal session ++ codes "\"}") }
{
    format!(in alloc;
        ",\"requestUrl\":\"/acvp/v1/requests/{request}\",\"testSession\":{{\"createdOn\":\"{time}\",\"url\":\"/acvp/v1/testSessions/{session}\"}}"
    )
}

/// The members of the vector sets and of the vendor.
fn certified_members(alloc: Global, sets: &str, vendor: &str) -> Result<String, AllocError>
    ensures { IfOk result (λ text. string_bytes text
        ≡ codes ",\"vectorSets\":[" ++ sets.now ++ codes "],\"vendor\":" ++ vendor.now ++ codes "}") }
{
    format!(in alloc; ",\"vectorSets\":[{sets}],\"vendor\":{vendor}}}")
}

#[tactic(auto, unfolding(crate::specs::Certificate::named_text))]
fn named_text(alloc: Global, it: &Certificate) -> Result<String, AllocError>
    ensures { IfOk result (λ text. string_bytes text ≡ named_text it.now) }
{
    named_members(alloc, it.account, &it.module, &it.environment)
}

#[tactic(auto, unfolding(crate::specs::Certificate::session_text))]
fn session_text(alloc: Global, it: &Certificate) -> Result<String, AllocError>
    requires { it.now.created < 253402300800 }
    ensures { IfOk result (λ text. string_bytes text ≡ session_text it.now) }
{
    let time = time_text(alloc, it.created)?;
    session_members(alloc, it.request, it.session, &time)
}

#[tactic(auto, unfolding(crate::specs::Certificate::certified_text))]
fn certified_text(alloc: Global, it: &Certificate) -> Result<String, AllocError>
    ensures { IfOk result (λ text. string_bytes text ≡ certified_text it.now) }
{
    let sets = sets_text(alloc, &it.sets, false)?;
    certified_members(alloc, &sets, &it.vendor)
}

/// The document's text.
pub fn certificate_text(alloc: Global, it: &Certificate) -> Result<String, AllocError>
    requires { it.now.created < 253402300800 }
    ensures { IfOk result (λ text. string_bytes text ≡ certificate_text it.now) }
{
    let named = named_text(alloc, it)?;
    let session = session_text(alloc, it)?;
    let certified = certified_text(alloc, it)?;
    let rest = joined(alloc, &session, &certified)?;
    joined(alloc, &named, &rest)
}

/// The page up to the rows of the first table.
fn page_front(alloc: Global, it: &Certificate) -> Result<String, AllocError>
    requires { it.now.created < 253402300800 }
    ensures { IfOk result (λ text. string_bytes text
        ≡ page_head ++ asked_rows it.now ++ named_rows it.now) }
{
    let rows = first_rows(alloc, it)?;
    joined(alloc, page_head(), &rows)
}

/// The rest of the page.
fn page_rest(alloc: Global, it: &Certificate) -> Result<String, AllocError>
    ensures { IfOk result (λ text. string_bytes text
        ≡ page_middle ++ sets_text true it.now.sets.items ++ page_end) }
{
    let rows = sets_text(alloc, &it.sets, true)?;
    three(alloc, page_middle(), &rows, page_end())
}

/// The page.
fn page_text(alloc: Global, it: &Certificate) -> Result<String, AllocError>
    requires { it.now.created < 253402300800 }
    ensures { IfOk result (λ text. string_bytes text ≡ page_text it.now) }
{
    let front = page_front(alloc, it)?;
    let rest = page_rest(alloc, it)?;
    joined(alloc, &front, &rest)
}

/// The document's text, escaped, which leaves it the same JSON value.
fn escaped_text(alloc: Global, it: &Certificate) -> Result<String, AllocError>
    requires { it.now.created < 253402300800 }
    ensures { IfOk result (λ text. string_bytes text ≡ escaped (certificate_text it.now)) }
{
    let text = certificate_text(alloc, it)?;
    escaped(alloc, &text)
}

/// The document, or the page.
pub(crate) fn document(alloc: Global, it: &Certificate, page: bool) -> Result<String, AllocError>
    requires { it.now.created < 253402300800 }
    ensures { IfOk result (λ text. string_bytes text ≡ document page it.now) }
{
    if page {
        page_text(alloc, it)
    } else {
        escaped_text(alloc, it)
    }
}
