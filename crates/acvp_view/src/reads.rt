//! What an account reads of all that its certification names: what the desk answers to it at this moment, with tokens
//! that are issued for it. Nothing is changed.
ghost use Rattle.std.specs.Prelude.{◌≡◌, ◌∷◌, [], ◌++◌, true, IfOk, drop, string_bytes};
ghost use Rattle.acvp_desk.specs.Answer.{spare};
ghost use Rattle.acvp_desk.specs.Errors.{error_body};
ghost use Rattle.acvp_json.specs.Urls.{session_url};
ghost use Rattle.acvp_token.specs.TokenText.{ring_token_text};
ghost use Rattle.acvp_desk.specs.declared.wish.Wish.TheVariants.{Session};
ghost use Rattle.acvp_view.specs.Decision.{IsBodyText, ShowsRead, is_reading, named_reads, object_reads, part_reads};
ghost use Rattle.acvp_view.specs.Decision.{read_body, read_object, read_text, session_reads};
ghost use Rattle.acvp_view.specs.Decision.{vendor_and_environment_reads, vendor_reads, whole_session_reads};
ghost use Rattle.acvp_view.specs.Escaped.{HandsOnShown};

use crate::escape::show_text;
use crate::fault::ViewFault;
use crate::form::Form;
use crate::lines::Lines;
use crate::sets::spaced;
use acvp_desk::{
    Ask, Desk, DeskReply, Registry, RegistryWish, SPARE_BYTES, SessionWish, TokenField,
    TypedRequest, Wish, errors_are_named,
};
use acvp_policy::Rule;
use acvp_registry::object_url;
use acvp_tables::{Certification, Tables};
use std::alloc::{AllocError, Global};

/// An account that reads at a moment, with a token for its own paths and one for those of a test session.
#[derive(Clone, Copy)]
pub(crate) struct Reader<'a> {
    pub(crate) alloc: Global,
    pub(crate) form: Form,
    pub(crate) moment: u64,
    pub(crate) own: &'a str,
    pub(crate) bound: &'a str,
}

fn read_object(alloc: Global, path: &str, body: &str) -> Result<String, AllocError>
    ensures { IfOk result (λ text. string_bytes text ≡ read_object path.now body.now) }
{
    format!(in alloc; "{{\"body\":{body},\"path\":\"{path}\"}}")
}

/// A path, and the body that a request to read it is answered.
fn read_text(alloc: Global, form: Form, path: &str, body: &str) -> Result<String, AllocError>
    ensures { IfOk result (λ text. string_bytes text ≡ read_text form path.now body.now) }
{
    match form {
        Form::Words => spaced(alloc, path, body),
        Form::Json => read_object(alloc, path, body),
    }
}

/// The body that is behind the spare bytes of a reply. Each body is a text.
fn given_text(alloc: Global, reply: &[u8]) -> Result<String, ViewFault>
    ensures { IfOk result (λ text. string_bytes text ≡ drop spare reply.now) }
{
    if reply.len() < SPARE_BYTES {
        return Err(ViewFault::Refused);
    }
    match std::str::from_utf8(&reply[SPARE_BYTES..]) {
        Ok(text) => Ok(String::from_str(alloc, text)?),
        Err(_) => Err(ViewFault::Refused),
    }
}

/// The body that names a rule.
fn denied_text(alloc: Global, rule: Rule) -> Result<String, AllocError>
    ensures { IfOk result (λ text. string_bytes text ≡ error_body rule) }
{
    errors_are_named();
    let word = rule.word();
    format!(in alloc; "[{{\"acvVersion\":\"1.0\"}},{{\"error\":\"{word}\"}}]")
}

/// The body of a reply. An unavailable desk has told nothing.
fn body_text(alloc: Global, reply: &DeskReply) -> Result<String, ViewFault>
    ensures { IfOk result (λ text. IsBodyText reply.now (string_bytes text)) }
{
    match reply {
        DeskReply::Given(reply) => given_text(alloc, reply),
        DeskReply::Denied(Rule::Unavailable) => Err(ViewFault::Refused),
        DeskReply::Denied(rule) => Ok(denied_text(alloc, *rule)?),
    }
}

/// Hands on a path, and the body that the desk answers with to who reads there with a token.
fn show<T: Tables, L: Lines>(
    reader: &Reader<'_>,
    desk: &mut Desk<T>,
    lines: &mut L,
    path: &str,
    token: &str,
    wish: Wish,
) -> Result<(), ViewFault>
    requires { is_reading wish ≡ true }
    ensures keys { desk.new.keys ≡ desk.old.keys }
    ensures was_clean { T.meaning.is_clean desk.new.tables → T.meaning.is_clean desk.old.tables }
    ensures read { ShowsRead reader.now.form L.takes T.meaning desk.old.keys.seed result desk.old.tables desk.new.tables
        lines.old lines.new
        (λ c. read_text reader.now.form path.now (read_body desk.old.keys reader.now.moment token.now wish c) ∷ []) }
    ensures shown { HandsOnShown reader.now.form L.takes lines.old lines.new }
{
    let request = TypedRequest {
        ask: Ask::Caller(wish),
        token: TokenField::Bearer(token.as_bytes()),
        body: &[],
    };
    let outcome = desk.handle(reader.moment, &request);
    let body = body_text(reader.alloc, &outcome.reply)?;
    let text = read_text(reader.alloc, reader.form, path, body.as_str())?;
    show_text(reader.alloc, lines, reader.form, text.as_str())
}

/// The path of a test session, or of what lies below it.
fn session_path(alloc: Global, session: u64, below: &str) -> Result<String, AllocError>
    ensures { IfOk result (λ path. string_bytes path ≡ session_url session ++ below.now) }
{
    format!(in alloc; "/acvp/v1/testSessions/{session}{below}")
}

/// Hands on what is read of a test session, or of what lies below it.
fn show_session<T: Tables, L: Lines>(
    reader: &Reader<'_>,
    desk: &mut Desk<T>,
    lines: &mut L,
    session: u64,
    below: &str,
    wish: SessionWish,
) -> Result<(), ViewFault>
    requires { is_reading (Session session wish) ≡ true }
    ensures keys { desk.new.keys ≡ desk.old.keys }
    ensures was_clean { T.meaning.is_clean desk.new.tables → T.meaning.is_clean desk.old.tables }
    ensures read { ShowsRead reader.now.form L.takes T.meaning desk.old.keys.seed result desk.old.tables desk.new.tables
        lines.old lines.new
        (session_reads reader.now.form desk.old.keys reader.now.moment reader.now.bound.now session below.now wish) }
    ensures shown { HandsOnShown reader.now.form L.takes lines.old lines.new }
{
    let path = session_path(reader.alloc, session, below)?;
    show(
        reader,
        desk,
        lines,
        path.as_str(),
        reader.bound,
        Wish::Session(session, wish),
    )
}

/// Hands on what is read of an object of a registry.
fn show_object<T: Tables, L: Lines>(
    reader: &Reader<'_>,
    desk: &mut Desk<T>,
    lines: &mut L,
    registry: Registry,
    number: u64,
) -> Result<(), ViewFault>
    ensures keys { desk.new.keys ≡ desk.old.keys }
    ensures was_clean { T.meaning.is_clean desk.new.tables → T.meaning.is_clean desk.old.tables }
    ensures read { ShowsRead reader.now.form L.takes T.meaning desk.old.keys.seed result desk.old.tables desk.new.tables
        lines.old lines.new
        (object_reads reader.now.form desk.old.keys reader.now.moment reader.now.own.now registry number) }
    ensures shown { HandsOnShown reader.now.form L.takes lines.old lines.new }
{
    let wish = Wish::Registry(RegistryWish::Read(registry, number));
    match object_url(reader.alloc, registry.kind(), number)? {
        Some(path) => show(reader, desk, lines, path.as_str(), reader.own, wish),
        None => Ok(()),
    }
}

/// Hands on what is read of the vendor of a number, where there is one.
fn show_vendor<T: Tables, L: Lines>(
    reader: &Reader<'_>,
    desk: &mut Desk<T>,
    lines: &mut L,
    vendor: Option<u64>,
) -> Result<(), ViewFault>
    ensures keys { desk.new.keys ≡ desk.old.keys }
    ensures was_clean { T.meaning.is_clean desk.new.tables → T.meaning.is_clean desk.old.tables }
    ensures read { ShowsRead reader.now.form L.takes T.meaning desk.old.keys.seed result desk.old.tables desk.new.tables
        lines.old lines.new (vendor_reads reader.now.form desk.old.keys reader.now.moment reader.now.own.now vendor) }
    ensures shown { HandsOnShown reader.now.form L.takes lines.old lines.new }
{
    match vendor {
        Some(vendor) => show_object(reader, desk, lines, Registry::Vendors, vendor),
        None => Ok(()),
    }
}

/// Hands on what is read of a test session, and of its results.
#[tactic(auto, using(crate::proofs::EscapeLemmas::shown_both))]
fn show_whole_session<T: Tables, L: Lines>(
    reader: &Reader<'_>,
    desk: &mut Desk<T>,
    lines: &mut L,
    session: u64,
) -> Result<(), ViewFault>
    ensures keys { desk.new.keys ≡ desk.old.keys }
    ensures was_clean { T.meaning.is_clean desk.new.tables → T.meaning.is_clean desk.old.tables }
    ensures read { ShowsRead reader.now.form L.takes T.meaning desk.old.keys.seed result desk.old.tables desk.new.tables
        lines.old lines.new
        (whole_session_reads reader.now.form desk.old.keys reader.now.moment reader.now.bound.now session) }
    ensures shown { HandsOnShown reader.now.form L.takes lines.old lines.new }
{
    show_session(reader, desk, lines, session, "", SessionWish::Read)?;
    show_session(
        reader,
        desk,
        lines,
        session,
        "/results",
        SessionWish::Results,
    )
}

/// Hands on what is read of a vendor, where there is one, and of an operational environment.
#[tactic(auto, using(crate::proofs::EscapeLemmas::shown_both))]
fn show_vendor_and_environment<T: Tables, L: Lines>(
    reader: &Reader<'_>,
    desk: &mut Desk<T>,
    lines: &mut L,
    vendor: Option<u64>,
    environment: u64,
) -> Result<(), ViewFault>
    ensures keys { desk.new.keys ≡ desk.old.keys }
    ensures was_clean { T.meaning.is_clean desk.new.tables → T.meaning.is_clean desk.old.tables }
    ensures read { ShowsRead reader.now.form L.takes T.meaning desk.old.keys.seed result desk.old.tables desk.new.tables
        lines.old lines.new
        (vendor_and_environment_reads reader.now.form desk.old.keys reader.now.moment reader.now.own.now vendor
        environment) }
    ensures shown { HandsOnShown reader.now.form L.takes lines.old lines.new }
{
    show_vendor(reader, desk, lines, vendor)?;
    show_object(reader, desk, lines, Registry::Environments, environment)
}

/// Hands on what is read of the module, of this vendor and of the environment that a certification names.
#[tactic(auto, using(crate::proofs::EscapeLemmas::shown_both))]
fn show_parts<T: Tables, L: Lines>(
    reader: &Reader<'_>,
    desk: &mut Desk<T>,
    lines: &mut L,
    certification: Certification,
    vendor: Option<u64>,
) -> Result<(), ViewFault>
    ensures keys { desk.new.keys ≡ desk.old.keys }
    ensures was_clean { T.meaning.is_clean desk.new.tables → T.meaning.is_clean desk.old.tables }
    ensures read { ShowsRead reader.now.form L.takes T.meaning desk.old.keys.seed result desk.old.tables desk.new.tables
        lines.old lines.new
        (part_reads reader.now.form desk.old.keys reader.now.moment reader.now.own.now certification vendor) }
    ensures shown { HandsOnShown reader.now.form L.takes lines.old lines.new }
{
    let Certification {
        module,
        environment,
        ..
    } = certification;
    show_object(reader, desk, lines, Registry::Modules, module)?;
    show_vendor_and_environment(reader, desk, lines, vendor, environment)
}

/// Hands on what is read of all that a certification names, with this vendor.
#[tactic(auto, using(crate::proofs::EscapeLemmas::shown_both))]
pub(crate) fn show_named<T: Tables, L: Lines>(
    reader: &Reader<'_>,
    desk: &mut Desk<T>,
    lines: &mut L,
    certification: Certification,
    vendor: Option<u64>,
) -> Result<(), ViewFault>
    ensures keys { desk.new.keys ≡ desk.old.keys }
    ensures was_clean { T.meaning.is_clean desk.new.tables → T.meaning.is_clean desk.old.tables }
    ensures read { ShowsRead reader.now.form L.takes T.meaning desk.old.keys.seed result desk.old.tables desk.new.tables
        lines.old lines.new
        (named_reads reader.now.form desk.old.keys reader.now.moment reader.now.bound.now reader.now.own.now
        certification vendor) }
    ensures shown { HandsOnShown reader.now.form L.takes lines.old lines.new }
{
    show_whole_session(reader, desk, lines, certification.session)?;
    show_parts(reader, desk, lines, certification, vendor)
}
