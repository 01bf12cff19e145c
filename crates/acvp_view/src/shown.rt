//! A request, and then the object that it asks to register. Each text that a client wrote is escaped.
ghost use Rattle.std.specs.Prelude.{◌≡◌, ◌++◌, IfOk, Some, codes, string_bytes};
ghost use Rattle.acvp_desk.specs.Serves.{Looks};
ghost use Rattle.acvp_registry.specs.Object.{object_text};
ghost use Rattle.acvp_tables.specs.Calls.{Finds};
ghost use Rattle.acvp_tables.specs.Content.{Content, request_at};
ghost use Rattle.acvp_tables.specs.State.{AreWellNumbered};
ghost use Rattle.acvp_view.specs.Lines.{HandsOn};
ghost use Rattle.acvp_view.specs.Shown.{IsAsked, registration_lines, registration_text};

use crate::escape::show_text;
use crate::fault::ViewFault;
use crate::form::Form;
use crate::lines::Lines;
use crate::lists::show_numbered;
use crate::whole::WholeRequests;
use acvp_registry::Object;
use acvp_tables::{RequestBody, RequestRow, RequestSummary};
use std::alloc::{AllocError, Global};

/// An object that has another as a member.
fn object_member(alloc: Global, text: &str) -> Result<String, AllocError>
    ensures { IfOk result (λ whole. string_bytes whole ≡ codes "{\"object\":" ++ text.now ++ codes "}") }
{
    format!(in alloc; "{{\"object\":{text}}}")
}

/// The object that a request asks to register.
fn registration_text(alloc: Global, form: Form, object: &Object) -> Result<String, AllocError>
    ensures { IfOk result (λ text. string_bytes text ≡ registration_text form (object_text object.now)) }
{
    match form {
        Form::Words => String::from_str(alloc, object.text()),
        Form::Json => object_member(alloc, object.text()),
    }
}

/// Hands on the object that a request asks to register, where it asks for that.
fn show_registration<L: Lines>(
    alloc: Global,
    lines: &mut L,
    form: Form,
    body: &RequestBody,
) -> Result<(), ViewFault>
    ensures { HandsOn L.takes result (registration_lines form body.now) lines.old lines.new }
{
    match body {
        RequestBody::Registration(object) => {
            let text = registration_text(alloc, form, object)?;
            show_text(alloc, lines, form, text.as_str())
        }
        RequestBody::Certification(_) => Ok(()),
    }
}

/// The request of a number.
fn request_there<T: WholeRequests>(tables: &mut T, number: u64) -> Result<RequestRow, ViewFault>
    ensures found { Finds T.meaning (λ row. Some row) result tables.old tables.new
        (λ c. request_at number c.requests) }
    ensures looks { Looks T.meaning result tables.old tables.new }
{
    match tables.request_row(number)? {
        Some(row) => Ok(row),
        None => Err(ViewFault::Unknown),
    }
}

/// Hands on the request of a number, and then the object that it asks to register, where it asks for that. Gives the
/// request.
pub fn show_request<T: WholeRequests, L: Lines>(
    alloc: Global,
    tables: &mut T,
    lines: &mut L,
    form: Form,
    number: u64,
) -> Result<RequestSummary, ViewFault>
    ensures asked { T.meaning.is_open tables.new → IfOk result (λ request. (c : Content)
        → AreWellNumbered c → T.meaning.stands tables.old c
        → IsAsked L.takes form number c request lines.old lines.new) }
    ensures looks { Looks T.meaning result tables.old tables.new }
{
    let row = request_there(tables, number)?;
    show_numbered(alloc, tables, lines, form, number, true)?;
    show_registration(alloc, lines, form, &row.body)?;
    Ok(RequestSummary::of(&row))
}
