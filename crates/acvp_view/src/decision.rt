//! What a decision on a certification needs: each vector set of its test session, and what the account reads at this
//! moment of all that the certification names. Nothing is changed. Each text that a client wrote is escaped.
ghost use Rattle.std.specs.Prelude.{◌≡◌, ℕ, List, IfOk, string_bytes};
ghost use Rattle.acvp_desk.specs.Kept.{IsKept};
ghost use Rattle.acvp_desk.specs.Serves.{Looks};
ghost use Rattle.acvp_registry.specs.declared.kind.Kind.{Kind as KindValue};
ghost use Rattle.acvp_tables.specs.Calls.{Finds};
ghost use Rattle.acvp_tables.specs.Content.{Content};
ghost use Rattle.acvp_tables.specs.declared.rows.Certification.{Certification as CertificationValue};
ghost use Rattle.acvp_view.specs.Decision.{AreNeeded, account_reads, token_for, vendor_of};
ghost use Rattle.acvp_view.specs.Escaped.{HandsOnShown, TakesShown};

use crate::fault::ViewFault;
use crate::form::Form;
use crate::lines::Lines;
use crate::reads::{Reader, show_named};
use crate::sets::show_sets;
use acvp_desk::{Desk, Keys};
use acvp_registry::Kind;
use acvp_tables::{Certification, RequestPurpose, RequestSummary, Tables};
use acvp_token::{Claims, issue_ring};
use std::alloc::Global;

/// How long a token lives, in seconds.
const TOKEN_LIFE: u64 = 1800;

/// A token of an account, which may be bound to one of its test sessions.
fn token_of(
    alloc: Global,
    keys: &Keys,
    account: u16,
    session: Option<u64>,
    moment: u64,
) -> Result<String, ViewFault>
    ensures { IfOk result (λ token. string_bytes token ≡ token_for keys.now account session moment) }
{
    let Some(expires) = moment.checked_add(TOKEN_LIFE) else {
        return Err(ViewFault::Refused);
    };
    let claims = Claims {
        account,
        session,
        issued: moment,
        expires,
    };
    Ok(issue_ring(alloc, &keys.token, &claims)?)
}

/// The number of the vendor that the module of a number names, where there is one.
#[tactic(auto, unfolding(crate::specs::Decision::vendor_of))]
fn vendor_of<T: Tables>(tables: &mut T, number: u64) -> Result<Option<u64>, ViewFault>
    ensures found { Finds T.meaning (λ x. x) result tables.old tables.new (vendor_of number) }
    ensures looks { Looks T.meaning result tables.old tables.new }
{
    match tables.object(Kind::Module, number)? {
        Some(row) => Ok(row.object.vendor()),
        None => Ok(None),
    }
}

/// The desk over these records.
fn desk_over<T: Tables + Drop>(alloc: Global, keys: Keys, tables: T) -> Result<Desk<T>, ViewFault>
    ensures keys { IfOk result (λ desk. desk.keys ≡ keys) }
    ensures open { IfOk result (λ desk. T.meaning.is_clean desk.tables
        → T.meaning.is_open tables × T.meaning.is_open desk.tables) }
    ensures same { IfOk result (λ desk. T.meaning.is_open desk.tables → (c : Content) → T.meaning.stands tables c
        → T.meaning.stands desk.tables c) }
{
    match Desk::new(alloc, keys, tables) {
        Ok(desk) => Ok(desk),
        Err((_, fault)) => Err(ViewFault::from(fault)),
    }
}

/// Hands on what the account reads of all that its certification names, with this vendor, at a desk of its own, and
/// gives the records back.
fn show_read<T: Tables + Drop, L: Lines>(
    alloc: Global,
    tables: T,
    lines: &mut L,
    form: Form,
    keys: Keys,
    moment: u64,
    account: u16,
    certification: Certification,
    vendor: Option<u64>,
) -> Result<T, ViewFault>
    ensures open { IfOk result (λ after. T.meaning.is_clean after → T.meaning.is_open tables) }
    ensures read { IfOk result (λ after. T.meaning.is_clean after → (c : Content) → IsKept keys.seed c
        → T.meaning.stands tables c → TakesShown form L.takes
        (account_reads form keys moment account certification vendor c) lines.old lines.new) }
    ensures shown { HandsOnShown form L.takes lines.old lines.new }
{
    let own = token_of(alloc, &keys, account, None, moment)?;
    let bound = token_of(alloc, &keys, account, Some(certification.session), moment)?;
    let mut desk = desk_over(alloc, keys, tables)?;
    let reader = Reader {
        alloc,
        form,
        moment,
        own: own.as_str(),
        bound: bound.as_str(),
    };
    show_named(&reader, &mut desk, lines, certification, vendor)?;
    Ok(desk.into_tables())
}

/// Hands on what a decision on a certification needs, and gives the records back.
#[tactic(auto, using(crate::proofs::EscapeLemmas::shown_both))]
fn show_certification<T: Tables + Drop, L: Lines>(
    alloc: Global,
    mut tables: T,
    lines: &mut L,
    form: Form,
    keys: Keys,
    moment: u64,
    account: u16,
    certification: Certification,
) -> Result<T, ViewFault>
    ensures whole { IfOk result (λ after. T.meaning.is_clean after → (c : Content) → IsKept keys.seed c
        → T.meaning.stands tables c → (texts : List (List ℕ))
        × AreNeeded form keys moment account certification c texts
        × TakesShown form L.takes texts lines.old lines.new) }
    ensures shown { HandsOnShown form L.takes lines.old lines.new }
{
    show_sets(alloc, &mut tables, lines, form, certification.session)?;
    let vendor = vendor_of(&mut tables, certification.module)?;
    show_read(
        alloc,
        tables,
        lines,
        form,
        keys,
        moment,
        account,
        certification,
        vendor,
    )
}

/// Hands on what a decision on a request needs beside its line, where it asks for a certification: each vector set of
/// the session, and what the account reads at this moment of all that the certification names. Of any other request
/// nothing is handed on. Gives the records back.
pub fn show_certified<T: Tables + Drop, L: Lines>(
    alloc: Global,
    tables: T,
    lines: &mut L,
    form: Form,
    keys: Keys,
    moment: u64,
    request: RequestSummary,
) -> Result<T, ViewFault>
    ensures none { (kind : KindValue) → request.purpose ≡ RequestPurpose.Registration kind → lines.new ≡ lines.old }
    ensures whole { (it : CertificationValue) → request.purpose ≡ RequestPurpose.Certification it
        → IfOk result (λ after. T.meaning.is_clean after → (c : Content) → IsKept keys.seed c
        → T.meaning.stands tables c → (texts : List (List ℕ))
        × AreNeeded form keys moment request.account it c texts
        × TakesShown form L.takes texts lines.old lines.new) }
    ensures shown { HandsOnShown form L.takes lines.old lines.new }
{
    match request.purpose {
        RequestPurpose::Registration(_) => Ok(tables),
        RequestPurpose::Certification(certification) => {
            show_certification(
                alloc,
                tables,
                lines,
                form,
                keys,
                moment,
                request.account,
                certification,
            )
        }
    }
}
