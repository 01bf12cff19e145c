//! What is certified by an approved request, as the records have it.
ghost use Rattle.std.specs.Prelude.{◌≡◌, ◌<◌, ◌++◌, List, [], ◌∷◌, IfOk, IsTrue, OnOk, Some};
ghost use Rattle.std.specs.Prelude.{option_and_then, option_map, string_bytes};
ghost use Rattle.std.specs.List.{AllZip};
ghost use Rattle.sqlite.specs.Held.{state};
ghost use Rattle.acvp_desk.specs.Serves.{Looks};
ghost use Rattle.acvp_registry.specs.declared.kind.Kind.TheVariants.{Module};
ghost use Rattle.acvp_store.specs.Store.{meaning_of, stands};
ghost use Rattle.acvp_tables.specs.Calls.{Finds};
ghost use Rattle.acvp_tables.specs.Content.{Content, is_live_in, live_sets, object_at, session_at};
ghost use Rattle.acvp_tables.specs.State.{AreWellNumbered};
ghost use Rattle.acvp_view.specs.Certificate.{answers_digest, approved_by, approved_in, disposition_under, document};
ghost use Rattle.acvp_view.specs.Certified.{AreCertified, AreSetsOf, IsCertificate, IsCertifiedSet, read_text};
ghost use Rattle.acvp_view.specs.Certified.{vendor_in};
ghost use Rattle.acvp_view.specs.declared.certificate.Certificate.{Certificate as CertificateValue};
ghost use Rattle.acvp_view.specs.declared.certificate.CertifiedSet.{CertifiedSet as CertifiedSetValue};

use crate::certificate::{Certificate, CertifiedSet, document};
use crate::fault::ViewFault;
use crate::lines::Lines;
use crate::listed::END_OF_YEARS;
use acvp_answers::{Answers, Disposition, disposition, grade, standard};
use acvp_desk::Seeds;
use acvp_gen::prompts;
use acvp_json::answers_to_text;
use acvp_mac::{Digest, HashName, hash};
use acvp_registry::{Kind, with_url};
use acvp_store::{RangeFault, SqlTables};
use acvp_tables::{
    Certification, ObjectRow, RequestPurpose, RequestStatus, RequestSummary, SetRow, StoreFault,
    Tables,
};
use sqlite::Alter;
use std::alloc::{AllocError, Global};

/// The digest of answers.
#[tactic(auto, unfolding(crate::specs::Certificate::answers_digest))]
fn answers_digest(alloc: Global, answers: &Answers) -> Result<Digest, AllocError>
    ensures { IfOk result (λ digest. digest ≡ answers_digest answers.now) }
{
    let text = answers_to_text(alloc, answers)?;
    Ok(hash(HashName::Sha256, text.as_bytes()))
}

/// What the answers to a vector set come to, worked out anew under its seed.
#[tactic(auto, unfolding(crate::specs::Certificate::disposition_under))]
fn disposition_under(
    alloc: Global,
    row: &SetRow,
    answers: &Answers,
    seed: &[u8; 32],
) -> Result<Disposition, AllocError>
    ensures { IfOk result (λ came. came ≡ disposition_under seed.now row.now.number row.now.capability answers.now) }
{
    let prompts = prompts(alloc, seed, row.number, &row.capability)?;
    let standard = standard(alloc, &prompts)?;
    let verdicts = grade(alloc, &standard, answers)?;
    Ok(disposition(&verdicts))
}

/// A vector set that is certified. Its answers are there, and under its seed they pass.
fn certified_set(alloc: Global, row: &SetRow, seeds: &Seeds) -> Result<CertifiedSet, ViewFault>
    ensures { IfOk result (IsCertifiedSet seeds.now row.now) }
{
    let Some(graded) = &row.graded else {
        return Err(ViewFault::Refused);
    };
    let Some(seed) = seeds.get(row.epoch) else {
        return Err(ViewFault::Seed);
    };
    let answers = graded.answers();
    let disposition = disposition_under(alloc, row, answers, seed)?;
    if !matches!(disposition, Disposition::Passed) {
        return Err(ViewFault::Seed);
    }
    Ok(CertifiedSet {
        number: row.number,
        capability: row.capability.to_text(alloc)?,
        disposition,
        digest: answers_digest(alloc, answers)?,
    })
}

/// Whether a vector set is of the session, and wasn't cancelled.
fn is_live_in(row: &SetRow, session: u64) -> bool
    ensures { result ≡ is_live_in session row.now }
{
    row.session == session && !row.cancelled
}

/// Adds what is certified of a vector set, where it is of the session and wasn't cancelled.
fn add_certified(
    alloc: Global,
    sets: &mut Vec<CertifiedSet>,
    row: &SetRow,
    session: u64,
    seeds: &Seeds,
) -> Result<(), ViewFault>
    ensures { IfOk result (λ _. (added : List CertifiedSetValue) × (sets.new.items ≡ sets.old.items ++ added)
        × AllZip (IsCertifiedSet seeds.now) (live_sets session (row.now ∷ [])) added) }
{
    if is_live_in(row, session) {
        let set = certified_set(alloc, row, seeds)?;
        if sets.push(set).is_err() {
            return Err(ViewFault::Memory);
        }
    }
    Ok(())
}

/// The vector sets of a session that are certified, of these rows: all that weren't cancelled.
fn certified_sets(
    alloc: Global,
    rows: &[SetRow],
    session: u64,
    seeds: &Seeds,
) -> Result<Vec<CertifiedSet>, ViewFault>
    ensures { IfOk result (λ sets. AllZip (IsCertifiedSet seeds.now) (live_sets session rows.now) sets.items) }
{
    let mut sets = Vec::new(alloc);
    for row in rows {
        add_certified(alloc, &mut sets, row, session, seeds)?;
    }
    Ok(sets)
}

/// The vector sets of an account.
fn sets_of_account<S: Alter + Drop>(
    tables: &mut SqlTables<S>,
    account: u16,
) -> Result<Vec<SetRow>, ViewFault>
    ensures rows { IsTrue (state S.Store tables.new).is_open → IfOk result (λ rows. (c : Content)
        → stands S.Store tables.old c → AreSetsOf c account rows.items) }
    ensures looks { Looks (meaning_of S.Store) result tables.old tables.new }
{
    match tables.sets_numbered(account) {
        Ok(rows) => Ok(rows),
        Err(RangeFault::Stray(_)) => Err(ViewFault::Refused),
        Err(RangeFault::Store(fault)) => Err(ViewFault::from(fault)),
    }
}

/// The account and what is certified, by a request that asks for a certification and is approved.
fn approved_in(request: RequestSummary) -> Option<(u16, Certification)>
    ensures { result ≡ approved_in request }
{
    match (request.purpose, request.status) {
        (RequestPurpose::Certification(it), RequestStatus::Approved(_)) => Some((
            request.account,
            it,
        )),
        _ => None,
    }
}

/// The account and what is certified, by the request of a number: none where there is no such request, or it isn't for
/// a certification, or isn't approved.
#[tactic(auto, unfolding(crate::specs::Certificate::approved_by))]
pub fn approved_certification<T: Tables>(
    tables: &mut T,
    number: u64,
) -> Result<Option<(u16, Certification)>, StoreFault>
    ensures found { Finds T.meaning (λ x. x) result tables.old tables.new (approved_by number) }
    ensures looks { Looks T.meaning result tables.old tables.new }
{
    match tables.request(number)? {
        Some(request) => Ok(approved_in(request)),
        None => Ok(None),
    }
}

/// The object of a kind and number.
fn registered<T: Tables>(tables: &mut T, kind: Kind, number: u64) -> Result<ObjectRow, ViewFault>
    ensures found { Finds T.meaning (λ row. Some row) result tables.old tables.new
        (λ c. object_at kind number c.objects) }
    ensures looks { Looks T.meaning result tables.old tables.new }
{
    match tables.object(kind, number)? {
        Some(row) => Ok(row),
        None => Err(ViewFault::Refused),
    }
}

/// The text of an object as its account reads it.
fn object_text(alloc: Global, row: &ObjectRow) -> Result<String, AllocError>
    ensures { IfOk result (λ text. string_bytes text ≡ read_text row.now) }
{
    match with_url(alloc, &row.object, row.number) {
        Ok(value) => value.to_string(alloc),
        Err(_) => Err(AllocError),
    }
}

/// The text of the object of a kind and number.
fn text_of<T: Tables>(
    alloc: Global,
    tables: &mut T,
    kind: Kind,
    number: u64,
) -> Result<String, ViewFault>
    ensures found { Finds T.meaning (λ text. Some (string_bytes text)) result tables.old tables.new
        (λ c. option_map read_text (object_at kind number c.objects)) }
    ensures looks { Looks T.meaning result tables.old tables.new }
{
    let row = registered(tables, kind, number)?;
    Ok(object_text(alloc, &row)?)
}

/// When a session was made.
fn created<T: Tables>(tables: &mut T, session: u64) -> Result<u64, ViewFault>
    ensures early { IfOk result (λ moment. moment < 253402300800) }
    ensures found { Finds T.meaning (λ moment. Some moment) result tables.old tables.new
        (λ c. option_map (λ row. row.created) (session_at session c.sessions)) }
    ensures looks { Looks T.meaning result tables.old tables.new }
{
    match tables.session(session)? {
        Some(row) if row.created < END_OF_YEARS => Ok(row.created),
        _ => Err(ViewFault::Refused),
    }
}

/// The texts of a module and of the vendor that it names.
fn sold<T: Tables>(
    alloc: Global,
    tables: &mut T,
    number: u64,
) -> Result<(String, String), ViewFault>
    ensures it { Finds T.meaning (λ texts. Some (string_bytes texts.0)) result tables.old tables.new
        (λ c. option_map read_text (object_at Module number c.objects)) }
    ensures by { Finds T.meaning (λ texts. Some (string_bytes texts.1)) result tables.old tables.new
        (λ c. option_map read_text (option_and_then (vendor_in c) (object_at Module number c.objects))) }
    ensures looks { Looks T.meaning result tables.old tables.new }
{
    let row = registered(tables, Kind::Module, number)?;
    let Some(vendor) = row.object.vendor() else {
        return Err(ViewFault::Refused);
    };
    let vendor = text_of(alloc, tables, Kind::Vendor, vendor)?;
    Ok((object_text(alloc, &row)?, vendor))
}

/// The vector sets of a session that are certified, of the rows of its account.
fn certified_of<S: Alter + Drop>(
    alloc: Global,
    tables: &mut SqlTables<S>,
    seeds: &Seeds,
    account: u16,
    session: u64,
) -> Result<Vec<CertifiedSet>, ViewFault>
    ensures sets { IsTrue (state S.Store tables.new).is_open → IfOk result (λ sets. (c : Content)
        → stands S.Store tables.old c → AreCertified seeds.now c account session sets.items) }
    ensures looks { Looks (meaning_of S.Store) result tables.old tables.new }
{
    let rows = sets_of_account(tables, account)?;
    certified_sets(alloc, &rows, session, seeds)
}

/// What is certified by the approved request of a number.
fn certificate<S: Alter + Drop>(
    alloc: Global,
    tables: &mut SqlTables<S>,
    seeds: &Seeds,
    number: u64,
) -> Result<Certificate, ViewFault>
    ensures early { IfOk result (λ it. it.created < 253402300800) }
    ensures said { IsTrue (state S.Store tables.new).is_open → IfOk result (λ it. (c : Content)
        → AreWellNumbered c → stands S.Store tables.old c → IsCertificate seeds.now number c it) }
{
    let Some((account, certification)) = approved_certification(tables, number)? else {
        return Err(ViewFault::Unknown);
    };
    let created = created(tables, certification.session)?;
    let (module, vendor) = sold(alloc, tables, certification.module)?;
    let environment = text_of(alloc, tables, Kind::Environment, certification.environment)?;
    let sets = certified_of(alloc, tables, seeds, account, certification.session)?;
    Ok(Certificate {
        request: number,
        account,
        session: certification.session,
        created,
        module,
        vendor,
        environment,
        sets,
    })
}

/// Hands on the document of the approved certification of a request's number, or the page. If it can't be made, nothing
/// is handed on.
pub fn show_certificate<S: Alter + Drop, L: Lines>(
    alloc: Global,
    tables: &mut SqlTables<S>,
    lines: &mut L,
    seeds: &Seeds,
    number: u64,
    page: bool,
) -> Result<(), ViewFault>
    ensures { IsTrue (state S.Store tables.new).is_open → OnOk result ((c : Content)
        → AreWellNumbered c → stands S.Store tables.old c → (it : CertificateValue)
        × IsCertificate seeds.now number c it × L.takes lines.old (document page it) lines.new) }
{
    let it = certificate(alloc, tables, seeds, number)?;
    let text = document(alloc, &it, page)?;
    lines.take(text.as_str())
}
