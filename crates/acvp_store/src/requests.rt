//! The table of requests.
ghost use Rattle.std.specs.Prelude.{⊤, ◌≡◌, ◌≢◌, ◌<◌, ◌^◌, ◌++◌, ◌∷◌, [], List, map, IsTrue, Err, IsOk, IfErr};
ghost use Rattle.std.specs.Prelude.{IfOk, string_bytes, option_map, unwrap_or};
ghost use Rattle.serde_json.specs.View.{view};
ghost use Rattle.sqlite.specs.Held.{state};
ghost use Rattle.sqlite.specs.Values.{or_null};
ghost use Rattle.acvp_tables.specs.Changes.{changed, is_request, with_status, new_request, new_certification};
ghost use Rattle.acvp_tables.specs.declared.rows.RequestBody.{RequestBody as Body};
ghost use Rattle.acvp_tables.specs.declared.rows.RequestBody.TheVariants as body;
ghost use Rattle.acvp_tables.specs.declared.rows.RequestRow.{RequestRow as Request};
ghost use Rattle.acvp_store.specs.Alters.{Alters};
ghost use Rattle.acvp_store.specs.Connection.{ServesStore, IsRead, IsInside, UnderStore};
ghost use Rattle.acvp_store.specs.Stands.{request_tree, HoldsRequests, BodyReads, certification_data, body_number};
ghost use Rattle.acvp_store.specs.Stands.{body_text, status_number};
ghost use Rattle.acvp_registry.specs.Url.{url_of};
ghost use Rattle.acvp_tables.specs.Content.{Content, page, request_at, requests_of, request_summary};
ghost use Rattle.acvp_tables.specs.State.{AreWellNumbered, given_number};
ghost use Rattle.acvp_store.specs.Private.Columns.{request_columns, status_columns};
ghost use Rattle.acvp_store.specs.Private.Requests.{FitsBody, IsAsked, IsJudgedBody, IsJudgedRequest, IsReadable};
ghost use Rattle.acvp_store.specs.Private.Requests.{request_shown};
ghost use Rattle.acvp_store.specs.Private.Summaries.{status_shown};
ghost use Rattle.acvp_store.specs.Private.Shown.{AreMet, is_under};
ghost use Rattle.acvp_store.specs.Private.Performed.{parameter};
ghost use Rattle.acvp_store.specs.Values.{whole};

use crate::columns::{account_number, field, fitting, key};
use crate::members::{Member, answered, listed};
use crate::objects::{kept_object, kind_number};
use crate::pages::page_of;
use crate::queries::asked;
use crate::summaries::{certification, status};
use crate::work::{Work, perform};
use acvp_registry::{Kind, object_url};
use acvp_tables::{
    Certification, NewCertification, NewRequest, RequestBody, RequestRow, RequestStatus,
    RequestSummary, StoreFault,
};
use serde_json::{Value, json};
use sqlite::types::{ToSql, ValueRef};
use sqlite::{Alter, Connection, Row, Transaction};
use std::alloc::{AllocError, Global};

/// Puts in a request on which nothing is decided yet.
fn insert_request<S: Alter>(
    tx: &mut Transaction<'_, S>,
    number: u64,
    account: u16,
    kind: u32,
    body: &str,
) -> Result<(), StoreFault>
    ensures same_reference { tx.new.conn.ghost_name ≡ tx.old.conn.ghost_name }
    ensures inside { (row : Request) → IsAsked row number account kind body.now
        → IsInside result (state S.Store tx.old.conn.now) (state S.Store tx.new.conn.now)
        (UnderStore (λ layout. Alters layout request_tree HoldsRequests (λ rows. rows ++ row ∷ []))) }
{
    let number = fitting(number)?;
    perform(
        tx,
        "INSERT INTO request (request, account, kind, body, status, approved) VALUES (?1, ?2, ?3, ?4, 0, NULL)",
        &[
            number,
            u32::from(account).to_sql(),
            kind.to_sql(),
            body.to_sql(),
        ],
    )
}

impl Work for NewRequest {
    ghost use Rattle.std.specs.Prelude.{◌++◌, ◌∷◌, []};
    ghost use Rattle.acvp_tables.specs.Changes.{new_request};
    ghost use Rattle.acvp_store.specs.Alters.{Alters};
    ghost use Rattle.acvp_store.specs.Connection.{UnderStore};
    ghost use Rattle.acvp_store.specs.Stands.{request_tree, HoldsRequests};

    ghost change = { λ r. UnderStore
        (λ layout. Alters layout request_tree HoldsRequests (λ rows. rows ++ new_request r ∷ [])) };

    fn run<S: Alter>(&self, tx: &mut Transaction<'_, S>) -> Result<(), StoreFault> {
        insert_request(
            tx,
            self.number,
            self.account,
            kind_number(self.object.kind()),
            self.object.text(),
        )
    }
}

/// The URL of a module or of an environment; empty of another kind.
fn url(alloc: Global, kind: Kind, number: u64) -> Result<String, AllocError>
    ensures { IfOk result (λ url. string_bytes url ≡ unwrap_or (url_of kind number) []) }
{
    match object_url(alloc, kind, number)? {
        Some(url) => Ok(url),
        None => Ok(String::new(alloc)),
    }
}

/// A certification as it is kept.
fn certification_value(alloc: Global, asked: &Certification) -> Result<Value, AllocError>
    ensures { IfOk result (λ value. view value ≡ certification_data asked.now) }
{
    let module = url(alloc, Kind::Module, asked.module)?;
    let environment = url(alloc, Kind::Environment, asked.environment)?;
    let session = asked.session;
    json!(in alloc; {"moduleUrl": module.as_str(), "oeUrl": environment.as_str(), "session": session})
}

/// The text of a certification.
pub(crate) fn certification_text(alloc: Global, asked: Certification) -> Result<String, AllocError>
    ensures text { IfOk result (λ text. string_bytes text ≡ body_text (body.Certification asked)) }
    ensures reads { IfOk result (λ text. BodyReads (body.Certification asked)) }
{
    certification_value(alloc, &asked)?.to_string(alloc)
}

/// A request for certification, without the session's note of it.
#[derive(Clone, Copy)]
pub(crate) struct CertificationAsked {
    pub alloc: Global,
    pub request: NewCertification,
}

impl Work for CertificationAsked {
    ghost use Rattle.std.specs.Prelude.{◌++◌, ◌∷◌, []};
    ghost use Rattle.acvp_tables.specs.Changes.{new_certification};
    ghost use Rattle.acvp_store.specs.Alters.{Alters};
    ghost use Rattle.acvp_store.specs.Connection.{UnderStore};
    ghost use Rattle.acvp_store.specs.Stands.{request_tree, HoldsRequests};

    ghost change = { λ c. UnderStore
        (λ layout. Alters layout request_tree HoldsRequests (λ rows. rows ++ new_certification c.request ∷ [])) };

    fn run<S: Alter>(&self, tx: &mut Transaction<'_, S>) -> Result<(), StoreFault> {
        let body = certification_text(self.alloc, self.request.certification)?;
        insert_request(
            tx,
            self.request.number,
            self.request.account,
            kind_number(Kind::Certification),
            body.as_str(),
        )
    }
}

/// What was decided on a request.
#[derive(Clone, Copy)]
pub(crate) struct DecidedRequest {
    pub number: u64,
    pub status: RequestStatus,
}

/// The number of a status.
fn status_number(status: RequestStatus) -> u32
    ensures { result ≡ status_number status }
{
    match status {
        RequestStatus::Initial => 0,
        RequestStatus::Approved(_) => 1,
        RequestStatus::Rejected => 2,
    }
}

/// What a status gave, as its column keeps it. It is Refused where it is too large.
fn given(status: RequestStatus) -> Result<ValueRef<'static>, StoreFault>
    ensures { IfOk result (λ given. parameter given ≡ or_null whole (given_number status)) }
{
    match status {
        RequestStatus::Approved(number) => fitting(number),
        RequestStatus::Initial | RequestStatus::Rejected => Ok(ValueRef::Null),
    }
}

impl Work for DecidedRequest {
    ghost use Rattle.acvp_tables.specs.Changes.{changed, is_request, with_status};
    ghost use Rattle.acvp_store.specs.Alters.{Alters};
    ghost use Rattle.acvp_store.specs.Connection.{UnderStore};
    ghost use Rattle.acvp_store.specs.Stands.{request_tree, HoldsRequests};

    ghost change = { λ r. UnderStore
        (λ layout. Alters layout request_tree HoldsRequests (changed (is_request r.number) (with_status r.status))) };

    fn run<S: Alter>(&self, tx: &mut Transaction<'_, S>) -> Result<(), StoreFault> {
        let number = fitting(self.number)?;
        let approved = given(self.status)?;
        perform(
            tx,
            "UPDATE request SET status = ?2, approved = ?3 WHERE request = ?1",
            &[number, status_number(self.status).to_sql(), approved],
        )
    }
}

/// The body of a kind's number and a text. It is Refused where the text isn't that of such a body.
fn kept_body(kind: u32, text: String) -> Result<RequestBody, StoreFault>
    ensures known { IfOk result (λ found. (b : Body) → IsReadable b → kind ≡ body_number b
        → string_bytes text ≡ body_text b → found ≡ b) }
    ensures judged { IfOk result (λ found. (kind ≡ body_number found) × (string_bytes text ≡ body_text found)
        × IsJudgedBody found) }
    ensures refused { IfErr result (λ fault. fault ≡ StoreFault.Refused → (b : Body) → IsReadable b → FitsBody b
        → kind ≡ body_number b → string_bytes text ≢ body_text b) }
{
    if kind == 4 {
        Ok(RequestBody::Certification(certification(text)?))
    } else {
        Ok(RequestBody::Registration(kept_object(kind, text)?))
    }
}

impl Member for RequestRow {
    ghost use Rattle.std.specs.Prelude.{◌<◌, ◌^◌};
    ghost use Rattle.std.specs.Prelude.{IsUtf8};
    ghost use Rattle.acvp_store.specs.Stands.{body_text};
    ghost use Rattle.acvp_store.specs.Private.Requests.{FitsBody, IsJudgedRequest};
    ghost use Rattle.acvp_tables.specs.declared.rows.RequestRow.{RequestRow as Request};
    ghost use Rattle.acvp_store.specs.Private.Requests.{request_shown, IsReadable};

    ghost shown = { request_shown };

    ghost reads = { λ r. IsReadable r.body };

    ghost fits = { λ r. (r.account < 2 ^ 16) × FitsBody r.body × IsUtf8 (body_text r.body) };

    ghost judged_so = { IsJudgedRequest };

    fn read(row: &Row) -> Result<RequestRow, StoreFault> {
        let number: u64 = field(row, 0)?;
        let account = account_number(row, 1)?;
        let kind: u32 = field(row, 2)?;
        let text: String = field(row, 3)?;
        let decided: u32 = field(row, 4)?;
        let given: Option<u64> = field(row, 5)?;
        Ok(RequestRow {
            number,
            account,
            body: kept_body(kind, text)?,
            status: status(decided, given)?,
        })
    }
}

/// The request that was found, without the object that it asks to register.
fn summarized(
    found: Result<Option<RequestRow>, StoreFault>,
) -> Result<Option<RequestSummary>, StoreFault>
    ensures told { IfOk result (λ told. IfOk found (λ row. told ≡ option_map request_summary row)) }
    ensures refused { IfErr result (λ fault. found ≡ Err fault) }
    ensures ok { IsOk result → IsOk found }
{
    match found {
        Ok(Some(row)) => Ok(Some(RequestSummary::of(&row))),
        Ok(None) => Ok(None),
        Err(fault) => Err(fault),
    }
}

/// The request of a number, with all that its row has. It is Refused where the request's row isn't that of one, whatever
/// it asks for.
pub(crate) fn find_whole_request<S: Alter>(
    conn: &mut Connection<S>,
    number: u64,
) -> Result<Option<RequestRow>, StoreFault>
    requires { ServesStore (state S.Store conn.old) }
    ensures found { IsTrue (state S.Store conn.new).is_open
        → IfOk result (λ found. (c : Content) → AreWellNumbered c
        → HoldsRequests ((state S.Store conn.old).now.trees request_tree) c.requests
        → found ≡ request_at number c.requests) }
    ensures judged { IsTrue (state S.Store conn.new).is_open → number < 2 ^ 63
        → IfOk result (λ _. AreMet (is_under number) request_columns request_shown IsJudgedRequest
        ((state S.Store conn.old).now.trees request_tree)) }
    ensures read { IsRead result (state S.Store conn.old) (state S.Store conn.new) }
{
    answered(asked(
        conn,
        "SELECT request, account, kind, body, status, approved FROM request WHERE request = ?1",
        &[key(number)],
    ))
}

/// The request of a number, without the object that it asks to register. It is Refused as above.
pub(crate) fn find_request<S: Alter>(
    conn: &mut Connection<S>,
    number: u64,
) -> Result<Option<RequestSummary>, StoreFault>
    requires { ServesStore (state S.Store conn.old) }
    ensures found { IsTrue (state S.Store conn.new).is_open
        → IfOk result (λ found. (c : Content) → AreWellNumbered c
        → HoldsRequests ((state S.Store conn.old).now.trees request_tree) c.requests
        → found ≡ option_map request_summary (request_at number c.requests)) }
    ensures judged { IsTrue (state S.Store conn.new).is_open → number < 2 ^ 63
        → IfOk result (λ _. AreMet (is_under number) request_columns request_shown IsJudgedRequest
        ((state S.Store conn.old).now.trees request_tree)) }
    ensures read { IsRead result (state S.Store conn.old) (state S.Store conn.new) }
{
    summarized(find_whole_request(conn, number))
}

/// What was decided on the request of a number.
pub(crate) fn find_status<S: Alter>(
    conn: &mut Connection<S>,
    number: u64,
) -> Result<Option<RequestStatus>, StoreFault>
    requires { ServesStore (state S.Store conn.old) }
    ensures found { IsTrue (state S.Store conn.new).is_open
        → IfOk result (λ found. (requests : List Request)
        → HoldsRequests ((state S.Store conn.old).now.trees request_tree) requests
        → found ≡ option_map (λ row. row.status) (request_at number requests)) }
    ensures judged { IsTrue (state S.Store conn.new).is_open → number < 2 ^ 63
        → IfOk result (λ _. AreMet (is_under number) status_columns status_shown (λ _. ⊤)
        ((state S.Store conn.old).now.trees request_tree)) }
    ensures read { IsRead result (state S.Store conn.old) (state S.Store conn.new) }
{
    answered(asked(
        conn,
        "SELECT status, approved FROM request WHERE request = ?1",
        &[key(number)],
    ))
}

/// So many requests of an account, from the offset on, without the objects that they ask to register.
pub(crate) fn page_requests<S: Alter>(
    alloc: Global,
    conn: &mut Connection<S>,
    account: u16,
    offset: u64,
    limit: u64,
) -> Result<Vec<RequestSummary>, StoreFault>
    requires { ServesStore (state S.Store conn.old) }
    ensures found { IsTrue (state S.Store conn.new).is_open
        → IfOk result (λ found. (c : Content) → AreWellNumbered c
        → HoldsRequests ((state S.Store conn.old).now.trees request_tree) c.requests
        → found.items ≡ page offset limit (map request_summary (requests_of account c.requests))) }
    ensures read { IsRead result (state S.Store conn.old) (state S.Store conn.new) }
{
    let at = page_of(account, offset, limit);
    listed(
        alloc,
        asked(
            conn,
            "SELECT request, account, kind, CASE WHEN kind = 4 THEN body END, status, approved FROM request WHERE request BETWEEN ?1 AND ?2 ORDER BY request LIMIT ?3",
            &[at.first, at.last, at.limit],
        ),
    )
}
