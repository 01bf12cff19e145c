//! What an account owns is looked up: the objects of its registries, and its requests.

ghost use Rattle.std.specs.Prelude.{true, ◌≡◌, is_some, IfErr, IfOk, option_map};
ghost use Rattle.acvp_tables.specs.Calls.{Finds};
ghost use Rattle.acvp_tables.specs.Content.{request_summary};
ghost use Rattle.acvp_tables.specs.State.{state_of};
ghost use Rattle.acvp_desk.specs.Asked.{is_named, certification_grounds, has_own_parts, has_own_vendor};
ghost use Rattle.acvp_desk.specs.Asked.{object_grounds};
ghost use Rattle.acvp_desk.specs.Place.{registry_place, registry_wish};
ghost use Rattle.acvp_desk.specs.Registries.{kind_of, objects_page, own_object, own_request, requests_page};
ghost use Rattle.acvp_desk.specs.Serves.{Looks, Sees};
ghost use Rattle.acvp_desk.specs.Private.Within.{is_of_registry};

use crate::body::object_read;
use crate::found::{Grounds, ObjectRows, ObjectsPage, RegistryPlace, RequestRows, RequestsPage};
use crate::numbers::is_of_account;
use crate::wish::{Registry, RegistryWish};
use acvp_json::{CertifyBody, Page};
use acvp_policy::Rule;
use acvp_registry::{Kind, Object};
use acvp_tables::{Counted, ObjectRow, RequestSummary, StoreFault, Tables, numbers_name};
use std::alloc::Global;

// ---- an account's rows by their numbers

/// Whether the object of a kind and number is there, and an account's.
fn owns<T: Tables>(
    tables: &mut T,
    kind: Kind,
    account: u16,
    number: u64,
) -> Result<bool, StoreFault>
    ensures found { Finds T.meaning (λ x. x) result tables.old tables.new
        (λ c. is_some (own_object kind account number c.objects)) }
    ensures looks { Looks T.meaning result tables.old tables.new }
    ensures fault { IfErr result T.faults }
{
    match tables.owner(kind, number)? {
        Some(owner) => Ok(owner == account),
        None => Ok(false),
    }
}

/// Whether an account has the object of a kind and number. A row of another account is never read for it.
#[tactic(auto, unfolding(acvp_tables::specs::State::state_of))]
fn has_object<T: Tables>(
    tables: &mut T,
    kind: Kind,
    account: u16,
    number: u64,
) -> Result<bool, StoreFault>
    ensures found { Sees T.meaning result tables.old tables.new
        (λ seeds c. is_some (own_object kind account number c.objects)) }
    ensures looks { Looks T.meaning result tables.old tables.new }
{
    numbers_name();
    if !is_of_account(number, account) {
        return Ok(false);
    }
    owns(tables, kind, account, number)
}

/// The object of a kind and number, where it is an account's. Its whole row is read: one that stands for nothing is a
/// fault.
#[tactic(auto, unfolding(acvp_tables::specs::State::state_of))]
pub(crate) fn own_object<T: Tables>(
    tables: &mut T,
    kind: Kind,
    account: u16,
    number: u64,
) -> Result<Option<ObjectRow>, StoreFault>
    ensures found { Finds T.meaning (λ x. x) result tables.old tables.new
        (λ c. own_object kind account number c.objects) }
    ensures looks { Looks T.meaning result tables.old tables.new }
    ensures fault { IfErr result T.faults }
{
    numbers_name();
    if !is_of_account(number, account) {
        return Ok(None);
    }
    match tables.object(kind, number)? {
        Some(row) if row.account == account => Ok(Some(row)),
        _ => Ok(None),
    }
}

/// The request of a number, where it is an account's.
#[tactic(auto, unfolding(acvp_tables::specs::State::state_of))]
fn own_request<T: Tables>(
    tables: &mut T,
    account: u16,
    number: u64,
) -> Result<Option<RequestSummary>, StoreFault>
    ensures found { Sees T.meaning result tables.old tables.new
        (λ seeds c. option_map request_summary (own_request account number c.requests)) }
    ensures looks { Looks T.meaning result tables.old tables.new }
{
    numbers_name();
    if !is_of_account(number, account) {
        return Ok(None);
    }
    match tables.request(number)? {
        Some(row) if row.account == account => Ok(Some(row)),
        _ => Ok(None),
    }
}

// ---- its lists

/// A page of what a registry holds, where the query is one.
fn objects_page<T: Tables>(
    tables: &mut T,
    registry: Registry,
    account: u16,
    page: Option<Page>,
) -> Result<Option<ObjectsPage>, StoreFault>
    ensures found { Sees T.meaning result tables.old tables.new
        (λ seeds c. option_map (objects_page (kind_of registry) account c.objects) page) }
    ensures asked { IfOk result (λ found. option_map (λ found. found.page) found ≡ page) }
    ensures looks { Looks T.meaning result tables.old tables.new }
{
    let Some(page) = page else {
        return Ok(None);
    };
    let kind = registry.kind();
    let total = tables.count(account, Counted::Objects(kind))?;
    let rows = tables.objects(kind, account, page.offset, page.limit)?;
    Ok(Some(ObjectsPage {
        page,
        total,
        objects: ObjectRows { rows },
    }))
}

/// A page of an account's requests, where the query is one.
fn requests_page<T: Tables>(
    tables: &mut T,
    account: u16,
    page: Option<Page>,
) -> Result<Option<RequestsPage>, StoreFault>
    ensures found { Sees T.meaning result tables.old tables.new
        (λ seeds c. option_map (requests_page account c.requests) page) }
    ensures asked { IfOk result (λ found. option_map (λ found. found.page) found ≡ page) }
    ensures looks { Looks T.meaning result tables.old tables.new }
{
    let Some(page) = page else {
        return Ok(None);
    };
    let total = tables.count(account, Counted::Requests)?;
    let rows = tables.requests(account, page.offset, page.limit)?;
    Ok(Some(RequestsPage {
        page,
        total,
        requests: RequestRows { rows },
    }))
}

// ---- what a body names

/// Whether the vendor that an object names, if any, is an account's.
fn has_own_vendor<T: Tables>(
    tables: &mut T,
    account: u16,
    object: &Object,
) -> Result<bool, StoreFault>
    ensures found { Sees T.meaning result tables.old tables.new
        (λ seeds c. has_own_vendor account c.objects object.now) }
    ensures looks { Looks T.meaning result tables.old tables.new }
{
    match object.vendor() {
        Some(vendor) => has_object(tables, Kind::Vendor, account, vendor),
        None => Ok(true),
    }
}

/// Whether the module and the environment are an account's, by their whole rows.
fn has_own_parts<T: Tables>(
    tables: &mut T,
    account: u16,
    body: CertifyBody,
) -> Result<bool, StoreFault>
    ensures found { Sees T.meaning result tables.old tables.new (λ seeds c. has_own_parts account c.objects body) }
    ensures looks { Looks T.meaning result tables.old tables.new }
{
    let module_row = own_object(tables, Kind::Module, account, body.module)?;
    let environment_row = own_object(tables, Kind::Environment, account, body.environment)?;
    Ok(module_row.is_some() && environment_row.is_some())
}

/// Whether what is read of the body of a registration names what is an account's.
fn object_named<T: Tables>(
    tables: &mut T,
    account: u16,
    object: &Result<Object, Rule>,
) -> Result<bool, StoreFault>
    ensures found { Sees T.meaning result tables.old tables.new
        (λ seeds c. is_named object.now (has_own_vendor account c.objects)) }
    ensures looks { Looks T.meaning result tables.old tables.new }
{
    match object {
        Ok(object) => has_own_vendor(tables, account, object),
        Err(_) => Ok(true),
    }
}

/// Whether what is read of the body of a certification names what is an account's.
fn certification_named<T: Tables>(
    tables: &mut T,
    account: u16,
    parts: &Result<CertifyBody, Rule>,
) -> Result<bool, StoreFault>
    ensures found { Sees T.meaning result tables.old tables.new
        (λ seeds c. is_named parts.now (has_own_parts account c.objects)) }
    ensures looks { Looks T.meaning result tables.old tables.new }
{
    match parts {
        Ok(parts) => has_own_parts(tables, account, *parts),
        Err(_) => Ok(true),
    }
}

/// What a registration is judged by, beside what is read of its body.
#[tactic(auto, unfolding(acvp_tables::specs::State::state_of))]
fn object_grounds<T: Tables>(
    tables: &mut T,
    account: u16,
    object: &Result<Object, Rule>,
) -> Result<Grounds, StoreFault>
    ensures found { Sees T.meaning result tables.old tables.new
        (λ seeds c. object_grounds account object.now (state_of c)) }
    ensures looks { Looks T.meaning result tables.old tables.new }
{
    let named = object_named(tables, account, object)?;
    let requests = tables.count(account, Counted::Requests)?;
    Ok(Grounds { requests, named })
}

/// What a certification is judged by, beside what is read of its body.
#[tactic(auto, unfolding(acvp_tables::specs::State::state_of))]
pub(crate) fn certification_grounds<T: Tables>(
    tables: &mut T,
    account: u16,
    parts: &Result<CertifyBody, Rule>,
) -> Result<Grounds, StoreFault>
    ensures found { Sees T.meaning result tables.old tables.new
        (λ seeds c. certification_grounds account parts.now (state_of c)) }
    ensures looks { Looks T.meaning result tables.old tables.new }
{
    let named = certification_named(tables, account, parts)?;
    let requests = tables.count(account, Counted::Requests)?;
    Ok(Grounds { requests, named })
}

// ---- all of it

/// What is found of an account's registries and requests for what is asked of them.
#[tactic(auto, unfolding(acvp_tables::specs::State::state_of))]
pub(crate) fn registry_place<T: Tables>(
    alloc: Global,
    tables: &mut T,
    account: u16,
    body: &[u8],
    wish: RegistryWish,
) -> Result<RegistryPlace, StoreFault>
    ensures found { Sees T.meaning result tables.old tables.new
        (λ seeds c. registry_place account body.now (state_of c) wish) }
    ensures asked { IfOk result (λ place. registry_wish place ≡ wish) }
    ensures within { IfOk result (λ place. is_of_registry place ≡ true) }
    ensures looks { Looks T.meaning result tables.old tables.new }
{
    match wish {
        RegistryWish::Read(registry, number) => {
            let row = own_object(tables, registry.kind(), account, number)?;
            Ok(RegistryPlace::Object(registry, number, row))
        }
        RegistryWish::New(registry) => {
            let object = object_read(alloc, registry.kind(), body)?;
            let grounds = object_grounds(tables, account, &object)?;
            Ok(RegistryPlace::New(registry, object, grounds))
        }
        RegistryWish::List(registry, page) => {
            let found = objects_page(tables, registry, account, page)?;
            Ok(RegistryPlace::Objects(registry, found))
        }
        RegistryWish::ReadRequest(number) => {
            let row = own_request(tables, account, number)?;
            Ok(RegistryPlace::Request(number, row))
        }
        RegistryWish::ListRequests(page) => {
            Ok(RegistryPlace::Requests(requests_page(tables, account, page)?))
        }
    }
}
