//! What is read of the rows with an account's numbers.
ghost use Rattle.std.specs.Prelude.{◌≡◌, ◌++◌, ℤ, true, IsTrue, IfOk, IfErr, Ok, Err};
ghost use Rattle.std.specs.List.{AllByRecursion};
ghost use Rattle.sqlite.specs.Held.{state};
ghost use Rattle.acvp_registry.specs.declared.kind.Kind.{Kind as KindValue};
ghost use Rattle.acvp_tables.specs.Content.{is_kind, kind_number};
ghost use Rattle.acvp_store.specs.Connection.{IsRead};
ghost use Rattle.acvp_audit.specs.Read.{Blames, AreTests, AreOfKind, AreObjects, AreEntries, AreRowsOf, IsRegistrable};
ghost use Rattle.acvp_audit.specs.Wrong.{HasStray};
ghost use Rattle.acvp_audit.specs.Private.Climbs.{is_above, kind_climbs};
ghost use Rattle.acvp_audit.specs.Private.Looks.{Tells};
ghost use Rattle.acvp_audit.specs.declared.table.Table.{Table as TableValue};

use crate::table::Table;
use acvp_check::Rows;
use acvp_registry::Kind;
use acvp_store::{RangeFault, SqlTables};
use acvp_tables::{
    AccountRow, ObjectRow, RequestBody, RequestRow, ReviewerRow, SessionRow, SetRow, StoreFault,
};
use sqlite::Alter;
use std::alloc::{AllocError, Global};

/// Why an account's rows aren't told.
#[derive(Clone, Copy, Debug, PartialEq, Eq)]
pub(crate) enum Stop {
    /// The row of this number stands for nothing.
    Stray(Table, i64),

    /// A statement was refused, or memory ran out.
    Store(StoreFault),
}

/// What was read of a table, or why it isn't told.
fn read_of<T: Drop>(table: Table, found: Result<Vec<T>, RangeFault>) -> Result<Vec<T>, Stop>
    ensures same { IfOk result (λ rows. found ≡ Ok rows) }
    ensures stray { IfErr result (λ stop. (t : TableValue) (number : ℤ) → stop ≡ Stop.Stray t number
        → (t ≡ table) × (found ≡ Err (RangeFault.Stray number))) }
    ensures told { IfErr found (λ fault. (number : ℤ) → fault ≡ RangeFault.Stray number
        → result ≡ Err (Stop.Stray table number)) }
{
    match found {
        Ok(rows) => Ok(rows),
        Err(RangeFault::Stray(number)) => Err(Stop::Stray(table, number)),
        Err(RangeFault::Store(fault)) => Err(Stop::Store(fault)),
    }
}

/// The account, its sessions and their vector sets.
#[derive(Drop)]
struct Tests {
    accounts: Vec<AccountRow>,
    sessions: Vec<SessionRow>,
    sets: Vec<SetRow>,
}

/// What is read of them.
fn tests_of<S: Alter>(tables: &mut SqlTables<S>, account: u16) -> Result<Tests, Stop>
    ensures rows { Tells result (state S.Store tables.old) (state S.Store tables.new)
        (λ layout trees found. AreTests layout trees account found.accounts.items found.sessions.items
        found.sets.items) }
    ensures stray { Blames result (state S.Store tables.old) (state S.Store tables.new)
        (λ layout trees stop. (t : TableValue) (number : ℤ) → stop ≡ Stop.Stray t number
        → HasStray t account number layout trees) }
    ensures read { IsRead result (state S.Store tables.old) (state S.Store tables.new) }
{
    let accounts = read_of(Table::Account, tables.accounts_between(account, account))?;
    let sessions = read_of(Table::Session, tables.sessions_numbered(account))?;
    let sets = read_of(Table::Set, tables.sets_numbered(account))?;
    Ok(Tests {
        accounts,
        sessions,
        sets,
    })
}

/// Lists one after another.
fn joined(
    mut vendors: Vec<ObjectRow>,
    mut modules: Vec<ObjectRow>,
    mut environments: Vec<ObjectRow>,
) -> Result<Vec<ObjectRow>, Stop>
    ensures rows { IfOk result (λ found. found.items ≡ (vendors.items ++ modules.items) ++ environments.items) }
    ensures fault { IfErr result (λ stop. stop ≡ Stop.Store StoreFault.Memory) }
{
    if vendors.append(&mut modules).is_err() || vendors.append(&mut environments).is_err() {
        return Err(Stop::Store(StoreFault::Memory));
    }
    Ok(vendors)
}

/// The objects of a kind.
fn of_kind<S: Alter>(
    tables: &mut SqlTables<S>,
    kind: Kind,
    account: u16,
) -> Result<Vec<ObjectRow>, Stop>
    ensures rows { Tells result (state S.Store tables.old) (state S.Store tables.new)
        (λ layout trees found. AreOfKind (kind_number kind) trees account found.items) }
    ensures stray { Blames result (state S.Store tables.old) (state S.Store tables.new)
        (λ layout trees stop. (t : TableValue) (number : ℤ) → stop ≡ Stop.Stray t number
        → HasStray t account number layout trees) }
    ensures read { IsRead result (state S.Store tables.old) (state S.Store tables.new) }
{
    read_of(Table::Object, tables.objects_numbered(kind, account))
}

/// The objects of each kind, one kind after another.
fn objects_of<S: Alter>(tables: &mut SqlTables<S>, account: u16) -> Result<Vec<ObjectRow>, Stop>
    ensures rows { Tells result (state S.Store tables.old) (state S.Store tables.new)
        (λ layout trees found. AreObjects trees account found.items) }
    ensures stray { Blames result (state S.Store tables.old) (state S.Store tables.new)
        (λ layout trees stop. (t : TableValue) (number : ℤ) → stop ≡ Stop.Stray t number
        → HasStray t account number layout trees) }
    ensures read { IsRead result (state S.Store tables.old) (state S.Store tables.new) }
{
    let vendors = of_kind(tables, Kind::Vendor, account)?;
    let modules = of_kind(tables, Kind::Module, account)?;
    let environments = of_kind(tables, Kind::Environment, account)?;
    joined(vendors, modules, environments)
}

/// What was registered and asked for, and who reviews the account's sessions.
#[derive(Drop)]
struct Entries {
    objects: Vec<ObjectRow>,
    requests: Vec<RequestRow>,
    reviewers: Vec<ReviewerRow>,
}

/// What is read of them.
fn entries_of<S: Alter>(tables: &mut SqlTables<S>, account: u16) -> Result<Entries, Stop>
    ensures rows { Tells result (state S.Store tables.old) (state S.Store tables.new)
        (λ layout trees found. AreEntries layout trees account found.objects.items found.requests.items
        found.reviewers.items) }
    ensures stray { Blames result (state S.Store tables.old) (state S.Store tables.new)
        (λ layout trees stop. (t : TableValue) (number : ℤ) → stop ≡ Stop.Stray t number
        → HasStray t account number layout trees) }
    ensures read { IsRead result (state S.Store tables.old) (state S.Store tables.new) }
{
    let objects = objects_of(tables, account)?;
    let requests = read_of(Table::Request, tables.requests_numbered(account))?;
    let reviewers = read_of(Table::Reviewer, tables.reviewers_numbered(account))?;
    Ok(Entries {
        objects,
        requests,
        reviewers,
    })
}

/// Whether two kinds are the same.
fn is_kind(kind: Kind, other: Kind) -> bool
    ensures { result ≡ is_kind kind other }
{
    match kind {
        Kind::Vendor => matches!(other, Kind::Vendor),
        Kind::Module => matches!(other, Kind::Module),
        Kind::Environment => matches!(other, Kind::Environment),
        Kind::Certification => matches!(other, Kind::Certification),
    }
}

/// Whether a number is greater than the one before, where there is one.
fn is_above(before: Option<u64>, number: u64) -> bool
    ensures { result ≡ is_above before number }
{
    match before {
        None => true,
        Some(before) => before < number,
    }
}

/// Whether the numbers of the objects of a kind are each greater than the one before.
fn climbs(objects: &[ObjectRow], kind: Kind) -> bool
    ensures { result ≡ kind_climbs objects.now kind }
{
    let mut before = None;
    for row in objects {
        if is_kind(row.object.kind(), kind) {
            if !is_above(before, row.number) {
                return false;
            }
            before = Some(row.number);
        }
    }
    true
}

/// Those of each kind.
fn all_climb(objects: &[ObjectRow]) -> bool
    ensures { IsTrue result → (kind : KindValue) → kind_climbs objects.now kind ≡ true }
{
    climbs(objects, Kind::Vendor)
        && climbs(objects, Kind::Module)
        && climbs(objects, Kind::Environment)
        && climbs(objects, Kind::Certification)
}

/// The object of a registration is of one of the three kinds, as each is.
#[tactic(auto, using(crate::proofs::Kept::registered_kind))]
fn is_registrable(body: &RequestBody)
    ensures { IsRegistrable body.now }
{
    match body {
        RequestBody::Registration(object) => {
            let _ = object.kind();
        }
        RequestBody::Certification(_) => {}
    }
}

/// That of each request.
fn are_registrable(requests: &[RequestRow])
    ensures { AllByRecursion (λ row. IsRegistrable row.body) requests.now }
{
    for row in requests {
        is_registrable(&row.body);
    }
}

/// The rows with an account's numbers. Objects that aren't told in the order of their numbers are refused.
pub(crate) fn rows_of<S: Alter>(tables: &mut SqlTables<S>, account: u16) -> Result<Rows, Stop>
    ensures rows { Tells result (state S.Store tables.old) (state S.Store tables.new)
        (λ layout trees found. AreRowsOf layout trees account found) }
    ensures stray { Blames result (state S.Store tables.old) (state S.Store tables.new)
        (λ layout trees stop. (t : TableValue) (number : ℤ) → stop ≡ Stop.Stray t number
        → HasStray t account number layout trees) }
    ensures read { IsRead result (state S.Store tables.old) (state S.Store tables.new) }
{
    let tests = tests_of(tables, account)?;
    let entries = entries_of(tables, account)?;
    if !all_climb(&entries.objects) {
        return Err(Stop::Store(StoreFault::Refused));
    }
    are_registrable(&entries.requests);
    Ok(Rows {
        accounts: tests.accounts,
        sessions: tests.sessions,
        sets: tests.sets,
        objects: entries.objects,
        requests: entries.requests,
        reviewers: entries.reviewers,
    })
}
