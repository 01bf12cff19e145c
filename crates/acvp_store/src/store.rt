//! The records in SQL tables.
ghost use Rattle.std.specs.Prelude.{◌≡◌, ◌↔◌, ◌⊎◌, IsTrue, IfOk, IfErr, MatchResult};
ghost use Rattle.sqlite.specs.Effect.{IsDatabase};
ghost use Rattle.sqlite.specs.Held.{state};
ghost use Rattle.sqlite.specs.State.{HasCleanDisk};
ghost use Rattle.sqlite.specs.Steps.{over_memory};
ghost use Rattle.acvp_store.specs.Adopted.{IsAdopted, IsOurs};
ghost use Rattle.acvp_store.specs.Version.{HasVersion};
ghost use Rattle.acvp_tables.specs.Calls.{Changes, Finds, Reads};
ghost use Rattle.acvp_tables.specs.Content.{no_rows, request_at};
ghost use Rattle.acvp_tables.specs.Changes.{after, after_order};
ghost use Rattle.acvp_tables.specs.declared.change.Change.TheVariants as change;
ghost use Rattle.acvp_tables.specs.declared.change.OrderChange.TheVariants as order;
ghost use Rattle.acvp_store.specs.Connection.{IsSettled, IsReady, IsHandedBack, ServesStore, IsWritten, LeavesNoMore};
ghost use Rattle.acvp_store.specs.Connection.{LeavesSo, Under};
ghost use Rattle.acvp_store.specs.Migrated.{IsKnown, IsMigrated, IsAfterMigration, IsOf};
ghost use Rattle.acvp_store.specs.Schema.{Created, Migrated, no_schema, schema_of, schema_at};
ghost use Rattle.acvp_store.specs.Private.Migration.{version_of, IsEarlierOf};
ghost use Rattle.acvp_store.specs.Store.{may_fail, meaning_of, stands, Begins, BecomesMigrated, IsOpen};
ghost use Rattle.acvp_store.specs.Store.{IsNoStore, IsNoStoreOfAny, IsOldOrMigrated, TakesOver, TakesOverAny};

use crate::accounts::{DisabledAccount, find_account};
use crate::counts::{find_count, find_counts};
use crate::fault::{AdoptFault, adopt_fault};
use crate::migration::{Earlier, move_earlier};
use crate::objects::{Registered, find_object, find_owner, page_objects};
use crate::requests::{
    CertificationAsked, DecidedRequest, find_request, find_status, find_whole_request,
    page_requests,
};
use crate::reviewers::{ReviewerAdded, ReviewerRemoved, find_reviewer, find_reviewers};
use crate::same::{same_front, same_schema};
use crate::sessions::{
    CancelledSession, CertifiedSession, CountedSession, PassedSession, SessionBegun, find_session,
    page_sessions,
};
use crate::set_texts::{find_capability, find_verdicts};
use crate::sets::{GradedSet, SetCancelled, SetsBegun, find_epoch, find_set, find_sets};
use crate::setup::{StoreTable, Version};
use crate::version::{has_old_sets, has_version, is_earlier};
use crate::work::{Then, commit};
use acvp_answers::Verdict;
use acvp_caps::Capability;
use acvp_policy::{Grant, release};
use acvp_registry::{Counts, Kind};
use acvp_tables::{
    AccountRow, Approval, CancelledSet, Change, Counted, KeptAnswers, NewAccount, NewCertification,
    NewRequest, NewSession, ObjectRow, OrderChange, RequestRow, RequestStatus, RequestSummary,
    ReviewerRow, SessionRow, SetSummary, StoreFault, Tables, UsedStep,
};
use sqlite::{Alter, Connection, MemStore};
use std::alloc::Global;
use std::marker::Model;

mod reads;

/// The records in the tables of a database, in memory or in a file.
#[derive(Drop)]
pub struct SqlTables<S: Alter> {
    alloc: Global,
    connection: Connection<S>,
}

impl<S: Alter> Model for SqlTables<S> {
    ghost use Rattle.sqlite.specs.Held.{Held, held_code, state};
    ghost use Rattle.acvp_store.specs.Connection.{ServesStore};

    ghost Value = { Held S };

    ghost coded = { held_code S.code };

    ghost view = { λ t. t.connection };

    ghost invariant = { λ t. ServesStore (state S.Store t.connection) };
}

/// Whether the database has no table, no index and no view.
fn is_empty<S: Alter>(connection: &Connection<S>) -> bool
    ensures empty { IsTrue result → (state S.Store connection.now).now.schema ≡ no_schema }
    ensures sound { IsTrue (state S.Store connection.now).is_open → IsDatabase (state S.Store connection.now).now }
{
    let schema = connection.schema();
    schema.tables.as_slice().is_empty()
        && schema.indexes.as_slice().is_empty()
        && schema.views.as_slice().is_empty()
}

/// Makes the tables, and the row that names the schema's version, in one transaction.
fn make_tables<S: Alter>(connection: &mut Connection<S>) -> Result<(), StoreFault>
    requires { IsReady (state S.Store connection.old) }
    ensures { IsWritten result (state S.Store connection.old) (state S.Store connection.new) (Under no_schema Begins) }
{
    let last = Then {
        first: StoreTable::Reviewer,
        second: Version,
    };
    let requests = Then {
        first: StoreTable::Object,
        second: Then {
            first: StoreTable::Request,
            second: last,
        },
    };
    let sessions = Then {
        first: StoreTable::Session,
        second: Then {
            first: StoreTable::Set,
            second: requests,
        },
    };
    let tables = Then {
        first: StoreTable::Meta,
        second: Then {
            first: StoreTable::Account,
            second: sessions,
        },
    };
    commit(connection, &tables)
}

/// Makes the tables of a new store in a database that has none, without a row in them. With another table in the
/// database the schema wouldn't be the store's. A fault hands the connection back, and the database is as it was. The
/// memory is for the texts of the rows.
pub fn create<S: Alter>(
    alloc: Global,
    mut connection: Connection<S>,
) -> Result<SqlTables<S>, (Connection<S>, StoreFault)>
    ensures tables { IfOk result (λ t. IsTrue (state S.Store t).is_open
        → (state S.Store t).now.schema ≡ schema_of Created) }
    ensures begins { IfOk result (λ t. IsTrue (state S.Store t).is_open → stands S.Store t no_rows) }
    ensures fresh { IfOk result (λ t. (state S.Store connection).now.schema ≡ no_schema) }
    ensures stays_open { IfOk result (λ t. HasCleanDisk (state S.Store t) → IsTrue (state S.Store connection).is_open
        → IsOpen S.Store t) }
    ensures unchanged { IfErr result (λ e. IsTrue (state S.Store e.0).is_open
        → IsHandedBack (state S.Store connection) (state S.Store e.0)) }
    ensures limit { IfOk result (λ t. (state S.Store t).step_limit ≡ (state S.Store connection).step_limit) }
{
    if !connection.is_autocommit() {
        return Err((connection, StoreFault::Refused));
    }
    if !is_empty(&connection) {
        return Err((connection, StoreFault::Refused));
    }
    match make_tables(&mut connection) {
        Ok(()) => Ok(SqlTables { alloc, connection }),
        Err(fault) => Err((connection, fault)),
    }
}

/// The connection to a new store in memory.
fn created_in_memory(alloc: Global) -> Result<Connection<MemStore>, StoreFault>
    ensures { IfOk result (λ connection. (state over_memory connection).now.schema ≡ schema_of Created) }
{
    let connection = Connection::open_in_memory(alloc)?;
    match create(alloc, connection) {
        Ok(tables) => Ok(tables.connection),
        Err((_, fault)) => Err(fault),
    }
}

/// Makes the tables as they lie where those of the first schema were there before them, in one transaction. `meta`
/// names no version.
fn make_migrated_tables<S: Alter>(connection: &mut Connection<S>) -> Result<(), StoreFault>
    requires { IsReady (state S.Store connection.old) }
    ensures { IsWritten result (state S.Store connection.old) (state S.Store connection.new)
        (Under no_schema BecomesMigrated) }
{
    let last = Then {
        first: StoreTable::LaterSet,
        second: StoreTable::LaterReviewer,
    };
    let requests = Then {
        first: StoreTable::LaterObject,
        second: Then {
            first: StoreTable::LaterRequest,
            second: last,
        },
    };
    let sessions = Then {
        first: StoreTable::Session,
        second: Then {
            first: StoreTable::OldSet,
            second: requests,
        },
    };
    let tables = Then {
        first: StoreTable::Meta,
        second: Then {
            first: StoreTable::Account,
            second: sessions,
        },
    };
    commit(connection, &tables)
}

/// The connection to a database in memory with the tables as they lie where those of the first schema were there before
/// them.
fn migrated_in_memory(alloc: Global) -> Result<Connection<MemStore>, StoreFault>
    ensures { IfOk result (λ connection. (state over_memory connection).now.schema ≡ schema_of Migrated) }
{
    let mut connection = Connection::open_in_memory(alloc)?;
    if !connection.is_autocommit() || !is_empty(&connection) {
        return Err(StoreFault::Refused);
    }
    make_migrated_tables(&mut connection)?;
    Ok(connection)
}

/// Whether the tables of a database are the store's, as `create` makes them.
fn is_created<S: Alter>(alloc: Global, connection: &Connection<S>) -> Result<bool, StoreFault>
    ensures same { IfOk result (λ has. IsTrue has ↔ ((state S.Store connection.now).now.schema ≡ schema_of Created)) }
    ensures sound { IfOk result (λ has. IsTrue (state S.Store connection.now).is_open
        → IsDatabase (state S.Store connection.now).now) }
{
    let ours = created_in_memory(alloc)?;
    match same_schema(alloc, connection.schema(), ours.schema()) {
        Ok(same) => Ok(same),
        Err(_) => Err(StoreFault::Memory),
    }
}

/// Whether the tables of a database are the store's, where those of the first schema were there before them.
fn is_migrated<S: Alter>(alloc: Global, connection: &Connection<S>) -> Result<bool, StoreFault>
    ensures { IfOk result (λ has. IsTrue has ↔ ((state S.Store connection.now).now.schema ≡ schema_of Migrated)) }
{
    let ours = migrated_in_memory(alloc)?;
    match same_schema(alloc, connection.schema(), ours.schema()) {
        Ok(same) => Ok(same),
        Err(_) => Err(StoreFault::Memory),
    }
}

/// Takes over a database whose tables are the store's, where `meta` names their version.
fn adopt_named<S: Alter>(
    alloc: Global,
    mut connection: Connection<S>,
) -> Result<SqlTables<S>, (Connection<S>, AdoptFault)>
    requires { ServesStore (state S.Store connection) }
    ensures named { IfOk result (λ t. IsTrue (state S.Store t).is_open → IsTrue (state S.Store connection).is_open
        × HasVersion 3 (state S.Store connection).now.trees
        × ((state S.Store t).now ≡ (state S.Store connection).now)) }
    ensures stays_open { IfOk result (λ t. HasCleanDisk (state S.Store t) → HasCleanDisk (state S.Store connection)
        × IsTrue (state S.Store connection).is_open × IsOpen S.Store t) }
    ensures schema { IfErr result (λ e. e.1 ≡ AdoptFault.Schema → IsTrue (state S.Store e.0).is_open
        → IsTrue (state S.Store connection).is_open × ¬ HasVersion 3 (state S.Store connection).now.trees) }
    ensures open { IfErr result (λ e. e.1 ≡ AdoptFault.Schema → HasCleanDisk (state S.Store e.0)
        → IsTrue (state S.Store connection).is_open → IsTrue (state S.Store e.0).is_open) }
    ensures unchanged { IfErr result (λ e. IsTrue (state S.Store e.0).is_open
        → IsHandedBack (state S.Store connection) (state S.Store e.0)) }
    ensures limit { IfOk result (λ t. (state S.Store t).step_limit ≡ (state S.Store connection).step_limit) }
    ensures left { MatchResult result (λ t. LeavesNoMore (state S.Store connection) (state S.Store t))
        (λ e. LeavesNoMore (state S.Store connection) (state S.Store e.0)) }
    ensures was_clean { IfErr result (λ e. HasCleanDisk (state S.Store e.0) → HasCleanDisk (state S.Store connection)) }
{
    match has_version(&mut connection, 3) {
        Ok(true) => Ok(SqlTables { alloc, connection }),
        Ok(false) => Err((connection, AdoptFault::Schema)),
        Err(fault) => Err((connection, adopt_fault(fault))),
    }
}

/// Takes over a database whose tables are the store's, where those of the first schema were there before them: its
/// table of sets has to be empty.
fn adopt_migrated<S: Alter>(
    alloc: Global,
    mut connection: Connection<S>,
) -> Result<SqlTables<S>, (Connection<S>, AdoptFault)>
    requires { IsTrue (state S.Store connection).is_open → IsSettled (state S.Store connection)
        × ((state S.Store connection).now.schema ≡ schema_of Migrated) × IsDatabase (state S.Store connection).now }
    ensures adopted { IfOk result (λ t. IsTrue (state S.Store t).is_open
        → IsAdopted (state S.Store connection) (state S.Store t)) }
    ensures stays_open { IfOk result (λ t. HasCleanDisk (state S.Store t) → IsTrue (state S.Store connection).is_open
        × IsOpen S.Store t) }
    ensures schema { IfErr result (λ e. e.1 ≡ AdoptFault.Schema → IsTrue (state S.Store e.0).is_open
        → ¬ IsOurs (state S.Store connection).now) }
    ensures open { IfErr result (λ e. e.1 ≡ AdoptFault.Schema → HasCleanDisk (state S.Store e.0)
        → IsTrue (state S.Store connection).is_open → IsTrue (state S.Store e.0).is_open) }
    ensures unchanged { IfErr result (λ e. IsTrue (state S.Store e.0).is_open
        → IsHandedBack (state S.Store connection) (state S.Store e.0)) }
    ensures limit { IfOk result (λ t. (state S.Store t).step_limit ≡ (state S.Store connection).step_limit) }
    ensures left { MatchResult result (λ t. LeavesNoMore (state S.Store connection) (state S.Store t))
        (λ e. LeavesNoMore (state S.Store connection) (state S.Store e.0)) }
{
    match has_old_sets(&mut connection) {
        Ok(false) => adopt_named(alloc, connection),
        Ok(true) => Err((connection, AdoptFault::Schema)),
        Err(fault) => Err((connection, adopt_fault(fault))),
    }
}

/// Takes over a database whose tables are the store's, with the rows that are there. Beside them an empty table `vset`
/// of an earlier schema may stand, as a migration leaves it. A fault hands the connection back, and the database is as
/// it was: Schema where the tables aren't exactly these, where `vset` has a row, or where `meta` lacks the row that
/// names their version. The memory is for the texts of the rows.
pub fn adopt<S: Alter>(
    alloc: Global,
    connection: Connection<S>,
) -> Result<SqlTables<S>, (Connection<S>, AdoptFault)>
    ensures adopted { IfOk result (λ t. IsTrue (state S.Store t).is_open
        → IsAdopted (state S.Store connection) (state S.Store t)) }
    ensures found { IfOk result (TakesOver S.Store connection) }
    ensures stays_open { IfOk result (λ t. HasCleanDisk (state S.Store t) → IsTrue (state S.Store connection).is_open
        × IsOpen S.Store t) }
    ensures schema { IfErr result (λ e. e.1 ≡ AdoptFault.Schema → IsTrue (state S.Store e.0).is_open
        → ¬ IsOurs (state S.Store connection).now) }
    ensures open { IfErr result (λ e. e.1 ≡ AdoptFault.Schema → HasCleanDisk (state S.Store e.0)
        → IsTrue (state S.Store connection).is_open → IsTrue (state S.Store e.0).is_open) }
    ensures recognized { IfErr result (λ e. e.1 ≡ AdoptFault.Schema → IsNoStore S.Store connection e.0) }
    ensures unchanged { IfErr result (λ e. IsTrue (state S.Store e.0).is_open
        → IsHandedBack (state S.Store connection) (state S.Store e.0)) }
    ensures limit { IfOk result (λ t. (state S.Store t).step_limit ≡ (state S.Store connection).step_limit) }
    ensures left { MatchResult result (λ t. LeavesNoMore (state S.Store connection) (state S.Store t))
        (λ e. LeavesNoMore (state S.Store connection) (state S.Store e.0)) }
{
    if !connection.is_autocommit() {
        return Err((connection, AdoptFault::Refused));
    }
    match is_created(alloc, &connection) {
        Ok(true) => return adopt_named(alloc, connection),
        Ok(false) => {}
        Err(fault) => return Err((connection, adopt_fault(fault))),
    }
    match is_migrated(alloc, &connection) {
        Ok(true) => adopt_migrated(alloc, connection),
        Ok(false) => Err((connection, AdoptFault::Schema)),
        Err(fault) => Err((connection, adopt_fault(fault))),
    }
}

/// Which of the earlier schemas the tables of a database are of, if of one.
fn earlier_of<S: Alter>(
    alloc: Global,
    connection: &Connection<S>,
) -> Result<Option<Earlier>, StoreFault>
    ensures earlier { IfOk result (IsEarlierOf (state S.Store connection.now).now.schema) }
    ensures sound { IfOk result (λ from. IsTrue (state S.Store connection.now).is_open
        → IsDatabase (state S.Store connection.now).now) }
{
    let created = created_in_memory(alloc)?;
    let migrated = migrated_in_memory(alloc)?;
    let schema = connection.schema();
    if same_front(alloc, schema, migrated.schema(), 6, 2)? {
        return Ok(Some(Earlier::First));
    }
    if same_front(alloc, schema, created.schema(), 6, 2)? {
        return Ok(Some(Earlier::Second));
    }
    if same_front(alloc, schema, migrated.schema(), 7, 2)? {
        return Ok(Some(Earlier::SecondBeside));
    }
    Ok(None)
}

/// Takes over a database with the tables of an earlier schema, once they are moved to those of schema 3.
fn migrate_from<S: Alter>(
    alloc: Global,
    mut connection: Connection<S>,
    from: Earlier,
) -> Result<SqlTables<S>, (Connection<S>, AdoptFault)>
    requires { IsTrue (state S.Store connection).is_open → IsSettled (state S.Store connection)
        × ((state S.Store connection).now.schema ≡ schema_at (version_of from))
        × IsDatabase (state S.Store connection).now }
    ensures migrated { IfOk result (λ t. IsTrue (state S.Store t).is_open
        → IsMigrated (state S.Store connection) (state S.Store t)) }
    ensures stays_open { IfOk result (λ t. HasCleanDisk (state S.Store t) → IsTrue (state S.Store connection).is_open
        × IsOpen S.Store t) }
    ensures schema { IfErr result (λ e. e.1 ≡ AdoptFault.Schema → IsTrue (state S.Store e.0).is_open
        → ¬ IsOf (version_of from) (state S.Store connection).now) }
    ensures open { IfErr result (λ e. e.1 ≡ AdoptFault.Schema → HasCleanDisk (state S.Store e.0)
        → IsTrue (state S.Store connection).is_open → IsTrue (state S.Store e.0).is_open) }
    ensures unchanged { IfErr result (λ e. IsTrue (state S.Store e.0).is_open
        → IsHandedBack (state S.Store connection) (state S.Store e.0)) }
    ensures limit { IfOk result (λ t. (state S.Store t).step_limit ≡ (state S.Store connection).step_limit) }
    ensures left { IfErr result
        (λ e. LeavesSo (state S.Store connection) (state S.Store e.0)
        (λ db. (db ≡ (state S.Store connection).committed.trees)
        ⊎ IsAfterMigration (state S.Store connection).now db)) }
{
    match is_earlier(&mut connection, from) {
        Ok(true) => {}
        Ok(false) => return Err((connection, AdoptFault::Schema)),
        Err(fault) => return Err((connection, adopt_fault(fault))),
    }
    match move_earlier(&mut connection, from) {
        Ok(()) => Ok(SqlTables { alloc, connection }),
        Err(fault) => Err((connection, adopt_fault(fault))),
    }
}

/// Takes over a database with the tables of schema 1, 2 or 3. Those of the first two are moved to schema 3, in one
/// transaction: the vector sets of schema 1 get epoch 0, and no session has a reviewer; over schema 3 it is `adopt`. A
/// fault hands the connection back, and the database is as it was: Schema where the tables aren't exactly those of one
/// of the three, or `meta` lacks the row that names their version. The memory is for the texts of the rows.
pub fn migrate<S: Alter>(
    alloc: Global,
    connection: Connection<S>,
) -> Result<SqlTables<S>, (Connection<S>, AdoptFault)>
    ensures migrated { IfOk result (λ t. IsTrue (state S.Store t).is_open
        → IsMigrated (state S.Store connection) (state S.Store t)) }
    ensures stays_open { IfOk result (λ t. HasCleanDisk (state S.Store t) → IsTrue (state S.Store connection).is_open
        × IsOpen S.Store t) }
    ensures found { IfOk result (TakesOverAny S.Store connection) }
    ensures schema { IfErr result (λ e. e.1 ≡ AdoptFault.Schema → IsTrue (state S.Store e.0).is_open
        → ¬ IsKnown (state S.Store connection).now) }
    ensures open { IfErr result (λ e. e.1 ≡ AdoptFault.Schema → HasCleanDisk (state S.Store e.0)
        → IsTrue (state S.Store connection).is_open → IsTrue (state S.Store e.0).is_open) }
    ensures recognized { IfErr result (λ e. e.1 ≡ AdoptFault.Schema → IsNoStoreOfAny S.Store connection e.0) }
    ensures unchanged { IfErr result (λ e. IsTrue (state S.Store e.0).is_open
        → IsHandedBack (state S.Store connection) (state S.Store e.0)) }
    ensures limit { IfOk result (λ t. (state S.Store t).step_limit ≡ (state S.Store connection).step_limit) }
    ensures settled { IfOk result
        (λ t. LeavesSo (state S.Store connection) (state S.Store t) (λ db. db ≡ (state S.Store t).now.trees)) }
    ensures left { IfErr result
        (λ e. LeavesSo (state S.Store connection) (state S.Store e.0)
        (λ db. (db ≡ (state S.Store connection).committed.trees)
        ⊎ IsAfterMigration (state S.Store connection).now db)) }
    ensures crash { IfErr result (λ e. LeavesSo (state S.Store connection) (state S.Store e.0)
        (IsOldOrMigrated (state S.Store connection).committed.trees)) }
{
    if !connection.is_autocommit() {
        return Err((connection, AdoptFault::Refused));
    }
    match earlier_of(alloc, &connection) {
        Ok(None) => adopt(alloc, connection),
        Ok(Some(from)) => migrate_from(alloc, connection, from),
        Err(fault) => Err((connection, adopt_fault(fault))),
    }
}

impl<S: Alter> SqlTables<S> {
    /// The connection, with the same rows.
    pub fn into_connection(self) -> Connection<S>
        ensures { result ≡ self }
    {
        let SqlTables { connection, .. } = self;
        connection
    }

    /// Adds an account.
    pub(crate) fn add_account(&mut self, account: &NewAccount) -> Result<(), StoreFault>
        ensures { Changes may_fail (meaning_of S.Store) result self.old self.new
            (after_order (order.AddAccount account.now)) }
    {
        commit(&mut self.connection, account)
    }

    /// Disables the account of a number.
    pub(crate) fn disable_account(&mut self, account: u16) -> Result<(), StoreFault>
        ensures { Changes may_fail (meaning_of S.Store) result self.old self.new
            (after_order (order.DisableAccount account)) }
    {
        commit(&mut self.connection, &DisabledAccount { account })
    }

    /// Notes the time step of a one-time code that an account has used.
    pub(crate) fn use_step(&mut self, used: &UsedStep) -> Result<(), StoreFault>
        ensures { Changes may_fail (meaning_of S.Store) result self.old self.new (after (change.UseStep used.now)) }
    {
        commit(&mut self.connection, used)
    }

    /// Cancels the test session of a number.
    pub(crate) fn cancel_session(&mut self, number: u64) -> Result<(), StoreFault>
        ensures { Changes may_fail (meaning_of S.Store) result self.old self.new (after (change.CancelSession number)) }
    {
        commit(&mut self.connection, &CancelledSession { number })
    }

    /// Cancels a vector set, and notes how many its session has without it.
    pub(crate) fn cancel_set(&mut self, set: &CancelledSet) -> Result<(), StoreFault>
        ensures { Changes may_fail (meaning_of S.Store) result self.old self.new (after (change.CancelSet set.now)) }
    {
        let cancelled = SetCancelled { number: set.set };
        let counted = CountedSession {
            number: set.session,
            live: set.live,
            passed: set.passed,
        };
        commit(
            &mut self.connection,
            &Then {
                first: cancelled,
                second: counted,
            },
        )
    }

    /// Keeps answers to a vector set, and notes how many sets of its session have passed with them.
    pub(crate) fn keep_answers(&mut self, kept: &KeptAnswers) -> Result<(), StoreFault>
        ensures { Changes may_fail (meaning_of S.Store) result self.old self.new (after (change.KeepAnswers kept.now)) }
    {
        let graded = GradedSet {
            alloc: self.alloc,
            number: kept.set,
            graded: &kept.graded,
        };
        let passed = PassedSession {
            number: kept.session,
            passed: kept.passed,
        };
        commit(
            &mut self.connection,
            &Then {
                first: graded,
                second: passed,
            },
        )
    }

    /// Begins a test session with its vector sets.
    pub(crate) fn new_session(&mut self, session: &NewSession) -> Result<(), StoreFault>
        ensures { Changes may_fail (meaning_of S.Store) result self.old self.new
            (after (change.NewSession session.now)) }
    {
        let begun = SessionBegun { session };
        let sets = SetsBegun {
            alloc: self.alloc,
            session,
        };
        commit(
            &mut self.connection,
            &Then {
                first: begun,
                second: sets,
            },
        )
    }

    /// Takes a request for the registration of an object.
    pub(crate) fn new_request(&mut self, request: &NewRequest) -> Result<(), StoreFault>
        ensures { Changes may_fail (meaning_of S.Store) result self.old self.new
            (after (change.NewRequest request.now)) }
    {
        commit(&mut self.connection, request)
    }

    /// Takes a request for the certification of a test session, and notes it with the session.
    pub(crate) fn certify(&mut self, request: &NewCertification) -> Result<(), StoreFault>
        ensures { Changes may_fail (meaning_of S.Store) result self.old self.new (after (change.Certify request.now)) }
    {
        let asked = CertificationAsked {
            alloc: self.alloc,
            request: *request,
        };
        let certified = CertifiedSession {
            number: request.certification.session,
            request: request.number,
        };
        commit(
            &mut self.connection,
            &Then {
                first: asked,
                second: certified,
            },
        )
    }

    /// Lets an account read a test session's results. Where it may already, nothing changes.
    pub(crate) fn add_reviewer(&mut self, reviewer: &ReviewerRow) -> Result<(), StoreFault>
        ensures { Changes may_fail (meaning_of S.Store) result self.old self.new
            (after (change.AddReviewer reviewer.now)) }
    {
        match find_reviewer(&mut self.connection, reviewer.session, reviewer.account) {
            Ok(true) => Ok(()),
            Ok(false) => commit(
                &mut self.connection,
                &ReviewerAdded {
                    reviewer: *reviewer,
                },
            ),
            Err(fault) => Err(fault),
        }
    }

    /// Lets an account read a test session's results no more.
    pub(crate) fn remove_reviewer(&mut self, reviewer: &ReviewerRow) -> Result<(), StoreFault>
        ensures { Changes may_fail (meaning_of S.Store) result self.old self.new
            (after (change.RemoveReviewer reviewer.now)) }
    {
        commit(
            &mut self.connection,
            &ReviewerRemoved {
                reviewer: *reviewer,
            },
        )
    }

    /// The request of a number, with the object that it asks to register.
    pub fn whole_request(&mut self, number: u64) -> Result<Option<RequestRow>, StoreFault>
        ensures found { Finds (meaning_of S.Store) (λ x. x) result self.old self.new
            (λ c. request_at number c.requests) }
        ensures reads { Reads may_fail (meaning_of S.Store) result self.old self.new }
    {
        find_whole_request(&mut self.connection, number)
    }

    /// Rejects the request of a number.
    pub(crate) fn reject(&mut self, number: u64) -> Result<(), StoreFault>
        ensures { Changes may_fail (meaning_of S.Store) result self.old self.new (after_order (order.Reject number)) }
    {
        commit(
            &mut self.connection,
            &DecidedRequest {
                number,
                status: RequestStatus::Rejected,
            },
        )
    }

    /// Approves a request, and registers what it asks to register.
    pub(crate) fn approve(&mut self, approval: &Approval) -> Result<(), StoreFault>
        ensures { Changes may_fail (meaning_of S.Store) result self.old self.new
            (after_order (order.Approve approval.now)) }
    {
        let registered = Registered {
            request: approval.request,
            number: approval.approved,
        };
        let decided = DecidedRequest {
            number: approval.request,
            status: RequestStatus::Approved(approval.approved),
        };
        commit(
            &mut self.connection,
            &Then {
                first: registered,
                second: decided,
            },
        )
    }
}

impl<S: Alter> Tables for SqlTables<S> {
    ghost use Rattle.std.proofs.Common.{◌∙◌, sym, ap, inl};
    ghost use Rattle.sqlite.specs.Effect.{Database};
    ghost use Rattle.acvp_store.specs.Store.{may_fail, meaning_of};
    ghost use Rattle.acvp_store.specs.Private.Clean.{open_is_clean, open_or_shut};
    ghost use Rattle.acvp_store.specs.Private.Found.{store_of};

    ghost faults = { may_fail };

    ghost meaning = { meaning_of S.Store };

    ghost decides = { λ t. open_or_shut (S.Store.view t.store).is_open };

    ghost clean = { λ t live. open_is_clean (S.Store.shut_if_dirty t.store) live };

    ghost rests = { λ t c d live h clean db may.
        let now : Database = record { schema = t.schema; trees = (S.Store.view t.store).trees } in
        let settled = S.Store.settled t.store db live may in
        inl (store_of h.0 now db h.1 (sym (settled ∙ ap (λ (x : Database). x.trees) (sym (h.3 live).ready.settled)))
        (h.3 live).sound c h.2) };

    fn account(&mut self, number: u16) -> Result<Option<AccountRow>, StoreFault> {
        find_account(&mut self.connection, number)
    }

    fn session(&mut self, number: u64) -> Result<Option<SessionRow>, StoreFault> {
        find_session(&mut self.connection, number)
    }

    fn set(&mut self, number: u64) -> Result<Option<SetSummary>, StoreFault> {
        find_set(self.alloc, &mut self.connection, number)
    }

    fn capability(&mut self, set: u64) -> Result<Option<Capability>, StoreFault> {
        find_capability(self.alloc, &mut self.connection, set)
    }

    fn verdicts(&mut self, set: u64) -> Result<Option<Vec<Verdict>>, StoreFault> {
        find_verdicts(self.alloc, &mut self.connection, set)
    }

    fn sets_of(&mut self, session: u64) -> Result<Vec<SetSummary>, StoreFault> {
        find_sets(self.alloc, &mut self.connection, session)
    }

    fn object(&mut self, kind: Kind, number: u64) -> Result<Option<ObjectRow>, StoreFault> {
        find_object(&mut self.connection, kind, number)
    }

    fn owner(&mut self, kind: Kind, number: u64) -> Result<Option<u16>, StoreFault> {
        find_owner(&mut self.connection, kind, number)
    }

    fn request(&mut self, number: u64) -> Result<Option<RequestSummary>, StoreFault> {
        find_request(&mut self.connection, number)
    }

    fn request_status(&mut self, number: u64) -> Result<Option<RequestStatus>, StoreFault> {
        find_status(&mut self.connection, number)
    }

    fn is_reviewer(&mut self, session: u64, account: u16) -> Result<bool, StoreFault> {
        find_reviewer(&mut self.connection, session, account)
    }

    fn reviewers_of(&mut self, session: u64) -> Result<Vec<u16>, StoreFault> {
        find_reviewers(self.alloc, &mut self.connection, session)
    }

    fn count(&mut self, account: u16, of: Counted) -> Result<u64, StoreFault> {
        find_count(&mut self.connection, account, of)
    }

    fn counts(&mut self, account: u16) -> Result<Counts, StoreFault> {
        find_counts(&mut self.connection, account)
    }

    fn sessions(
        &mut self,
        account: u16,
        offset: u64,
        limit: u64,
    ) -> Result<Vec<SessionRow>, StoreFault> {
        page_sessions(self.alloc, &mut self.connection, account, offset, limit)
    }

    fn objects(
        &mut self,
        kind: Kind,
        account: u16,
        offset: u64,
        limit: u64,
    ) -> Result<Vec<ObjectRow>, StoreFault> {
        page_objects(
            self.alloc,
            &mut self.connection,
            kind,
            account,
            offset,
            limit,
        )
    }

    fn requests(
        &mut self,
        account: u16,
        offset: u64,
        limit: u64,
    ) -> Result<Vec<RequestSummary>, StoreFault> {
        page_requests(self.alloc, &mut self.connection, account, offset, limit)
    }

    fn greatest_epoch(&mut self) -> Result<Option<u64>, StoreFault> {
        find_epoch(&mut self.connection)
    }

    fn apply(&mut self, grant: Grant, change: &Change) -> Result<(), StoreFault> {
        release(grant);
        match change {
            Change::UseStep(used) => self.use_step(used),
            Change::NewSession(session) => self.new_session(session),
            Change::KeepAnswers(kept) => self.keep_answers(kept),
            Change::CancelSession(number) => self.cancel_session(*number),
            Change::CancelSet(set) => self.cancel_set(set),
            Change::NewRequest(request) => self.new_request(request),
            Change::Certify(request) => self.certify(request),
            Change::AddReviewer(reviewer) => self.add_reviewer(reviewer),
            Change::RemoveReviewer(reviewer) => self.remove_reviewer(reviewer),
        }
    }

    fn order(&mut self, change: &OrderChange) -> Result<(), StoreFault> {
        match change {
            OrderChange::AddAccount(account) => self.add_account(account),
            OrderChange::DisableAccount(account) => self.disable_account(*account),
            OrderChange::Approve(approval) => self.approve(approval),
            OrderChange::Reject(number) => self.reject(*number),
        }
    }
}
