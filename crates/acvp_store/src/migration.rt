//! The statements that move the tables of an earlier schema to those of schema 3.
ghost use Rattle.sqlite.specs.Held.{state};
ghost use Rattle.acvp_store.specs.Connection.{IsReady, IsWritten, Under, UnderStore};
ghost use Rattle.acvp_store.specs.Migrated.{Moves};
ghost use Rattle.acvp_store.specs.Schema.{Migrated, schema_of, First, Second, Created, first_schema, second_schema};
ghost use Rattle.acvp_store.specs.Schema.{schema_at};
ghost use Rattle.acvp_store.specs.Private.Migration.{version_of, CopiesSets, EmptiesOldSets, RaisesVersion};

use crate::setup::StoreTable;
use crate::work::{Then, Work, commit, perform};
use acvp_tables::StoreFault;
use sqlite::{Alter, Connection, Transaction};

/// The earlier schemas: the first one; the second as it is made in a new database; and the second where the tables of
/// the first were there before, so that the table `vset` stands beside `vset2`.
#[derive(Clone, Copy)]
pub(crate) enum Earlier {
    First,
    Second,
    SecondBeside,
}

/// The vector sets of schema 1, which become those of epoch 0.
#[derive(Clone, Copy)]
pub(crate) struct SetsCopied;

impl Work for SetsCopied {
    ghost use Rattle.acvp_store.specs.Connection.{Under};
    ghost use Rattle.acvp_store.specs.Schema.{Migrated, schema_of};
    ghost use Rattle.acvp_store.specs.Private.Migration.{CopiesSets};

    ghost change = { λ _. Under (schema_of Migrated) CopiesSets };

    fn run<S: Alter>(&self, tx: &mut Transaction<'_, S>) -> Result<(), StoreFault> {
        perform(
            tx,
            "INSERT INTO vset2 (vs, session, capability, cancelled, answers, verdicts, disposition, epoch) SELECT vs, session, capability, cancelled, answers, verdicts, disposition, 0 FROM vset",
            &[],
        )
    }
}

/// The rows of the table of sets of schema 1, which are taken out.
#[derive(Clone, Copy)]
pub(crate) struct OldSetsDeleted;

impl Work for OldSetsDeleted {
    ghost use Rattle.acvp_store.specs.Connection.{Under};
    ghost use Rattle.acvp_store.specs.Schema.{Migrated, schema_of};
    ghost use Rattle.acvp_store.specs.Private.Migration.{EmptiesOldSets};

    ghost change = { λ _. Under (schema_of Migrated) EmptiesOldSets };

    fn run<S: Alter>(&self, tx: &mut Transaction<'_, S>) -> Result<(), StoreFault> {
        perform(tx, "DELETE FROM vset", &[])
    }
}

/// The version that `meta` names, which becomes 3.
#[derive(Clone, Copy)]
pub(crate) struct VersionRaised;

impl Work for VersionRaised {
    ghost use Rattle.acvp_store.specs.Connection.{UnderStore};
    ghost use Rattle.acvp_store.specs.Private.Migration.{RaisesVersion};

    ghost change = { λ _. UnderStore RaisesVersion };

    fn run<S: Alter>(&self, tx: &mut Transaction<'_, S>) -> Result<(), StoreFault> {
        perform(tx, "UPDATE meta SET value = 3 WHERE name = 'schema'", &[])
    }
}

/// Moves schema 1 to schema 3.
fn move_first<S: Alter>(connection: &mut Connection<S>) -> Result<(), StoreFault>
    requires { IsReady (state S.Store connection.old) }
    ensures { IsWritten result (state S.Store connection.old) (state S.Store connection.new)
        (Under first_schema (Moves First)) }
{
    let named = Then {
        first: OldSetsDeleted,
        second: VersionRaised,
    };
    let moved = Then {
        first: SetsCopied,
        second: named,
    };
    let all = Then {
        first: StoreTable::LaterSet,
        second: Then {
            first: StoreTable::LaterReviewer,
            second: moved,
        },
    };
    commit(connection, &all)
}

/// Moves schema 2 to schema 3, as it is made in a new database.
fn move_second<S: Alter>(connection: &mut Connection<S>) -> Result<(), StoreFault>
    requires { IsReady (state S.Store connection.old) }
    ensures { IsWritten result (state S.Store connection.old) (state S.Store connection.new)
        (Under (second_schema Created) (Moves (Second Created))) }
{
    let work = Then {
        first: StoreTable::Reviewer,
        second: VersionRaised,
    };
    commit(connection, &work)
}

/// Moves schema 2 to schema 3, where the table of sets of schema 1 stands beside the later one.
fn move_second_beside<S: Alter>(connection: &mut Connection<S>) -> Result<(), StoreFault>
    requires { IsReady (state S.Store connection.old) }
    ensures { IsWritten result (state S.Store connection.old) (state S.Store connection.new)
        (Under (second_schema Migrated) (Moves (Second Migrated))) }
{
    let work = Then {
        first: StoreTable::LaterReviewer,
        second: VersionRaised,
    };
    commit(connection, &work)
}

/// Moves an earlier schema to schema 3, in one transaction.
pub(crate) fn move_earlier<S: Alter>(
    connection: &mut Connection<S>,
    from: Earlier,
) -> Result<(), StoreFault>
    requires { IsReady (state S.Store connection.old) }
    ensures { IsWritten result (state S.Store connection.old) (state S.Store connection.new)
        (Under (schema_at (version_of from)) (Moves (version_of from))) }
{
    match from {
        Earlier::First => move_first(connection),
        Earlier::Second => move_second(connection),
        Earlier::SecondBeside => move_second_beside(connection),
    }
}
