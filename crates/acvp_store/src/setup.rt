//! The tables of a new store.
ghost use Rattle.std.specs.Prelude.{◌≡◌};
ghost use Rattle.acvp_store.specs.Connection.{Under};
ghost use Rattle.acvp_store.specs.Schema.{Created, schema_of};
ghost use Rattle.acvp_store.specs.Private.Creating.{text_of, before, Makes, WritesVersion};

use crate::work::{Work, perform};
use acvp_tables::StoreFault;
use sqlite::{Alter, Transaction};

/// The tables, in the order in which they are made; and those that come after the sessions where the table of sets of
/// an earlier schema is among them.
#[derive(Clone, Copy)]
pub(crate) enum StoreTable {
    Meta,
    Account,
    Session,
    Set,
    Object,
    Request,
    Reviewer,
    OldSet,
    LaterObject,
    LaterRequest,
    LaterSet,
    LaterReviewer,
}

impl StoreTable {
    /// The statement that makes it.
    fn text(self) -> &'static str
        ensures { result.now ≡ text_of self }
    {
        match self {
            StoreTable::Meta => {
                "CREATE TABLE meta (name TEXT PRIMARY KEY NOT NULL, value INTEGER NOT NULL) STRICT"
            }
            StoreTable::Account => {
                "CREATE TABLE account (account INTEGER PRIMARY KEY, secret BLOB NOT NULL, enabled INTEGER NOT NULL, last_step INTEGER) STRICT"
            }
            StoreTable::Session => {
                "CREATE TABLE session (session INTEGER PRIMARY KEY, account INTEGER NOT NULL REFERENCES account, sample INTEGER NOT NULL, created INTEGER NOT NULL, cancelled INTEGER NOT NULL, certify INTEGER REFERENCES request, live INTEGER NOT NULL, passed INTEGER NOT NULL) STRICT"
            }
            StoreTable::Set | StoreTable::LaterSet => {
                "CREATE TABLE vset2 (vs INTEGER PRIMARY KEY, session INTEGER NOT NULL REFERENCES session, capability TEXT NOT NULL, cancelled INTEGER NOT NULL, answers TEXT, verdicts TEXT, disposition INTEGER, epoch INTEGER NOT NULL) STRICT"
            }
            StoreTable::Object | StoreTable::LaterObject => {
                "CREATE TABLE object (kind INTEGER NOT NULL, number INTEGER NOT NULL, account INTEGER NOT NULL REFERENCES account, body TEXT NOT NULL, PRIMARY KEY (kind, number)) STRICT"
            }
            StoreTable::Request | StoreTable::LaterRequest => {
                "CREATE TABLE request (request INTEGER PRIMARY KEY, account INTEGER NOT NULL REFERENCES account, kind INTEGER NOT NULL, body TEXT NOT NULL, status INTEGER NOT NULL, approved INTEGER) STRICT"
            }
            StoreTable::Reviewer | StoreTable::LaterReviewer => {
                "CREATE TABLE reviewer (session INTEGER NOT NULL REFERENCES session, account INTEGER NOT NULL, PRIMARY KEY (session, account)) STRICT"
            }
            StoreTable::OldSet => {
                "CREATE TABLE vset (vs INTEGER PRIMARY KEY, session INTEGER NOT NULL REFERENCES session, capability TEXT NOT NULL, cancelled INTEGER NOT NULL, answers TEXT, verdicts TEXT, disposition INTEGER) STRICT"
            }
        }
    }
}

impl Work for StoreTable {
    ghost use Rattle.acvp_store.specs.Connection.{Under};
    ghost use Rattle.acvp_store.specs.Private.Creating.{before, Makes};

    ghost change = { λ t. Under (before t) (Makes t) };

    fn run<S: Alter>(&self, tx: &mut Transaction<'_, S>) -> Result<(), StoreFault> {
        perform(tx, self.text(), &[])
    }
}

/// The row that names the schema's version.
#[derive(Clone, Copy)]
pub(crate) struct Version;

impl Work for Version {
    ghost use Rattle.acvp_store.specs.Connection.{Under};
    ghost use Rattle.acvp_store.specs.Schema.{Created, schema_of};
    ghost use Rattle.acvp_store.specs.Private.Creating.{WritesVersion};

    ghost change = { λ _. Under (schema_of Created) (WritesVersion 3) };

    fn run<S: Alter>(&self, tx: &mut Transaction<'_, S>) -> Result<(), StoreFault> {
        perform(
            tx,
            "INSERT INTO meta (name, value) VALUES ('schema', 3)",
            &[],
        )
    }
}
