//! Work that one transaction does.
ghost use Rattle.std.specs.Prelude.{◌≡◌};
ghost use Rattle.sqlite.specs.Effect.{Database};
ghost use Rattle.sqlite.specs.Held.{state};
ghost use Rattle.sqlite.specs.Values.{bound};
ghost use Rattle.acvp_store.specs.Connection.{IsReady, IsInside, IsWritten, Both};
ghost use Rattle.acvp_store.specs.Private.Performed.{IsPerformed};

use crate::fault::{done, fault_of};
use acvp_tables::StoreFault;
use sqlite::types::ValueRef;
use sqlite::{Alter, Connection, Transaction};

/// What is done inside a transaction.
pub(crate) trait Work {
    /// What it makes of a database.
    ghost change: { Self → Database → Database → Type 0 };

    fn run<S: Alter>(&self, tx: &mut Transaction<'_, S>) -> Result<(), StoreFault>
        ensures same_reference { tx.new.conn.ghost_name ≡ tx.old.conn.ghost_name }
        ensures inside { IsInside result (state S.Store tx.old.conn.now) (state S.Store tx.new.conn.now)
            (change self.now) };
}

/// Executes one statement inside a transaction.
pub(crate) fn perform<S: Alter>(
    tx: &mut Transaction<'_, S>,
    sql: &str,
    params: &[ValueRef<'_>],
) -> Result<(), StoreFault>
    ensures same_reference { tx.new.conn.ghost_name ≡ tx.old.conn.ghost_name }
    ensures performed { IsPerformed result sql.now (bound params.now) (state S.Store tx.old.conn.now)
        (state S.Store tx.new.conn.now) }
{
    done(tx.execute(sql, params))
}

/// One work, and then another.
#[derive(Drop)]
pub(crate) struct Then<A, B> {
    pub first: A,
    pub second: B,
}

impl<A: Work, B: Work> Work for Then<A, B> {
    ghost use Rattle.acvp_store.specs.Connection.{Both};

    ghost change = { λ t. Both (A.change t.first) (B.change t.second) };

    fn run<S: Alter>(&self, tx: &mut Transaction<'_, S>) -> Result<(), StoreFault> {
        self.first.run(tx)?;
        self.second.run(tx)
    }
}

/// Does the work in one transaction, whole or not at all.
pub(crate) fn commit<S: Alter, W: Work>(
    conn: &mut Connection<S>,
    work: &W,
) -> Result<(), StoreFault>
    requires { IsReady (state S.Store conn.old) }
    ensures { IsWritten result (state S.Store conn.old) (state S.Store conn.new) (W.change work.now) }
{
    if !conn.is_autocommit() {
        return Err(StoreFault::Refused);
    }
    let mut tx = conn.transaction();
    match work.run(&mut tx) {
        Ok(()) => {}
        Err(fault) => return Err(fault),
    }
    match tx.commit() {
        Ok(()) => Ok(()),
        Err(error) => Err(fault_of(error)),
    }
}
