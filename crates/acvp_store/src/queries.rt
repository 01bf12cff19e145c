//! Queries, whatever they ask for.
ghost use Rattle.std.specs.Prelude.{◌≡◌, ◌≢◌, IsTrue, IfOk, IfErr};
ghost use Rattle.sqlite.specs.Held.{state};
ghost use Rattle.sqlite.specs.State.{FailsToQuery, Shown};
ghost use Rattle.sqlite.specs.Values.{bound};
ghost use Rattle.sqlite.specs.declared.error.Error.{Error as Failure};
ghost use Rattle.acvp_store.specs.Connection.{IsReady, IsRead};
ghost use Rattle.acvp_store.specs.Private.Queries.{IsQuery};

use crate::fault::rows_in;
use acvp_tables::StoreFault;
use sqlite::types::ValueRef;
use sqlite::{Alter, Connection, Error, ErrorCode, Row};

/// The rows that a query shows.
pub(crate) fn asked<S: Alter>(
    conn: &mut Connection<S>,
    sql: &str,
    params: &[ValueRef<'_>],
) -> Result<Vec<Row>, StoreFault>
    ensures shown { IsTrue (state S.Store conn.new).is_open
        → IfOk result (λ rows. Shown sql.now (bound params.now) (state S.Store conn.old) (state S.Store conn.new)
        rows.items) }
    ensures refused { IsTrue (state S.Store conn.new).is_open
        → IfErr result (λ fault. fault ≡ StoreFault.Refused → (error : Failure)
        × (error ≢ Error.SqliteFailure ErrorCode.OutOfMemory)
        × FailsToQuery sql.now (bound params.now) (state S.Store conn.old) (state S.Store conn.new) error) }
    ensures read { IsReady (state S.Store conn.old) → IsQuery sql.now
        → IsRead result (state S.Store conn.old) (state S.Store conn.new) }
{
    rows_in(conn.query_all(sql, params))
}
