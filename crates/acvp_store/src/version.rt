//! The version that the table `meta` names, and what is left of an earlier one. The tables alone tell which schema it
//! is; then `meta` has to name that one.
ghost use Rattle.std.specs.Prelude.{◌≡◌, ◌↔◌, nat_lt, length, [], IsTrue, IfOk};
ghost use Rattle.std.specs.List.{list_any};
ghost use Rattle.sqlite.specs.Held.{state};
ghost use Rattle.acvp_store.specs.Version.{is_version_row, HasVersion};
ghost use Rattle.acvp_store.specs.Connection.{IsSettled, IsRead};
ghost use Rattle.acvp_store.specs.Stands.{HasNoOldSetsAt};
ghost use Rattle.acvp_store.specs.Schema.{Migrated, schema_at, second_schema, version_number, IsKnownSchema};
ghost use Rattle.acvp_store.specs.Private.Migration.{version_of, HasOldTable};

use crate::migration::Earlier;
use crate::queries::asked;
use crate::reviewers::any;
use acvp_tables::StoreFault;
use sqlite::types::ToSql;
use sqlite::{Alter, Connection};

/// Whether `meta` has the row 'schema' at a version.
pub(crate) fn has_version<S: Alter>(
    conn: &mut Connection<S>,
    version: u32,
) -> Result<bool, StoreFault>
    requires { IsTrue (state S.Store conn.old).is_open → IsSettled (state S.Store conn.old)
        × IsKnownSchema (state S.Store conn.old).now.schema }
    ensures found { IsTrue (state S.Store conn.new).is_open
        → IfOk result (λ found. found ≡ list_any (is_version_row version) ((state S.Store conn.old).now.trees 0)) }
    ensures read { IsRead result (state S.Store conn.old) (state S.Store conn.new) }
{
    any(asked(
        conn,
        "SELECT value FROM meta WHERE name = 'schema' AND value = ?1",
        &[version.to_sql()],
    ))
}

/// Whether the table of sets of schema 1, which stands beside the later one, has a row.
pub(crate) fn has_old_sets<S: Alter>(conn: &mut Connection<S>) -> Result<bool, StoreFault>
    requires { IsTrue (state S.Store conn.old).is_open → IsSettled (state S.Store conn.old)
        × HasOldTable (state S.Store conn.old).now.schema }
    ensures found { IsTrue (state S.Store conn.new).is_open
        → IfOk result (λ found. found ≡ nat_lt 0 (length ((state S.Store conn.old).now.trees 4))) }
    ensures read { IsRead result (state S.Store conn.old) (state S.Store conn.new) }
{
    any(asked(conn, "SELECT vs FROM vset", &[]))
}

/// Whether the rows are those of the earlier schema whose tables are there: `meta` names its version, and the table of
/// sets of schema 1 has no row where it stands beside the later one.
pub(crate) fn is_earlier<S: Alter>(
    conn: &mut Connection<S>,
    from: Earlier,
) -> Result<bool, StoreFault>
    requires { IsTrue (state S.Store conn.old).is_open → IsSettled (state S.Store conn.old)
        × ((state S.Store conn.old).now.schema ≡ schema_at (version_of from)) }
    ensures found { IsTrue (state S.Store conn.new).is_open
        → IfOk result (λ found. IsTrue found
        ↔ (HasVersion (version_number (version_of from)) (state S.Store conn.old).now.trees
        × HasNoOldSetsAt (version_of from) (state S.Store conn.old).now.trees)) }
    ensures read { IsRead result (state S.Store conn.old) (state S.Store conn.new) }
{
    match from {
        Earlier::First => has_version(conn, 1),
        Earlier::Second => has_version(conn, 2),
        Earlier::SecondBeside => is_second_beside(conn),
    }
}

/// The same of schema 2 where the table of sets of schema 1 stands beside the later one.
fn is_second_beside<S: Alter>(conn: &mut Connection<S>) -> Result<bool, StoreFault>
    requires { IsTrue (state S.Store conn.old).is_open → IsSettled (state S.Store conn.old)
        × ((state S.Store conn.old).now.schema ≡ second_schema Migrated) }
    ensures found { IsTrue (state S.Store conn.new).is_open → IfOk result (λ found. IsTrue found
        ↔ (HasVersion 2 (state S.Store conn.old).now.trees × ((state S.Store conn.old).now.trees 4 ≡ []))) }
    ensures read { IsRead result (state S.Store conn.old) (state S.Store conn.new) }
{
    match has_version(conn, 2) {
        Ok(true) => {}
        Ok(false) => return Ok(false),
        Err(fault) => return Err(fault),
    }
    match has_old_sets(conn) {
        Ok(found) => Ok(!found),
        Err(fault) => Err(fault),
    }
}
