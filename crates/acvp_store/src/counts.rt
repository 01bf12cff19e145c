//! How many rows an account has. Their numbers have no gaps, so the greatest of them tells.
ghost use Rattle.std.specs.Prelude.{MatchResult, ◌≡◌, ◌≢◌, ◌<◌, ◌*◌, ◌+◌, ℕ, length, IsTrue, IfErr, IfOk, IsOk};
ghost use Rattle.sqlite.specs.Held.{state};
ghost use Rattle.sqlite_value.specs.Order.{column};
ghost use Rattle.acvp_tables.specs.Content.{Content, sessions_of, objects_of, requests_of, count_of, counts_of};
ghost use Rattle.acvp_tables.specs.State.{AreWellNumbered};
ghost use Rattle.acvp_store.specs.Connection.{ServesStore, IsRead};
ghost use Rattle.acvp_store.specs.Rows.{session_tree, HoldsSessions};
ghost use Rattle.acvp_store.specs.Stands.{object_tree, request_tree, HoldsObjects, HoldsRequests};
ghost use Rattle.acvp_store.specs.Values.{whole};
ghost use Rattle.acvp_store.specs.Private.Pages.{greatest};

use crate::columns::field;
use crate::objects::kind_number;
use crate::pages::page_of;
use crate::queries::asked;
use acvp_registry::{Counts, Kind};
use acvp_tables::{Counted, StoreFault};
use sqlite::types::ToSql;
use sqlite::{Alter, Connection, Row};

/// How many rows an account has, by the query for their greatest number.
fn counted(account: u16, outcome: Result<Vec<Row>, StoreFault>) -> Result<u64, StoreFault>
    ensures found { IfOk result (λ found. IfOk outcome (λ rows. (n : ℕ) → rows.items ≡ greatest (account * 1000000) n
        → found ≡ n)) }
    ensures refused { IfErr result (λ fault. fault ≡ StoreFault.Refused
        → MatchResult outcome (λ rows. (n : ℕ) → rows.items ≢ greatest (account * 1000000) n)
        (λ fault. fault ≡ StoreFault.Refused)) }
    ensures ok { IsOk result → IsOk outcome }
{
    match outcome {
        Ok(rows) => match rows.first() {
            Some(row) => given_since(account, row),
            None => Ok(0),
        },
        Err(fault) => Err(fault),
    }
}

/// How many numbers an account has given up to that in a row.
fn given_since(account: u16, row: &Row) -> Result<u64, StoreFault>
    ensures given { IfOk result (λ n. column row.now 0 ≡ whole (account * 1000000 + n)) }
    ensures refused { IfErr result (λ fault. fault ≡ StoreFault.Refused → 0 < length row.now → (n : ℕ)
        → column row.now 0 ≢ whole (account * 1000000 + n)) }
{
    let number: u64 = field(row, 0)?;
    match number.checked_sub(u64::from(account) * 1000000) {
        Some(count) => Ok(count),
        None => Err(StoreFault::Refused),
    }
}

/// How many test sessions an account has.
fn count_sessions<S: Alter>(conn: &mut Connection<S>, account: u16) -> Result<u64, StoreFault>
    requires { ServesStore (state S.Store conn.old) }
    ensures found { IsTrue (state S.Store conn.new).is_open
        → IfOk result (λ found. (c : Content) → AreWellNumbered c
        → HoldsSessions ((state S.Store conn.old).now.trees session_tree) c.sessions
        → found ≡ length (sessions_of account c.sessions)) }
    ensures read { IsRead result (state S.Store conn.old) (state S.Store conn.new) }
{
    let at = page_of(account, 0, 0);
    counted(
        account,
        asked(
            conn,
            "SELECT session FROM session WHERE session BETWEEN ?1 AND ?2 ORDER BY session DESC LIMIT 1",
            &[at.first, at.last],
        ),
    )
}

/// How many registered objects of a kind an account has.
fn count_objects<S: Alter>(
    conn: &mut Connection<S>,
    kind: Kind,
    account: u16,
) -> Result<u64, StoreFault>
    requires { ServesStore (state S.Store conn.old) }
    ensures found { IsTrue (state S.Store conn.new).is_open
        → IfOk result (λ found. (c : Content) → AreWellNumbered c
        → HoldsObjects ((state S.Store conn.old).now.trees object_tree) c.objects
        → found ≡ length (objects_of kind account c.objects)) }
    ensures read { IsRead result (state S.Store conn.old) (state S.Store conn.new) }
{
    let at = page_of(account, 0, 0);
    counted(
        account,
        asked(
            conn,
            "SELECT number FROM object WHERE kind = ?3 AND number BETWEEN ?1 AND ?2 ORDER BY number DESC LIMIT 1",
            &[at.first, at.last, kind_number(kind).to_sql()],
        ),
    )
}

/// How many requests an account has.
fn count_requests<S: Alter>(conn: &mut Connection<S>, account: u16) -> Result<u64, StoreFault>
    requires { ServesStore (state S.Store conn.old) }
    ensures found { IsTrue (state S.Store conn.new).is_open
        → IfOk result (λ found. (c : Content) → AreWellNumbered c
        → HoldsRequests ((state S.Store conn.old).now.trees request_tree) c.requests
        → found ≡ length (requests_of account c.requests)) }
    ensures read { IsRead result (state S.Store conn.old) (state S.Store conn.new) }
{
    let at = page_of(account, 0, 0);
    counted(
        account,
        asked(
            conn,
            "SELECT request FROM request WHERE request BETWEEN ?1 AND ?2 ORDER BY request DESC LIMIT 1",
            &[at.first, at.last],
        ),
    )
}

/// How many of these rows an account has.
pub(crate) fn find_count<S: Alter>(
    conn: &mut Connection<S>,
    account: u16,
    of: Counted,
) -> Result<u64, StoreFault>
    requires { ServesStore (state S.Store conn.old) }
    ensures found { IsTrue (state S.Store conn.new).is_open
        → IfOk result (λ found. (c : Content) → AreWellNumbered c
        → HoldsSessions ((state S.Store conn.old).now.trees session_tree) c.sessions
        → HoldsObjects ((state S.Store conn.old).now.trees object_tree) c.objects
        → HoldsRequests ((state S.Store conn.old).now.trees request_tree) c.requests → found ≡ count_of of account c) }
    ensures read { IsRead result (state S.Store conn.old) (state S.Store conn.new) }
{
    match of {
        Counted::Sessions => count_sessions(conn, account),
        Counted::Objects(kind) => count_objects(conn, kind, account),
        Counted::Requests => count_requests(conn, account),
    }
}

/// How many rows an account has.
pub(crate) fn find_counts<S: Alter>(
    conn: &mut Connection<S>,
    account: u16,
) -> Result<Counts, StoreFault>
    requires { ServesStore (state S.Store conn.old) }
    ensures found { IsTrue (state S.Store conn.new).is_open
        → IfOk result (λ found. (c : Content) → AreWellNumbered c
        → HoldsSessions ((state S.Store conn.old).now.trees session_tree) c.sessions
        → HoldsObjects ((state S.Store conn.old).now.trees object_tree) c.objects
        → HoldsRequests ((state S.Store conn.old).now.trees request_tree) c.requests → found ≡ counts_of account c) }
    ensures read { IsRead result (state S.Store conn.old) (state S.Store conn.new) }
{
    let sessions = count_sessions(conn, account)?;
    let vendors = count_objects(conn, Kind::Vendor, account)?;
    let modules = count_objects(conn, Kind::Module, account)?;
    let environments = count_objects(conn, Kind::Environment, account)?;
    let requests = count_requests(conn, account)?;
    Ok(Counts {
        sessions,
        vendors,
        modules,
        environments,
        requests,
    })
}
