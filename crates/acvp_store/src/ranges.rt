//! Reads of the rows in a range of numbers, whatever these rows are.
ghost use Rattle.std.specs.Prelude.{◌≡◌, ℤ, pos, true, [], Some, None, IfOk, IfErr, IsOk, IsOkAnd, IsTrue, Ok};
ghost use Rattle.std.specs.List.{AllByRecursion};
ghost use Rattle.sqlite.specs.Held.{state};
ghost use Rattle.sqlite_value.specs.Order.{column};
ghost use Rattle.sqlite_value.specs.declared.value.Value.TheVariants.{Int};
ghost use Rattle.acvp_store.specs.Connection.{ServesStore, IsRead};
ghost use Rattle.acvp_store.specs.Ranges.{is_between, IsTree, AreFull, IsRange, HasStrayRow, HasRowOutside};
ghost use Rattle.acvp_store.specs.Ranges.{first_number, last_number};
ghost use Rattle.acvp_store.specs.Ranges.{IsAccountRow, FitsAccount, IsSessionRow, FitsSession};
ghost use Rattle.acvp_store.specs.Rows.{account_tree, account_key, HoldsAccounts};
ghost use Rattle.acvp_store.specs.Rows.{session_tree, session_key, HoldsSessions};
ghost use Rattle.acvp_store.specs.Private.Shown.{BeginsWith, AreLedBy, AreShown};
ghost use Rattle.acvp_store.specs.Private.Strays.{IsStray, HasStray};
ghost use Rattle.acvp_store.specs.Values.{whole};
ghost use Rattle.acvp_store.specs.Private.Performed.{parameter};

use crate::columns::field;
use crate::members::Member;
use crate::queries::asked;
use acvp_tables::{AccountRow, SessionRow, StoreFault};
use sqlite::types::{ToSql, ValueRef};
use sqlite::{Alter, Connection, Row};
use std::alloc::Global;

/// Why the rows of a range aren't told.
#[derive(Clone, Copy, Debug, PartialEq, Eq)]
pub enum RangeFault {
    /// The row of this number stands for nothing.
    Stray(i64),

    /// A statement was refused, or memory ran out.
    Store(StoreFault),
}

/// The number of a row that stands for nothing, which is in the column at a place.
fn stray(row: &Row, at: usize) -> RangeFault
    ensures { (number : ℤ) → result ≡ RangeFault.Stray number → column row.now at ≡ Int number }
{
    match field(row, at) {
        Ok(number) => RangeFault::Stray(number),
        Err(fault) => RangeFault::Store(fault),
    }
}

/// What a row is of. Its number is in the column at a place.
fn told<T: Member>(row: &Row, at: usize) -> Result<T, RangeFault>
    ensures judged { IfOk result (λ x. BeginsWith (T.Member.shown x) row.now × T.Member.judged_so x) }
    ensures stray { IfErr result (λ fault. (number : ℤ) → fault ≡ RangeFault.Stray number
        → IsStray (λ x. T.Member.reads x × T.Member.fits x) T.Member.shown at number row.now) }
{
    match T::read(row) {
        Ok(x) => Ok(x),
        Err(StoreFault::Refused) => Err(stray(row, at)),
        Err(StoreFault::Memory) => Err(RangeFault::Store(StoreFault::Memory)),
    }
}

/// What each row is of.
fn each_told<T: Member + Drop>(alloc: Global, rows: &[Row], at: usize) -> Result<Vec<T>, RangeFault>
    ensures judged { IfOk result (λ found. AreShown T.Member.judged_so T.Member.shown rows.now found.items) }
    ensures stray { IfErr result (λ fault. (number : ℤ) → fault ≡ RangeFault.Stray number
        → HasStray (λ x. T.Member.reads x × T.Member.fits x) T.Member.shown at number rows.now) }
{
    let mut found = Vec::new(alloc);
    for row in rows {
        let value = told(row, at)?;
        match found.push(value) {
            Ok(()) => {}
            Err(_) => return Err(RangeFault::Store(StoreFault::Memory)),
        }
    }
    Ok(found)
}

/// What the rows of a query's answer are of.
pub(crate) fn ranged<T: Member + Drop>(
    alloc: Global,
    outcome: Result<Vec<Row>, StoreFault>,
    at: usize,
) -> Result<Vec<T>, RangeFault>
    ensures judged { IfOk result
        (λ found. IfOk outcome (λ rows. AreShown T.Member.judged_so T.Member.shown rows.items found.items)) }
    ensures stray { IfErr result (λ fault. (number : ℤ) → fault ≡ RangeFault.Stray number → IsOkAnd outcome (λ rows.
        HasStray (λ x. T.Member.reads x × T.Member.fits x) T.Member.shown at number rows.items)) }
    ensures ok { IsOk result → IsOk outcome }
{
    match outcome {
        Ok(rows) => each_told(alloc, &rows, at),
        Err(fault) => Err(RangeFault::Store(fault)),
    }
}

/// The numbers of rows that begin with an account's.
#[derive(Clone, Copy)]
pub(crate) struct Numbers {
    pub first: ValueRef<'static>,
    pub last: ValueRef<'static>,
}

/// The numbers of an account's sessions, requests and objects.
pub(crate) fn numbers_of(account: u16) -> Numbers
    ensures first { parameter result.first ≡ whole (first_number account) }
    ensures last { parameter result.last ≡ whole (last_number account) }
{
    let first = i64::from(account) * 1000000;
    Numbers {
        first: ValueRef::Int(first),
        last: ValueRef::Int(first + 999999),
    }
}

/// The test sessions whose numbers begin with an account's, whatever the rows are.
pub(crate) fn sessions_numbered<S: Alter>(
    alloc: Global,
    conn: &mut Connection<S>,
    account: u16,
) -> Result<Vec<SessionRow>, RangeFault>
    requires { ServesStore (state S.Store conn.old) }
    ensures rows { IsTrue (state S.Store conn.new).is_open
        → IfOk result (λ found. IsTree ((state S.Store conn.old).now.trees session_tree)
        → IsRange HoldsSessions session_key (first_number account) (last_number account)
        ((state S.Store conn.old).now.trees session_tree) found.items) }
    ensures stray { IsTrue (state S.Store conn.new).is_open
        → IfErr result (λ fault. (number : ℤ) → fault ≡ RangeFault.Stray number
        → HasStrayRow HoldsSessions IsSessionRow FitsSession
        (is_between (first_number account) (last_number account)) 0 number
        ((state S.Store conn.old).now.trees session_tree)) }
    ensures read { IsRead result (state S.Store conn.old) (state S.Store conn.new) }
{
    let numbers = numbers_of(account);
    ranged(
        alloc,
        asked(
            conn,
            "SELECT session, account, sample, created, cancelled, certify, live, passed FROM session WHERE session BETWEEN ?1 AND ?2 ORDER BY session",
            &[numbers.first, numbers.last],
        ),
        0,
    )
}

/// The accounts with these numbers, whatever the rows are.
pub(crate) fn accounts_between<S: Alter>(
    alloc: Global,
    conn: &mut Connection<S>,
    first: u16,
    last: u16,
) -> Result<Vec<AccountRow>, RangeFault>
    requires { ServesStore (state S.Store conn.old) }
    ensures rows { IsTrue (state S.Store conn.new).is_open
        → IfOk result (λ found. IsTree ((state S.Store conn.old).now.trees account_tree)
        → AreFull 5 ((state S.Store conn.old).now.trees account_tree)
        → IsRange HoldsAccounts account_key first last ((state S.Store conn.old).now.trees account_tree) found.items) }
    ensures stray { IsTrue (state S.Store conn.new).is_open
        → IfErr result (λ fault. (number : ℤ) → fault ≡ RangeFault.Stray number
        → HasStrayRow HoldsAccounts IsAccountRow FitsAccount (is_between first last) 0 number
        ((state S.Store conn.old).now.trees account_tree)) }
    ensures read { IsRead result (state S.Store conn.old) (state S.Store conn.new) }
{
    ranged(
        alloc,
        asked(
            conn,
            "SELECT account, secret, enabled, last_step FROM account WHERE account BETWEEN ?1 AND ?2 ORDER BY account",
            &[u32::from(first).to_sql(), u32::from(last).to_sql()],
        ),
        0,
    )
}

/// The number in the first row of a query's answer, where there is one.
pub(crate) fn number_in(outcome: Result<Vec<Row>, StoreFault>) -> Result<Option<i64>, StoreFault>
    ensures none { IfOk result (λ found. IfOk outcome (λ rows. found ≡ None → rows.items ≡ [])) }
    ensures some { IfOk result (λ found. IfOk outcome (λ rows. (number : ℤ) → found ≡ Some number
        → AreLedBy number rows.items)) }
    ensures ok { IsOk result → IsOk outcome }
{
    match outcome {
        Ok(rows) => match rows.first() {
            None => Ok(None),
            Some(row) => match field(row, 0) {
                Ok(number) => Ok(Some(number)),
                Err(fault) => Err(fault),
            },
        },
        Err(fault) => Err(fault),
    }
}

/// A test session whose number begins with no account's, 1 to 9999, if there is one.
pub(crate) fn session_outside<S: Alter>(conn: &mut Connection<S>) -> Result<Option<i64>, StoreFault>
    requires { ServesStore (state S.Store conn.old) }
    ensures none { IsTrue (state S.Store conn.new).is_open
        → IfOk result (λ found. IsTree ((state S.Store conn.old).now.trees session_tree) → found ≡ None
        → AllByRecursion (λ row. is_between (first_number 1) (last_number 9999) row ≡ true)
        ((state S.Store conn.old).now.trees session_tree)) }
    ensures some { IsTrue (state S.Store conn.new).is_open
        → IfOk result (λ found. (number : ℤ) → found ≡ Some number
        → HasRowOutside (λ row. is_between (first_number 1) (last_number 9999) row ≡ true) 0 number
        ((state S.Store conn.old).now.trees session_tree)) }
    ensures read { IsRead result (state S.Store conn.old) (state S.Store conn.new) }
{
    number_in(asked(
        conn,
        "SELECT session FROM session WHERE session NOT BETWEEN 1000000 AND 9999999999 LIMIT 1",
        &[],
    ))
}

/// An account whose number isn't one, 1 to 9999, if there is one.
pub(crate) fn account_outside<S: Alter>(conn: &mut Connection<S>) -> Result<Option<i64>, StoreFault>
    requires { ServesStore (state S.Store conn.old) }
    ensures none { IsTrue (state S.Store conn.new).is_open
        → IfOk result (λ found. IsTree ((state S.Store conn.old).now.trees account_tree) → found ≡ None
        → AllByRecursion (λ row. is_between 1 9999 row ≡ true) ((state S.Store conn.old).now.trees account_tree)) }
    ensures some { IsTrue (state S.Store conn.new).is_open
        → IfOk result (λ found. (number : ℤ) → found ≡ Some number
        → HasRowOutside (λ row. is_between 1 9999 row ≡ true) 0 number
        ((state S.Store conn.old).now.trees account_tree)) }
    ensures read { IsRead result (state S.Store conn.old) (state S.Store conn.new) }
{
    number_in(asked(
        conn,
        "SELECT account FROM account WHERE account NOT BETWEEN 1 AND 9999 LIMIT 1",
        &[],
    ))
}
