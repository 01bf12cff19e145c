//! The check of all tables, account by account.
ghost use Rattle.std.specs.Prelude.{◌≡◌, ◌<◌, ◌+◌, ◌^◌, ◌++◌, ℕ, Some, None, Err, IsTrue, IfOk, IfErr};
ghost use Rattle.sqlite.specs.Held.{state};
ghost use Rattle.acvp_mac.specs.Conditions.{first_broken};
ghost use Rattle.acvp_check.specs.Conditions.{all_conditions};
ghost use Rattle.acvp_check.specs.Owners.{owner_conditions};
ghost use Rattle.acvp_tables.specs.Content.{Content};
ghost use Rattle.acvp_store.specs.Adopted.{IsOurs};
ghost use Rattle.acvp_store.specs.Connection.{InStore, IsRead};
ghost use Rattle.acvp_audit.specs.Read.{AreInTrees, Blames};
ghost use Rattle.acvp_audit.specs.Wrong.{IsDamaged};
ghost use Rattle.acvp_audit.specs.Checked.{totals_of, plus, IsFine, IsWholeAs, IsRefuted};
ghost use Rattle.acvp_audit.specs.Checked.{account_in, AreFineBefore, IsFirst, IsReading, IsWrongOpenly};
ghost use Rattle.acvp_audit.specs.Private.Looks.{Tells, AreFineTo};
ghost use Rattle.acvp_audit.specs.declared.damage.Damage.{Damage as DamageValue};
ghost use Rattle.acvp_audit.specs.declared.damage.Totals.{Totals as TotalsValue};
ghost use Rattle.sqlite.specs.State.{HasCleanDisk};

use crate::damage::{AuditFault, Damage, Totals};
use crate::outside::all_within;
use crate::reads::{Stop, rows_of};
use acvp_check::{Finding, Rows, judge_account, owners_wrong};
use acvp_gen::Seeds;
use acvp_mac::joined_conditions;
use acvp_store::SqlTables;
use acvp_tables::StoreFault;
use sqlite::Alter;
use std::alloc::{AllocError, Global};

/// Who is told how far a check has come.
pub trait Watch {
    /// An account's rows have been looked at.
    fn looked_at(&self, account: u16);
}

/// The first condition on the rows with an account's numbers that is broken: on whose they are, and then all others.
fn broken_of(
    alloc: Global,
    account: u16,
    mine: &Rows,
    seeds: &Seeds,
    grades: bool,
) -> Result<Option<Finding>, AllocError>
    ensures { IfOk result (λ found. found
        ≡ first_broken (owner_conditions mine.now ++ all_conditions grades seeds.now account mine.now)) }
{
    joined_conditions::<Finding>();
    if let Err(found) = owners_wrong(mine) {
        return Ok(Some(found));
    }
    judge_account(alloc, account, mine, seeds, grades)
}

/// How many rows there are.
fn totals_of(rows: &Rows) -> Totals
    ensures value { result ≡ totals_of rows.now }
    ensures accounts { result.accounts < 2 ^ 64 }
    ensures sessions { result.sessions < 2 ^ 64 }
    ensures sets { result.sets < 2 ^ 64 }
    ensures requests { result.requests < 2 ^ 64 }
{
    Totals {
        accounts: rows.accounts.len() as u128,
        sessions: rows.sessions.len() as u128,
        sets: rows.sets.len() as u128,
        requests: rows.requests.len() as u128,
    }
}

/// How many rows an account has, where no condition on them is broken.
fn judged<S: Alter>(
    alloc: Global,
    tables: &mut SqlTables<S>,
    account: u16,
    seeds: &Seeds,
    grades: bool,
) -> Result<Totals, AuditFault>
    ensures fine { Tells result (state S.Store tables.old) (state S.Store tables.new)
        (λ layout trees totals. (mine : Content) × IsFine grades seeds.now layout trees account mine
        × (totals ≡ totals_of mine)) }
    ensures few { IfOk result (λ totals. (totals.accounts < 2 ^ 64) × (totals.sessions < 2 ^ 64)
        × (totals.sets < 2 ^ 64) × (totals.requests < 2 ^ 64)) }
    ensures wrong { Blames result (state S.Store tables.old) (state S.Store tables.new)
        (λ layout trees fault. (found : DamageValue) → fault ≡ AuditFault.Wrong found
        → IsDamaged grades seeds.now layout trees found) }
    ensures whose { IfErr result (λ fault. (found : DamageValue) → fault ≡ AuditFault.Wrong found
        → account_in found ≡ Some account) }
    ensures read { IsRead result (state S.Store tables.old) (state S.Store tables.new) }
{
    let mine = match rows_of(tables, account) {
        Ok(mine) => mine,
        Err(Stop::Stray(table, number)) => {
            return Err(AuditFault::Wrong(Damage::Stray(account, table, number)));
        }
        Err(Stop::Store(fault)) => return Err(AuditFault::Store(fault)),
    };
    match broken_of(alloc, account, &mine, seeds, grades) {
        Ok(None) => Ok(totals_of(&mine)),
        Ok(Some(found)) => Err(AuditFault::Wrong(Damage::Broken(account, found))),
        Err(_) => Err(AuditFault::Store(StoreFault::Memory)),
    }
}

/// Both numbers of rows together.
fn plus(a: Totals, b: Totals) -> Totals
    requires accounts { a.accounts + b.accounts < 2 ^ 128 }
    requires sessions { a.sessions + b.sessions < 2 ^ 128 }
    requires sets { a.sets + b.sets < 2 ^ 128 }
    requires requests { a.requests + b.requests < 2 ^ 128 }
    ensures { result ≡ plus a b }
{
    Totals {
        accounts: a.accounts + b.accounts,
        sessions: a.sessions + b.sessions,
        sets: a.sets + b.sets,
        requests: a.requests + b.requests,
    }
}

/// How many rows all accounts have, where no condition on any account's is broken.
fn all_judged<S: Alter, W: Watch>(
    alloc: Global,
    tables: &mut SqlTables<S>,
    seeds: &Seeds,
    grades: bool,
    watch: &W,
) -> Result<Totals, AuditFault>
    ensures fine { Tells result (state S.Store tables.old) (state S.Store tables.new)
        (λ layout trees totals. AreFineTo grades seeds.now layout trees 9999 totals) }
    ensures wrong { Blames result (state S.Store tables.old) (state S.Store tables.new)
        (λ layout trees fault. (found : DamageValue) → fault ≡ AuditFault.Wrong found
        → IsDamaged grades seeds.now layout trees found) }
    ensures first { Blames result (state S.Store tables.old) (state S.Store tables.new)
        (λ layout trees fault. (u : ℕ) (found : DamageValue) → fault ≡ AuditFault.Wrong found
        → account_in found ≡ Some u → AreFineBefore grades seeds.now layout trees u) }
    ensures read { IsReading result (state S.Store tables.old) (state S.Store tables.new) }
{
    let mut totals = judged(alloc, tables, 1, seeds, grades)?;
    for before in 1..9999u16 {
        let account = before + 1;
        watch.looked_at(before);
        match judged(alloc, tables, account, seeds, grades) {
            Ok(more) => totals = plus(totals, more),
            Err(fault) => return Err(fault),
        }
    }
    Ok(totals)
}

/// What all looks come to.
fn examined<S: Alter, W: Watch>(
    alloc: Global,
    tables: &mut SqlTables<S>,
    seeds: &Seeds,
    grades: bool,
    watch: &W,
) -> Result<Totals, AuditFault>
    ensures whole { IsTrue (state S.Store tables.new).is_open
        → IfOk result (λ totals. (ours : IsOurs (state S.Store tables.old).now)
        → AreInTrees ours.layout (state S.Store tables.old).now.trees
        → IsWholeAs grades seeds.now ours.layout (state S.Store tables.old).now.trees totals) }
    ensures wrong { IsTrue (state S.Store tables.new).is_open
        → IfErr result (λ fault. InStore (state S.Store tables.old).now
        (λ layout. (found : DamageValue) → fault ≡ AuditFault.Wrong found
        → IsRefuted grades seeds.now layout (state S.Store tables.old).now.trees found)) }
    ensures first { Blames result (state S.Store tables.old) (state S.Store tables.new)
        (λ layout trees fault. (found : DamageValue) → fault ≡ AuditFault.Wrong found
        → IsFirst grades seeds.now layout trees found) }
    ensures read { IsReading result (state S.Store tables.old) (state S.Store tables.new) }
{
    match all_within(tables) {
        Ok(()) => all_judged(alloc, tables, seeds, grades, watch),
        Err(fault) => Err(fault),
    }
}

/// What was found, where the database still answers. So nothing is called wrong over a connection that a fault has
/// shut.
fn confirmed<S: Alter>(tables: &mut SqlTables<S>, found: Damage) -> AuditFault
    ensures same { (other : DamageValue) → result ≡ AuditFault.Wrong other → other ≡ found }
    ensures live { (other : DamageValue) → result ≡ AuditFault.Wrong other
        → HasCleanDisk (state S.Store tables.new) → IsTrue (state S.Store tables.new).is_open }
    ensures read { IsReading {X = TotalsValue} (Err result) (state S.Store tables.old) (state S.Store tables.new) }
{
    match tables.account_outside() {
        Ok(_) => AuditFault::Wrong(found),
        Err(fault) => AuditFault::Store(fault),
    }
}

/// Whether the rows of a database stand for records that have what every run keeps under these seeds, and how many rows
/// there are. What is looked at comes in this order: that no row of accounts, sessions, vector sets, objects, requests
/// and reviewers has a number outside those of the accounts 1 to 9999; and then, for one account after another, that
/// each of the rows with its numbers stands for something, whose it is, and the conditions of `judge_account`, with the
/// verdicts or without. The rows of one account are in memory at a time.
pub fn check<S: Alter, W: Watch>(
    alloc: Global,
    tables: &mut SqlTables<S>,
    seeds: &Seeds,
    grades: bool,
    watch: &W,
) -> Result<Totals, AuditFault>
    ensures whole { IsTrue (state S.Store tables.new).is_open
        → IfOk result (λ totals. (ours : IsOurs (state S.Store tables.old).now)
        → AreInTrees ours.layout (state S.Store tables.old).now.trees
        → IsWholeAs grades seeds.now ours.layout (state S.Store tables.old).now.trees totals) }
    ensures wrong { IsTrue (state S.Store tables.new).is_open
        → IfErr result (λ fault. InStore (state S.Store tables.old).now
        (λ layout. (found : DamageValue) → fault ≡ AuditFault.Wrong found
        → IsRefuted grades seeds.now layout (state S.Store tables.old).now.trees found)) }
    ensures first { Blames result (state S.Store tables.old) (state S.Store tables.new)
        (λ layout trees fault. (found : DamageValue) → fault ≡ AuditFault.Wrong found
        → IsFirst grades seeds.now layout trees found) }
    ensures read { IsReading result (state S.Store tables.old) (state S.Store tables.new) }
    ensures live { IsWrongOpenly result (state S.Store tables.old) (state S.Store tables.new) }
{
    match examined(alloc, tables, seeds, grades, watch) {
        Ok(totals) => Ok(totals),
        Err(AuditFault::Wrong(found)) => Err(confirmed(tables, found)),
        Err(AuditFault::Store(fault)) => Err(AuditFault::Store(fault)),
    }
}
