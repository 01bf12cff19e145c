//! Reads of vector sets in a range of numbers, whatever the rows are.
ghost use Rattle.std.specs.Prelude.{◌≡◌, ◌≢◌, ℤ, pos, true, Some, None, List, IfOk, IfErr, IsOk, IsTrue, Option};
ghost use Rattle.std.specs.Prelude.{MatchResult};
ghost use Rattle.std.specs.List.{AllByRecursion, AllZip};
ghost use Rattle.sqlite.specs.Held.{state};
ghost use Rattle.acvp_answers.specs.Answer.{Answer};
ghost use Rattle.acvp_answers.specs.VerdictText.{verdicts_text};
ghost use Rattle.acvp_answers.specs.declared.verdict.Verdict.{Verdict as Letters};
ghost use Rattle.acvp_caps.specs.Capability.{CapabilityValue};
ghost use Rattle.acvp_caps.specs.Registered.{registered_text};
ghost use Rattle.acvp_tables.specs.Graded.{GradedValue};
ghost use Rattle.acvp_tables.specs.declared.rows.SetRow.{SetRow as Set};
ghost use Rattle.acvp_store.specs.Connection.{ServesStore, InStore, IsRead};
ghost use Rattle.acvp_store.specs.Ranges.{is_between, IsTree, IsRange, HasStrayRow, first_set, last_set, set_number};
ghost use Rattle.acvp_store.specs.Ranges.{HasRowOutside, KeepsSets, IsSetRow, FitsSet};
ghost use Rattle.acvp_store.specs.Stands.{IsGradedAs, IsSet, set_tree};
ghost use Rattle.acvp_store.specs.Private.SetRanges.{AreKeptBy, IsGradedBy, HasStraySet};
ghost use Rattle.acvp_store.specs.Values.{whole};
ghost use Rattle.acvp_store.specs.Private.Performed.{parameter};

use crate::columns::{field, truth};
use crate::members::Member;
use crate::queries::asked;
use crate::ranges::{Numbers, RangeFault, number_in, ranged};
use crate::sets::kept_disposition;
use acvp_answers::{Answers, TextFault, Verdict, verdicts_from_text};
use acvp_caps::{CapFault, Capability};
use acvp_json::{BodyFault, answers_from_text};
use acvp_tables::{Graded, SetRow, StoreFault};
use sqlite::types::ValueRef;
use sqlite::{Alter, Connection, Row};
use std::alloc::Global;
use std::marker::Model;

/// All columns of a vector set.
#[derive(Drop)]
struct WholeSet {
    number: u64,
    session: u64,
    capability: String,
    cancelled: bool,
    answers: Option<String>,
    verdicts: Option<String>,
    disposition: Option<u64>,
    epoch: u64,
}

impl Model for WholeSet {
    ghost use Rattle.std.specs.Prelude.{string_bytes, option_map};
    ghost use Rattle.acvp_store.specs.Stands.{SetColumns};

    ghost Value = { SetColumns };

    ghost view = { λ s. record {
      number = s.number;
      session = s.session;
      capability = string_bytes s.capability;
      cancelled = s.cancelled;
      answers = option_map string_bytes s.answers;
      verdicts = option_map string_bytes s.verdicts;
      disposition = s.disposition;
      epoch = s.epoch;
    } };
}

impl Member for WholeSet {
    ghost use Rattle.std.specs.Prelude.{⊤, IsUtf8};
    ghost use Rattle.acvp_store.specs.Private.SetRanges.{whole_shown, AreTexts};

    ghost shown = { whole_shown };

    ghost reads = { λ _. ⊤ };

    ghost fits = { AreTexts };

    ghost judged_so = { λ c. IsUtf8 c.capability };

    fn read(row: &Row) -> Result<WholeSet, StoreFault> {
        let number: u64 = field(row, 0)?;
        let session: u64 = field(row, 1)?;
        let capability: String = field(row, 2)?;
        let cancelled = truth(row, 3)?;
        let answers: Option<String> = field(row, 4)?;
        let verdicts: Option<String> = field(row, 5)?;
        let disposition: Option<u64> = field(row, 6)?;
        let epoch: u64 = field(row, 7)?;
        Ok(WholeSet {
            number,
            session,
            capability,
            cancelled,
            answers,
            verdicts,
            disposition,
            epoch,
        })
    }
}

/// The capability that a text is. It is Refused where the text is none.
fn capability_of(alloc: Global, text: &str) -> Result<Capability, StoreFault>
    ensures told { IfOk result (λ capability. registered_text text.now ≡ Ok (Some capability)) }
    ensures refused { IfErr result (λ fault. fault ≡ StoreFault.Refused → (capability : CapabilityValue)
        → registered_text text.now ≢ Ok (Some capability)) }
{
    match Capability::from_text(alloc, text) {
        Ok(capability) => Ok(capability),
        Err(CapFault::Memory) => Err(StoreFault::Memory),
        Err(_) => Err(StoreFault::Refused),
    }
}

/// The answers that a text keeps. It is Refused where the text keeps none.
fn answers_of(alloc: Global, text: &str) -> Result<Answers, StoreFault>
    ensures told { IfOk result (AreKeptBy text.now) }
    ensures refused { IfErr result (λ fault. fault ≡ StoreFault.Refused → (answers : List Answer)
        → ¬ AreKeptBy text.now answers) }
{
    match answers_from_text(alloc, text) {
        Ok(answers) => Ok(answers),
        Err(BodyFault::Memory) => Err(StoreFault::Memory),
        Err(_) => Err(StoreFault::Refused),
    }
}

/// The verdicts of a text. It is Refused where the text is that of none.
fn verdicts_of(alloc: Global, text: &str) -> Result<Vec<Verdict>, StoreFault>
    ensures told { IfOk result (λ verdicts. text.now ≡ verdicts_text verdicts.items) }
    ensures refused { IfErr result (λ fault. fault ≡ StoreFault.Refused → (verdicts : List Letters)
        → text.now ≢ verdicts_text verdicts) }
    ensures back { (verdicts : List Letters) → text.now ≡ verdicts_text verdicts
        → IfOk result (λ read. read.items ≡ verdicts) }
{
    match verdicts_from_text(alloc, text) {
        Ok(verdicts) => Ok(verdicts),
        Err(TextFault::Memory) => Err(StoreFault::Memory),
        Err(TextFault::Letter) => Err(StoreFault::Refused),
    }
}

/// The answers of a text, with the verdicts of another, where the disposition that these give has this number. It is
/// Refused where it hasn't, or where a text is that of none.
fn graded_by(
    alloc: Global,
    answers: &str,
    verdicts: &str,
    number: u64,
) -> Result<Graded, StoreFault>
    ensures told { IfOk result (IsGradedBy answers.now verdicts.now number) }
    ensures refused { IfErr result (λ fault. fault ≡ StoreFault.Refused → (g : GradedValue)
        → ¬ IsGradedBy answers.now verdicts.now number g) }
{
    let answers = answers_of(alloc, answers)?;
    let verdicts = verdicts_of(alloc, verdicts)?;
    let graded = Graded::new(answers, verdicts);
    match kept_disposition(graded.disposition()) {
        Some(kept) if u64::from(kept) == number => Ok(graded),
        _ => Err(StoreFault::Refused),
    }
}

/// What is graded of the columns, where answers are kept. They are Refused where they are those of no graded answers.
fn graded_of(alloc: Global, set: &WholeSet) -> Result<Option<Graded>, StoreFault>
    ensures told { IfOk result (IsGradedAs set.now) }
    ensures refused { IfErr result (λ fault. fault ≡ StoreFault.Refused → (g : Option GradedValue)
        → ¬ IsGradedAs set.now g) }
{
    match (&set.answers, &set.verdicts, set.disposition) {
        (None, None, None) => Ok(None),
        (Some(answers), Some(verdicts), Some(number)) => {
            let graded = graded_by(alloc, answers.as_str(), verdicts.as_str(), number)?;
            Ok(Some(graded))
        }
        _ => Err(StoreFault::Refused),
    }
}

/// The vector set of the columns. They are Refused where they are those of none.
fn set_of(alloc: Global, set: &WholeSet) -> Result<SetRow, StoreFault>
    ensures told { IfOk result (IsSet set.now) }
    ensures refused { IfErr result (λ fault. fault ≡ StoreFault.Refused → (row : Set) → ¬ IsSet set.now row) }
{
    let capability = capability_of(alloc, set.capability.as_str())?;
    let graded = graded_of(alloc, set)?;
    Ok(SetRow {
        number: set.number,
        session: set.session,
        capability,
        epoch: set.epoch,
        cancelled: set.cancelled,
        graded,
    })
}

/// The vector set of the columns, or their number where they are those of none.
fn set_told(alloc: Global, set: &WholeSet) -> Result<SetRow, RangeFault>
    ensures told { IfOk result (IsSet set.now) }
    ensures stray { IfErr result (λ fault. (number : ℤ) → fault ≡ RangeFault.Stray number
        → (pos set.now.number ≡ number) × ((row : Set) → ¬ IsSet set.now row)) }
{
    match set_of(alloc, set) {
        Ok(row) => Ok(row),
        Err(StoreFault::Refused) => match i64::try_from(set.number) {
            Ok(number) => Err(RangeFault::Stray(number)),
            Err(_) => Err(RangeFault::Store(StoreFault::Refused)),
        },
        Err(StoreFault::Memory) => Err(RangeFault::Store(StoreFault::Memory)),
    }
}

/// The vector sets of the columns.
fn sets_told(alloc: Global, sets: &[WholeSet]) -> Result<Vec<SetRow>, RangeFault>
    ensures told { IfOk result (λ told. AllZip IsSet sets.now told.items) }
    ensures stray { IfErr result (λ fault. (number : ℤ) → fault ≡ RangeFault.Stray number
        → HasStraySet number sets.now) }
{
    let mut told = Vec::new(alloc);
    for set in sets {
        let row = set_told(alloc, set)?;
        match told.push(row) {
            Ok(()) => {}
            Err(_) => return Err(RangeFault::Store(StoreFault::Memory)),
        }
    }
    Ok(told)
}

/// The vector sets of the columns that were found.
fn sets_in(
    alloc: Global,
    found: Result<Vec<WholeSet>, RangeFault>,
) -> Result<Vec<SetRow>, RangeFault>
    ensures told { IfOk result (λ told. IfOk found (λ sets. AllZip IsSet sets.items told.items)) }
    ensures stray { IfErr result (λ fault. (number : ℤ) → fault ≡ RangeFault.Stray number
        → MatchResult found (λ sets. HasStraySet number sets.items) (λ before. before ≡ RangeFault.Stray number)) }
    ensures ok { IsOk result → IsOk found }
{
    match found {
        Ok(sets) => sets_told(alloc, &sets),
        Err(fault) => Err(fault),
    }
}

/// The numbers of an account's vector sets.
fn set_numbers_of(account: u16) -> Numbers
    ensures first { parameter result.first ≡ whole (first_set account) }
    ensures last { parameter result.last ≡ whole (last_set account) }
{
    let first = i64::from(account) * 100000000;
    Numbers {
        first: ValueRef::Int(first),
        last: ValueRef::Int(first + 99999999),
    }
}

/// The vector sets whose numbers begin with an account's, whatever the rows are.
pub(crate) fn sets_numbered<S: Alter>(
    alloc: Global,
    conn: &mut Connection<S>,
    account: u16,
) -> Result<Vec<SetRow>, RangeFault>
    requires { ServesStore (state S.Store conn.old) }
    ensures rows { IsTrue (state S.Store conn.new).is_open
        → IfOk result (λ found. InStore (state S.Store conn.old).now
        (λ layout. IsTree ((state S.Store conn.old).now.trees (set_tree layout))
        → IsRange KeepsSets set_number (first_set account) (last_set account)
        ((state S.Store conn.old).now.trees (set_tree layout)) found.items)) }
    ensures stray { IsTrue (state S.Store conn.new).is_open
        → IfErr result (λ fault. InStore (state S.Store conn.old).now
        (λ layout. (number : ℤ) → fault ≡ RangeFault.Stray number
        → HasStrayRow KeepsSets IsSetRow FitsSet (is_between (first_set account) (last_set account)) 0 number
        ((state S.Store conn.old).now.trees (set_tree layout)))) }
    ensures read { IsRead result (state S.Store conn.old) (state S.Store conn.new) }
{
    let numbers = set_numbers_of(account);
    let found = ranged(
        alloc,
        asked(
            conn,
            "SELECT vs, session, capability, cancelled, answers, verdicts, disposition, epoch FROM vset2 WHERE vs BETWEEN ?1 AND ?2 ORDER BY vs",
            &[numbers.first, numbers.last],
        ),
        0,
    );
    sets_in(alloc, found)
}

/// A vector set whose number begins with no account's, 1 to 9999, if there is one.
pub(crate) fn set_outside<S: Alter>(conn: &mut Connection<S>) -> Result<Option<i64>, StoreFault>
    requires { ServesStore (state S.Store conn.old) }
    ensures none { IsTrue (state S.Store conn.new).is_open
        → IfOk result (λ found. InStore (state S.Store conn.old).now
        (λ layout. IsTree ((state S.Store conn.old).now.trees (set_tree layout)) → found ≡ None
        → AllByRecursion (λ row. is_between (first_set 1) (last_set 9999) row ≡ true)
        ((state S.Store conn.old).now.trees (set_tree layout)))) }
    ensures some { IsTrue (state S.Store conn.new).is_open
        → IfOk result (λ found. InStore (state S.Store conn.old).now (λ layout. (number : ℤ) → found ≡ Some number
        → HasRowOutside (λ row. is_between (first_set 1) (last_set 9999) row ≡ true) 0 number
        ((state S.Store conn.old).now.trees (set_tree layout)))) }
    ensures read { IsRead result (state S.Store conn.old) (state S.Store conn.new) }
{
    number_in(asked(
        conn,
        "SELECT vs FROM vset2 WHERE vs NOT BETWEEN 100000000 AND 999999999999 LIMIT 1",
        &[],
    ))
}
