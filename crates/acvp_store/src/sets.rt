//! The table of vector sets.
ghost use Rattle.std.specs.Prelude.{◌≡◌, ◌<◌, ◌^◌, ◌∷◌, [], None, Option, IsTrue, IfErr, IsSomeAnd, MatchResult, IfOk};
ghost use Rattle.std.specs.Prelude.{IfSome, IsOk, List, Some, map, option_map};
ghost use Rattle.std.specs.List.{AllZip};
ghost use Rattle.sqlite.specs.Held.{state};
ghost use Rattle.acvp_tables.specs.Content.{Content, set_at, set_summary, live_sets, greatest_epoch_of};
ghost use Rattle.acvp_tables.specs.State.{AreWellNumbered};
ghost use Rattle.acvp_answers.specs.declared.verdict.Disposition.{Disposition as Kept};
ghost use Rattle.acvp_tables.specs.declared.rows.SetRow.{SetRow as Set};
ghost use Rattle.acvp_tables.specs.Changes.{changed, is_set, cancelled_set, with_graded, new_sets};
ghost use Rattle.acvp_store.specs.Alters.{Alters};
ghost use Rattle.acvp_store.specs.Connection.{ServesStore, InStore, IsRead, IsInside, UnderStore};
ghost use Rattle.acvp_store.specs.Stands.{HoldsSets, disposition_number, set_tree};
ghost use Rattle.acvp_store.specs.Private.Sets.{HasUnjudged, IsDispositionOf, IsGiven, IsJudged, IsJudgedWhole};
ghost use Rattle.acvp_store.specs.Private.Sets.{IsSummary, IsSummaryOf, KeepsAnswers, is_live_row, keeps_answers};
ghost use Rattle.acvp_store.specs.Private.Sets.{new_set, read_columns, read_shown, short_columns, short_shown};
ghost use Rattle.acvp_store.specs.Private.Sets.{AddsSets, without_text};
ghost use Rattle.acvp_store.specs.Private.Shown.{AreMet, is_under};

use crate::columns::{field, fitting, key, truth};
use crate::members::{Member, answered, listed};
use crate::queries::asked;
use crate::work::{Work, perform};
use acvp_answers::{Disposition, TextFault, disposition, verdicts_from_text, verdicts_to_text};
use acvp_caps::Capability;
use acvp_json::{answers_to_text, are_kept_answers};
use acvp_tables::{Graded, NewSession, SetSummary, StoreFault};
use sqlite::types::ToSql;
use sqlite::{Alter, Connection, Row, Transaction};
use std::alloc::Global;
use std::marker::Model;

/// The columns of a vector set that a list of sets rests on: all but its capability, and of its answers whether there
/// are any.
#[derive(Drop)]
pub(crate) struct ShortSet {
    number: u64,
    session: u64,
    cancelled: bool,
    unanswered: bool,
    verdicts: Option<String>,
    disposition: Option<u64>,
    epoch: u64,
}

impl Model for ShortSet {
    ghost use Rattle.std.specs.Prelude.{string_bytes, option_map};
    ghost use Rattle.acvp_store.specs.Private.Sets.{ShortColumns};

    ghost Value = { ShortColumns };

    ghost view = { λ s. record {
      number = s.number;
      session = s.session;
      cancelled = s.cancelled;
      unanswered = s.unanswered;
      verdicts = option_map string_bytes s.verdicts;
      disposition = s.disposition;
      epoch = s.epoch;
    } };
}

impl Member for ShortSet {
    ghost use Rattle.acvp_store.specs.Private.Shown.{IsText};
    ghost use Rattle.std.specs.Prelude.{⊤};
    ghost use Rattle.acvp_store.specs.Private.Sets.{short_shown};

    ghost shown = { short_shown };

    ghost reads = { λ _. ⊤ };

    ghost fits = { λ s. IsText s.verdicts };

    ghost judged_so = { λ _. ⊤ };

    fn read(row: &Row) -> Result<ShortSet, StoreFault> {
        let number: u64 = field(row, 0)?;
        let session: u64 = field(row, 1)?;
        let cancelled = truth(row, 2)?;
        let unanswered = truth(row, 3)?;
        let verdicts: Option<String> = field(row, 4)?;
        let disposition: Option<u64> = field(row, 5)?;
        let epoch: u64 = field(row, 6)?;
        Ok(ShortSet {
            number,
            session,
            cancelled,
            unanswered,
            verdicts,
            disposition,
            epoch,
        })
    }
}

/// The columns of the vector set of a number: all but its capability.
#[derive(Drop)]
pub(crate) struct ReadSet {
    number: u64,
    session: u64,
    cancelled: bool,
    answers: Option<String>,
    verdicts: Option<String>,
    disposition: Option<u64>,
    epoch: u64,
}

impl Model for ReadSet {
    ghost use Rattle.std.specs.Prelude.{string_bytes, option_map};
    ghost use Rattle.acvp_store.specs.Private.Sets.{ReadColumns};

    ghost Value = { ReadColumns };

    ghost view = { λ s. record {
      number = s.number;
      session = s.session;
      cancelled = s.cancelled;
      answers = option_map string_bytes s.answers;
      verdicts = option_map string_bytes s.verdicts;
      disposition = s.disposition;
      epoch = s.epoch;
    } };
}

impl Member for ReadSet {
    ghost use Rattle.std.specs.Prelude.{⊤};
    ghost use Rattle.acvp_store.specs.Private.Shown.{IsText};
    ghost use Rattle.acvp_store.specs.Private.Sets.{read_shown};

    ghost shown = { read_shown };

    ghost reads = { λ _. ⊤ };

    ghost fits = { λ s. IsText s.answers × IsText s.verdicts };

    ghost judged_so = { λ _. ⊤ };

    fn read(row: &Row) -> Result<ReadSet, StoreFault> {
        let number: u64 = field(row, 0)?;
        let session: u64 = field(row, 1)?;
        let cancelled = truth(row, 2)?;
        let answers: Option<String> = field(row, 3)?;
        let verdicts: Option<String> = field(row, 4)?;
        let disposition: Option<u64> = field(row, 5)?;
        let epoch: u64 = field(row, 6)?;
        Ok(ReadSet {
            number,
            session,
            cancelled,
            answers,
            verdicts,
            disposition,
            epoch,
        })
    }
}

/// The number of a disposition, where it is one that is kept.
pub(crate) fn kept_disposition(disposition: Disposition) -> Option<u32>
    ensures value { result ≡ disposition_number disposition }
    ensures some { IfSome result (λ number. disposition_number disposition ≡ Some number) }
{
    match disposition {
        Disposition::Fail => Some(0),
        Disposition::Missing => Some(1),
        Disposition::Passed => Some(2),
        Disposition::Expired | Disposition::Unreceived => None,
    }
}

/// The disposition that verdicts give, where its number is this one. It is Refused where they are none, or give
/// another.
fn given_disposition(alloc: Global, verdicts: &str, number: u64) -> Result<Disposition, StoreFault>
    ensures given { IfOk result (IsGiven verdicts.now number) }
    ensures refused { IfErr result (λ fault. fault ≡ StoreFault.Refused → (d : Kept)
        → ¬ IsGiven verdicts.now number d) }
{
    let verdicts = match verdicts_from_text(alloc, verdicts) {
        Ok(verdicts) => verdicts,
        Err(TextFault::Memory) => return Err(StoreFault::Memory),
        Err(TextFault::Letter) => return Err(StoreFault::Refused),
    };
    let given = disposition(&verdicts);
    match kept_disposition(given) {
        Some(kept) if u64::from(kept) == number => Ok(given),
        _ => Err(StoreFault::Refused),
    }
}

/// The disposition of the columns, where answers are kept. They are Refused where one of answers, verdicts and
/// disposition is there without the others, or where the disposition isn't that of the verdicts.
fn judged_disposition(alloc: Global, set: &ShortSet) -> Result<Option<Disposition>, StoreFault>
    ensures judged { IfOk result (IsDispositionOf set.now) }
    ensures refused { IfErr result (λ fault. fault ≡ StoreFault.Refused → (d : Option Kept)
        → ¬ IsDispositionOf set.now d) }
{
    match (&set.verdicts, set.disposition) {
        (None, None) if set.unanswered => Ok(None),
        (Some(verdicts), Some(number)) if !set.unanswered => {
            let given = given_disposition(alloc, verdicts.as_str(), number)?;
            Ok(Some(given))
        }
        _ => Err(StoreFault::Refused),
    }
}

/// What the columns tell. They are Refused where they are those of no set.
fn summary(alloc: Global, set: &ShortSet) -> Result<SetSummary, StoreFault>
    ensures told { IfOk result (IsSummary set.now) }
    ensures refused { IfErr result (λ fault. fault ≡ StoreFault.Refused → ¬ IsJudged set.now) }
{
    let disposition = judged_disposition(alloc, set)?;
    Ok(SetSummary {
        number: set.number,
        session: set.session,
        epoch: set.epoch,
        cancelled: set.cancelled,
        disposition,
    })
}

/// Whether the text of answers keeps some, where there is one.
fn keeps_answers(set: &ReadSet) -> bool
    ensures { result ≡ keeps_answers set.now.answers }
{
    match &set.answers {
        Some(text) => are_kept_answers(text.as_str()),
        None => true,
    }
}

/// The columns without the text of the answers.
fn without_text(set: ReadSet) -> ShortSet
    ensures { result ≡ without_text set }
{
    ShortSet {
        number: set.number,
        session: set.session,
        cancelled: set.cancelled,
        unanswered: set.answers.is_none(),
        verdicts: set.verdicts,
        disposition: set.disposition,
        epoch: set.epoch,
    }
}

/// What the columns tell, with the text of the answers. They are Refused where they are those of no set.
fn whole_summary(alloc: Global, set: ReadSet) -> Result<SetSummary, StoreFault>
    ensures told { IfOk result (λ told. KeepsAnswers set.answers × IsSummary (without_text set) told) }
    ensures refused { IfErr result (λ fault. fault ≡ StoreFault.Refused → ¬ IsJudgedWhole set) }
{
    if !keeps_answers(&set) {
        return Err(StoreFault::Refused);
    }
    let short = without_text(set);
    summary(alloc, &short)
}

/// What the columns that were found tell.
fn summarized(
    alloc: Global,
    found: Result<Option<ReadSet>, StoreFault>,
) -> Result<Option<SetSummary>, StoreFault>
    ensures told { IfOk result (λ told. IfOk found (λ set. IsSummaryOf set told)) }
    ensures refused { IfErr result (λ fault. fault ≡ StoreFault.Refused
        → MatchResult found (λ set. IsSomeAnd set (λ columns. ¬ IsJudgedWhole columns))
        (λ fault. fault ≡ StoreFault.Refused)) }
    ensures ok { IsOk result → IsOk found }
{
    match found {
        Ok(None) => Ok(None),
        Ok(Some(set)) => match whole_summary(alloc, set) {
            Ok(told) => Ok(Some(told)),
            Err(fault) => Err(fault),
        },
        Err(fault) => Err(fault),
    }
}

/// The vector set of a number, without its capability. The text of its answers is judged, and not told.
pub(crate) fn find_set<S: Alter>(
    alloc: Global,
    conn: &mut Connection<S>,
    number: u64,
) -> Result<Option<SetSummary>, StoreFault>
    requires { ServesStore (state S.Store conn.old) }
    ensures found { IsTrue (state S.Store conn.new).is_open
        → IfOk result (λ found. InStore (state S.Store conn.old).now (λ layout. (sets : List Set)
        → HoldsSets ((state S.Store conn.old).now.trees (set_tree layout)) sets
        → found ≡ option_map set_summary (set_at number sets))) }
    ensures judged { IsTrue (state S.Store conn.new).is_open → number < 2 ^ 63
        → IfOk result (λ _. InStore (state S.Store conn.old).now
        (λ layout. AreMet (is_under number) read_columns read_shown IsJudgedWhole
        ((state S.Store conn.old).now.trees (set_tree layout)))) }
    ensures read { IsRead result (state S.Store conn.old) (state S.Store conn.new) }
{
    summarized(
        alloc,
        answered(asked(
            conn,
            "SELECT vs, session, cancelled, answers, verdicts, disposition, epoch FROM vset2 WHERE vs = ?1",
            &[key(number)],
        )),
    )
}

/// What each of the columns tell.
fn summaries(alloc: Global, sets: &[ShortSet]) -> Result<Vec<SetSummary>, StoreFault>
    ensures told { IfOk result (λ told. AllZip IsSummary sets.now told.items) }
    ensures refused { IfErr result (λ fault. fault ≡ StoreFault.Refused → HasUnjudged sets.now) }
{
    let mut told = Vec::new(alloc);
    for set in sets {
        let one = summary(alloc, set)?;
        if told.push(one).is_err() {
            return Err(StoreFault::Memory);
        }
    }
    Ok(told)
}

/// What the columns that were listed tell.
fn summaries_in(
    alloc: Global,
    found: Result<Vec<ShortSet>, StoreFault>,
) -> Result<Vec<SetSummary>, StoreFault>
    ensures told { IfOk result (λ told. IfOk found (λ sets. AllZip IsSummary sets.items told.items)) }
    ensures refused { IfErr result (λ fault. fault ≡ StoreFault.Refused
        → MatchResult found (λ sets. HasUnjudged sets.items) (λ fault. fault ≡ StoreFault.Refused)) }
    ensures ok { IsOk result → IsOk found }
{
    match found {
        Ok(sets) => summaries(alloc, &sets),
        Err(fault) => Err(fault),
    }
}

/// The vector sets of a test session that aren't cancelled, by the range of their numbers. It is Refused where the
/// session's number is so large that no column keeps those.
pub(crate) fn find_sets<S: Alter>(
    alloc: Global,
    conn: &mut Connection<S>,
    session: u64,
) -> Result<Vec<SetSummary>, StoreFault>
    requires { ServesStore (state S.Store conn.old) }
    ensures found { IsTrue (state S.Store conn.new).is_open
        → IfOk result (λ found. InStore (state S.Store conn.old).now (λ layout. (c : Content) → AreWellNumbered c
        → HoldsSets ((state S.Store conn.old).now.trees (set_tree layout)) c.sets
        → found.items ≡ map set_summary (live_sets session c.sets))) }
    ensures judged { IsTrue (state S.Store conn.new).is_open
        → IfOk result (λ _. InStore (state S.Store conn.old).now
        (λ layout. AreMet (is_live_row session) short_columns short_shown IsJudged
        ((state S.Store conn.old).now.trees (set_tree layout)))) }
    ensures read { IsRead result (state S.Store conn.old) (state S.Store conn.new) }
{
    if 92233720368547757 < session {
        return Err(StoreFault::Refused);
    }
    let first = session * 100;
    summaries_in(
        alloc,
        listed(
            alloc,
            asked(
                conn,
                "SELECT vs, session, cancelled, answers IS NULL, verdicts, disposition, epoch FROM vset2 WHERE vs BETWEEN ?1 AND ?2 AND cancelled <> 1 ORDER BY vs",
                &[key(first), key(first + 99)],
            ),
        ),
    )
}

/// An epoch alone in its row, or NULL.
impl Member for Option<u64> {
    ghost use Rattle.std.specs.Prelude.{⊤};
    ghost use Rattle.acvp_store.specs.Private.Sets.{epoch_shown};

    ghost shown = { epoch_shown };

    ghost reads = { λ _. ⊤ };

    ghost fits = { λ _. ⊤ };

    ghost judged_so = { λ _. ⊤ };

    fn read(row: &Row) -> Result<Option<u64>, StoreFault> {
        field(row, 0)
    }
}

/// The epoch of the one row that was found. None is Refused.
fn epoch_in(found: Result<Option<Option<u64>>, StoreFault>) -> Result<Option<u64>, StoreFault>
    ensures told { IfOk result (λ told. IfOk found (λ row. row ≡ Some told)) }
    ensures refused { IfErr result (λ fault. MatchResult found (λ row. row ≡ None) (λ met. met ≡ fault)) }
    ensures ok { IsOk result → IsOk found }
{
    match found {
        Ok(Some(epoch)) => Ok(epoch),
        Ok(None) => Err(StoreFault::Refused),
        Err(fault) => Err(fault),
    }
}

/// The greatest epoch of all vector sets; none where there is no set.
pub(crate) fn find_epoch<S: Alter>(conn: &mut Connection<S>) -> Result<Option<u64>, StoreFault>
    requires { ServesStore (state S.Store conn.old) }
    ensures found { IsTrue (state S.Store conn.new).is_open
        → IfOk result (λ found. InStore (state S.Store conn.old).now (λ layout. (sets : List Set)
        → HoldsSets ((state S.Store conn.old).now.trees (set_tree layout)) sets → found ≡ greatest_epoch_of sets)) }
    ensures read { IsRead result (state S.Store conn.old) (state S.Store conn.new) }
{
    epoch_in(answered(asked(conn, "SELECT MAX(epoch) FROM vset2", &[])))
}

/// A vector set that is cancelled, without the counters of its session.
#[derive(Clone, Copy)]
pub(crate) struct SetCancelled {
    pub number: u64,
}

impl Work for SetCancelled {
    ghost use Rattle.acvp_tables.specs.Changes.{changed, is_set, cancelled_set};
    ghost use Rattle.acvp_store.specs.Alters.{Alters};
    ghost use Rattle.acvp_store.specs.Connection.{UnderStore};
    ghost use Rattle.acvp_store.specs.Stands.{set_tree, HoldsSets};

    ghost change = { λ s. UnderStore
        (λ layout. Alters layout (set_tree layout) HoldsSets (changed (is_set s.number) cancelled_set)) };

    fn run<S: Alter>(&self, tx: &mut Transaction<'_, S>) -> Result<(), StoreFault> {
        let number = fitting(self.number)?;
        perform(
            tx,
            "UPDATE vset2 SET cancelled = 1 WHERE vs = ?1",
            &[number],
        )
    }
}

/// Answers to a vector set, in the place of those that were kept, without the counters of its session.
#[derive(Clone, Copy)]
pub(crate) struct GradedSet<'a> {
    pub alloc: Global,
    pub number: u64,
    pub graded: &'a Graded,
}

impl<'a> Work for GradedSet<'a> {
    ghost use Rattle.acvp_tables.specs.Changes.{changed, is_set, with_graded};
    ghost use Rattle.acvp_store.specs.Alters.{Alters};
    ghost use Rattle.acvp_store.specs.Connection.{UnderStore};
    ghost use Rattle.acvp_store.specs.Stands.{set_tree, HoldsSets};

    ghost change = { λ s. UnderStore
        (λ layout. Alters layout (set_tree layout) HoldsSets (changed (is_set s.number) (with_graded s.graded.now))) };

    fn run<S: Alter>(&self, tx: &mut Transaction<'_, S>) -> Result<(), StoreFault> {
        let number = fitting(self.number)?;
        let answers = answers_to_text(self.alloc, self.graded.answers())?;
        let verdicts = verdicts_to_text(self.alloc, self.graded.verdicts())?;
        let Some(disposition) = kept_disposition(self.graded.disposition()) else {
            return Err(StoreFault::Refused);
        };
        perform(
            tx,
            "UPDATE vset2 SET answers = ?2, verdicts = ?3, disposition = ?4 WHERE vs = ?1",
            &[
                number,
                answers.as_str().to_sql(),
                verdicts.as_str().to_sql(),
                disposition.to_sql(),
            ],
        )
    }
}

/// Puts in a vector set without answers.
fn insert_set<S: Alter>(
    alloc: Global,
    tx: &mut Transaction<'_, S>,
    number: u64,
    session: u64,
    capability: &Capability,
    epoch: u64,
) -> Result<(), StoreFault>
    ensures same_reference { tx.new.conn.ghost_name ≡ tx.old.conn.ghost_name }
    ensures inside { IsInside result (state S.Store tx.old.conn.now) (state S.Store tx.new.conn.now)
        (UnderStore (λ layout. AddsSets layout (new_set number session capability.now epoch ∷ []))) }
{
    let number = fitting(number)?;
    let session = fitting(session)?;
    let epoch = fitting(epoch)?;
    let text = capability.to_text(alloc)?;
    perform(
        tx,
        "INSERT INTO vset2 (vs, session, capability, cancelled, answers, verdicts, disposition, epoch) VALUES (?1, ?2, ?3, 0, NULL, NULL, NULL, ?4)",
        &[number, session, text.as_str().to_sql(), epoch],
    )
}

/// The vector sets of a new test session.
#[derive(Clone, Copy)]
pub(crate) struct SetsBegun<'a> {
    pub alloc: Global,
    pub session: &'a NewSession,
}

impl<'a> Work for SetsBegun<'a> {
    ghost use Rattle.acvp_tables.specs.Changes.{new_sets};
    ghost use Rattle.acvp_store.specs.Connection.{UnderStore};
    ghost use Rattle.acvp_store.specs.Private.Sets.{AddsSets};

    ghost change = { λ s. UnderStore
        (λ layout. AddsSets layout
        (new_sets s.session.now.number s.session.now.epoch 1 s.session.now.registration.capabilities)) };

    fn run<S: Alter>(&self, tx: &mut Transaction<'_, S>) -> Result<(), StoreFault> {
        let session = self.session;
        if 92233720368547757 < session.number {
            return Err(StoreFault::Refused);
        }
        let mut number = session.number * 100;
        for capability in session.registration.capabilities() {
            number += 1;
            insert_set(
                self.alloc,
                tx,
                number,
                session.number,
                capability,
                session.epoch,
            )?;
        }
        Ok(())
    }
}
