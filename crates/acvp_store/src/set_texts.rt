//! The texts in the rows of vector sets: the capability, and the verdicts on the last answers.
ghost use Rattle.std.specs.Prelude.{◌≡◌, ◌≢◌, ◌<◌, ◌^◌, Some, IsTrue, IfErr, IsSomeAnd, MatchResult, IfOk, IsOk, List};
ghost use Rattle.std.specs.Prelude.{option_map, option_and_then};
ghost use Rattle.sqlite.specs.Held.{state};
ghost use Rattle.acvp_answers.specs.VerdictText.{verdicts_text};
ghost use Rattle.acvp_answers.specs.declared.verdict.Verdict.{Verdict as Letters};
ghost use Rattle.acvp_tables.specs.Content.{set_at, set_verdicts};
ghost use Rattle.acvp_tables.specs.declared.rows.SetRow.{SetRow as Set};
ghost use Rattle.acvp_store.specs.Connection.{ServesStore, InStore, IsRead};
ghost use Rattle.acvp_store.specs.Stands.{HoldsSets, set_tree};
ghost use Rattle.acvp_store.specs.Private.Columns.{capability_column};
ghost use Rattle.acvp_store.specs.Private.SetTexts.{IsCapabilityOf, IsOfCapability, AreVerdictsOf, TellsCapability};
ghost use Rattle.acvp_store.specs.Private.SetTexts.{TellsVerdicts, text_shown};
ghost use Rattle.acvp_store.specs.Private.Shown.{AreMet, is_under};

use crate::columns::{field, key};
use crate::members::{Member, answered};
use crate::queries::asked;
use acvp_answers::{TextFault, Verdict, verdicts_from_text};
use acvp_caps::{CapFault, Capability};
use acvp_tables::StoreFault;
use sqlite::{Alter, Connection, Row};
use std::alloc::Global;
use std::marker::Model;

/// The one column of a row, a text or NULL.
#[derive(Drop)]
pub(crate) struct TextColumn {
    text: Option<String>,
}

impl Model for TextColumn {
    ghost use Rattle.std.specs.Prelude.{ℕ, List, Option, option_map};
    ghost use Rattle.std.specs.Prelude.{string_bytes};

    ghost Value = { Option (List ℕ) };

    ghost view = { λ c. option_map string_bytes c.text };
}

impl Member for TextColumn {
    ghost use Rattle.std.specs.Prelude.{⊤};
    ghost use Rattle.acvp_store.specs.Private.Shown.{IsText};
    ghost use Rattle.acvp_store.specs.Private.SetTexts.{text_shown};

    ghost shown = { text_shown };

    ghost reads = { λ _. ⊤ };

    ghost fits = { IsText };

    ghost judged_so = { λ _. ⊤ };

    fn read(row: &Row) -> Result<TextColumn, StoreFault> {
        let text: Option<String> = field(row, 0)?;
        Ok(TextColumn { text })
    }
}

/// The capability of a column. It is Refused where the column has none.
fn capability_of(alloc: Global, column: &TextColumn) -> Result<Capability, StoreFault>
    ensures told { IfOk result (IsCapabilityOf column.now) }
    ensures refused { IfErr result (λ fault. fault ≡ StoreFault.Refused → ¬ IsOfCapability column.now) }
{
    let Some(text) = &column.text else {
        return Err(StoreFault::Refused);
    };
    match Capability::from_text(alloc, text.as_str()) {
        Ok(capability) => Ok(capability),
        Err(CapFault::Memory) => Err(StoreFault::Memory),
        Err(_) => Err(StoreFault::Refused),
    }
}

/// The capability of the column that was found.
fn capability_in(
    alloc: Global,
    found: Result<Option<TextColumn>, StoreFault>,
) -> Result<Option<Capability>, StoreFault>
    ensures told { IfOk result (λ told. IfOk found (λ column. TellsCapability column told)) }
    ensures refused { IfErr result (λ fault. fault ≡ StoreFault.Refused
        → MatchResult found (λ column. IsSomeAnd column (λ text. ¬ IsOfCapability text))
        (λ fault. fault ≡ StoreFault.Refused)) }
    ensures ok { IsOk result → IsOk found }
{
    match found {
        Ok(None) => Ok(None),
        Ok(Some(column)) => match capability_of(alloc, &column) {
            Ok(capability) => Ok(Some(capability)),
            Err(fault) => Err(fault),
        },
        Err(fault) => Err(fault),
    }
}

/// The capability of the vector set of a number.
pub(crate) fn find_capability<S: Alter>(
    alloc: Global,
    conn: &mut Connection<S>,
    number: u64,
) -> Result<Option<Capability>, StoreFault>
    requires { ServesStore (state S.Store conn.old) }
    ensures found { IsTrue (state S.Store conn.new).is_open
        → IfOk result (λ found. InStore (state S.Store conn.old).now (λ layout. (sets : List Set)
        → HoldsSets ((state S.Store conn.old).now.trees (set_tree layout)) sets
        → found ≡ option_map (λ row. row.capability) (set_at number sets))) }
    ensures judged { IsTrue (state S.Store conn.new).is_open → number < 2 ^ 63
        → IfOk result (λ _. InStore (state S.Store conn.old).now
        (λ layout. AreMet (is_under number) capability_column text_shown IsOfCapability
        ((state S.Store conn.old).now.trees (set_tree layout)))) }
    ensures read { IsRead result (state S.Store conn.old) (state S.Store conn.new) }
{
    capability_in(
        alloc,
        answered(asked(
            conn,
            "SELECT capability FROM vset2 WHERE vs = ?1",
            &[key(number)],
        )),
    )
}

/// The verdicts of a column; none where it is NULL. It is Refused where the text is that of none.
fn verdicts_of(alloc: Global, column: &TextColumn) -> Result<Option<Vec<Verdict>>, StoreFault>
    ensures told { IfOk result (λ told. AreVerdictsOf column.now (option_map (λ v. v.items) told)) }
    ensures refused { IfErr result (λ fault. fault ≡ StoreFault.Refused → (verdicts : List Letters)
        → column.now ≢ Some (verdicts_text verdicts)) }
{
    let Some(text) = &column.text else {
        return Ok(None);
    };
    match verdicts_from_text(alloc, text.as_str()) {
        Ok(verdicts) => Ok(Some(verdicts)),
        Err(TextFault::Memory) => Err(StoreFault::Memory),
        Err(TextFault::Letter) => Err(StoreFault::Refused),
    }
}

/// The verdicts of the column that was found.
fn verdicts_in(
    alloc: Global,
    found: Result<Option<TextColumn>, StoreFault>,
) -> Result<Option<Vec<Verdict>>, StoreFault>
    ensures told { IfOk result (λ told. IfOk found (λ column. TellsVerdicts column (option_map (λ v. v.items) told))) }
    ensures refused { IfErr result (λ fault. fault ≡ StoreFault.Refused
        → MatchResult found (λ column. IsSomeAnd column (λ text. (verdicts : List Letters)
        → text ≢ Some (verdicts_text verdicts))) (λ fault. fault ≡ StoreFault.Refused)) }
    ensures ok { IsOk result → IsOk found }
{
    match found {
        Ok(None) => Ok(None),
        Ok(Some(column)) => verdicts_of(alloc, &column),
        Err(fault) => Err(fault),
    }
}

/// The verdicts on the last answers to the vector set of a number, where there are any.
pub(crate) fn find_verdicts<S: Alter>(
    alloc: Global,
    conn: &mut Connection<S>,
    number: u64,
) -> Result<Option<Vec<Verdict>>, StoreFault>
    requires { ServesStore (state S.Store conn.old) }
    ensures found { IsTrue (state S.Store conn.new).is_open
        → IfOk result (λ found. InStore (state S.Store conn.old).now (λ layout. (sets : List Set)
        → HoldsSets ((state S.Store conn.old).now.trees (set_tree layout)) sets
        → option_map (λ v. v.items) found ≡ option_and_then set_verdicts (set_at number sets))) }
    ensures read { IsRead result (state S.Store conn.old) (state S.Store conn.new) }
{
    verdicts_in(
        alloc,
        answered(asked(
            conn,
            "SELECT verdicts FROM vset2 WHERE vs = ?1",
            &[key(number)],
        )),
    )
}
