//! Whether the rows of a database are records that have what every run keeps.
ghost use Rattle.std.specs.Prelude.{◌≡◌, ℕ, List, true, false, IfOk, IsTrue, string_bytes};
ghost use Rattle.sqlite.specs.Held.{state};
ghost use Rattle.acvp_store.specs.Adopted.{IsOurs};
ghost use Rattle.acvp_store.specs.Connection.{InStore};
ghost use Rattle.acvp_audit.specs.Checked.{IsReading};
ghost use Rattle.acvp_audit.specs.Read.{AreInTrees};
ghost use Rattle.acvp_view.specs.Checked.{IsWholeLine, IsWrongLine};

use crate::damaged::{damage_text, whole_text};
use crate::fault::ViewFault;
use crate::form::Form;
use crate::lines::Lines;
use acvp_audit::{AuditFault, Watch, check};
use acvp_gen::Seeds;
use acvp_store::SqlTables;
use sqlite::Alter;
use std::alloc::Global;

/// The line of a check, which says how many rows there are or what is wrong with them, and whether they are whole.
fn check_text<S: Alter, W: Watch>(
    alloc: Global,
    tables: &mut SqlTables<S>,
    form: Form,
    seeds: &Seeds,
    grades: bool,
    watch: &W,
) -> Result<(String, bool), ViewFault>
    ensures whole { IsTrue (state S.Store tables.new).is_open
        → IfOk result (λ told. told.1 ≡ true → (ours : IsOurs (state S.Store tables.old).now)
        → AreInTrees ours.layout (state S.Store tables.old).now.trees
        → IsWholeLine form grades seeds.now ours.layout (state S.Store tables.old).now.trees (string_bytes told.0)) }
    ensures wrong { IsTrue (state S.Store tables.new).is_open
        → IfOk result (λ told. told.1 ≡ false → InStore (state S.Store tables.old).now
        (λ layout. IsWrongLine form grades seeds.now layout (state S.Store tables.old).now.trees
        (string_bytes told.0))) }
    ensures read { IsReading result (state S.Store tables.old) (state S.Store tables.new) }
{
    match check(alloc, tables, seeds, grades, watch) {
        Ok(totals) => Ok((whole_text(alloc, form, totals)?, true)),
        Err(AuditFault::Wrong(damage)) => Ok((damage_text(alloc, form, damage)?, false)),
        Err(AuditFault::Store(fault)) => Err(ViewFault::from(fault)),
    }
}

/// Hands on how many rows there are, or what is wrong with them, and says whether they are whole.
pub fn show_check<S: Alter, L: Lines, W: Watch>(
    alloc: Global,
    tables: &mut SqlTables<S>,
    lines: &mut L,
    form: Form,
    seeds: &Seeds,
    grades: bool,
    watch: &W,
) -> Result<bool, ViewFault>
    ensures whole { IsTrue (state S.Store tables.new).is_open
        → IfOk result (λ whole. whole ≡ true → (ours : IsOurs (state S.Store tables.old).now)
        → AreInTrees ours.layout (state S.Store tables.old).now.trees
        → (line : List ℕ) × IsWholeLine form grades seeds.now ours.layout (state S.Store tables.old).now.trees line
        × L.takes lines.old line lines.new) }
    ensures wrong { IsTrue (state S.Store tables.new).is_open
        → IfOk result (λ whole. whole ≡ false → InStore (state S.Store tables.old).now
        (λ layout. (line : List ℕ) × IsWrongLine form grades seeds.now layout (state S.Store tables.old).now.trees line
        × L.takes lines.old line lines.new)) }
    ensures read { IsReading result (state S.Store tables.old) (state S.Store tables.new) }
{
    let (line, whole) = check_text(alloc, tables, form, seeds, grades, watch)?;
    lines.take(line.as_str())?;
    Ok(whole)
}
