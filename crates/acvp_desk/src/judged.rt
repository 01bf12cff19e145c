//! The vector sets that a certification rests on are read whole: those of its session that aren't cancelled. So none is
//! asked for or given over one that stands for nothing.

ghost use Rattle.std.specs.Prelude.{IfErr, map};
ghost use Rattle.acvp_tables.specs.Calls.{Finds};
ghost use Rattle.acvp_tables.specs.Content.{live_sets, set_summary};
ghost use Rattle.acvp_desk.specs.Serves.{Looks};

use crate::numbers::is_of_account;
use acvp_tables::{SetSummary, StoreFault, Tables};

/// Reads all of the vector set of a number.
fn judge_set<T: Tables>(tables: &mut T, number: u64) -> Result<(), StoreFault>
    ensures looks { Looks T.meaning result tables.old tables.new }
    ensures fault { IfErr result T.faults }
{
    let _ = tables.set(number)?;
    let _ = tables.capability(number)?;
    let _ = tables.verdicts(number)?;
    Ok(())
}

/// Reads all of each of these.
fn judge_sets<T: Tables>(tables: &mut T, sets: &[SetSummary]) -> Result<(), StoreFault>
    ensures looks { Looks T.meaning result tables.old tables.new }
    ensures fault { IfErr result T.faults }
{
    for set in sets {
        judge_set(tables, set.number)?;
    }
    Ok(())
}

/// A session's vector sets that aren't cancelled, after all of each is read.
pub(crate) fn judged_sets<T: Tables>(
    tables: &mut T,
    session: u64,
) -> Result<Vec<SetSummary>, StoreFault>
    ensures found { Finds T.meaning (λ sets. sets.items) result tables.old tables.new
        (λ c. map set_summary (live_sets session c.sets)) }
    ensures looks { Looks T.meaning result tables.old tables.new }
    ensures fault { IfErr result T.faults }
{
    let sets = tables.sets_of(session)?;
    judge_sets(tables, &sets)?;
    Ok(sets)
}

/// Reads all of these of a session, where its number is one that the account gives. No row of another account is read.
pub(crate) fn judge_own_sets<T: Tables>(
    tables: &mut T,
    account: u16,
    session: u64,
) -> Result<(), StoreFault>
    ensures looks { Looks T.meaning result tables.old tables.new }
{
    if is_of_account(session, account) {
        let _ = judged_sets(tables, session)?;
    }
    Ok(())
}
