//! Walks over rows: what holds of each, what passes a test.
ghost use Rattle.std.specs.Prelude.{◌≡◌, ◌<◌, ◌^◌, ℕ, Bool, List, [], ◌∷◌, filter, find, is_some, length};
ghost use Rattle.std.specs.List.{flat_map, list_any};
ghost use Rattle.acvp_mac.specs.Conditions.{Condition, judged};
ghost use Rattle.acvp_check.specs.Conditions.{finding, numbered};
ghost use Rattle.acvp_check.specs.declared.finding.Finding.{Finding as FindingValue};
ghost use Rattle.acvp_check.specs.declared.finding.RowKey.{RowKey as KeyValue};

use crate::finding::{Finding, RowKey, Wrong};

/// Whether a condition holds, or else what is wrong with a row.
pub(crate) fn check(holds: bool, row: RowKey, wrong: Wrong) -> Result<(), Finding>
    ensures { result ≡ judged ((holds, finding row wrong) ∷ []) tt }
{
    if holds {
        Ok(())
    } else {
        Err(Finding { row, wrong })
    }
}

/// A test of a row.
pub(crate) trait Predicate<R> {
    ghost passes: { Self → R → Bool };

    fn test(&self, row: &R) -> bool
        ensures { result ≡ passes self.now row.now };
}

/// Whether a row passes.
pub(crate) fn any<R, T: Predicate<R>>(rows: &[R], test: &T) -> bool
    ensures { result ≡ list_any (T.passes test.now) rows.now }
{
    for row in rows {
        if test.test(row) {
            return true;
        }
    }
    false
}

/// Whether a row is found that passes.
#[tactic(auto, using(crate::proofs::Joins::found_any))]
pub(crate) fn found<R, T: Predicate<R>>(rows: &[R], test: &T) -> bool
    ensures { result ≡ is_some (find (T.passes test.now) rows.now) }
{
    any(rows, test)
}

/// How many rows pass.
pub(crate) fn count<R, T: Predicate<R>>(rows: &[R], test: &T) -> u64
    ensures { result ≡ length (filter (T.passes test.now) rows.now) }
{
    let mut count = 0;
    for row in rows {
        if test.test(row) {
            count += 1;
        }
    }
    count
}

/// The conditions on a row.
pub(crate) trait Judge<R> {
    ghost conditions: { Self → R → List (Condition FindingValue) };

    fn judge(&self, row: &R) -> Result<(), Finding>
        ensures { result ≡ judged (conditions self.now row.now) tt };
}

/// The first condition that is broken, of all rows.
pub(crate) fn each<R, J: Judge<R>>(rows: &[R], judge: &J) -> Result<(), Finding>
    ensures { result ≡ judged (flat_map (J.conditions judge.now) rows.now) tt }
{
    for row in rows {
        judge.judge(row)?;
    }
    Ok(())
}

/// Rows that are numbered by themselves.
pub(crate) trait Numbers<R> {
    ghost selected: { Self → R → Bool };

    ghost number: { R → ℕ };

    ghost key: { R → KeyValue };

    /// Whether it is one of them.
    fn selects(&self, row: &R) -> bool
        ensures { result ≡ selected self.now row.now };

    /// Its number.
    fn number(&self, row: &R) -> u64
        ensures { result ≡ number row.now };

    /// Its table and key.
    fn key(&self, row: &R) -> RowKey
        ensures { result ≡ key row.now };
}

/// The first row that hasn't the next number.
pub(crate) fn rise<R, N: Numbers<R>>(rows: &[R], these: &N, first: u128) -> Result<(), Finding>
    requires { first < 2 ^ 80 }
    ensures { result ≡ judged (numbered N.number N.key first (filter (N.selected these.now) rows.now)) tt }
{
    let mut next = first;
    for row in rows {
        if these.selects(row) {
            check(
                u128::from(these.number(row)) == next,
                these.key(row),
                Wrong::Number,
            )?;
            next += 1;
        }
    }
    Ok(())
}
