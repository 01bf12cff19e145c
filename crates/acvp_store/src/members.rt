//! What the rows of a query's answer are of.
ghost use Rattle.std.specs.Prelude.{MatchResult, ◌≡◌, map, slice_get, option_to_list, IfOk, IfErr, IsOk, Ok, List};
ghost use Rattle.std.specs.Prelude.{IsPermutation};
ghost use Rattle.std.specs.List.{AllZip, AllByRecursion};
ghost use Rattle.sqlite_value.specs.Order.{Row as Columns};
ghost use Rattle.acvp_store.specs.Private.Pages.{IsRowOf};
ghost use Rattle.acvp_store.specs.Private.Shown.{BeginsWith, AreShown, IsOfNone, HasOneOfNone, HasNoOne};

use acvp_tables::StoreFault;
use sqlite::Row;
use std::alloc::Global;

/// What a query shows as one row.
pub(crate) trait Member {
    /// Its columns.
    ghost shown: { Self → Columns };

    /// Its texts read as what they were written for.
    ghost reads: { Self → Type 0 };

    /// Its numbers and texts are such as the program has.
    ghost fits: { Self → Type 0 };

    /// It is judged to be so, beside its columns.
    ghost judged_so: { Self → Type 0 };

    /// Reads a row. It is Refused where the row can't be that of any.
    fn read(row: &Row) -> Result<Self, StoreFault>
        ensures known { IfOk result (IsRowOf reads shown row.now) }
        ensures judged { IfOk result (λ x. BeginsWith (shown x) row.now × judged_so x) }
        ensures refused { IfErr result (λ fault. fault ≡ StoreFault.Refused
            → IsOfNone (λ x. reads x × fits x) shown row.now) };
}

/// What each row is of.
fn each<T: Member + Drop>(alloc: Global, rows: &[Row]) -> Result<Vec<T>, StoreFault>
    ensures known { IfOk result (λ found. AllZip (IsRowOf T.Member.reads T.Member.shown) rows.now found.items) }
    ensures judged { IfOk result (λ found. AreShown T.Member.judged_so T.Member.shown rows.now found.items) }
    ensures refused { IfErr result (λ fault. fault ≡ StoreFault.Refused
        → HasOneOfNone (λ x. T.Member.reads x × T.Member.fits x) T.Member.shown rows.now) }
{
    let mut found = Vec::new(alloc);
    for row in rows {
        let value = T::read(row)?;
        match found.push(value) {
            Ok(()) => {}
            Err(_) => return Err(StoreFault::Memory),
        }
    }
    Ok(found)
}

/// What the rows of a query's answer are of.
pub(crate) fn listed<T: Member + Drop>(
    alloc: Global,
    outcome: Result<Vec<Row>, StoreFault>,
) -> Result<Vec<T>, StoreFault>
    ensures found { IfOk result (λ found. IfOk outcome (λ rows. (list : List T) → AllByRecursion T.Member.reads list
        → rows.items ≡ map T.Member.shown list → found.items ≡ list)) }
    ensures judged { IfOk result
        (λ found. IfOk outcome (λ rows. AreShown T.Member.judged_so T.Member.shown rows.items found.items)) }
    ensures refused { IfErr result (λ fault. fault ≡ StoreFault.Refused
        → MatchResult outcome (λ rows. HasOneOfNone (λ x. T.Member.reads x × T.Member.fits x) T.Member.shown rows.items)
        (λ fault. fault ≡ StoreFault.Refused)) }
    ensures ok { IsOk result → IsOk outcome }
{
    match outcome {
        Ok(rows) => each(alloc, &rows),
        Err(fault) => Err(fault),
    }
}

/// What the one row is of, where there is one. More are Refused.
fn one<T: Member + Drop>(rows: &[Row]) -> Result<Option<T>, StoreFault>
    ensures found { IfOk result (λ found. (list : List T) → AllByRecursion T.Member.reads list
        → IsPermutation (map T.Member.shown list) rows.now → found ≡ slice_get list 0) }
    ensures judged { IfOk result
        (λ found. AreShown T.Member.judged_so T.Member.shown rows.now (option_to_list found)) }
    ensures refused { IfErr result (λ fault. fault ≡ StoreFault.Refused
        → HasNoOne (λ x. T.Member.reads x × T.Member.fits x) T.Member.shown rows.now) }
{
    if rows.len() > 1 {
        return Err(StoreFault::Refused);
    }
    match rows.first() {
        None => Ok(None),
        Some(row) => match T::read(row) {
            Ok(x) => Ok(Some(x)),
            Err(fault) => Err(fault),
        },
    }
}

/// What the one row of a query's answer is of, where there is one.
pub(crate) fn answered<T: Member + Drop>(
    outcome: Result<Vec<Row>, StoreFault>,
) -> Result<Option<T>, StoreFault>
    ensures found { IfOk result (λ found. IfOk outcome (λ rows. (list : List T) → AllByRecursion T.Member.reads list
        → IsPermutation (map T.Member.shown list) rows.items → found ≡ slice_get list 0)) }
    ensures judged { IfOk result
        (λ found. IfOk outcome (λ rows. AreShown T.Member.judged_so T.Member.shown rows.items
        (option_to_list found))) }
    ensures refused { IfErr result (λ fault. fault ≡ StoreFault.Refused
        → MatchResult outcome (λ rows. HasNoOne (λ x. T.Member.reads x × T.Member.fits x) T.Member.shown rows.items)
        (λ fault. fault ≡ StoreFault.Refused)) }
    ensures ok { IsOk result → IsOk outcome }
{
    match outcome {
        Ok(rows) => one(&rows),
        Err(fault) => Err(fault),
    }
}
