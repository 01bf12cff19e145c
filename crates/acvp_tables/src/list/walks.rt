//! Walks over lists of rows: what passes a test is found, counted, shown or edited.
ghost use Rattle.std.specs.Prelude.{◌≡◌, ◌++◌, ◌∷◌, [], Bool, IfErr, IfOk, OnOk, OnErr, MatchOption, true, false};
ghost use Rattle.std.specs.Prelude.{◌<◌, filter, find, if◌then◌else◌, length, map, option_map, slice_index_or};
ghost use Rattle.std.specs.Prelude.{vec_capacity, vec_len};
ghost use Rattle.std.specs.List.{list_any};
ghost use Rattle.acvp_tables.specs.Content.{page};
ghost use Rattle.acvp_tables.specs.Changes.{changed};
ghost use Rattle.acvp_tables.specs.declared.tables.StoreFault.TheVariants.{Memory};

use crate::tables::StoreFault;
use std::alloc::{AllocError, Global};

/// A test of a row.
pub(crate) trait Predicate<R> {
    ghost passes: { Self → R → Bool };

    fn test(&self, row: &R) -> bool
        ensures { result ≡ passes self.now row.now };
}

/// What is handed out of a row.
pub(crate) trait Show<R, Out> {
    ghost shown: { Self → R → Out };

    fn show(&self, row: &R) -> Result<Out, AllocError>
        ensures { IfOk result (λ out. out ≡ shown self.now row.now) };
}

/// What becomes of a row.
pub(crate) trait Edit<R> {
    ghost edited: { Self → R → R };

    fn edit(&self, row: &mut R)
        ensures { row.new ≡ edited self.now row.old };
}

/// The first row that passes.
pub(crate) fn first<'a, R, T: Predicate<R>>(rows: &'a [R], test: &T) -> Option<&'a R>
    ensures { option_map (λ row. row.now) result ≡ find (T.passes test.now) rows.now }
{
    for row in rows {
        if test.test(row) {
            return Some(row);
        }
    }
    None
}

/// What is shown of the first row that passes.
pub(crate) fn first_shown<R, Out: Drop, T: Predicate<R>, S: Show<R, Out>>(
    rows: &[R],
    test: &T,
    show: &S,
) -> Result<Option<Out>, AllocError>
    ensures { IfOk result (λ found. found ≡ option_map (S.shown show.now) (find (T.passes test.now) rows.now)) }
{
    match first(rows, test) {
        Some(row) => Ok(Some(show.show(row)?)),
        None => Ok(None),
    }
}

/// Whether a row passes.
pub(crate) fn any<R, T: Predicate<R>>(rows: &[R], test: &T) -> bool
    ensures { result ≡ list_any (T.passes test.now) rows.now }
{
    for row in rows {
        if test.test(row) {
            return true;
        }
    }
    false
}

/// The place of a row that passes, from 0 on.
pub(crate) fn position_of<R, T: Predicate<R>>(rows: &[R], test: &T) -> Option<usize>
    ensures { MatchOption result
        (list_any (T.passes test.now) rows.now ≡ false)
        (λ i. (i < length rows.now) × ((d : R) → T.passes test.now (slice_index_or rows.now i d) ≡ true)) }
{
    let mut place = 0;
    for row in rows {
        if test.test(row) {
            return Some(place);
        }
        place += 1;
    }
    None
}

/// How many rows pass.
pub(crate) fn count<R, T: Predicate<R>>(rows: &[R], test: &T) -> u64
    ensures { result ≡ length (filter (T.passes test.now) rows.now) }
{
    let mut count = 0;
    for row in rows {
        if test.test(row) {
            count += 1;
        }
    }
    count
}

/// What is shown of the rows that pass.
pub(crate) fn all<R, Out: Drop, T: Predicate<R>, S: Show<R, Out>>(
    alloc: Global,
    rows: &[R],
    test: &T,
    show: &S,
) -> Result<Vec<Out>, AllocError>
    ensures { IfOk result (λ found. found.items ≡ map (S.shown show.now) (filter (T.passes test.now) rows.now)) }
{
    let mut found = Vec::new(alloc);
    for row in rows {
        if test.test(row) {
            push_shown(&mut found, row, show)?;
        }
    }
    Ok(found)
}

/// Puts what is shown of a row behind what was found.
fn push_shown<R, Out: Drop, S: Show<R, Out>>(
    found: &mut Vec<Out>,
    row: &R,
    show: &S,
) -> Result<(), AllocError>
    ensures { OnOk result (found.new.items ≡ found.old.items ++ S.shown show.now row.now ∷ []) }
{
    let out = show.show(row)?;
    match found.push(out) {
        Ok(()) => Ok(()),
        Err(_) => Err(AllocError),
    }
}

/// What is shown of so many of the rows that pass, from the offset on.
pub(crate) fn page<R, Out: Drop, T: Predicate<R>, S: Show<R, Out>>(
    alloc: Global,
    rows: &[R],
    test: &T,
    show: &S,
    offset: u64,
    limit: u64,
) -> Result<Vec<Out>, AllocError>
    ensures { IfOk result (λ found. found.items
        ≡ page offset limit (map (S.shown show.now) (filter (T.passes test.now) rows.now))) }
{
    let mut found = Vec::new(alloc);
    let mut to_skip = offset;
    let mut to_show = limit;
    for row in rows {
        if to_show == 0 {
            return Ok(found);
        }
        if test.test(row) {
            if to_skip == 0 {
                push_shown(&mut found, row, show)?;
                to_show -= 1;
            } else {
                to_skip -= 1;
            }
        }
    }
    Ok(found)
}

/// Edits the row where it passes.
fn change_one<R, T: Predicate<R>, E: Edit<R>>(row: &mut R, test: &T, edit: &E)
    ensures { row.new ≡ (if T.passes test.now row.old then E.edited edit.now row.old else row.old) }
{
    if test.test(row) {
        edit.edit(row);
    }
}

/// Edits the rows that pass.
pub(crate) fn change<R, T: Predicate<R>, E: Edit<R>>(rows: &mut [R], test: &T, edit: &E)
    ensures { rows.new ≡ changed (T.passes test.now) (E.edited edit.now) rows.old }
{
    for row in rows.iter_mut() {
        change_one(row, test, edit);
    }
}

/// Edits the rows of a table that pass.
pub(crate) fn change_all<R: Drop, T: Predicate<R>, E: Edit<R>>(
    rows: &mut Vec<R>,
    test: &T,
    edit: &E,
)
    ensures { rows.new.items ≡ changed (T.passes test.now) (E.edited edit.now) rows.old.items }
{
    change(rows, test, edit);
}

/// Adds a row to a table that has room for it.
pub(crate) fn push_reserved<R: Drop>(rows: &mut Vec<R>, row: R)
    requires { vec_len rows.old < vec_capacity rows.old }
    ensures { rows.new.items ≡ rows.old.items ++ row ∷ [] }
{
    match rows.push(row) {
        Ok(()) => (),
        Err(_) => unreachable!(),
    }
}

/// Adds a row to a table.
pub(crate) fn push<R: Drop>(rows: &mut Vec<R>, row: R) -> Result<(), StoreFault>
    ensures ok { OnOk result (rows.new.items ≡ rows.old.items ++ row ∷ []) }
    ensures err { OnErr result (rows.new.items ≡ rows.old.items) }
    ensures memory { IfErr result (λ fault. fault ≡ Memory) }
{
    match rows.push(row) {
        Ok(()) => Ok(()),
        Err(_) => Err(StoreFault::Memory),
    }
}
