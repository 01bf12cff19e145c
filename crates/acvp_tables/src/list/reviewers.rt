//! Reviewers as a list.
ghost use Rattle.std.specs.Prelude.{◌≡◌, ◌==◌, ◌&&◌, [], not, map, filter, OnOk, OnErr, IfErr, IfOk};
ghost use Rattle.acvp_tables.specs.Private.Ascending.{with_number, ascending};
ghost use Rattle.acvp_tables.specs.declared.tables.StoreFault.TheVariants.{Memory};
ghost use Rattle.acvp_tables.specs.Changes.{is_pair, with_reviewer};

use crate::list::walks::{Predicate, any, push};
use crate::rows::ReviewerRow;
use crate::tables::StoreFault;
use std::alloc::{AllocError, Global};

/// A reviewer of a session.
#[derive(Drop)]
pub(crate) struct ReviewerIs {
    pub session: u64,
    pub account: u16,
}

impl Predicate<ReviewerRow> for ReviewerIs {
    ghost passes = { λ t row. (row.session == t.session) && (row.account == t.account) };

    fn test(&self, row: &ReviewerRow) -> bool {
        row.session == self.session && row.account == self.account
    }
}

/// Puts a number at its place in an ascending list.
fn put(numbers: &mut Vec<u16>, number: u16) -> Result<(), AllocError>
    ensures { OnOk result (numbers.new.items ≡ with_number number numbers.old.items) }
{
    let mut place = 0;
    for other in numbers.iter() {
        if number <= *other {
            break;
        }
        place += 1;
    }
    match numbers.insert(place, number) {
        Ok(()) => Ok(()),
        Err(_) => Err(AllocError),
    }
}

/// The reviewers of a session, ascending.
pub(crate) fn reviewers_of(
    alloc: Global,
    rows: &[ReviewerRow],
    session: u64,
) -> Result<Vec<u16>, AllocError>
    ensures { IfOk result (λ numbers. numbers.items
        ≡ ascending [] (map (λ row. row.account) (filter (λ row. row.session == session) rows.now))) }
{
    let mut numbers = Vec::new(alloc);
    for row in rows {
        if row.session == session {
            put(&mut numbers, row.account)?;
        }
    }
    Ok(numbers)
}

/// Adds a reviewer who isn't there.
pub(crate) fn add(rows: &mut Vec<ReviewerRow>, reviewer: &ReviewerRow) -> Result<(), StoreFault>
    ensures ok { OnOk result (rows.new.items ≡ with_reviewer reviewer.now rows.old.items) }
    ensures err { OnErr result (rows.new.items ≡ rows.old.items) }
    ensures memory { IfErr result (λ fault. fault ≡ Memory) }
{
    let there = ReviewerIs {
        session: reviewer.session,
        account: reviewer.account,
    };
    if any(rows, &there) {
        return Ok(());
    }
    push(rows, *reviewer)
}

/// Takes a reviewer out.
pub(crate) fn remove(rows: &mut Vec<ReviewerRow>, reviewer: ReviewerRow)
    ensures { rows.new.items ≡ filter (λ row. not (is_pair reviewer row)) rows.old.items }
{
    rows.retain(|row| row.session != reviewer.session || row.account != reviewer.account);
}
