//! Vector sets as a list.
ghost use Rattle.std.specs.Prelude.{◌≡◌, ◌≤◌, ◌<◌, IfOk, filter, length, option_map};
ghost use Rattle.acvp_tables.specs.Content.{is_live_in, set_summary, set_verdicts, greater, greatest_epoch_of};
ghost use Rattle.acvp_tables.specs.State.{owner_of};
ghost use Rattle.acvp_tables.specs.Changes.{changed, is_set, cancelled_set, new_sets, with_graded};

use crate::change::NewSession;
use crate::graded::Graded;
use crate::list::walks::{Edit, Predicate, Show, position_of};
use crate::rows::SetRow;
use crate::summary::SetSummary;
use acvp_answers::Verdict;
use acvp_caps::Capability;
use std::alloc::{AllocError, Global};

/// The set of a number.
#[derive(Drop)]
pub(crate) struct SetIs {
    pub number: u64,
}

impl Predicate<SetRow> for SetIs {
    ghost passes = { λ t row. is_set t.number row };

    fn test(&self, row: &SetRow) -> bool {
        row.number == self.number
    }
}

/// The sets of a session that aren't cancelled.
#[derive(Drop)]
pub(crate) struct LiveIn {
    pub session: u64,
}

impl Predicate<SetRow> for LiveIn {
    ghost passes = { λ t row. is_live_in t.session row };

    fn test(&self, row: &SetRow) -> bool {
        row.session == self.session && !row.cancelled
    }
}

/// A set without its capability and answers.
pub(crate) fn summary(row: &SetRow) -> SetSummary
    ensures { result ≡ set_summary row.now }
{
    SetSummary {
        number: row.number,
        session: row.session,
        epoch: row.epoch,
        cancelled: row.cancelled,
        disposition: match &row.graded {
            Some(graded) => Some(graded.disposition()),
            None => None,
        },
    }
}

/// A set without its capability and answers.
#[derive(Drop)]
pub(crate) struct SetInShort;

impl Show<SetRow, SetSummary> for SetInShort {
    ghost shown = { λ _ row. set_summary row };

    fn show(&self, row: &SetRow) -> Result<SetSummary, AllocError> {
        Ok(summary(row))
    }
}

/// Its capability.
#[derive(Drop)]
pub(crate) struct ItsCapability;

impl Show<SetRow, Capability> for ItsCapability {
    ghost shown = { λ _ row. row.capability };

    fn show(&self, row: &SetRow) -> Result<Capability, AllocError> {
        row.capability.clone()
    }
}

/// The verdicts that a set has.
pub(crate) fn verdicts(alloc: Global, row: &SetRow) -> Result<Option<Vec<Verdict>>, AllocError>
    ensures { IfOk result (λ found. option_map (λ v. v.items) found ≡ set_verdicts row.now) }
{
    match &row.graded {
        Some(graded) => {
            let mut verdicts = Vec::new(alloc);
            verdicts.extend_from_slice(graded.verdicts())?;
            Ok(Some(verdicts))
        }
        None => Ok(None),
    }
}

/// It is cancelled.
#[derive(Drop)]
pub(crate) struct CancelSet;

impl Edit<SetRow> for CancelSet {
    ghost edited = { λ _ row. cancelled_set row };

    fn edit(&self, row: &mut SetRow) {
        row.cancelled = true;
    }
}

/// The rows of a new session's sets.
pub(crate) fn new_sets(alloc: Global, session: &NewSession) -> Result<Vec<SetRow>, AllocError>
    requires { owner_of session.now.number ≡ session.now.account }
    ensures { IfOk result (λ rows. rows.items
        ≡ new_sets session.now.number session.now.epoch 1 session.now.registration.capabilities) }
{
    let mut rows = Vec::new(alloc);
    let mut number = session.number * 100;
    for capability in session.registration.capabilities() {
        number += 1;
        let capability = capability.clone()?;
        rows.push(SetRow {
            number,
            session: session.number,
            capability,
            epoch: session.epoch,
            cancelled: false,
            graded: None,
        })?;
    }
    Ok(rows)
}

/// Keeps answers in the set of a number, in the place of those that were kept.
pub(crate) fn keep(rows: &mut [SetRow], number: u64, graded: Graded)
    ensures { length (filter (is_set number) rows.old) ≤ 1
        → rows.new ≡ changed (is_set number) (with_graded graded) rows.old }
{
    if let Some(place) = position_of(rows, &SetIs { number }) {
        rows[place].graded = Some(graded);
    }
}

/// The greater of an epoch and another, where there is one.
fn greater(epoch: u64, other: Option<u64>) -> u64
    ensures { result ≡ greater epoch other }
{
    match other {
        Some(other) if epoch < other => other,
        _ => epoch,
    }
}

/// The greatest epoch of all sets.
#[tactic(auto, using(crate::proofs::EpochLemmas::merged_more))]
pub(crate) fn greatest_epoch(rows: &[SetRow]) -> Option<u64>
    ensures { result ≡ greatest_epoch_of rows.now }
{
    let mut greatest = None;
    for row in rows {
        greatest = Some(greater(row.epoch, greatest));
    }
    greatest
}
