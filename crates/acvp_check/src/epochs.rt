//! The conditions on epochs: what every run keeps of them.
ghost use Rattle.std.specs.Prelude.{◌≡◌, ◌≤◌, ◌<◌, ◌==◌, ◌&&◌, ℕ, length, nat_le, nat_lt, true};
ghost use Rattle.std.specs.List.{slice_index_or};
ghost use Rattle.acvp_mac.specs.Conditions.{judged};
ghost use Rattle.acvp_desk.specs.Epochs.{is_in_its_epoch, is_no_earlier};
ghost use Rattle.acvp_tables.specs.declared.rows.SetRow.{SetRow as SetValue};
ghost use Rattle.acvp_check.specs.Conditions.{epoch_conditions, epoch_row_conditions};
ghost use Rattle.acvp_check.specs.Near.{Ascend};

use crate::finding::{Finding, RowKey, Wrong};
use crate::near::ascend;
use crate::owners::NUMBERS_OF_AN_ACCOUNT;
use crate::rows::Rows;
use crate::walks::{Judge, check, each};
use acvp_tables::SetRow;

/// Whether a vector set is of this session and epoch.
fn is_of(set: &SetRow, session: u64, epoch: u64) -> bool
    ensures { result ≡ ((set.now.session == session) && (set.now.epoch == epoch)) }
{
    set.session == session && set.epoch == epoch
}

/// Whether a vector set is of a later session, and no earlier epoch.
fn is_later(set: &SetRow, session: u64, epoch: u64) -> bool
    ensures { result ≡ (nat_lt session set.now.session && nat_le epoch set.now.epoch) }
{
    session < set.session && epoch <= set.epoch
}

/// How many vector sets stand before the first session whose epochs differ, or are earlier than the one before: none of
/// these can be wrong, if all ascend by their sessions.
fn rising(sets: &[SetRow]) -> usize
    requires { Ascend (λ (set : SetValue). set.session) sets.now }
    ensures bound { result ≤ length sets.now }
    ensures held { (k : ℕ) (d : SetValue) → k < result
        → is_in_its_epoch sets.now (slice_index_or sets.now k d) ≡ true }
{
    let mut start = 0;
    let mut session = 0;
    let mut epoch = 0;
    for (i, set) in sets.iter().enumerate() {
        if is_later(set, session, epoch) {
            start = i;
        } else if !is_of(set, session, epoch) {
            return start;
        }
        session = set.session;
        epoch = set.epoch;
    }
    sets.len()
}

/// Whether the second vector set is another account's, or of an earlier session, or its epoch is no earlier.
fn is_no_earlier(first: &SetRow, second: &SetRow) -> bool
    ensures { result ≡ is_no_earlier first.now second.now }
{
    first.session / NUMBERS_OF_AN_ACCOUNT != second.session / NUMBERS_OF_AN_ACCOUNT
        || second.session < first.session
        || first.epoch <= second.epoch
}

/// Whether a vector set's epoch is no earlier than that of any of its session or of an earlier one of its account.
fn is_in_its_epoch(sets: &[SetRow], set: &SetRow) -> bool
    ensures { result ≡ is_in_its_epoch sets.now set.now }
{
    for other in sets {
        if !is_no_earlier(other, set) {
            return false;
        }
    }
    true
}

/// The conditions on a vector set's epoch, among an account's rows.
#[derive(Clone, Copy)]
struct InAccount<'a> {
    mine: &'a Rows,
}

impl Judge<SetRow> for InAccount<'_> {
    ghost conditions = { λ t row. epoch_row_conditions t.mine.now row };

    fn judge(&self, row: &SetRow) -> Result<(), Finding> {
        let mine = self.mine;
        let holds = is_in_its_epoch(&mine.sets, row);
        check(holds, RowKey::Set(row.number), Wrong::Epoch)
    }
}

/// How many vector sets needn't be compared with all others.
fn first_suspect(sets: &[SetRow]) -> usize
    ensures bound { result ≤ length sets.now }
    ensures held { (k : ℕ) (d : SetValue) → k < result
        → is_in_its_epoch sets.now (slice_index_or sets.now k d) ≡ true }
{
    if ascend(sets) { rising(sets) } else { 0 }
}

/// What is wrong with the epochs of an account's vector sets. Those before the first session that can be wrong are
/// compared with no others, so that the first that is wrong is near.
pub(crate) fn epochs_wrong(mine: &Rows) -> Result<(), Finding>
    ensures { result ≡ judged (epoch_conditions mine.now) tt }
{
    let (_, rest) = mine.sets.split_at(first_suspect(&mine.sets));
    each(rest, &InAccount { mine })
}
