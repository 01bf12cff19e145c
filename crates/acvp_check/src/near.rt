//! Rows that are found by their places, since an account's rows ascend by number: no walk over all of them is needed.
ghost use Rattle.std.specs.Prelude.{◌≡◌, ◌≤◌, ◌<◌, ◌==◌, ◌&&◌, Bool, Some, ℕ, find, is_some, length, nat_le, nat_lt};
ghost use Rattle.std.specs.Prelude.{option_copied, true};
ghost use Rattle.std.specs.List.{list_any, slice_index_or};
ghost use Rattle.acvp_tables.specs.Content.{session_at};
ghost use Rattle.acvp_tables.specs.declared.rows.ReviewerRow.{ReviewerRow as ReviewerValue};
ghost use Rattle.acvp_tables.specs.declared.rows.SetRow.{SetRow as SetValue};
ghost use Rattle.acvp_check.specs.Conditions.{reviewers_at, reviewers_in};
ghost use Rattle.acvp_check.specs.Near.{AreItsRows, AreItsSets, Ascend, Rise};

use crate::sets::SessionIs;
use crate::walks::found;
use acvp_tables::{RequestRow, ReviewerRow, SessionRow, SetRow};

// ---- the rows of a session

/// A row that is of a session.
pub(crate) trait OfSession {
    ghost use Rattle.std.specs.Prelude.{ℕ};

    ghost session: { Self → ℕ };

    fn session(&self) -> u64
        ensures { result ≡ session self.now };
}

impl OfSession for SetRow {
    ghost session = { λ row. row.session };

    fn session(&self) -> u64 {
        self.session
    }
}

impl OfSession for ReviewerRow {
    ghost session = { λ row. row.session };

    fn session(&self) -> u64 {
        self.session
    }
}

/// Whether the sessions of rows don't fall from one to the next.
pub(crate) fn ascend<R: OfSession>(rows: &[R]) -> bool
    ensures { result ≡ true → Ascend R.session rows.now }
{
    let mut last = 0;
    for row in rows {
        let session = row.session();
        if session < last {
            return false;
        }
        last = session;
    }
    true
}

/// How many rows stand before those of a session, of those that ascend by their sessions.
fn before<R: OfSession>(rows: &[R], session: u64) -> usize
    requires { Ascend R.session rows.now }
    ensures { (k : ℕ) (d : R) → k < result → R.session (slice_index_or rows.now k d) < session }
{
    rows.partition_point(
        |row: &R| -> bool
            ensures { result ≡ nat_lt (R.session row.now) session }
        { row.session() < session },
    )
}

/// How many rows stand before those of later sessions, of those that ascend by their sessions.
fn through<R: OfSession>(rows: &[R], session: u64) -> usize
    requires { Ascend R.session rows.now }
    ensures bound { result ≤ length rows.now }
    ensures later { (k : ℕ) (d : R) → result ≤ k → k < length rows.now
        → session < R.session (slice_index_or rows.now k d) }
{
    rows.partition_point(
        |row: &R| -> bool
            ensures { result ≡ nat_le (R.session row.now) session }
        { row.session() <= session },
    )
}

/// The rows of a session, of those that ascend by their sessions.
fn rows_by_place<'a, R: OfSession>(rows: &'a [R], session: u64) -> &'a [R]
    requires { Ascend R.session rows.now }
    ensures { AreItsRows R.session session rows.now result.now }
{
    let end = through(rows, session);
    let start = before(rows, session).min(end);
    let (front, _) = rows.split_at(end);
    let (_, its) = front.split_at(start);
    its
}

/// Rows among which a session's are all: no others, if all ascend by their sessions.
fn rows_near<'a, R: OfSession>(rows: &'a [R], ascending: bool, session: u64) -> &'a [R]
    requires { ascending ≡ true → Ascend R.session rows.now }
    ensures { AreItsRows R.session session rows.now result.now }
{
    if ascending {
        rows_by_place(rows, session)
    } else {
        rows
    }
}

/// Vector sets among which a session's are all: no others, if all ascend by their sessions.
pub(crate) fn sets_near<'a>(sets: &'a [SetRow], ascending: bool, row: &SessionRow) -> &'a [SetRow]
    requires { ascending ≡ true → Ascend (λ (set : SetValue). set.session) sets.now }
    ensures { AreItsSets row.now sets.now result.now }
{
    rows_near(sets, ascending, row.number)
}

/// Reviewers among which a session's are all: no others, if all ascend by their sessions.
pub(crate) fn reviewers_near(
    reviewers: &[ReviewerRow],
    ascending: bool,
    session: u64,
) -> &[ReviewerRow]
    requires { ascending ≡ true → Ascend (λ (row : ReviewerValue). row.session) reviewers.now }
    ensures all { reviewers_in session reviewers.now ≡ reviewers_in session result.now }
    ensures one { (account : ℕ)
        → reviewers_at session account reviewers.now ≡ reviewers_at session account result.now }
{
    rows_near(reviewers, ascending, session)
}

// ---- the row of a number

/// A row that has a number.
pub(crate) trait Numbered {
    ghost use Rattle.std.specs.Prelude.{ℕ};

    ghost number: { Self → ℕ };

    fn number(&self) -> u64
        ensures { result ≡ number self.now };
}

impl Numbered for RequestRow {
    ghost number = { λ row. row.number };

    fn number(&self) -> u64 {
        self.number
    }
}

impl Numbered for SessionRow {
    ghost number = { λ row. row.number };

    fn number(&self) -> u64 {
        self.number
    }
}

/// Whether the numbers of rows rise from one to the next, below the greatest.
pub(crate) fn numbers_rise<R: Numbered>(rows: &[R]) -> bool
    ensures { result ≡ true → Rise R.number rows.now }
{
    let mut least = 0;
    for row in rows {
        let number = row.number();
        if number < least || number == u64::MAX {
            return false;
        }
        least = number + 1;
    }
    true
}

/// How many rows have lower numbers, of those whose numbers rise.
fn lower<R: Numbered>(rows: &[R], number: u64) -> usize
    requires { Rise R.number rows.now }
    ensures before { (k : ℕ) (d : R) → k < result → R.number (slice_index_or rows.now k d) < number }
    ensures behind { (k : ℕ) (d : R) → result ≤ k → k < length rows.now
        → number ≤ R.number (slice_index_or rows.now k d) }
{
    rows.partition_point(
        |row: &R| -> bool
            ensures { result ≡ nat_lt (R.number row.now) number }
        { row.number() < number },
    )
}

/// The row of a number, of those whose numbers rise.
fn by_place<'a, R: Numbered>(rows: &'a [R], number: u64) -> Option<&'a R>
    requires { Rise R.number rows.now }
    ensures { option_copied result ≡ find (λ row. R.number row == number) rows.now }
{
    let Some(row) = rows.get(lower(rows, number)) else {
        return None;
    };
    if row.number() == number {
        Some(row)
    } else {
        None
    }
}

/// The first row of a number.
fn by_walk<'a, R: Numbered>(rows: &'a [R], number: u64) -> Option<&'a R>
    ensures { option_copied result ≡ find (λ row. R.number row == number) rows.now }
{
    for row in rows {
        if row.number() == number {
            return Some(row);
        }
    }
    None
}

/// The first row of a number, where the numbers of rows rise or don't.
pub(crate) fn first_of<'a, R: Numbered>(rows: &'a [R], rising: bool, number: u64) -> Option<&'a R>
    requires { rising ≡ true → Rise R.number rows.now }
    ensures { option_copied result ≡ find (λ row. R.number row == number) rows.now }
{
    if rising {
        by_place(rows, number)
    } else {
        by_walk(rows, number)
    }
}

/// The row of a number, if it is at the place that it has among rows without gaps.
pub(crate) fn at_its_place<'a, R: Numbered>(rows: &'a [R], number: u64) -> Option<&'a R>
    ensures { (row : R) (passes : R → Bool) → option_copied result ≡ Some row → passes row ≡ true
        → list_any (λ row. (R.number row == number) && passes row) rows.now ≡ true }
{
    let first = rows.first()?;
    let place = number.saturating_sub(first.number()) as usize;
    let row = rows.get(place)?;
    if row.number() == number {
        Some(row)
    } else {
        None
    }
}

/// Whether the session of a number is at its place.
fn is_at_its_place(sessions: &[SessionRow], number: u64) -> bool
    ensures { result ≡ true → is_some (session_at number sessions.now) ≡ true }
{
    match at_its_place(sessions, number) {
        Some(_) => true,
        None => false,
    }
}

/// Whether the session of a number is there.
pub(crate) fn has_session(sessions: &[SessionRow], number: u64) -> bool
    ensures { result ≡ is_some (session_at number sessions.now) }
{
    is_at_its_place(sessions, number) || found(sessions, &SessionIs { number })
}
