//! All accounts, and the requests that wait for a decision, or all: as words, or a JSON array. Also one account.
ghost use Rattle.std.specs.Prelude.{◌+◌, ◌<◌, ◌^◌, IfOk};
ghost use Rattle.std.specs.List.{flat_map, range_with_len};
ghost use Rattle.acvp_desk.specs.Serves.{Looks};
ghost use Rattle.acvp_tables.specs.Content.{Content};
ghost use Rattle.acvp_tables.specs.State.{AreWellNumbered};
ghost use Rattle.acvp_view.specs.Items.{array_lines};
ghost use Rattle.acvp_view.specs.Listed.{account_line, account_lines, request_line, request_lines, request_lines_of};
ghost use Rattle.acvp_view.specs.Lines.{TakesAll, Tells, lines_of};
ghost use Rattle.acvp_view.specs.declared.form.Form.TheVariants.{Json};

use crate::fault::ViewFault;
use crate::form::Form;
use crate::items::Items;
use crate::lines::{Lines, MarkedLines, hand_on};
use crate::listed::{account_line, request_line};
use crate::whole::WholeRequests;
use acvp_tables::{Counted, Tables};
use std::alloc::Global;

/// The greatest number of an account.
const MOST_ACCOUNT: u16 = 9999;

/// How many numbers an account has.
const NUMBERS_OF_AN_ACCOUNT: u64 = 1_000_000;

/// Hands on what is shown of the account of a number, where there is one.
pub fn show_account<T: Tables, L: Lines>(
    alloc: Global,
    tables: &mut T,
    lines: &mut L,
    form: Form,
    number: u16,
) -> Result<(), ViewFault>
    ensures told { Tells L.takes T.meaning result tables.old tables.new lines.old lines.new
        (λ c. lines_of (account_line form number c)) }
    ensures looks { Looks T.meaning result tables.old tables.new }
{
    let line = account_line(alloc, tables, form, number)?;
    hand_on(lines, line)
}

/// Hands on each account.
pub fn show_accounts<T: Tables, L: Lines>(
    alloc: Global,
    tables: &mut T,
    lines: &mut L,
    form: Form,
) -> Result<(), ViewFault>
    ensures told { Tells L.takes T.meaning result tables.old tables.new lines.old lines.new (account_lines form) }
    ensures looks { Looks T.meaning result tables.old tables.new }
{
    for number in 1..=MOST_ACCOUNT {
        show_account(alloc, tables, lines, form, number)?;
    }
    Ok(())
}

/// Hands on the request of a number, where it is shown.
pub(crate) fn show_numbered<T: WholeRequests, L: Lines>(
    alloc: Global,
    tables: &mut T,
    lines: &mut L,
    form: Form,
    number: u64,
    all: bool,
) -> Result<(), ViewFault>
    ensures told { Tells L.takes T.meaning result tables.old tables.new lines.old lines.new
        (λ c. lines_of (request_line form all number c)) }
    ensures looks { Looks T.meaning result tables.old tables.new }
{
    let line = request_line(alloc, tables, form, number, all)?;
    hand_on(lines, line)
}

/// Hands on those of so many requests that are shown, from a number on.
fn show_range<T: WholeRequests, L: Lines>(
    alloc: Global,
    tables: &mut T,
    lines: &mut L,
    form: Form,
    first: u64,
    count: u64,
    all: bool,
) -> Result<(), ViewFault>
    requires { first + count < 2 ^ 64 }
    ensures told { Tells L.takes T.meaning result tables.old tables.new lines.old lines.new
        (λ c. flat_map (λ number. lines_of (request_line form all number c)) (range_with_len first count)) }
    ensures looks { Looks T.meaning result tables.old tables.new }
{
    for place in 0..count {
        show_numbered(alloc, tables, lines, form, first + place, all)?;
    }
    Ok(())
}

/// Hands on each request of an account that waits for a decision, or all of its requests.
fn show_requests_of<T: WholeRequests, L: Lines>(
    alloc: Global,
    tables: &mut T,
    lines: &mut L,
    form: Form,
    account: u16,
    all: bool,
) -> Result<(), ViewFault>
    ensures told { Tells L.takes T.meaning result tables.old tables.new lines.old lines.new
        (λ c. request_lines_of form all c account) }
    ensures looks { Looks T.meaning result tables.old tables.new }
{
    let count = tables.count(account, Counted::Requests)?;
    let first = u64::from(account) * NUMBERS_OF_AN_ACCOUNT + 1;
    show_range(
        alloc,
        tables,
        lines,
        form,
        first,
        count.min(u64::MAX - first),
        all,
    )
}

/// Hands on each request that waits for a decision, or all.
pub fn show_requests<T: WholeRequests, L: Lines>(
    alloc: Global,
    tables: &mut T,
    lines: &mut L,
    form: Form,
    all: bool,
) -> Result<(), ViewFault>
    ensures told { Tells L.takes T.meaning result tables.old tables.new lines.old lines.new (request_lines form all) }
    ensures looks { Looks T.meaning result tables.old tables.new }
{
    for account in 1..=MOST_ACCOUNT {
        show_requests_of(alloc, tables, lines, form, account, all)?;
    }
    Ok(())
}

/// Hands on all accounts as a JSON array, and gives back where its lines went.
pub fn show_account_array<T: Tables, L: MarkedLines + Drop>(
    alloc: Global,
    tables: &mut T,
    lines: L,
) -> Result<L, ViewFault>
    ensures { T.meaning.is_open tables.new → IfOk result (λ after. (c : Content) → AreWellNumbered c
        → T.meaning.stands tables.old c → TakesAll L.takes (array_lines (account_lines Json c)) lines after) }
{
    let mut items = Items::new(lines);
    show_accounts(alloc, tables, &mut items, Form::Json)?;
    items.end()
}

/// Hands on each request that waits for a decision, or all, as a JSON array, and gives back where its lines went.
pub fn show_request_array<T: WholeRequests, L: MarkedLines + Drop>(
    alloc: Global,
    tables: &mut T,
    lines: L,
    all: bool,
) -> Result<L, ViewFault>
    ensures { T.meaning.is_open tables.new → IfOk result (λ after. (c : Content) → AreWellNumbered c
        → T.meaning.stands tables.old c → TakesAll L.takes (array_lines (request_lines Json all c)) lines after) }
{
    let mut items = Items::new(lines);
    show_requests(alloc, tables, &mut items, Form::Json, all)?;
    items.end()
}
