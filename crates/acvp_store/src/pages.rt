//! The rows of an account, page by page.
ghost use Rattle.std.specs.Prelude.{◌≡◌, ◌*◌, ◌+◌, pos, min};
ghost use Rattle.acvp_store.specs.Values.{whole};
ghost use Rattle.acvp_store.specs.Private.Performed.{parameter};

use sqlite::types::ValueRef;

/// The most rows of a kind that an account has: the last of their numbers is the account's times 1000000 and this.
const MOST_ROWS: i64 = 999999;

/// The numbers between which the rows of a page lie, and how many of them it has, as a statement takes them.
#[derive(Clone, Copy)]
pub(crate) struct Span {
    pub first: ValueRef<'static>,
    pub last: ValueRef<'static>,
    pub limit: ValueRef<'static>,
}

/// The number, or the greatest that a statement takes.
fn capped(number: u64) -> i64
    ensures { result ≡ pos (min number 9223372036854775807) }
{
    if number < 9223372036854775807 {
        number as i64
    } else {
        9223372036854775807
    }
}

/// The page of an account's rows from an offset on. An account's rows have numbers without gaps, so it begins at the
/// number that lies as far behind the account's first. No account has as many rows as the greatest number that a
/// statement takes.
pub(crate) fn page_of(account: u16, offset: u64, limit: u64) -> Span
    ensures first { parameter result.first ≡ whole (account * 1000000 + 1 + min offset 999999) }
    ensures last { parameter result.last ≡ whole (account * 1000000 + 999999) }
    ensures limit { parameter result.limit ≡ whole (min limit 9223372036854775807) }
{
    let numbers = i64::from(account) * 1000000;
    let offset = if offset < MOST_ROWS as u64 {
        offset as i64
    } else {
        MOST_ROWS
    };
    Span {
        first: ValueRef::Int(numbers + 1 + offset),
        last: ValueRef::Int(numbers + MOST_ROWS),
        limit: ValueRef::Int(capped(limit)),
    }
}
