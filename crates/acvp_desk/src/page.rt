//! Which page of a list a query asks for.

ghost use Rattle.std.specs.Prelude.{◌≡◌, ◌≤◌, ◌++◌, [], ◌∷◌, length, IsTrue, MatchOption, Some, option_and_then};
ghost use Rattle.acvp_desk.specs.Pages.{HasNoAmpersand, and_others, begins, page_by, page_of, pair_of, short_number};

use acvp_json::Page;
use acvp_registry::plain_number;

/// The most rows of a page where the query doesn't say.
const USUAL_LIMIT: u64 = 20;

/// The most rows of a page.
const MOST_ROWS: u64 = 100;

/// What one pair of a query says.
#[derive(Clone, Copy)]
pub(crate) enum Pair {
    /// How many rows come before the page.
    Offset(u64),

    /// How many rows the page has at most.
    Limit(u64),
}

/// The number of 1 to 10 digits without leading zeros.
fn short_number(text: &[u8]) -> Option<u64>
    ensures { result ≡ short_number text.now }
{
    if text.len() > 10 {
        return None;
    }
    plain_number(text)
}

fn begins(part: &[u8], name: &[u8]) -> bool
    ensures value { result ≡ begins name.now part.now }
    ensures long { IsTrue result → length name.now ≤ length part.now }
{
    part.starts_with(name)
}

/// What one pair of a query says, where it is one.
#[tactic(auto, unfolding(crate::specs::Pages::pair_of))]
fn pair_of(part: &[u8]) -> Option<Pair>
    ensures { result ≡ pair_of part.now }
{
    if begins(part, b"offset=") {
        return Some(Pair::Offset(short_number(&part[7..])?));
    }
    if begins(part, b"limit=") {
        return Some(Pair::Limit(short_number(&part[6..])?));
    }
    None
}

/// What stands before the first ampersand of a text, and what stands behind it.
fn cut(text: &[u8]) -> Option<(&[u8], &[u8])>
    ensures { MatchOption result (HasNoAmpersand text.now)
        (λ p. (text.now ≡ p.0.now ++ 38 ∷ p.1.now) × HasNoAmpersand p.0.now) }
{
    let place = text.iter().position(|byte| *byte == b'&')?;
    Some((&text[..place], &text[place + 1..]))
}

/// The page by one pair.
fn page_by_one(pair: Pair) -> Option<Page>
    ensures { result ≡ page_by (pair ∷ []) }
{
    match pair {
        Pair::Offset(offset) => Some(Page {
            offset,
            limit: USUAL_LIMIT,
        }),
        Pair::Limit(limit) if limit >= 1 && limit <= MOST_ROWS => Some(Page { offset: 0, limit }),
        Pair::Limit(_) => None,
    }
}

/// The page by two pairs, of which one is of each name.
fn page_by_both(first: Pair, second: Pair) -> Option<Page>
    ensures { result ≡ page_by (first ∷ second ∷ []) }
{
    let (offset, limit) = match (first, second) {
        (Pair::Offset(offset), Pair::Limit(limit)) => (offset, limit),
        (Pair::Limit(limit), Pair::Offset(offset)) => (offset, limit),
        _ => return None,
    };
    if limit < 1 || limit > MOST_ROWS {
        return None;
    }
    Some(Page { offset, limit })
}

/// The page that one pair asks for.
fn page_of_one(part: &[u8]) -> Option<Page>
    ensures { result ≡ option_and_then page_by (and_others (pair_of part.now) (Some [])) }
{
    page_by_one(pair_of(part)?)
}

/// The page that two pairs ask for.
fn page_of_both(first: &[u8], second: &[u8]) -> Option<Page>
    ensures { result ≡ option_and_then page_by
        (and_others (pair_of first.now) (and_others (pair_of second.now) (Some []))) }
{
    page_by_both(pair_of(first)?, pair_of(second)?)
}

/// The page that a query asks for. Of three pairs two have the same name.
#[tactic(auto, unfolding(crate::specs::Pages::page_of))]
pub fn page_of(query: &[u8]) -> Option<Page>
    ensures { result ≡ page_of query.now }
{
    if query.is_empty() {
        return Some(Page {
            offset: 0,
            limit: USUAL_LIMIT,
        });
    }
    let Some((first, rest)) = cut(query) else {
        return page_of_one(query);
    };
    match cut(rest) {
        Some((_second, _third)) => None,
        None => page_of_both(first, rest),
    }
}
