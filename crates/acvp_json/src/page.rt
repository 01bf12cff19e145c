//! A page of a list: its rows, and the links to other pages.
ghost use Rattle.std.specs.Prelude.{◌≡◌, IfOk, string_bytes};
ghost use Rattle.serde_json.specs.View.{view};
ghost use Rattle.acvp_json.specs.Page.{next_offset, prev_offset, last_offset, page_url, link_data, links_data};
ghost use Rattle.acvp_json.specs.Page.{page_data};

use crate::array::{Shows, array};
use crate::object::object;
use serde_json::Value;
use std::alloc::{AllocError, Global};

/// Which rows of a list are shown: without the first `offset`, at most `limit`.
#[derive(Clone, Copy, Debug, PartialEq, Eq)]
pub struct Page {
    pub offset: u64,

    /// From 1 on.
    pub limit: u64,
}

/// Where the next page begins, where there is one. It is below the total, so it doesn't wrap.
fn next_offset(page: Page, total: u64) -> Option<u64>
    ensures { result ≡ next_offset page total }
{
    match page.offset.checked_add(page.limit) {
        Some(next) if next < total => Some(next),
        _ => None,
    }
}

/// Where the page before begins, where there is one.
fn prev_offset(page: Page) -> Option<u64>
    ensures { result ≡ prev_offset page }
{
    if page.offset == 0 {
        None
    } else {
        Some(page.offset.saturating_sub(page.limit))
    }
}

/// Where the last page begins.
fn last_offset(page: Page, total: u64) -> u64
    ensures { result ≡ last_offset page total }
{
    if total == 0 || page.limit == 0 {
        0
    } else {
        page.limit * ((total - 1) / page.limit)
    }
}

/// The URL of the list's page from an offset on.
fn page_url(alloc: Global, path: &str, limit: u64, offset: u64) -> Result<String, AllocError>
    ensures { IfOk result (λ url. string_bytes url ≡ page_url path.now limit offset) }
{
    format!(in alloc; "{path}?offset={offset}&limit={limit}")
}

/// A link to a page, null where there is none.
fn link_value(
    alloc: Global,
    path: &str,
    limit: u64,
    offset: Option<u64>,
) -> Result<Value, AllocError>
    ensures { IfOk result (λ value. view value ≡ link_data path.now limit offset) }
{
    match offset {
        Some(offset) => Ok(Value::String(page_url(alloc, path, limit, offset)?)),
        None => Ok(Value::Null),
    }
}

/// The links of a page.
fn links_value(alloc: Global, path: &str, page: Page, total: u64) -> Result<Value, AllocError>
    ensures { IfOk result (λ value. view value ≡ links_data path.now page total) }
{
    let first = link_value(alloc, path, page.limit, Some(0))?;
    let last = link_value(alloc, path, page.limit, Some(last_offset(page, total)))?;
    let next = link_value(alloc, path, page.limit, next_offset(page, total))?;
    let prev = link_value(alloc, path, page.limit, prev_offset(page))?;
    object(
        alloc,
        &[],
        &["first", "last", "next", "prev"],
        [first, last, next, prev],
    )
}

/// A page of the list at a path, which has `total` rows in all, with these rows.
pub(crate) fn page_value<T, S: Shows<T>>(
    alloc: Global,
    show: &S,
    path: &str,
    page: Page,
    total: u64,
    rows: &[T],
) -> Result<Value, AllocError>
    ensures { IfOk result (λ value. view value ≡ page_data (S.data_of show.now) path.now page total rows.now) }
{
    let data = array(alloc, show, rows)?;
    let links = links_value(alloc, path, page, total)?;
    let incomplete = next_offset(page, total).is_some();
    object(
        alloc,
        &[],
        &["data", "incomplete", "links", "totalCount"],
        [data, Value::Bool(incomplete), links, Value::from(total)],
    )
}
