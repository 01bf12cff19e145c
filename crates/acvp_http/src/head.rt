//! The head of a request: where it ends, and whether it is one.
ghost use Rattle.std.specs.Prelude.{◌≡◌, ◌≤◌, ◌<◌, ◌-◌, ◌==◌, MatchOption};
ghost use Rattle.acvp_http.specs.Asks.{ends_empty, IsBlockEnd, HasNoEmptyLine, headless, line_count};
ghost use Rattle.acvp_http.specs.Private.Head.{IsNoHead, IsWholeHead, ParsesBlock};

use crate::framing::body_size;
use acvp_policy::Rule;
use httparse::Status;
use httparse::spans::{EMPTY_HEADER_SPAN, HeaderSpan, RequestSpans, parse_request};

/// The most bytes that a head may have, with its empty line.
pub const HEAD_BYTES: usize = 16384;

/// The most fields that a head may have.
const MOST_FIELDS: usize = 64;

/// The head of a request, as it was parsed out of its block.
#[derive(Clone, Copy)]
pub(crate) struct Head {
    /// Where its parts are in the block, which they span.
    pub spans: RequestSpans,

    /// The fields, and behind them what isn't used.
    pub headers: [HeaderSpan; MOST_FIELDS],

    /// How long the body is that it tells.
    pub size: usize,
}

/// Whether the text ends in a line feed and an empty line.
pub(crate) fn ends_with_empty_line(text: &[u8]) -> bool
    ensures { result ≡ ends_empty text.now }
{
    text.ends_with(b"\n\n") || text.ends_with(b"\n\r\n")
}

/// Where the first empty line ends.
pub(crate) fn block_end(window: &[u8]) -> Option<usize>
    ensures { MatchOption result (HasNoEmptyLine window.now) (IsBlockEnd window.now) }
{
    for n in 0..=window.len() {
        if ends_with_empty_line(&window[..n]) {
            return Some(n);
        }
    }
    None
}

/// How many lines the block has, but for an empty one at its start.
pub(crate) fn line_count(block: &[u8]) -> usize
    ensures { result ≡ line_count block.now }
{
    let feeds = block.iter().filter(|b| **b == b'\n').count();
    if block.starts_with(b"\n") || block.starts_with(b"\r\n") {
        feeds.saturating_sub(1)
    } else {
        feeds
    }
}

/// The spans of a block's head, where the whole block is one.
pub(crate) fn whole_head(
    block: &[u8],
    headers: &mut [HeaderSpan; MOST_FIELDS],
) -> Option<RequestSpans>
    requires { line_count block.now ≤ 66 }
    ensures { MatchOption result (IsNoHead block.now) (IsWholeHead block.now headers.new) }
{
    match parse_request(block, headers) {
        Ok(Status::Complete(spans)) if spans.len == block.len() => Some(spans),
        _ => None,
    }
}

/// The head of a block with its body's size, or the rule that refuses the block, whatever follows it.
pub(crate) fn parse_block(block: &[u8]) -> Result<Head, Rule>
    ensures { ParsesBlock block.now result }
{
    if line_count(block) > MOST_FIELDS + 2 {
        return Err(Rule::HeadTooLarge);
    }
    let mut headers = [EMPTY_HEADER_SPAN; MOST_FIELDS];
    let Some(spans) = whole_head(block, &mut headers) else {
        return Err(Rule::BadHead);
    };
    let method = spans.method.of(block);
    let size = body_size(block, method, spans.version, &headers[..spans.headers])?;
    Ok(Head {
        spans,
        headers,
        size,
    })
}

/// Why a window of so many bytes is refused, in which there is no empty line.
pub(crate) fn headless(window: &[u8]) -> Rule
    ensures { result ≡ headless window.now }
{
    if window.len() == HEAD_BYTES {
        Rule::HeadTooLarge
    } else {
        Rule::Truncated
    }
}
