//! What the bytes of an input ask for.
ghost use Rattle.std.specs.Prelude.{List, ◌≡◌, ◌≤◌, ◌<◌, ◌-◌, ℕ, length, Ok};
ghost use Rattle.acvp_http.specs.Asks.{ParsedRequest, Asks, AsksBlock, window};
ghost use Rattle.acvp_http.specs.Private.Head.{IsParsed, ParsesInput, parsed_of};

use crate::head::{HEAD_BYTES, Head, block_end, headless, parse_block};
use crate::path::Path;
use crate::routes::Routes;
use crate::target::path_and_query;
use crate::token::token_of;
use acvp_desk::TypedRequest;
use acvp_policy::Rule;

/// Why an input is refused before anyone is looked at.
#[derive(Clone, Copy)]
pub(crate) enum Refusal {
    /// This rule is broken.
    ByRule(Rule),

    /// The path hasn't the method.
    WrongMethod(Path),
}

/// As much of an input as may be its head.
pub(crate) fn window_of(bytes: &[u8]) -> &[u8]
    ensures value { result.now ≡ window bytes.now }
    ensures within { length result.now ≤ length bytes.now }
{
    if bytes.len() <= HEAD_BYTES {
        bytes
    } else {
        &bytes[..HEAD_BYTES]
    }
}

/// The head of an input, or the rule that refuses it.
pub(crate) fn parse_head(bytes: &[u8]) -> Result<Head, Rule>
    ensures { ParsesInput bytes.now result }
{
    let window = window_of(bytes);
    match block_end(window) {
        Some(end) => parse_block(&bytes[..end]),
        None => Err(headless(window)),
    }
}

/// What a block asks whose head this is, where rest follows it.
fn asked_by<'a>(
    routes: &Routes,
    block: &'a [u8],
    head: &Head,
    rest: &'a [u8],
) -> Result<TypedRequest<'a>, Refusal>
    requires { IsParsed block.now head.now }
    ensures { AsksBlock block.now rest.now (parsed_of result) }
{
    if head.size > rest.len() {
        return Err(Refusal::ByRule(Rule::Truncated));
    }
    let (path, query) = path_and_query(head.spans.path.of(block));
    let Some(path) = routes.path(path) else {
        return Err(Refusal::ByRule(Rule::NoRoute));
    };
    let Some(ask) = path.asked(head.spans.method.of(block), query) else {
        return Err(Refusal::WrongMethod(path));
    };
    Ok(TypedRequest {
        ask,
        token: token_of(block, &head.headers[..head.spans.headers]),
        body: &rest[..head.size],
    })
}

/// What an input asks whose head this is.
pub(crate) fn parse_request<'a>(
    routes: &Routes,
    bytes: &'a [u8],
    head: &Head,
) -> Result<TypedRequest<'a>, Refusal>
    requires { ParsesInput bytes.now (Ok head.now) }
    ensures { Asks bytes.now (parsed_of result) }
{
    let (block, rest) = bytes.split_at(head.spans.len);
    asked_by(routes, block, head, rest)
}

/// The definition of what an input asks gives one answer: no bytes ask for two things.
pub fn asks_one_thing()
    ensures { (bytes : List ℕ) (first second : ParsedRequest) → Asks bytes first → Asks bytes second → first ≡ second }
{}
