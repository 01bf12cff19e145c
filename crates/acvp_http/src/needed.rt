//! How much of an input its request needs, as soon as the bytes that came tell it.
ghost use Rattle.std.specs.Prelude.{ℕ, List, ◌++◌, take, MatchOption};
ghost use Rattle.acvp_http.specs.Needed.{IsNeeded, IsShortOfHead};

use crate::head::{HEAD_BYTES, block_end, parse_block};
use crate::request::window_of;

/// How many bytes the request of these needs in all, whatever comes behind them: as many as a head may have where they
/// have no empty line, else those of the head with its body, or of a head that is refused. None where the head may
/// still come.
pub fn needed_bytes(bytes: &[u8]) -> Option<usize>
    ensures { MatchOption result (IsShortOfHead bytes.now)
        (λ n. (rest : List ℕ) → IsNeeded (bytes.now ++ rest) (take n (bytes.now ++ rest))) }
{
    let window = window_of(bytes);
    let Some(end) = block_end(window) else {
        return if window.len() == HEAD_BYTES {
            Some(HEAD_BYTES)
        } else {
            None
        };
    };
    match parse_block(&bytes[..end]) {
        Ok(head) => Some(end + head.size),
        Err(_) => Some(end),
    }
}
