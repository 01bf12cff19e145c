//! The target of a request: its path and its query.
ghost use Rattle.std.specs.Prelude.{◌≡◌, ◌==◌, position};
ghost use Rattle.acvp_http.specs.Target.{path_of, query_of};

/// Where the first question mark is.
fn question_mark(target: &[u8]) -> Option<usize>
    ensures { result ≡ position (λ b. b == 63) target.now }
{
    target.iter().position(|b| *b == b'?')
}

/// What stands before the first question mark of a target, and what stands behind it.
pub(crate) fn path_and_query(target: &[u8]) -> (&[u8], &[u8])
    ensures path { result.0.now ≡ path_of target.now }
    ensures query { result.1.now ≡ query_of target.now }
{
    match question_mark(target) {
        Some(end) if end < target.len() => (&target[..end], &target[end + 1..]),
        _ => (target, b""),
    }
}
