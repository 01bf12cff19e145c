//! A JSON array whose items are handed on one by one, a line each.
ghost use Rattle.std.specs.Prelude.{◌≡◌, IfOk, true};
ghost use Rattle.acvp_view.specs.Items.{end_of, mark_of};

use crate::fault::ViewFault;
use crate::lines::{Lines, MarkedLines};

/// The items of a JSON array, each of which goes on as a line: a mark, and the item.
#[derive(Drop)]
pub struct Items<L> {
    lines: L,
    is_first: bool,
}

impl<L: MarkedLines> Lines for Items<L> {
    ghost use Rattle.std.specs.Prelude.{◌≡◌, ◌++◌, false};
    ghost use Rattle.acvp_view.specs.Items.{mark_of};

    ghost takes = { λ before item after.
        L.takes before.lines (mark_of before.is_first ++ item) after.lines × (after.is_first ≡ false) };

    fn take(&mut self, item: &str) -> Result<(), ViewFault> {
        let mark = mark_of(self.is_first);
        self.is_first = false;
        self.lines.take_marked(mark, item)
    }
}

/// What stands before an item.
fn mark_of(is_first: bool) -> &'static str
    ensures { result.now ≡ mark_of is_first }
{
    if is_first { "[" } else { "," }
}

/// What stands behind the last item, or alone.
fn end_of(is_first: bool) -> &'static str
    ensures { result.now ≡ end_of is_first }
{
    if is_first { "[]" } else { "]" }
}

impl<L: MarkedLines + Drop> Items<L> {
    /// None yet.
    pub fn new(lines: L) -> Items<L>
        ensures lines { result.lines ≡ lines }
        ensures first { result.is_first ≡ true }
    {
        Items {
            lines,
            is_first: true,
        }
    }

    /// Ends the array.
    pub fn end(self) -> Result<L, ViewFault>
        ensures { IfOk result (λ lines. L.takes self.lines (end_of self.is_first) lines) }
    {
        let Items { lines, is_first } = self;
        let mut lines = lines;
        lines.take(end_of(is_first))?;
        Ok(lines)
    }
}
