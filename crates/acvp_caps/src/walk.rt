//! Steps upwards through the numbers of several items, with no list of them.

ghost use Rattle.std.specs.Prelude.{◌≡◌, ◌<◌, ◌-◌, ◌↔◌, length, true, IsTrue};
ghost use Rattle.std.specs.List.{slice_get};
ghost use Rattle.acvp_caps.specs.Members.{is_member, members};
ghost use Rattle.acvp_caps.specs.Private.Walk.{IsNextMember, IsGreatest, earlier, AllFormed, AllBounded};

use crate::item::Item;

/// The lesser of two numbers, of those that are there.
fn earlier(a: Option<u64>, b: Option<u64>) -> Option<u64>
    ensures { result ≡ earlier a b }
{
    match (a, b) {
        (None, b) => b,
        (Some(m), None) => Some(m),
        (Some(m), Some(n)) => Some(m.min(n)),
    }
}

/// The least number from `start` on that some item has.
pub(crate) fn next_member(items: &[Item], start: u64) -> Option<u64>
    requires { AllFormed items.now }
    ensures { IsNextMember (is_member items.now) start result }
{
    let mut next = None;
    for item in items {
        next = earlier(next, item.next(start));
    }
    next
}

/// Whether some item has the number.
pub(crate) fn has_member(items: &[Item], n: u64) -> bool
    requires { AllFormed items.now }
    ensures { result ≡ is_member items.now n }
{
    for item in items {
        if item.has(n) {
            return true;
        }
    }
    false
}

/// The greatest number that some item has.
pub(crate) fn greatest_member(items: &[Item]) -> u64
    requires { AllFormed items.now }
    ensures { IsGreatest items.now result }
{
    let mut greatest = 0u64;
    for item in items {
        greatest = greatest.max(item.last());
    }
    greatest
}

/// The member at a place, where there is one.
pub(crate) fn nth_member(items: &[Item], place: u64) -> Option<u64>
    requires formed { AllFormed items.now }
    requires bounded { AllBounded items.now }
    ensures { result ≡ slice_get (members items.now) place }
{
    let mut next = next_member(items, 0);
    for _ in 0..place {
        let n = next?;
        next = next_member(items, n + 1);
    }
    next
}

/// How many members there are.
pub(crate) fn count_members(items: &[Item]) -> u64
    requires formed { AllFormed items.now }
    requires bounded { AllBounded items.now }
    ensures { result ≡ length (members items.now) }
{
    let mut count = 0;
    let mut next = next_member(items, 0);
    while let Some(n) = next {
        count += 1;
        next = next_member(items, n + 1);
    }
    count
}

/// Whether two lists of items have the same members. Both are walked upwards side by side.
pub(crate) fn have_same_members(a: &[Item], b: &[Item]) -> bool
    requires formed { AllFormed a.now × AllFormed b.now }
    requires bounded { AllBounded a.now }
    ensures { IsTrue result ↔ (members a.now ≡ members b.now) }
{
    let mut next = next_member(a, 0);
    let mut other = next_member(b, 0);
    while let Some(n) = next {
        if other != Some(n) {
            return false;
        }
        next = next_member(a, n + 1);
        other = next_member(b, n + 1);
    }
    other.is_none()
}
