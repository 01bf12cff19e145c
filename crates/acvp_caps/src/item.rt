//! The items of a domain, of which each stands for one number or for a range of them.

ghost use Rattle.std.specs.Prelude.{◌≡◌, ◌⊎◌, ◌≤◌, true, false, map, length, IfOk, IfErr};
ghost use Rattle.std.specs.List.{list_all, filter_map};
ghost use Rattle.serde_json.specs.View.{view};
ghost use Rattle.acvp_caps.specs.Items.{has, last, is_formed, is_byte_oriented, item_within};
ghost use Rattle.acvp_caps.specs.Registered.{item_of, range_of, is_item};
ghost use Rattle.acvp_caps.specs.Private.Walk.{IsNextMember, AllFormed};
ghost use Rattle.acvp_caps.specs.Private.Written.{item_data};

use crate::CapFault;
use crate::json::number_at;
use serde_json::{Value, json};
use std::alloc::{AllocError, Global};

/// An item of a domain.
#[derive(Clone, Copy, PartialEq, Eq)]
pub(crate) enum Item {
    /// One number.
    Single(u64),

    /// `min`, `min + increment` and so on, up to `max`.
    Range { min: u64, max: u64, increment: u64 },
}

impl Item {
    /// Whether the item has the number.
    pub(crate) fn has(self, n: u64) -> bool
        requires { is_formed self ≡ true }
        ensures { result ≡ has self n }
    {
        match self {
            Item::Single(value) => value == n,
            Item::Range {
                min,
                max,
                increment,
            } => min <= n && n <= max && (n - min) % increment == 0,
        }
    }

    /// The greatest number of the item. It is worked out and not walked to, so a range as wide as a 64-bit number is
    /// judged at once.
    pub(crate) fn last(self) -> u64
        requires { is_formed self ≡ true }
        ensures { result ≡ last self }
    {
        match self {
            Item::Single(value) => value,
            Item::Range {
                min,
                max,
                increment,
            } => max - (max - min) % increment,
        }
    }

    /// Whether all numbers of the item are whole bytes, as bits.
    pub(crate) fn is_byte_oriented(self) -> bool
        ensures { result ≡ is_byte_oriented self }
    {
        match self {
            Item::Single(value) => value % 8 == 0,
            Item::Range { min, increment, .. } => min % 8 == 0 && increment % 8 == 0,
        }
    }

    /// Whether all numbers of the item are from `low` to `high`.
    pub(crate) fn is_within(self, low: u64, high: u64) -> bool
        requires { is_formed self ≡ true }
        ensures { result ≡ item_within low high self }
    {
        match self {
            Item::Single(value) => low <= value && value <= high,
            Item::Range { min, .. } => low <= min && self.last() <= high,
        }
    }

    /// The least number of the item from `start` on.
    pub(crate) fn next(self, start: u64) -> Option<u64>
        requires { is_formed self ≡ true }
        ensures { IsNextMember (has self) start result }
    {
        match self {
            Item::Single(value) if start <= value => Some(value),
            Item::Single(_) => None,
            Item::Range {
                min,
                max,
                increment,
            } => next_in_range(min, max, increment, start),
        }
    }

    /// The item as a JSON value.
    pub(crate) fn to_value(self, alloc: Global) -> Result<Value, AllocError>
        ensures { IfOk result (λ v. view v ≡ item_data self) }
    {
        match self {
            Item::Single(value) => Ok(Value::from(value)),
            Item::Range {
                min,
                max,
                increment,
            } => json!(in alloc; {"increment": increment, "max": max, "min": min}),
        }
    }
}

/// The least of `min`, `min + increment` and so on up to `max` from `start` on.
fn next_in_range(min: u64, max: u64, increment: u64, start: u64) -> Option<u64>
    requires ordered { min ≤ max }
    requires rising { 1 ≤ increment }
    ensures { IsNextMember (has (Item.Range min max increment)) start result }
{
    if start <= min {
        return Some(min);
    }
    if start > max {
        return None;
    }
    let past = (start - min) % increment;
    if past == 0 {
        return Some(start);
    }
    let step = increment - past;
    if step <= max - start {
        Some(start + step)
    } else {
        None
    }
}

/// The item that a JSON value is.
pub(crate) fn read_item(value: &Value) -> Option<Item>
    ensures { result ≡ item_of (view value.now) }
{
    match value.as_u64() {
        Some(n) => Some(Item::Single(n)),
        None => read_range(value),
    }
}

/// The range that a JSON object is.
fn read_range(value: &Value) -> Option<Item>
    ensures { result ≡ range_of (view value.now) }
{
    let min = number_at(value, "min")?;
    let max = number_at(value, "max")?;
    let increment = number_at(value, "increment")?;
    if min <= max && 1 <= increment {
        Some(Item::Range {
            min,
            max,
            increment,
        })
    } else {
        None
    }
}

/// The items that JSON values are, where each is one.
pub(crate) fn read_items(alloc: Global, values: &[Value]) -> Result<Vec<Item>, CapFault>
    ensures ok { IfOk result (λ items. (list_all is_item (map view values.now) ≡ true)
        × (items.items ≡ filter_map item_of (map view values.now))) }
    ensures formed { IfOk result (λ items. AllFormed items.items) }
    ensures len { IfOk result (λ items. length items.items ≡ length values.now) }
    ensures err { IfErr result (λ fault. (fault ≡ CapFault.Memory)
        ⊎ ((fault ≡ CapFault.Field) × (list_all is_item (map view values.now) ≡ false))) }
{
    let mut items = Vec::new(alloc);
    for value in values {
        let Some(item) = read_item(value) else {
            return Err(CapFault::Field);
        };
        items.push(item)?;
    }
    Ok(items)
}
