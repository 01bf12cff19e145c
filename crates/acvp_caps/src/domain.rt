//! The numbers that a parameter may take.

ghost use Rattle.std.specs.Prelude.{◌≡◌, ◌<◌, ◌≤◌, ◌-◌, ◌↔◌, ◌==◌, ℕ, List, length, true, Some, IsTrue, Contains, All};
ghost use Rattle.std.specs.Prelude.{IfOk, option_map};
ghost use Rattle.std.specs.List.{slice_get, list_any, list_all};
ghost use Rattle.std.specs.List.Sorted.{IsStrictlyIncreasing};
ghost use Rattle.std.specs.Cmp.{partial_equiv_from_equiv};
ghost use Rattle.std.specs.Cmp.Lexicographic.{pointwise, nat_list_eq_equiv};
ghost use Rattle.serde_json.specs.View.{view};
ghost use Rattle.acvp_caps.specs.declared.item.Item.{Item};
ghost use Rattle.acvp_caps.specs.Capability.{AreLengths};
ghost use Rattle.acvp_caps.specs.Items.{is_byte_oriented, item_within};
ghost use Rattle.acvp_caps.specs.Members.{members, is_member};
ghost use Rattle.acvp_caps.specs.Registered.{domain_conditions, domain_of, items_at, length_conditions};
ghost use Rattle.acvp_caps.specs.Private.Kept.{IsGivenBy};
ghost use Rattle.acvp_caps.specs.Private.Readings.{IsReadBy};
ghost use Rattle.acvp_caps.specs.Private.Walk.{AllFormed};

use crate::CapFault;
use crate::given::GivenItems;
use crate::item::{Item, read_items};
use crate::json::elements;
use crate::walk::{
    count_members, greatest_member, has_member, have_same_members, next_member, nth_member,
};
use serde_json::Value;
use std::alloc::{AllocError, Global};
use std::marker::Model;

/// The most items that a domain has.
const ITEM_LIMIT: usize = 32;

/// The numbers that a parameter may take, at least one: contracts see them as an ascending list in
/// which each stands once. What is kept is items that have these members, and only a clone takes memory.
#[derive(Drop)]
pub struct Domain {
    items: Vec<Item>,
}

impl Model for Domain {
    ghost use Rattle.std.specs.Prelude.{List, ℕ};
    ghost use Rattle.acvp_caps.specs.Members.{members};
    ghost use Rattle.acvp_caps.specs.Private.DomainItems.{AreDomainItems};

    ghost Value = { List ℕ };

    ghost view = { λ d. members d.items.items };

    ghost invariant = { λ d. AreDomainItems d.items.items };
}

impl Domain {
    /// Whether the number is a member.
    pub fn contains(&self, n: u64) -> bool
        ensures value { result ≡ list_any (λ m. m == n) self.now }
        ensures member { IsTrue result ↔ Contains self.now n }
    {
        has_member(&self.items, n)
    }

    /// The least member.
    pub fn least(&self) -> u64
        ensures value { slice_get self.now 0 ≡ Some result }
        ensures least { All (λ m. result ≤ m) self.now }
    {
        next_member(&self.items, 0).unwrap_or(0)
    }

    /// The greatest member.
    pub fn greatest(&self) -> u64
        ensures value { slice_get self.now (length self.now - 1) ≡ Some result }
        ensures greatest { All (λ m. m ≤ result) self.now }
    {
        greatest_member(&self.items)
    }

    /// How many members there are.
    pub fn count(&self) -> u64
        ensures value { result ≡ length self.now }
        ensures some { 0 < result }
        ensures ascending { IsStrictlyIncreasing self.now }
    {
        count_members(&self.items)
    }

    /// The member at a place, counted upwards from 0.
    pub fn member(&self, i: u64) -> u64
        requires { i < length self.now }
        ensures { slice_get self.now i ≡ Some result }
    {
        nth_member(&self.items, i).unwrap_or(0)
    }
}

/// The clone has the same members.
impl Clone for Domain {
    ghost is_clone = { λ it copy. copy ≡ it };

    fn clone(&self) -> Result<Domain, AllocError> {
        let items = self.items.clone()?;
        Ok(Domain { items })
    }
}

/// Domains with the same members are equal, whatever items were given. The members are walked to.
impl PartialEq for Domain {
    ghost eq = { pointwise ◌==◌ };

    ghost laws = { partial_equiv_from_equiv nat_list_eq_equiv };

    fn eq(&self, other: &Domain) -> bool
        ensures value { result ≡ pointwise ◌==◌ self.now other.now }
        ensures same { IsTrue result ↔ (self.now ≡ other.now) }
    {
        have_same_members(&self.items, &other.items)
    }
}

impl Eq for Domain {
    ghost laws = { nat_list_eq_equiv };
}

/// The definition of a domain's members is what it says: they ascend, and a number is one of them
/// exactly if some item has it.
pub fn members_are_exact()
    ensures ascending { (items : List Item) → IsStrictlyIncreasing (members items) }
    ensures exact { (items : List Item) (n : ℕ) → Contains (members items) n ↔ (is_member items n ≡ true) }
{}

/// The domain that a JSON array is, which has to lie from `low` to `high`, and the items that give it.
pub(crate) fn read_domain(
    alloc: Global,
    member: Option<&Value>,
    low: u64,
    high: u64,
) -> Result<(Domain, GivenItems), CapFault>
    requires { high ≤ 524288 }
    ensures read { let given = option_map (λ v. view v.now) member.entry in
        IsReadBy (domain_conditions low high given) (Some (domain_of given, items_at given)) result }
    ensures fit { IfOk result (λ pair. AreLengths low high pair.0) }
    ensures given { IfOk result (λ pair. IsGivenBy pair.0 pair.1) }
{
    let values = elements(member);
    if values.is_empty() || values.len() > ITEM_LIMIT {
        return Err(CapFault::Field);
    }
    let items = read_items(alloc, values)?;
    judged_domain(items, low, high)
}

/// The domain of items that have the form, and the items, where all its members are whole bytes and
/// lie from `low` to `high`. No member is walked to.
fn judged_domain(items: Vec<Item>, low: u64, high: u64) -> Result<(Domain, GivenItems), CapFault>
    requires formed { AllFormed items.items }
    requires some { 1 ≤ length items.items }
    requires most { length items.items ≤ 32 }
    requires limit { high ≤ 524288 }
    ensures read { IsReadBy (length_conditions low high items.items) (Some (members items.items, items.items)) result }
    ensures fit { IfOk result (λ pair. AreLengths low high pair.0) }
    ensures given { IfOk result (λ pair. IsGivenBy pair.0 pair.1) }
{
    if !are_byte_oriented(&items) {
        return Err(CapFault::NotByteOriented);
    }
    if !are_within(&items, low, high) {
        return Err(CapFault::OutOfRange);
    }
    let given = GivenItems::copy_of(&items)?;
    Ok((Domain { items }, given))
}

/// Whether each item is byte-oriented.
fn are_byte_oriented(items: &[Item]) -> bool
    ensures { result ≡ list_all is_byte_oriented items.now }
{
    items.iter().all(|item| item.is_byte_oriented())
}

/// Whether each item lies from `low` to `high`.
fn are_within(items: &[Item], low: u64, high: u64) -> bool
    requires { AllFormed items.now }
    ensures { result ≡ list_all (item_within low high) items.now }
{
    for item in items {
        if !item.is_within(low, high) {
            return false;
        }
    }
    true
}
