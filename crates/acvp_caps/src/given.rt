//! The items that a domain was given by.

ghost use Rattle.std.specs.Prelude.{◌≡◌, ◌↔◌, IsTrue, IfOk, map};
ghost use Rattle.serde_json.specs.View.{view};
ghost use Rattle.acvp_caps.specs.Private.Written.{item_data, domain_data};

use crate::item::Item;
use serde_json::Value;
use std::alloc::{AllocError, Global};
use std::marker::Model;

/// The items of a domain, in the order in which they were given: contracts see them as a list.
#[derive(Drop)]
pub(crate) struct GivenItems {
    list: Vec<Item>,
}

impl Model for GivenItems {
    ghost use Rattle.std.specs.Prelude.{List};
    ghost use Rattle.acvp_caps.specs.declared.item.Item.{Item};

    ghost Value = { List Item };

    ghost view = { λ given. given.list.items };
}

/// The clone has the very same items.
impl Clone for GivenItems {
    ghost is_clone = { λ it copy. copy ≡ it };

    fn clone(&self) -> Result<GivenItems, AllocError> {
        let list = self.list.clone()?;
        Ok(GivenItems { list })
    }
}

impl GivenItems {
    /// These items, copied.
    pub(crate) fn copy_of(items: &Vec<Item>) -> Result<GivenItems, AllocError>
        ensures { IfOk result (λ given. given ≡ items.now.items) }
    {
        let list = items.clone()?;
        Ok(GivenItems { list })
    }

    /// Whether the others are the very same items, in the same order.
    pub(crate) fn is_same(&self, other: &GivenItems) -> bool
        ensures { IsTrue result ↔ (self.now ≡ other.now) }
    {
        self.list == other.list
    }

    /// The items as a JSON array.
    pub(crate) fn to_value(&self, alloc: Global) -> Result<Value, AllocError>
        ensures { IfOk result (λ v. view v ≡ domain_data self.now) }
    {
        let values = item_values(alloc, &self.list)?;
        Ok(Value::Array(values))
    }
}

/// The items as JSON values.
fn item_values(alloc: Global, items: &[Item]) -> Result<Vec<Value>, AllocError>
    ensures { IfOk result (λ values. map view values.items ≡ map item_data items.now) }
{
    let mut values = Vec::new(alloc);
    for item in items {
        values.push(item.to_value(alloc)?)?;
    }
    Ok(values)
}

/// The items by which the domains of an algorithm's parameters were given.
#[derive(Drop)]
pub(crate) enum Given {
    /// Of a hash function: those of the length of the message.
    MessageItems(GivenItems),

    /// Of HMAC: those of the length of the key, and of that of the result.
    KeyAndMacItems { key: GivenItems, mac: GivenItems },
}

/// The clone has the very same items.
impl Clone for Given {
    ghost is_clone = { λ it copy. copy ≡ it };

    fn clone(&self) -> Result<Given, AllocError> {
        match self {
            Given::MessageItems(message) => {
                let message = message.clone()?;
                Ok(Given::MessageItems(message))
            }
            Given::KeyAndMacItems { key, mac } => {
                let key = key.clone()?;
                let mac = mac.clone()?;
                Ok(Given::KeyAndMacItems { key, mac })
            }
        }
    }
}

impl Given {
    /// Whether the others are the very same items of the same parameters.
    pub(crate) fn is_same(&self, other: &Given) -> bool
        ensures { IsTrue result ↔ (self.now ≡ other.now) }
    {
        match (self, other) {
            (Given::MessageItems(message), Given::MessageItems(other)) => message.is_same(other),
            (
                Given::KeyAndMacItems { key, mac },
                Given::KeyAndMacItems {
                    key: other_key,
                    mac: other_mac,
                },
            ) => key.is_same(other_key) && mac.is_same(other_mac),
            _ => false,
        }
    }
}
