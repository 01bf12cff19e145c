//! A capability: an algorithm and the domains of its parameters.

ghost use Rattle.std.specs.Prelude.{◌≡◌, ◌≤◌, ◌↔◌, ◌++◌, codes, false, Some, Ok, IfOk, IsTrue, string_bytes};
ghost use Rattle.serde_json.specs.Find.{get};
ghost use Rattle.serde_json.specs.View.{view};
ghost use Rattle.std.specs.Cmp.{partial_equiv_from_equiv, on_equiv, and_equiv, nat_eq_equiv};
ghost use Rattle.std.specs.Cmp.Lexicographic.{lists_equiv, nat_list_eq_equiv};
ghost use Rattle.acvp_caps.specs.Algorithms.{algorithm_number};
ghost use Rattle.acvp_caps.specs.Capability.{AreDomainsOf, AreHashDomains, AreHmacDomains, digest_bits};
ghost use Rattle.acvp_caps.specs.Capability.{parameter_lists, same_capability, same_domains};
ghost use Rattle.acvp_caps.specs.Registered.{capability_conditions, capability_at, parameter_conditions, domains_at};
ghost use Rattle.acvp_caps.specs.Registered.{domain_conditions, domain_of, items_at, given_at, large_data_conditions};
ghost use Rattle.acvp_caps.specs.Registered.{registered_text};
ghost use Rattle.acvp_mac.specs.Conditions.{IsJudged};
ghost use Rattle.acvp_caps.specs.Private.Readings.{IsReadBy};
ghost use Rattle.acvp_caps.specs.Private.Kept.{AreGivenBy};
ghost use Rattle.acvp_caps.specs.Private.Written.{IsCapabilityData, domain_data, hash_data, hmac_data};

use crate::CapFault;
use crate::algorithm::Algorithm;
use crate::domain::{Domain, read_domain};
use crate::given::{Given, GivenItems};
use crate::json::{elements, is_optional_array, is_text, text_at};
use serde_json::{Value, json};
use std::alloc::{AllocError, Global};
use std::marker::Model;

/// The most bits of a message.
const MESSAGE_LIMIT: u64 = 65536;

/// The least bits of a key, and the most.
const KEY_LIMITS: (u64, u64) = (8, 524288);

/// The least bits of HMAC's result.
const MAC_LEAST: u64 = 32;

/// The domains of an algorithm's parameters, all of them lengths in bits.
#[derive(Drop)]
pub enum Domains {
    /// Of a hash function: the length of the message.
    Message(Domain),

    /// Of HMAC: the length of the key, and that of the result.
    KeyAndMac { key: Domain, mac: Domain },
}

/// The clone has the same members.
impl Clone for Domains {
    ghost is_clone = { λ it copy. copy ≡ it };

    fn clone(&self) -> Result<Domains, AllocError> {
        match self {
            Domains::Message(message) => {
                let message = message.clone()?;
                Ok(Domains::Message(message))
            }
            Domains::KeyAndMac { key, mac } => {
                let key = key.clone()?;
                let mac = mac.clone()?;
                Ok(Domains::KeyAndMac { key, mac })
            }
        }
    }
}

/// Domains of the same parameters are equal where each has the same members.
impl PartialEq for Domains {
    ghost eq = { same_domains };

    ghost laws = { partial_equiv_from_equiv (on_equiv parameter_lists (lists_equiv nat_list_eq_equiv)) };

    fn eq(&self, other: &Domains) -> bool
        ensures value { result ≡ same_domains self.now other.now }
        ensures same { IsTrue result ↔ (self.now ≡ other.now) }
    {
        match (self, other) {
            (Domains::Message(message), Domains::Message(other)) => message == other,
            (
                Domains::KeyAndMac { key, mac },
                Domains::KeyAndMac {
                    key: other_key,
                    mac: other_mac,
                },
            ) => key == other_key && mac == other_mac,
            _ => false,
        }
    }
}

impl Eq for Domains {
    ghost laws = { on_equiv parameter_lists (lists_equiv nat_list_eq_equiv) };
}

/// An algorithm and the domains of its parameters, which lie within what the algorithm is tested
/// at, and the items by which the domains were given. It is made by reading a registration, or a
/// capability's text.
#[derive(Drop)]
pub struct Capability {
    algorithm: Algorithm,
    domains: Domains,
    given: Given,
}

impl Model for Capability {
    ghost use Rattle.acvp_caps.specs.Capability.{CapabilityValue};
    ghost use Rattle.acvp_caps.specs.Private.Kept.{AreKept};

    ghost Value = { CapabilityValue };

    ghost view = { λ c. record { algorithm = c.algorithm; domains = c.domains; given = c.given } };

    ghost invariant = { λ c. AreKept c.algorithm c.domains c.given };
}

/// The clone keeps the items as they were given.
impl Clone for Capability {
    ghost is_clone = { λ it copy. copy ≡ it };

    fn clone(&self) -> Result<Capability, AllocError> {
        let domains = self.domains.clone()?;
        let given = self.given.clone()?;
        Ok(Capability {
            algorithm: self.algorithm,
            domains,
            given,
        })
    }
}

/// Capabilities for the same algorithm with the same members are equal, whatever items were given.
impl PartialEq for Capability {
    ghost eq = { same_capability };

    ghost laws = { partial_equiv_from_equiv (and_equiv (on_equiv (λ c. algorithm_number c.algorithm) nat_eq_equiv)
        (on_equiv (λ c. parameter_lists c.domains) (lists_equiv nat_list_eq_equiv))) };

    fn eq(&self, other: &Capability) -> bool
        ensures value { result ≡ same_capability self.now other.now }
        ensures same { IsTrue result
            ↔ ((self.now.algorithm ≡ other.now.algorithm) × (self.now.domains ≡ other.now.domains)) }
    {
        self.algorithm == other.algorithm && self.domains == other.domains
    }
}

impl Eq for Capability {
    ghost laws = { and_equiv (on_equiv (λ c. algorithm_number c.algorithm) nat_eq_equiv)
        (on_equiv (λ c. parameter_lists c.domains) (lists_equiv nat_list_eq_equiv)) };
}

impl Capability {
    /// The algorithm.
    pub fn algorithm(&self) -> Algorithm
        ensures { result ≡ self.now.algorithm }
    {
        self.algorithm
    }

    /// The domains of its parameters.
    pub fn domains(&self) -> &Domains
        ensures value { result.now ≡ self.now.domains }
        ensures fit { AreDomainsOf self.now.algorithm self.now.domains }
    {
        &self.domains
    }

    /// Whether the other is for the same algorithm and was given by the same items, and so is the
    /// same capability. It may be false of equal capabilities, where other items have the same
    /// members; but unlike `==` it walks to no member. It takes no memory.
    pub fn is_same(&self, other: &Capability) -> bool
        ensures exact { IsTrue result
            ↔ ((self.now.algorithm ≡ other.now.algorithm) × (self.now.given ≡ other.now.given)) }
        ensures same { IsTrue result ↔ (self.now ≡ other.now) }
    {
        self.algorithm == other.algorithm && self.given.is_same(&other.given)
    }

    /// The capability as compact JSON, with the items of its domains as they were given.
    #[tactic(auto, unfolding(crate::specs::Registered::registered_text))]
    pub fn to_text(&self, alloc: Global) -> Result<String, AllocError>
        ensures { IfOk result (λ text. registered_text (string_bytes text) ≡ Ok (Some self.now)) }
    {
        self.to_value(alloc)?.to_string(alloc)
    }

    /// The capability as a JSON value.
    fn to_value(&self, alloc: Global) -> Result<Value, AllocError>
        ensures { IfOk result (λ v. IsCapabilityData self.now (view v)) }
    {
        let Capability {
            algorithm,
            given,
            ..
        } = self;
        let name = algorithm.name();
        match given {
            Given::MessageItems(message) => hash_value(alloc, name, message),
            Given::KeyAndMacItems { key, mac } => hmac_value(alloc, name, key, mac),
        }
    }

    /// The capability that a text is, as one of a registration is read. A text that is no JSON is
    /// refused as `Field`.
    #[tactic(auto, unfolding(crate::specs::Registered::registered_text))]
    pub fn from_text(alloc: Global, text: &str) -> Result<Capability, CapFault>
        ensures { IsJudged CapFault.Memory (λ capability. Some capability) (registered_text text.now) result }
    {
        match Value::from_str(alloc, text) {
            Ok(value) => read_capability(alloc, &value),
            Err(error) if error.is_memory() => Err(CapFault::Memory),
            Err(_) => Err(CapFault::Field),
        }
    }
}

/// The value of a capability for a hash function.
fn hash_value(alloc: Global, name: &str, message: &GivenItems) -> Result<Value, AllocError>
    ensures { IfOk result (λ v. view v ≡ hash_data name.now (domain_data message.now)) }
{
    let message = message.to_value(alloc)?;
    json!(in alloc; {"algorithm": name, "messageLength": message, "revision": "1.0"})
}

/// The value of a capability for HMAC.
fn hmac_value(
    alloc: Global,
    name: &str,
    key: &GivenItems,
    mac: &GivenItems,
) -> Result<Value, AllocError>
    ensures { IfOk result (λ v. view v ≡ hmac_data name.now (domain_data key.now) (domain_data mac.now)) }
{
    let key = key.to_value(alloc)?;
    let mac = mac.to_value(alloc)?;
    json!(in alloc; {"algorithm": name, "keyLen": key, "macLen": mac, "revision": "1.0"})
}

/// The capability that a JSON value is.
pub(crate) fn read_capability(alloc: Global, value: &Value) -> Result<Capability, CapFault>
    ensures { IsReadBy (capability_conditions (view value.now)) (capability_at (view value.now)) result }
{
    let Some(name) = text_at(value, "algorithm") else {
        return Err(CapFault::Field);
    };
    let revision = text_at(value, "revision");
    if revision.is_none() {
        return Err(CapFault::Field);
    }
    match Algorithm::from_name(name) {
        Some(algorithm) if is_text(revision, "1.0") => read_parameters(alloc, value, algorithm),
        _ => Err(CapFault::Unsupported),
    }
}

/// The capability of an algorithm that a JSON value is.
fn read_parameters(
    alloc: Global,
    value: &Value,
    algorithm: Algorithm,
) -> Result<Capability, CapFault>
    ensures { IsReadBy (parameter_conditions (view value.now) algorithm)
        (Some (record {
          algorithm = algorithm;
          domains = domains_at (view value.now) algorithm;
          given = given_at (view value.now) algorithm;
        })) result }
{
    let (domains, given) = if algorithm.is_hmac() {
        read_hmac_domains(alloc, value, algorithm.digest_bits())?
    } else {
        read_hash_domains(alloc, value)?
    };
    Ok(Capability {
        algorithm,
        domains,
        given,
    })
}

/// The domain of a hash function, with its items, and no test of large messages.
fn read_hash_domains(alloc: Global, value: &Value) -> Result<(Domains, Given), CapFault>
    ensures read { IsReadBy (large_data_conditions (get (codes "performLargeDataTest") (view value.now))
        ++ domain_conditions 0 65536 (get (codes "messageLength") (view value.now)))
        (Some (
          Domains.Message (domain_of (get (codes "messageLength") (view value.now))),
          Given.MessageItems (items_at (get (codes "messageLength") (view value.now))),
        )) result }
    ensures fit { IfOk result (λ pair. AreHashDomains pair.0) }
    ensures given { IfOk result (λ pair. AreGivenBy pair.0 pair.1) }
{
    let large = value.get("performLargeDataTest");
    if !is_optional_array(large) {
        return Err(CapFault::Field);
    }
    if !elements(large).is_empty() {
        return Err(CapFault::Unsupported);
    }
    let (message, items) = read_domain(alloc, value.get("messageLength"), 0, MESSAGE_LIMIT)?;
    Ok((Domains::Message(message), Given::MessageItems(items)))
}

/// The domains of HMAC, whose result has at most so many bits, with their items.
fn read_hmac_domains(
    alloc: Global,
    value: &Value,
    mac_limit: u64,
) -> Result<(Domains, Given), CapFault>
    requires { mac_limit ≤ 524288 }
    ensures read { IsReadBy (domain_conditions 8 524288 (get (codes "keyLen") (view value.now))
        ++ domain_conditions 32 mac_limit (get (codes "macLen") (view value.now)))
        (Some (
          Domains.KeyAndMac (domain_of (get (codes "keyLen") (view value.now)))
              (domain_of (get (codes "macLen") (view value.now))),
          Given.KeyAndMacItems (items_at (get (codes "keyLen") (view value.now)))
              (items_at (get (codes "macLen") (view value.now))),
        )) result }
    ensures fit { IfOk result (λ pair. AreHmacDomains mac_limit pair.0) }
    ensures given { IfOk result (λ pair. AreGivenBy pair.0 pair.1) }
{
    let (key, key_items) = read_domain(alloc, value.get("keyLen"), KEY_LIMITS.0, KEY_LIMITS.1)?;
    let (mac, mac_items) = read_domain(alloc, value.get("macLen"), MAC_LEAST, mac_limit)?;
    Ok((
        Domains::KeyAndMac { key, mac },
        Given::KeyAndMacItems {
            key: key_items,
            mac: mac_items,
        },
    ))
}
