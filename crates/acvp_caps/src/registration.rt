//! A registration: what an implementation under test claims to do.

ghost use Rattle.std.specs.Prelude.{◌≡◌, ◌⊎◌, ◌≤◌, Some, None, length, map, IfOk, IfErr};
ghost use Rattle.std.specs.List.{filter_map, flat_map};
ghost use Rattle.serde_json.specs.View.{view};
ghost use Rattle.acvp_caps.specs.Registered.{capability_conditions, capability_at, registered};
ghost use Rattle.acvp_mac.specs.Conditions.{IsJudged, first_broken};

use crate::CapFault;
use crate::capability::{Capability, read_capability};
use crate::json::{elements, flag};
use serde_json::Value;
use std::alloc::Global;
use std::marker::Model;

/// The most capabilities of a registration.
const CAPABILITY_LIMIT: usize = 20;

/// Capabilities, from 1 to 20, and whether they are registered for a sample. It is made by reading
/// it.
#[derive(Drop)]
pub struct Registration {
    sample: bool,
    capabilities: Vec<Capability>,
}

impl Model for Registration {
    ghost use Rattle.std.specs.Prelude.{◌≤◌, length};
    ghost use Rattle.acvp_caps.specs.Registration.{RegistrationValue, HasCapabilities};

    ghost Value = { RegistrationValue };

    ghost view = { λ r. record { sample = r.sample; capabilities = r.capabilities.items } };

    ghost invariant = { λ r. HasCapabilities (length r.capabilities.items) };
}

impl Registration {
    /// Whether the expected answers may be shown.
    pub fn sample(&self) -> bool
        ensures { result ≡ self.now.sample }
    {
        self.sample
    }

    /// The capabilities in the order in which they were given.
    pub fn capabilities(&self) -> &[Capability]
        ensures value { result.now ≡ self.now.capabilities }
        ensures least { 1 ≤ length result.now }
        ensures most { length result.now ≤ 20 }
    {
        &self.capabilities
    }

    /// The capabilities in the order in which they were given. No memory is taken.
    pub fn into_capabilities(self) -> Vec<Capability>
        ensures value { result.items ≡ self.capabilities }
        ensures least { 1 ≤ length result.items }
        ensures most { length result.items ≤ 20 }
    {
        let Registration {
            sample: _,
            capabilities,
        } = self;
        capabilities
    }
}

/// The registration that a JSON value is.
#[tactic(auto, unfolding(crate::specs::Registered::registered))]
pub fn read_registration(alloc: Global, value: &Value) -> Result<Registration, CapFault>
    ensures { IsJudged CapFault.Memory (λ registration. registration) (registered (view value.now)) result }
{
    let values = elements(value.get("algorithms"));
    if values.is_empty() || values.len() > CAPABILITY_LIMIT {
        return Err(CapFault::Field);
    }
    let Some(sample) = flag(value.get("isSample")) else {
        return Err(CapFault::Field);
    };
    match flag(value.get("encryptAtRest")) {
        None => return Err(CapFault::Field),
        Some(true) => return Err(CapFault::Unsupported),
        Some(false) => {}
    }
    let capabilities = read_capabilities(alloc, values)?;
    Ok(Registration {
        sample,
        capabilities,
    })
}

/// The capabilities that JSON values are, where each is one.
fn read_capabilities(alloc: Global, values: &[Value]) -> Result<Vec<Capability>, CapFault>
    ensures ok { IfOk result (λ capabilities. (first_broken (flat_map capability_conditions (map view values.now))
        ≡ None)
        × (capabilities.items ≡ filter_map capability_at (map view values.now))) }
    ensures len { IfOk result (λ capabilities. length capabilities.items ≡ length values.now) }
    ensures err { IfErr result (λ fault. (fault ≡ CapFault.Memory)
        ⊎ (first_broken (flat_map capability_conditions (map view values.now)) ≡ Some fault)) }
{
    let mut capabilities = Vec::new(alloc);
    for value in values {
        let capability = read_capability(alloc, value)?;
        capabilities.push(capability)?;
    }
    Ok(capabilities)
}
