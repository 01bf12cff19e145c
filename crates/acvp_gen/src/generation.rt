//! The prompts of a vector set.

ghost use Rattle.std.specs.Prelude.{◌≡◌, IfOk};
ghost use Rattle.acvp_gen.specs.Prompts.{prompts_of};

use crate::choice::shapes_on;
use crate::filling::groups_from;
use crate::generator::Generator;
use crate::prompt::Prompts;
use acvp_caps::Capability;
use std::alloc::{AllocError, Global};

/// The prompts of the vector set of a number for a capability. The seed and the number choose which members are drawn
/// and every byte of the tests. One generator is moved along: by the draws, and then by the tests in their order.
pub fn prompts(
    alloc: Global,
    seed: &[u8; 32],
    vs: u64,
    capability: &Capability,
) -> Result<Prompts, AllocError>
    ensures { IfOk result (λ prompts. prompts ≡ prompts_of seed.now vs capability.now) }
{
    let algorithm = capability.algorithm();
    let domains = capability.domains();
    let mut words = Generator::at(seed, vs, 0);
    let shapes = shapes_on(alloc, &mut words, algorithm, domains)?;
    let groups = groups_from(alloc, &mut words, &shapes)?;
    Ok(Prompts {
        vs,
        algorithm,
        groups,
    })
}
