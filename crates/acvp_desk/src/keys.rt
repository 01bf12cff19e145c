//! The keys of a server.

use acvp_gen::Seeds;
use acvp_token::KeyRing;

/// The keys of a server: those that its tokens are signed under, and the seeds that its prompts are made from.
#[derive(Drop)]
pub struct Keys {
    pub token: KeyRing,
    pub seed: Seeds,
}
