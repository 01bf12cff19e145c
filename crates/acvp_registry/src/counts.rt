//! How many rows an account has.

/// How many rows of each kind an account has.
#[derive(Clone, Copy)]
pub struct Counts {
    pub sessions: u64,
    pub vendors: u64,
    pub modules: u64,
    pub environments: u64,
    pub requests: u64,
}
