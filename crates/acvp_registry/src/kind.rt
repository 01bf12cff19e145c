//! The kinds of what a laboratory registers or certifies.

/// What a request asks to be registered or certified.
#[derive(Clone, Copy, Debug, PartialEq, Eq)]
pub enum Kind {
    Vendor,
    Module,
    /// An operational environment, `oe` in the protocol's words.
    Environment,
    Certification,
}
