//! What a grant is for.

ghost use Rattle.std.specs.Prelude.{◌≡◌};
ghost use Rattle.acvp_policy.specs.Resource.{resource_of};

use crate::facts::Subject;

/// What a grant is for, by the numbers of the path.
#[derive(Clone, Copy, PartialEq, Eq)]
pub enum Resource {
    /// The account of the grant: its own row, its lists, and what is added to them.
    Account,
    Algorithm(u64),
    Session(u64),

    /// A session and its vector set.
    Set(u64, u64),

    /// A session and the account of a reviewer of it.
    Reviewer(u64, u64),
    Vendor(u64),
    Module(u64),
    Environment(u64),
    Request(u64),
}

impl Subject {
    /// The resource that is named, whether it was found or not.
    pub fn resource(&self) -> Resource
        ensures { result ≡ resource_of self.now }
    {
        match self {
            Subject::Login(_) | Subject::Account => Resource::Account,
            Subject::Algorithm(number) => Resource::Algorithm(*number),
            Subject::Session(on) => Resource::Session(on.session),
            Subject::Set(on) => Resource::Set(on.session, on.set),
            Subject::Reviewer(on) => Resource::Reviewer(on.session, on.reviewer),
            Subject::Vendor(row) => Resource::Vendor(row.number),
            Subject::Module(row) => Resource::Module(row.number),
            Subject::Environment(row) => Resource::Environment(row.number),
            Subject::Request(row) => Resource::Request(row.number),
        }
    }
}
