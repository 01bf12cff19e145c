//! The actions of the protocol.

ghost use Rattle.std.specs.Prelude.{◌≡◌};
ghost use Rattle.acvp_policy.specs.Scope.{scope_of};

/// What a request asks for, in the order of the actions' numbers, from 1 to 31.
#[derive(Clone, Copy, Debug, PartialEq, Eq)]
pub enum Action {
    Login,
    ReadAccount,
    ListAlgorithms,
    ReadAlgorithm,
    ListSessions,
    NewSession,
    ReadSession,
    Certify,
    CancelSession,
    SessionResults,
    ListSets,
    ReadSet,
    CancelSet,
    SetResults,
    Submit,
    Resubmit,
    Expected,
    ListVendors,
    NewVendor,
    ReadVendor,
    ListModules,
    NewModule,
    ReadModule,
    ListEnvironments,
    NewEnvironment,
    ReadEnvironment,
    ListRequests,
    ReadRequest,
    ListReviewers,
    AddReviewer,
    RemoveReviewer,
}

/// What an action asks of the caller.
#[derive(Clone, Copy, PartialEq, Eq)]
pub enum Scope {
    /// An account, its one-time code, and at most a token to renew.
    Login,

    /// Any good token.
    AccountRead,

    /// A token that is bound to no session.
    AccountChange,

    /// A token that is bound to the session of the path.
    SessionResource,

    /// A token that is bound to the session of the path, or a token that is bound to no session, of an account that
    /// reviews it.
    ReviewableResource,
}

impl Action {
    /// What the action asks of the caller.
    pub fn scope(self) -> Scope
        ensures { result ≡ scope_of self }
    {
        match self {
            Action::Login => Scope::Login,
            Action::NewSession | Action::NewVendor => Scope::AccountChange,
            Action::NewModule | Action::NewEnvironment => Scope::AccountChange,
            Action::ReadSession | Action::Certify | Action::CancelSession => Scope::SessionResource,
            Action::ListSets | Action::ReadSet | Action::CancelSet => Scope::SessionResource,
            Action::Submit | Action::Resubmit | Action::Expected => Scope::SessionResource,
            Action::ListReviewers | Action::AddReviewer => Scope::SessionResource,
            Action::RemoveReviewer => Scope::SessionResource,
            Action::SessionResults | Action::SetResults => Scope::ReviewableResource,
            _ => Scope::AccountRead,
        }
    }
}
