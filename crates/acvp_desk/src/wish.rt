//! What a caller with a token asks.

ghost use Rattle.std.specs.Prelude.{◌≡◌, option_map};
ghost use Rattle.acvp_policy.specs.Conditions.{claims_of};
ghost use Rattle.acvp_desk.specs.Registries.{kind_of, list_action, new_action, read_action, action_on_registry};
ghost use Rattle.acvp_desk.specs.Wish.{action_of_wish};

use acvp_json::Page;
use acvp_policy::{Action, Token};
use acvp_registry::Kind;

/// What is asked of the account that acts, or of what every account sees.
#[derive(Clone, Copy, Debug, PartialEq, Eq)]
pub enum AccountWish {
    Read,
    ListAlgorithms,
}

/// What is asked of a test session.
#[derive(Clone, Copy, Debug, PartialEq, Eq)]
pub enum SessionWish {
    Read,
    Cancel,
    Results,
    ListSets,
    ListReviewers,
    AddReviewer,
}

/// What is asked of a vector set.
#[derive(Clone, Copy, Debug, PartialEq, Eq)]
pub enum SetWish {
    Read,
    Expected,
    Results,

    /// That answers to it, which has none, are kept.
    Submit,

    /// That answers to it are kept in the place of those that are.
    Resubmit,
}

/// A registry of the account that acts. What it holds is of one kind.
#[derive(Clone, Copy, Debug, PartialEq, Eq)]
pub enum Registry {
    Vendors,
    Modules,

    /// Of operational environments.
    Environments,
}

/// What is asked of the registries and requests of the account that acts.
#[derive(Clone, Copy, Debug, PartialEq, Eq)]
pub enum RegistryWish {
    /// What a registry holds under a number.
    Read(Registry, u64),

    /// That the operator registers an object.
    New(Registry),

    /// What a registry holds, by a page; none where the query is no page.
    List(Registry, Option<Page>),

    /// The request of a number.
    ReadRequest(u64),

    /// The requests, by a page; none where the query is no page.
    ListRequests(Option<Page>),
}

/// What is asked, by what the path names.
#[derive(Clone, Copy, Debug, PartialEq, Eq)]
pub enum Wish {
    Account(AccountWish),

    /// The algorithm of a number.
    Algorithm(u64),

    /// The test session of a number.
    Session(u64, SessionWish),

    /// That an account no longer reviews a test session.
    Reviewer(u64, u64),

    /// A new test session of the account that acts.
    NewSession,

    /// Of the test session of a number the vector set of a number.
    Set(u64, u64, SetWish),

    /// That of the test session of a number the vector set of a number is cancelled.
    CancelSet(u64, u64),

    /// The sessions of the account that acts, by a page; none where the query is no page.
    ListSessions(Option<Page>),

    /// That the operator certifies the test session of a number.
    Certify(u64),

    /// What is of the registries and requests of the account that acts.
    Registry(RegistryWish),
}

/// What a caller asks, with what its token came to.
#[derive(Clone, Copy)]
pub(crate) struct CallerAsk {
    pub token: Token,
    pub wish: Wish,
}

impl CallerAsk {
    /// The account of its token's claims, where these were verified.
    pub fn account(self) -> Option<u16>
        ensures { result ≡ option_map (λ claims. claims.account) (claims_of self.token) }
    {
        match self.token {
            Token::Verified(claims) => Some(claims.account),
            _ => None,
        }
    }
}

impl Registry {
    /// The kind of what it holds.
    pub fn kind(self) -> Kind
        ensures { result ≡ kind_of self }
    {
        match self {
            Registry::Vendors => Kind::Vendor,
            Registry::Modules => Kind::Module,
            Registry::Environments => Kind::Environment,
        }
    }

    /// The action that reads what it holds under a number.
    fn read_action(self) -> Action
        ensures { result ≡ read_action self }
    {
        match self {
            Registry::Vendors => Action::ReadVendor,
            Registry::Modules => Action::ReadModule,
            Registry::Environments => Action::ReadEnvironment,
        }
    }

    /// The action that asks for a registration in it.
    fn new_action(self) -> Action
        ensures { result ≡ new_action self }
    {
        match self {
            Registry::Vendors => Action::NewVendor,
            Registry::Modules => Action::NewModule,
            Registry::Environments => Action::NewEnvironment,
        }
    }

    /// The action that lists what it holds.
    fn list_action(self) -> Action
        ensures { result ≡ list_action self }
    {
        match self {
            Registry::Vendors => Action::ListVendors,
            Registry::Modules => Action::ListModules,
            Registry::Environments => Action::ListEnvironments,
        }
    }
}

impl RegistryWish {
    /// The action that it is.
    fn action(self) -> Action
        ensures { result ≡ action_on_registry self }
    {
        match self {
            RegistryWish::Read(registry, _) => registry.read_action(),
            RegistryWish::New(registry) => registry.new_action(),
            RegistryWish::List(registry, _) => registry.list_action(),
            RegistryWish::ReadRequest(_) => Action::ReadRequest,
            RegistryWish::ListRequests(_) => Action::ListRequests,
        }
    }
}

impl Wish {
    /// The action that it is.
    pub fn action(self) -> Action
        ensures { result ≡ action_of_wish self }
    {
        match self {
            Wish::Account(AccountWish::Read) => Action::ReadAccount,
            Wish::Account(AccountWish::ListAlgorithms) => Action::ListAlgorithms,
            Wish::Algorithm(_) => Action::ReadAlgorithm,
            Wish::Session(_, SessionWish::Read) => Action::ReadSession,
            Wish::Session(_, SessionWish::Cancel) => Action::CancelSession,
            Wish::Session(_, SessionWish::Results) => Action::SessionResults,
            Wish::Session(_, SessionWish::ListSets) => Action::ListSets,
            Wish::Session(_, SessionWish::ListReviewers) => Action::ListReviewers,
            Wish::Session(_, SessionWish::AddReviewer) => Action::AddReviewer,
            Wish::Reviewer(_, _) => Action::RemoveReviewer,
            Wish::NewSession => Action::NewSession,
            Wish::Set(_, _, SetWish::Read) => Action::ReadSet,
            Wish::Set(_, _, SetWish::Expected) => Action::Expected,
            Wish::Set(_, _, SetWish::Results) => Action::SetResults,
            Wish::CancelSet(_, _) => Action::CancelSet,
            Wish::Set(_, _, SetWish::Submit) => Action::Submit,
            Wish::Set(_, _, SetWish::Resubmit) => Action::Resubmit,
            Wish::ListSessions(_) => Action::ListSessions,
            Wish::Certify(_) => Action::Certify,
            Wish::Registry(it) => it.action(),
        }
    }
}
