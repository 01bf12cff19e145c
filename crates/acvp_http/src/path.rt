//! The paths of the protocol, and what a method on one asks.
ghost use Rattle.std.specs.Prelude.{◌≡◌, ◌≤◌, ◌+◌, ◌∷◌, [], codes, length, Some, None, if◌then◌else◌};
ghost use Rattle.acvp_desk.specs.declared.request.Ask.TheVariants as ask;
ghost use Rattle.acvp_desk.specs.declared.wish.RegistryWish.TheVariants as its;
ghost use Rattle.acvp_http.specs.Paths.{allowed_on, asked_on, chosen, methods_of, on_registry, registry_methods};
ghost use Rattle.acvp_http.specs.Private.Methods.{joined, listed, offered};

use crate::text::ShortText;
use acvp_desk::{AccountWish, Ask, Registry, RegistryWish, SessionWish, SetWish, Wish, page_of};

/// A path of the table, with its numbers. The router keeps each with 0 for them.
#[derive(Clone, Copy)]
pub(crate) enum Path {
    Login,
    Account,
    Algorithms,
    Algorithm(u64),
    Sessions,
    Session(u64),
    SessionResults(u64),
    Sets(u64),
    Set(u64, u64),
    SetResults(u64, u64),
    Expected(u64, u64),
    Reviewers(u64),
    Reviewer(u64, u64),
    Vendors,
    Vendor(u64),
    Modules,
    Module(u64),
    Environments,
    Environment(u64),
    Requests,
    Request(u64),
}

const GET: &[u8] = b"GET";

const POST: &[u8] = b"POST";

const PUT: &[u8] = b"PUT";

const DELETE: &[u8] = b"DELETE";

/// What each method asks on a path, where the path has it.
#[derive(Clone, Copy)]
struct Methods {
    get: Option<Ask>,
    post: Option<Ask>,
    put: Option<Ask>,
    delete: Option<Ask>,
}

/// A path that has no method.
const NONE: Methods = Methods {
    get: None,
    post: None,
    put: None,
    delete: None,
};

/// A path that can be read.
fn get(wish: Wish) -> Methods
    ensures { result ≡ record { get = Some (ask.Caller wish); post = None; put = None; delete = None } }
{
    Methods {
        get: Some(Ask::Caller(wish)),
        ..NONE
    }
}

/// A path that can be read, and at which something new can be asked for.
fn get_or_post(read: Wish, new: Wish) -> Methods
    ensures { result ≡ record {
      get = Some (ask.Caller read);
      post = Some (ask.Caller new);
      put = None;
      delete = None;
    } }
{
    Methods {
        get: Some(Ask::Caller(read)),
        post: Some(Ask::Caller(new)),
        ..NONE
    }
}

/// A registry, whose objects are listed by the page that a query asks for.
fn registry(of: Registry, query: &[u8]) -> Methods
    ensures { listed result ≡ registry_methods of query.now }
{
    let list = RegistryWish::List(of, page_of(query));
    get_or_post(Wish::Registry(list), Wish::Registry(RegistryWish::New(of)))
}

/// What a registry holds under a number.
fn object(of: Registry, number: u64) -> Methods
    ensures { listed result ≡ (codes "GET", on_registry (its.Read of number)) ∷ [] }
{
    get(Wish::Registry(RegistryWish::Read(of, number)))
}

/// What this method asks, where it is the one of this name.
fn only(method: &[u8], name: &[u8], ask: Option<Ask>) -> Option<Ask>
    ensures { result ≡ chosen method.now (offered name.now ask) }
{
    if method == name { ask } else { None }
}

impl Methods {
    /// What this method asks, where the path has it.
    fn asked(self, method: &[u8]) -> Option<Ask>
        ensures { result ≡ chosen method.now (listed self) }
    {
        only(method, GET, self.get)
            .or(only(method, POST, self.post))
            .or(only(method, PUT, self.put))
            .or(only(method, DELETE, self.delete))
    }
}

impl Path {
    /// What each method asks on this path, beside a query.
    fn methods(self, query: &[u8]) -> Methods
        ensures { listed result ≡ methods_of self query.now }
    {
        match self {
            Path::Login => Methods {
                post: Some(Ask::Login),
                ..NONE
            },
            Path::Account => get(Wish::Account(AccountWish::Read)),
            Path::Algorithms => get(Wish::Account(AccountWish::ListAlgorithms)),
            Path::Algorithm(number) => get(Wish::Algorithm(number)),
            Path::Sessions => get_or_post(Wish::ListSessions(page_of(query)), Wish::NewSession),
            Path::Session(session) => Methods {
                get: Some(Ask::Caller(Wish::Session(session, SessionWish::Read))),
                put: Some(Ask::Caller(Wish::Certify(session))),
                delete: Some(Ask::Caller(Wish::Session(session, SessionWish::Cancel))),
                ..NONE
            },
            Path::SessionResults(session) => get(Wish::Session(session, SessionWish::Results)),
            Path::Sets(session) => get(Wish::Session(session, SessionWish::ListSets)),
            Path::Set(session, set) => Methods {
                get: Some(Ask::Caller(Wish::Set(session, set, SetWish::Read))),
                delete: Some(Ask::Caller(Wish::CancelSet(session, set))),
                ..NONE
            },
            Path::SetResults(session, set) => Methods {
                get: Some(Ask::Caller(Wish::Set(session, set, SetWish::Results))),
                post: Some(Ask::Caller(Wish::Set(session, set, SetWish::Submit))),
                put: Some(Ask::Caller(Wish::Set(session, set, SetWish::Resubmit))),
                ..NONE
            },
            Path::Expected(session, set) => get(Wish::Set(session, set, SetWish::Expected)),
            Path::Reviewers(session) => get_or_post(
                Wish::Session(session, SessionWish::ListReviewers),
                Wish::Session(session, SessionWish::AddReviewer),
            ),
            Path::Reviewer(session, account) => Methods {
                delete: Some(Ask::Caller(Wish::Reviewer(session, account))),
                ..NONE
            },
            Path::Vendors => registry(Registry::Vendors, query),
            Path::Vendor(number) => object(Registry::Vendors, number),
            Path::Modules => registry(Registry::Modules, query),
            Path::Module(number) => object(Registry::Modules, number),
            Path::Environments => registry(Registry::Environments, query),
            Path::Environment(number) => object(Registry::Environments, number),
            Path::Requests => get(Wish::Registry(RegistryWish::ListRequests(page_of(query)))),
            Path::Request(number) => get(Wish::Registry(RegistryWish::ReadRequest(number))),
        }
    }

    /// What the method asks on this path beside a query, where it is one of the path's methods.
    pub(crate) fn asked(self, method: &[u8], query: &[u8]) -> Option<Ask>
        ensures { result ≡ asked_on method.now query.now self }
    {
        self.methods(query).asked(method)
    }

    /// The methods of this path, as the `Allow` field lists them (RFC 9110, section 10.2.1).
    pub(crate) fn allowed(self) -> ShortText
        ensures value { result ≡ allowed_on self }
        ensures len { length result ≤ 32 }
    {
        let methods = self.methods(b"");
        let mut text = ShortText::new();
        push_if(&mut text, GET, methods.get.is_some());
        push_if(&mut text, POST, methods.post.is_some());
        push_if(&mut text, PUT, methods.put.is_some());
        push_if(&mut text, DELETE, methods.delete.is_some());
        text
    }
}

/// Writes a method's name behind those that are there, where the path has it.
fn push_if(text: &mut ShortText, name: &[u8], is_there: bool)
    requires short { length text.old + length name.now + 2 ≤ 512 }
    ensures bytes { text.new ≡ (if is_there then joined text.old name.now else text.old) }
    ensures len { length text.new ≤ length text.old + length name.now + 2 }
{
    if !is_there {
        return;
    }
    if text.len() > 0 {
        text.push(b", ");
    }
    text.push(name);
}
