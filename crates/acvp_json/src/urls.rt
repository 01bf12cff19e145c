//! The URLs of what replies speak of.
ghost use Rattle.std.specs.Prelude.{◌≡◌, IfOk, string_bytes};
ghost use Rattle.acvp_json.specs.Urls.{session_url, set_url, results_url, request_url, approved_url, list_path};

use acvp_registry::{Kind, object_url};
use std::alloc::{AllocError, Global};

/// A session's.
pub(crate) fn session_url(alloc: Global, session: u64) -> Result<String, AllocError>
    ensures { IfOk result (λ url. string_bytes url ≡ session_url session) }
{
    format!(in alloc; "/acvp/v1/testSessions/{session}")
}

/// A vector set's.
pub(crate) fn set_url(alloc: Global, vs: u64) -> Result<String, AllocError>
    ensures { IfOk result (λ url. string_bytes url ≡ set_url vs) }
{
    let session = vs / 100;
    format!(in alloc; "/acvp/v1/testSessions/{session}/vectorSets/{vs}")
}

/// A vector set's results'.
pub(crate) fn results_url(alloc: Global, vs: u64) -> Result<String, AllocError>
    ensures { IfOk result (λ url. string_bytes url ≡ results_url vs) }
{
    let session = vs / 100;
    format!(in alloc; "/acvp/v1/testSessions/{session}/vectorSets/{vs}/results")
}

/// A request's.
pub(crate) fn request_url(alloc: Global, request: u64) -> Result<String, AllocError>
    ensures { IfOk result (λ url. string_bytes url ≡ request_url request) }
{
    format!(in alloc; "/acvp/v1/requests/{request}")
}

/// What an approved request leads to.
pub(crate) fn approved_url(alloc: Global, kind: Kind, number: u64) -> Result<String, AllocError>
    ensures { IfOk result (λ url. string_bytes url ≡ approved_url kind number) }
{
    match object_url(alloc, kind, number)? {
        Some(url) => Ok(url),
        None => session_url(alloc, number),
    }
}

/// The path of the list of an account's objects of a kind.
pub(crate) fn list_path(kind: Kind) -> &'static str
    ensures { result.now ≡ list_path kind }
{
    match kind {
        Kind::Vendor => "/acvp/v1/vendors",
        Kind::Module => "/acvp/v1/modules",
        Kind::Environment => "/acvp/v1/oes",
        Kind::Certification => "/acvp/v1/requests",
    }
}
