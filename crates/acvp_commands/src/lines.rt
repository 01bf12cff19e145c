//! What the commands print where they have done what they are asked for.
ghost use Rattle.std.specs.Prelude.{◌≡◌, ◌++◌, IfOk, codes, decimal, string_bytes};
ghost use Rattle.acvp_commands.specs.Lines.{approved_url, line_text};

use acvp_registry::{Kind, object_url};
use std::alloc::{AllocError, Global};

/// A line of standard output.
#[derive(Clone, Copy)]
pub enum Message {
    /// The tables are there.
    Ready,

    /// The tables are those of schema 3.
    Migrated,

    /// The account of this number is added.
    Added(u16),

    /// The account of this number is disabled.
    Disabled(u16),

    /// The request of this number is approved, and with it what has this kind and this number.
    Approved(u64, Kind, u64),

    /// The request of this number is rejected.
    Rejected(u64),

    /// Connections to this port of the machine itself are taken from now on.
    Listening(u16),

    /// So many connections were served.
    Served(u64),
}

/// The URL of what an approval gives its number: of an object, or of the test session that is certified.
fn approved_url(alloc: Global, kind: Kind, number: u64) -> Result<String, AllocError>
    ensures { IfOk result (λ url. string_bytes url ≡ approved_url kind number) }
{
    match object_url(alloc, kind, number)? {
        Some(url) => Ok(url),
        None => format!(in alloc; "/acvp/v1/testSessions/{number}"),
    }
}

/// What stands before the URL in the line of a request that is approved.
fn before_url(alloc: Global, request: u64) -> Result<String, AllocError>
    ensures { IfOk result (λ text. string_bytes text ≡ codes "request " ++ decimal request ++ codes " approved ") }
{
    format!(in alloc; "request {request} approved ")
}

/// Two texts as one.
fn joined(alloc: Global, first: &str, second: &str) -> Result<String, AllocError>
    ensures { IfOk result (λ text. string_bytes text ≡ first.now ++ second.now) }
{
    format!(in alloc; "{first}{second}")
}

/// The line of a request that is approved, with the URL of what is approved.
fn approved_line(alloc: Global, request: u64, url: &str) -> Result<String, AllocError>
    ensures { IfOk result (λ text. string_bytes text ≡ (codes "request " ++ decimal request ++ codes " approved ")
        ++ url.now) }
{
    let front = before_url(alloc, request)?;
    joined(alloc, front.as_str(), url)
}

impl Message {
    /// The line, without its line feed.
    pub fn text(self, alloc: Global) -> Result<String, AllocError>
        ensures { IfOk result (λ text. string_bytes text ≡ line_text self) }
    {
        match self {
            Message::Ready => String::from_str(alloc, "ready"),
            Message::Migrated => String::from_str(alloc, "schema 3"),
            Message::Added(account) => format!(in alloc; "account {account} added"),
            Message::Disabled(account) => format!(in alloc; "account {account} disabled"),
            Message::Approved(request, kind, number) => {
                let url = approved_url(alloc, kind, number)?;
                approved_line(alloc, request, url.as_str())
            }
            Message::Rejected(request) => format!(in alloc; "request {request} rejected"),
            Message::Listening(port) => format!(in alloc; "listening 127.0.0.1:{port}"),
            Message::Served(count) => format!(in alloc; "served {count}"),
        }
    }
}
