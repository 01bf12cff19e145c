//! Vendors, modules and operational environments: their kinds, the URLs that name them, and what is kept of them.
#![tactic(auto)]

mod counts;
mod depth;
mod fault;
mod floats;
mod json;
mod kind;
mod number;
mod object;
mod request;
mod url;

pub use counts::Counts;
pub use fault::RegFault;
pub use floats::has_float;
pub use json::body_value;
pub use kind::Kind;
pub use number::{digits_number, plain_number};
pub use object::{Object, read_object, with_url};
pub use request::{PendingRequest, Status};
pub use url::{object_url, url_number};
