//! From the bytes of a request, or of a script, to the bytes of the replies.
#![tactic(auto)]

mod connection;
mod framing;
mod head;
mod life;
mod needed;
mod nothing;
mod path;
mod promise;
mod reading;
mod receiving;
mod reply;
mod request;
mod routes;
mod running;
mod script;
mod serve;
mod source;
mod target;
mod text;
mod token;
mod told;
mod writing;

pub use connection::{Ended, ServeFault, serve_one};
pub use framing::BODY_BYTES;
pub use head::HEAD_BYTES;
pub use life::{lives_are_promised, lives_leave_records, orders_are_turns, runs_are_promised};
pub use needed::needed_bytes;
pub use nothing::run_from_nothing;
pub use promise::{denials_are_alike, headline, isolation, request_isolation};
pub use reply::Reply;
pub use request::asks_one_thing;
pub use routes::{Routes, finds_one_thing};
pub use running::{handle_order, run, turns_are_promised, turns_leave, turns_make_a_run};
pub use script::{ScriptFault, order_in};
pub use serve::{events_are_served_one_way, handle_bytes};
pub use source::{Flagged, Sink, Source};
pub use told::Told;
