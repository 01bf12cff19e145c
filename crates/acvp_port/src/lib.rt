//! A port of this machine, and the socket of orders beside a database, with many clients at once: nobody waits for
//! another.
#![tactic(auto)]

mod client;
mod clients;
mod port;
mod socket;

pub use client::{Errand, Incoming, Outgoing};
pub use port::{Port, port_on};
pub use socket::{answer_to, has_server};
