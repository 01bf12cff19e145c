//! The lines of a log of what is served: one for each request and each order.
#![tactic(auto)]

mod asked;
mod form;
mod line;
mod log;
mod object;

pub use form::LogForm;
pub use log::Log;
