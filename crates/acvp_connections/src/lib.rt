//! Connections to the database in a file, and why there is none.
#![tactic(auto)]

mod connection;
mod fault;
mod left;
mod number;
mod passing;
mod watch;
mod watched;

pub use connection::{
    FileConnection, Unopened, close, connect_existing, connect_new, connect_there, copied,
    has_no_log,
};
pub use fault::{FileFault, done, fault_of_cause, fault_of_error, refused};
pub use left::{left_file, remove, settle_names};
pub use number::{FileNumber, file_at, number_of};
pub use watch::{MEGABYTE, Watch, is_told};
pub use watched::Watched;
