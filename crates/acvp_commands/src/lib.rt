//! What the commands of the program come to, where contracts tell it: the texts that they read, the lines and faults
//! that they tell, an order on the records, and connections that are served over these.
#![tactic(auto)]

mod asked;
mod done;
mod fault;
mod files;
mod host;
mod life;
mod lines;
mod logged;
mod making;
mod numbers;
mod orders;
mod serving;
mod status;
mod work;

pub use asked::{BadValue, Deed, Invocation, Look, Making, asked_by};
pub use done::{done_over, make_tables};
pub use fault::Fault;
pub use files::{TextFiles, keys_in, secret_in};
pub use host::{Host, Service, desk_over};
pub use life::{
    closed_files_are_found, commands_are_runs, commands_run_over_files, files_live_on,
    left_files_are_found,
};
pub use lines::Message;
pub use logged::{Log, Logged};
pub use making::{Drawn, text_to_make};
pub use numbers::{account_number, connection_count, patience_number, port_number, request_number};
pub use orders::{carry_out, order_line};
pub use serving::{Arrival, Listener, Taken, moment_of, serve_connections};
pub use status::exit_status;
pub use work::{Task, Work, work_of};
