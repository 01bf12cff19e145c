//! The order of steps in which a command opens the database of a name, does its work over it, and gives it up; or has
//! its order carried out by the server that has the database. All this whatever opens databases.
#![tactic(auto)]

mod answers;
mod command;
mod databases;
mod working;

pub use answers::Answer;
pub use command::{Said, done_at};
pub use databases::{Databases, Preparing, Unopened};
pub use working::worked;
