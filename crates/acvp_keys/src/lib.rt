//! Keys files and secret files: their texts, as they are read, made and changed.
#![tactic(auto)]

mod changing;
mod reading;
mod writing;

pub use changing::{Change, changed, keys_text};
pub use reading::{bytes_of, read_keys};
pub use writing::line_text;
