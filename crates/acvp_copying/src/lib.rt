//! Copying a database whole, and giving the copy its name: what is done, in which order, whatever does it.
#![tactic(auto)]

mod backup;
mod copying;
mod naming;
mod replacing;

pub use backup::{Restoring, back_up, bring_back};
pub use copying::{Copying, Half, Seen, copy_whole};
pub use naming::{Making, Naming, name_new};
pub use replacing::{InPlace, Placing, Replacing, place_alone, replace_kept};
