//! Why a command of the program failed, as far as it can be seen at its files afterwards.
#![tactic(auto)]

mod begins;
mod cause;
mod holders;
mod marks;
mod names;
mod owners;
mod pages;
mod places;
mod texts;

pub use begins::{is_database, is_foreign};
pub use cause::{Because, Cause, Place};
pub use marks::{Mark, is_whole, mark_of};
pub use names::{MOMENT_DIGITS, cause_of_path, is_companion, is_copy, name_of, why_unnamed};
pub use owners::{OF_OTHERS, cause_of_maker, own_text, text_at};
pub use places::{
    EMPTY_LOG, are_there, cause_of_database, cause_of_error, cause_of_files, cause_of_folder,
    cause_of_source, folder_of, has_journal, has_log, has_sums, holds_any, is_held_by_any,
    is_left_alone, is_moved, last_of, why_refused,
};
pub use texts::{TextFault, keys_fault, secret_fault};
