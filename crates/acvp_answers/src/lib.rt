//! Answers to the tests of a vector set, and their comparison with the standard's.
#![tactic(auto)]

mod answering;
mod answers;
mod grading;
mod iter;
mod monte_carlo;
mod texts;
mod verdict;
mod verdict_text;

pub use answering::standard;
pub use answers::Answers;
pub use grading::{disposition, grade};
pub use iter::Iter;
pub use monte_carlo::checkpoint_is_the_standards;
pub use texts::{checkpoint_texts, digest_texts, mac_texts, monte_carlo_texts};
pub use verdict::{Disposition, Verdict};
pub use verdict_text::{
    TextFault, verdict_texts_read_one_way, verdicts_from_text, verdicts_to_text,
};
