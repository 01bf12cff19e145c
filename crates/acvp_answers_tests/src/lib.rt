//! Tests of prompts and of the standard's answers, through the public faces of `acvp_gen` and `acvp_answers`: there is
//! nothing here but tests.
#![tactic(auto)]

#[cfg(test)]
mod answers;
#[cfg(test)]
mod prompts;
#[cfg(test)]
mod texts;
