//! Tests of the check of records, through the public face of `acvp_check`: there is nothing here but tests.
#![tactic(auto)]

#[cfg(test)]
mod account;
