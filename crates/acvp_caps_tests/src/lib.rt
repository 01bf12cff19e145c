//! Tests of names, domains and registrations, through the public face of `acvp_caps`: there is nothing here but tests.
#![tactic(auto)]

#[cfg(test)]
mod capabilities;
