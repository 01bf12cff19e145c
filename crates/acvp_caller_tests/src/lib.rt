//! Tests of who a caller is and what it may do, through the public faces of `acvp_mac`, `acvp_token` and `acvp_policy`:
//! there is nothing here but tests.
#![tactic(auto)]

#[cfg(test)]
mod digests_and_codes;
#[cfg(test)]
mod key_rings;
#[cfg(test)]
mod lines;
#[cfg(test)]
mod policy;
#[cfg(test)]
mod tokens;
