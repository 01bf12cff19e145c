//! Tests of bodies, objects and replies, through the public faces of `acvp_json` and `acvp_registry`: there is nothing
//! here but tests.
#![tactic(auto)]

#[cfg(test)]
mod account;
#[cfg(test)]
mod answers;
#[cfg(test)]
mod bodies;
#[cfg(test)]
mod lines;
#[cfg(test)]
mod registered;
#[cfg(test)]
mod registry;
#[cfg(test)]
mod replies;
#[cfg(test)]
mod shown;
