//! Tests through the public faces of `acvp_http`, `acvp_desk` and `acvp_store`: there is nothing here but tests.
#![tactic(auto)]

#[cfg(test)]
mod cached;
#[cfg(test)]
mod connections;
#[cfg(test)]
mod disks;
#[cfg(test)]
mod lives;
#[cfg(test)]
mod over_both_forms;
#[cfg(test)]
mod rows;
#[cfg(test)]
mod scripts;
#[cfg(test)]
mod servers;
#[cfg(test)]
mod stops;
#[cfg(test)]
mod streams;
#[cfg(test)]
mod texts;
#[cfg(test)]
mod validation;
