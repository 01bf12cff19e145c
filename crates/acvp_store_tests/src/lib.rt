//! Tests of the tables through the public face of `acvp_store` and the trait `Tables`, and databases of earlier schemas
//! for them and for tests elsewhere: there is nothing else here.
#![tactic(auto)]

#[cfg(test)]
mod cases;
#[cfg(test)]
mod changes;
#[cfg(test)]
mod databases;
pub mod earlier_schemas;
#[cfg(test)]
mod migrations;
#[cfg(test)]
mod over_both_forms;
#[cfg(test)]
mod ranges;
#[cfg(test)]
mod reads;
#[cfg(test)]
mod steps;
#[cfg(test)]
mod words;
