//! Tests of the libraries below a range: worked examples and vectors. Also the helpers that all tests use.
#![tactic(auto)]

pub mod calls;
pub mod checks;
#[cfg(test)]
mod clocks;
#[cfg(test)]
mod digests;
#[cfg(test)]
mod hints;
#[cfg(test)]
mod journals;
#[cfg(test)]
mod leaves;
#[cfg(test)]
mod limits;
#[cfg(test)]
mod messages;
#[cfg(test)]
mod places;
pub mod refusals;
#[cfg(test)]
mod rows;
#[cfg(test)]
mod sets;
#[cfg(test)]
mod slots;
#[cfg(test)]
mod tables;
pub mod versions;
