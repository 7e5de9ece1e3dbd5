//! Tests of the calls of ranges: worked examples and vectors.
#![tactic(auto)]

#[cfg(test)]
mod calls;
#[cfg(test)]
mod catch_ups;
#[cfg(test)]
mod events;
#[cfg(test)]
mod exchanges;
#[cfg(test)]
mod loads;
#[cfg(test)]
mod migrations;
#[cfg(test)]
mod moments;
#[cfg(test)]
mod patches;
#[cfg(test)]
mod range_sessions;
#[cfg(test)]
mod range_trees;
#[cfg(test)]
mod ranges;
#[cfg(test)]
mod reconciliations;
#[cfg(test)]
mod renewals;
#[cfg(test)]
mod sessions;
#[cfg(test)]
mod snapshots;
#[cfg(test)]
mod stores;
#[cfg(test)]
mod trees;
