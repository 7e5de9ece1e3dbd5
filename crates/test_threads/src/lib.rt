//! Tests of passes, of ranges behind a lock, and of the values that a node's threads share: offers, links, sync workers
//! and storms. Also of scripts whose devices fail; `tests/check` runs the worked scripts.
#![tactic(auto)]

#[cfg(test)]
mod answers;
#[cfg(test)]
mod barrier;
#[cfg(test)]
mod calls;
#[cfg(test)]
mod channels;
#[cfg(test)]
mod deliveries;
#[cfg(test)]
mod devices;
#[cfg(test)]
mod hints;
#[cfg(test)]
mod interruptions;
#[cfg(test)]
mod lies;
#[cfg(test)]
mod loads;
#[cfg(test)]
mod locked;
#[cfg(test)]
mod memory;
#[cfg(test)]
mod moments;
#[cfg(test)]
mod nodes;
#[cfg(test)]
mod outcomes;
#[cfg(test)]
mod partners;
#[cfg(test)]
mod passes;
#[cfg(test)]
mod pools;
#[cfg(test)]
mod ranges;
#[cfg(test)]
mod rehashes;
#[cfg(test)]
mod renewals;
#[cfg(test)]
mod runs;
#[cfg(test)]
mod scripts;
#[cfg(test)]
mod slots;
#[cfg(test)]
mod storms;
#[cfg(test)]
mod syncs;
