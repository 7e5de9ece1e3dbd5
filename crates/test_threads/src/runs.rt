//! Runs of tests on nodes. A run opens a node, passes it to a test, closes its range, and passes the state to the test.
//! A test neither opens nor closes a range, and the passes of each range are compared with its journal.
//!
//! A test whose threads share a node has a function for that, since a trait's method can't send values of a type
//! parameter to a thread.
ghost use Rattle.std.specs.Prelude.{◌≡◌};

use crate::nodes::{Node, all_keys};
use range_state::{RangeConfig, RangeState};
use std::alloc::Global;
use std::marker::Brand;
use std::sync::Wait;
use std::sync::ledger::{Blank, Ledger};
use std::test::Fail;
use std::thread::Threads;

/// A test of a node.
pub trait NodeTest {
    /// Runs the test on a node that has accepted nothing.
    fn run<L: Ledger, C: Ledger, R: Threads + Wait + Sync>(
        &self,
        rt: &R,
        alloc: Global,
        node: &mut Node<L, C>,
    ) -> Result<(), Fail>;

    /// Checks the state of the node's range, once it is closed.
    fn check(&self, _alloc: Global, _state: &RangeState) -> Result<(), Fail> {
        Ok(())
    }
}

/// Runs a test on a node with these ledgers.
fn run_with<L: Ledger, C: Ledger, T: NodeTest, R: Threads + Wait + Sync>(
    rt: &R,
    alloc: Global,
    blank: Blank,
    slots: Blank,
    config: RangeConfig,
    test: &T,
) -> Result<(), Fail>
    requires range { (blank.name ≡ L.name) × (blank.parts ≡ L.parts) × (blank.parts ≡ 1) }
    requires slots { (slots.name ≡ C.name) × (slots.parts ≡ C.parts) × (slots.parts ≡ 1024) }
{
    let mut node = Node::<L, C>::open(alloc, blank, slots, 1, config)?;
    test.run(rt, alloc, &mut node)?;
    let state = node.close(alloc)?;
    test.check(alloc, &state)
}

/// Runs a test on a node of one seat, whose range has format 1, all keys, and a journal of this number of entries.
pub fn run_node<T: NodeTest, R: Threads + Wait + Sync>(
    rt: &R,
    alloc: Global,
    limit: u64,
    test: &T,
) -> Result<(), Fail> {
    let (blank, slots) = (Blank::new(1), Blank::new(1_024));
    let config = all_keys(limit)?;
    run_with::<Brand, Brand, T, R>(rt, alloc, blank, slots, config, test)
}
