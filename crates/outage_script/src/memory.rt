//! A script over memory, and the law of its lines.
ghost use Rattle.std.specs.Prelude.{◌≡◌, ◌++◌, ◌∷◌, ℕ, List, IsTrue};
ghost use Rattle.std.specs.List.{list_all};
ghost use Rattle.outage_script.specs.Ends.{IsAnswer};
ghost use Rattle.outage_script.specs.Lines.{lines_of, is_inside};

use crate::{ScriptEnd, run_script};
use std::alloc::Global;
use std::thread::Threads;

/// Runs the script of these bytes, and returns its end and the bytes that it wrote. Everything else that the run held
/// is freed.
#[tactic(auto, using(crate::proofs::RunLemmas::runs_memory))]
pub fn run_bytes(rt: &(impl Threads + Sync), alloc: Global, input: &[u8]) -> (ScriptEnd, Vec<u8>)
    ensures { IsAnswer result.0 input.now result.1.items }
{
    let mut reader = input;
    let mut out = Vec::new(alloc);
    let end = run_script(rt, alloc, &mut reader, &mut out);
    (end, out)
}

/// The law of a text's lines, in its contract: nothing is run.
#[tactic(auto, using(crate::proofs::LineLemmas::whole_line))]
pub fn line_law()
    ensures a_line_feed_ends_a_line { (line : List ℕ) → (rest : List ℕ)
        → IsTrue (list_all is_inside line) → lines_of (line ++ 10 ∷ rest) ≡ line ∷ lines_of rest }
{}
