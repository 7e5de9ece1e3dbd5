//! Makes each library call that takes memory, and prints its result. `tests/check` refuses the growths of memory in
//! turn. Each call returns NoMemory, or its result with ample memory. The argument chooses the calls:
//!
//! - `core`: the calls that take no lock.
//! - `threads`: the calls of locked and shared ranges, and of the other values that threads share.
#![tactic(auto)]

mod core_calls;
mod lines;
mod sessions;
mod states;
mod thread_calls;

use std::env::Env;
use std::process::ExitCode;

/// The usage line.
const USAGE: &str = "usage: oom_calls core|threads";

/// The calls to make.
#[derive(Clone, Copy)]
enum Calls {
    Core,
    Threads,
}

fn main(rt: HostRuntime) -> ExitCode {
    let shown = match read_word(&rt) {
        Some(Calls::Core) => core_calls::show_all(&rt),
        Some(Calls::Threads) => thread_calls::show_all(&rt),
        None => {
            let _ = eprintln!(rt; "{USAGE}");
            return ExitCode::from(2);
        }
    };
    if shown.is_ok() {
        ExitCode::SUCCESS
    } else {
        ExitCode::FAILURE
    }
}

/// Returns the calls named by the argument. Takes no memory, so that each growth belongs to a call.
fn read_word(rt: &impl Env) -> Option<Calls> {
    let mut bytes = [0u8; 8];
    let length = rt.arg(1, &mut bytes).ok()?;
    let word = bytes.get(..length)?;
    if word == b"core".as_slice() {
        Some(Calls::Core)
    } else if word == b"threads".as_slice() {
        Some(Calls::Threads)
    } else {
        None
    }
}
