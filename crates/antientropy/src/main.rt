//! The command line of the replica synchronisation service.
#![tactic(auto)]

mod fault;
mod progress;
mod status;
mod words;

use clap::Error;
use clap::error::ErrorKind;
use fault::Fault;
use outage_script::{LineFault, ScriptEnd, run_last_script};
use progress::Teller;
use ring_node::OpenGate;
use status::{code_of, code_of_refusal, code_of_storm, fault_code, usage_code};
use std::env::Env;
use std::io;
use std::io::BufWriter;
use std::process::ExitCode;
use std::sync::Wait;
use std::thread::Threads;
use storm::{PUTS_MAX, StormEnd, Tallies, run_storm};
use vclock::Refusal;
use words::{Task, task_in, words_of};

fn main(rt: HostRuntime) -> ExitCode {
    match obey(&rt) {
        Ok(code) => code,
        Err(fault) => {
            let _ = eprintln!(rt; "antientropy: {fault}");
            fault_code()
        }
    }
}

/// Does the task of the command line's words.
fn obey<R: Env + Input + Print + Eprint + AllocGlobal + Threads + Wait + Sync>(
    rt: &R,
) -> Result<ExitCode, Fault> {
    let Some(words) = words_of(rt)? else {
        let _ = eprintln!(rt; "antientropy: the words are no text");
        return Ok(usage_code());
    };
    match task_in(rt.alloc(), words.as_slice()) {
        Ok(Task::Run) => run(rt),
        Ok(Task::Storm { puts, progress }) => storm(rt, puts, progress),
        Err(refusal) => {
            let code = show(rt, &refusal)?;
            if refusal.kind() == ErrorKind::UnknownArgument && is_run(words.as_slice()) {
                let _ = eprintln!(rt;
                    "  tip: a script comes from standard input: antientropy run < FILE"
                );
            }
            Ok(code)
        }
    }
}

/// Returns true if the first word after the program's name is `run`.
fn is_run(words: &[String]) -> bool {
    words.len() > 1 && words[1].as_str() == "run"
}

/// Runs the script of standard input.
fn run<R: Input + Print + Eprint + AllocGlobal + Threads + Sync>(
    rt: &R,
) -> Result<ExitCode, Fault> {
    let alloc = rt.alloc();
    let mut reader = rt.reader();
    let mut writer = BufWriter::new(alloc, io::writer(rt)).map_err(|_| Fault::NoMemory)?;
    let (end, fault) = run_last_script(rt, alloc, &mut reader, &mut writer);
    if let ScriptEnd::BadLine(number) = end {
        explain(rt, number, fault.as_ref());
    }
    code_of(end)
}

/// Explains on standard error why a line ended the script.
fn explain<R: Eprint>(rt: &R, number: u64, fault: Option<&LineFault>) {
    let _ = match fault {
        Some(fault) => eprintln!(rt; "antientropy: line {number}: {fault}"),
        None => eprintln!(rt; "antientropy: line {number} is no command"),
    };
}

/// Runs a storm, and prints its end.
fn storm<R: Print + Eprint + AllocGlobal + Threads + Wait + Sync>(
    rt: &R,
    puts: u64,
    progress: bool,
) -> Result<ExitCode, Fault> {
    let tallies = Tallies::new();
    let end = if progress {
        let teller = Teller::new(rt, &tallies, puts);
        let end = run_storm(rt, rt.alloc(), puts.min(PUTS_MAX), &teller, &tallies);
        teller.tell_end(rt);
        end
    } else {
        run_storm(rt, rt.alloc(), puts.min(PUTS_MAX), &OpenGate, &tallies)
    };
    match &end {
        Ok(end) => print_end(rt, end)?,
        Err(Refusal::NoMemory) => {}
        Err(refusal) => {
            let _ = eprintln!(rt; "antientropy: the storm was refused: {}", refusal.name());
        }
    }
    code_of_storm(&end)
}

/// Prints the end of a storm.
fn print_end<R: Print>(rt: &R, end: &StormEnd) -> Result<(), Fault> {
    let roots = if end.equal { "equal" } else { "differ" };
    let settled = if end.settled { "settled" } else { "unsettled" };
    println!(rt; "puts {}, roots {roots}, {settled}", end.puts).map_err(|_| Fault::Device)
}

/// Shows the help or the version, or the mistake in the words.
fn show<R: Print + Eprint>(rt: &R, refusal: &Error) -> Result<ExitCode, Fault> {
    let code = code_of_refusal(refusal)?;
    match refusal.print(rt) {
        Err(_) if !refusal.use_stderr() => Err(Fault::Device),
        _ => Ok(code),
    }
}
