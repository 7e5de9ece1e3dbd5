//! The words of the command line.

use crate::fault::Fault;
use clap::{Arg, ArgAction, ArgMatches, Command, Error, value_parser};
use std::alloc::Global;
use std::env;
use std::env::Env;
use std::io::ErrorKind;
use storm::PUTS_MAX;

/// The description of the program.
const ABOUT: &str =
    "Brings the replicas of a Dynamo ring together again, in one process and in memory.

`run` reads a script from standard input. A script is JSON lines: each line is one command, and the
program answers each command with one line on standard output as soon as it has read it. The
commands act on a ring that is empty at the start of the script and is gone at its end.

`storm` makes two nodes write, rehash, and sync with each other, all at once in threads, and prints
whether they agree in the end.";

/// The commands, and an example of a script.
const SCRIPTS: &str = r#"Commands, each with its members; ? marks an optional one:
  ring     bits copies nodes limit? format?   makes a ring of nodes
  put      node key context value lose?       writes a value at a node
  get      node key                           reads the versions of a key
  row      node key                           shows the text of a key's row
  down     node                               takes a node down
  up       node                               brings a node up
  deliver  node                               offers a node's hints to their owners
  rehash   node range                         hashes the tree of a range
  node     node range depth index             shows the digest of a node of a tree
  sync     node from range                    fetches the versions of another replica
  slot     do n?                              lends a slot, takes it back, sets the target
  sample   at micros                          reports a latency

A script of two lines:
  {"put":{"node":1,"key":"61","context":[],"value":"78"}}
  {"get":{"node":1,"key":"61"}}

Its answers:
  {"clock":[[1,1]],"copied":0,"hinted":0,"number":0}
  {"versions":[{"clock":[[1,1]],"value":"78"}]}

With these lines in the file first.jsonl:
  antientropy run < first.jsonl

Keys and values are bytes in hexadecimal digits: 61 is the letter a. A clock is a list of pairs
[node,counter]. The context of a put is the clock of the versions that it replaces, as a get showed
it; the context of the first put is []. The answer to a refused command is the cause. A refused
command changes nothing, except a sync that stops halfway. A line that isn't a command ends the
script with BadLine. Blank lines are skipped. docs/SCRIPTS.md has each command with its answers and
refusals.

Exit status: 0 if each line was answered, 1 at a bad line, 2 for wrong words on the command line, 3
if a device failed or memory ran out."#;

/// The output of a storm.
const STORMS: &str =
    "Node 1 and node 2 are replicas of one range. Each has a writer, a rehash worker, a sync worker and
a server, each in a thread. When all have ended, both nodes are rehashed, synced both ways, rehashed
and closed. The storm prints one line:
  puts 200, roots equal, settled

The number is that of all puts. It prints `roots differ` if the trees aren't equal in the end, and
`unsettled` if a caller's receipts and reads don't match the journals.

Exit status: 0 if the roots are equal and all is settled, 1 if not or if a call was refused, 2 for
wrong words on the command line, 3 if a device failed or memory ran out.";

/// The number of puts of a writer by default.
const PUTS: u64 = 100;

/// The task of the words.
#[derive(Clone, Copy, Debug, PartialEq, Eq)]
pub(crate) enum Task {
    /// `run`: run a script.
    Run,
    /// `storm`: run a storm with this number of puts at each node.
    Storm {
        /// The number of puts, 1 to 10,000.
        puts: u64,
        /// True if the progress is printed.
        progress: bool,
    },
}

/// Returns the words of the command line, the program's name first. `None` if a word isn't a text.
pub(crate) fn words_of<R: Env + AllocGlobal>(rt: &R) -> Result<Option<Vec<String>>, Fault> {
    match env::args(rt) {
        Ok(words) => match words.collect(rt.alloc()) {
            Ok(words) => Ok(Some(words)),
            Err(_) => Err(Fault::NoMemory),
        },
        Err(error) if error.kind() == ErrorKind::OutOfMemory => Err(Fault::NoMemory),
        Err(_) => Ok(None),
    }
}

/// Reads the task of the words. An error means a request for help or the version, a mistake, or that memory ran out.
pub(crate) fn task_in(alloc: Global, words: &[String]) -> Result<Task, Error> {
    let run = Command::new(alloc, "run")
        .about("Runs a script from standard input, and writes the answers to standard output")
        .after_long_help(SCRIPTS);
    let command = Command::new(alloc, "antientropy")
        .version("0.1.0")
        .about("Brings the replicas of a Dynamo ring together again, in one process and in memory.")
        .long_about(ABOUT)
        .after_help("`--help` shows the commands of a script.")
        .after_long_help(SCRIPTS)
        .subcommand_required(true)
        .subcommand(run)?
        .subcommand(storm_command(alloc)?)?;
    let matches = command.try_get_matches_from(words)?;
    match matches.subcommand() {
        Some(("storm", storm)) => Ok(storm_in(storm)),
        _ => Ok(Task::Run),
    }
}

/// Makes the parser of a storm's words.
fn storm_command<'a>(alloc: Global) -> Result<Command<'a>, Error> {
    let puts = Arg::new(alloc, "puts")
        .long("puts")
        .value_name("N")
        .help("The number of puts of each writer, 1 to 10000")
        .default_value("100")
        .value_parser(value_parser!(u64).range(1..=PUTS_MAX as i64));
    let progress = Arg::new(alloc, "progress")
        .long("progress")
        .help("Prints the progress on standard error")
        .action(ArgAction::SetTrue);
    let storm = Command::new(alloc, "storm")
        .about("Runs a storm, and prints its end")
        .after_help(STORMS)
        .arg(puts)?
        .arg(progress)?;
    Ok(storm)
}

/// Reads the storm of the words.
fn storm_in(matches: &ArgMatches<'_>) -> Task {
    Task::Storm {
        puts: matches.get_one::<u64>("puts").unwrap_or(PUTS),
        progress: matches.get_flag("progress"),
    }
}
