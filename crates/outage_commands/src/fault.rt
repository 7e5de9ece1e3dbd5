//! The reason why a line isn't a command, for its author.
ghost use Rattle.std.specs.Prelude.{◌≡◌, IfOk, is_some, option_map};
ghost use Rattle.outage_commands.specs.Faults.{IsFaultOf, IsOfMembers, IsOfName, is_command};
ghost use Rattle.outage_commands.specs.Reading.{sole_member};
ghost use Rattle.serde_json.specs.View.{view};

use crate::member::wrong_member;
use serde_json::Value;
use std::alloc::{AllocError, Global};
use strsim::levenshtein;

/// The number of characters of an unknown name that a message shows.
const SHOWN: usize = 40;

/// The names of the commands.
const NAMES: [&str; 12] = [
    "ring", "put", "get", "row", "down", "up", "deliver", "rehash", "sync", "node", "slot",
    "sample",
];

/// The reason why a line isn't a command.
#[derive(Debug, Drop, thiserror::Error)]
pub enum LineFault {
    /// It has more than 1,048,576 bytes.
    #[error("it is longer than 1048576 bytes")]
    TooLong,
    /// It isn't a JSON text.
    #[error("{problem} at column {column}")]
    NoJson {
        /// The problem.
        problem: &'static str,
        /// The column, in bytes from 1.
        column: usize,
    },
    /// It isn't an object with one member.
    #[error("it isn't an object with one member, the name of a command")]
    NoName,
    /// No command has the name of its member, and none has a similar one.
    #[error("unknown command {0:?}")]
    Unknown(String),
    /// No command has the name of its member.
    #[error("unknown command {name:?}; the nearest is {nearest:?}")]
    Misspelled {
        /// The name, cut after 40 characters.
        name: String,
        /// The name of a command that takes the fewest edits: at most half the number of the name's characters.
        nearest: &'static str,
    },
    /// A member of the command is missing, unknown or of another kind.
    #[error("{wants}; {wrong}")]
    Member {
        /// The members that the command wants.
        wants: &'static str,
        /// The first member that is wrong, and why.
        wrong: String,
    },
    /// The command has a value that the ring in force doesn't have, or that no such command has.
    #[error("{0}")]
    Members(&'static str),
}

/// Returns the reason why a line of at most 1,048,576 bytes isn't a command of the ring in force. On error memory ran
/// out.
#[tactic(auto, unfolding(crate::specs::Reading::value_of))]
pub fn fault_of(alloc: Global, line: &[u8]) -> Result<LineFault, AllocError>
    ensures { IfOk result (λ fault. IsFaultOf fault line.now) }
{
    let value = match Value::from_slice(alloc, line) {
        Ok(value) => value,
        Err(e) if e.is_memory() => return Err(AllocError),
        Err(e) => {
            let problem = if e.is_eof() {
                "JSON that ends early"
            } else {
                "invalid JSON"
            };
            let column = e.column();
            return Ok(LineFault::NoJson { problem, column });
        }
    };
    let Some((name, members)) = sole_member(&value) else {
        return Ok(LineFault::NoName);
    };
    match members_of(name) {
        Some(wants) => member_fault(alloc, name, members, wants),
        None => name_fault(alloc, name),
    }
}

/// Returns the fault of a command with wrong members.
fn member_fault(
    alloc: Global,
    name: &str,
    members: &Value,
    wants: &'static str,
) -> Result<LineFault, AllocError>
    ensures { IfOk result IsOfMembers }
{
    match wrong_member(alloc, name, members)? {
        Some(wrong) => Ok(LineFault::Member { wants, wrong }),
        None => Ok(LineFault::Members(wants)),
    }
}

/// Returns the fault of a name that no command has.
fn name_fault(alloc: Global, name: &str) -> Result<LineFault, AllocError>
    ensures { IfOk result IsOfName }
{
    let name = beginning_of(alloc, name)?;
    match nearest_to(alloc, name.as_str())? {
        Some(nearest) => Ok(LineFault::Misspelled { name, nearest }),
        None => Ok(LineFault::Unknown(name)),
    }
}

/// Returns the name and the value of the one member of an object.
#[tactic(auto, using(crate::proofs::ReadLemmas::one_member, crate::proofs::ReadLemmas::other_members))]
fn sole_member(value: &Value) -> Option<(&str, &Value)>
    ensures { option_map (λ m. (m.0.now, view m.1.now)) result ≡ sole_member (view value.now) }
{
    let map = value.as_object()?;
    if map.len() != 1 {
        return None;
    }
    let (name, inner) = map.first_key_value()?;
    Some((name.as_str(), inner))
}

/// Returns the members that the command of a name wants. `None` if no command has the name.
fn members_of(name: &str) -> Option<&'static str>
    ensures { is_some result ≡ is_command name.now }
{
    match name {
        "ring" => Some(
            r#""ring" wants {"bits":N,"copies":N,"nodes":[N,..]}, with or without "limit":N and "format":N"#,
        ),
        "put" => Some(
            r#""put" wants {"node":N,"key":HEX,"context":[[N,N],..],"value":HEX}, with or without "lose":[N,..]; in format 2 the value may be null"#,
        ),
        "get" => Some(r#""get" wants {"node":N,"key":HEX}"#),
        "row" => Some(r#""row" wants {"node":N,"key":HEX}"#),
        "down" => Some(r#""down" wants {"node":N}"#),
        "up" => Some(r#""up" wants {"node":N}"#),
        "deliver" => Some(r#""deliver" wants {"node":N}"#),
        "rehash" => Some(r#""rehash" wants {"node":N,"range":N}"#),
        "sync" => Some(r#""sync" wants {"node":N,"from":N,"range":N}"#),
        "node" => Some(
            r#""node" wants {"node":N,"range":N,"depth":N,"index":N}, of a node that the ring's trees have"#,
        ),
        "slot" => Some(
            r#""slot" wants {"do":"lend"}, {"do":"back"}, {"do":"adjust","n":N}, or {"do":"target","n":N} with N from 1 to 8"#,
        ),
        "sample" => Some(r#""sample" wants {"at":N,"micros":N}, with micros below 4294967296"#),
        _ => None,
    }
}

/// Returns the first characters of a name.
pub(crate) fn beginning_of(alloc: Global, name: &str) -> Result<String, AllocError> {
    name.chars().take(SHOWN).collect(alloc)
}

/// Returns the name of a command that takes the fewest edits. `None` if they are more than half of its characters.
fn nearest_to(alloc: Global, name: &str) -> Result<Option<&'static str>, AllocError> {
    let mut nearest = 0;
    let mut fewest = usize::MAX;
    for place in 0..NAMES.len() {
        let edits = levenshtein(alloc, name, NAMES[place])?;
        if edits < fewest {
            fewest = edits;
            nearest = place;
        }
    }
    Ok((fewest <= name.chars().count() / 2).then_some(NAMES[nearest]))
}
