//! Reads of a replica's rows.
ghost use Rattle.std.specs.Prelude.{◌≡◌, None};
ghost use Rattle.std.specs.List.{AllByRecursion};
ghost use Rattle.vclock.specs.Answer.{Answers};
ghost use Rattle.vclock.specs.Bytes.{key_fault};
ghost use Rattle.version_set.specs.Kind.{value_fault};
ghost use Rattle.range_journal.specs.Journal.{held};
ghost use Rattle.c_calls.specs.Shows.{row_of, row_shown};

use range_state::RangeState;
use row_bytes::write_held;
use std::alloc::Global;
use tree_nodes::Text;
use vclock::{Format, Refusal, check_key};
use version_set::Held;

/// Writes the text of the row of a key: no bytes if no version is held. Copies neither the key nor the versions.
/// Refused, in order: BadKey, NoMemory.
pub fn row(alloc: Global, state: &RangeState, key: &[u8]) -> Result<Text, Refusal>
    ensures { Answers result (key_fault key.now) (λ bytes. bytes ≡ row_shown state.now key.now) }
{
    check_key(key)?;
    let store = state.store();
    held_row(alloc, store.config().format(), key, &store.find(key))
}

/// Writes the text of the row of a key with its versions: no bytes if it has no version. Refused: NoMemory.
pub(crate) fn held_row(
    alloc: Global,
    format: Format,
    key: &[u8],
    held: &Held<'_>,
) -> Result<Text, Refusal>
    requires key { key_fault key.now ≡ None }
    requires fit { AllByRecursion (λ v. value_fault format v.kind v.value ≡ None) held.now }
    ensures { Answers result None (λ bytes. bytes ≡ row_of format key.now held.now) }
{
    let Some(set) = held.set() else {
        return Ok(Text::from(Vec::new(alloc)));
    };
    if set.is_empty() {
        return Ok(Text::from(Vec::new(alloc)));
    }
    let text = write_held(alloc, format, key, set)?;
    Ok(Text::from(text))
}
