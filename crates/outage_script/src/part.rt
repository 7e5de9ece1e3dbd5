//! The members of an answer, and their text as JSON.
ghost use Rattle.std.specs.Prelude.{◌≡◌, ◌++◌, map, OnOk};
ghost use Rattle.outage_script.specs.Answers.{bytes_data, clock_data, list_data, object_of, pair_data, value_data, version_data};
ghost use Rattle.outage_script.specs.Parts.{part_data, tokens_of};

use json::Writer;
use std::alloc::{AllocError, Global};
use vclock::Clock;
use version_set::{Kind, Version};

/// The value of an answer's member.
#[derive(Clone, Copy)]
pub(crate) enum Part<'a> {
    /// Null.
    Null,
    /// True or false.
    Flag(bool),
    /// A whole number.
    Number(u64),
    /// A text.
    Text(&'a str),
    /// Bytes, as a text of hexadecimal digits.
    Bytes(&'a [u8]),
    /// The pairs of a clock.
    Clock(&'a Clock),
    /// A list of clocks.
    Clocks(&'a [Clock]),
    /// A list of versions.
    Versions(&'a [Version]),
}

/// Writes an object of these members, by ascending name.
pub(crate) fn write_object(
    alloc: Global,
    members: &[(&str, Part<'_>)],
    out: &mut Writer,
) -> Result<(), AllocError>
    ensures tokens { OnOk result (out.new.tokens ≡ out.old.tokens
        ++ tokens_of (object_of (map (λ m. (m.0.now, part_data m.1)) members.now))) }
    ensures before { out.new.before ≡ out.old.before }
{
    out.begin_object()?;
    for member in members {
        out.key(member.0)?;
        write_part(alloc, &member.1, out)?;
    }
    out.end_object()?;
    Ok(())
}

/// Writes the value of a member.
fn write_part(alloc: Global, part: &Part<'_>, out: &mut Writer) -> Result<(), AllocError>
    ensures tokens { OnOk result (out.new.tokens ≡ out.old.tokens ++ tokens_of (part_data part.now)) }
    ensures before { out.new.before ≡ out.old.before }
{
    match part {
        Part::Null => out.null()?,
        Part::Flag(flag) => out.boolean(*flag)?,
        Part::Number(number) => out.u64(*number)?,
        Part::Text(text) => out.string(text)?,
        Part::Bytes(bytes) => write_hex(alloc, bytes, out)?,
        Part::Clock(clock) => clock.write(alloc, out)?,
        Part::Clocks(clocks) => write_list(alloc, clocks, out)?,
        Part::Versions(versions) => write_list(alloc, versions, out)?,
    }
    Ok(())
}

/// Writes bytes as a text of hexadecimal digits.
fn write_hex(alloc: Global, bytes: &[u8], out: &mut Writer) -> Result<(), AllocError>
    ensures tokens { OnOk result (out.new.tokens ≡ out.old.tokens ++ tokens_of (bytes_data bytes.now)) }
    ensures before { out.new.before ≡ out.old.before }
{
    let text = hex::encode(alloc, bytes)?;
    out.string(text.as_str())?;
    Ok(())
}

/// A type with a JSON value.
trait ToJson {
    ghost use Rattle.serde_json.specs.Data.{Data};

    ghost shown: { Self → Data };

    /// Writes the value.
    fn write(&self, alloc: Global, out: &mut Writer) -> Result<(), AllocError>
        ensures tokens { OnOk result (out.new.tokens ≡ out.old.tokens ++ tokens_of (shown self.now)) }
        ensures before { out.new.before ≡ out.old.before };
}

impl ToJson for (u16, u64) {
    ghost shown = { pair_data };

    /// Writes a node and its counter.
    fn write(&self, _alloc: Global, out: &mut Writer) -> Result<(), AllocError> {
        out.begin_array()?;
        out.u64(u64::from(self.0))?;
        out.u64(self.1)?;
        out.end_array()?;
        Ok(())
    }
}

impl ToJson for Clock {
    ghost shown = { clock_data };

    /// Writes the pairs, by ascending node.
    fn write(&self, alloc: Global, out: &mut Writer) -> Result<(), AllocError> {
        write_list(alloc, self.pairs(), out)
    }
}

impl ToJson for Version {
    ghost shown = { version_data };

    /// Writes the clock, and the value, which is null for a tombstone.
    fn write(&self, alloc: Global, out: &mut Writer) -> Result<(), AllocError> {
        out.begin_object()?;
        out.key("clock")?;
        self.clock.write(alloc, out)?;
        out.key("value")?;
        write_value(alloc, self, out)?;
        out.end_object()?;
        Ok(())
    }
}

/// Writes the value of a version, which is null for a tombstone.
fn write_value(alloc: Global, version: &Version, out: &mut Writer) -> Result<(), AllocError>
    ensures tokens { OnOk result (out.new.tokens
        ≡ out.old.tokens ++ tokens_of (value_data version.now.kind version.now.value)) }
    ensures before { out.new.before ≡ out.old.before }
{
    match version.kind {
        Kind::Live => write_hex(alloc, version.value.as_slice(), out)?,
        Kind::Tombstone => out.null()?,
    }
    Ok(())
}

/// Writes the list of the values of these items.
fn write_list<T: ToJson>(alloc: Global, items: &[T], out: &mut Writer) -> Result<(), AllocError>
    ensures tokens { OnOk result (out.new.tokens ≡ out.old.tokens ++ tokens_of (list_data T.shown items.now)) }
    ensures before { out.new.before ≡ out.old.before }
{
    out.begin_array()?;
    for item in items {
        item.write(alloc, out)?;
    }
    out.end_array()?;
    Ok(())
}
