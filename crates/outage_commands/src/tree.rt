//! Lines as trees of JSON values that borrow their text, and the reading of the values.
ghost use Rattle.std.specs.Prelude.{◌≡◌, ◌==◌, [], false, IfOk, is_some, map, option_map, option_and_then, slice_index};
ghost use Rattle.std.specs.List.{list_all, list_any};
ghost use Rattle.std.specs.Str.{bytes_eq};
ghost use Rattle.json.specs.Value.{value_view, items_view, members_view};
ghost use Rattle.serde_json.specs.Data.{no_members};
ghost use Rattle.serde_json.specs.Find.{get, as_array, as_null, as_object, as_str, as_u64};
ghost use Rattle.serde_json.specs.Read.{number_from};
ghost use Rattle.outage_commands.specs.Commands.{short_number_of};
ghost use Rattle.outage_commands.specs.Reading.{has_only, number_of, bytes_of, pair_of, list_of, payload_of, member_of, default_of, maybe_of, sole_member, value_of};
ghost use Rattle.outage_commands.specs.Trees.{is_whole, items_are_whole, members_are_whole, items_data, members_data, seen, whole_of};

use crate::digits::spelled;
use crate::items::Items;
use fast_float::Numeral;
use json::{Error, Reader, Scratch, Value};
use serde_json::Value as OwnedValue;
use std::alloc::{AllocError, Global};
use std::str::from_utf8;
use vclock::Bytes;
use version_set::Kind;

/// The maximum depth of nested arrays and objects, as in `serde_json`.
const MAX_DEPTH: usize = 127;

/// Reads the tree of a line, if it is the text of a JSON value.
#[tactic(auto, unfolding(crate::specs::Reading::value_of))]
pub(crate) fn tree_in<'a>(
    alloc: Global,
    line: &'a [u8],
    scratch: &'a mut Scratch,
) -> Result<Option<Value<'a>>, AllocError>
    ensures { IfOk result (λ o. option_map seen o ≡ value_of line.now) }
{
    let Ok(text) = from_utf8(line) else {
        return Ok(None);
    };
    let mut reader = Reader::new(text, scratch)?;
    let tree = match Value::read(alloc, &mut reader, MAX_DEPTH) {
        Ok(tree) => tree,
        Err(Error::OutOfMemory) => return Err(AllocError),
        Err(_) => return Ok(None),
    };
    if reader.next().is_some() {
        return Ok(None);
    }
    if is_whole(&tree) {
        return Ok(Some(tree));
    }
    match is_in_range(alloc, line)? {
        true => Ok(Some(tree)),
        false => Ok(None),
    }
}

/// Returns true if `serde_json` reads the line. It doesn't if a number is out of range.
fn is_in_range(alloc: Global, line: &[u8]) -> Result<bool, AllocError>
    ensures { IfOk result (λ yes. yes ≡ is_some (value_of line.now)) }
{
    match OwnedValue::from_slice(alloc, line) {
        Ok(_) => Ok(true),
        Err(e) if e.is_memory() => Err(AllocError),
        Err(_) => Ok(false),
    }
}

/// Returns true if all numbers in a value are whole, and below 2^64.
#[cycle(whole)]
fn is_whole(value: &Value<'_>) -> bool
    ensures { result ≡ is_whole (value_view value.now) }
{
    match value {
        Value::Number(text) => whole(text).is_some(),
        Value::Array(items) => items_are_whole(items),
        Value::Object(members) => members_are_whole(members),
        _ => true,
    }
}

/// Returns true if all numbers in the items are.
#[cycle(whole)]
fn items_are_whole(items: &Vec<Value<'_>>) -> bool
    ensures { result ≡ items_are_whole (items_view items.now.items) }
{
    for item in items {
        if !is_whole(item) {
            return false;
        }
    }
    true
}

/// Returns true if all numbers in the members' values are.
#[cycle(whole)]
fn members_are_whole(members: &Vec<(&str, Value<'_>)>) -> bool
    ensures { result ≡ members_are_whole (members_view members.now.items) }
{
    for member in members {
        if !is_whole(&member.1) {
            return false;
        }
    }
    true
}

/// Reads a text as a number, if it is whole, without sign, point or exponent, and below 2^64.
fn whole(text: &str) -> Option<u64>
    ensures { result ≡ whole_of text.now }
{
    let digits = text.as_bytes();
    if has_minus(digits) {
        return None;
    }
    without_sign(&Numeral::scan(digits))
}

/// Returns true if there is a minus before the digits.
fn has_minus(digits: &[u8]) -> bool
    ensures { result ≡ (slice_index digits.now 0 == 45) }
{
    !digits.is_empty() && digits[0] == b'-'
}

/// Returns the number of a numeral, if it is whole and below 2^64.
fn without_sign(numeral: &Numeral<'_>) -> Option<u64>
    ensures { result ≡ option_and_then as_u64 (number_from false numeral.now) }
{
    numeral.to_u64()
}

/// A type that can be read from a JSON value.
pub(crate) trait FromValue: Sized + Drop {
    ghost use Rattle.std.specs.Prelude.{Option};
    ghost use Rattle.serde_json.specs.Data.{Data};

    ghost reads: { Data → Option Self };

    /// Reads the value. `None` if it isn't of this type.
    fn from_value(alloc: Global, value: &Value<'_>) -> Result<Option<Self>, AllocError>
        ensures { IfOk result (λ o. o ≡ reads (seen value.now)) };
}

impl FromValue for u64 {
    ghost reads = { number_of };

    /// Reads a whole number, without sign, point or exponent.
    fn from_value(_alloc: Global, value: &Value<'_>) -> Result<Option<u64>, AllocError> {
        Ok(number_in(value))
    }
}

impl FromValue for Bytes {
    ghost reads = { bytes_of };

    /// Reads the bytes that a text spells in hexadecimal digits.
    fn from_value(alloc: Global, value: &Value<'_>) -> Result<Option<Bytes>, AllocError> {
        match text_in(value) {
            Some(text) => spelled(alloc, text),
            None => Ok(None),
        }
    }
}

impl FromValue for (Kind, Bytes) {
    ghost reads = { payload_of };

    /// Reads null as a tombstone, which has no bytes, and a text as the bytes of a live value.
    fn from_value(alloc: Global, value: &Value<'_>) -> Result<Option<(Kind, Bytes)>, AllocError> {
        if is_null(value) {
            return Ok(Some((Kind::Tombstone, Bytes::new())));
        }
        Ok(Bytes::from_value(alloc, value)?.map(|bytes| (Kind::Live, bytes)))
    }
}

impl FromValue for (u64, u64) {
    ghost reads = { pair_of };

    /// Reads a list of two numbers.
    fn from_value(_alloc: Global, value: &Value<'_>) -> Result<Option<(u64, u64)>, AllocError> {
        Ok(pair_in(value))
    }
}

impl<T: FromValue> FromValue for Items<T> {
    ghost reads = { list_of T.reads };

    /// Reads each item of a list.
    fn from_value(alloc: Global, value: &Value<'_>) -> Result<Option<Items<T>>, AllocError> {
        let Some(items) = items_in(value) else {
            return Ok(None);
        };
        let mut list = Vec::new(alloc);
        for item in items {
            let Some(read) = T::from_value(alloc, item)? else {
                return Ok(None);
            };
            list.push(read)?;
        }
        Ok(Some(Items::new(list)))
    }
}

/// Reads the two numbers of a list.
#[tactic(auto, using(crate::proofs::TreeLemmas::other_items))]
fn pair_in(value: &Value<'_>) -> Option<(u64, u64)>
    ensures { result ≡ pair_of (seen value.now) }
{
    let items = items_in(value)?;
    if items.len() != 2 {
        return None;
    }
    Some((number_in(&items[0])?, number_in(&items[1])?))
}

/// Returns a value's whole number.
#[tactic(auto, using(crate::proofs::TreeLemmas::a_number))]
fn number_in(value: &Value<'_>) -> Option<u64>
    ensures { result ≡ number_of (seen value.now) }
{
    whole(value.as_number()?)
}

/// Returns a value's text.
#[tactic(auto, using(crate::proofs::TreeLemmas::a_text))]
fn text_in<'a>(value: &Value<'a>) -> Option<&'a str>
    ensures { option_map (λ s. s.now) result ≡ as_str (seen value.now) }
{
    value.as_str()
}

/// Returns true if the value is null.
#[tactic(auto, using(crate::proofs::TreeLemmas::a_null))]
fn is_null(value: &Value<'_>) -> bool
    ensures { result ≡ is_some (as_null (seen value.now)) }
{
    value.is_null()
}

/// Returns a value's items, if it is a list.
fn items_in<'v, 'a>(value: &'v Value<'a>) -> Option<&'v Vec<Value<'a>>>
    ensures { option_map (λ items. items_data (items_view items.now.items)) result
        ≡ as_array (seen value.now) }
{
    match value {
        Value::Array(items) => Some(items),
        _ => None,
    }
}

/// Returns a value's members, if it is an object.
fn members_in<'v, 'a>(value: &'v Value<'a>) -> Option<&'v Vec<(&'a str, Value<'a>)>>
    ensures { option_map (λ members. members_data (members_view members.now.items) no_members) result
        ≡ as_object (seen value.now) }
{
    match value {
        Value::Object(members) => Some(members),
        _ => None,
    }
}

/// Returns true if the value is an object with no other members than these.
pub(crate) fn has_only(value: &Value<'_>, names: &[&str]) -> bool
    ensures { result ≡ has_only (map (λ n. n.now) names.now) (seen value.now) }
{
    match members_in(value) {
        Some(members) => are_among(names, members),
        None => false,
    }
}

/// Returns true if the name of each member is in a list.
fn are_among(names: &[&str], members: &[(&str, Value<'_>)]) -> bool
    ensures { result ≡ list_all (λ m. list_any (λ n. bytes_eq n.now m.0.now) names.now) members.now }
{
    members.iter().all(|m| is_among(names, m.0))
}

/// Returns true if a name is in a list.
fn is_among(names: &[&str], name: &str) -> bool
    ensures { result ≡ list_any (λ n. bytes_eq n.now name.now) names.now }
{
    names.iter().any(|n| *n == name)
}

/// Returns the value of the member of that name: the last one, if there are several.
#[tactic(auto, using(crate::proofs::TreeLemmas::found))]
fn member<'v, 'a>(value: &'v Value<'a>, name: &str) -> Option<&'v Value<'a>>
    ensures { option_map (λ v. seen v.now) result ≡ get name.now (seen value.now) }
{
    value.get(name)
}

/// Returns the name and the value of the one member of an object.
pub(crate) fn sole_member<'v, 'a>(value: &'v Value<'a>) -> Option<(&'a str, &'v Value<'a>)>
    ensures { option_map (λ m. (m.0.now, seen m.1.now)) result ≡ sole_member (seen value.now) }
{
    let members = members_in(value)?;
    if members.is_empty() {
        return None;
    }
    let name = members[0].0;
    if !has_only(value, &[name]) {
        return None;
    }
    Some((name, member(value, name)?))
}

/// Reads the member of that name as a whole number.
pub(crate) fn number_at(value: &Value<'_>, name: &str) -> Option<u64>
    ensures { result ≡ member_of number_of name.now (seen value.now) }
{
    number_in(member(value, name)?)
}

/// Reads the member of that name as a whole number below 2^32.
pub(crate) fn short_number_at(value: &Value<'_>, name: &str) -> Option<u32>
    ensures { result ≡ member_of short_number_of name.now (seen value.now) }
{
    u32::try_from(number_at(value, name)?).ok()
}

/// Reads the member of that name as a text.
pub(crate) fn text_at<'a>(value: &Value<'a>, name: &str) -> Option<&'a str>
    ensures { option_map (λ s. s.now) result ≡ member_of as_str name.now (seen value.now) }
{
    text_in(member(value, name)?)
}

/// Reads the member of that name as a whole number, or returns `absent` if it is missing.
pub(crate) fn number_or(value: &Value<'_>, name: &str, absent: u64) -> Option<u64>
    ensures { result ≡ default_of absent number_of name.now (seen value.now) }
{
    match member(value, name) {
        Some(inner) => number_in(inner),
        None => Some(absent),
    }
}

/// Reads the member of that name as a whole number, or returns `Some(None)` if it is missing.
pub(crate) fn maybe_number_at(value: &Value<'_>, name: &str) -> Option<Option<u64>>
    ensures { result ≡ maybe_of number_of name.now (seen value.now) }
{
    match member(value, name) {
        Some(inner) => Some(Some(number_in(inner)?)),
        None => Some(None),
    }
}

/// Reads the member of that name. `None` if its value isn't of the type.
pub(crate) fn member_at<T: FromValue>(
    alloc: Global,
    value: &Value<'_>,
    name: &str,
) -> Result<Option<T>, AllocError>
    ensures { IfOk result (λ o. o ≡ member_of T.reads name.now (seen value.now)) }
{
    match member(value, name) {
        Some(inner) => T::from_value(alloc, inner),
        None => Ok(None),
    }
}

/// Reads the items of the member of that name, or returns no item if it is missing.
pub(crate) fn items_or_none<T: FromValue>(
    alloc: Global,
    value: &Value<'_>,
    name: &str,
) -> Result<Option<Items<T>>, AllocError>
    ensures { IfOk result (λ o. o ≡ default_of [] (list_of T.reads) name.now (seen value.now)) }
{
    match member(value, name) {
        Some(inner) => Items::from_value(alloc, inner),
        None => Ok(Some(Items::new(Vec::new(alloc)))),
    }
}
