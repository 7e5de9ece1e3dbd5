//! The keys that are written, their values and their versions.
use std::alloc::Global;
use vclock::limits::KEY_LEN_MAX;
use vclock::{Bytes, Clock, Format, Refusal};
use version_set::{Kind, Version};

/// The odd factor that scrambles a number, and the step between the numbers that make up a value.
const SCRAMBLE: u64 = 0x9e37_79b9_7f4a_7c15;

/// The minimum length of a scrambled key, in bytes.
const SCRAMBLED_KEY_MIN: usize = 13;

/// The byte after the first 32 of a longer value.
const FILL: u8 = 7;

/// The shape of a range's entries.
#[derive(Clone, Copy)]
pub(crate) struct Shape {
    /// The format of the range.
    pub(crate) format: Format,
    /// The length of a key, in bytes. Below 13, keys have 13 bytes; if it is 0, they are `key-` and the number.
    key_bytes: usize,
    /// The length of a value, in bytes.
    value_bytes: usize,
}

/// The default shape: format 1, keys `key-N`, and values of 32 bytes.
pub(crate) const PLAIN: Shape = Shape {
    format: Format::One,
    key_bytes: 0,
    value_bytes: 32,
};

impl Shape {
    /// Returns the shape from these arguments, or `None` if they are invalid: the lengths of keys and of values, and
    /// the format, which may be omitted. Without arguments, the shape is the default.
    pub(crate) fn of_words(words: &[String]) -> Option<Shape> {
        match words {
            [] => Some(PLAIN),
            [key_bytes, value_bytes] => Shape::new(Format::One, key_bytes, value_bytes),
            [key_bytes, value_bytes, format] => {
                let format = Format::of_number(format.parse::<u64>().ok()?)?;
                Shape::new(format, key_bytes, value_bytes)
            }
            _ => None,
        }
    }

    /// Returns the shape of a format and two arguments, or `None` if a length is over the format's limit.
    fn new(format: Format, key_bytes: &str, value_bytes: &str) -> Option<Shape> {
        let key_bytes = key_bytes.parse::<usize>().ok()?;
        let value_bytes = value_bytes.parse::<usize>().ok()?;
        if key_bytes <= KEY_LEN_MAX && value_bytes <= format.value_limit() {
            Some(Shape {
                format,
                key_bytes,
                value_bytes,
            })
        } else {
            None
        }
    }

    /// Returns the key of a number. Scrambled keys are in no order. Refused: NoMemory.
    pub(crate) fn key(&self, alloc: Global, number: u64) -> Result<Vec<u8>, Refusal> {
        if self.key_bytes == 0 {
            return Ok(format!(in alloc; "key-{number}")?.into_bytes());
        }
        let scrambled = number.wrapping_mul(SCRAMBLE);
        let mut key = format!(in alloc; "user:{scrambled:016x}")?.into_bytes();
        key.resize(self.key_bytes.max(SCRAMBLED_KEY_MIN), b'z')?;
        Ok(key)
    }

    /// Returns the value of a number. Its first 32 bytes differ for each number. Refused: NoMemory.
    pub(crate) fn value(&self, alloc: Global, number: u64) -> Result<Bytes, Refusal> {
        let first = first_bytes(number);
        if let Some(short) = first.get(..self.value_bytes) {
            return Bytes::copy_of(alloc, short);
        }
        let mut value = Vec::with_capacity(alloc, self.value_bytes)?;
        value.extend_from_slice(&first)?;
        value.resize(self.value_bytes, FILL)?;
        Bytes::copy_of(alloc, value.as_slice())
    }

    /// Returns the version of a number's key: the first put at node 1. Refused: NoMemory.
    pub(crate) fn version(&self, alloc: Global, number: u64) -> Result<Version, Refusal> {
        Ok(Version {
            clock: Clock::from_pairs(alloc, &[(1, 1)])?,
            kind: Kind::Live,
            value: self.value(alloc, number)?,
        })
    }
}

/// Returns the first 32 bytes of the value of a number.
fn first_bytes(number: u64) -> [u8; 32] {
    let mut bytes = [0; 32];
    let mut state = number;
    for word in bytes.chunks_exact_mut(8) {
        state = state.wrapping_add(SCRAMBLE);
        word.copy_from_slice(&mixed(state).to_be_bytes());
    }
    bytes
}

/// Returns the state with its bits mixed.
fn mixed(state: u64) -> u64 {
    let half = (state ^ (state >> 30)).wrapping_mul(0xbf58_476d_1ce4_e5b9);
    half ^ (half >> 27)
}
