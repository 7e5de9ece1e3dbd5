//! Bytes as texts of hexadecimal digits.
ghost use Rattle.std.specs.Prelude.{◌≡◌, ◌≤◌, ◌*◌, IfOk, length};
ghost use Rattle.hex.specs.Hex.{decode_of};
ghost use Rattle.outage_commands.specs.Reading.{right};

use hex::FromHexError;
use std::alloc::{AllocError, Global};
use vclock::Bytes;

/// The number of bytes up to which decoding allocates only the result.
const FEW_BYTES: usize = 64;

/// Decodes the bytes that a text spells in hexadecimal digits.
pub(crate) fn spelled(alloc: Global, text: &str) -> Result<Option<Bytes>, AllocError>
    ensures { IfOk result (λ o. o ≡ right (decode_of text.now)) }
{
    let len = text.len() / 2;
    if text.len() == 2 * len && len <= FEW_BYTES {
        return few_spelled(alloc, text, len);
    }
    match hex::decode(alloc, text) {
        Ok(bytes) => Ok(Some(copy_of(alloc, &bytes)?)),
        Err(FromHexError::OutOfMemory) => Err(AllocError),
        Err(_) => Ok(None),
    }
}

/// Decodes `len` bytes from a text with two digits a byte.
fn few_spelled(alloc: Global, text: &str, len: usize) -> Result<Option<Bytes>, AllocError>
    requires twice { length text.now ≡ 2 * len }
    requires few { len ≤ 64 }
    ensures { IfOk result (λ o. o ≡ right (decode_of text.now)) }
{
    let mut room = [0; FEW_BYTES];
    let bytes = &mut room[..len];
    match hex::decode_to_slice(text, bytes) {
        Ok(()) => Ok(Some(copy_of(alloc, bytes)?)),
        Err(_) => Ok(None),
    }
}

/// Copies the bytes of a slice.
fn copy_of(alloc: Global, bytes: &[u8]) -> Result<Bytes, AllocError>
    ensures { IfOk result (λ copy. copy ≡ bytes.now) }
{
    match Bytes::copy_of(alloc, bytes) {
        Ok(copy) => Ok(copy),
        Err(_) => Err(AllocError),
    }
}
