//! Writing all of some bytes; an error leaves a part of them written.
ghost use Rattle.std.specs.Prelude.{◌≡◌, List, ℕ, true};
ghost use Rattle.std.specs.Io.KnownBytes.{Appends};
ghost use Rattle.outage_script.specs.Ends.{Begins};

use std::io::Write;

/// Writes the bytes, and returns true if all of them are written. On error a part of them is written.
pub(crate) fn write_whole<W: Write>(writer: &mut W, bytes: &[u8]) -> bool
    ensures written { (some : List ℕ) × Appends (W.contents writer.old) (W.contents writer.new) some
        × Begins bytes.now some × (result ≡ true → some ≡ bytes.now) }
{
    let mut rest = bytes;
    while !rest.is_empty() {
        match writer.write(rest) {
            Ok(0) | Err(_) => return false,
            Ok(n) => rest = &rest[n..],
        }
    }
    true
}
