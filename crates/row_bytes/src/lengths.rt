//! The lengths of texts, in bytes.
ghost use Rattle.std.specs.Prelude.{◌≡◌, ◌≤◌, length, None};
ghost use Rattle.version_set.specs.Kind.{value_fault};
ghost use Rattle.version_set.specs.Version.{plain_text, version_text};
ghost use Rattle.row_bytes.specs.Rows.{row_text, FitsText};

use crate::row::Row;
use vclock::Format;
use version_set::{Version, VersionSet};

/// Returns the length in bytes of a version without its kind, in both formats: at most 65,861.
#[tactic(auto, using(crate::proofs::TextLengthLaws::text_lengths))]
fn plain_len(version: &Version) -> u64
    requires { length version.now.value ≤ 65536 }
    ensures exact { result ≡ length (plain_text version.now) }
    ensures short { result ≤ 65861 }
{
    let pairs_len = 10 * version.clock.pairs().len() as u64;
    1 + pairs_len + 4 + version.value.as_slice().len() as u64
}

/// Returns the length in bytes of the text of a version: at most 65,862.
#[tactic(auto, using(crate::proofs::LimitLaws::value_short))]
pub fn version_len(format: Format, version: &Version) -> u64
    requires { value_fault format version.now.kind version.now.value ≡ None }
    ensures exact { result ≡ length (version_text format version.now) }
    ensures short { result ≤ 65862 }
{
    match format {
        Format::One => plain_len(version),
        Format::Two => 1 + plain_len(version),
    }
}

/// Returns the length in bytes of the text of a row: at most 4,215,427. Takes time in proportion to the versions of the
/// row, and doesn't allocate.
pub fn row_len(format: Format, row: &Row) -> u64
    requires { FitsText format row.now }
    ensures exact { result ≡ length (row_text format row.now) }
    ensures short { result ≤ 4215427 }
{
    held_len(format, row.key.as_slice(), &row.versions)
}

/// Returns the length in bytes of the text of the row of a key with a set.
#[tactic(auto, using(crate::proofs::LimitLaws::key_short))]
pub(crate) fn held_len(format: Format, key: &[u8], set: &VersionSet) -> u64
    requires { FitsText format (record { key = key.now; versions = set.now }) }
    ensures exact { result ≡ length (row_text format (record { key = key.now; versions = set.now })) }
    ensures short { result ≤ 4215427 }
{
    let mut len = 2 + key.len() as u64 + 2;
    for version in set.as_slice() {
        len += version_len(format, version);
    }
    len
}
