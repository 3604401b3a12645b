//! Where a text is looked for first.

ghost use Rattle.std.specs.Prelude.{◌≡◌, ◌≤◌, ◌^◌};
ghost use Rattle.cm_names.specs.Hash.{hash_of, home_of, next_hash};

use crate::finding::WINDOW;

const FACTOR: u64 = 0x9E37_79B9_7F4A_7C15;

/// The hash after one more byte.
fn next_hash(hash: u64, byte: u8) -> u64
    ensures { result ≡ next_hash hash byte }
{
    hash.wrapping_add(u64::from(byte)).wrapping_mul(FACTOR)
}

fn hash(text: &str) -> u64
    ensures { result ≡ hash_of text.now }
{
    let mut hash = 0;
    for byte in text.as_bytes() {
        hash = next_hash(hash, *byte);
    }
    hash
}

/// The index at which a text is looked for first, among so many marks.
pub(crate) fn home(text: &str, marks: usize) -> usize
    ensures home { result ≡ home_of text.now marks }
    ensures small { result ≤ 2 ^ 32 }
{
    let span = marks.saturating_sub(WINDOW).max(1);
    (hash(text) >> 32) as usize % span
}
