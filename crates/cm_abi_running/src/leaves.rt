//! Numbers that stand for leaves, from those in memory to those that are stored.

ghost use Rattle.std.specs.Prelude.{◌≡◌, ◌*◌, ◌-◌, ◌^◌, ◌<◌, ◌≤◌, nat_lt, neg_ℤ};
ghost use Rattle.std.specs.Prelude.{if◌then◌else◌, pos};
ghost use Rattle.cm_abi_model.specs.Numbers.{as_signed};
ghost use Rattle.cm_abi_model.specs.Stores.{from_signed};
ghost use Rattle.cm_abi_running.specs.Shown.{leaf_shown};
ghost use Rattle.cm_abi_load.specs.Sized.{IsNumberSize, IsSizedLeaf, core_size};
ghost use Rattle.cm_abi_store.specs.Storing.{number_in};

use cm_abi_load::labels_set;
use cm_layout::Leaf;

/// A number in two's complement of fewer bits in that of 64, where the least number with a sign is
/// at `half`.
#[tactic(auto, using(crate::proofs::LeafLemmas::extended))]
fn extended(number: u64, half: u64) -> u64
    requires half { half ≤ 2 ^ 63 }
    requires fits { number < 2 * half }
    ensures { result ≡ from_signed 8
        (if nat_lt number half then pos number else neg_ℤ (pos (2 * half - number))) }
{
    if number < half {
        number
    } else {
        (0x1_0000_0000_0000_0000 + u128::from(number) - 2 * u128::from(half)) as u64
    }
}

/// A number in two's complement of so many bytes in that of 64 bits.
fn signed_number(bytes: u32, number: u64) -> u64
    requires size { IsNumberSize bytes }
    requires fits { number < 2 ^ (8 * bytes) }
    ensures { result ≡ from_signed 8 (as_signed bytes number) }
{
    match bytes {
        1 => extended(number, 0x80),
        2 => extended(number, 0x8000),
        4 => extended(number, 0x8000_0000),
        _ => extended(number, 0x8000_0000_0000_0000),
    }
}

/// The number that a leaf is stored as, from the one that is read: a bool becomes 0 or 1, one with
/// a sign gets the two's complement of 64 bits, and bits beside the labels of flags are left out.
pub fn number_stored(leaf: Leaf, number: u64) -> u64
    requires sized { IsSizedLeaf leaf }
    requires fits { number < 2 ^ (8 * core_size leaf) }
    ensures { result ≡ number_in (leaf_shown leaf number) }
{
    match leaf {
        Leaf::Bool => u64::from(number != 0),
        Leaf::Signed(bytes) => signed_number(bytes, number),
        Leaf::Unsigned(_) | Leaf::Char => number,
        Leaf::Flags { labels, .. } => u64::from(labels_set(labels, number as u32)),
    }
}
