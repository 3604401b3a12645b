//! Values that are one number.

ghost use Rattle.std.specs.Prelude.{◌≡◌, ◌*◌, ◌%◌, ◌^◌, ◌<◌, IfErr};
ghost use Rattle.cm_layout.specs.Laid.{leaf_size};
ghost use Rattle.cm_types.specs.ValueTrees.{value_of};
ghost use Rattle.cm_abi_load.specs.Outcomes.{Reads, State};
ghost use Rattle.cm_abi_load.specs.Leaves.{leaf_value};
ghost use Rattle.cm_abi_load.specs.declared.stop.Stop.TheVariants.{Fault};
ghost use Rattle.cm_abi_load.specs.Sizes.{IsNumberSize, IsSizedLeaf, core_size};

use crate::numbers::signed;
use crate::stop::Stop;
use cm_abi_model::AbiFault;
use cm_layout::Leaf;
use cm_types::Value;

/// How many bytes a leaf takes.
pub fn leaf_size(leaf: Leaf) -> u32
    requires { IsSizedLeaf leaf }
    ensures size { result ≡ leaf_size leaf }
    ensures is { IsNumberSize result }
{
    match leaf {
        Leaf::Bool => 1,
        Leaf::Char => 4,
        Leaf::Signed(bytes) | Leaf::Unsigned(bytes) => bytes,
        Leaf::Flags { bytes, .. } => bytes,
    }
}

/// How many bytes of a core value a leaf is read from; what is above them is left out.
pub fn core_size(leaf: Leaf) -> u32
    requires { IsSizedLeaf leaf }
    ensures size { result ≡ core_size leaf }
    ensures is { IsNumberSize result }
{
    match leaf {
        Leaf::Bool | Leaf::Char | Leaf::Flags { .. } => 4,
        Leaf::Signed(bytes) | Leaf::Unsigned(bytes) => bytes,
    }
}

/// The labels that are set in a number, of so many labels; the bits above them are left out
/// (CanonicalABI.md, "Loading" of flags).
#[tactic(auto, using(crate::proofs::LeafLemmas::flags))]
pub fn labels_set(labels: usize, number: u32) -> u32
    ensures { result ≡ number % 2 ^ labels }
{
    if labels >= 32 {
        number
    } else {
        number % (1 << labels)
    }
}

/// The char of a number, where it is one.
fn char_value(number: u32) -> Result<Value, Stop>
    ensures reads { (s : State) → Reads value_of result s (leaf_value Leaf.Char number s) }
    ensures fault { IfErr result (λ e. e ≡ Fault AbiFault.BadChar) }
{
    match char::from_u32(number) {
        Some(scalar) => Ok(Value::Char(scalar)),
        None => Err(Stop::Fault(AbiFault::BadChar)),
    }
}

/// The value of a leaf from its number, which may have as many bytes as are read of a core value.
///
/// It stops with `BadChar` at a number that is no Unicode scalar, for a char; it takes no memory.
pub fn leaf_value(leaf: Leaf, number: u64) -> Result<Value, Stop>
    requires sized { IsSizedLeaf leaf }
    requires fits { number < 2 ^ (8 * core_size leaf) }
    ensures reads { (s : State) → Reads value_of result s (leaf_value leaf number s) }
    ensures fault { IfErr result (λ e. e ≡ Fault AbiFault.BadChar) }
{
    match leaf {
        Leaf::Bool => Ok(Value::Bool(number != 0)),
        Leaf::Signed(bytes) => Ok(Value::Signed(signed(bytes, number))),
        Leaf::Unsigned(_) => Ok(Value::Unsigned(number)),
        Leaf::Char => char_value(number as u32),
        Leaf::Flags { labels, .. } => Ok(Value::Flags(labels_set(labels, number as u32))),
    }
}
