//! The places of keys that are not the first of their names.

ghost use Rattle.std.specs.Prelude.{◌≡◌, IfOk, OnErr, OnOk, is_some, not};
ghost use Rattle.std.specs.BTreeMap.{IsUnchanged, get};
ghost use Rattle.cm_wit_names.specs.Others.{NotesOther};
ghost use Rattle.cm_wit_names.specs.Pairs.{pair_cmp};

use std::alloc::AllocError;
use std::collections::BTreeMap;
use std::collections::btree_map::Entry;

/// Puts the place of a key, the index of its name and its number, unless one stands for it. Answers
/// whether none did.
pub(crate) fn put_new(
    others: &mut BTreeMap<(usize, usize), usize>,
    index: usize,
    number: usize,
    place: usize,
) -> Result<bool, AllocError>
    ensures noted { OnOk result (NotesOther (index, number) place others.old others.new) }
    ensures new { IfOk result (λ b. b ≡ not (is_some (get pair_cmp others.old (index, number)))) }
    ensures err { OnErr result (IsUnchanged others.old others.new) }
{
    match others.entry((index, number))? {
        Entry::Vacant(slot) => {
            slot.insert(place);
            Ok(true)
        }
        Entry::Occupied(_) => Ok(false),
    }
}
