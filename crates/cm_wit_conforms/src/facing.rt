//! Two instances of one name.

ghost use Rattle.std.specs.Prelude.{◌≡◌, slice_get};
ghost use Rattle.std.specs.Option.{option_and_then, option_map};
ghost use Rattle.cm_types_arena.specs.Places.{funcs_of, types_of};
ghost use Rattle.cm_types_arena.specs.declared.types.Types.{Types};
ghost use Rattle.cm_types_arena.specs.Instances.{desc_of};
ghost use Rattle.cm_wit_conforms.specs.Comparisons.{facing, or_nothing, two_items};
ghost use Rattle.cm_wit_conforms.specs.Views.{brought_desc, comparison_of, entry_of, item_found};
ghost use Rattle.cm_wit_conforms.specs.Views.{item_stands, other, own};
ghost use Rattle.cm_wit_conforms.specs.Places.{item_names, place_in};

use crate::comparisons::{Comparison, PlacedComparison, facing_items};
use crate::fault::{ConformItem, ConformList};
use cm_types_arena::{ItemDesc, Items, Move};

/// The items of the import or export at a place of a list, and those of the one of its name.
#[derive(Clone, Copy)]
pub(crate) struct Facing<'a> {
    pub(crate) list: ConformList,
    pub(crate) place: usize,
    pub(crate) items: Items<'a>,
    pub(crate) others: Items<'a>,
}

ghost use Rattle.cm_wit_conforms.specs.Walks.{facing_entries};

/// What the item is that stands at a place, if one does.
fn item_found(others: Items<'_>, place: Option<usize>) -> Option<ItemDesc>
    ensures { (t : Types) → option_map (desc_of (types_of t) (funcs_of t)) result
        ≡ item_stands t others.entry place }
{
    let item = others.at(place?)?;
    Some(item.desc)
}

/// An item against the one that stands at a place, if one does.
fn compared_item(
    list: ConformList,
    item: ItemDesc,
    by: Option<Move>,
    others: Items<'_>,
    place: Option<usize>,
) -> Comparison
    ensures { (h w : Types) → comparison_of h w result ≡ or_nothing
        (option_map (facing two_items list (brought_desc (own list h w) by item))
        (item_found (other list h w) others.entry place)) }
{
    match item_found(others, place) {
        Some(found) => facing_items(list, item, by, found, others.by()),
        None => Comparison::Nothing,
    }
}

/// The item of a number, if there is one, against the other of its name, which stands at a place if
/// there is one.
pub(crate) fn compared_at(
    facing: Facing<'_>,
    number: usize,
    found: Option<usize>,
) -> Option<PlacedComparison>
    requires { (t u : Types) → found ≡ option_and_then
        (place_in (item_names u facing.others))
        (slice_get (item_names t facing.items) number) }
    ensures { (h w : Types) → option_map (entry_of h w) result
        ≡ slice_get (facing_entries h w facing.entry) number }
{
    let Facing {
        list,
        place,
        items,
        others,
    } = facing;
    let item = items.at(number)?;
    let what = compared_item(list, item.desc, items.by(), others, found);
    let item = ConformItem {
        list,
        place,
        item: Some(number),
    };
    Some(PlacedComparison { item, what })
}

impl<'a> Facing<'a> {
    ghost use Rattle.cm_wit_conforms.specs.Walks.{of_signature};

    /// Those of the two that are the signature's.
    pub(crate) fn of_signature(self) -> Items<'a>
        ensures { result ≡ of_signature self.entry.list self.entry.items self.entry.others }
    {
        match self.list {
            ConformList::WorldExports => self.others,
            ConformList::HaveImports => self.items,
        }
    }
}
