//! What is wanted, held against what is offered.

ghost use Rattle.std.specs.Prelude.{◌≡◌, option_and_then, slice_get};
ghost use Rattle.std.specs.Option.{option_map};
ghost use Rattle.cm_types_arena.specs.Instances.{desc_of, numbered};
ghost use Rattle.cm_types_arena.specs.Placed.{moved_by, placed_func};
ghost use Rattle.cm_types_arena.specs.Places.{funcs_of, types_of};
ghost use Rattle.cm_types_arena.specs.declared.types.Types.{Types};
ghost use Rattle.cm_types.specs.Signatures.{equal_resource, equal_type, fresh_resource};
ghost use Rattle.cm_types.specs.Signatures.{func_item};
ghost use Rattle.cm_types_numbers.specs.Moved.{brought_func, brought_type};
ghost use Rattle.cm_wit_conforms.specs.Places.{item_names, place_in};
ghost use Rattle.cm_hux_diff.specs.Breaking.{break_of, reason_of};
ghost use Rattle.cm_hux_diff.specs.Held.{desc_held, funcs, two_items};
ghost use Rattle.cm_hux_diff.specs.Views.{brought_desc, entry_view, held_view, instance_entries};
ghost use Rattle.cm_hux_diff.specs.Views.{item_brought, item_stands};

use crate::breaking::{Break, BreakReason};
use cm_types::ResourceId;
use cm_types_arena::laws::replacing;
use cm_types_arena::{ItemDesc, Items, Move, Placed, moved_resource};
use cm_types_numbers::Brought;

/// What is held against what: what is wanted stands first, then what is offered.
#[derive(Clone, Copy)]
pub(crate) enum Held {
    Nothing,
    Several,
    /// A function against an instance, or against a type.
    Sorts,
    Funcs(Brought, Brought),
    Types(Brought, Brought),
    Resources(ResourceId, ResourceId),
}

/// The same, and where: the place of the import or export that is wanted, and of an item of it.
#[derive(Clone, Copy)]
pub(crate) struct Entry {
    pub(crate) place: usize,
    pub(crate) item: Option<usize>,
    pub(crate) held: Held,
}

/// The resource of this number, as an import or export counts it.
fn resource(by: Option<Move>, number: u64) -> ResourceId
    ensures { result ≡ moved_by by (numbered number) }
{
    moved_resource(
        by,
        ResourceId {
            component: 0,
            number,
        },
    )
}

/// A function that is wanted, against an item.
fn func_against(wanted: Brought, offered: ItemDesc, by: Option<Move>) -> Held
    ensures { (w o : Types) → held_view w o result
        ≡ two_items (func_item (brought_func w wanted)) (brought_desc o by offered) }
{
    replacing();
    match offered {
        ItemDesc::Func(ty) => Held::Funcs(wanted, Brought { ty, by }),
        ItemDesc::EqualType(_) => Held::Sorts,
        ItemDesc::EqualResource(_) => Held::Sorts,
        ItemDesc::FreshResource(_) => Held::Sorts,
    }
}

/// A type that is wanted, against an item.
fn type_against(wanted: Brought, offered: ItemDesc, by: Option<Move>) -> Held
    ensures { (w o : Types) → held_view w o result
        ≡ two_items (equal_type (brought_type w wanted)) (brought_desc o by offered) }
{
    replacing();
    match offered {
        ItemDesc::EqualType(ty) => Held::Types(wanted, Brought { ty, by }),
        ItemDesc::Func(_) => Held::Sorts,
        ItemDesc::EqualResource(_) => Held::Sorts,
        ItemDesc::FreshResource(_) => Held::Sorts,
    }
}

/// A resource that is wanted, be it fresh or equal to another, against an item.
fn resource_against(wanted: ResourceId, offered: ItemDesc, by: Option<Move>) -> Held
    ensures fresh { (w o : Types) → held_view w o result
        ≡ two_items (fresh_resource wanted) (brought_desc o by offered) }
    ensures equal { (w o : Types) → held_view w o result
        ≡ two_items (equal_resource wanted) (brought_desc o by offered) }
{
    match offered {
        ItemDesc::EqualResource(n) => Held::Resources(wanted, resource(by, n)),
        ItemDesc::FreshResource(n) => Held::Resources(wanted, resource(by, n)),
        ItemDesc::Func(_) => Held::Sorts,
        ItemDesc::EqualType(_) => Held::Sorts,
    }
}

/// An item that is wanted, against one that is offered.
fn two_items(
    wanted: ItemDesc,
    wanted_by: Option<Move>,
    offered: ItemDesc,
    offered_by: Option<Move>,
) -> Held
    ensures { (w o : Types) → held_view w o result
        ≡ two_items (brought_desc w wanted_by wanted) (brought_desc o offered_by offered) }
{
    replacing();
    match wanted {
        ItemDesc::Func(ty) => func_against(Brought { ty, by: wanted_by }, offered, offered_by),
        ItemDesc::EqualType(ty) => {
            type_against(Brought { ty, by: wanted_by }, offered, offered_by)
        }
        ItemDesc::EqualResource(n) => resource_against(resource(wanted_by, n), offered, offered_by),
        ItemDesc::FreshResource(n) => resource_against(resource(wanted_by, n), offered, offered_by),
    }
}

/// Two functions that are imported or exported.
pub(crate) fn two_funcs(wanted: Placed, offered: Placed) -> Held
    ensures { (w o : Types) → held_view w o result ≡ funcs (placed_func (funcs_of w) wanted)
        (placed_func (funcs_of o) offered) }
{
    let wanted = Brought {
        ty: wanted,
        by: None,
    };
    let offered = Brought {
        ty: offered,
        by: None,
    };
    Held::Funcs(wanted, offered)
}

/// What the item is that stands at a place, if one does.
fn item_found(items: Items<'_>, place: Option<usize>) -> Option<ItemDesc>
    ensures { (t : Types) → option_map (desc_of (types_of t) (funcs_of t)) result
        ≡ item_stands t items.entry place }
{
    let item = items.at(place?)?;
    Some(item.desc)
}

/// An item that is wanted, against the one that stands at a place, if one does.
fn item_held(wanted: ItemDesc, by: Option<Move>, offered: Items<'_>, place: Option<usize>) -> Held
    ensures { (w o : Types) → held_view w o result
        ≡ desc_held (brought_desc w by wanted) (item_brought o offered.entry place) }
{
    match item_found(offered, place) {
        Some(found) => two_items(wanted, by, found, offered.by()),
        None => Held::Nothing,
    }
}

/// The items of two instances, of which the first is wanted at a place.
#[derive(Clone, Copy)]
pub(crate) struct TwoInstances<'a> {
    pub(crate) place: usize,
    pub(crate) wanted: Items<'a>,
    pub(crate) offered: Items<'a>,
}

/// The item of a number, if there is one, against the other of its name, which stands at a place if
/// there is one.
pub(crate) fn entry_at(two: TwoInstances<'_>, number: usize, found: Option<usize>) -> Option<Entry>
    requires { (t u : Types) → found ≡ option_and_then
        (place_in (item_names u two.offered))
        (slice_get (item_names t two.wanted) number) }
    ensures { (w o : Types) → option_map (entry_view w o) result
        ≡ slice_get (instance_entries w o two.entry) number }
{
    let TwoInstances {
        place,
        wanted,
        offered,
    } = two;
    let item = wanted.at(number)?;
    let held = item_held(item.desc, wanted.by(), offered, found);
    Some(Entry {
        place,
        item: Some(number),
        held,
    })
}

impl Entry {
    /// What it is where it does not serve.
    pub(crate) fn as_break(&self) -> Break
        ensures { (w o : Types) → result ≡ break_of (entry_view w o self.now) }
    {
        Break {
            place: self.place,
            item: self.item,
            reason: self.held.reason(),
        }
    }
}

impl Held {
    /// Why it does not serve where it does not.
    fn reason(&self) -> BreakReason
        ensures { (w o : Types) → result ≡ reason_of (held_view w o self.now) }
    {
        match self {
            Held::Nothing => BreakReason::Missing,
            Held::Several => BreakReason::Several,
            Held::Sorts => BreakReason::OtherSort,
            Held::Funcs(_, _) => BreakReason::OtherType,
            Held::Types(_, _) => BreakReason::OtherType,
            Held::Resources(_, _) => BreakReason::OtherResource,
        }
    }
}
