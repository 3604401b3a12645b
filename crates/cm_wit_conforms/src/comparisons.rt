//! What is compared.

ghost use Rattle.std.specs.Prelude.{◌≡◌};
ghost use Rattle.cm_types_arena.specs.Places.{funcs_of};
ghost use Rattle.cm_types_arena.specs.declared.types.Types.{Types};
ghost use Rattle.cm_types_arena.specs.Instances.{numbered};
ghost use Rattle.cm_types_arena.specs.Placed.{moved_by, placed_func};
ghost use Rattle.cm_types.specs.Signatures.{equal_resource, equal_type, fresh_resource};
ghost use Rattle.cm_types.specs.Signatures.{func_item};
ghost use Rattle.cm_wit_conforms.specs.Comparisons.{facing, two_funcs, two_items};
ghost use Rattle.cm_wit_conforms.specs.Conformance.{reason_of};
ghost use Rattle.cm_types_numbers.specs.Moved.{brought_func, brought_type};
ghost use Rattle.cm_wit_conforms.specs.Views.{brought_desc, comparison_of, other, own};

use crate::fault::{ConformItem, ConformList, ConformReason};
use cm_types::ResourceId;
use cm_types_arena::laws::replacing;
use cm_types_arena::{ItemDesc, Move, Placed, moved_resource};
use cm_types_numbers::Brought;

/// What is held against what: the signature's stands first, then the world's.
#[derive(Clone, Copy)]
pub(crate) enum Comparison {
    /// The other side has nothing of that name.
    Nothing,
    /// A function against an instance, or against a type.
    Sorts,
    Funcs(Brought, Brought),
    Types(Brought, Brought),
    Resources(ResourceId, ResourceId),
}

/// A comparison, and where it is made.
#[derive(Clone, Copy)]
pub(crate) struct PlacedComparison {
    pub(crate) item: ConformItem,
    pub(crate) what: Comparison,
}

/// The resource of this number, as an import or export counts it.
fn resource(by: Option<Move>, number: u64) -> ResourceId
    ensures { result ≡ moved_by by (numbered number) }
{
    moved_resource(
        by,
        ResourceId {
            component: 0,
            number,
        },
    )
}

/// A function of the signature's against an item of the world's.
fn func_against(have: Brought, world: ItemDesc, by: Option<Move>) -> Comparison
    ensures { (h w : Types) → comparison_of h w result
        ≡ two_items (func_item (brought_func h have)) (brought_desc w by world) }
{
    replacing();
    match world {
        ItemDesc::Func(ty) => Comparison::Funcs(have, Brought { ty, by }),
        ItemDesc::EqualType(_) => Comparison::Sorts,
        ItemDesc::EqualResource(_) => Comparison::Sorts,
        ItemDesc::FreshResource(_) => Comparison::Sorts,
    }
}

/// A type of the signature's against an item of the world's.
fn type_against(have: Brought, world: ItemDesc, by: Option<Move>) -> Comparison
    ensures { (h w : Types) → comparison_of h w result
        ≡ two_items (equal_type (brought_type h have)) (brought_desc w by world) }
{
    replacing();
    match world {
        ItemDesc::EqualType(ty) => Comparison::Types(have, Brought { ty, by }),
        ItemDesc::Func(_) => Comparison::Sorts,
        ItemDesc::EqualResource(_) => Comparison::Sorts,
        ItemDesc::FreshResource(_) => Comparison::Sorts,
    }
}

/// A resource of the signature's, be it fresh or equal to another, against an item of the world's.
fn resource_against(have: ResourceId, world: ItemDesc, by: Option<Move>) -> Comparison
    ensures fresh { (h w : Types) → comparison_of h w result
        ≡ two_items (fresh_resource have) (brought_desc w by world) }
    ensures equal { (h w : Types) → comparison_of h w result
        ≡ two_items (equal_resource have) (brought_desc w by world) }
{
    match world {
        ItemDesc::EqualResource(n) => Comparison::Resources(have, resource(by, n)),
        ItemDesc::FreshResource(n) => Comparison::Resources(have, resource(by, n)),
        ItemDesc::Func(_) => Comparison::Sorts,
        ItemDesc::EqualType(_) => Comparison::Sorts,
    }
}

/// An item of the signature's against one of the world's.
fn two_items(
    have: ItemDesc,
    have_by: Option<Move>,
    world: ItemDesc,
    world_by: Option<Move>,
) -> Comparison
    ensures { (h w : Types) → comparison_of h w result
        ≡ two_items (brought_desc h have_by have) (brought_desc w world_by world) }
{
    replacing();
    match have {
        ItemDesc::Func(ty) => func_against(Brought { ty, by: have_by }, world, world_by),
        ItemDesc::EqualType(ty) => type_against(Brought { ty, by: have_by }, world, world_by),
        ItemDesc::EqualResource(n) => resource_against(resource(have_by, n), world, world_by),
        ItemDesc::FreshResource(n) => resource_against(resource(have_by, n), world, world_by),
    }
}

/// An item of a list that is gone through, against the one of its name.
pub(crate) fn facing_items(
    list: ConformList,
    item: ItemDesc,
    by: Option<Move>,
    found: ItemDesc,
    found_by: Option<Move>,
) -> Comparison
    ensures { (h w : Types) → comparison_of h w result ≡ facing two_items list
        (brought_desc (own list h w) by item) (brought_desc (other list h w) found_by found) }
{
    match list {
        ConformList::WorldExports => two_items(found, found_by, item, by),
        ConformList::HaveImports => two_items(item, by, found, found_by),
    }
}

/// A function of a list that is gone through, against the one of its name.
pub(crate) fn facing_funcs(list: ConformList, func: Placed, found: Placed) -> Comparison
    ensures { (h w : Types) → comparison_of h w result ≡ facing two_funcs list
        (placed_func (funcs_of (own list h w)) func)
        (placed_func (funcs_of (other list h w)) found) }
{
    let func = Brought { ty: func, by: None };
    let found = Brought {
        ty: found,
        by: None,
    };
    match list {
        ConformList::WorldExports => Comparison::Funcs(found, func),
        ConformList::HaveImports => Comparison::Funcs(func, found),
    }
}

impl PlacedComparison {
    /// Why what does not fit does not.
    pub(crate) fn reason(&self) -> ConformReason
        ensures { (h w : Types) → result
            ≡ reason_of self.now.item.list (comparison_of h w self.now.what) }
    {
        match (self.what, self.item.list) {
            (Comparison::Nothing, ConformList::WorldExports) => ConformReason::Missing,
            (Comparison::Nothing, ConformList::HaveImports) => ConformReason::NotInWorld,
            _ => ConformReason::DifferentType,
        }
    }
}
