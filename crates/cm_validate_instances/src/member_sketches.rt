//! What the rules on names need to know of the members of an instance.

ghost use Rattle.std.specs.Prelude.{◌≡◌};
ghost use Rattle.cm_types_arena.specs.Places.{funcs_of};
ghost use Rattle.cm_types_arena.specs.Placed.{placed_func};
ghost use Rattle.cm_validate_instances.specs.Sketches.{sketch_func};
ghost use Rattle.cm_validate_entries.specs.Entries.{func_def};
ghost use Rattle.cm_validate_instances.specs.Members.{sketch_member};

use crate::entries::{own_result, self_borrow};
use crate::item_sketches::ItemSketch;
use crate::sketches::{FuncSketch, moved_option, resource_id};
use cm_types_arena::{Placed, Types};
use cm_validate_entries::{FuncEntry, MemberEntry};

/// The sketch of the type of a function, from its first parameter and its result.
fn func_sketch(arena: &Types, ty: Placed) -> FuncSketch
    ensures { result ≡ sketch_func (placed_func (funcs_of arena.now) ty) }
{
    if ty.place >= arena.func_count() {
        return FuncSketch {
            self_borrow: None,
            own_result: None,
        };
    }
    let func = arena.func(ty.place);
    FuncSketch {
        self_borrow: moved_option(ty.by, self_borrow(func)),
        own_result: moved_option(ty.by, own_result(func)),
    }
}

/// The sketch of the item that a member is.
pub(crate) fn item_sketch(arena: &Types, member: MemberEntry<'_>) -> ItemSketch
    ensures { result ≡ sketch_member (funcs_of arena.now) member.entry }
{
    match member {
        MemberEntry::Value(_) => ItemSketch::Type,
        MemberEntry::Resource(number) => ItemSketch::Resource(resource_id(number)),
        MemberEntry::Func(FuncEntry::Lifted { ty, .. }) => {
            ItemSketch::Func(func_sketch(arena, ty))
        }
        MemberEntry::Func(FuncEntry::Imported { ty, .. }) => {
            ItemSketch::Func(func_sketch(arena, ty))
        }
    }
}
