//! Layouts at places.

ghost use Rattle.std.specs.Prelude.{◌≡◌, ◌<◌, IfOk, List, length, map};
ghost use Rattle.cm_types.specs.Types.{Ty};
ghost use Rattle.cm_layout.specs.Layouts.{layout_of};
ghost use Rattle.cm_layout.specs.Shapes.{layout_at};
ghost use Rattle.cm_types_arena.specs.TypeDefs.{type_at};
ghost use Rattle.cm_layout_placed.specs.Placed.{AreOf, at_place};

use cm_layout::Layout;
use std::alloc::AllocError;

/// The layout at a place, shared.
pub(crate) fn share_at(layouts: &[Layout], place: usize) -> Result<Layout, AllocError>
    requires { place < length layouts.now }
    ensures { IfOk result (λ l. layout_of l ≡ at_place (map layout_of layouts.now) place) }
{
    layouts[place].share()
}

/// The layout at the place of this number among places, shared.
pub(crate) fn share_nth(
    layouts: &[Layout],
    places: &[usize],
    number: usize,
) -> Result<Layout, AllocError>
    requires { (types : List Ty) × AreOf (map layout_of layouts.now) places.now types
        × (number < length types) }
    ensures { IfOk result (λ l. (types : List Ty)
        → AreOf (map layout_of layouts.now) places.now types → number < length types
        → layout_of l ≡ layout_at (type_at types number)) }
{
    share_at(layouts, places[number])
}
