//! Which types core values never pass.

ghost use Rattle.std.specs.Prelude.{◌≡◌};
ghost use Rattle.cm_layout.specs.Layouts.{layout_of};
ghost use Rattle.cm_abi_programs.specs.Placed.{is_wide};

use cm_layout::{Layout, MAX_FLAT_PARAMS};

/// Whether a value of this layout always passes in memory: more core values would pass it than ever
/// do.
pub(crate) fn is_wide(layout: &Layout) -> bool
    ensures { result ≡ is_wide (layout_of layout.now).head }
{
    layout.head.width as usize > MAX_FLAT_PARAMS
}
