//! The types of a component, laid out.

use cm_layout_placed::Layouts;
use cm_types_arena::Types;
use cm_validate_entries::TypeEntry;

/// The types of a component by index, the arena in which their places are, and the layouts of all
/// types of the arena.
#[derive(Clone, Copy)]
pub struct LaidTypes<'b> {
    pub entries: &'b [TypeEntry],
    pub arena: &'b Types,
    pub layouts: &'b Layouts,
}
