//! What an imported function comes to.

use cm_binary_model::CanonOption;
use cm_types_arena::Placed;

/// A lifted function of a component of a linked set (CanonicalABI.md, `canon lift`).
#[derive(Clone, Copy)]
pub struct Target<'a> {
    /// The place of the component in the set, from 0.
    pub component: u32,
    /// The core function that is lifted, by its index in that component.
    pub core_func: u32,
    /// The type that it is lifted to, by its place among those of functions in the component's
    /// arena.
    pub ty: Placed,
    /// The options of the lift.
    pub options: &'a [CanonOption],
}
