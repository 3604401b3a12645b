//! The core functions that canonical definitions make.

use cm_binary_model::CanonOption;
use cm_types_arena::Placed;
use cm_validate_core::GuestExport;

/// A core function that a canonical definition made (Explainer.md, "Canonical Definitions").
#[derive(Clone, Copy)]
pub enum MadeFunc<'a> {
    /// An import, by its number from 0, or an item of an imported instance, by the item's number
    /// from 0, that is lowered with these options. Its type is a place among those of functions.
    Lowered {
        import: usize,
        item: Option<usize>,
        ty: Placed,
        options: &'a [CanonOption],
    },
    /// Makes a handle of the resource of this number.
    Making(u64),
    /// Drops a handle of it.
    Dropping(u64),
    /// Tells what a handle of it represents.
    Reading(u64),
}

/// A core function of a component: a guest's, or one that a canonical definition made.
#[derive(Clone, Copy)]
pub enum CoreFuncEntry<'a> {
    Guest(GuestExport<'a>),
    Made(MadeFunc<'a>),
}
