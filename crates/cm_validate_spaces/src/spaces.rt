//! The index spaces of a component.

use crate::made::MadeFunc;
use cm_layout_placed::Layouts;
use cm_layout_placed::laws::first_layouts_stay;
use cm_validate_core::CoreSpaces;
use cm_validate_entries::ComponentSpaces;
use cm_validate_types::TypeScope;
use std::alloc::{AllocError, Global};

/// All index spaces of a component after some of its items (Explainer.md, "Index Spaces"): the core
/// ones; functions, instances, resources, imports and exports; types, over one arena, with the
/// layouts of the first of its types; and the core functions that canonical definitions made, by
/// their numbers. Names and options are borrowed from the component.
#[derive(Drop)]
pub struct IndexSpaces<'a> {
    pub(crate) core: CoreSpaces<'a>,
    pub(crate) component: ComponentSpaces<'a>,
    pub(crate) types: TypeScope,
    pub(crate) layouts: Layouts,
    pub(crate) made: Vec<MadeFunc<'a>>,
}

impl<'a> IndexSpaces<'a> {
    ghost use Rattle.std.specs.Prelude.{IfOk};
    ghost use Rattle.cm_validate_model.specs.Spaces.{empty_spaces};
    ghost use Rattle.cm_validate_spaces.specs.IndexSpaces.{IsAt};

    /// No definitions. `AllocError` comes where there is no memory for the arena.
    pub fn new(alloc: Global) -> Result<IndexSpaces<'a>, AllocError>
        ensures { IfOk result (λ w. IsAt w empty_spaces) }
    {
        first_layouts_stay();
        Ok(IndexSpaces {
            core: CoreSpaces::new(alloc),
            component: ComponentSpaces::new(alloc),
            types: TypeScope::new(alloc)?,
            layouts: Layouts::new(alloc),
            made: Vec::new(alloc),
        })
    }
}
