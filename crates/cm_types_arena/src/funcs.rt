//! The types of functions, by the places of the types in them.

ghost use Rattle.std.specs.Prelude.{◌≡◌, ◌↔◌, IfOk, IsTrue, map};
ghost use Rattle.cm_types_arena.specs.Places.{HasFuncParts};

use crate::summaries::Summary;
use crate::type_defs::{FieldDef, is_below};
use cm_types::Func;
use std::alloc::{AllocError, Global};
use std::rc::Rc;

/// The type of a function: its parameters in order, and the place of the type of its result, if it
/// has one (Binary.md, "Type Definitions").
#[derive(Drop)]
pub struct FuncDef {
    pub params: Vec<FieldDef>,
    pub result: Option<usize>,
}

impl FuncDef {
    /// Whether each type in it has a place among so many types.
    pub fn has_parts_below(&self, count: usize) -> bool
        ensures { IsTrue result ↔ HasFuncParts count self.now }
    {
        self.params.iter().all(|param| param.ty < count) && is_below(self.result, count)
    }

    /// The places of the types of its parameters, in order.
    pub(crate) fn param_places(&self, alloc: Global) -> Result<Vec<usize>, AllocError>
        ensures { IfOk result (λ places. places.items ≡ map (λ f. f.ty) self.now.params.items) }
    {
        self.params.iter().map(|param| param.ty).collect(alloc)
    }
}

/// The type of a function: itself, the places of the types in it, and what is known of its
/// parameters as the fields of a tuple.
#[derive(Drop)]
pub(crate) struct FuncEntry {
    pub(crate) func: Rc<Func>,
    pub(crate) params: Vec<usize>,
    pub(crate) result: Option<usize>,
    pub(crate) summary: Summary,
}
