//! One index space of types, in sketches.

ghost use Rattle.std.specs.Prelude.{◌≡◌, map};
ghost use Rattle.cm_validate_instances.specs.Sketches.{sketch_sort};

use crate::sketches::Sketch;
use cm_validate_model::TypeSort;
use std::alloc::{AllocError, Global};

/// An index space of types: the sketch of each, and its sort beside it.
#[derive(Drop)]
pub struct SketchLevel {
    pub(crate) sketches: Vec<Sketch>,
    pub(crate) sorts: Vec<TypeSort>,
    ghost sorted: { sorts.items ≡ map sketch_sort sketches.items },
}

impl SketchLevel {
    ghost use Rattle.std.specs.Prelude.{◌++◌, ◌∷◌, [], OnOk, OnErr, slice_get};
    ghost use Rattle.cm_validate_instances.specs.Levels.{sketches_of};

    /// No types.
    pub fn new(alloc: Global) -> SketchLevel
        ensures { sketches_of result ≡ [] }
    {
        SketchLevel {
            sketches: Vec::new(alloc),
            sorts: Vec::new(alloc),
        }
    }

    /// The sketch of the type under an index, if one stands there.
    pub fn get(&self, index: u32) -> Option<Sketch>
        ensures { result ≡ slice_get (sketches_of self.now) index }
    {
        match self.sketches.get(index as usize) {
            Some(sketch) => Some(*sketch),
            None => None,
        }
    }

    /// The sorts of the types.
    pub fn sorts(&self) -> &[TypeSort]
        ensures { result.now ≡ map sketch_sort (sketches_of self.now) }
    {
        &self.sorts
    }

    /// Adds a type behind the others. `AllocError` comes where there is no memory for it; the
    /// others then stay as they are.
    pub fn push(&mut self, sketch: Sketch) -> Result<(), AllocError>
        ensures pushed { OnOk result
            (sketches_of self.new ≡ sketches_of self.old ++ sketch ∷ []) }
        ensures kept { OnErr result (sketches_of self.new ≡ sketches_of self.old) }
    {
        let sort = sketch.sort();
        self.sorts.reserve(1)?;
        self.sketches.push(sketch)?;
        match self.sorts.push(sort) {
            Ok(()) => Ok(()),
            // Room was reserved.
            Err(_) => unreachable!(),
        }
    }
}
