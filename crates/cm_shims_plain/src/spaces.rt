//! Where the types of a file stand in the plain component.

ghost use Rattle.std.specs.Prelude.{◌≡◌, OnOk, slice_get};
ghost use Rattle.cm_shims_plain.specs.Instantiated.{add_type, define_type, type_at};
ghost use Rattle.cm_shims_plain.specs.Spaces.{place, types_of};
ghost use Rattle.cm_shims_plain.specs.Steps.{Comes};

use crate::fault::ShimReason;
use crate::stop::Stop;
use std::alloc::{AllocError, Global};

/// The types of a file, or of a shim in it: where each stands in the plain component, and how many
/// types that has.
#[derive(Drop)]
pub(crate) struct TypeSpace {
    pub(crate) places: Vec<u32>,
    pub(crate) count: u32,
}

impl TypeSpace {
    ghost use Rattle.std.specs.Prelude.{[]};

    /// No types, where the plain component has so many.
    pub(crate) fn new(alloc: Global, count: u32) -> TypeSpace
        ensures { types_of result ≡ record { places = []; count = count } }
    {
        TypeSpace {
            places: Vec::new(alloc),
            count,
        }
    }

    /// Where the type with an index stands: for an index that no type has, one that none has there.
    pub(crate) fn place(&self, index: u32) -> u32
        ensures { result ≡ place (types_of self.now) index }
    {
        match self.places.get(index as usize) {
            Some(place) => *place,
            None => index.max(self.count),
        }
    }

    /// Where the type with an index stands, if one has it.
    pub(crate) fn get(&self, index: u32) -> Option<u32>
        ensures { result ≡ slice_get (types_of self.now).places index }
    {
        self.places.get(index as usize).copied()
    }

    /// Adds a type that stands at a place.
    pub(crate) fn add(&mut self, place: u32) -> Result<(), AllocError>
        ensures { OnOk result (types_of self.new ≡ add_type place (types_of self.old)) }
    {
        self.places.push(place)?;
        Ok(())
    }

    /// Adds a type that stands behind all types of the plain component.
    pub(crate) fn define(&mut self) -> Result<(), AllocError>
        ensures { OnOk result (types_of self.new ≡ define_type (types_of self.old)) }
    {
        let Some(count) = self.count.checked_add(1) else {
            return Err(AllocError);
        };
        self.places.push(self.count)?;
        self.count = count;
        Ok(())
    }
}

/// Where the type with an index stands.
pub(crate) fn type_at(types: &TypeSpace, index: u32) -> Result<u32, Stop<ShimReason>>
    ensures { Comes (λ i. i) result (type_at (types_of types.now).places index) }
{
    match types.get(index) {
        Some(place) => Ok(place),
        None => Err(Stop::Fault(ShimReason::NoSuchType)),
    }
}
