//! The numbers of the types of an arena.

ghost use Rattle.std.specs.Prelude.{◌≡◌, ◌<◌, IfOk, Some, length, map, slice_index};
ghost use Rattle.cm_types.specs.TypeTrees.{type_of};
ghost use Rattle.cm_types_arena.specs.Arena.{parts_in};
ghost use Rattle.cm_types_arena.specs.Places.{funcs_of, types_of};
ghost use Rattle.cm_types_arena.specs.TypeDefs.{func_at};
ghost use Rattle.cm_types_arena.specs.Replaced.{Standing, replaced, replaced_func};
ghost use Rattle.cm_types_numbers.specs.Numbering.{AreFuncNumbers, AreNumbers, Extends, IsNodeOf};
ghost use Rattle.cm_types_numbers.specs.Numbering.{number_func, numbering};

use crate::key::{Key, Leaf};
use crate::numbers::Numbers;
use cm_types::{ResourceId, TypeNode};
use cm_types_arena::{Replacement, Types};
use std::alloc::{AllocError, Global};

impl Numbers {
    /// The numbers of the types of an arena by their places, once each resource in them is
    /// replaced by what stands for it. A type that has no number gets the next. Each type costs its
    /// own length and a search in the table for each of its parts, whatever its parts are; the
    /// types of another arena are numbered in the same table, so that the numbers of both tell
    /// which types are equal.
    ///
    /// `AllocError` comes where there is no memory. The types that have a number keep it.
    pub fn number_types<R: Replacement>(
        &mut self,
        alloc: Global,
        replacement: &R,
        types: &Types,
    ) -> Result<Vec<usize>, AllocError>
        ensures numbers { IfOk result (λ ns. AreNumbers
            (numbering self.new) (R.replacement replacement.now) (types_of types.now) ns.items) }
        ensures kept { Extends (numbering self.old) (numbering self.new) }
    {
        let mut numbers = Vec::with_capacity(alloc, types.len())?;
        for place in 0..types.len() {
            let parts = numbers_at(alloc, &numbers, types.parts(place))?;
            let key = self.key(replacement, &parts, types.node(place))?;
            let number = self.node(key)?;
            numbers.push(number)?;
        }
        Ok(numbers)
    }

    /// The numbers of the types of an arena's functions by their places, from the numbers of its
    /// types. A type that has no number gets the next; each costs its own length.
    ///
    /// `AllocError` comes where there is no memory. The types that have a number keep it.
    pub fn number_funcs(
        &mut self,
        alloc: Global,
        types: &Types,
        numbers: &[usize],
    ) -> Result<Vec<usize>, AllocError>
        ensures numbers { IfOk result (λ ns. (s : Standing)
            → AreNumbers (numbering self.old) s (types_of types.now) numbers.now
            → AreFuncNumbers (numbering self.new) s (funcs_of types.now) ns.items) }
        ensures kept { Extends (numbering self.old) (numbering self.new) }
    {
        let mut funcs = Vec::with_capacity(alloc, types.func_count())?;
        for place in 0..types.func_count() {
            let number = self.number_func(alloc, types, numbers, place)?;
            funcs.push(number)?;
        }
        Ok(funcs)
    }

    /// The number of the type of a function at a place, from the numbers of the types of its
    /// arena. A type that has no number gets the next.
    ///
    /// `AllocError` comes where there is no memory. The types that have a number keep it.
    pub fn number_func(
        &mut self,
        alloc: Global,
        types: &Types,
        numbers: &[usize],
        place: usize,
    ) -> Result<usize, AllocError>
        requires { place < length (funcs_of types.now) }
        ensures number { IfOk result (λ n. (s : Standing)
            → AreNumbers (numbering self.old) s (types_of types.now) numbers.now
            → number_func (numbering self.new)
            (replaced_func s (func_at (funcs_of types.now) place)) ≡ Some n) }
        ensures kept { Extends (numbering self.old) (numbering self.new) }
    {
        let parts = numbers_at(alloc, numbers, types.func_params(place))?;
        let params = self.fields(&parts, &types.func(place).params)?;
        match types.func_result(place) {
            None => self.node(Key::FuncWithoutResult { params }),
            Some(answer) => self.node(Key::Func {
                params,
                result: number_at(numbers, answer),
            }),
        }
    }

    /// The node of a type, from the numbers of the types that it holds.
    pub(crate) fn key<R: Replacement>(
        &mut self,
        replacement: &R,
        parts: &[usize],
        ty: &TypeNode,
    ) -> Result<Key, AllocError>
        requires { length parts.now ≡ length (parts_in (type_of ty.now)) }
        ensures node { IfOk result (λ key.
            AreNumbers (numbering self.old) (R.replacement replacement.now)
            (parts_in (type_of ty.now)) parts.now
            → IsNodeOf (numbering self.new)
            (replaced (R.replacement replacement.now) (type_of ty.now)) key) }
        ensures kept { Extends (numbering self.old) (numbering self.new) }
    {
        Ok(match ty {
            TypeNode::Bool => Key::Leaf(Leaf::Bool),
            TypeNode::S8 => Key::Leaf(Leaf::S8),
            TypeNode::U8 => Key::Leaf(Leaf::U8),
            TypeNode::S16 => Key::Leaf(Leaf::S16),
            TypeNode::U16 => Key::Leaf(Leaf::U16),
            TypeNode::S32 => Key::Leaf(Leaf::S32),
            TypeNode::U32 => Key::Leaf(Leaf::U32),
            TypeNode::S64 => Key::Leaf(Leaf::S64),
            TypeNode::U64 => Key::Leaf(Leaf::U64),
            TypeNode::Char => Key::Leaf(Leaf::Char),
            TypeNode::String => Key::Leaf(Leaf::String),
            TypeNode::List(_) => Key::List(parts[0]),
            TypeNode::FixedList { length, .. } => Key::FixedList {
                element: parts[0],
                length: *length,
            },
            TypeNode::Record(fields) => Key::Record(self.fields(parts, fields)?),
            TypeNode::Tuple(_) => Key::Tuple(self.parts(parts)?),
            TypeNode::Variant(cases) => Key::Variant(self.cases(parts, cases)?),
            TypeNode::Enum(labels) => Key::Enum(self.labels(labels)?),
            TypeNode::Flags(labels) => Key::Flags(self.labels(labels)?),
            TypeNode::Option(_) => {
                Key::Option(self.two_cases("none", None, "some", Some(parts[0]))?)
            }
            TypeNode::Result { ok, error } => Key::Result(self.result_cases(parts, ok, error)?),
            TypeNode::Own(id) => own(replacement.replace(*id)),
            TypeNode::Borrow(id) => borrow(replacement.replace(*id)),
        })
    }
}

/// The node of an owned resource, and of a borrowed one.
fn own(id: ResourceId) -> Key
    ensures { result ≡ Key.Own id.component id.number }
{
    Key::Own {
        component: id.component,
        number: id.number,
    }
}

fn borrow(id: ResourceId) -> Key
    ensures { result ≡ Key.Borrow id.component id.number }
{
    Key::Borrow {
        component: id.component,
        number: id.number,
    }
}

/// The numbers at these places.
fn numbers_at(alloc: Global, numbers: &[usize], places: &[usize]) -> Result<Vec<usize>, AllocError>
    ensures { IfOk result (λ ns. ns.items ≡ map (slice_index numbers.now) places.now) }
{
    places
        .iter()
        .map(|place| number_at(numbers, *place))
        .collect(alloc)
}

/// The number at a place; 0 where there is none.
fn number_at(numbers: &[usize], place: usize) -> usize
    ensures { result ≡ slice_index numbers.now place }
{
    match numbers.get(place) {
        Some(number) => *number,
        None => 0,
    }
}
