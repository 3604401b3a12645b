//! The sketch of a type that stands in an arena.

ghost use Rattle.std.specs.Prelude.{◌≡◌, ◌<◌, length, true};
ghost use Rattle.cm_types.specs.Funcs.{func_of};
ghost use Rattle.cm_types.specs.TypeTrees.{type_of};
ghost use Rattle.cm_types_arena.specs.Places.{funcs_of, types_of};
ghost use Rattle.cm_types_arena.specs.TypeDefs.{type_at};
ghost use Rattle.cm_types_arena.specs.Placed.{is_there, placed_func, placed_type};
ghost use Rattle.cm_validate_types.specs.Entries.{def_of, is_entry_there};
ghost use Rattle.cm_validate_instances.specs.Sketches.{own_result, resource_borrowed};
ghost use Rattle.cm_validate_instances.specs.Sketches.{resource_owned};
ghost use Rattle.cm_validate_instances.specs.Sketches.{self_borrow, sketch_func, sketch_of};
ghost use Rattle.cm_validate_instances.specs.Sketches.{sketch_value};

use crate::sketches::{FuncSketch, Sketch, ValueSketch, resource_id};
use cm_types::{Func, ResourceId, TypeNode};
use cm_types_arena::laws::what_stays;
use cm_types_arena::{Placed, Types};
use cm_validate_types::TypeEntry;

/// The sketch of the value type at a place.
fn sketch_value(types: &Types, place: usize) -> ValueSketch
    requires { place < length (types_of types.now) }
    ensures { result ≡ sketch_value (type_at (types_of types.now) place) }
{
    match types.node(place) {
        TypeNode::Own(resource) => ValueSketch::Own(*resource),
        TypeNode::Borrow(resource) => ValueSketch::Borrow(*resource),
        _ => {
            if types.summary(place).holds_borrow {
                ValueSketch::HoldsBorrow
            } else {
                ValueSketch::Plain
            }
        }
    }
}

/// The sketch of the value type at a place, its resources moved.
fn sketch_placed(types: &Types, placed: Placed) -> ValueSketch
    requires { is_there (length (types_of types.now)) placed ≡ true }
    ensures { result ≡ sketch_value (placed_type (types_of types.now) placed) }
{
    what_stays();
    sketch_value(types, placed.place).moved(placed.by)
}

/// The resource that a type borrows, if it is a borrow.
fn resource_borrowed(ty: &TypeNode) -> Option<ResourceId>
    ensures { result ≡ resource_borrowed (type_of ty.now) }
{
    match ty {
        TypeNode::Borrow(resource) => Some(*resource),
        _ => None,
    }
}

/// The resource of which a type is an owned handle, if it is one.
fn resource_owned(ty: &TypeNode) -> Option<ResourceId>
    ensures { result ≡ resource_owned (type_of ty.now) }
{
    match ty {
        TypeNode::Own(resource) => Some(*resource),
        _ => None,
    }
}

/// The resource that the first parameter of a function borrows, where it is `self` and a borrow.
pub fn self_borrow(func: &Func) -> Option<ResourceId>
    ensures { result ≡ self_borrow (func_of func.now).params }
{
    match func.params.as_slice() {
        [] => None,
        [first, ..] => {
            if first.label.as_bytes() == b"self".as_slice() {
                resource_borrowed(&first.ty)
            } else {
                None
            }
        }
    }
}

/// The resource of which the result of a function is an owned handle, where it is one.
pub fn own_result(func: &Func) -> Option<ResourceId>
    ensures { result ≡ own_result (func_of func.now).result }
{
    match &func.result {
        None => None,
        Some(tree) => resource_owned(&tree.root),
    }
}

fn sketch_func(func: &Func) -> FuncSketch
    ensures { result ≡ sketch_func (func_of func.now) }
{
    FuncSketch {
        self_borrow: self_borrow(func),
        own_result: own_result(func),
    }
}

/// The sketch of the type of a function at a place, its resources moved.
fn sketch_placed_func(types: &Types, placed: Placed) -> FuncSketch
    requires { is_there (length (funcs_of types.now)) placed ≡ true }
    ensures { result ≡ sketch_func (placed_func (funcs_of types.now) placed) }
{
    sketch_func(types.func(placed.place)).moved(placed.by)
}

/// The sketch of what an index of a type stands for, from what the arena knows of it: nothing below
/// it is walked.
pub fn sketch_entry(types: &Types, entry: &TypeEntry) -> Sketch
    requires there { is_entry_there (length (types_of types.now)) (length (funcs_of types.now))
        entry.now ≡ true }
    ensures { result
        ≡ sketch_of (def_of (types_of types.now) (funcs_of types.now) entry.now) }
{
    match entry {
        TypeEntry::Value(placed) => Sketch::Value(sketch_placed(types, *placed)),
        TypeEntry::Func(placed) => Sketch::Func(sketch_placed_func(types, *placed)),
        TypeEntry::Resource(number) => Sketch::Resource(resource_id(*number)),
        TypeEntry::Instance(_) => Sketch::Instance,
    }
}
