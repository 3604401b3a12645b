//! What the rules on the types of instances need to know of a type.

ghost use Rattle.std.specs.Prelude.{◌≡◌};
ghost use Rattle.cm_validate_model.specs.Scopes.{resource_id};
ghost use Rattle.std.specs.Option.{option_map};
ghost use Rattle.cm_types_arena.specs.Placed.{moved_by};
ghost use Rattle.cm_validate_instances.specs.Sketches.{borrowed, func_replaced, holds_borrow};
ghost use Rattle.cm_validate_instances.specs.Sketches.{owned};
ghost use Rattle.cm_validate_instances.specs.Sketches.{sketch_sort, value_replaced};

use cm_types::ResourceId;
use cm_types_arena::{Move, moved_resource};
use cm_validate_model::TypeSort;

/// What is kept of a value type: whether it is a handle, and of which resource; else whether it
/// holds a borrow.
#[derive(Clone, Copy)]
pub enum ValueSketch {
    /// No handle, and no borrow is in it.
    Plain,
    /// An owned handle of the resource.
    Own(ResourceId),
    /// A borrowed handle of the resource.
    Borrow(ResourceId),
    /// No handle, and a borrow is in it.
    HoldsBorrow,
}

/// What is kept of the type of a function.
#[derive(Clone, Copy)]
pub struct FuncSketch {
    /// The resource that the first parameter borrows, where that parameter is `self` and a borrow.
    pub self_borrow: Option<ResourceId>,
    /// The resource of which the result is an owned handle, where it is one.
    pub own_result: Option<ResourceId>,
}

/// What is kept of what an index of a type stands for (Explainer.md, "Index Spaces").
#[derive(Clone, Copy)]
pub enum Sketch {
    Value(ValueSketch),
    Func(FuncSketch),
    Resource(ResourceId),
    /// The type of an instance.
    Instance,
    /// A definition that names what is not there, or is of another sort.
    Faulty,
}

/// The resource of this number, of the component itself.
pub fn resource_id(number: u64) -> ResourceId
    ensures { result ≡ resource_id number }
{
    ResourceId {
        component: 0,
        number,
    }
}

/// The resource that stands for one after a move, if there is one.
pub fn moved_option(by: Option<Move>, resource: Option<ResourceId>) -> Option<ResourceId>
    ensures { result ≡ option_map (moved_by by) resource }
{
    match resource {
        None => None,
        Some(resource) => Some(moved_resource(by, resource)),
    }
}

impl FuncSketch {
    /// This sketch, with its resources as an import may have moved them.
    pub(crate) fn moved(self, by: Option<Move>) -> FuncSketch
        ensures { result ≡ func_replaced (moved_by by) self }
    {
        FuncSketch {
            self_borrow: moved_option(by, self.self_borrow),
            own_result: moved_option(by, self.own_result),
        }
    }
}

impl ValueSketch {
    /// This sketch, with its resources as an import may have moved them.
    pub(crate) fn moved(self, by: Option<Move>) -> ValueSketch
        ensures { result ≡ value_replaced (moved_by by) self }
    {
        match self {
            ValueSketch::Own(resource) => ValueSketch::Own(moved_resource(by, resource)),
            ValueSketch::Borrow(resource) => ValueSketch::Borrow(moved_resource(by, resource)),
            ValueSketch::Plain | ValueSketch::HoldsBorrow => self,
        }
    }

    /// Whether the type is a borrow or holds one.
    pub(crate) fn holds_borrow(self) -> bool
        ensures { result ≡ holds_borrow self }
    {
        matches!(self, ValueSketch::Borrow(_) | ValueSketch::HoldsBorrow)
    }

    /// The resource of which the type is a borrow, where it is one.
    pub(crate) fn borrowed(self) -> Option<ResourceId>
        ensures { result ≡ borrowed self }
    {
        match self {
            ValueSketch::Borrow(resource) => Some(resource),
            _ => None,
        }
    }

    /// The resource of which the type is an owned handle, where it is one.
    pub(crate) fn owned(self) -> Option<ResourceId>
        ensures { result ≡ owned self }
    {
        match self {
            ValueSketch::Own(resource) => Some(resource),
            _ => None,
        }
    }
}

impl Sketch {
    /// The sort of the type.
    pub fn sort(self) -> TypeSort
        ensures { result ≡ sketch_sort self }
    {
        match self {
            Sketch::Value(_) => TypeSort::Value,
            Sketch::Func(_) => TypeSort::Func,
            Sketch::Resource(_) => TypeSort::Resource,
            Sketch::Instance => TypeSort::Instance,
            Sketch::Faulty => TypeSort::Faulty,
        }
    }
}
