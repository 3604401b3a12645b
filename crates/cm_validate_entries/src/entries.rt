//! What stands in the index spaces of functions and instances.

use cm_binary_model::CanonOption;
use cm_types_arena::{Move, Placed};
use cm_validate_core::NameMap;
use cm_validate_items::InstanceItems;
use std::rc::Rc;

/// A function of a component.
#[derive(Clone, Copy)]
pub enum FuncEntry<'a> {
    /// A core function, by its index, that is lifted to a type.
    Lifted {
        core_func: u32,
        ty: Placed,
        options: &'a [CanonOption],
    },
    /// An import, by its number from 0, or an item of an imported instance, by the item's number
    /// from 0.
    Imported {
        import: usize,
        item: Option<usize>,
        ty: Placed,
    },
}

/// What an instance has under a name.
#[derive(Clone, Copy)]
pub enum MemberEntry<'a> {
    Func(FuncEntry<'a>),
    /// A value type.
    Value(Placed),
    /// A resource, by its number in the component.
    Resource(u64),
}

/// An instance of a component (Explainer.md, "Instance Definitions").
#[derive(Drop)]
pub enum InstanceEntry<'a> {
    /// The import of this number from 0: its items, the resources that they bring counted as the
    /// import counts them. None of the items is written out.
    Imported {
        import: usize,
        items: Rc<InstanceItems>,
        by: Move,
    },
    /// Definitions under names, shared by all who name the instance.
    Exporting(Rc<NameMap<'a, MemberEntry<'a>>>),
}
