//! Types as finite trees, with every index of a file expanded.

ghost use Rattle.std.specs.Prelude.{◌≡◌, IfOk, IsErrOf, true, false};
ghost use Rattle.cm_types.specs.Faults.{type_fault_number};
ghost use Rattle.cm_types.specs.Limits.{IsWithinLimits};
ghost use Rattle.cm_types.specs.Spellable.{are_spellable, is_spellable};
ghost use Rattle.cm_types.specs.Types.{fields, tuple_type};
ghost use Rattle.cm_types.specs.TypeTrees.{fields_of, type_of};

use crate::Label;
use crate::dismantling::{dismantle, dismantle_fields};
use crate::limits::{MAX_DEPTH, MAX_NODES, nodes_of_fields_within, nodes_within};
use crate::resource::ResourceId;
use crate::spellable::{are_spellable, is_spellable};
use std::alloc::AllocError;
use std::rc::Rc;
use thiserror::Error;

/// A node of a type tree with all below it (Explainer.md, "Value Types"). What is below it is
/// shared: a type that stands in several places is one.
#[cycle(types)]
#[derive(Drop)]
pub enum TypeNode {
    Bool,
    S8,
    U8,
    S16,
    U16,
    S32,
    U32,
    S64,
    U64,
    Char,
    String,
    /// A list whose elements lie elsewhere.
    List(Rc<TypeNode>),
    /// A list of exactly `length` elements, which lie in place.
    FixedList {
        element: Rc<TypeNode>,
        length: u32,
    },
    Record(Rc<Vec<Field>>),
    Tuple(Rc<Vec<TypeNode>>),
    Variant(Rc<Vec<Case>>),
    /// The labels of its cases.
    Enum(Rc<Vec<Label>>),
    Flags(Rc<Vec<Label>>),
    Option(Rc<TypeNode>),
    Result {
        ok: Option<Rc<TypeNode>>,
        error: Option<Rc<TypeNode>>,
    },
    Own(ResourceId),
    Borrow(ResourceId),
}

impl TypeNode {
    /// This type again: what is below it is shared. `AllocError` comes where it is shared too often
    /// to be counted, which is 2^64 times.
    pub fn share(&self) -> Result<TypeNode, AllocError>
        ensures { IfOk result (λ node. type_of node ≡ type_of self.now) }
    {
        Ok(match self {
            TypeNode::Bool => TypeNode::Bool,
            TypeNode::S8 => TypeNode::S8,
            TypeNode::U8 => TypeNode::U8,
            TypeNode::S16 => TypeNode::S16,
            TypeNode::U16 => TypeNode::U16,
            TypeNode::S32 => TypeNode::S32,
            TypeNode::U32 => TypeNode::U32,
            TypeNode::S64 => TypeNode::S64,
            TypeNode::U64 => TypeNode::U64,
            TypeNode::Char => TypeNode::Char,
            TypeNode::String => TypeNode::String,
            TypeNode::List(element) => TypeNode::List(element.clone()?),
            TypeNode::FixedList { element, length } => TypeNode::FixedList {
                element: element.clone()?,
                length: *length,
            },
            TypeNode::Record(fields) => TypeNode::Record(fields.clone()?),
            TypeNode::Tuple(parts) => TypeNode::Tuple(parts.clone()?),
            TypeNode::Variant(cases) => TypeNode::Variant(cases.clone()?),
            TypeNode::Enum(labels) => TypeNode::Enum(labels.clone()?),
            TypeNode::Flags(labels) => TypeNode::Flags(labels.clone()?),
            TypeNode::Option(some) => TypeNode::Option(some.clone()?),
            TypeNode::Result { ok, error } => TypeNode::Result {
                ok: ok.clone()?,
                error: error.clone()?,
            },
            TypeNode::Own(id) => TypeNode::Own(*id),
            TypeNode::Borrow(id) => TypeNode::Borrow(*id),
        })
    }
}

/// A field of a record, or a parameter of a function.
#[cycle(types)]
#[derive(Drop)]
pub struct Field {
    pub label: Label,
    pub ty: TypeNode,
}

/// A case of a variant, with its payload, if it carries one.
#[cycle(types)]
#[derive(Drop)]
pub struct Case {
    pub label: Label,
    pub payload: Option<TypeNode>,
}

/// Why a type is refused, the most basic reason first.
#[derive(Clone, Copy, Debug, PartialEq, Eq, Error)]
pub enum TypeFault {
    /// The type has more than 10,000 nodes or is more than 64 deep.
    #[error("the type is too large")]
    TooLarge = 1,
    /// No file can spell the type.
    #[error("the type has no fields, no cases, no labels or too many, or no elements")]
    NotSpellable = 2,
}

impl TypeFault {
    /// The number by which the fault is known: 1 for `TooLarge`, 2 for `NotSpellable`.
    pub fn number(self) -> u8
        ensures { result ≡ type_fault_number self }
    {
        self as u8
    }
}

/// A type of at most 10,000 nodes that is at most 64 deep (the limits are this project's own
/// choice), and that a component file can spell: with one element or more in each list of fixed
/// length, one field or case or more in each record, tuple, variant and enum, and from 1 to 32
/// labels in each flags type (Binary.md, "Type Definitions").
///
/// A leaf has 1 node and depth 1. What holds other types has 1 node more than these have together,
/// and is 1 deeper than the deepest; a list of fixed length counts its element as often as it holds
/// it.
#[derive(Drop)]
pub struct TypeTree {
    pub root: TypeNode,
    pub ghost within_limits: { IsWithinLimits (type_of root) },
    pub ghost spellable: { is_spellable (type_of root) ≡ true },
}

impl TypeTree {
    ghost use Rattle.cm_types.specs.Funcs.{tree_type};

    /// The type with this root; `TooLarge` where it is not within the limits, else `NotSpellable`
    /// where no file can spell it, and the root is then let go. Neither takes more of the stack for
    /// a root that is deeper than the limit.
    pub fn new(root: TypeNode) -> Result<TypeTree, TypeFault>
        ensures root { IfOk result (λ tree. tree.root ≡ root) }
        ensures too_large { IsErrOf result TypeFault.TooLarge → ¬ (IsWithinLimits (type_of root)) }
        ensures not_spellable { IsErrOf result TypeFault.NotSpellable
            → IsWithinLimits (type_of root) × (is_spellable (type_of root) ≡ false) }
    {
        if nodes_within(&root, MAX_NODES, MAX_DEPTH).is_none() {
            dismantle(root);
            Err(TypeFault::TooLarge)
        } else if !is_spellable(&root) {
            Err(TypeFault::NotSpellable)
        } else {
            Ok(TypeTree { root })
        }
    }

    /// This type again, shared. `AllocError` comes where it is shared too often to be counted.
    pub fn share(&self) -> Result<TypeTree, AllocError>
        ensures { IfOk result (λ tree. tree_type tree ≡ tree_type self.now) }
    {
        let root = self.root.share()?;
        Ok(TypeTree { root })
    }
}

/// The type of a function with every index expanded: its parameters in order, and its result, if it
/// has one. The parameters are within the limits of one type as the fields of a tuple are, and a
/// file can spell the type of each.
#[derive(Drop)]
pub struct Func {
    pub params: Vec<Field>,
    pub result: Option<TypeTree>,
    pub ghost within_limits: { IsWithinLimits (fields tuple_type (fields_of params.items)) },
    pub ghost spellable: { are_spellable (fields_of params.items) ≡ true },
}

impl Func {
    /// The type of a function with these parameters and this result; `TooLarge` where the
    /// parameters are not within the limits as the fields of a tuple, else `NotSpellable` where no
    /// file can spell the type of one, and all is then let go. Neither takes more of the stack for
    /// a parameter that is deeper than the limit.
    pub fn new(params: Vec<Field>, answer: Option<TypeTree>) -> Result<Func, TypeFault>
        ensures params { IfOk result (λ func. func.params ≡ params) }
        ensures answer { IfOk result (λ func. func.result ≡ answer) }
        ensures too_large { IsErrOf result TypeFault.TooLarge
            → ¬ (IsWithinLimits (fields tuple_type (fields_of params.items))) }
        ensures not_spellable { IsErrOf result TypeFault.NotSpellable
            → IsWithinLimits (fields tuple_type (fields_of params.items))
            × (are_spellable (fields_of params.items) ≡ false) }
    {
        if nodes_of_fields_within(&params, MAX_NODES - 1, MAX_DEPTH - 1).is_none() {
            dismantle_fields(params);
            Err(TypeFault::TooLarge)
        } else if !are_spellable(&params) {
            Err(TypeFault::NotSpellable)
        } else {
            Ok(Func {
                params,
                result: answer,
            })
        }
    }
}
