//! Layouts of types, in one pass from the leaves up.

ghost use Rattle.std.specs.Prelude.{◌≡◌, ◌≤◌, IfOk, OnOk, List, Option, codes, ℕ};
ghost use Rattle.std.specs.Option.{option_map};
ghost use Rattle.cm_types.specs.Funcs.{func_of, tree_type};
ghost use Rattle.cm_types.specs.Limits.{nodes_of, nodes_of_cases, nodes_of_fields, payload_nodes};
ghost use Rattle.cm_types.specs.Types.{CasesKind, Ty, carrying, cases, fields, no_cases};
ghost use Rattle.cm_types.specs.Types.{option_type, plain, record_type, tuple_type, variant_type};
ghost use Rattle.cm_types.specs.TypeTrees.{case_before, cases_of, fields_of, parts_of};
ghost use Rattle.cm_types.specs.TypeTrees.{shared_payload, type_of};
ghost use Rattle.cm_layout.specs.Laid.{IsMarked, Laid};
ghost use Rattle.cm_layout.specs.Layouts.{layout_of, payload_of};
ghost use Rattle.cm_layout.specs.Shapes.{layout_at, layout_of_fields_at};

use crate::builders::{CasesBuilder, FieldsBuilder};
use crate::layouts::{HandleType, Layout, Leaf, Payload};
use cm_types::{Case, Field, Func, MAX_NODES, TypeNode, TypeTree};
use std::alloc::{AllocError, Global};
use std::rc::Rc;

/// The layout of a type and of all types in it. `AllocError` comes where there is no memory for it.
pub fn layout(alloc: Global, ty: &TypeTree) -> Result<Layout, AllocError>
    ensures value { IfOk result (λ l. layout_of l ≡ layout_at (tree_type ty.now)) }
    ensures laid { IfOk result (λ l. Laid (layout_of l).head.size (layout_of l).shape) }
    ensures marked { IfOk result (λ l. IsMarked (layout_of l).head (layout_of l).shape) }
{
    node_layout(alloc, &ty.root)
}

/// The layout of the parameters of a function, as that of the tuple of them, which is how they lie
/// in memory where they are passed by a pointer (CanonicalABI.md, "Flattening"). `AllocError` comes
/// where there is no memory for it.
pub fn layout_of_params(alloc: Global, func: &Func) -> Result<Layout, AllocError>
    ensures value { IfOk result (λ l. layout_of l ≡ layout_of_fields_at (func_of func.now).params) }
    ensures laid { IfOk result (λ l. Laid (layout_of l).head.size (layout_of l).shape) }
    ensures marked { IfOk result (λ l. IsMarked (layout_of l).head (layout_of l).shape) }
{
    layout_of_fields(alloc, &func.params)
}

/// The layout of fields of at most 10,000 nodes together, as that of the tuple of them.
/// `AllocError` comes where there is no memory for it.
pub fn layout_of_fields(alloc: Global, fields: &[Field]) -> Result<Layout, AllocError>
    requires within { nodes_of_fields (fields_of fields.now) ≤ MAX_NODES }
    ensures value { IfOk result (λ l. layout_of l ≡ layout_of_fields_at (fields_of fields.now)) }
    ensures laid { IfOk result (λ l. Laid (layout_of l).head.size (layout_of l).shape) }
    ensures marked { IfOk result (λ l. IsMarked (layout_of l).head (layout_of l).shape) }
{
    fields_layout(alloc, fields)
}

/// The layout of a type of at most 10,000 nodes.
#[cycle(layout)]
pub(crate) fn node_layout(alloc: Global, ty: &TypeNode) -> Result<Layout, AllocError>
    requires within { nodes_of (type_of ty.now) ≤ MAX_NODES }
    ensures { IfOk result (λ l. layout_of l ≡ layout_at (type_of ty.now)) }
{
    match ty {
        TypeNode::Bool => Ok(Layout::leaf(Leaf::Bool)),
        TypeNode::S8 => Ok(Layout::leaf(Leaf::Signed(1))),
        TypeNode::U8 => Ok(Layout::leaf(Leaf::Unsigned(1))),
        TypeNode::S16 => Ok(Layout::leaf(Leaf::Signed(2))),
        TypeNode::U16 => Ok(Layout::leaf(Leaf::Unsigned(2))),
        TypeNode::S32 => Ok(Layout::leaf(Leaf::Signed(4))),
        TypeNode::U32 => Ok(Layout::leaf(Leaf::Unsigned(4))),
        TypeNode::S64 => Ok(Layout::leaf(Leaf::Signed(8))),
        TypeNode::U64 => Ok(Layout::leaf(Leaf::Unsigned(8))),
        TypeNode::Char => Ok(Layout::leaf(Leaf::Char)),
        TypeNode::String => Ok(Layout::string()),
        TypeNode::List(element) => Layout::list(alloc, node_layout(alloc, element)?),
        TypeNode::FixedList { element, length } => {
            Layout::fixed_list(alloc, node_layout(alloc, element)?, *length)
        }
        TypeNode::Record(fields) => fields_layout(alloc, fields),
        TypeNode::Tuple(parts) => parts_layout(alloc, parts),
        TypeNode::Variant(cases) => cases_layout(alloc, cases),
        TypeNode::Enum(labels) => Ok(Layout::enumeration(labels.len())),
        TypeNode::Flags(labels) => Ok(Layout::flags(labels.len())),
        TypeNode::Option(some) => option_layout(alloc, some),
        TypeNode::Result { ok, error } => {
            let ok = shared_layout(alloc, ok)?;
            let error = shared_layout(alloc, error)?;
            two_cases(alloc, ok, error)
        }
        TypeNode::Own(resource) => Ok(Layout::handle(HandleType::Own(*resource))),
        TypeNode::Borrow(resource) => Ok(Layout::handle(HandleType::Borrow(*resource))),
    }
}

/// The layout of these fields as of the record or tuple of them, which has at most 10,000 nodes.
#[cycle(layout)]
pub(crate) fn fields_layout(alloc: Global, row: &[Field]) -> Result<Layout, AllocError>
    requires within { nodes_of_fields (fields_of row.now) ≤ MAX_NODES }
    ensures record { IfOk result (λ l.
        layout_of l ≡ layout_at (fields record_type (fields_of row.now))) }
    ensures tuple { IfOk result (λ l.
        layout_of l ≡ layout_at (fields tuple_type (fields_of row.now))) }
{
    let mut builder = FieldsBuilder::with_capacity(alloc, row.len())?;
    for field in row {
        builder.push(node_layout(alloc, &field.ty)?)?;
    }
    builder.finish(alloc)
}

#[cycle(layout)]
fn parts_layout(alloc: Global, row: &[TypeNode]) -> Result<Layout, AllocError>
    requires within { nodes_of_fields (parts_of row.now) ≤ MAX_NODES }
    ensures { IfOk result (λ l. layout_of l ≡ layout_at (fields tuple_type (parts_of row.now))) }
{
    let mut builder = FieldsBuilder::with_capacity(alloc, row.len())?;
    for part in row {
        builder.push(node_layout(alloc, part)?)?;
    }
    builder.finish(alloc)
}

#[cycle(layout)]
fn cases_layout(alloc: Global, row: &[Case]) -> Result<Layout, AllocError>
    requires within { nodes_of_cases (cases_of row.now) ≤ MAX_NODES }
    ensures { IfOk result (λ l. layout_of l ≡ layout_at (cases variant_type (cases_of row.now))) }
{
    let mut builder = CasesBuilder::with_capacity(alloc, row.len())?;
    for case in row {
        builder.push(payload_layout(alloc, &case.payload)?)?;
    }
    builder.finish(alloc)
}

#[cycle(layout)]
fn payload_layout(alloc: Global, payload: &Option<TypeNode>) -> Result<Payload, AllocError>
    requires within { payload_nodes (option_map type_of payload.now) ≤ MAX_NODES }
    ensures { IfOk result (λ p.
        payload_of p ≡ option_map layout_at (option_map type_of payload.now)) }
{
    match payload {
        Some(ty) => Ok(Payload::Carried(node_layout(alloc, ty)?)),
        None => Ok(Payload::Nothing),
    }
}

#[cycle(layout)]
fn shared_layout(alloc: Global, payload: &Option<Rc<TypeNode>>) -> Result<Payload, AllocError>
    requires within { payload_nodes (shared_payload payload.now) ≤ MAX_NODES }
    ensures { IfOk result (λ p. payload_of p ≡ option_map layout_at (shared_payload payload.now)) }
{
    match payload {
        Some(ty) => Ok(Payload::Carried(node_layout(alloc, ty)?)),
        None => Ok(Payload::Nothing),
    }
}

#[cycle(layout)]
fn option_layout(alloc: Global, some: &TypeNode) -> Result<Layout, AllocError>
    requires within { nodes_of (type_of some.now) ≤ MAX_NODES }
    ensures { IfOk result (λ l. layout_of l ≡ layout_at (cases option_type
        (plain (codes "none") (carrying (codes "some") (type_of some.now) no_cases)))) }
{
    let some = node_layout(alloc, some)?;
    two_cases(alloc, Payload::Nothing, Payload::Carried(some))
}

/// The layout of two cases whose payloads have at most 10,000 nodes together.
fn two_cases(alloc: Global, first: Payload, second: Payload) -> Result<Layout, AllocError>
    requires within { (l : List ℕ) × (m : List ℕ) × (p : Option Ty) × (q : Option Ty)
        × (nodes_of_cases (case_before l p (case_before m q no_cases)) ≤ MAX_NODES)
        × (payload_of first ≡ option_map layout_at p)
        × (payload_of second ≡ option_map layout_at q) }
    ensures { IfOk result (λ x. (k : CasesKind) (l m : List ℕ) (p q : Option Ty)
        → nodes_of_cases (case_before l p (case_before m q no_cases)) ≤ MAX_NODES
        → payload_of first ≡ option_map layout_at p → payload_of second ≡ option_map layout_at q
        → layout_of x ≡ layout_at (cases k (case_before l p (case_before m q no_cases)))) }
{
    let mut builder = CasesBuilder::with_capacity(alloc, 2)?;
    builder.push(first)?;
    builder.push(second)?;
    builder.finish(alloc)
}
