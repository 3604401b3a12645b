//! The layout of a type from those of what it holds, which stand at places: nothing below them is
//! walked.

ghost use Rattle.std.specs.Prelude.{◌≡◌, ◌≤◌, ◌<◌, IfOk, List, Option, length, map, ℕ};
ghost use Rattle.std.specs.Prelude.{◌∷◌, [], is_some};
ghost use Rattle.std.specs.Option.{option_map};
ghost use Rattle.cm_types.specs.Limits.{nodes_of, nodes_of_cases, nodes_of_fields};
ghost use Rattle.cm_types.specs.Types.{Cases, CasesKind, Fields, FieldsKind, Ty, cases, fields};
ghost use Rattle.cm_types.specs.Types.{no_cases, option_type, result_type};
ghost use Rattle.cm_types.specs.Types.{variant_type};
ghost use Rattle.cm_types.specs.TypeTrees.{case_before, cases_of, type_of};
ghost use Rattle.cm_layout.specs.Layouts.{layout_of, payload_of};
ghost use Rattle.cm_layout.specs.Shapes.{layout_at};
ghost use Rattle.cm_types_arena.specs.Arena.{field_types, parts_in, payload_types};
ghost use Rattle.cm_types_arena.specs.Replaced.{Standing, replaced, replaced_cases};
ghost use Rattle.cm_layout_placed.specs.Placed.{AreOf, IsNth, option_cases, result_cases};

use crate::placed::{share_at, share_nth};
use cm_layout::{CasesBuilder, FieldsBuilder, HandleType, Layout, Leaf, Payload};
use cm_types::{Case, MAX_NODES, TypeNode};
use cm_types_arena::Replacement;
use std::alloc::{AllocError, Global};

/// The layout of a type of at most 10,000 nodes with its resources replaced, of which those of the
/// parts stand at these places.
pub(crate) fn node_layout<R: Replacement>(
    alloc: Global,
    node: &TypeNode,
    places: &[usize],
    layouts: &[Layout],
    by: &R,
) -> Result<Layout, AllocError>
    requires within { nodes_of (replaced (R.replacement by.now) (type_of node.now)) ≤ MAX_NODES }
    requires parts { AreOf (map layout_of layouts.now) places.now
        (parts_in (replaced (R.replacement by.now) (type_of node.now))) }
    ensures { IfOk result (λ l.
        layout_of l ≡ layout_at (replaced (R.replacement by.now) (type_of node.now))) }
{
    match node {
        TypeNode::Bool => Ok(Layout::leaf(Leaf::Bool)),
        TypeNode::S8 => Ok(Layout::leaf(Leaf::Signed(1))),
        TypeNode::U8 => Ok(Layout::leaf(Leaf::Unsigned(1))),
        TypeNode::S16 => Ok(Layout::leaf(Leaf::Signed(2))),
        TypeNode::U16 => Ok(Layout::leaf(Leaf::Unsigned(2))),
        TypeNode::S32 => Ok(Layout::leaf(Leaf::Signed(4))),
        TypeNode::U32 => Ok(Layout::leaf(Leaf::Unsigned(4))),
        TypeNode::S64 => Ok(Layout::leaf(Leaf::Signed(8))),
        TypeNode::U64 => Ok(Layout::leaf(Leaf::Unsigned(8))),
        TypeNode::Char => Ok(Layout::leaf(Leaf::Char)),
        TypeNode::String => Ok(Layout::string()),
        TypeNode::List(_) => Layout::list(alloc, share_nth(layouts, places, 0)?),
        TypeNode::FixedList { length, .. } => {
            Layout::fixed_list(alloc, share_nth(layouts, places, 0)?, *length)
        }
        TypeNode::Record(_fields) => fields_layout(alloc, places, layouts),
        TypeNode::Tuple(_parts) => fields_layout(alloc, places, layouts),
        TypeNode::Variant(cases) => cases_layout(alloc, cases, places, layouts),
        TypeNode::Enum(labels) => Ok(Layout::enumeration(labels.len())),
        TypeNode::Flags(labels) => Ok(Layout::flags(labels.len())),
        TypeNode::Option(_) => option_layout(alloc, places, layouts),
        TypeNode::Result { ok, error } => {
            result_layout(alloc, ok.is_some(), error.is_some(), places, layouts)
        }
        TypeNode::Own(resource) => Ok(Layout::handle(HandleType::Own(by.replace(*resource)))),
        TypeNode::Borrow(resource) => {
            Ok(Layout::handle(HandleType::Borrow(by.replace(*resource))))
        }
    }
}

/// The layout of the record or tuple of fields of at most 10,000 nodes, whose layouts stand at
/// these places.
pub(crate) fn fields_layout(
    alloc: Global,
    places: &[usize],
    layouts: &[Layout],
) -> Result<Layout, AllocError>
    requires { (all : Fields) × (nodes_of_fields all ≤ MAX_NODES)
        × AreOf (map layout_of layouts.now) places.now (field_types all) }
    ensures { IfOk result (λ l. (k : FieldsKind) (all : Fields) → nodes_of_fields all ≤ MAX_NODES
        → AreOf (map layout_of layouts.now) places.now (field_types all)
        → layout_of l ≡ layout_at (fields k all)) }
{
    let mut builder = FieldsBuilder::with_capacity(alloc, places.len())?;
    for place in places {
        builder.push(share_at(layouts, *place)?)?;
    }
    builder.finish(alloc)
}

/// What a case carries, if it carries anything: what stands at the place of this number.
fn payload_at(
    layouts: &[Layout],
    places: &[usize],
    number: usize,
    is_carried: bool,
) -> Result<Payload, AllocError>
    requires { (types : List Ty) × (payload : Option Ty)
        × AreOf (map layout_of layouts.now) places.now types
        × (is_some payload ≡ is_carried) × IsNth types number payload }
    ensures { IfOk result (λ p. (types : List Ty) (payload : Option Ty)
        → AreOf (map layout_of layouts.now) places.now types
        → is_some payload ≡ is_carried → IsNth types number payload
        → payload_of p ≡ option_map layout_at payload) }
{
    if is_carried {
        Ok(Payload::Carried(share_nth(layouts, places, number)?))
    } else {
        Ok(Payload::Nothing)
    }
}

/// The layout of the variant of cases of at most 10,000 nodes together, with resources replaced, of
/// which those that carry anything have the layouts of it at these places, in order.
fn cases_layout(
    alloc: Global,
    row: &[Case],
    places: &[usize],
    layouts: &[Layout],
) -> Result<Layout, AllocError>
    requires { (s : Standing) × (nodes_of_cases (replaced_cases s (cases_of row.now)) ≤ MAX_NODES)
        × AreOf (map layout_of layouts.now) places.now
        (payload_types (replaced_cases s (cases_of row.now))) }
    ensures { IfOk result (λ l. (s : Standing)
        → nodes_of_cases (replaced_cases s (cases_of row.now)) ≤ MAX_NODES
        → AreOf (map layout_of layouts.now) places.now
        (payload_types (replaced_cases s (cases_of row.now)))
        → layout_of l ≡ layout_at (cases variant_type (replaced_cases s (cases_of row.now)))) }
{
    let mut builder = CasesBuilder::with_capacity(alloc, row.len())?;
    let mut next = 0;
    for case in row {
        let is_carried = case.payload.is_some();
        builder.push(payload_at(layouts, places, next, is_carried)?)?;
        if is_carried {
            next += 1;
        }
    }
    builder.finish(alloc)
}

/// The layout of an option of at most 10,000 nodes, whose payload has its layout at the one place.
fn option_layout(alloc: Global, places: &[usize], layouts: &[Layout]) -> Result<Layout, AllocError>
    requires { (some : Ty) × (nodes_of (cases option_type (option_cases some)) ≤ MAX_NODES)
        × AreOf (map layout_of layouts.now) places.now (some ∷ []) }
    ensures { IfOk result (λ l. (some : Ty)
        → nodes_of (cases option_type (option_cases some)) ≤ MAX_NODES
        → AreOf (map layout_of layouts.now) places.now (some ∷ [])
        → layout_of l ≡ layout_at (cases option_type (option_cases some))) }
{
    let some = share_nth(layouts, places, 0)?;
    two_cases(alloc, Payload::Nothing, Payload::Carried(some))
}

/// The layout of a result of at most 10,000 nodes, of which those of what is carried where all went
/// well, if anything is, and of the error, if there is one, stand at these places.
fn result_layout(
    alloc: Global,
    has_ok: bool,
    has_error: bool,
    places: &[usize],
    layouts: &[Layout],
) -> Result<Layout, AllocError>
    requires { (ok : Option Ty) × (error : Option Ty)
        × (nodes_of (cases result_type (result_cases ok error)) ≤ MAX_NODES)
        × (is_some ok ≡ has_ok) × (is_some error ≡ has_error)
        × AreOf (map layout_of layouts.now) places.now (payload_types (result_cases ok error)) }
    ensures { IfOk result (λ l. (ok error : Option Ty)
        → nodes_of (cases result_type (result_cases ok error)) ≤ MAX_NODES
        → is_some ok ≡ has_ok → is_some error ≡ has_error
        → AreOf (map layout_of layouts.now) places.now (payload_types (result_cases ok error))
        → layout_of l ≡ layout_at (cases result_type (result_cases ok error))) }
{
    let first = payload_at(layouts, places, 0, has_ok)?;
    let behind = if has_ok { 1 } else { 0 };
    let second = payload_at(layouts, places, behind, has_error)?;
    two_cases(alloc, first, second)
}

/// The layout of two cases whose payloads have at most 10,000 nodes together.
fn two_cases(alloc: Global, first: Payload, second: Payload) -> Result<Layout, AllocError>
    requires within { (l : List ℕ) × (m : List ℕ) × (p : Option Ty) × (q : Option Ty)
        × (nodes_of_cases (case_before l p (case_before m q no_cases)) ≤ MAX_NODES)
        × (payload_of first ≡ option_map layout_at p)
        × (payload_of second ≡ option_map layout_at q) }
    ensures { IfOk result (λ x. (k : CasesKind) (l m : List ℕ) (p q : Option Ty)
        → nodes_of_cases (case_before l p (case_before m q no_cases)) ≤ MAX_NODES
        → payload_of first ≡ option_map layout_at p → payload_of second ≡ option_map layout_at q
        → layout_of x ≡ layout_at (cases k (case_before l p (case_before m q no_cases)))) }
{
    let mut builder = CasesBuilder::with_capacity(alloc, 2)?;
    builder.push(first)?;
    builder.push(second)?;
    builder.finish(alloc)
}
