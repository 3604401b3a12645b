//! What types take, in one pass and without memory.

ghost use Rattle.std.specs.Prelude.{◌≡◌, ◌≤◌, ◌+◌, ◌*◌, codes, max};
ghost use Rattle.std.specs.Option.{option_map};
ghost use Rattle.cm_types.specs.Limits.{nodes_of, nodes_of_cases, nodes_of_fields, payload_nodes};
ghost use Rattle.cm_types.specs.Types.{Ty, Cases, carrying, cases, enum_type, fields, fixed_list};
ghost use Rattle.cm_types.specs.Types.{flags, no_cases, option_type, plain, record_type};
ghost use Rattle.cm_types.specs.Types.{result_type, tuple_type, variant_type};
ghost use Rattle.cm_types.specs.TypeTrees.{case_before, cases_of, fields_of, parts_of, plain_from};
ghost use Rattle.cm_types.specs.TypeTrees.{shared_payload, type_of};
ghost use Rattle.cm_layout.specs.Heads.{AreGreatestOf, IsTakenBy, TakeTogether};

use crate::cases::CasesSoFar;
use crate::fields::FieldsSoFar;
use crate::heads::{Head, discriminant_size, flags_size};
use cm_types::{Case, Field, Label, MAX_NODES, TypeNode};
use std::rc::Rc;

/// What a type of at most 10,000 nodes takes.
#[cycle(heads)]
#[tactic(auto, using(crate::proofs::HeadLaws::heads))]
pub(crate) fn node_head(ty: &TypeNode) -> Head
    requires within { nodes_of (type_of ty.now) ≤ MAX_NODES }
    ensures { IsTakenBy (type_of ty.now) result }
{
    match ty {
        TypeNode::Bool => Head::unit(1),
        TypeNode::S8 | TypeNode::U8 => Head::number(1),
        TypeNode::S16 | TypeNode::U16 => Head::number(2),
        TypeNode::S32 | TypeNode::U32 => Head::number(4),
        TypeNode::S64 | TypeNode::U64 => Head::number(8),
        TypeNode::Char | TypeNode::Own(_) | TypeNode::Borrow(_) => Head::unit(4),
        TypeNode::String | TypeNode::List(_) => Head::pointer_and_length(),
        TypeNode::FixedList { element, length } => fixed_list_head(element, *length),
        TypeNode::Record(fields) => fields_so_far(fields).whole(),
        TypeNode::Tuple(parts) => parts_so_far(parts).whole(),
        TypeNode::Variant(cases) => cases_head(cases),
        TypeNode::Enum(labels) => enum_head(labels),
        TypeNode::Flags(labels) => flags_head(labels),
        TypeNode::Option(some) => option_head(some),
        TypeNode::Result { ok, error } => shared_so_far(ok).beside(shared_so_far(error)).whole(1),
    }
}

#[cycle(heads)]
#[tactic(auto, using(crate::proofs::HeadLaws::heads))]
fn fixed_list_head(element: &TypeNode, count: u32) -> Head
    requires within { nodes_of (fixed_list (type_of element.now) count) ≤ MAX_NODES }
    ensures { IsTakenBy (fixed_list (type_of element.now) count) result }
{
    node_head(element).repeated(count)
}

/// What these fields take, which have at most 10,000 nodes.
#[cycle(heads)]
#[tactic(auto, using(crate::proofs::HeadLaws::heads))]
pub(crate) fn fields_so_far(row: &[Field]) -> FieldsSoFar
    requires within { nodes_of_fields (fields_of row.now) ≤ MAX_NODES }
    ensures { TakeTogether (fields_of row.now) result }
{
    let mut so_far = FieldsSoFar::none();
    for field in row {
        so_far.push(node_head(&field.ty));
    }
    so_far
}

/// What the fields of this tuple take, which have at most 10,000 nodes.
#[cycle(heads)]
#[tactic(auto, using(crate::proofs::HeadLaws::heads))]
pub(crate) fn parts_so_far(row: &[TypeNode]) -> FieldsSoFar
    requires within { nodes_of_fields (parts_of row.now) ≤ MAX_NODES }
    ensures { TakeTogether (parts_of row.now) result }
{
    let mut so_far = FieldsSoFar::none();
    for part in row {
        so_far.push(node_head(part));
    }
    so_far
}

#[cycle(heads)]
#[tactic(auto, using(crate::proofs::HeadLaws::heads))]
fn cases_head(row: &[Case]) -> Head
    requires within { nodes_of (cases variant_type (cases_of row.now)) ≤ MAX_NODES }
    ensures { IsTakenBy (cases variant_type (cases_of row.now)) result }
{
    cases_so_far(row).whole(discriminant_size(row.len()))
}

#[cycle(heads)]
#[tactic(auto, using(crate::proofs::HeadLaws::heads))]
pub(crate) fn cases_so_far(row: &[Case]) -> CasesSoFar
    requires within { nodes_of_cases (cases_of row.now) ≤ MAX_NODES }
    ensures { AreGreatestOf (cases_of row.now) result }
{
    let mut so_far = CasesSoFar::none();
    for case in row {
        so_far = so_far.beside(payload_so_far(&case.payload));
    }
    so_far
}

#[cycle(heads)]
#[tactic(auto, using(crate::proofs::HeadLaws::heads))]
fn option_head(some: &TypeNode) -> Head
    requires within { nodes_of (type_of some.now) + 1 ≤ MAX_NODES }
    ensures { IsTakenBy
        (cases option_type
        (plain (codes "none") (carrying (codes "some") (type_of some.now) no_cases)))
        result }
{
    CasesSoFar::none().with(node_head(some)).whole(1)
}

#[cycle(heads)]
#[tactic(auto, using(crate::proofs::HeadLaws::heads))]
pub(crate) fn shared_so_far(payload: &Option<Rc<TypeNode>>) -> CasesSoFar
    requires within { payload_nodes (shared_payload payload.now) ≤ MAX_NODES }
    ensures { AreGreatestOf (case_before (codes "") (shared_payload payload.now) no_cases) result }
{
    match payload {
        Some(ty) => CasesSoFar::none().with(node_head(ty)),
        None => CasesSoFar::none(),
    }
}

#[cycle(heads)]
#[tactic(auto, using(crate::proofs::HeadLaws::heads))]
fn payload_so_far(payload: &Option<TypeNode>) -> CasesSoFar
    requires within { payload_nodes (option_map type_of payload.now) ≤ MAX_NODES }
    ensures { AreGreatestOf
        (case_before (codes "") (option_map type_of payload.now) no_cases) result }
{
    match payload {
        Some(ty) => CasesSoFar::none().with(node_head(ty)),
        None => CasesSoFar::none(),
    }
}

/// What an enum with these labels takes.
#[tactic(auto, using(crate::proofs::HeadLaws::heads))]
pub(crate) fn enum_head(labels: &[Label]) -> Head
    ensures { IsTakenBy (cases enum_type (plain_from labels.now)) result }
{
    Head::unit(discriminant_size(labels.len()))
}

/// What a set of these labels takes.
#[tactic(auto, using(crate::proofs::HeadLaws::heads))]
pub(crate) fn flags_head(labels: &[Label]) -> Head
    ensures { IsTakenBy (flags labels.now) result }
{
    Head::unit(flags_size(labels.len()))
}
