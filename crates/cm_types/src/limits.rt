//! How large a type is, counted no further than its limits.

ghost use Rattle.std.specs.Prelude.{◌*◌, ◌≤◌, max};
ghost use Rattle.std.specs.Option.{SomeIff, option_map};
ghost use Rattle.cm_types.specs.TypeTrees.{cases_of, fields_of, parts_of, shared_payload, type_of};
ghost use Rattle.cm_types.specs.Limits.{AreCasesWithin, AreFieldsWithin, IsPayloadWithin, IsWithin};
ghost use Rattle.cm_types.specs.Limits.{nodes_of, nodes_of_cases, nodes_of_fields, payload_nodes};

use crate::type_trees::{Case, Field, TypeNode};
use std::rc::Rc;

/// The most nodes that a type may have.
pub const MAX_NODES: u32 = 10_000;

/// The depth that a type may have.
pub const MAX_DEPTH: u32 = 64;

/// The most core values that the parameters of a function are passed as (CanonicalABI.md,
/// `MAX_FLAT_PARAMS`).
pub const MAX_FLAT_PARAMS: usize = 16;

/// The most core values that a function's result is passed as (CanonicalABI.md,
/// `MAX_FLAT_RESULTS`).
pub const MAX_FLAT_RESULTS: usize = 1;

/// The number of nodes of a type that has at most `most` nodes and is at most `depth` deep; none
/// for another. It looks at no more than `most` nodes, however often one is shared, and takes no
/// more of the stack than `depth` levels do.
#[cycle(within)]
#[tactic(auto, using(crate::proofs::Nodes::within))]
pub(crate) fn nodes_within(ty: &TypeNode, most: u32, depth: u32) -> Option<u32>
    ensures { SomeIff result (IsWithin most depth (type_of ty.now)) (nodes_of (type_of ty.now)) }
{
    if most == 0 || depth == 0 {
        return None;
    }
    let most = most - 1;
    let depth = depth - 1;
    match ty {
        TypeNode::List(element) | TypeNode::Option(element) => {
            let below = nodes_within(element, most, depth)?;
            Some(1 + below)
        }
        TypeNode::FixedList { element, length } => {
            let below = nodes_within(element, most, depth)?;
            let all = times_within(below, *length, most)?;
            Some(1 + all)
        }
        TypeNode::Record(fields) => {
            let below = nodes_of_fields_within(fields, most, depth)?;
            Some(1 + below)
        }
        TypeNode::Tuple(parts) => {
            let below = nodes_of_parts_within(parts, most, depth)?;
            Some(1 + below)
        }
        TypeNode::Variant(cases) => {
            let below = nodes_of_cases_within(cases, most, depth)?;
            Some(1 + below)
        }
        TypeNode::Result { ok, error } => {
            let first = nodes_of_payload_within(ok, most, depth)?;
            let second = nodes_of_payload_within(error, most - first, depth)?;
            Some(1 + first + second)
        }
        TypeNode::Bool
        | TypeNode::S8
        | TypeNode::U8
        | TypeNode::S16
        | TypeNode::U16
        | TypeNode::S32
        | TypeNode::U32
        | TypeNode::S64
        | TypeNode::U64
        | TypeNode::Char
        | TypeNode::String
        | TypeNode::Flags(_)
        | TypeNode::Own(_)
        | TypeNode::Borrow(_) => Some(1),
        TypeNode::Enum(_) => Some(1),
    }
}

/// So many nodes `length` times over, and once where `length` is 0, if that is at most `most`.
fn times_within(nodes: u32, length: u32, most: u32) -> Option<u32>
    ensures { SomeIff result (max length 1 * nodes ≤ most) (max length 1 * nodes) }
{
    let all = u64::from(length.max(1)) * u64::from(nodes);
    if all <= u64::from(most) {
        Some(all as u32)
    } else {
        None
    }
}

#[cycle(within)]
fn nodes_of_payload_within(payload: &Option<Rc<TypeNode>>, most: u32, depth: u32) -> Option<u32>
    ensures { SomeIff result (IsPayloadWithin most depth (shared_payload payload.now))
        (payload_nodes (shared_payload payload.now)) }
{
    match payload {
        Some(ty) => nodes_within(ty, most, depth),
        None => Some(0),
    }
}

/// The number of nodes that fields have together, if it is at most `most` and none is more than
/// `depth` deep.
#[cycle(within)]
pub(crate) fn nodes_of_fields_within(fields: &[Field], most: u32, depth: u32) -> Option<u32>
    ensures { SomeIff result (AreFieldsWithin most depth (fields_of fields.now))
        (nodes_of_fields (fields_of fields.now)) }
{
    let mut count = 0;
    for field in fields {
        let more = nodes_within(&field.ty, most - count, depth)?;
        count += more;
    }
    Some(count)
}

#[cycle(within)]
fn nodes_of_parts_within(parts: &[TypeNode], most: u32, depth: u32) -> Option<u32>
    ensures { SomeIff result (AreFieldsWithin most depth (parts_of parts.now))
        (nodes_of_fields (parts_of parts.now)) }
{
    let mut count = 0;
    for part in parts {
        let more = nodes_within(part, most - count, depth)?;
        count += more;
    }
    Some(count)
}

#[cycle(within)]
fn nodes_of_cases_within(cases: &[Case], most: u32, depth: u32) -> Option<u32>
    ensures { SomeIff result (AreCasesWithin most depth (cases_of cases.now))
        (nodes_of_cases (cases_of cases.now)) }
{
    let mut count = 0;
    for case in cases {
        let more = nodes_of_case_within(&case.payload, most - count, depth)?;
        count += more;
    }
    Some(count)
}

#[cycle(within)]
fn nodes_of_case_within(payload: &Option<TypeNode>, most: u32, depth: u32) -> Option<u32>
    ensures { SomeIff result (IsPayloadWithin most depth (option_map type_of payload.now))
        (payload_nodes (option_map type_of payload.now)) }
{
    match payload {
        Some(ty) => nodes_within(ty, most, depth),
        None => Some(0),
    }
}
