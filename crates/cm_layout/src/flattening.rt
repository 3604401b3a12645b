//! The core values that a value is passed as, each written once: what cases carry is joined in the
//! list where it is to stand.

ghost use Rattle.std.specs.Prelude.{◌≡◌, ◌+◌, ◌∷◌, ◌≤◌, [], IfOk, length};
ghost use Rattle.std.specs.Option.{option_map};
ghost use Rattle.cm_types.specs.TypeTrees.{cases_of, fields_of, parts_of, shared_payload, type_of};
ghost use Rattle.cm_layout.specs.Flattening.{copies, flat_of, flat_of_cases, flat_of_fields};
ghost use Rattle.cm_layout.specs.Flattening.{JoinedFrom, flat_of_payload, join};

use cm_types::{Case, CoreKind, Field, TypeNode};
use std::alloc::AllocError;
use std::rc::Rc;

fn join(a: CoreKind, b: CoreKind) -> CoreKind
    ensures { result ≡ join a b }
{
    match a {
        CoreKind::I32 => b,
        CoreKind::I64 => CoreKind::I64,
    }
}

/// Joins one core value into the slot `at`, and answers the next slot.
#[tactic(auto, using(crate::proofs::FlatLemmas::flats))]
fn join_kind(kinds: &mut Vec<CoreKind>, at: usize, kind: CoreKind) -> Result<usize, AllocError>
    requires { at ≤ length kinds.old.items }
    ensures { IfOk result (JoinedFrom at kinds.old.items (kind ∷ []) kinds.new.items) }
{
    if at < kinds.len() {
        kinds[at] = join(kinds[at], kind);
    } else {
        kinds.push(kind)?;
    }
    Ok(at + 1)
}

/// Joins the core values of a type into the slots from `at` on, and answers where they end.
#[cycle(flat)]
#[tactic(auto, using(crate::proofs::FlatLemmas::flats))]
pub(crate) fn join_flat(
    kinds: &mut Vec<CoreKind>,
    at: usize,
    ty: &TypeNode,
) -> Result<usize, AllocError>
    requires { at ≤ length kinds.old.items }
    ensures { IfOk result
        (JoinedFrom at kinds.old.items (flat_of (type_of ty.now)) kinds.new.items) }
{
    match ty {
        TypeNode::S64 | TypeNode::U64 => join_kind(kinds, at, CoreKind::I64),
        TypeNode::String | TypeNode::List(_) => join_pair(kinds, at),
        TypeNode::FixedList { element, length } => join_copies(kinds, at, element, *length),
        TypeNode::Record(fields) => join_fields(kinds, at, fields),
        TypeNode::Tuple(parts) => join_parts(kinds, at, parts),
        TypeNode::Variant(cases) => {
            let payload = join_kind(kinds, at, CoreKind::I32)?;
            join_cases(kinds, payload, cases)
        }
        TypeNode::Option(some) => {
            let payload = join_kind(kinds, at, CoreKind::I32)?;
            join_flat(kinds, payload, some)
        }
        TypeNode::Result { ok, error } => {
            let payload = join_kind(kinds, at, CoreKind::I32)?;
            let ok_end = join_shared(kinds, payload, ok)?;
            let error_end = join_shared(kinds, payload, error)?;
            Ok(ok_end.max(error_end))
        }
        TypeNode::Bool
        | TypeNode::S8
        | TypeNode::U8
        | TypeNode::S16
        | TypeNode::U16
        | TypeNode::S32
        | TypeNode::U32
        | TypeNode::Char
        | TypeNode::Flags(_)
        | TypeNode::Own(_)
        | TypeNode::Borrow(_) => join_kind(kinds, at, CoreKind::I32),
        TypeNode::Enum(_) => join_kind(kinds, at, CoreKind::I32),
    }
}

/// Joins a pointer and a length.
#[tactic(auto, using(crate::proofs::FlatLemmas::flats))]
fn join_pair(kinds: &mut Vec<CoreKind>, at: usize) -> Result<usize, AllocError>
    requires { at ≤ length kinds.old.items }
    ensures { IfOk result
        (JoinedFrom at kinds.old.items (CoreKind.I32 ∷ CoreKind.I32 ∷ []) kinds.new.items) }
{
    let next = join_kind(kinds, at, CoreKind::I32)?;
    join_kind(kinds, next, CoreKind::I32)
}

#[cycle(flat)]
#[tactic(auto, using(crate::proofs::FlatLemmas::flats))]
fn join_copies(
    kinds: &mut Vec<CoreKind>,
    at: usize,
    element: &TypeNode,
    count: u32,
) -> Result<usize, AllocError>
    requires { at ≤ length kinds.old.items }
    ensures { IfOk result (JoinedFrom at kinds.old.items
        (copies count (flat_of (type_of element.now))) kinds.new.items) }
{
    let mut end = at;
    for _copy in 0..count {
        end = join_flat(kinds, end, element)?;
    }
    Ok(end)
}

/// Joins the core values of fields.
#[cycle(flat)]
#[tactic(auto, using(crate::proofs::FlatLemmas::flats))]
pub(crate) fn join_fields(
    kinds: &mut Vec<CoreKind>,
    at: usize,
    row: &[Field],
) -> Result<usize, AllocError>
    requires { at ≤ length kinds.old.items }
    ensures { IfOk result
        (JoinedFrom at kinds.old.items (flat_of_fields (fields_of row.now)) kinds.new.items) }
{
    let mut end = at;
    for field in row {
        end = join_flat(kinds, end, &field.ty)?;
    }
    Ok(end)
}

#[cycle(flat)]
#[tactic(auto, using(crate::proofs::FlatLemmas::flats))]
fn join_parts(kinds: &mut Vec<CoreKind>, at: usize, row: &[TypeNode]) -> Result<usize, AllocError>
    requires { at ≤ length kinds.old.items }
    ensures { IfOk result
        (JoinedFrom at kinds.old.items (flat_of_fields (parts_of row.now)) kinds.new.items) }
{
    let mut end = at;
    for part in row {
        end = join_flat(kinds, end, part)?;
    }
    Ok(end)
}

#[cycle(flat)]
#[tactic(auto, using(crate::proofs::FlatLemmas::flats))]
fn join_cases(kinds: &mut Vec<CoreKind>, at: usize, row: &[Case]) -> Result<usize, AllocError>
    requires { at ≤ length kinds.old.items }
    ensures { IfOk result
        (JoinedFrom at kinds.old.items (flat_of_cases (cases_of row.now)) kinds.new.items) }
{
    let mut end = at;
    for case in row {
        end = end.max(join_payload(kinds, at, &case.payload)?);
    }
    Ok(end)
}

#[cycle(flat)]
#[tactic(auto, using(crate::proofs::FlatLemmas::flats))]
fn join_payload(
    kinds: &mut Vec<CoreKind>,
    at: usize,
    payload: &Option<TypeNode>,
) -> Result<usize, AllocError>
    requires { at ≤ length kinds.old.items }
    ensures { IfOk result (JoinedFrom at kinds.old.items
        (flat_of_payload (option_map type_of payload.now)) kinds.new.items) }
{
    match payload {
        Some(ty) => join_flat(kinds, at, ty),
        None => Ok(at),
    }
}

#[cycle(flat)]
#[tactic(auto, using(crate::proofs::FlatLemmas::flats))]
fn join_shared(
    kinds: &mut Vec<CoreKind>,
    at: usize,
    payload: &Option<Rc<TypeNode>>,
) -> Result<usize, AllocError>
    requires { at ≤ length kinds.old.items }
    ensures { IfOk result (JoinedFrom at kinds.old.items
        (flat_of_payload (shared_payload payload.now)) kinds.new.items) }
{
    match payload {
        Some(ty) => join_flat(kinds, at, ty),
        None => Ok(at),
    }
}
