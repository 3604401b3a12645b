//! Types as a host sees them: each handle is an index.

ghost use Rattle.std.specs.Prelude.{◌≡◌, IfOk, map};
ghost use Rattle.std.specs.Option.{option_map};
ghost use Rattle.cm_types.specs.TypeTrees.{case_of, field_of, shared_payload, type_of};
ghost use Rattle.cm_host_values.specs.Indexed.{indexed, indexed_case, indexed_field};

use cm_types::{Case, Field, TypeNode};
use std::alloc::{AllocError, Global};
use std::rc::Rc;

/// A type with the type u32 in the place of each handle.
#[cycle(indexed)]
#[tactic(auto, using(crate::proofs::IndexedLemmas::indexed_laws))]
pub(crate) fn indexed_node(alloc: Global, ty: &TypeNode) -> Result<TypeNode, AllocError>
    ensures { IfOk result (λ node. type_of node ≡ indexed (type_of ty.now)) }
{
    match ty {
        TypeNode::Bool => Ok(TypeNode::Bool),
        TypeNode::S8 => Ok(TypeNode::S8),
        TypeNode::U8 => Ok(TypeNode::U8),
        TypeNode::S16 => Ok(TypeNode::S16),
        TypeNode::U16 => Ok(TypeNode::U16),
        TypeNode::S32 => Ok(TypeNode::S32),
        TypeNode::U32 => Ok(TypeNode::U32),
        TypeNode::S64 => Ok(TypeNode::S64),
        TypeNode::U64 => Ok(TypeNode::U64),
        TypeNode::Char => Ok(TypeNode::Char),
        TypeNode::String => Ok(TypeNode::String),
        TypeNode::List(element) => Ok(TypeNode::List(shared(alloc, element)?)),
        TypeNode::FixedList { element, length } => Ok(TypeNode::FixedList {
            element: shared(alloc, element)?,
            length: *length,
        }),
        TypeNode::Record(fields) => {
            Ok(TypeNode::Record(Rc::new(alloc, indexed_fields(alloc, fields)?)?))
        }
        TypeNode::Tuple(parts) => {
            Ok(TypeNode::Tuple(Rc::new(alloc, indexed_parts(alloc, parts)?)?))
        }
        TypeNode::Variant(cases) => {
            Ok(TypeNode::Variant(Rc::new(alloc, indexed_cases(alloc, cases)?)?))
        }
        TypeNode::Enum(_) => ty.share(),
        TypeNode::Flags(labels) => Ok(TypeNode::Flags(labels.clone()?)),
        TypeNode::Option(some) => Ok(TypeNode::Option(shared(alloc, some)?)),
        TypeNode::Result { ok, error } => Ok(TypeNode::Result {
            ok: indexed_payload(alloc, ok)?,
            error: indexed_payload(alloc, error)?,
        }),
        TypeNode::Own(_) | TypeNode::Borrow(_) => Ok(TypeNode::U32),
    }
}

#[cycle(indexed)]
fn shared(alloc: Global, ty: &TypeNode) -> Result<Rc<TypeNode>, AllocError>
    ensures { IfOk result (λ rc. type_of rc.value ≡ indexed (type_of ty.now)) }
{
    Ok(Rc::new(alloc, indexed_node(alloc, ty)?)?)
}

#[cycle(indexed)]
fn indexed_field(alloc: Global, field: &Field) -> Result<Field, AllocError>
    ensures { IfOk result (λ f. field_of f ≡ indexed_field (field_of field.now)) }
{
    let ty = indexed_node(alloc, &field.ty)?;
    Ok(Field {
        label: field.label.clone()?,
        ty,
    })
}

#[cycle(indexed)]
fn indexed_fields(alloc: Global, row: &[Field]) -> Result<Vec<Field>, AllocError>
    ensures { IfOk result (λ fs. map field_of fs.items ≡ map indexed_field (map field_of row.now)) }
{
    let mut fields = Vec::with_capacity(alloc, row.len())?;
    for field in row {
        fields.push(indexed_field(alloc, field)?)?;
    }
    Ok(fields)
}

#[cycle(indexed)]
fn indexed_parts(alloc: Global, row: &[TypeNode]) -> Result<Vec<TypeNode>, AllocError>
    ensures { IfOk result (λ ts. map type_of ts.items ≡ map indexed (map type_of row.now)) }
{
    let mut parts = Vec::with_capacity(alloc, row.len())?;
    for part in row {
        parts.push(indexed_node(alloc, part)?)?;
    }
    Ok(parts)
}

#[cycle(indexed)]
fn indexed_case(alloc: Global, case: &Case) -> Result<Case, AllocError>
    ensures { IfOk result (λ c. case_of c ≡ indexed_case (case_of case.now)) }
{
    let payload = match &case.payload {
        Some(ty) => Some(indexed_node(alloc, ty)?),
        None => None,
    };
    Ok(Case {
        label: case.label.clone()?,
        payload,
    })
}

#[cycle(indexed)]
fn indexed_cases(alloc: Global, row: &[Case]) -> Result<Vec<Case>, AllocError>
    ensures { IfOk result (λ cs. map case_of cs.items ≡ map indexed_case (map case_of row.now)) }
{
    let mut cases = Vec::with_capacity(alloc, row.len())?;
    for case in row {
        cases.push(indexed_case(alloc, case)?)?;
    }
    Ok(cases)
}

#[cycle(indexed)]
fn indexed_payload(
    alloc: Global,
    payload: &Option<Rc<TypeNode>>,
) -> Result<Option<Rc<TypeNode>>, AllocError>
    ensures { IfOk result (λ p. shared_payload p
        ≡ option_map indexed (shared_payload payload.now)) }
{
    match payload {
        Some(ty) => Ok(Some(shared(alloc, ty)?)),
        None => Ok(None),
    }
}
