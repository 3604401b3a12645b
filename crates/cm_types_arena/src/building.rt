//! The node of a definition, which shares the nodes of its parts.

ghost use Rattle.std.specs.Prelude.{◌≡◌, IfOk, map};
ghost use Rattle.std.specs.Option.{option_map};
ghost use Rattle.cm_types.specs.TypeTrees.{case_of, field_of, shared_payload, type_of};
ghost use Rattle.cm_types_arena.specs.Arena.{types_in};
ghost use Rattle.cm_types_arena.specs.TypeDefs.{case_def_type, def_type, field_def_type};
ghost use Rattle.cm_types_arena.specs.TypeDefs.{primitive_type, type_at};

use crate::entries::TypeEntry;
use crate::primitives::Primitive;
use crate::type_defs::{CaseDef, FieldDef, TypeDef};
use cm_types::{Case, Field, TypeNode};
use std::alloc::{AllocError, Global};
use std::rc::Rc;

pub(crate) fn primitive_node(primitive: Primitive) -> TypeNode
    ensures { type_of result ≡ primitive_type primitive }
{
    match primitive {
        Primitive::Bool => TypeNode::Bool,
        Primitive::S8 => TypeNode::S8,
        Primitive::U8 => TypeNode::U8,
        Primitive::S16 => TypeNode::S16,
        Primitive::U16 => TypeNode::U16,
        Primitive::S32 => TypeNode::S32,
        Primitive::U32 => TypeNode::U32,
        Primitive::S64 => TypeNode::S64,
        Primitive::U64 => TypeNode::U64,
        Primitive::Char => TypeNode::Char,
        Primitive::String => TypeNode::String,
    }
}

/// The node at a place, shared.
fn share_at(entries: &[TypeEntry], place: usize) -> Result<TypeNode, AllocError>
    ensures { IfOk result (λ node. type_of node ≡ type_at (types_in entries.now) place) }
{
    match entries.get(place) {
        Some(entry) => entry.node.share(),
        None => Ok(TypeNode::Bool),
    }
}

fn rc_at(alloc: Global, entries: &[TypeEntry], place: usize) -> Result<Rc<TypeNode>, AllocError>
    ensures { IfOk result (λ rc. type_of rc.value ≡ type_at (types_in entries.now) place) }
{
    Ok(Rc::new(alloc, share_at(entries, place)?)?)
}

fn payload_at(
    alloc: Global,
    entries: &[TypeEntry],
    place: Option<usize>,
) -> Result<Option<Rc<TypeNode>>, AllocError>
    ensures { IfOk result (λ payload.
        shared_payload payload ≡ option_map (type_at (types_in entries.now)) place) }
{
    match place {
        Some(part) => Ok(Some(rc_at(alloc, entries, part)?)),
        None => Ok(None),
    }
}

fn build_field(entries: &[TypeEntry], def: FieldDef) -> Result<Field, AllocError>
    ensures { IfOk result (λ field. field_of field ≡ field_def_type (types_in entries.now) def) }
{
    let ty = share_at(entries, def.ty)?;
    Ok(Field {
        label: def.label,
        ty,
    })
}

pub(crate) fn build_fields(
    alloc: Global,
    entries: &[TypeEntry],
    defs: Vec<FieldDef>,
) -> Result<Vec<Field>, AllocError>
    ensures { IfOk result (λ fields.
        map field_of fields.items ≡ map (field_def_type (types_in entries.now)) defs.items) }
{
    let mut fields = Vec::with_capacity(alloc, defs.len())?;
    for def in defs {
        fields.push(build_field(entries, def)?)?;
    }
    Ok(fields)
}

fn build_parts(
    alloc: Global,
    entries: &[TypeEntry],
    places: &[usize],
) -> Result<Vec<TypeNode>, AllocError>
    ensures { IfOk result (λ parts.
        map type_of parts.items ≡ map (type_at (types_in entries.now)) places.now) }
{
    let mut parts = Vec::with_capacity(alloc, places.len())?;
    for place in places {
        parts.push(share_at(entries, *place)?)?;
    }
    Ok(parts)
}

fn build_case(entries: &[TypeEntry], def: CaseDef) -> Result<Case, AllocError>
    ensures { IfOk result (λ case. case_of case ≡ case_def_type (types_in entries.now) def) }
{
    let payload = match def.payload {
        Some(place) => Some(share_at(entries, place)?),
        None => None,
    };
    Ok(Case {
        label: def.label,
        payload,
    })
}

fn build_cases(
    alloc: Global,
    entries: &[TypeEntry],
    defs: Vec<CaseDef>,
) -> Result<Vec<Case>, AllocError>
    ensures { IfOk result (λ cases.
        map case_of cases.items ≡ map (case_def_type (types_in entries.now)) defs.items) }
{
    let mut cases = Vec::with_capacity(alloc, defs.len())?;
    for def in defs {
        cases.push(build_case(entries, def)?)?;
    }
    Ok(cases)
}

/// The node of a definition over these entries. `AllocError` comes where there is no memory for it.
pub(crate) fn build(
    alloc: Global,
    entries: &[TypeEntry],
    def: TypeDef,
) -> Result<TypeNode, AllocError>
    ensures { IfOk result (λ node. type_of node ≡ def_type (types_in entries.now) def) }
{
    Ok(match def {
        TypeDef::Primitive(primitive) => primitive_node(primitive),
        TypeDef::List(place) => TypeNode::List(rc_at(alloc, entries, place)?),
        TypeDef::FixedList { element, length } => TypeNode::FixedList {
            element: rc_at(alloc, entries, element)?,
            length,
        },
        TypeDef::Record(defs) => {
            TypeNode::Record(Rc::new(alloc, build_fields(alloc, entries, defs)?)?)
        }
        TypeDef::Tuple(places) => {
            TypeNode::Tuple(Rc::new(alloc, build_parts(alloc, entries, &places)?)?)
        }
        TypeDef::Variant(defs) => {
            TypeNode::Variant(Rc::new(alloc, build_cases(alloc, entries, defs)?)?)
        }
        TypeDef::Enum(labels) => TypeNode::Enum(Rc::new(alloc, labels)?),
        TypeDef::Flags(labels) => TypeNode::Flags(Rc::new(alloc, labels)?),
        TypeDef::Option(place) => TypeNode::Option(rc_at(alloc, entries, place)?),
        TypeDef::Result { ok, error } => TypeNode::Result {
            ok: payload_at(alloc, entries, ok)?,
            error: payload_at(alloc, entries, error)?,
        },
        TypeDef::Own(id) => TypeNode::Own(id),
        TypeDef::Borrow(id) => TypeNode::Borrow(id),
    })
}
