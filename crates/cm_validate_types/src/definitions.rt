//! Definitions of types that stand in an arena, with other places for their parts.

ghost use Rattle.std.specs.Prelude.{◌≡◌, ◌+◌, ◌++◌, ◌<◌, IfOk, List, ℕ, is_some, length, map};
ghost use Rattle.std.specs.Prelude.{if◌then◌else◌};
ghost use Rattle.std.specs.List.{AllByRecursion};
ghost use Rattle.cm_types.specs.TypeTrees.{case_of, cases_of, field_of, type_of};
ghost use Rattle.cm_types.specs.Types.{Ty};
ghost use Rattle.cm_types_arena.specs.Arena.{parts_in, payload_types};
ghost use Rattle.cm_types_arena.specs.Places.{HasParts};
ghost use Rattle.cm_types_arena.specs.TypeDefs.{def_type, option_list, payload_places, type_at};
ghost use Rattle.cm_types_arena.specs.Replaced.{replaced};

use cm_types::{Case, Field, TypeNode};
use cm_types_arena::{CaseDef, FieldDef, Primitive, Replacement, TypeDef};
use std::alloc::{AllocError, Global};

/// The definition of the type of this node with its resources replaced, where the types that it
/// holds, with theirs replaced, stand at these places in their order. Its labels are shared.
///
/// `AllocError` comes where there is no memory for it.
pub(crate) fn replaced_def<R: Replacement>(
    alloc: Global,
    node: &TypeNode,
    parts: &[usize],
    by: &R,
) -> Result<TypeDef, AllocError>
    requires { length parts.now ≡ length (parts_in (type_of node.now)) }
    ensures there { IfOk result (λ def. (count : ℕ)
        → AllByRecursion (λ p. p < count) parts.now → HasParts count def) }
    ensures ty { IfOk result (λ def. (types : List Ty)
        → map (replaced (R.replacement by.now)) (parts_in (type_of node.now))
        ≡ map (type_at types) parts.now
        → def_type types def ≡ replaced (R.replacement by.now) (type_of node.now)) }
{
    match node {
        TypeNode::Bool => Ok(TypeDef::Primitive(Primitive::Bool)),
        TypeNode::S8 => Ok(TypeDef::Primitive(Primitive::S8)),
        TypeNode::U8 => Ok(TypeDef::Primitive(Primitive::U8)),
        TypeNode::S16 => Ok(TypeDef::Primitive(Primitive::S16)),
        TypeNode::U16 => Ok(TypeDef::Primitive(Primitive::U16)),
        TypeNode::S32 => Ok(TypeDef::Primitive(Primitive::S32)),
        TypeNode::U32 => Ok(TypeDef::Primitive(Primitive::U32)),
        TypeNode::S64 => Ok(TypeDef::Primitive(Primitive::S64)),
        TypeNode::U64 => Ok(TypeDef::Primitive(Primitive::U64)),
        TypeNode::Char => Ok(TypeDef::Primitive(Primitive::Char)),
        TypeNode::String => Ok(TypeDef::Primitive(Primitive::String)),
        TypeNode::List(_) => Ok(TypeDef::List(parts[0])),
        TypeNode::FixedList { length, .. } => Ok(TypeDef::FixedList {
            element: parts[0],
            length: *length,
        }),
        TypeNode::Record(fields) => Ok(TypeDef::Record(field_defs(alloc, fields, parts)?)),
        TypeNode::Tuple(_) => Ok(TypeDef::Tuple(Vec::from_slice(alloc, parts)?)),
        TypeNode::Variant(cases) => Ok(TypeDef::Variant(case_defs(alloc, cases, parts)?)),
        TypeNode::Enum(labels) => Ok(TypeDef::Enum((**labels).clone()?)),
        TypeNode::Flags(labels) => Ok(TypeDef::Flags((**labels).clone()?)),
        TypeNode::Option(_) => Ok(TypeDef::Option(parts[0])),
        TypeNode::Result { ok, error } => {
            let (ok, error) = result_places(ok.is_some(), error.is_some(), parts);
            Ok(TypeDef::Result { ok, error })
        }
        TypeNode::Own(id) => Ok(TypeDef::Own(by.replace(*id))),
        TypeNode::Borrow(id) => Ok(TypeDef::Borrow(by.replace(*id))),
    }
}

/// Fields with these labels and with types at these places.
fn field_defs(alloc: Global, fields: &[Field], parts: &[usize]) -> Result<Vec<FieldDef>, AllocError>
    requires { length parts.now ≡ length fields.now }
    ensures labels { IfOk result (λ defs.
        map (λ d. d.label) defs.items ≡ map (λ f. (field_of f).0) fields.now) }
    ensures places { IfOk result (λ defs. map (λ d. d.ty) defs.items ≡ parts.now) }
{
    let mut defs = Vec::new(alloc);
    for (i, field) in fields.iter().enumerate() {
        defs.push(FieldDef {
            label: field.label.clone()?,
            ty: parts[i],
        })?;
    }
    Ok(defs)
}

/// Cases with these labels, of which those that carry payloads have them at these places in their
/// order.
fn case_defs(alloc: Global, cases: &[Case], payloads: &[usize]) -> Result<Vec<CaseDef>, AllocError>
    requires { length payloads.now ≡ length (payload_types (cases_of cases.now)) }
    ensures labels { IfOk result (λ defs.
        map (λ d. d.label) defs.items ≡ map (λ c. (case_of c).0) cases.now) }
    ensures carrying { IfOk result (λ defs.
        map (λ d. is_some d.payload) defs.items ≡ map (λ c. is_some (case_of c).1) cases.now) }
    ensures places { IfOk result (λ defs. payload_places defs.items ≡ payloads.now) }
{
    let mut defs = Vec::new(alloc);
    // How many of the payloads belong to the cases before the one that is next.
    let mut used = 0;
    for case in cases {
        let label = case.label.clone()?;
        match case.payload {
            None => defs.push(CaseDef {
                label,
                payload: None,
            })?,
            Some(_) => {
                defs.push(CaseDef {
                    label,
                    payload: Some(payloads[used]),
                })?;
                used += 1;
            }
        }
    }
    Ok(defs)
}

/// The places of the payloads of a result, of what is there and of the error, where those that are
/// there have these places in their order.
fn result_places(
    has_ok: bool,
    has_error: bool,
    payloads: &[usize],
) -> (Option<usize>, Option<usize>)
    requires { length payloads.now ≡ (if has_ok then 1 else 0) + (if has_error then 1 else 0) }
    ensures ok { is_some result.0 ≡ has_ok }
    ensures error { is_some result.1 ≡ has_error }
    ensures places { option_list result.0 ++ option_list result.1 ≡ payloads.now }
{
    match (has_ok, has_error) {
        (false, false) => (None, None),
        (true, false) => (Some(payloads[0]), None),
        (false, true) => (None, Some(payloads[0])),
        (true, true) => (Some(payloads[0]), Some(payloads[1])),
    }
}
