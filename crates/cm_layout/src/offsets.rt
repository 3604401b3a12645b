//! Where fields and payloads stand, in bytes from where the whole does.

ghost use Rattle.std.specs.Prelude.{◌≡◌, ◌↔◌, ◌≤◌, ◌<◌, IsTrue, length};
ghost use Rattle.cm_types.specs.Limits.{nodes_of, nodes_of_fields};
ghost use Rattle.cm_types.specs.TypeTrees.{fields_of, parts_of, type_of};
ghost use Rattle.cm_layout.specs.Sizes.{HasCases, HasField, case_offset, discriminant_size_of};
ghost use Rattle.cm_layout.specs.Sizes.{field_offset, field_offset_from};

use crate::cases::CasesSoFar;
use crate::heads::discriminant_size;
use crate::measures::{cases_so_far, fields_so_far, node_head, parts_so_far, shared_so_far};
use cm_types::{Field, MAX_NODES, TypeNode};

fn field_offset_in(row: &[Field], n: usize) -> u32
    requires there { n < length row.now }
    requires within { nodes_of_fields (fields_of row.now) ≤ MAX_NODES }
    ensures { result ≡ field_offset_from (fields_of row.now) 0 n }
{
    let mut so_far = fields_so_far(&row[..n]);
    so_far.push(node_head(&row[n].ty))
}

fn part_offset_in(row: &[TypeNode], n: usize) -> u32
    requires there { n < length row.now }
    requires within { nodes_of_fields (parts_of row.now) ≤ MAX_NODES }
    ensures { result ≡ field_offset_from (parts_of row.now) 0 n }
{
    let mut so_far = parts_so_far(&row[..n]);
    so_far.push(node_head(&row[n]))
}

/// Where field `n`, from 0, of a record or a tuple stands.
pub(crate) fn node_field_offset(ty: &TypeNode, n: usize) -> u32
    requires there { HasField (type_of ty.now) n }
    requires within { nodes_of (type_of ty.now) ≤ MAX_NODES }
    ensures { result ≡ field_offset (type_of ty.now) n }
{
    match ty {
        TypeNode::Record(fields) => field_offset_in(fields, n),
        TypeNode::Tuple(parts) => part_offset_in(parts, n),
        _ => unreachable!(),
    }
}

/// Where the payload of a variant, an enum, an option or a result stands.
pub(crate) fn node_case_offset(ty: &TypeNode) -> u32
    requires there { HasCases (type_of ty.now) }
    requires within { nodes_of (type_of ty.now) ≤ MAX_NODES }
    ensures { result ≡ case_offset (type_of ty.now) }
{
    match ty {
        TypeNode::Variant(cases) => cases_so_far(cases).offset(discriminant_size(cases.len())),
        TypeNode::Enum(labels) => discriminant_size(labels.len()),
        TypeNode::Option(some) => CasesSoFar::none().with(node_head(some)).offset(1),
        TypeNode::Result { ok, error } => {
            shared_so_far(ok).beside(shared_so_far(error)).offset(1)
        }
        _ => unreachable!(),
    }
}

/// The size in bytes of the number of a case of a variant, an enum, an option or a result.
pub(crate) fn node_discriminant_size(ty: &TypeNode) -> u32
    requires { HasCases (type_of ty.now) }
    ensures { result ≡ discriminant_size_of (type_of ty.now) }
{
    match ty {
        TypeNode::Variant(cases) => discriminant_size(cases.len()),
        TypeNode::Enum(labels) => discriminant_size(labels.len()),
        TypeNode::Option(_) => 1,
        TypeNode::Result { .. } => 1,
        _ => unreachable!(),
    }
}

/// Whether a type is a record or a tuple with a field `n`, from 0.
pub(crate) fn node_has_field(ty: &TypeNode, n: usize) -> bool
    ensures { IsTrue result ↔ HasField (type_of ty.now) n }
{
    match ty {
        TypeNode::Record(fields) => n < fields.len(),
        TypeNode::Tuple(parts) => n < parts.len(),
        _ => false,
    }
}

/// Whether a type is a variant, an enum, an option or a result.
pub(crate) fn node_has_cases(ty: &TypeNode) -> bool
    ensures { IsTrue result ↔ HasCases (type_of ty.now) }
{
    match ty {
        TypeNode::Variant(_) | TypeNode::Option(_) => true,
        TypeNode::Enum(_) => true,
        TypeNode::Result { .. } => true,
        _ => false,
    }
}
