//! What can be asked of a whole type.

ghost use Rattle.std.specs.Prelude.{◌≡◌, ◌↔◌, ◌*◌, ℕ, IsTrue};
ghost use Rattle.cm_types.specs.Funcs.{func_of, tree_type};
ghost use Rattle.cm_layout.specs.Alignment.{IsLeastMultiple};
ghost use Rattle.cm_layout.specs.Shapes.{head_of, head_of_fields};
ghost use Rattle.cm_layout.specs.Sizes.{HasCases, HasField, IsPayloadOffset, IsWholeSize, align_of};
ghost use Rattle.cm_layout.specs.Sizes.{case_offset, discriminant_size_of, end_before};
ghost use Rattle.cm_layout.specs.Sizes.{field_offset, field_type, fields_in, size_of};

use crate::heads::Head;
use crate::measures::{fields_so_far, node_head};
use crate::offsets::{
    node_case_offset, node_discriminant_size, node_field_offset, node_has_cases, node_has_field,
};
use cm_types::{Func, TypeTree};

/// What a value of a type takes, in memory and in core values, without another walk over the type
/// for each number.
pub fn head(ty: &TypeTree) -> Head
    ensures { result ≡ head_of (tree_type ty.now) }
{
    node_head(&ty.root)
}

/// What the parameters of a function take as the fields of a tuple, which is how they lie in memory
/// where they are passed by a pointer (CanonicalABI.md, "Flattening").
pub fn head_of_params(func: &Func) -> Head
    ensures { result ≡ head_of_fields (func_of func.now).params }
{
    fields_so_far(&func.params).whole()
}

/// The alignment of a type in bytes: 1, 2, 4 or 8 (CanonicalABI.md, "Alignment").
pub fn align(ty: &TypeTree) -> u32
    ensures { result ≡ align_of (tree_type ty.now) }
{
    node_head(&ty.root).align
}

/// The size of a type in bytes, a multiple of its alignment (CanonicalABI.md, `elem_size`).
pub fn size(ty: &TypeTree) -> u32
    ensures value { result ≡ size_of (tree_type ty.now) }
    ensures multiple { (k : ℕ) × (result ≡ k * align_of (tree_type ty.now)) }
    ensures whole { IsWholeSize (tree_type ty.now) result }
{
    node_head(&ty.root).size
}

/// Whether the type is a record or a tuple with a field `n`, from 0, so that `field_offset` may be
/// asked.
pub fn has_field(ty: &TypeTree, n: usize) -> bool
    ensures { IsTrue result ↔ HasField (tree_type ty.now) n }
{
    node_has_field(&ty.root, n)
}

/// Whether the type is a variant, an enum, an option or a result, so that `case_offset` may be
/// asked.
pub fn has_cases(ty: &TypeTree) -> bool
    ensures { IsTrue result ↔ HasCases (tree_type ty.now) }
{
    node_has_cases(&ty.root)
}

/// Where field `n`, from 0, of a record or a tuple stands, in bytes from where the whole does: at
/// the least multiple of the field's alignment that is not below the end of what is before it.
pub fn field_offset(ty: &TypeTree, n: usize) -> u32
    requires { HasField (tree_type ty.now) n }
    ensures value { result ≡ field_offset (tree_type ty.now) n }
    ensures least { IsLeastMultiple (align_of (field_type (fields_in (tree_type ty.now)) n))
        (end_before (fields_in (tree_type ty.now)) 0 n) result }
{
    node_field_offset(&ty.root, n)
}

/// The size in bytes of the number of a case of a variant, an enum, an option or a result: 1, 2 or
/// 4 (CanonicalABI.md, "Alignment", `discriminant_type`).
pub fn discriminant_size(ty: &TypeTree) -> u32
    requires { HasCases (tree_type ty.now) }
    ensures { result ≡ discriminant_size_of (tree_type ty.now) }
{
    node_discriminant_size(&ty.root)
}

/// Where the payload of a variant, an enum, an option or a result stands, in bytes from where the
/// whole does: at the least multiple of the greatest alignment of a payload that is not below the
/// end of the number of the case.
pub fn case_offset(ty: &TypeTree) -> u32
    requires { HasCases (tree_type ty.now) }
    ensures value { result ≡ case_offset (tree_type ty.now) }
    ensures least { IsPayloadOffset (tree_type ty.now) result }
{
    node_case_offset(&ty.root)
}
