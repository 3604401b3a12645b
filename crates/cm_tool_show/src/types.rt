//! Types.

ghost use Rattle.std.specs.Prelude.{◌≡◌, ◌++◌, ◌∷◌, [], OnOk, IsErrOf, codes};
ghost use Rattle.std.specs.Fmt.{decimal};
ghost use Rattle.cm_types.specs.TypeTrees.{cases_of, fields_of, parts_of, type_of};
ghost use Rattle.cm_types_arena.specs.Replaced.{replaced, replaced_cases, replaced_fields};
ghost use Rattle.cm_tool_show.specs.Counted.{counted};
ghost use Rattle.cm_tool_show.specs.Pages.{IsOver, seen_on, text_on};
ghost use Rattle.cm_tool_show.specs.Pieces.{chars, number_of, seen_behind, text_behind};
ghost use Rattle.cm_tool_show.specs.Lists.{comma_before, with_commas};
ghost use Rattle.cm_tool_show.specs.ShownTypes.{between, case_pieces, field_pieces, part_pieces};
ghost use Rattle.cm_tool_show.specs.ShownTypes.{type_pieces};
ghost use Rattle.cm_tool_show.specs.Counted.{case_piece};
ghost use Rattle.cm_tool_show.specs.Written.{Shows};
ghost use Rattle.cm_tool_show.specs.declared.fault.ShowFault.TheVariants as fault;

use crate::counting::Counting;
use crate::lists::{separate, show_labels};
use crate::putting::{put, put_number, put_resource};
use crate::{Page, ShowFault};
use cm_types::{Case, Field, ResourceId, TypeNode};

/// Adds a type, its resources counted so.
pub fn show_type(page: &mut Page, node: &TypeNode, by: Counting) -> Result<(), ShowFault>
    ensures text { OnOk result (text_on page.new
        ≡ text_on page.old ++ text_behind (seen_on page.old) (type_pieces (replaced
        (counted by) (type_of node.now)))) }
    ensures seen { OnOk result (seen_on page.new ≡ seen_behind (seen_on page.old) (type_pieces
        (replaced (counted by) (type_of node.now)))) }
    ensures over { IsErrOf result fault.TooLong → IsOver page.old (type_pieces (replaced (counted
        by) (type_of node.now))) }
{
    add_type(page, node, by)
}

/// Adds fields with their labels.
pub fn show_fields(page: &mut Page, fields: &[Field], by: Counting) -> Result<(), ShowFault>
    ensures text { OnOk result (text_on page.new
        ≡ text_on page.old ++ text_behind (seen_on page.old) (with_commas (field_pieces
        (replaced_fields (counted by) (fields_of fields.now))))) }
    ensures seen { OnOk result (seen_on page.new ≡ seen_behind (seen_on page.old) (with_commas
        (field_pieces (replaced_fields (counted by) (fields_of fields.now))))) }
    ensures over { IsErrOf result fault.TooLong → IsOver page.old (with_commas (field_pieces
        (replaced_fields (counted by) (fields_of fields.now)))) }
{
    add_fields(page, fields, by)
}

/// Adds a type.
#[cycle(types)]
pub(crate) fn add_type(page: &mut Page, node: &TypeNode, by: Counting) -> Result<(), ShowFault>
    ensures { Shows (type_pieces (replaced (counted by) (type_of node.now))) page.old page.new
        result }
{
    match node {
        TypeNode::Bool => put(page, "bool"),
        TypeNode::S8 => put(page, "s8"),
        TypeNode::U8 => put(page, "u8"),
        TypeNode::S16 => put(page, "s16"),
        TypeNode::U16 => put(page, "u16"),
        TypeNode::S32 => put(page, "s32"),
        TypeNode::U32 => put(page, "u32"),
        TypeNode::S64 => put(page, "s64"),
        TypeNode::U64 => put(page, "u64"),
        TypeNode::Char => put(page, "char"),
        TypeNode::String => put(page, "string"),
        TypeNode::List(element) => show_one(page, "list<", element, by),
        TypeNode::FixedList { element, length } => show_fixed_list(page, element, *length, by),
        TypeNode::Record(fields) => show_record(page, fields, by),
        TypeNode::Tuple(parts) => show_tuple(page, parts, by),
        TypeNode::Variant(cases) => show_variant(page, cases, by),
        TypeNode::Enum(labels) => show_labels(page, "enum{", labels),
        TypeNode::Flags(labels) => show_labels(page, "flags{", labels),
        TypeNode::Option(payload) => show_one(page, "option<", payload, by),
        TypeNode::Result { ok, error } => match (ok, error) {
            (None, None) => put(page, "result"),
            (Some(ok), None) => show_one(page, "result<", ok, by),
            (None, Some(error)) => show_one(page, "result<_, ", error, by),
            (Some(ok), Some(error)) => {
                show_first(page, "result<", ok, by)?;
                show_one(page, ", ", error, by)
            }
        },
        TypeNode::Own(id) => show_handle(page, "own<#", by.resource(*id)),
        TypeNode::Borrow(id) => show_handle(page, "borrow<#", by.resource(*id)),
    }
}

/// Adds a handle of a resource.
fn show_handle(page: &mut Page, word: &str, id: ResourceId) -> Result<(), ShowFault>
    ensures { Shows (between word.now (codes ">") (number_of id ∷ [])) page.old page.new result }
{
    put(page, word)?;
    put_resource(page, id)?;
    put(page, ">")
}

/// Adds what holds one type.
#[cycle(types)]
fn show_one(page: &mut Page, word: &str, node: &TypeNode, by: Counting) -> Result<(), ShowFault>
    ensures { Shows (between word.now (codes ">") (type_pieces (replaced (counted by) (type_of
        node.now)))) page.old page.new result }
{
    put(page, word)?;
    add_type(page, node, by)?;
    put(page, ">")
}

/// Adds a list of fixed length.
#[cycle(types)]
fn show_fixed_list(
    page: &mut Page,
    node: &TypeNode,
    length: u32,
    by: Counting,
) -> Result<(), ShowFault>
    ensures { Shows (between (codes "list<") (codes ">") (type_pieces (replaced (counted by)
        (type_of node.now)) ++ chars (codes ", ") ∷ chars (decimal length) ∷ [])) page.old page.new
        result }
{
    put(page, "list<")?;
    add_type(page, node, by)?;
    put(page, ", ")?;
    put_number(page, length as usize)?;
    put(page, ">")
}

/// Adds a record.
#[cycle(types)]
fn show_record(page: &mut Page, fields: &[Field], by: Counting) -> Result<(), ShowFault>
    ensures { Shows (between (codes "record{") (codes "}") (with_commas (field_pieces
        (replaced_fields (counted by) (fields_of fields.now))))) page.old page.new result }
{
    put(page, "record{")?;
    add_fields(page, fields, by)?;
    put(page, "}")
}

/// Adds fields.
#[cycle(types)]
pub(crate) fn add_fields(page: &mut Page, fields: &[Field], by: Counting) -> Result<(), ShowFault>
    ensures { Shows (with_commas (field_pieces (replaced_fields (counted by) (fields_of
        fields.now)))) page.old page.new result }
{
    for (index, field) in fields.iter().enumerate() {
        show_field(page, index, field, by)?;
    }
    Ok(())
}

/// Adds a field of a list.
#[cycle(types)]
fn show_field(page: &mut Page, index: usize, field: &Field, by: Counting) -> Result<(), ShowFault>
    ensures { Shows (comma_before index ++ chars field.now.label ∷ chars (codes ": ") ∷
        type_pieces (replaced (counted by) (type_of field.now.ty))) page.old page.new result }
{
    separate(page, index)?;
    put(page, field.label.as_str())?;
    put(page, ": ")?;
    add_type(page, &field.ty, by)
}

/// Adds a tuple.
#[cycle(types)]
fn show_tuple(page: &mut Page, parts: &[TypeNode], by: Counting) -> Result<(), ShowFault>
    ensures { Shows (between (codes "tuple<") (codes ">") (with_commas (part_pieces
        (replaced_fields (counted by) (parts_of parts.now))))) page.old page.new result }
{
    put(page, "tuple<")?;
    show_parts(page, parts, by)?;
    put(page, ">")
}

/// Adds types without labels.
#[cycle(types)]
fn show_parts(page: &mut Page, parts: &[TypeNode], by: Counting) -> Result<(), ShowFault>
    ensures { Shows (with_commas (part_pieces (replaced_fields (counted by) (parts_of
        parts.now)))) page.old page.new result }
{
    for (index, part) in parts.iter().enumerate() {
        show_part(page, index, part, by)?;
    }
    Ok(())
}

/// Adds a type of a list.
#[cycle(types)]
fn show_part(page: &mut Page, index: usize, part: &TypeNode, by: Counting) -> Result<(), ShowFault>
    ensures { Shows (comma_before index ++ type_pieces (replaced (counted by) (type_of
        part.now))) page.old page.new result }
{
    separate(page, index)?;
    add_type(page, part, by)
}

/// Adds a variant.
#[cycle(types)]
fn show_variant(page: &mut Page, cases: &[Case], by: Counting) -> Result<(), ShowFault>
    ensures { Shows (between (codes "variant{") (codes "}") (with_commas (case_pieces
        (replaced_cases (counted by) (cases_of cases.now))))) page.old page.new result }
{
    put(page, "variant{")?;
    show_cases(page, cases, by)?;
    put(page, "}")
}

/// Adds cases with their payloads.
#[cycle(types)]
fn show_cases(page: &mut Page, cases: &[Case], by: Counting) -> Result<(), ShowFault>
    ensures { Shows (with_commas (case_pieces (replaced_cases (counted by) (cases_of
        cases.now)))) page.old page.new result }
{
    for (index, case) in cases.iter().enumerate() {
        show_case(page, index, case, by)?;
    }
    Ok(())
}

/// Adds a case of a list.
#[cycle(types)]
fn show_case(page: &mut Page, index: usize, case: &Case, by: Counting) -> Result<(), ShowFault>
    ensures { Shows (comma_before index ++ case_piece (counted by) case.now) page.old page.new
        result }
{
    separate(page, index)?;
    put(page, case.label.as_str())?;
    match &case.payload {
        None => Ok(()),
        Some(payload) => {
            put(page, "(")?;
            add_type(page, payload, by)?;
            put(page, ")")
        }
    }
}

/// Adds a type behind a word.
#[cycle(types)]
fn show_first(page: &mut Page, word: &str, node: &TypeNode, by: Counting) -> Result<(), ShowFault>
    ensures { Shows (chars word.now ∷ type_pieces (replaced (counted by) (type_of node.now)))
        page.old page.new result }
{
    put(page, word)?;
    add_type(page, node, by)
}
