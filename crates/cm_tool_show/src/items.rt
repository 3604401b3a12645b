//! Functions, items of instances, imports and exports.

ghost use Rattle.std.specs.Prelude.{◌≡◌, ◌++◌, ◌∷◌, [], OnOk, IsErrOf, codes, true};
ghost use Rattle.std.specs.List.{flat_map};
ghost use Rattle.std.specs.Option.{option_map};
ghost use Rattle.cm_types.specs.ExternNames.{name_spelling};
ghost use Rattle.cm_types.specs.ExternNameForms.{form_tree};
ghost use Rattle.cm_types.specs.Funcs.{func_of, tree_type};
ghost use Rattle.cm_types.specs.TypeTrees.{type_of};
ghost use Rattle.cm_types_arena.specs.Replaced.{replaced, replaced_func};
ghost use Rattle.cm_types_arena.specs.Instances.{numbered, replaced_item};
ghost use Rattle.cm_types_arena.specs.Placed.{moved_by};
ghost use Rattle.cm_types_arena.specs.Listed.{are_in, are_items_in, brought_items, extern_in};
ghost use Rattle.cm_types_arena.specs.Listed.{externs_listed, is_desc_in, is_item_in, item_in};
ghost use Rattle.cm_tool_show.specs.Counted.{counted};
ghost use Rattle.cm_tool_show.specs.Pages.{IsOver, seen_on, text_on};
ghost use Rattle.cm_tool_show.specs.Pieces.{chars, seen_behind, text_behind};
ghost use Rattle.cm_tool_show.specs.declared.fault.ShowFault.TheVariants as fault;
ghost use Rattle.cm_tool_show.specs.Shown.{answer_pieces, extern_lines};
ghost use Rattle.cm_tool_show.specs.Shown.{extern_pieces, externs_lines};
ghost use Rattle.cm_tool_show.specs.Shown.{func_pieces};
ghost use Rattle.cm_tool_show.specs.ShownTypes.{type_pieces};
ghost use Rattle.cm_tool_show.specs.Shown.{item_line, line, resource_pieces};
ghost use Rattle.cm_tool_show.specs.Written.{Shows};

use crate::laws::pages_join;
use crate::names::put_name;
use crate::putting::{put, put_resource};
use crate::types::{add_fields, add_type};
use crate::{Counting, Page, ShowFault};
use cm_types::{ExternNameForm, Func, ResourceId, TypeNode, TypeTree};
use cm_types_arena::laws::replacing;
use cm_types_arena::{
    Desc, Externs, ItemDesc, Items, Move, NamedDesc, NamedItem, Types, moved_resource,
};

/// Adds what a line begins with: a word, a name and a blank.
fn begin_line(page: &mut Page, word: &str, name: ExternNameForm<'_>) -> Result<(), ShowFault>
    ensures { Shows (chars word.now ∷ chars (name_spelling (form_tree name.entry)) ∷ chars (codes
        " ") ∷ []) page.old page.new result }
{
    put(page, word)?;
    put_name(page, name)?;
    put(page, " ")
}

/// Adds the type of a result, if there is one.
fn show_answer(page: &mut Page, tree: &Option<TypeTree>, by: Counting) -> Result<(), ShowFault>
    ensures { Shows (answer_pieces (option_map (replaced (counted by)) (option_map tree_type
        tree.now))) page.old page.new result }
{
    match tree {
        None => Ok(()),
        Some(tree) => {
            put(page, " -> ")?;
            add_type(page, &tree.root, by)
        }
    }
}

/// Adds the type of a function, and ends the line.
fn end_with_func(page: &mut Page, func: &Func, by: Counting) -> Result<(), ShowFault>
    ensures { Shows (func_pieces (replaced_func (counted by) (func_of func.now)) ++ chars
        (codes "\n") ∷ []) page.old page.new result }
{
    put(page, "(")?;
    add_fields(page, &func.params, by)?;
    put(page, ")")?;
    show_answer(page, &func.result, by)?;
    put(page, "\n")
}

/// Adds a type, and ends the line.
fn end_with_type(page: &mut Page, node: &TypeNode, by: Counting) -> Result<(), ShowFault>
    ensures { Shows (type_pieces (replaced (counted by) (type_of node.now)) ++ chars (codes
        "\n") ∷ []) page.old page.new result }
{
    add_type(page, node, by)?;
    put(page, "\n")
}

/// Adds a resource, and ends the line.
fn end_with_resource(page: &mut Page, id: ResourceId) -> Result<(), ShowFault>
    ensures { Shows (resource_pieces id ++ chars (codes "\n") ∷ []) page.old page.new result }
{
    put(page, "resource#")?;
    put_resource(page, id)?;
    put(page, "\n")
}

/// Adds the line of an item that an import or an export brings so, as `show` has it: two blanks, a
/// word for its sort, its name, and what it is.
///
/// `TooLong` comes only where the text is too long with the line, and `Memory` where there is no
/// memory; what is then on the page is left open.
pub fn show_item(
    page: &mut Page,
    types: &Types,
    item: NamedItem<'_>,
    brought: Option<Move>,
) -> Result<(), ShowFault>
    requires { is_item_in types.now item.desc ≡ true }
    ensures { let i = replaced_item (moved_by brought) (item_in types.now item.entry) in
        Shows (item_line i.name i.desc) page.old page.new result }
{
    replacing();
    match item.desc {
        ItemDesc::Func(placed) => {
            begin_line(page, "  func ", item.name)?;
            end_with_func(
                page,
                types.func(placed.place),
                Counting::new(placed.by, brought),
            )
        }
        ItemDesc::EqualType(placed) => {
            begin_line(page, "  type ", item.name)?;
            end_with_type(
                page,
                types.node(placed.place),
                Counting::new(placed.by, brought),
            )
        }
        ItemDesc::EqualResource(number) => show_resource(page, item.name, brought, number),
        ItemDesc::FreshResource(number) => show_resource(page, item.name, brought, number),
    }
}

/// Adds the line of a resource of this number that an import or an export brings so.
fn show_resource(
    page: &mut Page,
    name: ExternNameForm<'_>,
    brought: Option<Move>,
    number: u64,
) -> Result<(), ShowFault>
    ensures { Shows (line (codes "  type ") (name_spelling (form_tree name.entry)) (resource_pieces
        (moved_by brought (numbered number)))) page.old page.new result }
{
    begin_line(page, "  type ", name)?;
    end_with_resource(page, brought_resource(brought, number))
}

/// The resource of this number, as an import or an export brings it.
fn brought_resource(brought: Option<Move>, number: u64) -> ResourceId
    ensures { result ≡ moved_by brought (numbered number) }
{
    let resource = ResourceId {
        component: 0,
        number,
    };
    moved_resource(brought, resource)
}

/// Adds the lines of the items of an instance.
fn show_items(page: &mut Page, types: &Types, items: Items<'_>) -> Result<(), ShowFault>
    requires { are_items_in types.now items ≡ true }
    ensures { Shows (flat_map (λ i. item_line i.name i.desc) (brought_items types.now items.entry))
        page.old page.new result }
{
    pages_join();
    let brought = items.by();
    for place in 0..items.len() {
        if let Some(item) = items.at(place) {
            show_item(page, types, item, brought)?;
        }
    }
    Ok(())
}

/// Adds the first line of an import or an export, as `show` has it: a word for its side, its name,
/// and the type of a function, or that it is an instance.
///
/// `TooLong` comes only where the text is too long with the line, and `Memory` where there is no
/// memory; what is then on the page is left open.
pub fn show_extern_line(
    page: &mut Page,
    types: &Types,
    word: &str,
    each: NamedDesc<'_>,
) -> Result<(), ShowFault>
    requires { is_desc_in types.now each.desc ≡ true }
    ensures { let e = extern_in types.now each.entry in
        Shows (line word.now e.name (extern_pieces e.desc)) page.old page.new result }
{
    begin_line(page, word, each.name)?;
    match each.desc {
        Desc::Func(placed) => {
            put(page, "func ")?;
            end_with_func(
                page,
                types.func(placed.place),
                Counting::new(placed.by, None),
            )
        }
        Desc::Instance(_) => {
            put(page, "instance")?;
            put(page, "\n")
        }
    }
}

/// Adds the lines of an import or an export.
fn show_extern(
    page: &mut Page,
    types: &Types,
    word: &str,
    each: NamedDesc<'_>,
) -> Result<(), ShowFault>
    requires { is_desc_in types.now each.desc ≡ true }
    ensures { let e = extern_in types.now each.entry in
        Shows (extern_lines word.now e.name e.desc) page.old page.new result }
{
    show_extern_line(page, types, word, each)?;
    match each.desc {
        Desc::Func(_) => Ok(()),
        Desc::Instance(items) => show_items(page, types, items),
    }
}

/// Adds the lines of imports, or of exports.
pub(crate) fn show_externs(
    page: &mut Page,
    types: &Types,
    word: &str,
    externs: &Externs,
) -> Result<(), ShowFault>
    requires { are_in types.now externs.now ≡ true }
    ensures text { OnOk result (text_on page.new
        ≡ text_on page.old ++ text_behind (seen_on page.old) (externs_lines word.now
        (externs_listed types.now externs.now))) }
    ensures seen { OnOk result (seen_on page.new ≡ seen_behind (seen_on page.old) (externs_lines
        word.now (externs_listed types.now externs.now))) }
    ensures over { IsErrOf result fault.TooLong → IsOver page.old (externs_lines word.now
        (externs_listed types.now externs.now)) }
{
    pages_join();
    for place in 0..externs.len() {
        if let Some(each) = externs.at(place) {
            show_extern(page, types, word, each)?;
        }
    }
    Ok(())
}
