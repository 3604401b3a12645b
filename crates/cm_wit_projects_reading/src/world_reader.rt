//! Reading worlds.

ghost use Rattle.std.specs.Prelude.{◌≡◌, map};
ghost use Rattle.cm_wit_tokens.specs.Grammar.{first, passes};
ghost use Rattle.cm_wit_tokens.specs.Reading.{Reads};
ghost use Rattle.cm_wit_projects_reading.specs.Views.{extern_tree, gated_tree, include_tree};
ghost use Rattle.cm_wit_projects_reading.specs.Views.{renamed_tree, world_item_tree, world_tree};
ghost use Rattle.cm_wit_projects_reading.specs.Worlds.{begins_func, behind_colon, extern};
ghost use Rattle.cm_wit_projects_reading.specs.Worlds.{include_names, include_rest};
ghost use Rattle.cm_wit_projects_reading.specs.Worlds.{world_item_rest, world_rest};

use crate::gate_reader::read_gates;
use crate::gates::Gated;
use crate::heads::{WorldHead, read_world_head};
use crate::interface_reader::{
    read_braced, read_interface_items, read_kept_func, read_type_item, read_use,
};
use crate::left_out::place;
use crate::worlds::{Include, Renamed, World, WorldExtern, WorldItem};
use cm_types::Label;
use cm_wit_reading::{Path, read_foreign_path, read_path};
use cm_wit_tokens::{Cursor, Form, Item, Keyword, Operator, ReadError, read_members};
use std::alloc::Global;

/// Whether a function stands behind a name and its `:`.
fn begins_func(form: &Form) -> bool
    ensures { result ≡ begins_func form.now }
{
    form.is_keyword(Keyword::Func) || form.is_keyword(Keyword::Async)
}

/// Whether the next token begins a function.
fn next_begins_func(cursor: &Cursor) -> bool
    ensures { result ≡ passes begins_func (first cursor.now) }
{
    match cursor.next() {
        Some(form) => begins_func(form),
        None => false,
    }
}

/// Reads what stands behind a name and its `:`.
fn read_behind_colon(
    alloc: Global,
    cursor: &mut Cursor,
    name: Label,
) -> Result<WorldExtern, ReadError>
    ensures { Reads (behind_colon name) extern_tree cursor.old cursor.new result }
{
    if cursor.next_is_keyword(Keyword::Interface) {
        cursor.expect_keyword(Keyword::Interface)?;
        let items = read_interface_items(alloc, cursor)?;
        Ok(WorldExtern::Interface(name, items))
    } else if next_begins_func(cursor) {
        Ok(WorldExtern::Func(name, read_kept_func(alloc, cursor)?))
    } else {
        let path = read_foreign_path(name, cursor)?;
        cursor.expect(Operator::Semicolon)?;
        Ok(WorldExtern::Path(path))
    }
}

/// Reads what is imported or exported.
fn read_extern(alloc: Global, cursor: &mut Cursor) -> Result<WorldExtern, ReadError>
    ensures { Reads extern extern_tree cursor.old cursor.new result }
{
    let name = cursor.identifier()?;
    if cursor.next_is(Operator::Colon) {
        cursor.expect(Operator::Colon)?;
        read_behind_colon(alloc, cursor, name)
    } else {
        cursor.expect(Operator::Semicolon)?;
        Ok(WorldExtern::Path(Path::Local(name)))
    }
}

impl Item for Renamed {
    ghost use Rattle.cm_wit_projects_reading.specs.Trees as trees;
    ghost use Rattle.cm_wit_projects_reading.specs.Views.{renamed_tree};
    ghost use Rattle.cm_wit_projects_reading.specs.Worlds.{renamed};

    ghost Tree = { trees.Renamed };

    ghost tree = { renamed_tree };

    ghost grammar = { renamed };

    fn read(_alloc: Global, cursor: &mut Cursor) -> Result<Renamed, ReadError> {
        let name = cursor.identifier()?;
        cursor.expect_keyword(Keyword::As)?;
        let new_name = cursor.identifier()?;
        Ok(Renamed { name, new_name })
    }
}

/// Reads `;`, or the names that change behind `with`.
#[tactic(auto, using(crate::proofs::WorldLaws::renamed_lawful))]
fn read_include_names(alloc: Global, cursor: &mut Cursor) -> Result<Vec<Renamed>, ReadError>
    ensures { Reads include_names (λ v. map renamed_tree v.items) cursor.old cursor.new result }
{
    if cursor.next_is_keyword(Keyword::From) {
        cursor.expect_keyword(Keyword::From)?;
        read_braced(alloc, cursor)
    } else {
        cursor.expect(Operator::Semicolon)?;
        Ok(Vec::new(alloc))
    }
}

/// Reads what stands behind `include`.
fn read_include(alloc: Global, cursor: &mut Cursor) -> Result<Include, ReadError>
    ensures { Reads include_rest include_tree cursor.old cursor.new result }
{
    let path = read_path(cursor)?;
    let renamed = read_include_names(alloc, cursor)?;
    Ok(Include { path, renamed })
}

/// Reads an item of a world behind its first token.
fn read_world_item(
    alloc: Global,
    cursor: &mut Cursor,
    head: WorldHead,
) -> Result<WorldItem, ReadError>
    ensures { Reads (world_item_rest head) world_item_tree cursor.old cursor.new result }
{
    match head {
        WorldHead::Import => Ok(WorldItem::Import(read_extern(alloc, cursor)?)),
        WorldHead::Export => Ok(WorldItem::Export(read_extern(alloc, cursor)?)),
        WorldHead::Use => Ok(WorldItem::Use(read_use(alloc, cursor)?)),
        WorldHead::Type(head) => {
            let name = cursor.identifier()?;
            Ok(WorldItem::Type(name, read_type_item(alloc, cursor, head)?))
        }
        WorldHead::Include => Ok(WorldItem::Include(read_include(alloc, cursor)?)),
    }
}

impl Item for Gated<WorldItem> {
    ghost use Rattle.cm_wit_projects_reading.specs.Gates.{gated};
    ghost use Rattle.cm_wit_projects_reading.specs.Trees as trees;
    ghost use Rattle.cm_wit_projects_reading.specs.Views.{gated_tree, world_item_tree};
    ghost use Rattle.cm_wit_projects_reading.specs.Worlds.{world_item};

    ghost Tree = { trees.Gated trees.WorldItem };

    ghost tree = { gated_tree world_item_tree };

    ghost grammar = { gated (λ _. world_item) };

    fn read(alloc: Global, cursor: &mut Cursor) -> Result<Gated<WorldItem>, ReadError> {
        let gates = read_gates(alloc, cursor)?;
        let left = place(cursor);
        let head = read_world_head(cursor)?;
        let item = read_world_item(alloc, cursor, head)?;
        Ok(Gated { gates, left, item })
    }
}

/// Reads the name of a world and its items in braces.
#[tactic(auto, using(crate::proofs::WorldLaws::world_item_laws))]
pub fn read_world(alloc: Global, cursor: &mut Cursor) -> Result<World, ReadError>
    ensures { Reads world_rest world_tree cursor.old cursor.new result }
{
    let name = cursor.identifier()?;
    cursor.expect(Operator::LeftBrace)?;
    let items = read_members(alloc, cursor)?;
    cursor.expect(Operator::RightBrace)?;
    Ok(World { name, items })
}
