//! Reading worlds.

ghost use Rattle.std.specs.Prelude.{◌≡◌};
ghost use Rattle.cm_wit_tokens.specs.Reading.{Reads};
ghost use Rattle.cm_wit_reading.specs.Views.{extern_tree, world_tree};
ghost use Rattle.cm_wit_reading.specs.Worlds.{behind_colon, extern, world_rest};

use crate::heads::{WorldHead, read_world_head};
use crate::worlds::{World, WorldExtern, WorldItem};
use crate::{Path, read_foreign_path, read_func};
use cm_types::Label;
use cm_wit_tokens::{Cursor, Item, Keyword, Operator, ReadError, read_members};
use std::alloc::Global;

/// Reads what stands behind a name and its `:`.
fn read_behind_colon(
    alloc: Global,
    cursor: &mut Cursor,
    name: Label,
) -> Result<WorldExtern, ReadError>
    ensures { Reads (behind_colon name) extern_tree cursor.old cursor.new result }
{
    if cursor.next_is_keyword(Keyword::Func) {
        cursor.expect_keyword(Keyword::Func)?;
        Ok(WorldExtern::Func(name, read_func(alloc, cursor)?))
    } else {
        Ok(WorldExtern::Interface(read_foreign_path(name, cursor)?))
    }
}

/// Reads what is imported or exported.
fn read_extern(alloc: Global, cursor: &mut Cursor) -> Result<WorldExtern, ReadError>
    ensures { Reads extern extern_tree cursor.old cursor.new result }
{
    let name = cursor.identifier()?;
    if cursor.next_is(Operator::Colon) {
        cursor.expect(Operator::Colon)?;
        read_behind_colon(alloc, cursor, name)
    } else {
        Ok(WorldExtern::Interface(Path::Local(name)))
    }
}

impl Item for WorldItem {
    ghost use Rattle.cm_wit_reading.specs.Worlds.{world_item};
    ghost use Rattle.cm_wit_reading.specs.Trees as trees;
    ghost use Rattle.cm_wit_reading.specs.Views.{world_item_tree};

    ghost Tree = { trees.WorldItem };

    ghost tree = { world_item_tree };

    ghost grammar = { world_item };

    fn read(alloc: Global, cursor: &mut Cursor) -> Result<WorldItem, ReadError> {
        let head = read_world_head(cursor)?;
        let what = read_extern(alloc, cursor)?;
        cursor.expect(Operator::Semicolon)?;
        match head {
            WorldHead::Import => Ok(WorldItem::Import(what)),
            WorldHead::Export => Ok(WorldItem::Export(what)),
        }
    }
}

/// Reads the name of a world and its items in braces.
#[tactic(auto, using(crate::proofs::WorldLaws::world_item_laws))]
pub fn read_world(alloc: Global, cursor: &mut Cursor) -> Result<World, ReadError>
    ensures { Reads world_rest world_tree cursor.old cursor.new result }
{
    let name = cursor.identifier()?;
    cursor.expect(Operator::LeftBrace)?;
    let items = read_members(alloc, cursor)?;
    cursor.expect(Operator::RightBrace)?;
    Ok(World { name, items })
}
