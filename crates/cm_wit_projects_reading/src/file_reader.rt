//! Reading files.

ghost use Rattle.std.specs.Prelude.{◌≡◌, map};
ghost use Rattle.cm_wit_tokens.specs.Reading.{Reads};
ghost use Rattle.cm_wit_projects_reading.specs.Files.{file_behind, file_item_rest, file_items};
ghost use Rattle.cm_wit_projects_reading.specs.Files.{first, first_rest, nested_rest};
ghost use Rattle.cm_wit_projects_reading.specs.Files.{package_item_rest, package_items};
ghost use Rattle.cm_wit_projects_reading.specs.Files.{package_name, top_use_rest};
ghost use Rattle.cm_wit_projects_reading.specs.Gates.{some_gate};
ghost use Rattle.cm_wit_projects_reading.specs.Views.{file_item_tree, file_tree, first_tree};
ghost use Rattle.cm_wit_projects_reading.specs.Views.{gated_tree, nested_tree, package_item_tree};
ghost use Rattle.cm_wit_projects_reading.specs.Views.{package_name_tree, placed_gate_tree};
ghost use Rattle.cm_wit_projects_reading.specs.Views.{top_use_tree};
ghost use Rattle.cm_wit_reading.specs.Interfaces.{ended, new_name};

use crate::file::{FileItem, First, NestedPackage, PackageItem, PackageName, TopUse, WitFile};
use crate::gate_reader::read_gates;
use crate::gates::{Gated, PlacedGate};
use crate::heads::{FileHead, PackageHead, read_file_head, read_package_head};
use crate::interface_reader::read_interface;
use crate::left_out::place;
use crate::world_reader::read_world;
use cm_types::Label;
use cm_wit_reading::{read_optional_version, read_path};
use cm_wit_tokens::{Cursor, Item, Keyword, Operator, ReadError, read_members};
use std::alloc::Global;

/// Reads the name of a package.
fn read_package_name(cursor: &mut Cursor) -> Result<PackageName, ReadError>
    ensures { Reads package_name package_name_tree cursor.old cursor.new result }
{
    let namespace = cursor.identifier()?;
    cursor.expect(Operator::Colon)?;
    let name = cursor.identifier()?;
    let version = read_optional_version(cursor)?;
    Ok(PackageName {
        namespace,
        name,
        version,
    })
}

/// Reads `as` and a new name, where they stand, and `;`.
fn read_new_name(cursor: &mut Cursor) -> Result<Option<Label>, ReadError>
    ensures { Reads (ended new_name) (λ x. x) cursor.old cursor.new result }
{
    let new_name = if cursor.next_is_keyword(Keyword::As) {
        cursor.expect_keyword(Keyword::As)?;
        Some(cursor.identifier()?)
    } else {
        None
    };
    cursor.expect(Operator::Semicolon)?;
    Ok(new_name)
}

/// Reads what stands behind the `use` of a file or of a package in braces.
fn read_top_use(cursor: &mut Cursor) -> Result<TopUse, ReadError>
    ensures { Reads top_use_rest top_use_tree cursor.old cursor.new result }
{
    let path = read_path(cursor)?;
    let new_name = read_new_name(cursor)?;
    Ok(TopUse { path, new_name })
}

/// Reads an item of a package behind its first token.
fn read_package_item(
    alloc: Global,
    cursor: &mut Cursor,
    head: PackageHead,
) -> Result<PackageItem, ReadError>
    ensures { Reads (package_item_rest head) package_item_tree cursor.old cursor.new result }
{
    match head {
        PackageHead::Use => Ok(PackageItem::Use(read_top_use(cursor)?)),
        PackageHead::Interface => Ok(PackageItem::Interface(read_interface(alloc, cursor)?)),
        PackageHead::World => Ok(PackageItem::World(read_world(alloc, cursor)?)),
    }
}

/// Whether there are some gates.
fn some_gate(gates: &[PlacedGate]) -> bool
    ensures { result ≡ some_gate (map placed_gate_tree gates.now) }
{
    !gates.is_empty()
}

impl Item for Gated<PackageItem> {
    ghost use Rattle.cm_wit_projects_reading.specs.Files.{package_item};
    ghost use Rattle.cm_wit_projects_reading.specs.Gates.{gated};
    ghost use Rattle.cm_wit_projects_reading.specs.Trees as trees;
    ghost use Rattle.cm_wit_projects_reading.specs.Views.{gated_tree, package_item_tree};

    ghost Tree = { trees.Gated trees.PackageItem };

    ghost tree = { gated_tree package_item_tree };

    ghost grammar = { gated package_item };

    fn read(alloc: Global, cursor: &mut Cursor) -> Result<Gated<PackageItem>, ReadError> {
        let gates = read_gates(alloc, cursor)?;
        let left = place(cursor);
        let head = read_package_head(cursor, some_gate(&gates))?;
        let item = read_package_item(alloc, cursor, head)?;
        Ok(Gated { gates, left, item })
    }
}

/// Reads the items of a package in braces.
#[tactic(auto, using(crate::proofs::FileLaws::package_item_laws))]
fn read_package_items(
    alloc: Global,
    cursor: &mut Cursor,
) -> Result<Vec<Gated<PackageItem>>, ReadError>
    ensures { Reads package_items (λ v. map (gated_tree package_item_tree) v.items)
        cursor.old cursor.new result }
{
    cursor.expect(Operator::LeftBrace)?;
    let items = read_members(alloc, cursor)?;
    cursor.expect(Operator::RightBrace)?;
    Ok(items)
}

/// Reads the name of a package and its items in braces.
fn read_nested(alloc: Global, cursor: &mut Cursor) -> Result<NestedPackage, ReadError>
    ensures { Reads nested_rest nested_tree cursor.old cursor.new result }
{
    let name = read_package_name(cursor)?;
    let items = read_package_items(alloc, cursor)?;
    Ok(NestedPackage { name, items })
}

/// Reads an item of a file behind its first token.
fn read_file_item(alloc: Global, cursor: &mut Cursor, head: FileHead) -> Result<FileItem, ReadError>
    ensures { Reads (file_item_rest head) file_item_tree cursor.old cursor.new result }
{
    match head {
        FileHead::Item(head) => Ok(FileItem::Item(read_package_item(alloc, cursor, head)?)),
        FileHead::Package => Ok(FileItem::Package(read_nested(alloc, cursor)?)),
    }
}

impl Item for Gated<FileItem> {
    ghost use Rattle.cm_wit_projects_reading.specs.Files.{file_item};
    ghost use Rattle.cm_wit_projects_reading.specs.Gates.{gated};
    ghost use Rattle.cm_wit_projects_reading.specs.Trees as trees;
    ghost use Rattle.cm_wit_projects_reading.specs.Views.{file_item_tree, gated_tree};

    ghost Tree = { trees.Gated trees.FileItem };

    ghost tree = { gated_tree file_item_tree };

    ghost grammar = { gated file_item };

    fn read(alloc: Global, cursor: &mut Cursor) -> Result<Gated<FileItem>, ReadError> {
        let gates = read_gates(alloc, cursor)?;
        let left = place(cursor);
        let head = read_file_head(cursor, some_gate(&gates))?;
        let item = read_file_item(alloc, cursor, head)?;
        Ok(Gated { gates, left, item })
    }
}

/// Reads the items of a file.
#[tactic(auto, using(crate::proofs::FileLaws::file_item_laws))]
fn read_file_items(alloc: Global, cursor: &mut Cursor) -> Result<Vec<Gated<FileItem>>, ReadError>
    ensures { Reads file_items (λ v. map (gated_tree file_item_tree) v.items)
        cursor.old cursor.new result }
{
    read_members(alloc, cursor)
}

/// Reads what stands first in a file that begins with `package`.
fn read_first(alloc: Global, cursor: &mut Cursor) -> Result<First, ReadError>
    ensures { Reads first first_tree cursor.old cursor.new result }
{
    cursor.expect_keyword(Keyword::Package)?;
    let name = read_package_name(cursor)?;
    read_first_rest(alloc, cursor, name)
}

/// Reads the rest of the line of a package, or a package in braces, behind its name.
fn read_first_rest(
    alloc: Global,
    cursor: &mut Cursor,
    name: PackageName,
) -> Result<First, ReadError>
    ensures { Reads (first_rest (package_name_tree name)) first_tree cursor.old cursor.new result }
{
    if cursor.next_is(Operator::LeftBrace) {
        let items = read_package_items(alloc, cursor)?;
        Ok(First::Body(NestedPackage { name, items }))
    } else {
        cursor.expect(Operator::Semicolon)?;
        Ok(First::Line(name))
    }
}

/// Reads the items of a file behind what stands first in it, a `package` from where so many bytes
/// of the text are left.
fn read_file_behind(
    alloc: Global,
    cursor: &mut Cursor,
    left: usize,
    first: First,
) -> Result<WitFile, ReadError>
    ensures { Reads (file_behind (left, first_tree first)) file_tree cursor.old cursor.new result }
{
    let mut items = read_file_items(alloc, cursor)?;
    match first {
        First::Line(name) => Ok(WitFile {
            package: Some(name),
            items,
        }),
        First::Body(package) => {
            let first = Gated {
                gates: Vec::new(alloc),
                left,
                item: FileItem::Package(package),
            };
            items.insert(0, first)?;
            Ok(WitFile {
                package: None,
                items,
            })
        }
    }
}

impl Item for WitFile {
    ghost use Rattle.cm_wit_projects_reading.specs.Files.{file};
    ghost use Rattle.cm_wit_projects_reading.specs.Trees as trees;
    ghost use Rattle.cm_wit_projects_reading.specs.Views.{file_tree};

    ghost Tree = { trees.File };

    ghost tree = { file_tree };

    ghost grammar = { file };

    fn read(alloc: Global, cursor: &mut Cursor) -> Result<WitFile, ReadError> {
        if cursor.next_is_keyword(Keyword::Package) {
            let left = place(cursor);
            let first = read_first(alloc, cursor)?;
            read_file_behind(alloc, cursor, left, first)
        } else {
            let items = read_file_items(alloc, cursor)?;
            Ok(WitFile {
                package: None,
                items,
            })
        }
    }
}
