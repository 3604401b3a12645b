//! Files as projects write them.

use crate::gates::Gated;
use crate::interfaces::Interface;
use crate::worlds::World;
use cm_types::Label;
use cm_wit_reading::Path;
use cm_wit_tokens::Version;

/// The name of a package (WIT.md, "Package declaration").
#[derive(Drop)]
pub struct PackageName {
    pub namespace: Label,
    pub name: Label,
    pub version: Option<Version>,
}

/// A name for an interface or a world, in one file or one package in braces (WIT.md,
/// `toplevel-use-item`).
#[derive(Drop)]
pub struct TopUse {
    pub path: Path,
    pub new_name: Option<Label>,
}

/// An item of a package (WIT.md, `package-items`).
#[derive(Drop)]
pub enum PackageItem {
    Use(TopUse),
    Interface(Interface),
    World(World),
}

/// A package in braces (WIT.md, `nested-package-definition`).
#[derive(Drop)]
pub struct NestedPackage {
    pub name: PackageName,
    pub items: Vec<Gated<PackageItem>>,
}

/// An item of a file.
#[derive(Drop)]
pub enum FileItem {
    Item(PackageItem),
    Package(NestedPackage),
}

/// What stands first in a file that begins with `package`: the line of its package, or a package in
/// braces.
#[derive(Drop)]
pub enum First {
    Line(PackageName),
    Body(NestedPackage),
}

/// What a text spells: the name of its package, if it has a line for it, and its items (WIT.md,
/// `wit-file`). Whether the names in it lead to anything is another question.
#[derive(Drop)]
pub struct WitFile {
    pub package: Option<PackageName>,
    pub items: Vec<Gated<FileItem>>,
}
