//! Files as WIT texts write them.

use crate::interfaces::Interface;
use crate::worlds::World;
use cm_types::Label;
use cm_wit_tokens::Version;

/// An interface or a world.
#[derive(Drop)]
pub enum FileItem {
    Interface(Interface),
    World(World),
}

/// What a WIT text spells: the name of its package, and the interfaces and worlds of the package
/// (WIT.md, `wit-file`). Whether the names in it lead to anything is another question.
#[derive(Drop)]
pub struct WitFile {
    pub namespace: Label,
    pub package: Label,
    pub version: Option<Version>,
    pub items: Vec<FileItem>,
}
