//! What stands in the core index spaces.

use crate::name_map::NameMap;

/// What a core instance that is made of a module exports under a name.
#[derive(Clone, Copy)]
pub struct GuestExport<'a> {
    pub instance: u32,
    pub name: &'a str,
}

/// A memory that such an instance exports. Memories are the same where their core instances and
/// their numbers are.
#[derive(Clone, Copy)]
pub struct GuestMemory<'a> {
    pub export: GuestExport<'a>,
    /// The place of its name, from 0, among the names that memories of instances of modules were
    /// aliased by, each of which stands there once, whatever its instances are.
    pub number: usize,
}

/// A core function.
#[derive(Clone, Copy)]
pub enum CoreFunc<'a> {
    Guest(GuestExport<'a>),
    /// One that a canonical definition made, by its number among those, from 0.
    Made(u32),
}

/// A core definition, of whatever sort.
#[derive(Clone, Copy)]
pub enum CoreItem<'a> {
    Func(CoreFunc<'a>),
    Table(GuestExport<'a>),
    Memory(GuestMemory<'a>),
    Global(GuestExport<'a>),
}

/// A core instance (Explainer.md, "Instance Definitions").
#[derive(Drop)]
pub enum CoreInstanceEntry<'a> {
    /// Made of the core module of this index.
    Instantiated(u32),
    /// Core definitions under names.
    Exporting(NameMap<'a, CoreItem<'a>>),
}
