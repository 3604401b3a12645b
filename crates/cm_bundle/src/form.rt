//! The form of bundles.

/// The first eight bytes of a component (Binary.md, "Component Definitions").
pub const BUNDLE_PREAMBLE: [u8; 8] = [0x00, 0x61, 0x73, 0x6d, 0x0d, 0x00, 0x01, 0x00];

/// The most parts of a bundle, a limit of this project's own.
pub const MAX_PARTS: usize = 1_000;

/// What a custom section of names begins with (Binary.md, "Name Section"): `component-name` behind
/// its length, and the id of a subsection of the names of one sort.
pub const NAMES_HEAD: [u8; 16] = [
    0x0e, 0x63, 0x6f, 0x6d, 0x70, 0x6f, 0x6e, 0x65, 0x6e, 0x74, 0x2d, 0x6e, 0x61, 0x6d, 0x65, 0x01,
];

/// A set of components as one.
#[derive(Drop)]
pub struct Bundle<'a> {
    /// What the bundle imports: nothing where it is closed, which means that this is empty.
    pub front: Vec<ImportGroup<'a>>,
    pub parts: Vec<Part<'a>>,
    /// What the bundle exports.
    pub exports: Vec<Supply<'a>>,
    /// The contents of the custom sections behind the exports.
    pub customs: Vec<&'a [u8]>,
}

/// Three sections in front of the parts of an open bundle, by their contents.
#[derive(Clone, Copy)]
pub struct ImportGroup<'a> {
    /// Types (Binary.md, `type`), which are not looked at.
    pub types: &'a [u8],
    /// Imports of functions and instances (`import`).
    pub imports: &'a [u8],
    /// Aliases of types that imported instances export (`alias`).
    pub aliases: &'a [u8],
}

/// What a bundle imports under a name.
#[derive(Clone, Copy)]
pub struct BundleImport<'a> {
    pub name: &'a str,
    pub sort: Sort,
    /// The index of its type among those of the bundle.
    pub ty: u32,
}

/// A type that an imported instance exports.
#[derive(Clone, Copy)]
pub struct TypeAlias<'a> {
    /// The index of the instance.
    pub instance: u32,
    pub name: &'a str,
}

/// A bundle without custom sections.
#[derive(Drop)]
pub struct Content<'a> {
    pub front: Vec<ImportGroup<'a>>,
    pub body: Body<'a>,
}

/// The parts of a bundle, and what it exports.
#[derive(Drop)]
pub struct Body<'a> {
    pub parts: Vec<Part<'a>>,
    /// What the bundle exports.
    pub exports: Vec<Supply<'a>>,
}

/// What a part of a bundle is called.
#[derive(Clone, Copy)]
pub struct PartName<'a> {
    /// The part, counted from 0.
    pub part: u32,
    pub name: &'a str,
}

/// A component of a bundle.
#[derive(Drop)]
pub struct Part<'a> {
    /// The bytes of its file.
    pub file: &'a [u8],
    /// What each of its imports is given, in their order.
    pub arguments: Vec<Supply<'a>>,
}

/// An export of a part, passed on under a name: to an import of this name, or out of the bundle.
#[derive(Clone, Copy)]
pub struct Supply<'a> {
    pub name: &'a str,
    pub export: PartExport<'a>,
}

/// An export of a part, or an import of the bundle.
#[derive(Clone, Copy)]
pub struct PartExport<'a> {
    /// The part. They are counted from 0, and in an open bundle from 1: there 0 stands for what the
    /// bundle imports.
    pub part: usize,
    pub sort: Sort,
    pub name: &'a str,
}

/// What is passed on (Binary.md, `sort`).
#[derive(Clone, Copy, Debug, PartialEq, Eq)]
pub enum Sort {
    Func,
    Instance,
}
