//! The tree of a component file that may have shims. Indices count from 0 in the index space of
//! their sort.

use cm_binary_model::{InlineExport, InstanceExportSort, Section};
use cm_types::{ExportDesc, ExternName};

/// An import of a shim (Binary.md, `import`): a function by its type, or a type as it is bound.
#[derive(Drop)]
pub struct ShimImport {
    pub name: ExternName,
    pub desc: ExportDesc,
}

/// An export of a shim (Binary.md, `export`): a function or a type; and the type that is ascribed
/// to a function, if one is.
#[derive(Drop)]
pub struct ShimExport {
    pub name: ExternName,
    pub sort: InstanceExportSort,
    pub index: u32,
    pub ascribed: Option<u32>,
}

/// A section of a shim.
#[derive(Drop)]
pub enum ShimSection {
    /// Section 0 or 7, as outside of shims.
    Shared(Section),
    /// Section 10.
    Imports(Vec<ShimImport>),
    /// Section 11.
    Exports(Vec<ShimExport>),
}

/// A shim: the size of its section in bytes, and its sections.
#[derive(Drop)]
pub struct Shim {
    pub size: u32,
    pub sections: Vec<ShimSection>,
}

/// What a shim is given under a name (Binary.md, `instantiatearg`).
#[derive(Drop)]
pub struct Argument {
    pub name: ExternName,
    pub sort: InstanceExportSort,
    pub index: u32,
}

/// An instance (Binary.md, "Instance Definitions").
#[derive(Drop)]
pub enum WideInstance {
    /// Definitions under names.
    Exports(Vec<InlineExport>),
    /// An instance of a shim, with what it is given.
    Instantiate { component: u32, args: Vec<Argument> },
}

/// The type of an import (Binary.md, `externdesc`).
#[derive(Clone, Copy)]
pub enum WideDesc {
    /// A function of the type with this index.
    Func(u32),
    /// An instance of the type with this index.
    Instance(u32),
    /// A type that is equal to the one with this index.
    Type(u32),
}

/// An import (Binary.md, "Import and Export Definitions").
#[derive(Drop)]
pub struct WideImport {
    pub name: ExternName,
    pub desc: WideDesc,
}

/// One section of a file that may have shims (Binary.md, "Component Definitions").
#[derive(Drop)]
pub enum WideSection {
    /// A section that a file without shims may have too, but no instances and no imports.
    Plain(Section),
    /// Section 4: a shim.
    Shim(Shim),
    /// Section 5.
    Instances(Vec<WideInstance>),
    /// Section 10.
    Imports(Vec<WideImport>),
}
