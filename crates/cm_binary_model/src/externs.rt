//! Imports and exports. Indices count from 0 in the index space of their sort.

ghost use Rattle.std.specs.Prelude.{◌≡◌, length, true};
ghost use Rattle.cm_binary_model.specs.declared.externs.Import.{Import};
ghost use Rattle.cm_binary_model.specs.declared.externs.Export.{Export};
ghost use Rattle.cm_binary_model.specs.Spelling.{desc_spelling, import_spelling, export_spelling};
ghost use Rattle.cm_binary_model.specs.Parts.{holds_desc, holds_import, holds_export};

use crate::measuring::{extern_name_length, index_length};
use crate::part::Part;
use cm_types::ExternName;

/// The type of an import (Binary.md, `externdesc`).
#[derive(Clone, Copy)]
pub enum ExternDesc {
    /// A function of the type with this index.
    Func(u32),
    /// An instance of the type with this index.
    Instance(u32),
}

/// An import (Binary.md, "Import and Export Definitions").
#[derive(Drop)]
pub struct Import {
    pub name: ExternName,
    pub desc: ExternDesc,
}

/// An export (Binary.md, "Import and Export Definitions").
#[derive(Drop)]
pub struct Export {
    pub name: ExternName,
    pub sort: ExportSort,
    pub index: u32,
}

/// What a component exports (Binary.md, `sort`).
#[derive(Clone, Copy)]
pub enum ExportSort {
    Func,
    Instance,
}

fn desc_length(desc: ExternDesc) -> u64
    ensures length { result ≡ length (desc_spelling desc) }
    ensures holds { holds_desc desc ≡ true }
{
    match desc {
        ExternDesc::Func(ty) | ExternDesc::Instance(ty) => 1 + index_length(ty),
    }
}

impl Part for Import {
    ghost Tree = { Import };

    ghost tree = { λ i. i };

    ghost spelling = { import_spelling };

    ghost holds = { holds_import };

    fn length(&self) -> u64 {
        extern_name_length(&self.name).saturating_add(desc_length(self.desc))
    }
}

impl Part for Export {
    ghost Tree = { Export };

    ghost tree = { λ e. e };

    ghost spelling = { export_spelling };

    ghost holds = { holds_export };

    fn length(&self) -> u64 {
        extern_name_length(&self.name).saturating_add(2 + index_length(self.index))
    }
}
