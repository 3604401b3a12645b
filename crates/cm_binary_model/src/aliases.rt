//! Aliases. Indices count from 0 in the index space of their sort.

ghost use Rattle.std.specs.Prelude.{◌≡◌, ◌≤◌, length, true};
ghost use Rattle.cm_binary_model.specs.Trees.{AliasTree, alias_tree};
ghost use Rattle.cm_binary_model.specs.Spelling.{alias_spelling, outer_type_spelling};
ghost use Rattle.cm_binary_model.specs.Parts.{holds_alias, holds_outer_type};

use crate::instances::{CoreSort, InstanceExportSort};
use crate::measuring::{index_length, name_length, text_length};
use crate::part::Part;
use cm_types::{ExternName, OuterType};

/// A definition taken from elsewhere (Binary.md, "Alias Definitions").
#[derive(Drop)]
pub enum Alias {
    /// What an instance exports under this name.
    InstanceExport {
        sort: InstanceExportSort,
        instance: u32,
        name: ExternName,
    },
    /// What a core instance exports under this name.
    CoreInstanceExport {
        sort: CoreSort,
        instance: u32,
        name: String,
    },
    /// A type of a component around.
    OuterType(OuterType),
}

/// The length of a type of a component around, at most 10.
pub(crate) fn outer_type_length(outer: OuterType) -> u64
    ensures length { result ≡ length (outer_type_spelling outer) }
    ensures few { result ≤ 10 }
    ensures holds { holds_outer_type outer ≡ true }
{
    index_length(outer.count) + index_length(outer.index)
}

impl Part for Alias {
    ghost Tree = { AliasTree };

    ghost tree = { alias_tree };

    ghost spelling = { alias_spelling };

    ghost holds = { holds_alias };

    fn length(&self) -> u64 {
        match self {
            Alias::InstanceExport { instance, name, .. } => {
                (2 + index_length(*instance)).saturating_add(name_length(name))
            }
            Alias::CoreInstanceExport { instance, name, .. } => {
                (3 + index_length(*instance)).saturating_add(text_length(name))
            }
            Alias::OuterType(outer) => 2 + outer_type_length(*outer),
        }
    }
}
