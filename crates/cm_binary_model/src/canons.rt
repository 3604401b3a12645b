//! Canonical definitions. Indices count from 0 in the index space of their sort.

ghost use Rattle.cm_binary_model.specs.declared.canons.CanonOption.{CanonOption};
ghost use Rattle.cm_binary_model.specs.Trees.{CanonTree, canon_tree};
ghost use Rattle.cm_binary_model.specs.Spelling.{canon_spelling, option_spelling};
ghost use Rattle.cm_binary_model.specs.Parts.{holds_canon, holds_option};

use crate::measuring::index_length;
use crate::part::{Part, length_of_vec};

/// A canonical definition (Binary.md, "Canonical Definitions").
#[derive(Drop)]
pub enum Canon {
    /// A core function as a function of this type.
    Lift {
        core_func: u32,
        options: Vec<CanonOption>,
        ty: u32,
    },
    /// A function as a core function.
    Lower {
        func: u32,
        options: Vec<CanonOption>,
    },
    /// The core function that makes a handle of a resource type.
    ResourceNew {
        resource: u32,
    },
    /// The core function that drops a handle of a resource type.
    ResourceDrop {
        resource: u32,
    },
    /// The core function that tells what a handle of a resource type represents.
    ResourceRep {
        resource: u32,
    },
}

/// How values are lifted or lowered (Binary.md, `canonopt`).
#[derive(Clone, Copy)]
pub enum CanonOption {
    Utf8,
    Utf16,
    Latin1Utf16,
    /// The core memory in which values stand.
    Memory(u32),
    /// The core function that allocates in it.
    Realloc(u32),
    /// The core function that is called when a result was read.
    PostReturn(u32),
}

impl Part for CanonOption {
    ghost Tree = { CanonOption };

    ghost tree = { λ o. o };

    ghost spelling = { option_spelling };

    ghost holds = { holds_option };

    fn length(&self) -> u64 {
        match self {
            CanonOption::Utf8 | CanonOption::Utf16 | CanonOption::Latin1Utf16 => 1,
            CanonOption::Memory(index)
            | CanonOption::Realloc(index)
            | CanonOption::PostReturn(index) => 1 + index_length(*index),
        }
    }
}

impl Part for Canon {
    ghost Tree = { CanonTree };

    ghost tree = { canon_tree };

    ghost spelling = { canon_spelling };

    ghost holds = { holds_canon };

    fn length(&self) -> u64 {
        match self {
            Canon::Lift {
                core_func,
                options,
                ty,
            } => (2 + index_length(*core_func) + index_length(*ty)).saturating_add(length_of_vec(
                options,
            )),
            Canon::Lower { func, options } => {
                (2 + index_length(*func)).saturating_add(length_of_vec(options))
            }
            Canon::ResourceNew { resource }
            | Canon::ResourceDrop { resource }
            | Canon::ResourceRep { resource } => 1 + index_length(*resource),
        }
    }
}
