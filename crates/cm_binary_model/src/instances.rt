//! Core instances and instances. Indices count from 0 in the index space of their sort.

ghost use Rattle.std.specs.Prelude.{List};
ghost use Rattle.cm_binary_model.specs.declared.instances.InlineExport.{InlineExport};
ghost use Rattle.cm_binary_model.specs.Trees.{ArgTree, arg_tree, CoreExportTree, core_export_tree};
ghost use Rattle.cm_binary_model.specs.Trees.{CoreInstanceTree, core_instance_tree, instance_tree};
ghost use Rattle.cm_binary_model.specs.Spelling.{core_arg_spelling, core_export_spelling};
ghost use Rattle.cm_binary_model.specs.Spelling.{core_instance_spelling, inline_export_spelling};
ghost use Rattle.cm_binary_model.specs.Spelling.{instance_spelling};
ghost use Rattle.cm_binary_model.specs.Parts.{holds_arg, holds_core_export, holds_core_instance};
ghost use Rattle.cm_binary_model.specs.Parts.{holds_inline_export, holds_instance};

use crate::measuring::{extern_name_length, index_length, text_length};
use crate::part::{Part, length_of_vec};
use cm_types::ExternName;

/// A core instance (Binary.md, "Core Instance Definitions").
#[derive(Drop)]
pub enum CoreInstance {
    /// A core module with an instance for each name that it imports from.
    Instantiate {
        module: u32,
        args: Vec<CoreInstantiationArg>,
    },
    /// Core definitions under names.
    Exports(Vec<CoreInlineExport>),
}

/// A core instance given to a module under a name (Binary.md, `core:instantiatearg`).
#[derive(Drop)]
pub struct CoreInstantiationArg {
    pub name: String,
    pub instance: u32,
}

/// A core definition under a name (Binary.md, `core:inlineexport`).
#[derive(Drop)]
pub struct CoreInlineExport {
    pub name: String,
    pub sort: CoreSort,
    pub index: u32,
}

/// What a core definition is (Binary.md, `core:sort`).
#[derive(Clone, Copy)]
pub enum CoreSort {
    Func,
    Table,
    Memory,
    Global,
}

/// An instance made of definitions under names (Binary.md, "Instance Definitions").
#[derive(Drop)]
pub struct Instance {
    pub exports: Vec<InlineExport>,
}

/// A definition under a name (Binary.md, `inlineexport`).
#[derive(Drop)]
pub struct InlineExport {
    pub name: ExternName,
    pub sort: InstanceExportSort,
    pub index: u32,
}

/// What an instance exports (Binary.md, `sort`).
#[derive(Clone, Copy)]
pub enum InstanceExportSort {
    Func,
    Type,
}

impl Part for CoreInstantiationArg {
    ghost Tree = { ArgTree };

    ghost tree = { arg_tree };

    ghost spelling = { core_arg_spelling };

    ghost holds = { holds_arg };

    fn length(&self) -> u64 {
        text_length(&self.name).saturating_add(1 + index_length(self.instance))
    }
}

impl Part for CoreInlineExport {
    ghost Tree = { CoreExportTree };

    ghost tree = { core_export_tree };

    ghost spelling = { core_export_spelling };

    ghost holds = { holds_core_export };

    fn length(&self) -> u64 {
        text_length(&self.name).saturating_add(1 + index_length(self.index))
    }
}

impl Part for CoreInstance {
    ghost Tree = { CoreInstanceTree };

    ghost tree = { core_instance_tree };

    ghost spelling = { core_instance_spelling };

    ghost holds = { holds_core_instance };

    fn length(&self) -> u64 {
        match self {
            CoreInstance::Instantiate { module, args } => {
                (1 + index_length(*module)).saturating_add(length_of_vec(args))
            }
            CoreInstance::Exports(exports) => length_of_vec(exports).saturating_add(1),
        }
    }
}

impl Part for InlineExport {
    ghost Tree = { InlineExport };

    ghost tree = { λ e. e };

    ghost spelling = { inline_export_spelling };

    ghost holds = { holds_inline_export };

    fn length(&self) -> u64 {
        extern_name_length(&self.name).saturating_add(1 + index_length(self.index))
    }
}

impl Part for Instance {
    ghost Tree = { List InlineExport };

    ghost tree = { instance_tree };

    ghost spelling = { instance_spelling };

    ghost holds = { holds_instance };

    fn length(&self) -> u64 {
        length_of_vec(&self.exports).saturating_add(1)
    }
}
