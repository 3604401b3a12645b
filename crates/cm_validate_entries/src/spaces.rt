//! The index spaces of functions and instances.

use crate::entries::{FuncEntry, InstanceEntry};
use cm_types::ExternName;
use cm_types_arena::Extern;
use cm_validate_core::{FoldedName, NameSet};
use cm_validate_items::Resources;
use std::alloc::{AllocError, Global};

/// What a component exports.
#[derive(Drop)]
pub enum ExportedEntry<'a> {
    Func(FuncEntry<'a>),
    Instance(InstanceEntry<'a>),
}

/// An export with its name, which is borrowed from the component.
#[derive(Drop)]
pub struct ExportEntry<'a> {
    pub name: &'a ExternName,
    pub def: ExportedEntry<'a>,
}

/// The functions and the instances of a component, its resources, its imports and its exports,
/// after some of its items (Explainer.md, "Index Spaces"). Types are places of an arena, which
/// stands beside it; names and options are borrowed from the component.
#[derive(Drop)]
pub struct ComponentSpaces<'a> {
    pub(crate) funcs: Vec<FuncEntry<'a>>,
    pub(crate) instances: Vec<InstanceEntry<'a>>,
    pub(crate) resources: Resources,
    pub(crate) imports: Vec<Extern>,
    pub(crate) import_names: NameSet,
    pub(crate) exports: Vec<ExportEntry<'a>>,
    pub(crate) export_names: NameSet,
}

impl<'a> ComponentSpaces<'a> {
    ghost use Rattle.std.specs.Prelude.{List, OnErr, OnOk};
    ghost use Rattle.cm_types.specs.Types.{FuncTy, Ty};
    ghost use Rattle.cm_validate_model.specs.Spaces.{empty_spaces};
    ghost use Rattle.cm_validate_core.specs.NameSets.{name_of};
    ghost use Rattle.cm_validate_entries.specs.ComponentSpaces.{IsComponentOf, Stays};
    ghost use Rattle.cm_validate_entries.specs.Steps.{AddsExport, AddsImport, PushesFunc};
    ghost use Rattle.cm_validate_entries.specs.Steps.{PushesInstance};

    /// No definitions.
    pub fn new(alloc: Global) -> ComponentSpaces<'a>
        ensures { (types : List Ty) (funcs : List FuncTy)
            → IsComponentOf types funcs result empty_spaces }
    {
        ComponentSpaces {
            funcs: Vec::new(alloc),
            instances: Vec::new(alloc),
            resources: Resources::new(alloc),
            imports: Vec::new(alloc),
            import_names: NameSet::new(alloc),
            exports: Vec::new(alloc),
            export_names: NameSet::new(alloc),
        }
    }

    /// Makes room for so many more imports, of which so many are functions. `AllocError` comes if
    /// there is no memory for it. The spaces stay as they are.
    #[tactic(auto, using(crate::proofs::RoomLaws::same_stays))]
    pub fn reserve_imports(&mut self, imports: usize, funcs: usize) -> Result<(), AllocError>
        ensures { Stays self.old self.new }
    {
        self.funcs.reserve(funcs)?;
        self.imports.reserve(imports)?;
        self.import_names.reserve(imports)
    }

    /// Makes room for so many more exports, of which so many are functions. `AllocError` comes if
    /// there is no memory for it. The spaces stay as they are.
    #[tactic(auto, using(crate::proofs::RoomLaws::same_stays))]
    pub fn reserve_exports(&mut self, exports: usize, funcs: usize) -> Result<(), AllocError>
        ensures { Stays self.old self.new }
    {
        self.funcs.reserve(funcs)?;
        self.exports.reserve(exports)?;
        self.export_names.reserve(exports)
    }

    /// Adds a function. `AllocError` comes where there is no memory for it; the spaces then stay as
    /// they are.
    pub(crate) fn push_func(&mut self, func: FuncEntry<'a>) -> Result<(), AllocError>
        ensures pushed { OnOk result (PushesFunc func.entry self.old self.new) }
        ensures kept { OnErr result (Stays self.old self.new) }
    {
        self.funcs.push(func)?;
        Ok(())
    }

    /// Adds an instance. `AllocError` comes where there is no memory for it; the spaces then stay
    /// as they are.
    pub(crate) fn push_instance(&mut self, instance: InstanceEntry<'a>) -> Result<(), AllocError>
        ensures pushed { OnOk result (PushesInstance instance.entry self.old self.new) }
        ensures kept { OnErr result (Stays self.old self.new) }
    {
        self.instances.push(instance)?;
        Ok(())
    }

    /// Adds an import under a name.
    pub(crate) fn add_import(&mut self, entry: Extern, folded: FoldedName) -> Result<(), AllocError>
        ensures { OnOk result (AddsImport entry (name_of folded) self.old self.new) }
    {
        self.imports.push(entry)?;
        self.import_names.add(folded)
    }

    /// Adds an export under a name.
    pub(crate) fn add_export(
        &mut self,
        entry: ExportEntry<'a>,
        folded: FoldedName,
    ) -> Result<(), AllocError>
        ensures { OnOk result (AddsExport entry.entry (name_of folded) self.old self.new) }
    {
        self.exports.push(entry)?;
        self.export_names.add(folded)
    }
}
