//! Instances, aliases of what they export, aliases of types, imports and exports.

use crate::spaces::IndexSpaces;
use cm_binary_model::{Export, Import, Instance, InstanceExportSort};
use cm_layout_placed::laws::first_layouts_stay;
use cm_types::OuterType;
use cm_validate_core::laws::others_add_nothing as core_stays;
use cm_validate_entries::Aliased;
use cm_validate_entries::laws::{entries_stay, others_add_nothing as component_stays};
use cm_validate_instances::add_instance;
use cm_validate_model::ValidReason;
use cm_validate_types::TypeEntry;
use std::alloc::{AllocError, Global};

impl<'a> IndexSpaces<'a> {
    ghost use Rattle.std.specs.Prelude.{◌≡◌, IfOk, IfSome, length, slice_get, true};
    ghost use Rattle.std.specs.Option.{option_map};
    ghost use Rattle.cm_binary_model.specs.Trees.{instance_export, instance_tree, outer_type};
    ghost use Rattle.cm_validate_model.specs.Items.{alias_item, export_item, import_item};
    ghost use Rattle.cm_validate_model.specs.Items.{instance_item};
    ghost use Rattle.cm_validate_types.specs.Entries.{def_of, is_entry_there};
    ghost use Rattle.cm_validate_types.specs.Settled.{IsEntrySettled};
    ghost use Rattle.cm_validate_types.specs.SettledScopes.{AreSettled};
    ghost use Rattle.cm_validate_types.specs.TypeScopes.{own_types};
    ghost use Rattle.cm_validate_spaces.specs.IndexSpaces.{Answers, Stands, funcs_in, types_in};

    /// Adds an instance of definitions under names. Answers the least reason to refuse it, or none:
    /// `NoSuchIndex` where an export names nothing, `WrongSort` where it names a type that is
    /// neither a value type nor a resource, `DuplicateName` where two have the same name, ASCII
    /// case aside, and `BadAnnotatedName` where one has a name that it may not have among the
    /// others; nothing is added then (Explainer.md, "Instance Definitions"). `AllocError` comes
    /// where there is no memory; the spaces are then to be dropped.
    pub fn add_instance(
        &mut self,
        alloc: Global,
        instance: &'a Instance,
    ) -> Result<Option<ValidReason>, AllocError>
        ensures { IfOk result (λ r. Answers (instance_item (instance_tree instance.now))
            self.old r self.new) }
    {
        core_stays();
        add_instance(
            &mut self.component,
            alloc,
            self.types.types(),
            self.types.entries(),
            &instance.exports,
        )
    }

    /// Adds an alias of what an instance exports under a name. Answers why it is refused, or none:
    /// `NoSuchIndex` where there is no such instance or no such name in it, `WrongSort` where what
    /// is there is of another sort; nothing is added then (Explainer.md, "Alias Definitions").
    /// `AllocError` comes where there is no memory; the spaces are then to be dropped. It costs one
    /// look-up.
    pub fn alias_export(
        &mut self,
        sort: InstanceExportSort,
        instance: u32,
        name: &'a str,
    ) -> Result<Option<ValidReason>, AllocError>
        requires { Stands self.old }
        ensures { IfOk result (λ r. Answers
            (alias_item (instance_export sort instance name.now)) self.old r self.new) }
    {
        first_layouts_stay();
        core_stays();
        entries_stay();
        match self.component.alias(sort, instance, name)? {
            Aliased::Broken(reason) => Ok(Some(reason)),
            Aliased::Func => Ok(None),
            Aliased::Type(ty) => {
                self.types.add(ty)?;
                Ok(None)
            }
        }
    }

    /// The type of an index once more, if there is one.
    fn shared_type(&self, index: u32) -> Result<Option<TypeEntry>, AllocError>
        ensures def { IfOk result (λ t.
            option_map (def_of (types_in self.now) (funcs_in self.now)) t
            ≡ slice_get (own_types self.now.types) index) }
        ensures there { IfOk result (λ t. IfSome t (λ e. is_entry_there (length (types_in self.now))
            (length (funcs_in self.now)) e ≡ true)) }
        ensures settled { IfOk result (λ t. AreSettled self.now.types → IfSome t
            (IsEntrySettled (types_in self.now) (funcs_in self.now))) }
    {
        match self.types.get(index) {
            None => Ok(None),
            Some(ty) => Ok(Some(ty.share()?)),
        }
    }

    /// Adds an alias of a type of the component itself, which no component is around. Answers
    /// `NoSuchIndex` where it names another component or no type, or none; nothing is added then
    /// (Explainer.md, "Alias Definitions"). `AllocError` comes where there is no memory; the spaces
    /// are then to be dropped.
    pub fn alias_type(&mut self, outer: OuterType) -> Result<Option<ValidReason>, AllocError>
        ensures { IfOk result (λ r. Answers (alias_item (outer_type outer))
            self.old r self.new) }
    {
        first_layouts_stay();
        core_stays();
        component_stays();
        entries_stay();
        if outer.count != 0 {
            return Ok(Some(ValidReason::NoSuchIndex));
        }
        match self.shared_type(outer.index)? {
            None => Ok(Some(ValidReason::NoSuchIndex)),
            Some(ty) => {
                self.types.add(ty)?;
                Ok(None)
            }
        }
    }

    /// Adds an import. Answers the least reason to refuse it, or none: `NoSuchIndex` where its type
    /// is not there, `WrongSort` where that is of another sort, `DuplicateName` where an import
    /// before it has its name, ASCII case aside, and `BadAnnotatedName` where its name is none that
    /// it may have; nothing is added then (Explainer.md, "Import and Export Definitions").
    /// `AllocError` comes where there is no memory, or where the numbers of resources pass 2^64;
    /// the spaces are then to be dropped. It costs its name.
    pub fn add_import(
        &mut self,
        alloc: Global,
        import: &Import,
    ) -> Result<Option<ValidReason>, AllocError>
        ensures { IfOk result (λ r. Answers (import_item import.now) self.old r self.new) }
    {
        core_stays();
        self.component.import(alloc, self.types.entries(), import)
    }

    /// Adds an export. Answers the least reason to refuse it, or none: `NoSuchIndex` where what it
    /// names is not there, `DuplicateName` where an export before it has its name, ASCII case
    /// aside, and `BadAnnotatedName` where its name is none that it may have; nothing is added then
    /// (Explainer.md, "Import and Export Definitions"). `AllocError` comes where there is no
    /// memory; the spaces are then to be dropped. It costs its name.
    pub fn add_export(
        &mut self,
        alloc: Global,
        export: &'a Export,
    ) -> Result<Option<ValidReason>, AllocError>
        ensures { IfOk result (λ r. Answers (export_item export.now) self.old r self.new) }
    {
        core_stays();
        self.component.export(alloc, export)
    }
}
