//! Exports.

ghost use Rattle.std.specs.Prelude.{◌≡◌, ℕ, IfOk, List};
ghost use Rattle.cm_types.specs.Types.{FuncTy, Ty};

use crate::entries::{FuncEntry, InstanceEntry};
use crate::spaces::{ComponentSpaces, ExportEntry, ExportedEntry};
use cm_binary_model::{Export, ExportSort};
use cm_types::ExternName;
use cm_validate_core::{ExternSort, FoldedName};
use cm_validate_model::ValidReason;
use cm_validate_model::laws::least_of_both;
use cm_validate_types::lesser;
use std::alloc::{AllocError, Global};

impl<'a> InstanceEntry<'a> {
    ghost use Rattle.cm_validate_entries.specs.Entries.{are_members_there, members_of};

    /// This instance again, shared. `AllocError` comes where it is shared too often to be counted.
    pub fn share(&self) -> Result<InstanceEntry<'a>, AllocError>
        ensures same { IfOk result (λ i. (types : List Ty) (funcs : List FuncTy)
            → members_of types funcs i ≡ members_of types funcs self.now) }
        ensures there { IfOk result (λ i. (types funcs : ℕ)
            → are_members_there types funcs i ≡ are_members_there types funcs self.now) }
    {
        Ok(match self {
            InstanceEntry::Imported { import, items, by } => InstanceEntry::Imported {
                import: *import,
                items: items.clone()?,
                by: *by,
            },
            InstanceEntry::Exporting(members) => InstanceEntry::Exporting(members.clone()?),
        })
    }
}

impl<'a> ComponentSpaces<'a> {
    ghost use Rattle.std.specs.Prelude.{slice_get};
    ghost use Rattle.std.specs.Option.{option_map};
    ghost use Rattle.cm_binary_model.specs.declared.externs.ExportSort.TheVariants as sort;
    ghost use Rattle.cm_validate_model.specs.Items.{export_item};
    ghost use Rattle.cm_validate_core.specs.NameSets.{name_of};
    ghost use Rattle.cm_validate_entries.specs.ComponentSpaces.{AnswersAlone};

    /// The function of an index, if there is one.
    pub(crate) fn func_entry(&self, index: u32) -> Option<FuncEntry<'a>>
        ensures { result ≡ slice_get self.now.funcs.items index }
    {
        self.funcs.get(index as usize).copied()
    }

    /// The instance of an index, if there is one.
    fn instance_entry(&self, index: u32) -> Option<&InstanceEntry<'a>>
        ensures { option_map (λ e. e.now) result ≡ slice_get self.now.instances.items index }
    {
        self.instances.get(index as usize)
    }

    /// Adds an export of the function of an index.
    fn export_func(
        &mut self,
        index: u32,
        name: &'a ExternName,
        folded: FoldedName,
    ) -> Result<Option<ValidReason>, AllocError>
        requires { name_of folded ≡ name.now }
        ensures { IfOk result (λ r. AnswersAlone (export_item
            (record { name = name.now; sort = sort.Func; index = index })) self.old r self.new) }
    {
        least_of_both();
        let fault = self.export_names.fault(&folded, ExternSort::Func);
        let Some(func) = self.func_entry(index) else {
            return Ok(lesser(Some(ValidReason::NoSuchIndex), fault));
        };
        if fault.is_some() {
            return Ok(fault);
        }
        self.push_func(func)?;
        let def = ExportedEntry::Func(func);
        self.add_export(ExportEntry { name, def }, folded)?;
        Ok(None)
    }

    /// Adds an export of the instance of an index.
    fn export_instance(
        &mut self,
        index: u32,
        name: &'a ExternName,
        folded: FoldedName,
    ) -> Result<Option<ValidReason>, AllocError>
        requires { name_of folded ≡ name.now }
        ensures { IfOk result (λ r. AnswersAlone (export_item
            (record { name = name.now; sort = sort.Instance; index = index }))
            self.old r self.new) }
    {
        least_of_both();
        let fault = self.export_names.fault(&folded, ExternSort::Instance);
        let Some(instance) = self.instance_entry(index) else {
            return Ok(lesser(Some(ValidReason::NoSuchIndex), fault));
        };
        if fault.is_some() {
            return Ok(fault);
        }
        let added = instance.share()?;
        let def = ExportedEntry::Instance(instance.share()?);
        self.push_instance(added)?;
        self.add_export(ExportEntry { name, def }, folded)?;
        Ok(None)
    }

    /// Adds an export. Answers why it is refused: the reason with the smallest number, or none.
    /// `NoSuchIndex` comes where what it names is not there, `DuplicateName` where an export before
    /// it has its name, ASCII case aside, and `BadAnnotatedName` where its name is none that it may
    /// have; the spaces then stay as they are (Explainer.md, "Import and Export Definitions").
    /// `AllocError` comes where there is no memory; the spaces are then to be dropped.
    ///
    /// What it costs is its name: the members of an instance are shared.
    pub fn export(
        &mut self,
        alloc: Global,
        export: &'a Export,
    ) -> Result<Option<ValidReason>, AllocError>
        ensures { IfOk result (λ r. AnswersAlone (export_item export.now) self.old r self.new) }
    {
        let folded = FoldedName::new(alloc, &export.name)?;
        let name = &export.name;
        match export.sort {
            ExportSort::Func => self.export_func(export.index, name, folded),
            ExportSort::Instance => self.export_instance(export.index, name, folded),
        }
    }
}
