//! Core instances: a module with what it is given, or core definitions under names.

ghost use Rattle.std.specs.Prelude.{◌≡◌, ℕ, IfOk, IfSome, List, map, is_some, true};
ghost use Rattle.std.specs.List.{list_all};
ghost use Rattle.std.specs.Option.{option_map};
ghost use Rattle.std.specs.String.{string_bytes};
ghost use Rattle.cm_binary_model.specs.Trees.{arg_tree, core_export_tree};
ghost use Rattle.cm_validate_model.specs.Definitions.{CoreFuncDef};
ghost use Rattle.cm_validate_model.specs.Rules.{are_distinct_texts};
ghost use Rattle.cm_validate_model.specs.Spaces.{Spaces};
ghost use Rattle.cm_validate_core.specs.NameMaps.{entries_of};
ghost use Rattle.cm_validate_core.specs.CoreSpaces.{IsCoreOf};

use crate::aliases::instance_at;
use crate::entries::{CoreFunc, CoreInstanceEntry, CoreItem, GuestExport, GuestMemory};
use crate::name_map::NameMap;
use crate::reasons::broken_unless;
use crate::spaces::CoreSpaces;
use cm_binary_model::{CoreInlineExport, CoreInstance, CoreInstantiationArg, CoreSort};
use cm_validate_model::ValidReason;
use std::alloc::{AllocError, Global};

/// Whether the names of arguments differ as texts. Each is looked up in a tree, which costs the
/// logarithm of their number, whatever the names are. `AllocError` comes where there is no memory
/// for it.
fn args_are_distinct(alloc: Global, args: &[CoreInstantiationArg]) -> Result<bool, AllocError>
    ensures { IfOk result (λ b.
        b ≡ are_distinct_texts (map (λ a. a.name) (map arg_tree args.now))) }
{
    let mut seen: NameMap<'_, ()> = NameMap::new(alloc);
    for arg in args {
        if !seen.insert(arg.name.as_str(), ())? {
            return Ok(false);
        }
    }
    Ok(true)
}

impl<'a> CoreSpaces<'a> {
    ghost use Rattle.std.specs.Prelude.{OnOk, OnErr};
    ghost use Rattle.cm_binary_model.specs.Trees.{CoreInstanceTree, core_exports};
    ghost use Rattle.cm_binary_model.specs.Trees.{core_instance_tree};
    ghost use Rattle.cm_binary_model.specs.Trees.{instantiate};
    ghost use Rattle.cm_validate_model.specs.Items.{core_instance_item};
    ghost use Rattle.cm_validate_model.specs.Reasons.{least};
    ghost use Rattle.cm_validate_model.specs.Rules.{core_instance_broken};
    ghost use Rattle.cm_validate_model.specs.Spaces.{after_item, core_def_at, core_instance_of};
    ghost use Rattle.cm_validate_model.specs.Spaces.{named_core_def};
    ghost use Rattle.std.specs.List.{flat_map};
    ghost use Rattle.cm_validate_core.specs.CoreSpaces.{Answers, AreItemsNumbered, IsItemNumbered};
    ghost use Rattle.cm_validate_core.specs.CoreSpaces.{IsInstanceNumbered, Stays, made_count};
    ghost use Rattle.cm_validate_core.specs.CoreSpaces.{memory_names_of};
    ghost use Rattle.cm_validate_core.specs.Entries.{def_of, instance_of, named_def};
    ghost use Rattle.cm_validate_core.specs.Instances.{is_arg_there, is_export_there};

    /// The core definition of this sort and index, if there is one.
    fn item_at(&self, sort: CoreSort, index: u32) -> Option<CoreItem<'a>>
        ensures def { (made : ℕ → CoreFuncDef) (s : Spaces) → IsCoreOf made self.now s
            → option_map (def_of made) result ≡ core_def_at s sort index }
        ensures numbered { (made : ℕ → CoreFuncDef) (s : Spaces) → IsCoreOf made self.now s
            → IfSome result (IsItemNumbered (memory_names_of self.now)) }
    {
        let index = index as usize;
        Some(match sort {
            CoreSort::Func => CoreItem::Func(*self.funcs.get(index)?),
            CoreSort::Table => CoreItem::Table(*self.tables.get(index)?),
            CoreSort::Memory => CoreItem::Memory(*self.memories.get(index)?),
            CoreSort::Global => CoreItem::Global(*self.globals.get(index)?),
        })
    }

    /// Whether each argument's core instance is there.
    fn args_are_there(&self, args: &[CoreInstantiationArg]) -> bool
        ensures { (made : ℕ → CoreFuncDef) (s : Spaces) → IsCoreOf made self.now s
            → result ≡ list_all (is_arg_there s) (map arg_tree args.now) }
    {
        for arg in args {
            if instance_at(&self.instances, arg.instance).is_none() {
                return false;
            }
        }
        true
    }

    /// Whether what each export names is there.
    fn exports_are_there(&self, exports: &[CoreInlineExport]) -> bool
        ensures { (made : ℕ → CoreFuncDef) (s : Spaces) → IsCoreOf made self.now s
            → result ≡ list_all (is_export_there s) (map core_export_tree exports.now) }
    {
        for export in exports {
            if self.item_at(export.sort, export.index).is_none() {
                return false;
            }
        }
        true
    }

    /// What exports name, under their names, where all of it is there; none where two names are the
    /// same. Each name is looked up in a tree.
    fn named_items(
        &self,
        alloc: Global,
        exports: &'a [CoreInlineExport],
    ) -> Result<Option<NameMap<'a, CoreItem<'a>>>, AllocError>
        ensures distinct { IfOk result (λ items. (made : ℕ → CoreFuncDef) (s : Spaces)
            → IsCoreOf made self.now s
            → list_all (is_export_there s) (map core_export_tree exports.now) ≡ true
            → is_some items
            ≡ are_distinct_texts (map (λ e. e.name) (map core_export_tree exports.now))) }
        ensures defs { IfOk result (λ items. (made : ℕ → CoreFuncDef) (s : Spaces)
            → IsCoreOf made self.now s
            → IfSome items (λ m. map (named_def made) (entries_of m)
            ≡ flat_map (named_core_def s) (map core_export_tree exports.now))) }
        ensures numbered { IfOk result (λ items. (made : ℕ → CoreFuncDef) (s : Spaces)
            → IsCoreOf made self.now s
            → IfSome items (λ m. AreItemsNumbered (memory_names_of self.now) (entries_of m))) }
    {
        let mut items = NameMap::new(alloc);
        for export in exports {
            let Some(item) = self.item_at(export.sort, export.index) else {
                return Ok(None);
            };
            if !items.insert(export.name.as_str(), item)? {
                return Ok(None);
            }
        }
        Ok(Some(items))
    }

    /// Adds a core instance.
    fn push_instance(&mut self, entry: CoreInstanceEntry<'a>) -> Result<(), AllocError>
        ensures added { OnOk result
            ((made : ℕ → CoreFuncDef) (s : Spaces) (t : CoreInstanceTree)
            → IsInstanceNumbered (memory_names_of self.old) entry.entry
            → core_instance_of s t ≡ instance_of made entry.entry
            → IsCoreOf made self.old s
            → IsCoreOf made self.new (after_item s (core_instance_item t))) }
        ensures counted { made_count self.new ≡ made_count self.old }
        ensures kept { OnErr result (Stays self.old self.new) }
    {
        self.instances.push(entry)?;
        Ok(())
    }

    /// Why an instance of a module is refused.
    fn instantiation_fault(
        &self,
        alloc: Global,
        module_index: u32,
        args: &[CoreInstantiationArg],
    ) -> Result<Option<ValidReason>, AllocError>
        ensures { IfOk result (λ r. (made : ℕ → CoreFuncDef) (s : Spaces)
            → IsCoreOf made self.now s
            → r ≡ least (core_instance_broken s
            (instantiate module_index (map arg_tree args.now)))) }
    {
        if module_index >= self.modules || !self.args_are_there(args) {
            return Ok(Some(ValidReason::NoSuchIndex));
        }
        let distinct = args_are_distinct(alloc, args)?;
        Ok(broken_unless(distinct, ValidReason::DuplicateName))
    }

    /// Adds a core instance that is made of a module.
    fn add_instantiated(
        &mut self,
        alloc: Global,
        module_index: u32,
        args: &[CoreInstantiationArg],
    ) -> Result<Option<ValidReason>, AllocError>
        ensures answer { IfOk result (λ r. Answers
            (core_instance_item (instantiate module_index (map arg_tree args.now)))
            self.old r self.new) }
        ensures counted { made_count self.new ≡ made_count self.old }
        ensures kept { OnErr result (Stays self.old self.new) }
    {
        let fault = self.instantiation_fault(alloc, module_index, args)?;
        if fault.is_none() {
            self.push_instance(CoreInstanceEntry::Instantiated(module_index))?;
        }
        Ok(fault)
    }

    /// Adds a core instance of definitions under names.
    fn add_exporting(
        &mut self,
        alloc: Global,
        exports: &'a [CoreInlineExport],
    ) -> Result<Option<ValidReason>, AllocError>
        ensures answer { IfOk result (λ r. Answers
            (core_instance_item (core_exports (map core_export_tree exports.now)))
            self.old r self.new) }
        ensures counted { made_count self.new ≡ made_count self.old }
        ensures kept { OnErr result (Stays self.old self.new) }
    {
        if !self.exports_are_there(exports) {
            return Ok(Some(ValidReason::NoSuchIndex));
        }
        let Some(items) = self.named_items(alloc, exports)? else {
            return Ok(Some(ValidReason::DuplicateName));
        };
        self.push_instance(CoreInstanceEntry::Exporting(items))?;
        Ok(None)
    }

    /// Adds a core instance. Answers why it is refused: `NoSuchIndex` where the module, the core
    /// instance of an argument or the definition of an export is not there, else `DuplicateName`
    /// where two arguments, or two exports, have the same name, as texts; the spaces then stay as
    /// they are (Explainer.md, "Instance Definitions"). So they do with `AllocError`, which comes
    /// where there is no memory. Each name is looked up in a tree, and none is copied: a look-up
    /// costs the logarithm of the number of names, whatever the names are.
    pub fn add_instance(
        &mut self,
        alloc: Global,
        instance: &'a CoreInstance,
    ) -> Result<Option<ValidReason>, AllocError>
        ensures answer { IfOk result (λ r. Answers
            (core_instance_item (core_instance_tree instance.now)) self.old r self.new) }
        ensures counted { made_count self.new ≡ made_count self.old }
        ensures kept { OnErr result (Stays self.old self.new) }
    {
        match instance {
            CoreInstance::Instantiate { module, args } => {
                self.add_instantiated(alloc, *module, args)
            }
            CoreInstance::Exports(exports) => self.add_exporting(alloc, exports),
        }
    }
}
