//! Aliases of what core instances export.

ghost use Rattle.std.specs.Prelude.{◌≡◌, ℕ, IfOk, Some, slice_get};
ghost use Rattle.std.specs.Option.{option_map};
ghost use Rattle.cm_validate_model.specs.Definitions.{CoreFuncDef};
ghost use Rattle.cm_validate_model.specs.Spaces.{core_def_of_sort};
ghost use Rattle.cm_validate_core.specs.NameMaps.{entries_of};
ghost use Rattle.cm_validate_core.specs.NamedValues.{names_in, place_of};
ghost use Rattle.cm_validate_core.specs.CoreSpaces.{IsItemNumbered, KeepsNumbers};
ghost use Rattle.cm_validate_core.specs.Entries.{def_of, export_of};

use crate::entries::{CoreFunc, CoreInstanceEntry, CoreItem, GuestExport, GuestMemory};
use crate::name_map::NameMap;
use crate::spaces::CoreSpaces;
use cm_binary_model::CoreSort;
use cm_validate_model::ValidReason;
use std::alloc::AllocError;

impl<'a> CoreItem<'a> {
    ghost use Rattle.cm_validate_model.specs.Rules.{is_of_core_sort};
    ghost use Rattle.cm_validate_model.specs.Spaces.{core_def_named};
    ghost use Rattle.cm_validate_core.specs.Entries.{named_def};
    ghost use Rattle.cm_validate_core.specs.CoreSpaces.{AreItemsNumbered, MemoryNames};
    ghost use Rattle.std.specs.Prelude.{IfSome, map};

    /// Whether it is of this sort.
    fn is(&self, sort: CoreSort) -> bool
        ensures { (made : ℕ → CoreFuncDef) → result ≡ is_of_core_sort sort (def_of made self.now) }
    {
        match (self, sort) {
            (CoreItem::Func(_), CoreSort::Func) => true,
            (CoreItem::Table(_), CoreSort::Table) => true,
            (CoreItem::Memory(_), CoreSort::Memory) => true,
            (CoreItem::Global(_), CoreSort::Global) => true,
            _ => false,
        }
    }

    /// The one under a name, if there is one.
    fn named(items: &NameMap<'a, CoreItem<'a>>, name: &'a str) -> Option<CoreItem<'a>>
        ensures def { (made : ℕ → CoreFuncDef) → option_map (def_of made) result
            ≡ core_def_named (map (named_def made) (entries_of items.now)) name.now }
        ensures numbered { (names : MemoryNames) → AreItemsNumbered names (entries_of items.now)
            → IfSome result (IsItemNumbered names) }
    {
        items.get(name).copied()
    }

    /// What a core instance that is made of a module exports, of the sort that is wanted of it. The
    /// name of a memory gets a number, once.
    fn exported(
        names: &mut NameMap<'a, ()>,
        sort: CoreSort,
        export: GuestExport<'a>,
    ) -> Result<CoreItem<'a>, AllocError>
        ensures def { IfOk result (λ i. (made : ℕ → CoreFuncDef)
            → def_of made i ≡ core_def_of_sort sort (export_of export.entry)) }
        ensures numbered { IfOk result (IsItemNumbered (names_in (entries_of names.new))) }
        ensures others { KeepsNumbers
            (names_in (entries_of names.old)) (names_in (entries_of names.new)) }
    {
        Ok(match sort {
            CoreSort::Func => CoreItem::Func(CoreFunc::Guest(export)),
            CoreSort::Table => CoreItem::Table(export),
            CoreSort::Memory => CoreItem::Memory(GuestMemory {
                export,
                number: memory_number(names, export)?,
            }),
            CoreSort::Global => CoreItem::Global(export),
        })
    }
}

/// The number of a memory's name, which it gets where it has none.
fn memory_number<'a>(
    names: &mut NameMap<'a, ()>,
    export: GuestExport<'a>,
) -> Result<usize, AllocError>
    ensures named { IfOk result (λ n.
        place_of export.entry.name.now (names_in (entries_of names.new)) ≡ Some n) }
    ensures others { KeepsNumbers
        (names_in (entries_of names.old)) (names_in (entries_of names.new)) }
{
    if let Some(number) = names.place(export.name) {
        return Ok(number);
    }
    let number = names.len();
    names.insert(export.name, ())?;
    Ok(number)
}

/// The core instance of an index, if there is one.
pub(crate) fn instance_at<'b, 'a>(
    instances: &'b [CoreInstanceEntry<'a>],
    index: u32,
) -> Option<&'b CoreInstanceEntry<'a>>
    ensures { option_map (λ e. e.now) result ≡ slice_get instances.now index }
{
    instances.get(index as usize)
}

impl<'a> CoreSpaces<'a> {
    ghost use Rattle.std.specs.Prelude.{IfSome, OnOk, OnErr};
    ghost use Rattle.cm_binary_model.specs.Trees.{AliasTree, core_instance_export};
    ghost use Rattle.cm_validate_model.specs.Items.{alias_item};
    ghost use Rattle.cm_validate_model.specs.Spaces.{Spaces, after_item, aliased_core, core_alias};
    ghost use Rattle.cm_validate_core.specs.CoreSpaces.{Answers, IsCoreOf, Stays, made_count};
    ghost use Rattle.cm_validate_core.specs.CoreSpaces.{memory_names_of};

    /// What an alias names, if anything.
    fn aliased(
        &mut self,
        sort: CoreSort,
        instance: u32,
        name: &'a str,
    ) -> Result<Option<CoreItem<'a>>, AllocError>
        ensures def { IfOk result (λ i. (made : ℕ → CoreFuncDef) (s : Spaces)
            → IsCoreOf made self.old s
            → option_map (def_of made) i ≡ aliased_core s sort instance name.now) }
        ensures numbered { IfOk result (λ i. (made : ℕ → CoreFuncDef) (s : Spaces)
            → IsCoreOf made self.old s
            → IfSome i (IsItemNumbered (memory_names_of self.new))) }
        ensures counted { made_count self.new ≡ made_count self.old }
        ensures kept { Stays self.old self.new }
    {
        match instance_at(&self.instances, instance) {
            None => Ok(None),
            Some(CoreInstanceEntry::Exporting(items)) => Ok(CoreItem::named(items, name)),
            Some(CoreInstanceEntry::Instantiated(_)) => {
                let export = GuestExport { instance, name };
                let item = CoreItem::exported(&mut self.memory_names, sort, export)?;
                Ok(Some(item))
            }
        }
    }

    /// Adds what an alias names.
    fn push(&mut self, item: CoreItem<'a>) -> Result<(), AllocError>
        ensures added { OnOk result ((made : ℕ → CoreFuncDef) (s : Spaces) (a : AliasTree)
            → IsItemNumbered (memory_names_of self.old) item.entry
            → core_alias s a ≡ Some (def_of made item.entry)
            → IsCoreOf made self.old s → IsCoreOf made self.new (after_item s (alias_item a))) }
        ensures counted { made_count self.new ≡ made_count self.old }
        ensures kept { OnErr result (Stays self.old self.new) }
    {
        match item {
            CoreItem::Func(func) => self.funcs.push(func)?,
            CoreItem::Table(export) => self.tables.push(export)?,
            CoreItem::Memory(memory) => self.memories.push(memory)?,
            CoreItem::Global(export) => self.globals.push(export)?,
        }
        Ok(())
    }

    /// Adds an alias of what a core instance exports under a name. The name is looked up in a tree,
    /// and not copied: a look-up costs the logarithm of the number of names there, with the time
    /// that it takes to compare two, whatever the names are. Answers why it is refused:
    /// `NoSuchIndex` where there is no such instance or no such name in it, `WrongSort` where what
    /// is there is of another sort; the spaces then stay as they are. So they do with `AllocError`,
    /// which comes where there is no memory.
    pub fn alias(
        &mut self,
        sort: CoreSort,
        instance: u32,
        name: &'a str,
    ) -> Result<Option<ValidReason>, AllocError>
        ensures answer { IfOk result (λ r. Answers
            (alias_item (core_instance_export sort instance name.now)) self.old r self.new) }
        ensures counted { made_count self.new ≡ made_count self.old }
        ensures kept { OnErr result (Stays self.old self.new) }
    {
        let Some(item) = self.aliased(sort, instance, name)? else {
            return Ok(Some(ValidReason::NoSuchIndex));
        };
        if !item.is(sort) {
            return Ok(Some(ValidReason::WrongSort));
        }
        self.push(item)?;
        Ok(None)
    }
}
