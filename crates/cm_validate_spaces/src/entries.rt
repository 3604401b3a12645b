//! What stands in the index spaces of a whole component: imports, exports, resources and core
//! functions.

use crate::made::{CoreFuncEntry, MadeFunc};
use crate::spaces::IndexSpaces;
use cm_types_arena::{Extern, Types};
use cm_validate_core::CoreFunc;
use cm_validate_entries::{ComponentLists, ExportEntry};
use cm_validate_items::{Resource, Resources};

/// What a component imports and exports, with the arena in which its types stand.
#[derive(Drop)]
pub struct ComponentExterns<'a> {
    pub types: Types,
    pub imports: Vec<Extern>,
    pub exports: Vec<ExportEntry<'a>>,
}

/// What stands in the index spaces of a whole component (Explainer.md, "Index Spaces"), without
/// what only another item would need: its imports and exports, in order; its resources, by their
/// numbers; its core functions, and those of them that canonical definitions made, by their
/// numbers; and the arena in which its types stand. Names and options are borrowed from the
/// component.
#[derive(Drop)]
pub struct ComponentEntries<'a> {
    pub(crate) types: Types,
    pub(crate) imports: Vec<Extern>,
    pub(crate) exports: Vec<ExportEntry<'a>>,
    pub(crate) resources: Resources,
    pub(crate) core_funcs: Vec<CoreFunc<'a>>,
    pub(crate) made: Vec<MadeFunc<'a>>,
}

impl<'a> IndexSpaces<'a> {
    ghost use Rattle.std.specs.Prelude.{◌≡◌};
    ghost use Rattle.cm_validate_model.specs.Spaces.{Spaces};
    ghost use Rattle.cm_validate_spaces.specs.ComponentEntries.{AreEntriesOf};
    ghost use Rattle.cm_validate_spaces.specs.ComponentEntries.{funcs_in as entry_funcs};
    ghost use Rattle.cm_validate_spaces.specs.ComponentEntries.{types_in as entry_types};
    ghost use Rattle.cm_validate_spaces.specs.IndexSpaces.{IsAt, funcs_in, types_in};

    /// The imports, exports, resources and core functions, with the arena of the types; what else
    /// stands in the spaces is dropped (Explainer.md, "Index Spaces").
    pub fn into_entries(self) -> ComponentEntries<'a>
        ensures types { entry_types result ≡ types_in self.entry }
        ensures funcs { entry_funcs result ≡ funcs_in self.entry }
        ensures entries { (s : Spaces) → IsAt self.entry s → AreEntriesOf result s }
    {
        let IndexSpaces {
            core,
            component,
            types,
            made,
            ..
        } = self;
        let ComponentLists {
            imports,
            exports,
            resources,
        } = component.into_lists();
        ComponentEntries {
            types: types.into_types(),
            imports,
            exports,
            resources,
            core_funcs: core.into_funcs(),
            made,
        }
    }
}

impl<'a> ComponentEntries<'a> {
    ghost use Rattle.std.specs.Prelude.{◌≡◌, IfSome, length, map, slice_get, true};
    ghost use Rattle.std.specs.List.{list_all};
    ghost use Rattle.std.specs.Option.{option_map};
    ghost use Rattle.cm_types_arena.specs.Places.{funcs_of, types_of};
    ghost use Rattle.cm_types_arena.specs.Externs.{extern_of, is_extern_there};
    ghost use Rattle.cm_validate_model.specs.Spaces.{Spaces};
    ghost use Rattle.cm_validate_items.specs.Ranges.{resource_def};
    ghost use Rattle.cm_validate_entries.specs.ComponentSpaces.{export_def, is_exported_there};
    ghost use Rattle.cm_validate_spaces.specs.ComponentEntries.{AreEntriesOf, funcs_in, types_in};
    ghost use Rattle.cm_validate_spaces.specs.Made.{core_func_def, is_core_func_there};

    /// The arena of the types.
    pub fn arena(&self) -> &Types
        ensures types { types_of result.now ≡ types_in self.now }
        ensures funcs { funcs_of result.now ≡ funcs_in self.now }
    {
        &self.types
    }

    /// The imports, in order.
    pub fn imports(&self) -> &[Extern]
        ensures are { (s : Spaces) → AreEntriesOf self.now s
            → s.imports ≡ map (extern_of (types_in self.now) (funcs_in self.now)) result.now }
        ensures there { (s : Spaces) → AreEntriesOf self.now s → list_all (λ e. is_extern_there
            (length (types_in self.now)) (length (funcs_in self.now)) e.desc) result.now ≡ true }
    {
        &self.imports
    }

    /// The exports, in order.
    pub fn exports(&self) -> &[ExportEntry<'a>]
        ensures are { (s : Spaces) → AreEntriesOf self.now s
            → s.exports ≡ map (export_def (types_in self.now) (funcs_in self.now)) result.now }
        ensures there { (s : Spaces) → AreEntriesOf self.now s → list_all (λ e. is_exported_there
            (length (types_in self.now)) (length (funcs_in self.now)) e.def) result.now ≡ true }
    {
        &self.exports
    }

    /// The arena, the imports and the exports, in order; what else stands in the spaces is dropped.
    pub fn into_externs(self) -> ComponentExterns<'a>
        ensures types { types_of result.types ≡ types_in self.entry }
        ensures funcs { funcs_of result.types ≡ funcs_in self.entry }
        ensures imports { (s : Spaces) → AreEntriesOf self.entry s
            → s.imports
            ≡ map (extern_of (types_in self.entry) (funcs_in self.entry)) result.imports.items }
        ensures exports { (s : Spaces) → AreEntriesOf self.entry s
            → s.exports
            ≡ map (export_def (types_in self.entry) (funcs_in self.entry)) result.exports.items }
        ensures imports_there { (s : Spaces) → AreEntriesOf self.entry s → list_all
            (λ e. is_extern_there
            (length (types_in self.entry)) (length (funcs_in self.entry)) e.desc)
            result.imports.items ≡ true }
        ensures exports_there { (s : Spaces) → AreEntriesOf self.entry s → list_all
            (λ e. is_exported_there
            (length (types_in self.entry)) (length (funcs_in self.entry)) e.def)
            result.exports.items ≡ true }
    {
        let ComponentEntries {
            types,
            imports,
            exports,
            ..
        } = self;
        ComponentExterns {
            types,
            imports,
            exports,
        }
    }

    /// The resource of this number, from 0, if there is one. It costs a binary search.
    pub fn resource(&self, number: u64) -> Option<Resource>
        ensures { (s : Spaces) → AreEntriesOf self.now s
            → option_map resource_def result ≡ slice_get s.resources number }
    {
        self.resources.get(number)
    }

    /// What stands at an index of a core function.
    fn core_entry(&self, index: u32) -> Option<CoreFunc<'a>>
        ensures { result ≡ slice_get self.now.core_funcs.items index }
    {
        self.core_funcs.get(index as usize).copied()
    }

    /// The core function that a canonical definition made, by its number among those.
    fn made_func(&self, number: u32) -> Option<MadeFunc<'a>>
        ensures { result ≡ slice_get self.now.made.items number }
    {
        self.made.get(number as usize).copied()
    }

    /// The core function of an index, if there is one.
    pub fn core_func(&self, index: u32) -> Option<CoreFuncEntry<'a>>
        ensures is { (s : Spaces) → AreEntriesOf self.now s
            → option_map (core_func_def (funcs_in self.now)) result
            ≡ slice_get s.core_funcs index }
        ensures there { (s : Spaces) → AreEntriesOf self.now s → IfSome result
            (λ f. is_core_func_there (length (funcs_in self.now)) f ≡ true) }
    {
        match self.core_entry(index)? {
            CoreFunc::Guest(export) => Some(CoreFuncEntry::Guest(export)),
            CoreFunc::Made(number) => Some(CoreFuncEntry::Made(self.made_func(number)?)),
        }
    }

    /// How many core functions there are.
    pub fn core_func_count(&self) -> usize
        ensures { (s : Spaces) → AreEntriesOf self.now s → result ≡ length s.core_funcs }
    {
        self.core_funcs.len()
    }
}
