//! What a valid component has.

ghost use Rattle.std.specs.Prelude.{◌≡◌};
ghost use Rattle.cm_validate_model.specs.Valid.{IsValid};

use crate::checked::Checked;
use crate::exported::func_under;
use crate::{ComponentExterns, CoreFuncEntry, ExportEntry, FuncEntry};
use cm_binary_model::Component;
use cm_types_arena::{Extern, Types};
use cm_validate_items::Resource;

impl<'a> Checked<'a> {
    ghost use Rattle.std.specs.Prelude.{IfSome, length, map, slice_get, true};
    ghost use Rattle.std.specs.List.{list_all};
    ghost use Rattle.std.specs.Option.{option_map};
    ghost use Rattle.cm_types_arena.specs.Places.{funcs_of, types_of};
    ghost use Rattle.cm_types_arena.specs.Externs.{extern_of, is_extern_there};
    ghost use Rattle.cm_validate_items.specs.Ranges.{resource_def};
    ghost use Rattle.cm_validate_entries.specs.ComponentSpaces.{export_def, is_exported_there};
    ghost use Rattle.cm_validate_spaces.specs.cm_validate_entries.Entries.{func_def, is_func_there};
    ghost use Rattle.cm_validate_spaces.specs.Made.{core_func_def};
    ghost use Rattle.cm_validate_spaces.specs.Made.{is_core_func_there};
    ghost use Rattle.cm_validate_spaces.specs.Checked.{funcs_in, sections_in, spaces_in, types_in};
    ghost use Rattle.cm_validate_spaces.specs.Exported.{exported_func_of};

    /// The component.
    pub fn component(&self) -> &'a Component
        ensures component { result.now ≡ sections_in self.now }
        ensures valid { IsValid (sections_in self.now) }
    {
        self.component
    }

    /// The arena of its types.
    pub fn types(&self) -> &Types
        ensures types { types_of result.now ≡ types_in self.now }
        ensures funcs { funcs_of result.now ≡ funcs_in self.now }
    {
        self.entries.arena()
    }

    /// What it imports, in order.
    pub fn imports(&self) -> &[Extern]
        ensures are { (spaces_in self.now).imports
            ≡ map (extern_of (types_in self.now) (funcs_in self.now)) result.now }
        ensures there { list_all (λ e. is_extern_there
            (length (types_in self.now)) (length (funcs_in self.now)) e.desc) result.now ≡ true }
    {
        self.entries.imports()
    }

    /// What it exports, in order.
    pub fn exports(&self) -> &[ExportEntry<'a>]
        ensures are { (spaces_in self.now).exports
            ≡ map (export_def (types_in self.now) (funcs_in self.now)) result.now }
        ensures there { list_all (λ e. is_exported_there
            (length (types_in self.now)) (length (funcs_in self.now)) e.def) result.now ≡ true }
    {
        self.entries.exports()
    }

    /// What it imports and exports, in order, with the arena of its types, taken over: what else it
    /// has is dropped.
    pub fn into_externs(self) -> ComponentExterns<'a>
        ensures types { types_of result.types ≡ types_in self.entry }
        ensures funcs { funcs_of result.types ≡ funcs_in self.entry }
        ensures imports { (spaces_in self.entry).imports
            ≡ map (extern_of (types_in self.entry) (funcs_in self.entry)) result.imports.items }
        ensures exports { (spaces_in self.entry).exports
            ≡ map (export_def (types_in self.entry) (funcs_in self.entry)) result.exports.items }
        ensures imports_there { list_all (λ e. is_extern_there
            (length (types_in self.entry)) (length (funcs_in self.entry)) e.desc)
            result.imports.items ≡ true }
        ensures exports_there { list_all (λ e. is_exported_there
            (length (types_in self.entry)) (length (funcs_in self.entry)) e.def)
            result.exports.items ≡ true }
    {
        let Checked { entries, .. } = self;
        entries.into_externs()
    }

    /// How many core functions it has.
    pub fn core_func_count(&self) -> usize
        ensures { result ≡ length (spaces_in self.now).core_funcs }
    {
        self.entries.core_func_count()
    }

    /// What the core function of an index is, if there is one: a guest's; a lowered import, by its
    /// number, the item of an imported instance, its type and options; or what makes, drops or
    /// reads handles of a resource. Takes no memory.
    pub fn core(&self, index: u32) -> Option<CoreFuncEntry<'a>>
        ensures is { option_map (core_func_def (funcs_in self.now)) result
            ≡ slice_get (spaces_in self.now).core_funcs index }
        ensures there { IfSome result
            (λ f. is_core_func_there (length (funcs_in self.now)) f ≡ true) }
    {
        self.entries.core_func(index)
    }

    /// What an exported function is, by the number of the export, from 0, and, where the export is
    /// an instance, the name that the function has there: a lift with its core function, type and
    /// options, or an import, or an item of one; None where no function stands there. Aliases and
    /// inline exports are followed. Takes no memory.
    pub fn func(&self, export: usize, item: Option<&str>) -> Option<FuncEntry<'a>>
        ensures is { option_map (func_def (funcs_in self.now)) result
            ≡ exported_func_of (spaces_in self.now) export (option_map (λ n. n.now) item.entry) }
        ensures there { IfSome result (λ f. is_func_there (length (funcs_in self.now)) f ≡ true) }
    {
        func_under(&self.exports().get(export)?.def, item)
    }

    /// What the resource of a number, from 0, is, if there is one: one that the component defines,
    /// with its destructor, or an item of an import. Takes no memory.
    pub fn resource(&self, number: u64) -> Option<Resource>
        ensures { option_map resource_def result
            ≡ slice_get (spaces_in self.now).resources number }
    {
        self.entries.resource(number)
    }
}
