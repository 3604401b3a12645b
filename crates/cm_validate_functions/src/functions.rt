//! The core functions of a component, by number and by name.

ghost use Rattle.std.specs.Prelude.{◌≡◌, List, length};
ghost use Rattle.cm_types.specs.Types.{FuncTy};
ghost use Rattle.cm_validate_spaces.specs.cm_validate_entries.Entries.{func_def, is_func_there};
ghost use Rattle.cm_validate_spaces.specs.Checked.{funcs_in, spaces_in};
ghost use Rattle.cm_validate_functions.specs.Kept.{AreLiftsOf, AreNamesOf, AreUsesOf};
ghost use Rattle.cm_validate_functions.specs.Leading.{lifted_core};
ghost use Rattle.cm_validate_functions.specs.Lifts.{lifts_of};

use crate::StringEncoding;
use crate::core_types::{
    CoreFuncType, drop_type, flat_type, handle_type, post_return_type, realloc_type,
};
use crate::leading::Names;
use crate::lift_tables::LiftTables;
use crate::lifts::Lift;
use crate::names::{FuncName, func_name};
use crate::options::{encoding, memory};
use crate::using::Uses;
use cm_binary_model::CanonOption;
use cm_layout::Side;
use cm_validate_spaces::{Checked, CoreFuncEntry, FuncEntry, MadeFunc};
use std::alloc::{AllocError, Global};

/// The core functions of a valid component (Explainer.md, "Index Spaces"): what each is used for,
/// and the names that lead to them. It borrows what `validate` found.
///
/// Names are those that users write: `interface#function` for a function of an imported or exported
/// instance, as `a:b/c@1.0.0#[method]r.get`, and `function` for one that is imported or exported
/// itself. Core functions count from 0.
#[derive(Drop)]
pub struct Functions<'b, 'a> {
    pub(crate) checked: &'b Checked<'a>,
    count: u32,
    names: Names<'b>,
    lifts: LiftTables<'a>,
    uses: Uses,
    ghost counted: { count ≡ length (spaces_in checked.now).core_funcs },
    ghost named: { ∥ AreNamesOf (spaces_in checked.now) names ∥₁ },
    ghost kept: { ∥ AreLiftsOf (funcs_in checked.now)
        (lifts_of (spaces_in checked.now)) lifts ∥₁ },
    ghost used: { ∥ AreUsesOf (spaces_in checked.now) uses ∥₁ },
}

/// The core function that a function lifts, if it lifts one.
fn lifted_core(func: FuncEntry<'_>) -> Option<u32>
    ensures { (funcs : List FuncTy) → result ≡ lifted_core (func_def funcs func.entry) }
{
    match func {
        FuncEntry::Lifted { core_func, .. } => Some(core_func),
        FuncEntry::Imported { .. } => None,
    }
}

impl<'b, 'a> Functions<'b, 'a> {
    ghost use Rattle.std.specs.Prelude.{◌<◌, IfOk, IfSome, slice_get, true};
    ghost use Rattle.std.specs.Option.{option_and_then, option_map};
    ghost use Rattle.cm_validate_functions.specs.CoreTypes.{core_type, core_type_of};
    ghost use Rattle.cm_validate_functions.specs.CoreTypes.{guest_type, helper_type};
    ghost use Rattle.cm_validate_functions.specs.Functions.{core_funcs, first_lift, funcs_of};
    ghost use Rattle.cm_validate_functions.specs.Functions.{spaces_of};
    ghost use Rattle.cm_validate_functions.specs.Kept.{lift_def};
    ghost use Rattle.cm_validate_functions.specs.Leading.{exported_core, exported_in};
    ghost use Rattle.cm_validate_functions.specs.Leading.{exported_under, imported_core};
    ghost use Rattle.cm_validate_functions.specs.FuncNames.{name_parts};
    ghost use Rattle.cm_validate_functions.specs.Lifts.{allocating, lifting, post_return};
    ghost use Rattle.cm_validate_functions.specs.Used.{destroyed_by, lower_allocating};
    ghost use Rattle.cm_validate_functions.specs.Used.{lower_options, memory_of, options_of};
    ghost use Rattle.cm_validate_functions.specs.Used.{string_encoding_of};

    /// The core functions of a component, which cost what its file says. `AllocError` comes where
    /// there is no memory, or where they or the resources could not be counted, of which a file has
    /// too few.
    pub fn of(alloc: Global, checked: &'b Checked<'a>) -> Result<Functions<'b, 'a>, AllocError>
        ensures { IfOk result (λ f. spaces_of f ≡ spaces_in checked.now) }
    {
        let count = u32::try_from(checked.core_func_count()).map_err(|_| AllocError)?;
        let names = Names::of(alloc, checked, count)?;
        let lifts = LiftTables::of(alloc, checked)?;
        let uses = Uses::of(alloc, checked, count)?;
        Ok(Functions {
            checked,
            count,
            names,
            lifts,
            uses,
        })
    }

    /// The component, as `validate` left it.
    pub fn checked(&self) -> &'b Checked<'a>
        ensures spaces { spaces_in result.now ≡ spaces_of self.now }
        ensures funcs { funcs_in result.now ≡ funcs_of self.now }
    {
        self.checked
    }

    /// How many core functions there are.
    pub fn count(&self) -> u32
        ensures { result ≡ length (core_funcs self.now) }
    {
        self.count
    }

    /// The index at a place among the core functions.
    fn index_at(&self, place: usize) -> u32
        requires { place < length (core_funcs self.now) }
        ensures { result ≡ place }
    {
        // Read first, so that the check knows how many there are.
        let _count = self.count;
        place as u32
    }

    /// The function that is exported under a name.
    fn own_func(&self, name: &str) -> Option<FuncEntry<'a>>
        ensures is { option_map (func_def (funcs_of self.now)) result
            ≡ exported_in (spaces_of self.now) None name.now }
        ensures there { IfSome result
            (λ f. is_func_there (length (funcs_of self.now)) f ≡ true) }
    {
        match self.names.export(name) {
            None => None,
            Some(export) => self.checked.func(export, None),
        }
    }

    /// The function that an exported instance has under a name.
    fn func_in(&self, interface: &str, name: &str) -> Option<FuncEntry<'a>>
        ensures is { option_map (func_def (funcs_of self.now)) result
            ≡ exported_in (spaces_of self.now) (Some interface.now) name.now }
        ensures there { IfSome result
            (λ f. is_func_there (length (funcs_of self.now)) f ≡ true) }
    {
        match self.names.export(interface) {
            None => None,
            Some(export) => self.checked.func(export, Some(name)),
        }
    }

    /// The function that a name names among the exports.
    fn func(&self, name: FuncName<'_>) -> Option<FuncEntry<'a>>
        ensures is { option_map (func_def (funcs_of self.now)) result ≡ exported_in
            (spaces_of self.now) (name_parts name.entry).interface (name_parts name.entry).name }
        ensures there { IfSome result
            (λ f. is_func_there (length (funcs_of self.now)) f ≡ true) }
    {
        match name.interface {
            None => self.own_func(name.name),
            Some(interface) => self.func_in(interface, name.name),
        }
    }

    /// The function that is exported under a name, or that an exported instance has: a lift with
    /// its core function, type and options, or an import of the component. None where there is no
    /// such function.
    pub fn exported(&self, name: &str) -> Option<FuncEntry<'a>>
        ensures is { option_map (func_def (funcs_of self.now)) result
            ≡ exported_under (spaces_of self.now) name.now }
        ensures there { IfSome result
            (λ f. is_func_there (length (funcs_of self.now)) f ≡ true) }
    {
        self.func(func_name(name))
    }

    /// The core function that an exported function lifts, by the name of the function. None where
    /// the component exports no such function, or where that is an import of it.
    pub fn export(&self, name: &str) -> Option<u32>
        ensures { result ≡ exported_core (spaces_of self.now) name.now }
    {
        match self.exported(name) {
            None => None,
            Some(func) => lifted_core(func),
        }
    }

    /// The core function that lowers an imported function, by the name of the function; the first
    /// of several. None where the component lowers no such function.
    pub fn import(&self, name: &str) -> Option<u32>
        ensures { result ≡ imported_core (spaces_of self.now) name.now }
    {
        match self.names.lowered(func_name(name)) {
            None => None,
            Some(place) => Some(self.index_at(place)),
        }
    }

    /// The first exported lift that lifts a core function.
    pub fn lifted(&self, index: u32) -> Option<Lift<'a>>
        ensures { option_map (lift_def (funcs_of self.now)) result
            ≡ first_lift lifting self.now index }
    {
        self.lifts.lifting(index)
    }

    /// The first exported lift that has a core function called once its result was read.
    pub fn post_return_of(&self, index: u32) -> Option<Lift<'a>>
        ensures { option_map (lift_def (funcs_of self.now)) result
            ≡ first_lift post_return self.now index }
    {
        self.lifts.returning(index)
    }

    /// The first exported lift that has memory allocated by a core function.
    pub fn allocator_of(&self, index: u32) -> Option<Lift<'a>>
        ensures { option_map (lift_def (funcs_of self.now)) result
            ≡ first_lift allocating self.now index }
    {
        self.lifts.allocating(index)
    }

    /// The first core function that lowers an import and has memory allocated by this one.
    pub fn allocator_of_lower(&self, index: u32) -> Option<u32>
        ensures { result ≡ lower_allocating (spaces_of self.now) index }
    {
        match self.uses.allocating(index) {
            None => None,
            Some(place) => Some(self.index_at(place)),
        }
    }

    /// The first resource whose destructor a core function is, by its number.
    pub fn destructor_of(&self, index: u32) -> Option<u64>
        ensures { result ≡ destroyed_by (spaces_of self.now) index }
    {
        match self.uses.destroying(index) {
            None => None,
            Some(number) => Some(number as u64),
        }
    }

    /// The options of the lower that a core function is.
    fn lower_options(&self, index: u32) -> Option<&'a [CanonOption]>
        ensures { option_map (λ o. o.now) result
            ≡ option_and_then lower_options (slice_get (core_funcs self.now) index) }
    {
        match self.checked.core(index) {
            Some(CoreFuncEntry::Made(MadeFunc::Lowered { options, .. })) => Some(options),
            _ => None,
        }
    }

    /// The options with which a core function passes values: those of its lower, or of the first
    /// exported lift that lifts it.
    pub fn options(&self, index: u32) -> Option<&'a [CanonOption]>
        ensures { option_map (λ o. o.now) result ≡ options_of (spaces_of self.now) index }
    {
        match self.lower_options(index) {
            Some(options) => Some(options),
            None => match self.lifted(index) {
                Some(lift) => Some(lift.options),
                None => None,
            },
        }
    }

    /// The memory, by its index, in which a core function passes values, if its options name one.
    pub fn memory(&self, index: u32) -> Option<u32>
        ensures { result ≡ memory_of (spaces_of self.now) index }
    {
        match self.options(index) {
            None => None,
            Some(options) => memory(options),
        }
    }

    /// The encoding of strings that a core function passes.
    pub fn encoding(&self, index: u32) -> Option<StringEncoding>
        ensures { result ≡ string_encoding_of (spaces_of self.now) index }
    {
        match self.options(index) {
            None => None,
            Some(options) => Some(encoding(options)),
        }
    }

    /// The core values that a core function takes and answers, where the component says so. Of a
    /// lift or a lower this costs the nodes of the function's type, of which there are 20,000 at
    /// most.
    pub fn kinds(&self, alloc: Global, index: u32) -> Result<Option<CoreFuncType>, AllocError>
        ensures { IfOk result (λ t. option_map core_type_of t
            ≡ core_type (spaces_of self.now) index) }
    {
        match self.checked.core(index) {
            None => Ok(None),
            Some(CoreFuncEntry::Guest(_)) => self.guest_type(alloc, index),
            Some(CoreFuncEntry::Made(MadeFunc::Lowered { ty, .. })) => {
                Ok(Some(flat_type(alloc, self.checked.types(), Side::Lower, ty)?))
            }
            Some(CoreFuncEntry::Made(MadeFunc::Making(_) | MadeFunc::Reading(_))) => {
                Ok(Some(handle_type(alloc)?))
            }
            Some(CoreFuncEntry::Made(MadeFunc::Dropping(_))) => Ok(Some(drop_type(alloc)?)),
        }
    }

    /// The core values of a guest's function, by what it is used for.
    fn guest_type(&self, alloc: Global, index: u32) -> Result<Option<CoreFuncType>, AllocError>
        ensures { IfOk result (λ t. option_map core_type_of t
            ≡ guest_type (spaces_of self.now) index) }
    {
        let types = self.checked.types();
        if let Some(lift) = self.lifted(index) {
            return Ok(Some(flat_type(alloc, types, Side::Lift, lift.ty)?));
        }
        if let Some(lift) = self.post_return_of(index) {
            return Ok(Some(post_return_type(alloc, types, lift.ty)?));
        }
        self.helper_type(alloc, index)
    }

    /// The core values of an allocator or a destructor.
    fn helper_type(&self, alloc: Global, index: u32) -> Result<Option<CoreFuncType>, AllocError>
        ensures { IfOk result (λ t. option_map core_type_of t
            ≡ helper_type (spaces_of self.now) index) }
    {
        if self.allocator_of(index).is_some() || self.allocator_of_lower(index).is_some() {
            return Ok(Some(realloc_type(alloc)?));
        }
        match self.destructor_of(index) {
            Some(_) => Ok(Some(drop_type(alloc)?)),
            None => Ok(None),
        }
    }
}
