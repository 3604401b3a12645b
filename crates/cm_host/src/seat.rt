//! A component of a set that stands in for a host.

ghost use Rattle.std.specs.Prelude.{◌≡◌, IfOk, Some, slice_get};
ghost use Rattle.cm_types.specs.Types.{FuncTy};
ghost use Rattle.cm_types_arena.specs.TypeDefs.{func_at};
ghost use Rattle.cm_validate_functions.specs.Functions.{funcs_of};
ghost use Rattle.cm_host.specs.Seats.{ArePassedBy, Exports, Imports, IsUtf8};
ghost use Rattle.cm_host.specs.Seats.{component_of, instance_of};
ghost use Rattle.cm_machine.specs.cm_match.Linked.{set_in};

use crate::fault::SeatFault;
use crate::found::{ResourceFuncs, Typed, is_utf8, lowered, resource};
use cm_host_values::HostTypes;
use cm_machine::Linked;
use cm_validate_functions::{Functions, encoding};
use cm_validate_spaces::FuncEntry;
use std::alloc::Global;

/// A component of a linked set that stands in for a host, with the number of its instance. It
/// borrows what `validate` found.
///
/// Names are those that users write: `interface#item` for an item of an imported or exported
/// instance, as `a:b/c@1.0.0#[method]r.get`, and `function` for one that is imported or exported
/// itself.
#[derive(Drop)]
pub struct Seat<'b, 'a> {
    pub(crate) functions: Functions<'b, 'a>,
    pub(crate) instance: u32,
}

/// A function in terms of values: its core function, and the types of its parameters and results.
#[derive(Drop)]
pub(crate) struct HostFunc {
    pub(crate) core_func: u32,
    pub(crate) params: HostTypes,
    pub(crate) results: HostTypes,
}

impl<'b, 'a> Seat<'b, 'a> {
    /// The component of a linked set, by the number of its instance, from 0.
    ///
    /// `NoComponent` where the set has none of this number, `Memory` where there is no memory.
    pub fn of(
        alloc: Global,
        linked: &'b Linked<'a>,
        instance: u32,
    ) -> Result<Seat<'b, 'a>, SeatFault>
        ensures instance { IfOk result (λ s. instance_of s ≡ instance) }
        ensures component { IfOk result (λ s. slice_get (set_in linked.now).spaces instance
            ≡ Some (component_of s)) }
    {
        let Some(checked) = linked.components().get(instance as usize) else {
            return Err(SeatFault::NoComponent);
        };
        let functions = Functions::of(alloc, checked)?;
        Ok(Seat {
            functions,
            instance,
        })
    }

    /// The core functions of a resource of an instance that the component exports or imports, by
    /// its name: `None` where it has no such resource. It looks at each core function once.
    pub fn resource(&self, name: &str) -> Option<ResourceFuncs> {
        resource(self.functions.checked(), name)
    }

    /// A function of the component in terms of values.
    fn host_func(&self, alloc: Global, typed: Typed<'a>) -> Result<HostFunc, SeatFault>
        ensures itself { IfOk result (λ f. f.core_func ≡ typed.entry.core_func) }
        ensures passed { IfOk result (λ f. ArePassedBy
            (func_at (funcs_of self.now.functions) typed.entry.ty.place) f.params f.results) }
        ensures utf8 { IfOk result (λ f. IsUtf8 typed.entry.options.now) }
    {
        if !is_utf8(encoding(typed.options)) {
            return Err(SeatFault::NotUtf8);
        }
        let types = self.functions.checked().types();
        if typed.ty.place >= types.func_count() {
            return Err(SeatFault::NoFunction);
        }
        let func = types.func(typed.ty.place);
        Ok(HostFunc {
            core_func: typed.core_func,
            params: HostTypes::of_params(alloc, func)?,
            results: HostTypes::of_result(alloc, func)?,
        })
    }

    /// The function that the component exports under a name, where it lifts it.
    pub(crate) fn exported(&self, alloc: Global, name: &str) -> Result<HostFunc, SeatFault>
        ensures { IfOk result (λ f. (ty : FuncTy) × Exports self.now name.now f.core_func ty
            × ArePassedBy ty f.params f.results) }
    {
        match self.functions.exported(name) {
            Some(
                FuncEntry::Lifted {
                    core_func,
                    ty,
                    options,
                },
            ) => self.host_func(
                alloc,
                Typed {
                    core_func,
                    ty,
                    options,
                },
            ),
            Some(FuncEntry::Imported { .. }) | None => Err(SeatFault::NoFunction),
        }
    }

    /// The function that the component imports and lowers, by its name.
    pub(crate) fn imported(&self, alloc: Global, name: &str) -> Result<HostFunc, SeatFault>
        ensures { IfOk result (λ f. (ty : FuncTy) × Imports self.now name.now f.core_func ty
            × ArePassedBy ty f.params f.results) }
    {
        let Some(core_func) = self.functions.import(name) else {
            return Err(SeatFault::NoFunction);
        };
        match lowered(self.functions.checked(), core_func) {
            Some(typed) => self.host_func(alloc, typed),
            None => Err(SeatFault::NoFunction),
        }
    }
}
