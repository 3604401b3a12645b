//! The function that is called, and what is passed.

use crate::call_text::CallText;
use crate::passing::{PassFault, Passed};
use cm_host_values::ValuesFault;
use cm_hux_drive::files::{Checked, Fault, Functions};
use cm_types::{Func, Value};
use cm_types_arena::Types;
use cm_validate_spaces::{CoreFuncEntry, MadeFunc};
use std::alloc::Global;

/// A function that a component imports and lowers.
#[derive(Clone, Copy)]
struct Imported<'a> {
    core_func: u32,
    func: &'a Func,
}

/// The function of a name that a component imports and lowers.
fn imported_func<'b>(functions: &Functions<'b, '_>, name: &str) -> Option<Imported<'b>> {
    let core_func = functions.import(name)?;
    let checked = functions.checked();
    match checked.core(core_func)? {
        CoreFuncEntry::Made(MadeFunc::Lowered { ty, .. }) => Some(Imported {
            core_func,
            func: func_at(checked.types(), ty.place)?,
        }),
        _ => None,
    }
}

/// The type of a function at a place, if there is one.
fn func_at(types: &Types, place: usize) -> Option<&Func> {
    if place < types.func_count() {
        Some(types.func(place))
    } else {
        None
    }
}

/// A call that can be made: the type of the function, and what is passed.
#[derive(Drop)]
pub(crate) struct Called<'f> {
    pub(crate) func: &'f Func,
    pub(crate) passed: Passed,
}

impl<'f> Called<'f> {
    /// The call that a text says, of a function that a caller imports.
    pub(crate) fn of(
        alloc: Global,
        call: &CallText<'_>,
        caller: &'f Checked<'_>,
    ) -> Result<Called<'f>, Fault> {
        let functions = Functions::of(alloc, caller)?;
        let Some(imported) = imported_func(&functions, call.name.as_str()) else {
            return Err(call.refuse(alloc, "the last file exports no such function")?);
        };
        let func = imported.func;
        let args = call.args(alloc, func)?;
        let passed = pass(alloc, call, imported, &args)?;
        Ok(Called { func, passed })
    }
}

/// The guest that makes a call.
fn pass(
    alloc: Global,
    call: &CallText<'_>,
    imported: Imported<'_>,
    args: &[Value],
) -> Result<Passed, Fault> {
    match Passed::new(alloc, imported.core_func, imported.func, args) {
        Ok(passed) => Ok(passed),
        Err(PassFault::Memory | PassFault::Values(ValuesFault::Memory)) => Err(Fault::Memory),
        Err(PassFault::Values(ValuesFault::WrongTypes)) => {
            Err(call.refuse(alloc, "arguments with handles, which nobody gave")?)
        }
        Err(PassFault::Values(fault)) => {
            Err(call.refuse(alloc, format!(in alloc; "{fault}")?.as_str())?)
        }
    }
}
