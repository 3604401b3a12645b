//! Calls of the functions of a component.

ghost use Rattle.std.specs.Prelude.{IfErr, IfOk};
ghost use Rattle.cm_types.specs.Types.{Fields};
ghost use Rattle.cm_validate_spaces.specs.Checked.{spaces_in};
ghost use Rattle.huxarte_c_components.specs.Calling.{IsCallIn, IsCallOf, IsNoCallIn, IsRefused};
ghost use Rattle.huxarte_c_components.specs.Calling.{Never};

use crate::fault::ComponentFault;
use crate::func_type::func_type;
use crate::sound::{check_one, read_one};
use cm_validate_spaces::Checked;
use huxarte_c_calls::{Call, HuxCall, call_of_func};
use std::alloc::Global;

/// The call of a function of a component.
fn call_in(
    alloc: Global,
    component: &Checked<'_>,
    call: &HuxCall,
    slots: &[u64],
) -> Result<Call, ComponentFault>
    ensures call { IfOk result (IsCallIn (spaces_in component.now) call.now slots.now) }
    ensures refused { IfErr result (IsNoCallIn (spaces_in component.now) call.now slots.now) }
{
    let spaces = component.spaces(alloc)?;
    match func_type(&spaces, call.func) {
        Ok(func) => match call_of_func(alloc, func, call, slots) {
            Ok(call) => Ok(call),
            Err(fault) => Err(ComponentFault::Call(fault)),
        },
        Err(fault) => Err(fault.told()),
    }
}

/// The call of a function of the component of a file, whose parameters these core values pass, of
/// 32 bits in the low half.
///
/// `Files` comes with the first fault of the file, `NoFunc` where the component has no function of
/// the index, `Call` where the encodings or the count of core values are wrong (`call_of_func`),
/// and `Memory` where there is no memory.
pub fn call_of(
    alloc: Global,
    bytes: &[u8],
    call: &HuxCall,
    slots: &[u64],
) -> Result<Call, ComponentFault>
    ensures call { IfOk result (λ c. (types : Fields)
        × IsCallOf bytes.now call.now slots.now types c) }
    ensures refused { IfErr result (IsRefused bytes.now call.now slots.now Never) }
{
    let files = read_one(alloc, bytes)?;
    match check_one(alloc, &files) {
        Ok(component) => call_in(alloc, &component, call, slots),
        Err(fault) => Err(ComponentFault::Files(fault)),
    }
}
