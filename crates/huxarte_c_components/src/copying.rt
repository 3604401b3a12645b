//! The parameters of a call, copied from one memory to another.

ghost use Rattle.std.specs.Prelude.{◌≡◌, IfErr, IfOk, OnErr};
ghost use Rattle.huxarte_c_components.specs.Calling.{IsCopyOf, IsCopyVerdict, IsNoCopyOf};

use crate::calling::call_of;
use crate::fault::ComponentFault;
use huxarte_c_calls::{Giver, HuxCall, HuxVerdict, Taker, copy_params};
use std::alloc::Global;

/// Copies the parameters of the call of a function of the component of a file, and answers how many
/// numbers stand for handles.
fn copy_of(
    alloc: Global,
    bytes: &[u8],
    call: &HuxCall,
    given: &[u64],
    giver: &Giver<'_, '_>,
    taker: &Taker<'_, '_>,
    memory: &mut [u8],
    slots: &mut [u64],
    numbers: &mut [u32],
) -> Result<usize, ComponentFault>
    ensures copied { IfOk result (IsCopyOf bytes.now call.now giver.now.memory.now given.now
        giver.now.handles.now taker.now.to taker.now.handles.now taker.now.answers.now
        (record { memory = memory.old; slots = slots.old; numbers = numbers.old })
        (record { memory = memory.new; slots = slots.new; numbers = numbers.new })) }
    ensures refused { IfErr result (IsNoCopyOf bytes.now call.now giver.now.memory.now given.now
        giver.now.handles.now taker.now.to taker.now.handles.now taker.now.answers.now
        (record { memory = memory.old; slots = slots.old; numbers = numbers.old })) }
    ensures memory { OnErr result (memory.new ≡ memory.old) }
    ensures slots { OnErr result (slots.new ≡ slots.old) }
    ensures numbers { OnErr result (numbers.new ≡ numbers.old) }
{
    match call_of(alloc, bytes, call, given) {
        Ok(call) => match copy_params(alloc, &call, giver, taker, memory, slots, numbers) {
            Ok(count) => Ok(count),
            Err(fault) => Err(ComponentFault::Call(fault)),
        },
        Err(fault) => Err(fault),
    }
}

/// Copies the parameters of a call from the memory of its caller to that of its callee
/// (CanonicalABI.md, "Lifting and Lowering Values").
///
/// `component` are the bytes of a component file with the called function; `given` are the core
/// values with which the caller passes the parameters, of 32 bits in the low half, and `giver` is
/// its memory and its handles; `taker` is who receives the values, its handles, and the answers of
/// its allocator to the requests of `ask`.
///
/// Where the answer is `Fine`, `memory` and `slots`, the callee's, have the values, and `numbers`
/// the numbers that stand for their handles in the callee, in reading order: as many as there is
/// room for, and `wanted` says how many there are. Else nothing is written but a `wanted` of 0.
pub fn copy(
    alloc: Global,
    component: &[u8],
    call: &HuxCall,
    given: &[u64],
    giver: &Giver<'_, '_>,
    taker: &Taker<'_, '_>,
    memory: &mut [u8],
    slots: &mut [u64],
    numbers: &mut [u32],
    wanted: &mut usize,
) -> HuxVerdict
    ensures { IsCopyVerdict component.now call.now giver.now.memory.now given.now
        giver.now.handles.now taker.now.to taker.now.handles.now taker.now.answers.now result
        (record { memory = memory.old; slots = slots.old; numbers = numbers.old })
        (record { memory = memory.new; slots = slots.new; numbers = numbers.new }) wanted.new }
{
    match copy_of(
        alloc, component, call, given, giver, taker, memory, slots, numbers,
    ) {
        Ok(count) => {
            *wanted = count;
            HuxVerdict::fine()
        }
        Err(fault) => {
            *wanted = 0;
            fault.verdict()
        }
    }
}
