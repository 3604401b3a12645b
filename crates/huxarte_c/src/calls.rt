//! The parameters of a call, asked for and copied.

ghost use Rattle.huxarte_c_components.specs.Calling.{IsCopyVerdict, IsRequestsVerdict};
ghost use Rattle.huxarte_c_components.specs.Calling.{receiver_of};

use huxarte_c_calls::{Giver, HuxCall, HuxHandle, HuxRequest, HuxVerdict, Receiver, Taker};
use huxarte_c_components::{ask, copy};
use std::alloc::Global;

/// Tells what passing the parameters of a call asks the callee's allocator for, in order, before
/// anything is stored (docs/DEFINITIONS.md; the order and the sizes are this project's own).
///
/// `component` are the bytes of a component file with the called function; `slots` are the core
/// values with which the caller passes the parameters, of 32 bits in the low half, `memory` is its
/// memory, and `handles` its handle table, under the indices from 1 on.
///
/// The answer is `Fine`, and `requests` has as many requests as there is room for; `wanted` says
/// how many there are. Else nothing is written but a `wanted` of 0.
#[unsafe(no_mangle)]
pub extern "C" fn hux_requests(
    alloc: Global,
    component: &[u8],
    call: &HuxCall,
    memory: &[u8],
    slots: &[u64],
    handles: &[HuxHandle],
    requests: &mut [HuxRequest],
    wanted: &mut usize,
) -> HuxVerdict
    ensures { IsRequestsVerdict component.now call.now memory.now slots.now handles.now result
        requests.old wanted.new requests.new }
{
    ask(
        alloc, component, call, memory, slots, handles, requests, wanted,
    )
}

/// Copies the parameters of a call from the memory of its caller to that of its callee
/// (CanonicalABI.md, "Lifting and Lowering Values").
///
/// `component` are the bytes of a component file with the called function; `slots` are the core
/// values with which the caller passes the parameters, of 32 bits in the low half, `handles` its
/// handle table, and `callee_handles` that of the callee, each under the indices from 1 on.
/// `answers` are those of the callee's allocator to the requests of `hux_requests`.
///
/// Where the answer is `Fine`, `callee_memory` and `callee_slots` have the values, and `numbers`
/// the numbers that stand for their handles in the callee, in reading order: as many as there is
/// room for, and `wanted` says how many there are. Else nothing is written but a `wanted` of 0.
#[unsafe(no_mangle)]
pub extern "C" fn hux_copy(
    alloc: Global,
    component: &[u8],
    call: &HuxCall,
    memory: &[u8],
    slots: &[u64],
    handles: &[HuxHandle],
    callee_handles: &[HuxHandle],
    answers: &[u32],
    callee_memory: &mut [u8],
    callee_slots: &mut [u64],
    numbers: &mut [u32],
    wanted: &mut usize,
) -> HuxVerdict
    ensures { IsCopyVerdict component.now call.now memory.now slots.now handles.now
        (receiver_of call.now) callee_handles.now answers.now result
        (record { memory = callee_memory.old; slots = callee_slots.old; numbers = numbers.old })
        (record { memory = callee_memory.new; slots = callee_slots.new; numbers = numbers.new })
        wanted.new }
{
    let giver = Giver { memory, handles };
    let taker = Taker {
        to: Receiver {
            instance: call.callee,
            call: call.call,
        },
        handles: callee_handles,
        answers,
    };
    copy(
        alloc,
        component,
        call,
        slots,
        &giver,
        &taker,
        callee_memory,
        callee_slots,
        numbers,
        wanted,
    )
}
