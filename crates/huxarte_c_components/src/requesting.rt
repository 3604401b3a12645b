//! What passing a call asks an allocator for.

ghost use Rattle.std.specs.Prelude.{IfErr, IfOk};
ghost use Rattle.huxarte_c_components.specs.Calling.{AreNoRequests, AreRequests};
ghost use Rattle.huxarte_c_components.specs.Calling.{IsRequestsVerdict};

use crate::calling::call_of;
use crate::fault::ComponentFault;
use huxarte_c_calls::{HuxCall, HuxHandle, HuxRequest, HuxVerdict, asked, write_items};
use std::alloc::Global;

/// What the call of a function of the component of a file asks for.
fn requests_of(
    alloc: Global,
    bytes: &[u8],
    call: &HuxCall,
    memory: &[u8],
    slots: &[u64],
    handles: &[HuxHandle],
) -> Result<Vec<HuxRequest>, ComponentFault>
    ensures rows { IfOk result (λ rows.
        AreRequests bytes.now call.now memory.now slots.now handles.now rows.items) }
    ensures refused { IfErr result
        (AreNoRequests bytes.now call.now memory.now slots.now handles.now) }
{
    match call_of(alloc, bytes, call, slots) {
        Ok(call) => match asked(alloc, &call, memory, handles) {
            Ok(rows) => Ok(rows),
            Err(fault) => Err(ComponentFault::Call(fault)),
        },
        Err(fault) => Err(fault),
    }
}

/// Tells what passing the parameters of a call asks the callee's allocator for, in order, before
/// anything is stored (CanonicalABI.md, `realloc`; the order and the sizes are this project's own
/// choice).
///
/// `component` are the bytes of a component file with the called function; `slots` are the core
/// values with which the caller passes the parameters, of 32 bits in the low half, `memory` is its
/// memory, and `handles` its handle table, under the indices from 1 on.
///
/// The answer is `Fine`, and `requests` has as many requests as there is room for; `wanted` says
/// how many there are. Else nothing is written but a `wanted` of 0.
pub fn ask(
    alloc: Global,
    component: &[u8],
    call: &HuxCall,
    memory: &[u8],
    slots: &[u64],
    handles: &[HuxHandle],
    requests: &mut [HuxRequest],
    wanted: &mut usize,
) -> HuxVerdict
    ensures { IsRequestsVerdict component.now call.now memory.now slots.now handles.now result
        requests.old wanted.new requests.new }
{
    match requests_of(alloc, component, call, memory, slots, handles) {
        Ok(rows) => {
            *wanted = write_items(requests, &rows);
            HuxVerdict::fine()
        }
        Err(fault) => {
            *wanted = 0;
            fault.verdict()
        }
    }
}
