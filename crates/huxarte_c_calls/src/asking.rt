//! What an allocator is asked for.

ghost use Rattle.std.specs.Prelude.{◌≡◌, ◌^◌, [], IfErr, IfOk, List, map};
ghost use Rattle.cm_abi_model.specs.Answered.{IsAnswered, all_requests};
ghost use Rattle.cm_abi_model.specs.Lifts.{LendsBelow};
ghost use Rattle.cm_types.specs.Types.{Fields};
ghost use Rattle.huxarte_c_calls.specs.Asking.{IsAsked, IsValueRefusal, row_of};
ghost use Rattle.huxarte_c_calls.specs.Calls.{IsOf};
ghost use Rattle.huxarte_c_calls.specs.HandedOver.{handles_of};
ghost use Rattle.huxarte_c_calls.specs.declared.fault.CallFault.TheVariants as call_fault;
ghost use Rattle.huxarte_c_calls.specs.declared.handles.HuxHandle.{HuxHandle as Handed};

use crate::call::Call;
use crate::fault::CallFault;
use crate::handles::{HuxHandle, table_of};
use crate::passing::{MAX_MEMORY, scan_call};
use cm_abi::laws::one_copied_call;
use cm_abi::{Request, Scan};
use cm_abi_model::laws::what_goes_on_stays;
use cm_handles::Table;
use std::alloc::Global;

/// There are fewer requests than this: each part of a value is asked for at most three times.
const MAX_REQUESTS: u64 = 1 << 40;

/// What the allocator of a callee is asked for (CanonicalABI.md, `realloc`).
#[repr(C)]
#[derive(Clone, Copy)]
pub struct HuxRequest {
    /// 1 where its old pointer is the answer to the request just before it; else 0, and it has
    /// none.
    pub chained: u32,
    /// How many bytes stand at the old pointer; 0 where there is none.
    pub old_size: u32,
    /// The alignment, in bytes.
    pub align: u32,
    /// How many bytes are asked for.
    pub size: u32,
}

fn row_of(request: Request) -> HuxRequest
    ensures { result ≡ row_of request }
{
    HuxRequest {
        chained: u32::from(request.chained),
        old_size: request.old_size,
        align: request.align,
        size: request.size,
    }
}

/// The requests for what was scanned, in order: what is asked for does not depend on the answers.
///
/// The address 0 is aligned, and has room for each request in so large a memory.
fn requests_for(alloc: Global, kept: &mut Scan) -> Result<Vec<HuxRequest>, CallFault>
    requires { IsAnswered kept.old.parts [] }
    ensures rows { IfOk result (λ rows. rows.items ≡ map row_of (all_requests kept.old.parts)) }
    ensures refused { IfErr result (λ r. r ≡ call_fault.Memory) }
{
    what_goes_on_stays();
    let mut requests = Vec::new(alloc);
    for _ in 0..MAX_REQUESTS {
        let Some((request, _)) = kept.next_request() else {
            return Ok(requests);
        };
        requests.push(row_of(request))?;
        let Ok(()) = kept.answer(0, MAX_MEMORY) else {
            return Err(CallFault::Memory);
        };
    }
    Err(CallFault::Memory)
}

/// What a call asks the callee's allocator for, whose giver has this table.
fn asked_by(
    alloc: Global,
    call: &Call,
    memory: &[u8],
    table: &mut Table,
) -> Result<Vec<HuxRequest>, CallFault>
    requires call { (types : Fields) × IsOf call.now types }
    requires table { (handles : List Handed) × (table.old.handles ≡ handles_of handles) }
    requires lends { LendsBelow (2 ^ 100) table.old.handles }
    ensures rows { (handles : List Handed) (types : Fields)
        → table.old.handles ≡ handles_of handles → IsOf call.now types
        → IfOk result (λ rows. IsAsked call.now memory.now handles types rows.items) }
    ensures refused { (handles : List Handed) (types : Fields)
        → table.old.handles ≡ handles_of handles → IsOf call.now types
        → IfErr result (IsValueRefusal call.now memory.now handles types) }
{
    one_copied_call();
    let mut kept = Scan::new(alloc);
    match scan_call(alloc, call, memory, table, &mut kept) {
        Ok(()) => requests_for(alloc, &mut kept),
        Err(refusal) => Err(refusal),
    }
}

/// What passing the parameters of a call asks the callee's allocator for, in order, before anything
/// is stored. The giver has this memory, and these handles under the indices from 1 on.
///
/// `TooLarge` comes where its memory has 2^32 bytes or more, `Handles` where it has too many
/// handles, `Value` where its core values are refused, for the first reason in reading order; and
/// `Memory` where there is no memory (CanonicalABI.md, `realloc`; the order and the sizes are this
/// project's own choice).
pub fn asked(
    alloc: Global,
    call: &Call,
    memory: &[u8],
    handles: &[HuxHandle],
) -> Result<Vec<HuxRequest>, CallFault>
    requires { (types : Fields) × IsOf call.now types }
    ensures rows { (types : Fields) → IsOf call.now types
        → IfOk result (λ rows. IsAsked call.now memory.now handles.now types rows.items) }
    ensures refused { (types : Fields) → IsOf call.now types
        → IfErr result (IsValueRefusal call.now memory.now handles.now types) }
{
    match table_of(alloc, handles) {
        Ok(mut table) => asked_by(alloc, call, memory, &mut table),
        Err(fault) => Err(CallFault::Handles(fault)),
    }
}
