//! What a call passes, scanned in the view of its giver.

ghost use Rattle.std.specs.Prelude.{◌≡◌, ◌^◌, List, MatchResult};
ghost use Rattle.cm_abi_model.specs.Lifts.{LendsBelow};
ghost use Rattle.cm_abi_model.specs.Scanned.{ScansCall};
ghost use Rattle.cm_abi_model.specs.Views.{params};
ghost use Rattle.cm_types.specs.Types.{Fields};
ghost use Rattle.cm_types.specs.Values.{Val};
ghost use Rattle.huxarte_c_calls.specs.Asking.{IsValueRefusal};
ghost use Rattle.huxarte_c_calls.specs.Calls.{IsOf, view_of};
ghost use Rattle.huxarte_c_calls.specs.HandedOver.{handles_of};
ghost use Rattle.huxarte_c_calls.specs.declared.handles.HuxHandle.{HuxHandle as Handed};

use crate::call::Call;
use crate::fault::CallFault;
use cm_abi::{Passed, Scan, Way, scan};
use cm_handles::Table;
use std::alloc::Global;

/// A memory has fewer bytes than this: 2^32 (this project's own choice).
pub(crate) const MAX_MEMORY: usize = 1 << 32;

/// What the giver passes.
pub(crate) fn passed_by(call: &Call) -> Passed<'_>
    ensures way { result.way ≡ Way.Params }
    ensures layout { result.layout.now ≡ call.now.layout }
    ensures slots { result.slots.now ≡ call.now.slots.items }
{
    Passed {
        way: Way::Params,
        layout: &call.layout,
        slots: &call.slots,
    }
}

/// Scans what a call passes, whose giver has this memory and this table.
pub(crate) fn scan_call(
    alloc: Global,
    call: &Call,
    memory: &[u8],
    table: &mut Table,
    kept: &mut Scan,
) -> Result<(), CallFault>
    requires call { (types : Fields) × IsOf call.now types }
    requires lends { LendsBelow (2 ^ 100) table.old.handles }
    ensures { (handles : List Handed) (types : Fields)
        → table.old.handles ≡ handles_of handles → IsOf call.now types
        → MatchResult result (λ _. (v : Val) × ScansCall (view_of call.now memory.now handles)
        call.now.encodings.target params types call.now.slots.items v table.new.handles kept.new)
        (IsValueRefusal call.now memory.now handles types) }
{
    if memory.len() >= MAX_MEMORY {
        return Err(CallFault::TooLarge);
    }
    match scan(alloc, kept, memory, table, call.encodings, &passed_by(call)) {
        Ok(()) => Ok(()),
        Err(fault) => Err(CallFault::Value(fault)),
    }
}
