//! What was scanned, copied to its receiver.

ghost use Rattle.std.specs.Prelude.{◌≡◌, IfErr, OnErr, OnOk, length, map};
ghost use Rattle.cm_abi_model.specs.Answered.{all_requests};
ghost use Rattle.cm_abi_model.specs.Scanned.{ScansCall};
ghost use Rattle.cm_abi_model.specs.Views.{View, params};
ghost use Rattle.cm_handles.specs.Handles.{Handles};
ghost use Rattle.cm_types.specs.CoreValues.{kind_of};
ghost use Rattle.cm_types.specs.Types.{Fields};
ghost use Rattle.cm_types.specs.Values.{Val};
ghost use Rattle.huxarte_c_calls.specs.Calls.{IsOf};
ghost use Rattle.huxarte_c_calls.specs.Copying.{AreCopied, AreNotCopied};

use crate::answering::answer_all;
use crate::call::Call;
use crate::fault::CallFault;
use crate::handles::HuxHandle;
use crate::passing::{MAX_MEMORY, passed_by};
use cm_abi::laws::one_copied_call;
use cm_abi::{Found, Receiver, Scan, copy};
use cm_abi_model::laws::what_goes_on_stays;
use cm_abi_requests::requesting_laws::all_answers_place_parts;
use cm_handles::Table;
use cm_types::CoreValue;

/// A call that was scanned.
#[derive(Clone, Copy)]
pub(crate) struct Scanned<'c, 'm> {
    pub(crate) call: &'c Call,
    /// The memory of its giver.
    pub(crate) memory: &'m [u8],
}

/// Where values go: who receives them, its handles, under the indices from 1 on, and the answers of
/// its allocator.
#[derive(Clone, Copy)]
pub struct Taker<'h, 'a> {
    pub to: Receiver,
    pub handles: &'h [HuxHandle],
    pub answers: &'a [u32],
}

/// Copies what was scanned, with the answers to its requests, into the memory of the callee and the
/// core values that pass it there.
///
/// `TooLarge` comes where that memory has 2^32 bytes or more; else a fault of the answers; else
/// that of `copy`. Then memory and table are as they were.
pub(crate) fn give(
    scanned: &Scanned<'_, '_>,
    kept: &mut Scan,
    taker: &Taker<'_, '_>,
    memory: &mut [u8],
    table: &mut Table,
    values: &mut [CoreValue],
) -> Result<(), CallFault>
    requires scanned { (w : View) × (types : Fields) × (v : Val) × (t : Handles)
        × IsOf scanned.now.call.now types × (w.memory ≡ scanned.now.memory.now)
        × ScansCall w scanned.now.call.now.encodings.target params types
        scanned.now.call.now.slots.items v t kept.old }
    requires kinds { map kind_of values.old ≡ scanned.now.call.now.kinds.items }
    ensures copied { (w : View) (types : Fields) (v : Val) (t : Handles)
        → IsOf scanned.now.call.now types → w.memory ≡ scanned.now.memory.now
        → ScansCall w scanned.now.call.now.encodings.target params types
        scanned.now.call.now.slots.items v t kept.old
        → OnOk result (AreCopied taker.now.to scanned.now.call.now.encodings.target types v
        (all_requests kept.old.parts) taker.now.answers.now memory.old memory.new table.old.handles
        table.new.handles values.new kept.new.numbers) }
    ensures refused { (w : View) (types : Fields) (v : Val) (t : Handles)
        → IsOf scanned.now.call.now types → w.memory ≡ scanned.now.memory.now
        → ScansCall w scanned.now.call.now.encodings.target params types
        scanned.now.call.now.slots.items v t kept.old
        → IfErr result (AreNotCopied taker.now.to types v (all_requests kept.old.parts)
        taker.now.answers.now (length memory.old) table.old.handles) }
    ensures memory { OnErr result (memory.new ≡ memory.old) }
{
    one_copied_call();
    what_goes_on_stays();
    all_answers_place_parts();
    if memory.len() >= MAX_MEMORY {
        return Err(CallFault::TooLarge);
    }
    answer_all(kept, taker.answers, memory.len())?;
    let found = Found {
        memory: scanned.memory,
        passed: passed_by(scanned.call),
    };
    match copy(kept, memory, table, values, taker.to, &found) {
        Ok(()) => Ok(()),
        Err(fault) => Err(CallFault::Value(fault)),
    }
}
