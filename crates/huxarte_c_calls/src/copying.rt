//! The parameters of a call, copied from one memory to another.

ghost use Rattle.std.specs.Prelude.{◌≡◌, IfErr, IfOk, OnErr, length};
ghost use Rattle.cm_abi_model.specs.Answered.{all_requests};
ghost use Rattle.cm_abi_model.specs.Scanned.{ScansCall};
ghost use Rattle.cm_abi_model.specs.Views.{View, params};
ghost use Rattle.cm_handles.specs.Handles.{Handles};
ghost use Rattle.cm_types.specs.Types.{Fields};
ghost use Rattle.cm_types.specs.Values.{Val};
ghost use Rattle.huxarte_c_calls.specs.Calls.{IsOf};
ghost use Rattle.huxarte_c_calls.specs.Copying.{AreDelivered, AreUndelivered, IsCopy, IsNoCopy};

use crate::call::Call;
use crate::core_values::{put_values, zeros};
use crate::fault::CallFault;
use crate::giving::{Scanned, Taker, give};
use crate::handles::{HuxHandle, table_of};
use crate::passing::scan_call;
use crate::texts::write_items;
use cm_abi::Scan;
use cm_abi::laws::one_copied_call;
use std::alloc::Global;

/// Where the values of a call come from: the memory of its caller, and the caller's handles, under
/// the indices from 1 on.
#[derive(Clone, Copy)]
pub struct Giver<'m, 'h> {
    pub memory: &'m [u8],
    pub handles: &'h [HuxHandle],
}

/// Delivers what was scanned: into the memory of the callee, the slots that pass it there, and the
/// numbers that stand for its handles; answers how many numbers there are.
fn deliver(
    alloc: Global,
    scanned: &Scanned<'_, '_>,
    kept: &mut Scan,
    taker: &Taker<'_, '_>,
    memory: &mut [u8],
    slots: &mut [u64],
    numbers: &mut [u32],
) -> Result<usize, CallFault>
    requires scanned { (w : View) × (types : Fields) × (v : Val) × (t : Handles)
        × IsOf scanned.now.call.now types × (w.memory ≡ scanned.now.memory.now)
        × ScansCall w scanned.now.call.now.encodings.target params types
        scanned.now.call.now.slots.items v t kept.old }
    requires slots { length slots.old ≡ length scanned.now.call.now.kinds.items }
    ensures delivered { (w : View) (types : Fields) (v : Val) (t : Handles)
        → IsOf scanned.now.call.now types → w.memory ≡ scanned.now.memory.now
        → ScansCall w scanned.now.call.now.encodings.target params types
        scanned.now.call.now.slots.items v t kept.old
        → IfOk result (AreDelivered scanned.now.call.now taker.now.to types v
        (all_requests kept.old.parts) taker.now.handles.now taker.now.answers.now
        (record { memory = memory.old; slots = slots.old; numbers = numbers.old })
        (record { memory = memory.new; slots = slots.new; numbers = numbers.new })) }
    ensures refused { (w : View) (types : Fields) (v : Val) (t : Handles)
        → IsOf scanned.now.call.now types → w.memory ≡ scanned.now.memory.now
        → ScansCall w scanned.now.call.now.encodings.target params types
        scanned.now.call.now.slots.items v t kept.old
        → IfErr result (AreUndelivered taker.now.to types v (all_requests kept.old.parts)
        taker.now.handles.now taker.now.answers.now (length memory.old)) }
    ensures memory { OnErr result (memory.new ≡ memory.old) }
    ensures slots { OnErr result (slots.new ≡ slots.old) }
    ensures numbers { OnErr result (numbers.new ≡ numbers.old) }
{
    let mut values = zeros(alloc, &scanned.call.kinds)?;
    match table_of(alloc, taker.handles) {
        Ok(mut table) => match give(scanned, kept, taker, memory, &mut table, &mut values) {
            Ok(()) => {
                put_values(slots, &values);
                Ok(write_items(numbers, kept.numbers()))
            }
            Err(fault) => Err(fault),
        },
        Err(fault) => Err(CallFault::Handles(fault)),
    }
}

/// Scans what a call passes, and delivers it.
fn scan_and_deliver(
    alloc: Global,
    call: &Call,
    giver: &Giver<'_, '_>,
    taker: &Taker<'_, '_>,
    memory: &mut [u8],
    slots: &mut [u64],
    numbers: &mut [u32],
) -> Result<usize, CallFault>
    requires call { (types : Fields) × IsOf call.now types }
    requires slots { length slots.old ≡ length call.now.kinds.items }
    ensures copied { (types : Fields) → IsOf call.now types
        → IfOk result (IsCopy call.now giver.now.memory.now giver.now.handles.now types
        taker.now.to taker.now.handles.now taker.now.answers.now
        (record { memory = memory.old; slots = slots.old; numbers = numbers.old })
        (record { memory = memory.new; slots = slots.new; numbers = numbers.new })) }
    ensures refused { (types : Fields) → IsOf call.now types
        → IfErr result (IsNoCopy call.now giver.now.memory.now giver.now.handles.now types
        taker.now.to taker.now.handles.now taker.now.answers.now
        (record { memory = memory.old; slots = slots.old; numbers = numbers.old })) }
    ensures memory { OnErr result (memory.new ≡ memory.old) }
    ensures slots { OnErr result (slots.new ≡ slots.old) }
    ensures numbers { OnErr result (numbers.new ≡ numbers.old) }
{
    one_copied_call();
    match table_of(alloc, giver.handles) {
        Ok(mut table) => {
            let mut kept = Scan::new(alloc);
            scan_call(alloc, call, giver.memory, &mut table, &mut kept)?;
            let scanned = Scanned {
                call,
                memory: giver.memory,
            };
            deliver(alloc, &scanned, &mut kept, taker, memory, slots, numbers)
        }
        Err(fault) => Err(CallFault::Handles(fault)),
    }
}

/// Copies the parameters of a call from the memory of its caller to that of its callee, and answers
/// how many numbers stand for handles (CanonicalABI.md, "Lifting and Lowering Values").
///
/// `memory` is that of the callee, in which its allocator answered the requests (`asked`); `slots`
/// get the core values that pass the parameters there, and `numbers` those that stand for their
/// handles, in reading order: as many as there is room for.
///
/// `NoSlots` comes where there are not as many slots as core values pass the parameters, `TooLarge`
/// where a memory has 2^32 bytes or more, `Handles` where one side has too many handles; `Value`
/// where the caller's values are refused, or where their parts overlap in the callee, or its table
/// has no room for their handles; `Answer` with the first answer that is not aligned or passes the
/// end of the memory, `Answers` where there are more or fewer than requests; `Memory` where there
/// is no memory. Then nothing is written.
pub fn copy_params(
    alloc: Global,
    call: &Call,
    giver: &Giver<'_, '_>,
    taker: &Taker<'_, '_>,
    memory: &mut [u8],
    slots: &mut [u64],
    numbers: &mut [u32],
) -> Result<usize, CallFault>
    requires { (types : Fields) × IsOf call.now types }
    ensures copied { (types : Fields) → IsOf call.now types
        → IfOk result (IsCopy call.now giver.now.memory.now giver.now.handles.now types
        taker.now.to taker.now.handles.now taker.now.answers.now
        (record { memory = memory.old; slots = slots.old; numbers = numbers.old })
        (record { memory = memory.new; slots = slots.new; numbers = numbers.new })) }
    ensures refused { (types : Fields) → IsOf call.now types
        → IfErr result (IsNoCopy call.now giver.now.memory.now giver.now.handles.now types
        taker.now.to taker.now.handles.now taker.now.answers.now
        (record { memory = memory.old; slots = slots.old; numbers = numbers.old })) }
    ensures memory { OnErr result (memory.new ≡ memory.old) }
    ensures slots { OnErr result (slots.new ≡ slots.old) }
    ensures numbers { OnErr result (numbers.new ≡ numbers.old) }
{
    if slots.len() != call.kinds.len() {
        return Err(CallFault::NoSlots);
    }
    scan_and_deliver(alloc, call, giver, taker, memory, slots, numbers)
}
