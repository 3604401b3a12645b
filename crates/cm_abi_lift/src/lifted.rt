//! Values that core values denote.

ghost use Rattle.std.specs.Prelude.{◌≡◌, ◌^◌, ◌<◌, ◌⊎◌, Err, IfErr, IfOk, IsOkUnless, Ok, OnErr};
ghost use Rattle.std.specs.Prelude.{length};
ghost use Rattle.cm_types.specs.Types.{Fields};
ghost use Rattle.cm_types.specs.Values.{Val, Vals, parts};
ghost use Rattle.cm_layout.specs.Layouts.{layout_of};
ghost use Rattle.cm_types.specs.ValueTrees.{value_of, values_of};
ghost use Rattle.cm_handles.specs.Handles.{IsSoundHandles};
ghost use Rattle.cm_abi_model.specs.Denotes.{Denotes};
ghost use Rattle.cm_abi_model.specs.LiftStops.{LiftStops};
ghost use Rattle.cm_abi_model.specs.Taken.{Transferable};
ghost use Rattle.cm_abi_model.specs.Views.{View};
ghost use Rattle.cm_abi_model.specs.Ways.{way_of};
ghost use Rattle.cm_abi_load.specs.Outcomes.{State};
ghost use Rattle.cm_abi_model.specs.Lifts.{LendsBelow};
ghost use Rattle.cm_abi_lift.specs.HandingOver.{hand_over, handed, untouched};
ghost use Rattle.cm_abi_model.specs.Lifts.{IsGivenBy, Lifts};
ghost use Rattle.cm_abi_lift.specs.Lifts.{IsTupleOf, handed_with, lift_of};

use crate::handing::{Handed, hand_over, is_sound};
use crate::laws::{first_faults_are_told, lifting_is_exact};
use crate::passed::{Passed, read_passed};
use cm_abi_load::{Giver, MetHandle, Progress, Stop};
use cm_abi_model::{AbiFault, MAX_CONTENT, StringEncoding};
use cm_handles::{Handle, Table};
use cm_types::Value;
use std::alloc::Global;

/// Values that were lifted.
#[derive(Drop)]
pub struct Lifted {
    /// The values, in order.
    pub values: Vec<Value>,
    /// The handles that were taken out of the giver's table, in reading order.
    pub owns: Vec<Handle>,
    /// The indices of the handles that were lent, in reading order.
    pub lends: Vec<u32>,
    /// Of each string of the values, in reading order, whether its length was tagged as UTF-16;
    /// empty where strings are in UTF-8 or in UTF-16 alone, whose lengths have no tags.
    pub tagged: Vec<bool>,
}

/// The fields of a tuple.
fn fields_of(tuple: Value) -> Vec<Value>
    requires { (vs : Vals) × (value_of tuple ≡ parts vs) }
    ensures { value_of tuple ≡ parts (values_of result.items) }
{
    match tuple {
        Value::Fields(values) => values,
        _ => unreachable!(),
    }
}

/// The values that core values denote, by the layout of the tuple of their types, in the view of an
/// instance: its memory, its handle table and how its strings are encoded; the standard's
/// `lift_flat_values` (CanonicalABI.md, "Lifting and Lowering Values").
///
/// It succeeds exactly where the core values denote values that can be handed over: no handle is
/// owned twice, none that is to be owned is lent or borrowed as well, and strings and lists hold at
/// most 16,777,216 bytes. Then each handle that is to be owned is taken out of the table, and each
/// that is to be borrowed is lent once more, in reading order; nothing else is changed. The tags of
/// strings are told as they stood. The caller gives a table whose handles are lent fewer than 2^100
/// times.
///
/// Else the answer is the first fault in reading order, and the table is as it was. At a pointer it
/// is `Misaligned`, else `PointerBounds`, else `TooLarge`, else `BadText`; at a char `BadChar`; at
/// the number of a case `BadCase`; at a handle `NoHandle`, else `WrongResource`, else for one to be
/// owned `StillLent`, else `NotOwned`. `EngineMemory` comes where there is no memory for the
/// values.
pub fn lift(
    alloc: Global,
    memory: &[u8],
    table: &mut Table,
    encoding: StringEncoding,
    passed: &Passed<'_>,
) -> Result<Lifted, AbiFault>
    requires layout { (types : Fields) × IsTupleOf types passed.now }
    requires lends { LendsBelow (2 ^ 100) table.old.handles }
    ensures lifts { (w : View) (types : Fields)
        → IsGivenBy w memory.now table.old.handles encoding → IsTupleOf types passed.now
        → IfOk result (λ l. Lifts w (way_of passed.now.way) types passed.now.slots.now
        (parts (values_of l.values.items)) l.tagged.items
        (handed_with table.new.handles l)) }
    ensures stops { (w : View) (types : Fields)
        → IsGivenBy w memory.now table.old.handles encoding → IsTupleOf types passed.now
        → IfErr result (λ e. (e ≡ AbiFault.EngineMemory)
        ⊎ LiftStops w (way_of passed.now.way) types passed.now.slots.now e) }
    ensures only { (w : View) (types : Fields) (v : Val)
        → IsGivenBy w memory.now table.old.handles encoding → IsTupleOf types passed.now
        → Denotes w (way_of passed.now.way) types passed.now.slots.now v
        → Transferable w (way_of passed.now.way) types passed.now.slots.now v
        → IsOkUnless result AbiFault.EngineMemory }
    ensures sound { IsSoundHandles table.new.handles }
    ensures unchanged { OnErr result (table.new ≡ table.old) }
{
    lifting_is_exact();
    first_faults_are_told();
    let lifted = lift_values(alloc, memory, table, encoding, passed);
    is_sound(table);
    lifted
}

/// The same, by the definition of lifting that goes from part to part.
fn lift_values(
    alloc: Global,
    memory: &[u8],
    table: &mut Table,
    encoding: StringEncoding,
    passed: &Passed<'_>,
) -> Result<Lifted, AbiFault>
    requires layout { (types : Fields) × IsTupleOf types passed.now }
    requires lends { LendsBelow (2 ^ 100) table.old.handles }
    ensures ok { IfOk result (λ l.
        lift_of memory.now table.old.handles encoding (way_of passed.now.way)
        (layout_of passed.now.layout.now) passed.now.slots.now
        ≡ Ok (
          parts (values_of l.values.items),
          l.tagged.items,
          handed_with table.new.handles l,
        )) }
    ensures err { IfErr result (λ e. (e ≡ AbiFault.EngineMemory)
        ⊎ (lift_of memory.now table.old.handles encoding (way_of passed.now.way)
        (layout_of passed.now.layout.now) passed.now.slots.now ≡ Err e)) }
    ensures unchanged { OnErr result (table.new ≡ table.old) }
{
    let mut progress = Progress {
        left: MAX_CONTENT,
        handles: Vec::new(alloc),
        tags: Vec::new(alloc),
    };
    let giver = Giver {
        alloc,
        memory,
        table: &*table,
        encoding,
    };
    let mut handed = Handed::new(alloc);
    match read_passed(&giver, passed, &mut progress) {
        Ok(tuple) => {
            hand_over(table, &progress.handles, &mut handed)?;
            Ok(Lifted {
                values: fields_of(tuple),
                owns: handed.owns,
                lends: handed.lends,
                tagged: progress.tags,
            })
        }
        Err(Stop::Memory) => Err(AbiFault::EngineMemory),
        Err(Stop::Fault(fault)) => {
            Err(first_fault(table, &progress.handles, fault, &mut handed))
        }
    }
}

/// The first fault, where reading stopped at one: that of a handle that was met before comes first.
/// `EngineMemory` comes where there is no memory to hand those over, which are listed in `kept`
/// meanwhile. The table stays as it is.
pub fn first_fault(
    table: &mut Table,
    met: &[MetHandle],
    fault: AbiFault,
    kept: &mut Handed,
) -> AbiFault
    requires lends { LendsBelow (2 ^ 100) table.old.handles }
    ensures first { (result ≡ AbiFault.EngineMemory)
        ⊎ ((s : State) → handed (Err (fault, s))
        (hand_over (untouched table.old.handles) met.now) ≡ Err result) }
    ensures unchanged { table.new ≡ table.old }
{
    match hand_over(table, met, kept) {
        Ok(()) => {
            kept.take_back(table, met);
            fault
        }
        Err(earlier) => earlier,
    }
}
