//! The values that core values denote, as a host sees them.

ghost use Rattle.std.specs.Prelude.{◌≡◌, ◌⊎◌, IfErr, IfOk};
ghost use Rattle.cm_types.specs.Types.{Fields};
ghost use Rattle.cm_types.specs.Values.{Val, parts};
ghost use Rattle.cm_types.specs.ValueTrees.{values_of};
ghost use Rattle.cm_abi_model.specs.Denotes.{Denotes};
ghost use Rattle.cm_abi_model.specs.LiftStops.{LiftStops};
ghost use Rattle.cm_abi_model.specs.Requests.{tuple_of};
ghost use Rattle.cm_abi_model.specs.Views.{View};
ghost use Rattle.cm_host_values.specs.HostTypes.{types_in, way_in};
ghost use Rattle.cm_host_values.specs.Indexed.{host_types};
ghost use Rattle.cm_host_values.specs.Sees.{Sees, host_of};
ghost use Rattle.cm_host_values.specs.Reading.{IsReadBy, IsReadIn};

use crate::host_types::HostTypes;
use crate::laws::hosts_see_what_is_denoted;
use cm_abi::{AbiFault, Passed, StringEncoding, lift};
use cm_handles::Table;
use cm_types::{CoreValue, Value};
use std::alloc::Global;

/// The values that core values denote in a memory, as a host sees them: strings are in UTF-8, and a
/// handle is its index, of the type u32 (CanonicalABI.md, "Lifting and Lowering Values",
/// `lift_flat_values`). Nothing changes.
///
/// They are what the host sees of the value that is denoted in a view of the instance, whatever the
/// handles of its table. The fault is the first one in reading order, as that of `lift`, or
/// `EngineMemory` where there is no memory for the values.
pub fn lift_values(
    alloc: Global,
    memory: &[u8],
    types: &HostTypes,
    slots: &[CoreValue],
) -> Result<Vec<Value>, AbiFault>
    ensures seen { (w : View) (all : Fields) (v : Val) → IsReadBy w memory.now
        → types_in types.now ≡ host_types all → Denotes w (way_in types.now) all slots.now v
        → IfOk result (λ vs. Sees w.table (tuple_of all) v (parts (values_of vs.items))) }
    ensures denoted { (w : View) → IsReadBy w memory.now → IfOk result (λ vs.
        Denotes (host_of w) (way_in types.now) (types_in types.now) slots.now
        (parts (values_of vs.items))) }
    ensures stops { (w : View) → IsReadBy w memory.now → IfErr result (λ e.
        (e ≡ AbiFault.EngineMemory)
        ⊎ LiftStops (host_of w) (way_in types.now) (types_in types.now) slots.now e) }
{
    lift_values_in(alloc, memory, types, StringEncoding::Utf8, slots)
}

/// The values that core values denote in a memory whose strings have an encoding, as `lift_values`.
pub fn lift_values_in(
    alloc: Global,
    memory: &[u8],
    types: &HostTypes,
    encoding: StringEncoding,
    slots: &[CoreValue],
) -> Result<Vec<Value>, AbiFault>
    ensures seen { (w : View) (all : Fields) (v : Val) → IsReadIn encoding w memory.now
        → types_in types.now ≡ host_types all → Denotes w (way_in types.now) all slots.now v
        → IfOk result (λ vs. Sees w.table (tuple_of all) v (parts (values_of vs.items))) }
    ensures denoted { (w : View) → IsReadIn encoding w memory.now → IfOk result (λ vs.
        Denotes (host_of w) (way_in types.now) (types_in types.now) slots.now
        (parts (values_of vs.items))) }
    ensures stops { (w : View) → IsReadIn encoding w memory.now → IfErr result (λ e.
        (e ≡ AbiFault.EngineMemory)
        ⊎ LiftStops (host_of w) (way_in types.now) (types_in types.now) slots.now e) }
{
    hosts_see_what_is_denoted();
    let Ok(layout) = types.layout(alloc) else {
        return Err(AbiFault::EngineMemory);
    };
    let mut table = Table::new(alloc);
    let passed = Passed {
        way: types.way(),
        layout: &layout,
        slots,
    };
    let lifted = lift(alloc, memory, &mut table, encoding, &passed)?;
    Ok(lifted.values)
}
