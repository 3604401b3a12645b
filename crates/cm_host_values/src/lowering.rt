//! Values of a host, as bytes of a memory and the core values that pass them.

ghost use Rattle.std.specs.Prelude.{◌≡◌, ◌≤◌, ◌⊎◌, [], IfErr, IfOk, OnErr, OnOk, length, true};
ghost use Rattle.cm_types.specs.Types.{Fields};
ghost use Rattle.cm_types.specs.Values.{HasType, Val, parts};
ghost use Rattle.cm_types.specs.ValueTrees.{values_of};
ghost use Rattle.cm_types.specs.Spellable.{are_spellable};
ghost use Rattle.cm_layout.specs.Layouts.{layout_of};
ghost use Rattle.cm_layout.specs.Shapes.{layout_of_fields_at};
ghost use Rattle.cm_abi.specs.Lowers.{CanBeLowered, asked_for as asked_of, tuple_in};
ghost use Rattle.cm_abi_model.specs.declared.encoding.StringEncoding.TheVariants.{Utf8};
ghost use Rattle.cm_abi_model.specs.Denotes.{Denotes};
ghost use Rattle.cm_abi_model.specs.Receives.{leaves_in};
ghost use Rattle.cm_abi_model.specs.Requests.{tuple_of};
ghost use Rattle.cm_abi_model.specs.Taken.{MAX_CONTENT};
ghost use Rattle.cm_abi_model.specs.Views.{View};
ghost use Rattle.cm_abi_model.specs.Ways.{way_of};
ghost use Rattle.cm_host_values.specs.HostTypes.{types_in, way_in};
ghost use Rattle.cm_host_values.specs.Indexed.{host_types};
ghost use Rattle.cm_host_values.specs.Sees.{Sees};
ghost use Rattle.cm_host_values.specs.Answers.{HasNoRoom};
ghost use Rattle.cm_host_values.specs.Lowering.{DenoteThere, IsValuesFault, WereGiven, asked_for};
ghost use Rattle.cm_host_values.specs.Lowering.{content_of};
ghost use Rattle.cm_host_values.specs.Standing.{BeginsWith};

use crate::cases::cases_fit;
use crate::content::is_small;
use crate::fault::ValuesFault;
use crate::host_types::HostTypes;
use crate::laws::{hosts_see_what_is_denoted, what_a_host_sees_has_no_handles};
use crate::requesting::answers;
use cm_abi::{Encodings, Passing, Receiver, StringEncoding, lower, requests};
use cm_abi_model::MAX_CONTENT;
use cm_abi_model::laws::{
    what_is_received_is_denoted, what_is_received_stays, what_is_stored_lies_in_regions,
};
use cm_handles::Table;
use cm_layout::Layout;
use cm_machine_guests::Bump;
use cm_types::{CoreValue, Value};
use std::alloc::Global;

/// Values as they are passed: bytes of a memory, and core values.
#[derive(Drop)]
pub struct Lowered {
    /// The core values that pass the values.
    pub slots: Vec<CoreValue>,
    /// The bytes of the memory, from its start on.
    pub bytes: Vec<u8>,
}

/// A memory of zeros of so many bytes.
fn zeros(alloc: Global, bytes: u32) -> Result<Vec<u8>, ValuesFault>
    ensures ok { IfOk result (λ v. length v.items ≡ bytes) }
    ensures err { IfErr result (λ e. e ≡ ValuesFault.Memory) }
{
    match Vec::from_elem(alloc, 0, bytes as usize) {
        Ok(memory) => Ok(memory),
        Err(_) => Err(ValuesFault::Memory),
    }
}

/// Lowers values without handles into a memory of zeros of so many bytes, by the answers to what
/// they ask for.
fn lower_at(
    alloc: Global,
    passing: &Passing<'_>,
    answers: &[u32],
    bytes: u32,
) -> Result<Lowered, ValuesFault>
    requires lowerable { (types : Fields) × CanBeLowered passing.now types }
    requires answered { (types : Fields) → CanBeLowered passing.now types
        → length answers.now ≡ length (asked_of passing.now types) }
    ensures denoted { (types : Fields) → CanBeLowered passing.now types
        → passing.now.encodings.target ≡ Utf8
        → leaves_in (tuple_of types) (tuple_in passing.now) ≡ []
        → IfOk result (λ l. DenoteThere (way_of passing.now.way) types (tuple_in passing.now) l) }
    ensures bytes { IfOk result (λ l. length l.bytes.items ≡ bytes) }
    ensures err { IfErr result (λ e. e ≡ ValuesFault.Memory) }
{
    what_is_received_is_denoted();
    what_is_received_stays();
    what_is_stored_lies_in_regions();
    cases_fit(passing.values);
    let mut memory = zeros(alloc, bytes)?;
    let mut table = Table::new(alloc);
    let to = Receiver {
        instance: 0,
        call: 0,
    };
    match lower(alloc, &mut memory, &mut table, to, passing, answers) {
        Ok(slots) => Ok(Lowered {
            slots,
            bytes: memory,
        }),
        Err(_) => Err(ValuesFault::Memory),
    }
}

/// Lowers values that have their types and are within the limit.
fn lower_typed(
    alloc: Global,
    types: &HostTypes,
    layout: &Layout,
    values: &[Value],
    regions: &mut Bump,
) -> Result<Lowered, ValuesFault>
    requires layout { layout_of layout.now ≡ layout_of_fields_at (types_in types.now) }
    requires spellable { are_spellable (types_in types.now) ≡ true }
    requires typed { HasType (tuple_of (types_in types.now)) (parts (values_of values.now)) }
    requires small { content_of (types_in types.now) (parts (values_of values.now)) ≤ MAX_CONTENT }
    ensures denoted { (all : Fields) → types_in types.now ≡ host_types all → IfOk result
        (DenoteThere (way_in types.now) (types_in types.now) (parts (values_of values.now))) }
    ensures given { OnOk result (WereGiven regions.old (way_in types.now) (types_in types.now)
        (parts (values_of values.now)) regions.new) }
    ensures bytes { IfOk result (λ l. length l.bytes.items ≡ regions.new.next) }
    ensures err { IfErr result (λ e. (e ≡ ValuesFault.Memory) ⊎ ((e ≡ ValuesFault.NoRoom)
        × HasNoRoom regions.old (asked_for (way_in types.now) (types_in types.now)
        (parts (values_of values.now))))) }
{
    what_a_host_sees_has_no_handles();
    let encodings = Encodings {
        source: StringEncoding::Utf8,
        target: StringEncoding::Utf8,
    };
    let Ok(requests) = requests(alloc, layout, types.way(), values, encodings, &[]) else {
        return Err(ValuesFault::Memory);
    };
    let answers = answers(alloc, &requests, regions)?;
    let passing = Passing {
        way: types.way(),
        layout,
        kinds: types.kinds(),
        values,
        encodings,
        tags: &[],
    };
    lower_at(alloc, &passing, &answers, regions.next)
}

/// Lowers values for a memory whose regions an allocator gives out: the bytes to be written there,
/// from its start on, and the core values that pass the values then (CanonicalABI.md, "Lifting and
/// Lowering Values", `lower_flat_values`). A handle is its index, of the type u32. Regions that
/// were given out before are zeros then.
///
/// In a memory that begins with these bytes the core values denote the values; so, where a handle
/// stands at each of these indices, they pass the value that a host sees so.
///
/// `WrongTypes` comes where there is not one value of each type, else `TooLarge` where strings and
/// lists have more than 16,777,216 bytes, and no region is given out then; else `NoRoom` where the
/// range has no room for them. `Memory` comes where there is no memory. The allocator may have
/// given out regions then.
pub fn lower_values(
    alloc: Global,
    types: &HostTypes,
    values: &[Value],
    regions: &mut Bump,
) -> Result<Lowered, ValuesFault>
    ensures denoted { (all : Fields) → types_in types.now ≡ host_types all → IfOk result
        (DenoteThere (way_in types.now) (types_in types.now) (parts (values_of values.now))) }
    ensures passed { (all : Fields) (w : View) (v : Val) → types_in types.now ≡ host_types all
        → Sees w.table (tuple_of all) v (parts (values_of values.now)) → IfOk result (λ l.
        BeginsWith w l.bytes.items → Denotes w (way_in types.now) all l.slots.items v) }
    ensures bytes { IfOk result (λ l. length l.bytes.items ≡ regions.new.next) }
    ensures given { OnOk result (WereGiven regions.old (way_in types.now) (types_in types.now)
        (parts (values_of values.now)) regions.new) }
    ensures typed { OnOk result
        (HasType (tuple_of (types_in types.now)) (parts (values_of values.now))) }
    ensures small { OnOk result
        (content_of (types_in types.now) (parts (values_of values.now)) ≤ MAX_CONTENT) }
    ensures fault { IfErr result (IsValuesFault regions.old (way_in types.now)
        (types_in types.now) (parts (values_of values.now))) }
    ensures unchanged { IfErr result (λ e. (e ≡ ValuesFault.WrongTypes)
        ⊎ (e ≡ ValuesFault.TooLarge) → regions.new ≡ regions.old) }
{
    hosts_see_what_is_denoted();
    if !types.fit(values) {
        return Err(ValuesFault::WrongTypes);
    }
    let Ok(layout) = types.layout(alloc) else {
        return Err(ValuesFault::Memory);
    };
    if !is_small(&layout, values, MAX_CONTENT) {
        return Err(ValuesFault::TooLarge);
    }
    lower_typed(alloc, types, &layout, values, regions)
}
