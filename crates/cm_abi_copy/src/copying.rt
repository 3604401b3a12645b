//! The values of a call, copied to its receiver.

ghost use Rattle.std.specs.Prelude.{◌≡◌, ◌^◌, ◌<◌, ℕ, [], IfErr, IfSome, List, OnErr, OnOk, length};
ghost use Rattle.std.specs.Prelude.{map, slice_index};
ghost use Rattle.cm_types.specs.CoreValues.{kind_of};
ghost use Rattle.cm_types.specs.Types.{Fields};
ghost use Rattle.cm_types.specs.Values.{Val};
ghost use Rattle.cm_layout.specs.Layouts.{layout_of};
ghost use Rattle.cm_abi_model.specs.Views.{View, flat_limit};
ghost use Rattle.cm_abi_model.specs.Ways.{way_of};
ghost use Rattle.cm_abi_model.specs.Copies.{IsFaultOfCopying, handles_of_values};
ghost use Rattle.cm_abi_programs.specs.CallPuts.{call_puts_in, call_puts_of};
ghost use Rattle.cm_abi_copy.specs.Copies.{FoundCanBeCopied, IsCopied};

use crate::calls::copy_passed;
use crate::found::Found;
use crate::kept::Scan;
use crate::settled_laws::what_can_be_copied_is_settled;
use cm_abi_lower::give;
use cm_abi_model::laws::{
    places_are_read_alike, what_is_received_is_denoted, what_is_stored_stays,
};
use cm_abi_model::{AbiFault, Encodings, PartRecord, Receiver};
use cm_abi_programs::CallPuts;
use cm_abi_running::Copier;
use cm_abi_store::laws::{what_is_passed_fits, what_is_passed_stays};
use cm_abi_store::{Target, put_numbers};
use cm_handles::Table;
use cm_types::{CoreValue, MAX_FLAT_PARAMS};

/// Copies the values that were scanned to their receiver: into its memory, and into the core values
/// that pass them, with no tree made of them (CanonicalABI.md, "Lifting and Lowering Values",
/// `lower_flat_values`). All requests for their parts are answered, each with an address that is
/// aligned with its region in the memory, and the giver's memory and core values are as they were
/// when they were scanned. The core values are of the kinds that pass the types; whatever numbers
/// they have is written over. The memory is below 2^32 bytes.
///
/// Then the receiver has the values: each part at the answer to the last request for it, each
/// handle in its table or, of a resource that it implements and is lent, as the representation.
/// The bytes of the values are written, each at its address, and no other byte; exactly their
/// handles are added to the table.
///
/// The number that stands for each handle, in reading order, is kept: its index in the table, or
/// that representation. Nothing else is changed of what is kept of the values.
///
/// Else there is a fault, and memory, handles and core values are as they were, and no number is
/// kept: `Overlap` where the regions of two parts overlap, else `TableFull` where the table has
/// fewer indices left than it is to get handles, else `EngineMemory` where there is no memory for
/// their numbers or for the table; values without handles take none.
pub fn copy(
    kept: &mut Scan,
    memory: &mut [u8],
    table: &mut Table,
    slots: &mut [CoreValue],
    to: Receiver,
    found: &Found<'_>,
) -> Result<(), AbiFault>
    requires copied { (giver : View) × (answers : List ℕ) × (types : Fields) × (v : Val)
        × FoundCanBeCopied (length memory.old) (map kind_of slots.old) giver found.now kept.old
        answers types v }
    requires few { length memory.old < 2 ^ 32 }
    ensures copied { (giver : View) (answers : List ℕ) (types : Fields) (v : Val)
        → FoundCanBeCopied (length memory.old) (map kind_of slots.old) giver found.now kept.old
        answers types v
        → OnOk result (IsCopied to (way_of found.now.passed.way) types v kept.old.parts answers
        memory.old memory.new table.old.handles table.new.handles slots.new kept.new.numbers) }
    ensures err { (giver : View) (answers : List ℕ) (types : Fields) (v : Val)
        → FoundCanBeCopied (length memory.old) (map kind_of slots.old) giver found.now kept.old
        answers types v
        → IfErr result (IsFaultOfCopying kept.old.parts answers to table.old.handles
        (handles_of_values types v)) }
    ensures memory_stays { OnErr result (memory.new ≡ memory.old) }
    ensures table_stays { OnErr result (table.new.handles ≡ table.old.handles) }
    ensures slots_stay { OnErr result (slots.new ≡ slots.old) }
    ensures kept_stays { kept.new ≡ record kept.old { numbers = kept.new.numbers } }
    ensures no_numbers { OnErr result (kept.new.numbers ≡ []) }
{
    copy_either(kept, memory, table, slots, to, found, None)
}

/// Copies the values that were scanned to their receiver as [`copy`] does, by the puts of what
/// passes their types (`cm_abi_programs`), which are listed once: the layout is not walked.
pub fn copy_by(
    kept: &mut Scan,
    memory: &mut [u8],
    table: &mut Table,
    slots: &mut [CoreValue],
    to: Receiver,
    found: &Found<'_>,
    puts: &CallPuts,
) -> Result<(), AbiFault>
    requires copied { (giver : View) × (answers : List ℕ) × (types : Fields) × (v : Val)
        × FoundCanBeCopied (length memory.old) (map kind_of slots.old) giver found.now kept.old
        answers types v }
    requires few { length memory.old < 2 ^ 32 }
    requires puts { call_puts_in puts.now ≡ call_puts_of
        (flat_limit (way_of found.now.passed.way)) (layout_of found.now.passed.layout.now) }
    ensures copied { (giver : View) (answers : List ℕ) (types : Fields) (v : Val)
        → FoundCanBeCopied (length memory.old) (map kind_of slots.old) giver found.now kept.old
        answers types v
        → OnOk result (IsCopied to (way_of found.now.passed.way) types v kept.old.parts answers
        memory.old memory.new table.old.handles table.new.handles slots.new kept.new.numbers) }
    ensures err { (giver : View) (answers : List ℕ) (types : Fields) (v : Val)
        → FoundCanBeCopied (length memory.old) (map kind_of slots.old) giver found.now kept.old
        answers types v
        → IfErr result (IsFaultOfCopying kept.old.parts answers to table.old.handles
        (handles_of_values types v)) }
    ensures memory_stays { OnErr result (memory.new ≡ memory.old) }
    ensures table_stays { OnErr result (table.new.handles ≡ table.old.handles) }
    ensures slots_stay { OnErr result (slots.new ≡ slots.old) }
    ensures kept_stays { kept.new ≡ record kept.old { numbers = kept.new.numbers } }
    ensures no_numbers { OnErr result (kept.new.numbers ≡ []) }
{
    copy_either(kept, memory, table, slots, to, found, Some(puts))
}

/// `copy`, by puts where there are some, else by the layout.
#[inline(always)]
fn copy_either(
    kept: &mut Scan,
    memory: &mut [u8],
    table: &mut Table,
    slots: &mut [CoreValue],
    to: Receiver,
    found: &Found<'_>,
    puts: Option<&CallPuts>,
) -> Result<(), AbiFault>
    requires copied { (giver : View) × (answers : List ℕ) × (types : Fields) × (v : Val)
        × FoundCanBeCopied (length memory.old) (map kind_of slots.old) giver found.now kept.old
        answers types v }
    requires few { length memory.old < 2 ^ 32 }
    requires puts { IfSome puts (λ cs. call_puts_in cs.now ≡ call_puts_of
        (flat_limit (way_of found.now.passed.way)) (layout_of found.now.passed.layout.now)) }
    ensures copied { (giver : View) (answers : List ℕ) (types : Fields) (v : Val)
        → FoundCanBeCopied (length memory.old) (map kind_of slots.old) giver found.now kept.old
        answers types v
        → OnOk result (IsCopied to (way_of found.now.passed.way) types v kept.old.parts answers
        memory.old memory.new table.old.handles table.new.handles slots.new kept.new.numbers) }
    ensures err { (giver : View) (answers : List ℕ) (types : Fields) (v : Val)
        → FoundCanBeCopied (length memory.old) (map kind_of slots.old) giver found.now kept.old
        answers types v
        → IfErr result (IsFaultOfCopying kept.old.parts answers to table.old.handles
        (handles_of_values types v)) }
    ensures memory_stays { OnErr result (memory.new ≡ memory.old) }
    ensures table_stays { OnErr result (table.new.handles ≡ table.old.handles) }
    ensures slots_stay { OnErr result (slots.new ≡ slots.old) }
    ensures kept_stays { kept.new ≡ record kept.old { numbers = kept.new.numbers } }
    ensures no_numbers { OnErr result (kept.new.numbers ≡ []) }
{
    what_can_be_copied_is_settled();
    what_is_stored_stays();
    places_are_read_alike();
    what_is_passed_stays();
    what_is_passed_fits();
    what_is_received_is_denoted();
    are_bytes(found.memory);
    kept.lists.numbers.clear();
    if !kept.lists.parts.are_apart() {
        return Err(AbiFault::Overlap);
    }
    match give(table, to, &kept.lists.handles, &mut kept.lists.numbers) {
        Ok(()) => {}
        Err(fault) => return Err(fault),
    }
    let encodings = kept.lists.parts.encodings();
    let places = kept.lists.parts.places();
    let numbers: &[u32] = &kept.lists.numbers;
    let records = kept.lists.parts.records();
    are_numbers(places);
    are_numbers(numbers);
    let from = copier(found.memory, encodings, places, numbers, records);
    let mut zeros = [0; MAX_FLAT_PARAMS];
    let passed = &mut zeros[..slots.len()];
    copy_passed(&from, &found.passed, puts, memory, passed);
    put_numbers(passed, slots);
    Ok(())
}

/// What is copied from a memory, by these records, to these places, with these numbers.
fn copier<'a>(
    memory: &'a [u8],
    encodings: Encodings,
    places: &'a [u32],
    numbers: &'a [u32],
    records: &'a [PartRecord],
) -> Copier<'a>
    ensures memory { result.memory.now ≡ memory.now }
    ensures source { result.encoding ≡ encodings.source }
    ensures target { result.target.encoding ≡ encodings.target }
    ensures places { result.target.places.now ≡ places.now }
    ensures numbers { result.target.numbers.now ≡ numbers.now }
    ensures records { result.records.now ≡ records.now }
{
    let target = Target {
        encoding: encodings.target,
        places,
        numbers,
    };
    Copier {
        memory,
        encoding: encodings.source,
        target,
        records,
    }
}

/// A memory is one of bytes.
fn are_bytes(memory: &[u8])
    ensures { (i : ℕ) → slice_index memory.now i < 2 ^ 8 }
{}

/// Numbers of 32 bits are such.
fn are_numbers(numbers: &[u32])
    ensures { (i : ℕ) → slice_index numbers.now i < 2 ^ 32 }
{}
