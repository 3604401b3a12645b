//! Values in memory, looked at by their checks.

ghost use Rattle.std.specs.Prelude.{◌≡◌, ◌+◌, ◌*◌, ◌<◌, ◌≤◌, ◌^◌, Err, List, Ok, if◌then◌else◌};
ghost use Rattle.std.specs.Prelude.{[], IsTrue, OnOk, length, nat_lt};
ghost use Rattle.std.specs.declared.alloc.Global.{Global};
ghost use Rattle.std.specs.declared.vec.Vec.{Vec as Kept};
ghost use Rattle.cm_text.specs.Ascii.{ascii_run};
ghost use Rattle.cm_layout.specs.declared.layouts.Leaf.TheVariants.{Char};
ghost use Rattle.cm_abi_model.specs.declared.fault.AbiFault.TheVariants.{BadCase};
ghost use Rattle.cm_abi_model.specs.declared.record.PartRecord.{PartRecord as Told};
ghost use Rattle.cm_abi_model.specs.Texts.{bytes_from};
ghost use Rattle.cm_abi_load.specs.Outcomes.{State, state_of};
ghost use Rattle.cm_abi_load.specs.Reading.{leaf_value, read_handle, source_of};
ghost use Rattle.cm_abi_running.specs.Checking.{all_checked, checked, checked_each};
ghost use Rattle.cm_abi_running.specs.Checking.{elements_checked, in_memory, text_checked};
ghost use Rattle.cm_abi_running.specs.Checking.{unrecorded};
ghost use Rattle.cm_abi_programs.specs.Checks.{one_check, text_check};
ghost use Rattle.cm_abi_programs.specs.Coded.{check_of, checks_in};
ghost use Rattle.cm_abi_running.specs.Looks.{IsAscii, KeepsList, Looks};
ghost use Rattle.cm_abi_running.specs.Within.{AreWithin, LieWithin, LiesWithin};

use cm_abi_lift::Recorder;
use cm_abi_load::{Maker, Progress, Reader, Stop, check_region, make_handle, number_32, number_at};
use cm_abi_model::{AbiFault, PartKind, PartRecord, StringEncoding};
use cm_abi_programs::Check;
use cm_handles::Table;
use cm_layout::{HandleType, Head};
use cm_text::ascii_run;

/// A slice of bytes is shorter than 2^63, so an address in it and an offset fit 64 bits together.
fn fits_a_slice(bytes: &[u8])
    ensures { length bytes.now < 2 ^ 63 }
{
    let _length = bytes.len();
}

/// Looks at the number of a char: it stops with `BadChar` where it is no Unicode scalar.
pub(crate) fn look_at_char(number: u32) -> Result<(), Stop>
    ensures { (s : State) (rs : List Told)
        → Looks (unrecorded (leaf_value Char number s)) rs rs s s result }
{
    match char::from_u32(number) {
        Some(_) => Ok(()),
        None => Err(Stop::Fault(AbiFault::BadChar)),
    }
}

/// Looks at the number of a case, of so many: it stops with `BadCase` past the last.
pub(crate) fn look_at_case(index: u32, count: usize) -> Result<(), Stop>
    ensures { (s : State) (rs : List Told)
        → Looks (if nat_lt index count then Ok ([], s) else Err (BadCase, s)) rs rs s s result }
{
    if (index as usize) < count {
        Ok(())
    } else {
        Err(Stop::Fault(AbiFault::BadCase))
    }
}

/// The most bytes of a string that is first looked at for ASCII alone.
const SHORT: u32 = 64;

/// Whether so many bytes at a pointer are ASCII that lies in the memory.
fn is_ascii_at(memory: &[u8], pointer: u32, size: u32) -> bool
    ensures { IsTrue result → (pointer + size ≤ length memory.now)
        × (ascii_run (bytes_from memory.now pointer size) ≡ size) }
{
    let start = pointer as usize;
    let end = start + size as usize;
    end <= memory.len() && ascii_run(&memory[start..end]) == size as usize
}

/// Whether so many bytes at a pointer are a short string of ASCII, which comes from UTF-8 and goes
/// to UTF-8, and are no more than may still come.
fn is_short_ascii(reader: &Reader<'_, Recorder>, pointer: u32, size: u32, left: u32) -> bool
    ensures { IsTrue result
        → IsAscii (source_of reader.now.giver) reader.now.maker.target pointer size left }
{
    if size > SHORT || size > left {
        return false;
    }
    match (reader.giver.encoding, reader.maker.target) {
        (StringEncoding::Utf8, StringEncoding::Utf8) => {
            is_ascii_at(reader.giver.memory, pointer, size)
        }
        _ => false,
    }
}

/// Looks at the string at a pointer, of a tagged length, and keeps its record.
#[inline(always)]
pub(crate) fn look_at_text(
    reader: &Reader<'_, Recorder>,
    pointer: u32,
    tagged: u32,
    progress: &mut Progress,
    records: &mut Vec<PartRecord>,
) -> Result<(), Stop>
    ensures { Looks
        (text_checked (source_of reader.now.giver) reader.now.maker.target pointer tagged
        (state_of progress.old))
        records.old.items records.new.items (state_of progress.old) (state_of progress.new) result }
{
    if is_short_ascii(reader, pointer, tagged, progress.left) {
        progress.left -= tagged;
        let text = PartRecord {
            at: pointer,
            count: tagged,
            size: u64::from(tagged),
            align: 1,
            kind: PartKind::Text { is_tagged: false },
        };
        return Recorder::keep(records, text);
    }
    reader
        .maker
        .text(&reader.giver, pointer, tagged, progress, records)
}

/// Looks at so many strings, so far one behind the other: the pointer and the tagged length of each
/// stand so far behind where it begins, and the first begins at an address.
///
/// It stops at the first fault, as [`look_at_text`].
fn look_at_texts(
    reader: &Reader<'_, Recorder>,
    behind: u32,
    distance: u32,
    count: u32,
    at: usize,
    progress: &mut Progress,
    records: &mut Vec<PartRecord>,
) -> Result<(), Stop>
    requires each { AreWithin distance (one_check (text_check behind)) }
    requires within { at + count * distance ≤ length reader.now.giver.memory.now }
    ensures { Looks
        (checked_each (all_checked (source_of reader.now.giver) reader.now.maker.target
        (in_memory reader.now.giver.memory.now) (one_check (text_check behind)))
        distance count at (state_of progress.old))
        records.old.items records.new.items (state_of progress.old) (state_of progress.new) result }
{
    let memory = reader.giver.memory;
    fits_a_slice(memory);
    let mut next = at;
    for _ in 0..count {
        let start = next + behind as usize;
        let pointer = number_32(memory, start);
        let tagged = number_32(memory, start + 4);
        look_at_text(reader, pointer, tagged, progress, records)?;
        next += distance as usize;
    }
    Ok(())
}

/// Looks at the handle of an index; it is met, also where it is refused.
pub(crate) fn look_at_handle(
    table: &Table,
    wanted: HandleType,
    index: u32,
    progress: &mut Progress,
) -> Result<(), Stop>
    ensures { (kept : Kept Told Global) → Looks
        (unrecorded (read_handle table.now.handles wanted index (state_of progress.old)))
        kept.items kept.items (state_of progress.old) (state_of progress.new) result }
{
    make_handle::<Recorder>(table, wanted, index, progress)
}

/// Looks at the region of a list, of so many elements at a pointer, and keeps the record of the
/// list.
///
/// It stops with `Misaligned` where the pointer is not aligned, else with `PointerBounds` where the
/// elements pass the end of the memory, else with `TooLarge` where fewer bytes may still come; or
/// with `Memory` where there is none for the record.
fn keep_list(
    reader: &Reader<'_, Recorder>,
    element: Head,
    pointer: u32,
    count: u32,
    progress: &mut Progress,
    records: &mut Vec<PartRecord>,
) -> Result<(), Stop>
    requires aligned { 0 < element.align }
    ensures keeps { KeepsList (source_of reader.now.giver) element pointer count
        records.old.items records.new.items (state_of progress.old) (state_of progress.new) result }
    ensures inside { OnOk result
        (pointer + count * element.size ≤ length reader.now.giver.memory.now) }
{
    let size = u64::from(count) * u64::from(element.size);
    check_region(reader.giver.memory, element.align, pointer, size, progress)?;
    let list = PartRecord {
        at: pointer,
        count,
        size,
        align: element.align,
        kind: PartKind::Elements,
    };
    Recorder::keep(records, list)
}

/// Looks by checks, in order, at the value that begins at an address, in bytes from 0: it keeps the
/// record of each part and each handle that is met, and stops at the first fault, or with `Memory`
/// where there is none for what is kept.
#[cycle(looking)]
#[inline(always)]
pub(crate) fn look_at(
    reader: &Reader<'_, Recorder>,
    checks: &[Check],
    at: usize,
    progress: &mut Progress,
    records: &mut Vec<PartRecord>,
) -> Result<(), Stop>
    requires within { LieWithin (checks_in checks.now) at (length reader.now.giver.memory.now) }
    ensures { Looks
        (all_checked (source_of reader.now.giver) reader.now.maker.target
        (in_memory reader.now.giver.memory.now) (checks_in checks.now) at (state_of progress.old))
        records.old.items records.new.items (state_of progress.old) (state_of progress.new) result }
{
    for check in checks {
        look(reader, check, at, progress, records)?;
    }
    Ok(())
}

/// Looks by a check at the value that begins at an address.
#[cycle(looking)]
fn look(
    reader: &Reader<'_, Recorder>,
    check: &Check,
    at: usize,
    progress: &mut Progress,
    records: &mut Vec<PartRecord>,
) -> Result<(), Stop>
    requires within { LiesWithin (check_of check.now) at (length reader.now.giver.memory.now) }
    ensures { Looks
        (checked (source_of reader.now.giver) reader.now.maker.target
        (in_memory reader.now.giver.memory.now) (check_of check.now) at (state_of progress.old))
        records.old.items records.new.items (state_of progress.old) (state_of progress.new) result }
{
    let memory = reader.giver.memory;
    fits_a_slice(memory);
    match check {
        Check::Char { at: behind } => look_at_char(number_32(memory, at + *behind as usize)),
        Check::Below {
            at: behind,
            bytes,
            count,
        } => {
            let index = number_at(memory, *bytes, at + *behind as usize) as u32;
            look_at_case(index, *count)
        }
        Check::Text { at: behind } => {
            let start = at + *behind as usize;
            let pointer = number_32(memory, start);
            let tagged = number_32(memory, start + 4);
            look_at_text(reader, pointer, tagged, progress, records)
        }
        Check::List {
            at: behind,
            element,
            checks,
        } => {
            let start = at + *behind as usize;
            let pointer = number_32(memory, start);
            let count = number_32(memory, start + 4);
            look_at_elements(reader, *element, checks, pointer, count, progress, records)
        }
        Check::Each {
            at: behind,
            distance,
            count,
            checks,
        } => {
            let start = at + *behind as usize;
            look_at_each(reader, checks, *distance, *count, start, progress, records)
        }
        Check::Cases {
            at: behind,
            bytes,
            offset,
            cases,
        } => {
            let start = at + *behind as usize;
            let index = number_at(memory, *bytes, start) as u32;
            let payload = start + *offset as usize;
            match cases.get(index as usize) {
                Some(case) => look_at(reader, &case.checks, payload, progress, records),
                None => Err(Stop::Fault(AbiFault::BadCase)),
            }
        }
        Check::Handle { at: behind, wanted } => {
            let index = number_32(memory, at + *behind as usize);
            look_at_handle(reader.giver.table, *wanted, index, progress)
        }
        Check::Part { at: behind, checks } => {
            look_at(reader, checks, at + *behind as usize, progress, records)
        }
    }
}

/// Looks by checks at each element of a list, of so many at a pointer; the record of the list is
/// kept before those of its elements.
///
/// It stops with `Misaligned` where the pointer is not aligned, else with `PointerBounds` where the
/// elements pass the end of the memory, else with `TooLarge` where fewer bytes may still come, else
/// as [`look_at`].
#[cycle(looking)]
pub(crate) fn look_at_elements(
    reader: &Reader<'_, Recorder>,
    element: Head,
    checks: &[Check],
    pointer: u32,
    count: u32,
    progress: &mut Progress,
    records: &mut Vec<PartRecord>,
) -> Result<(), Stop>
    requires aligned { 0 < element.align }
    requires within { AreWithin element.size (checks_in checks.now) }
    ensures { Looks
        (elements_checked (source_of reader.now.giver)
        (all_checked (source_of reader.now.giver) reader.now.maker.target
        (in_memory reader.now.giver.memory.now) (checks_in checks.now))
        element pointer count (state_of progress.old))
        records.old.items records.new.items (state_of progress.old) (state_of progress.new) result }
{
    keep_list(reader, element, pointer, count, progress, records)?;
    look_at_each(
        reader,
        checks,
        element.size,
        count,
        pointer as usize,
        progress,
        records,
    )
}

/// Looks by checks at so many values from an address on, so far one behind the other.
#[cycle(looking)]
fn look_at_each(
    reader: &Reader<'_, Recorder>,
    checks: &[Check],
    distance: u32,
    count: u32,
    at: usize,
    progress: &mut Progress,
    records: &mut Vec<PartRecord>,
) -> Result<(), Stop>
    requires each { AreWithin distance (checks_in checks.now) }
    requires within { at + count * distance ≤ length reader.now.giver.memory.now }
    ensures { Looks
        (checked_each (all_checked (source_of reader.now.giver) reader.now.maker.target
        (in_memory reader.now.giver.memory.now) (checks_in checks.now))
        distance count at (state_of progress.old))
        records.old.items records.new.items (state_of progress.old) (state_of progress.new) result }
{
    if checks.is_empty() {
        return Ok(());
    }
    if let [Check::Text { at: behind }] = checks {
        return look_at_texts(reader, *behind, distance, count, at, progress, records);
    }
    fits_a_slice(reader.giver.memory);
    let mut next = at;
    for _ in 0..count {
        look_at(reader, checks, next, progress, records)?;
        next += distance as usize;
    }
    Ok(())
}
