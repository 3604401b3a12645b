//! Values in core values, looked at by their checks.

ghost use Rattle.cm_abi_load.specs.Outcomes.{state_of};
ghost use Rattle.cm_abi_load.specs.Reading.{source_of};
ghost use Rattle.cm_abi_running.specs.Checking.{all_checked, checked, checked_each, in_slots};
ghost use Rattle.cm_abi_programs.specs.Coded.{check_of, checks_in};
ghost use Rattle.cm_abi_running.specs.Looks.{Looks};
ghost use Rattle.cm_abi_running.specs.Within.{AreBehind, IsBehind};

use crate::looking::{look_at_case, look_at_char, look_at_elements, look_at_handle, look_at_text};
use cm_abi_lift::Recorder;
use cm_abi_load::slots::{behind, number_32};
use cm_abi_load::{Progress, Reader, Stop};
use cm_abi_model::{AbiFault, PartRecord};
use cm_abi_programs::Check;
use cm_types::CoreValue;

/// Looks by checks, in order, at the value that the first of these core values pass: it keeps the
/// record of each part and each handle that is met, and stops at the first fault, or with `Memory`
/// where there is none for what is kept.
#[cycle(looking_flat)]
#[inline(always)]
pub(crate) fn look_at_flat(
    reader: &Reader<'_, Recorder>,
    checks: &[Check],
    slots: &[CoreValue],
    progress: &mut Progress,
    records: &mut Vec<PartRecord>,
) -> Result<(), Stop>
    requires behind { AreBehind (checks_in checks.now) }
    ensures { Looks
        (all_checked (source_of reader.now.giver) reader.now.maker.target (in_slots slots.now)
        (checks_in checks.now) 0 (state_of progress.old))
        records.old.items records.new.items (state_of progress.old) (state_of progress.new) result }
{
    for check in checks {
        look_flat(reader, check, slots, progress, records)?;
    }
    Ok(())
}

/// Looks by a check at the value that the first of these core values pass.
#[cycle(looking_flat)]
fn look_flat(
    reader: &Reader<'_, Recorder>,
    check: &Check,
    slots: &[CoreValue],
    progress: &mut Progress,
    records: &mut Vec<PartRecord>,
) -> Result<(), Stop>
    requires behind { IsBehind (check_of check.now) }
    ensures { Looks
        (checked (source_of reader.now.giver) reader.now.maker.target (in_slots slots.now)
        (check_of check.now) 0 (state_of progress.old))
        records.old.items records.new.items (state_of progress.old) (state_of progress.new) result }
{
    match check {
        Check::Char { at } => look_at_char(number_32(slots, *at as usize)),
        Check::Below { at, count, .. } => look_at_case(number_32(slots, *at as usize), *count),
        Check::Text { at } => {
            let pointer = number_32(slots, *at as usize);
            let tagged = number_32(slots, *at as usize + 1);
            look_at_text(reader, pointer, tagged, progress, records)
        }
        Check::List {
            at,
            element,
            checks,
        } => {
            let pointer = number_32(slots, *at as usize);
            let count = number_32(slots, *at as usize + 1);
            look_at_elements(reader, *element, checks, pointer, count, progress, records)
        }
        Check::Each {
            at,
            distance,
            count,
            checks,
        } => {
            let row = behind(slots, *at);
            look_at_flat_each(reader, checks, *distance, *count, row, progress, records)
        }
        Check::Cases {
            at,
            offset,
            cases,
            ..
        } => {
            let index = number_32(slots, *at as usize);
            let payload = behind(behind(slots, *at), *offset);
            match cases.get(index as usize) {
                Some(case) => look_at_flat(reader, &case.checks, payload, progress, records),
                None => Err(Stop::Fault(AbiFault::BadCase)),
            }
        }
        Check::Handle { at, wanted } => {
            let index = number_32(slots, *at as usize);
            look_at_handle(reader.giver.table, *wanted, index, progress)
        }
        Check::Part { at, checks } => {
            look_at_flat(reader, checks, behind(slots, *at), progress, records)
        }
    }
}

/// Looks by checks at so many values that these core values pass, so far one behind the other.
#[cycle(looking_flat)]
fn look_at_flat_each(
    reader: &Reader<'_, Recorder>,
    checks: &[Check],
    distance: u32,
    count: u32,
    slots: &[CoreValue],
    progress: &mut Progress,
    records: &mut Vec<PartRecord>,
) -> Result<(), Stop>
    requires behind { AreBehind (checks_in checks.now) }
    ensures { Looks
        (checked_each (all_checked (source_of reader.now.giver) reader.now.maker.target
        (in_slots slots.now) (checks_in checks.now)) distance count 0 (state_of progress.old))
        records.old.items records.new.items (state_of progress.old) (state_of progress.new) result }
{
    let mut rest = slots;
    for _ in 0..count {
        look_at_flat(reader, checks, rest, progress, records)?;
        rest = behind(rest, distance);
    }
    Ok(())
}
