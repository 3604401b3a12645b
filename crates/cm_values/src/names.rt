//! Names, and their places among those of a type.

ghost use Rattle.std.specs.Prelude.{◌≡◌, ◌<◌, ◌∷◌, [], IfSome, IfOk, length};
ghost use Rattle.std.specs.Option.{ok_or};
ghost use Rattle.cm_types.specs.TypeTrees.{cases_of};
ghost use Rattle.cm_types.specs.Types.{variant_type};
ghost use Rattle.cm_values.specs.CaseNames.{case_names};
ghost use Rattle.cm_values.specs.Reading.{Reads};
ghost use Rattle.cm_values.specs.Values.{known_case};
ghost use Rattle.cm_values.specs.Words.{known, place_in};
ghost use Rattle.cm_values.specs.declared.value_fault.ValueReason.TheVariants as reason;

use crate::cursor::Cursor;
use crate::value_fault::{ReadError, ValueReason};
use cm_types::{Case, Label};

/// The place of a label, from 0.
#[tactic(auto, using(crate::proofs::NameLaws::place_laws))]
fn place_of_label(labels: &[Label], name: &[u8]) -> Option<usize>
    ensures place { ok_or result reason.UnknownName ≡ place_in labels.now name.now }
    ensures within { IfSome result (λ i. i < length labels.now) }
{
    for (place, label) in labels.iter().enumerate() {
        if label.as_bytes() == name {
            return Some(place);
        }
    }
    None
}

/// The place of the case with a label, from 0.
#[tactic(auto, using(crate::proofs::NameLaws::place_laws))]
fn place_of_case(cases: &[Case], name: &[u8]) -> Option<usize>
    ensures place { ok_or result reason.UnknownName
        ≡ place_in (case_names variant_type (cases_of cases.now)) name.now }
    ensures within { IfSome result (λ i. i < length cases.now) }
{
    for (place, case) in cases.iter().enumerate() {
        if case.label.as_bytes() == name {
            return Some(place);
        }
    }
    None
}

/// Reads this name.
pub fn read_name(cursor: &mut Cursor<'_>, wanted: &[u8]) -> Result<(), ReadError>
    ensures { Reads (known (wanted.now ∷ [])) (λ _. 0) cursor.old cursor.new result }
{
    cursor.gap();
    let start = *cursor;
    let name = cursor.name()?;
    if wanted == name {
        Ok(())
    } else {
        Err(start.fault(ValueReason::UnknownName))
    }
}

/// Reads one of two names, and tells its place.
pub fn read_either(cursor: &mut Cursor<'_>, first: &[u8], second: &[u8]) -> Result<u32, ReadError>
    ensures place { Reads (known (first.now ∷ second.now ∷ [])) (λ n. n)
        cursor.old cursor.new result }
    ensures within { IfOk result (λ n. n < 2) }
{
    cursor.gap();
    let start = *cursor;
    let name = cursor.name()?;
    if first == name {
        Ok(0)
    } else if second == name {
        Ok(1)
    } else {
        Err(start.fault(ValueReason::UnknownName))
    }
}

/// Reads one of these labels, and tells its place.
pub fn read_label(cursor: &mut Cursor<'_>, labels: &[Label]) -> Result<usize, ReadError>
    ensures place { Reads (known labels.now) (λ n. n) cursor.old cursor.new result }
    ensures within { IfOk result (λ i. i < length labels.now) }
{
    cursor.gap();
    let start = *cursor;
    let name = cursor.name()?;
    match place_of_label(labels, name) {
        Some(place) => Ok(place),
        None => Err(start.fault(ValueReason::UnknownName)),
    }
}

/// Reads the label of a case, and tells its place.
fn read_case_label(cursor: &mut Cursor<'_>, cases: &[Case]) -> Result<usize, ReadError>
    ensures place { Reads (known (case_names variant_type (cases_of cases.now))) (λ n. n)
        cursor.old cursor.new result }
    ensures within { IfOk result (λ i. i < length cases.now) }
{
    cursor.gap();
    let start = *cursor;
    let name = cursor.name()?;
    match place_of_case(cases, name) {
        Some(place) => Ok(place),
        None => Err(start.fault(ValueReason::UnknownName)),
    }
}

/// Reads the name of a case of an enum, and tells its number.
pub fn read_enum_name(cursor: &mut Cursor<'_>, labels: &[Label]) -> Result<u32, ReadError>
    ensures place { Reads (known_case labels.now) (λ n. n) cursor.old cursor.new result }
    ensures within { IfOk result (λ i. i < length labels.now) }
{
    if labels.len() > 0x1_0000_0000 {
        return Err(cursor.fault(ValueReason::Unexpected));
    }
    Ok(read_label(cursor, labels)? as u32)
}

/// Reads the name of a case of a variant, and tells its number.
#[tactic(auto, using(crate::proofs::NameLaws::label_count))]
pub fn read_case_name(cursor: &mut Cursor<'_>, cases: &[Case]) -> Result<u32, ReadError>
    ensures { Reads (known_case (case_names variant_type (cases_of cases.now))) (λ n. n)
        cursor.old cursor.new result }
{
    if cases.len() > 0x1_0000_0000 {
        return Err(cursor.fault(ValueReason::Unexpected));
    }
    Ok(read_case_label(cursor, cases)? as u32)
}
