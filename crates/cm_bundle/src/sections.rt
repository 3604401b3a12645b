//! The sections of a bundle, as they are written.

ghost use Rattle.std.specs.Prelude.{◌≡◌, [], ◌∷◌, ◌++◌, ◌<◌, ◌^◌, length, map, slice_index, OnOk};
ghost use Rattle.cm_binary_grammar.specs.Spelling.{vec_spelling};
ghost use Rattle.cm_bundle.specs.Fronts.{imported_spelled};
ghost use Rattle.cm_bundle.specs.Room.{HasRoom, AreEarlier};
ghost use Rattle.cm_bundle.specs.Spelled.{section_spelled, alias_spelled, aliases_spelled};
ghost use Rattle.cm_bundle.specs.Spelled.{exports_of, supply_spelled, supplies_spelled};
ghost use Rattle.cm_bundle.specs.Spelled.{instance_spelled, exported_spelled};
ghost use Rattle.cm_bundle.specs.Trees.{export_tree, supply_tree};

use crate::form::{PartExport, Supply};
use crate::spaces::{Counts, FRONT_COUNTS};
use crate::supplies::sort_code;
use cm_binary_grammar::write_blob;
use cm_leb::formats::write_count;
use std::alloc::{AllocError, Global};

/// Appends a section: its id, the size of its contents, the contents.
pub fn write_section(out: &mut Vec<u8>, id: u8, contents: &[u8]) -> Result<(), AllocError>
    ensures { OnOk result (out.new.items ≡ out.old.items ++ section_spelled id contents.now) }
{
    out.push(id)?;
    write_blob(out, contents)
}

/// Appends an alias of what a part exports.
fn write_alias(out: &mut Vec<u8>, places: &[u64], export: &PartExport<'_>) -> Result<(), AllocError>
    requires { export.now.part < length places.now }
    ensures { OnOk result
        (out.new.items ≡ out.old.items ++ alias_spelled places.now (export_tree export.now)) }
{
    out.push(sort_code(export.sort))?;
    out.push(0x00)?;
    write_count(out, places[export.part] as usize)?;
    write_blob(out, export.name.as_bytes())
}

/// Appends how an alias is passed on, between the bytes that stand around it.
fn write_supply(
    out: &mut Vec<u8>,
    lead: &[u8],
    tail: &[u8],
    counts: Counts,
    supply: &Supply<'_>,
) -> Result<(), AllocError>
    ensures { OnOk result (out.new.items
        ≡ out.old.items ++ supply_spelled lead.now tail.now counts (supply_tree supply.now)) }
{
    out.extend_from_slice(lead)?;
    write_blob(out, supply.name.as_bytes())?;
    out.push(sort_code(supply.export.sort))?;
    write_count(out, counts.next_index(supply.export.sort) as usize)?;
    out.extend_from_slice(tail)
}

/// Appends how each alias is passed on.
fn write_supplies(
    out: &mut Vec<u8>,
    lead: &[u8],
    tail: &[u8],
    counts: Counts,
    supplies: &[Supply<'_>],
) -> Result<(), AllocError>
    requires { HasRoom counts (length supplies.now) }
    ensures { OnOk result (out.new.items ≡ out.old.items
        ++ supplies_spelled lead.now tail.now counts (map supply_tree supplies.now)) }
{
    let mut counts = counts;
    for supply in supplies {
        write_supply(out, lead, tail, counts, supply)?;
        counts = counts.counted(supply.export.sort);
    }
    Ok(())
}

/// Appends a count, and as many aliases.
fn write_all_aliases(
    out: &mut Vec<u8>,
    places: &[u64],
    supplies: &[Supply<'_>],
) -> Result<(), AllocError>
    requires { AreEarlier (length places.now) (map supply_tree supplies.now) }
    ensures { OnOk result (out.new.items ≡ out.old.items
        ++ vec_spelling (alias_spelled places.now) (exports_of (map supply_tree supplies.now))) }
{
    write_count(out, supplies.len())?;
    for supply in supplies {
        write_alias(out, places, &supply.export)?;
    }
    Ok(())
}

/// Appends the section of the aliases of what is passed on.
pub fn write_aliases(
    alloc: Global,
    out: &mut Vec<u8>,
    places: &[u64],
    supplies: &[Supply<'_>],
) -> Result<(), AllocError>
    requires { AreEarlier (length places.now) (map supply_tree supplies.now) }
    ensures { OnOk result (out.new.items
        ≡ out.old.items ++ aliases_spelled places.now (map supply_tree supplies.now)) }
{
    let mut contents = Vec::new(alloc);
    write_all_aliases(&mut contents, places, supplies)?;
    write_section(out, 0x06, &contents)
}

/// Appends the section of the instance of a component, which is given this.
pub fn write_instance(
    alloc: Global,
    out: &mut Vec<u8>,
    component: usize,
    counts: Counts,
    supplies: &[Supply<'_>],
) -> Result<(), AllocError>
    requires { HasRoom counts (length supplies.now) }
    ensures { OnOk result (out.new.items
        ≡ out.old.items ++ instance_spelled component counts (map supply_tree supplies.now)) }
{
    let mut contents = Vec::new(alloc);
    contents.extend_from_slice(&[0x01, 0x00])?;
    write_count(&mut contents, component)?;
    write_count(&mut contents, supplies.len())?;
    write_supplies(&mut contents, &[], &[], counts, supplies)?;
    write_section(out, 0x05, &contents)
}

/// Appends the instance of what is imported, behind the id of its section.
pub fn write_imported(
    alloc: Global,
    out: &mut Vec<u8>,
    supplies: &[Supply<'_>],
) -> Result<(), AllocError>
    requires { length supplies.now < 2 ^ 60 }
    ensures { OnOk result (out.new.items
        ≡ out.old.items ++ imported_spelled (map supply_tree supplies.now)) }
{
    let mut contents = Vec::new(alloc);
    contents.extend_from_slice(&[0x01, 0x01])?;
    write_count(&mut contents, supplies.len())?;
    write_supplies(&mut contents, &[0x00], &[], FRONT_COUNTS, supplies)?;
    write_blob(out, &contents)
}

/// Appends the section of the exports.
pub fn write_exported(
    alloc: Global,
    out: &mut Vec<u8>,
    counts: Counts,
    supplies: &[Supply<'_>],
) -> Result<(), AllocError>
    requires { HasRoom counts (length supplies.now) }
    ensures { OnOk result (out.new.items
        ≡ out.old.items ++ exported_spelled counts (map supply_tree supplies.now)) }
{
    let mut contents = Vec::new(alloc);
    write_count(&mut contents, supplies.len())?;
    write_supplies(&mut contents, &[0x00], &[0x00], counts, supplies)?;
    write_section(out, 0x0b, &contents)
}
