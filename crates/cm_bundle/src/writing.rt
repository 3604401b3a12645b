//! Writing bundles.

ghost use Rattle.std.specs.Prelude.{◌≡◌, ◌≤◌, ◌<◌, ◌^◌, length, map, IfOk, IfErr};
ghost use Rattle.cm_bundle.specs.Refusals.{IsRefused, WritesPart, WritesExports, WritesBody};
ghost use Rattle.cm_bundle.specs.Bundles.{IsBundle, spelled};
ghost use Rattle.cm_bundle.specs.Room.{spaces_of};
ghost use Rattle.cm_bundle.specs.Trees.{bundle_tree, part_tree, supply_tree};
ghost use Rattle.cm_bundle.specs.declared.writing.WriteFault.TheVariants.{Memory};

use crate::checking::are_earlier;
use crate::customs::write_customs;
use crate::form::{BUNDLE_PREAMBLE, Bundle, MAX_PARTS, Part, Sort, Supply};
use crate::fronts::write_front;
use crate::sections::{write_aliases, write_exported, write_instance, write_section};
use crate::spaces::{Counts, FrontSpaces};
use std::alloc::{AllocError, AllocFailed, Global};
use thiserror::Error;

/// Why a bundle is not written.
#[derive(Clone, Copy, Debug, PartialEq, Eq, Drop, Error)]
pub enum WriteFault {
    /// More than 1,000 parts, or groups of imports.
    #[error("more than 1000 parts")]
    TooManyParts,
    /// A section of the front that is not one of imports, or of aliases of types, where it has to
    /// be.
    #[error("a front that does not import")]
    BadFront,
    /// A part is given an export of no earlier part, or what is exported is of no part.
    #[error("an export of no earlier part")]
    NoSuchPart,
    /// The file takes more than 4,294,967,295 bytes.
    #[error("more than 4294967295 bytes")]
    TooLong,
    /// There was no memory for it.
    #[error("no memory")]
    Memory,
}

impl From<AllocError> for WriteFault {
    ghost from_gives = { λ _ e. e ≡ Memory };

    fn from(_e: AllocError) -> WriteFault {
        WriteFault::Memory
    }
}

impl<T: Drop> From<AllocFailed<T>> for WriteFault {
    ghost from_gives = { λ _ e. e ≡ Memory };

    fn from(_e: AllocFailed<T>) -> WriteFault {
        WriteFault::Memory
    }
}

/// Writes a bundle as a file: its one spelling (Binary.md). The list has room for all the files
/// from the beginning, so that each of them is copied once.
pub fn write(alloc: Global, bundle: &Bundle<'_>) -> Result<Vec<u8>, WriteFault>
    ensures spelled { IfOk result (λ v. v.items ≡ spelled (bundle_tree bundle.now)) }
    ensures bundle { IfOk result (λ _. IsBundle (bundle_tree bundle.now)) }
    // What is refused is no bundle, unless memory ran out.
    ensures refused { IfErr result (λ e. IsRefused e (bundle_tree bundle.now)) }
{
    if bundle.parts.len() > MAX_PARTS || bundle.front.len() > MAX_PARTS {
        return Err(WriteFault::TooManyParts);
    }
    let mut out = Vec::with_capacity(alloc, capacity(&bundle.parts))?;
    out.extend_from_slice(&BUNDLE_PREAMBLE)?;
    let spaces = write_front(alloc, &mut out, &bundle.front)?;
    write_body(alloc, &mut out, spaces, bundle)?;
    write_customs(&mut out, &bundle.customs)?;
    if out.len() > u32::MAX as usize {
        return Err(WriteFault::TooLong);
    }
    Ok(out)
}

/// Room for the files of these parts, and for some more of each.
fn capacity(parts: &[Part<'_>]) -> usize {
    let mut bytes: usize = 4096;
    for part in parts {
        bytes = bytes.saturating_add(part.file.len());
        bytes = bytes.saturating_add(part.arguments.len().saturating_mul(128));
    }
    bytes
}

/// Appends the parts and the exports, at these index spaces.
fn write_body(
    alloc: Global,
    out: &mut Vec<u8>,
    spaces: FrontSpaces,
    bundle: &Bundle<'_>,
) -> Result<(), WriteFault>
    requires few { length bundle.now.parts.items ≤ MAX_PARTS }
    requires functions { spaces.counts.functions < 2 ^ 61 }
    requires instances { spaces.counts.instances < 2 ^ 61 }
    ensures { WritesBody (spaces_of spaces) (bundle_tree bundle.now)
        out.old.items out.new.items result }
{
    let mut counts = spaces.counts;
    let mut places = spaces.places;
    for part in &bundle.parts {
        let aliased = write_part(alloc, out, counts, &places, part)?;
        places.push(aliased.instances)?;
        counts = aliased.counted(Sort::Instance);
    }
    write_exports(alloc, out, counts, &places, &bundle.exports)
}

/// Appends a part, and counts what it adds to the index spaces.
fn write_part(
    alloc: Global,
    out: &mut Vec<u8>,
    counts: Counts,
    places: &[u64],
    part: &Part<'_>,
) -> Result<Counts, WriteFault>
    requires functions { counts.functions < 2 ^ 62 }
    requires instances { counts.instances < 2 ^ 62 }
    ensures { WritesPart counts places.now (part_tree part.now) out.old.items out.new.items result }
{
    if part.arguments.len() > u32::MAX as usize {
        return Err(WriteFault::TooLong);
    }
    if !are_earlier(&part.arguments, places.len()) {
        return Err(WriteFault::NoSuchPart);
    }
    write_section(out, 0x04, part.file)?;
    write_aliases(alloc, out, places, &part.arguments)?;
    let component = counts.next_component(places);
    write_instance(alloc, out, component, counts, &part.arguments)?;
    Ok(counts.all_counted(&part.arguments))
}

/// Appends the exports.
fn write_exports(
    alloc: Global,
    out: &mut Vec<u8>,
    counts: Counts,
    places: &[u64],
    supplies: &[Supply<'_>],
) -> Result<(), WriteFault>
    requires functions { counts.functions < 2 ^ 62 }
    requires instances { counts.instances < 2 ^ 62 }
    ensures { WritesExports counts places.now (map supply_tree supplies.now)
        out.old.items out.new.items result }
{
    if supplies.len() > u32::MAX as usize {
        return Err(WriteFault::TooLong);
    }
    if !are_earlier(supplies, places.len()) {
        return Err(WriteFault::NoSuchPart);
    }
    write_aliases(alloc, out, places, supplies)?;
    write_exported(alloc, out, counts, supplies)?;
    Ok(())
}
