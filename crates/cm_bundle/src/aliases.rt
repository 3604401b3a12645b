//! Aliases of what parts export.

ghost use Rattle.std.specs.Prelude.{◌≡◌, ◌<◌, ◌^◌, length, map, IfOk};
ghost use Rattle.std.specs.Prelude.{◌-◌};
ghost use Rattle.cm_binary_grammar.specs.Grammar.{times};
ghost use Rattle.cm_binary_grammar.specs.Reading.{Reads};
ghost use Rattle.cm_bundle.specs.Grammar.{part_at, part_instance, alias, aliases, sized};
ghost use Rattle.cm_bundle.specs.Trees.{export_tree};

use crate::fault::BundleReason;
use crate::form::PartExport;
use crate::numbers::{read_short, read_text};
use cm_binary_grammar::{Cursor, ReadError};
use std::alloc::Global;

/// The part whose instance has this index.
fn part_at(places: &[u64], index: u32) -> Option<usize>
    ensures { result ≡ part_at places.now index }
{
    places.iter().position(|place| *place == u64::from(index))
}

/// Reads the index of the instance of a part.
#[tactic(auto, unfolding(crate::specs::Grammar::part_instance))]
fn read_part_instance(
    bytes: &mut Cursor<'_, BundleReason>,
    places: &[u64],
) -> Result<usize, ReadError<BundleReason>>
    ensures read { Reads (part_instance places.now) (λ x. x) bytes.old bytes.new result }
    ensures end { bytes.new.end ≡ bytes.old.end }
{
    let fault = bytes.fault(BundleReason::NoSuchPart);
    let index = read_short(bytes)?;
    match part_at(places, index) {
        Some(part) => Ok(part),
        None => Err(fault),
    }
}

/// Reads an alias of what a part exports.
#[tactic(auto, unfolding(crate::specs::Grammar::alias))]
fn read_alias<'a>(
    bytes: &mut Cursor<'a, BundleReason>,
    places: &[u64],
) -> Result<PartExport<'a>, ReadError<BundleReason>>
    ensures read { Reads (alias places.now) export_tree bytes.old bytes.new result }
    ensures end { bytes.new.end ≡ bytes.old.end }
{
    let sort = bytes.code()?;
    bytes.byte(0x00, BundleReason::UnknownCode)?;
    let part = read_part_instance(bytes, places)?;
    let name = read_text(bytes)?;
    Ok(PartExport { part, sort, name })
}

/// Reads so many aliases.
fn read_times<'a>(
    alloc: Global,
    bytes: &mut Cursor<'a, BundleReason>,
    places: &[u64],
    count: u32,
) -> Result<Vec<PartExport<'a>>, ReadError<BundleReason>>
    ensures read { Reads (times (alias places.now) count)
        (λ v. map export_tree v.items) bytes.old bytes.new result }
    ensures end { bytes.new.end ≡ bytes.old.end }
    ensures few { IfOk result (λ v. length v.items < 2 ^ 32) }
{
    let mut exports = Vec::new(alloc);
    for _ in 0..count {
        let export = read_alias(bytes, places)?;
        exports.push(export)?;
    }
    Ok(exports)
}

/// Reads a count, and as many aliases.
#[tactic(auto, unfolding(crate::specs::Grammar::aliases))]
fn read_counted<'a>(
    alloc: Global,
    bytes: &mut Cursor<'a, BundleReason>,
    places: &[u64],
) -> Result<Vec<PartExport<'a>>, ReadError<BundleReason>>
    ensures read { Reads (aliases places.now)
        (λ v. map export_tree v.items) bytes.old bytes.new result }
    ensures end { bytes.new.end ≡ bytes.old.end }
    ensures few { IfOk result (λ v. length v.items < 2 ^ 32) }
{
    let count = read_short(bytes)?;
    read_times(alloc, bytes, places, count)
}

/// Reads a section of aliases behind its id.
pub fn read_aliases<'a>(
    alloc: Global,
    bytes: &mut Cursor<'a, BundleReason>,
    places: &[u64],
) -> Result<Vec<PartExport<'a>>, ReadError<BundleReason>>
    ensures read { Reads (sized (aliases places.now))
        (λ v. map export_tree v.items) bytes.old bytes.new result }
    ensures end { bytes.new.end ≡ bytes.old.end }
    ensures few { IfOk result (λ v. length v.items < 2 ^ 32) }
{
    let size = read_short(bytes)?;
    let fault = bytes.fault(BundleReason::SizeMismatch);
    let before = bytes.rest.len();
    let exports = read_counted(alloc, bytes, places)?;
    if before.saturating_sub(bytes.rest.len()) != size as usize {
        return Err(fault);
    }
    Ok(exports)
}
