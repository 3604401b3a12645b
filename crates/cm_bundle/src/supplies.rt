//! What is passed on, by the indices of its aliases.

ghost use Rattle.std.specs.Prelude.{◌≡◌, [], ◌∷◌, length, map, IfOk};
ghost use Rattle.cm_binary_grammar.specs.Reading.{Reads};
ghost use Rattle.cm_bundle.specs.Grammar.{supply, supplies, instance_of, exports_of_all};
ghost use Rattle.cm_bundle.specs.Grammar.{sized};
ghost use Rattle.cm_bundle.specs.Room.{HasRoom};
ghost use Rattle.cm_bundle.specs.Spelled.{sort_code};
ghost use Rattle.cm_bundle.specs.Trees.{export_tree, supply_tree};

use crate::fault::BundleReason;
use crate::form::{PartExport, Sort, Supply};
use crate::numbers::{read_short, read_text, read_this};
use crate::spaces::Counts;
use cm_binary_grammar::{Cursor, ReadError};
use std::alloc::Global;

/// The byte of what is passed on (Binary.md, `sort`).
pub fn sort_code(sort: Sort) -> u8
    ensures { result ≡ sort_code sort }
{
    match sort {
        Sort::Func => 0x01,
        Sort::Instance => 0x05,
    }
}

/// Reads how an alias is passed on, between the bytes that stand around it.
#[tactic(auto, unfolding(crate::specs::Grammar::supply))]
fn read_supply<'a>(
    bytes: &mut Cursor<'a, BundleReason>,
    lead: &[u8],
    tail: &[u8],
    counts: Counts,
    export: PartExport<'a>,
) -> Result<Supply<'a>, ReadError<BundleReason>>
    ensures read { Reads (supply lead.now tail.now counts (export_tree export.entry))
        supply_tree bytes.old bytes.new result }
    ensures end { bytes.new.end ≡ bytes.old.end }
{
    bytes.fixed(lead, BundleReason::UnknownCode)?;
    let name = read_text(bytes)?;
    bytes.byte(sort_code(export.sort), BundleReason::UnknownCode)?;
    read_this(bytes, counts.next_index(export.sort))?;
    bytes.fixed(tail, BundleReason::UnknownCode)?;
    Ok(Supply { name, export })
}

/// Reads how each of these aliases is passed on.
fn read_supplies<'a>(
    alloc: Global,
    bytes: &mut Cursor<'a, BundleReason>,
    lead: &[u8],
    tail: &[u8],
    counts: Counts,
    exports: &[PartExport<'a>],
) -> Result<Vec<Supply<'a>>, ReadError<BundleReason>>
    requires { HasRoom counts (length exports.now) }
    ensures read { Reads (supplies lead.now tail.now counts (map export_tree exports.now))
        (λ v. map supply_tree v.items) bytes.old bytes.new result }
    ensures end { bytes.new.end ≡ bytes.old.end }
    ensures count { IfOk result (λ v. length v.items ≡ length exports.now) }
{
    let mut counts = counts;
    let mut supplies = Vec::new(alloc);
    for export in exports {
        let supply = read_supply(bytes, lead, tail, counts, *export)?;
        counts = counts.counted(export.sort);
        supplies.push(supply)?;
    }
    Ok(supplies)
}

/// Reads one instance of a component, which is given these aliases.
#[tactic(auto, unfolding(crate::specs::Grammar::instance_of))]
fn read_instance<'a>(
    alloc: Global,
    bytes: &mut Cursor<'a, BundleReason>,
    component: usize,
    counts: Counts,
    exports: &[PartExport<'a>],
) -> Result<Vec<Supply<'a>>, ReadError<BundleReason>>
    requires { HasRoom counts (length exports.now) }
    ensures read { Reads (instance_of component counts (map export_tree exports.now))
        (λ v. map supply_tree v.items) bytes.old bytes.new result }
    ensures end { bytes.new.end ≡ bytes.old.end }
    ensures count { IfOk result (λ v. length v.items ≡ length exports.now) }
{
    bytes.fixed(&[0x01, 0x00], BundleReason::UnknownCode)?;
    read_this(bytes, component as u64)?;
    read_this(bytes, exports.len() as u64)?;
    read_supplies(alloc, bytes, &[], &[], counts, exports)
}

/// Reads the section of the instance of a component behind its id.
pub fn read_instances<'a>(
    alloc: Global,
    bytes: &mut Cursor<'a, BundleReason>,
    component: usize,
    counts: Counts,
    exports: &[PartExport<'a>],
) -> Result<Vec<Supply<'a>>, ReadError<BundleReason>>
    requires { HasRoom counts (length exports.now) }
    ensures read { Reads (sized (instance_of component counts (map export_tree exports.now)))
        (λ v. map supply_tree v.items) bytes.old bytes.new result }
    ensures end { bytes.new.end ≡ bytes.old.end }
    ensures count { IfOk result (λ v. length v.items ≡ length exports.now) }
{
    let size = read_short(bytes)?;
    let fault = bytes.fault(BundleReason::SizeMismatch);
    let before = bytes.rest.len();
    let supplies = read_instance(alloc, bytes, component, counts, exports)?;
    if before.saturating_sub(bytes.rest.len()) != size as usize {
        return Err(fault);
    }
    Ok(supplies)
}

/// Reads the exports of the bundle behind their aliases.
#[tactic(auto, unfolding(crate::specs::Grammar::exports_of_all))]
fn read_exported<'a>(
    alloc: Global,
    bytes: &mut Cursor<'a, BundleReason>,
    counts: Counts,
    exports: &[PartExport<'a>],
) -> Result<Vec<Supply<'a>>, ReadError<BundleReason>>
    requires { HasRoom counts (length exports.now) }
    ensures read { Reads (exports_of_all counts (map export_tree exports.now))
        (λ v. map supply_tree v.items) bytes.old bytes.new result }
    ensures end { bytes.new.end ≡ bytes.old.end }
{
    read_this(bytes, exports.len() as u64)?;
    read_supplies(alloc, bytes, &[0x00], &[0x00], counts, exports)
}

/// Reads the section of the exports of the bundle behind its id.
pub fn read_export_section<'a>(
    alloc: Global,
    bytes: &mut Cursor<'a, BundleReason>,
    counts: Counts,
    exports: &[PartExport<'a>],
) -> Result<Vec<Supply<'a>>, ReadError<BundleReason>>
    requires { HasRoom counts (length exports.now) }
    ensures read { Reads (sized (exports_of_all counts (map export_tree exports.now)))
        (λ v. map supply_tree v.items) bytes.old bytes.new result }
    ensures end { bytes.new.end ≡ bytes.old.end }
{
    let size = read_short(bytes)?;
    let fault = bytes.fault(BundleReason::SizeMismatch);
    let before = bytes.rest.len();
    let supplies = read_exported(alloc, bytes, counts, exports)?;
    if before.saturating_sub(bytes.rest.len()) != size as usize {
        return Err(fault);
    }
    Ok(supplies)
}
