//! Parts, and the exports behind them.

ghost use Rattle.std.specs.Prelude.{◌≡◌, ◌+◌, ◌≤◌, ◌<◌, ◌*◌, ◌^◌, length, map, IfOk};
ghost use Rattle.cm_binary_grammar.specs.Reading.{Reads};
ghost use Rattle.cm_bundle.specs.Grammar.{part, exports, body};
ghost use Rattle.cm_bundle.specs.Room.{ReadsPart, spaces_of};
ghost use Rattle.cm_bundle.specs.Spelled.{Spaces};
ghost use Rattle.cm_bundle.specs.Trees.{body_tree, supply_tree};

use crate::aliases::read_aliases;
use crate::codes::Next;
use crate::fault::BundleReason;
use crate::form::{Body, MAX_PARTS, Part, Sort, Supply};
use crate::numbers::read_bytes;
use crate::spaces::{Counts, FrontSpaces};
use crate::supplies::{read_export_section, read_instances};
use cm_binary_grammar::{Cursor, ReadError};
use std::alloc::Global;

/// Reads a part behind the id of its first section, and counts what it adds to the index spaces.
#[tactic(auto, unfolding(crate::specs::Grammar::part))]
fn read_part<'a>(
    alloc: Global,
    bytes: &mut Cursor<'a, BundleReason>,
    counts: Counts,
    places: &[u64],
) -> Result<(Part<'a>, Counts), ReadError<BundleReason>>
    requires functions { counts.functions < 2 ^ 62 }
    requires instances { counts.instances < 2 ^ 62 }
    ensures read { ReadsPart counts places.now bytes.old bytes.new result }
    ensures end { bytes.new.end ≡ bytes.old.end }
    ensures functions { IfOk result (λ x. x.1.functions < counts.functions + 2 ^ 32) }
    ensures instances { IfOk result (λ x. x.1.instances < counts.instances + 2 ^ 32) }
{
    let file = read_bytes(bytes)?;
    bytes.byte(0x06, BundleReason::UnknownCode)?;
    let aliased = read_aliases(alloc, bytes, places)?;
    bytes.byte(0x05, BundleReason::UnknownCode)?;
    let component = counts.next_component(places);
    let arguments = read_instances(alloc, bytes, component, counts, &aliased)?;
    let counts = counts.all_counted(&arguments);
    Ok((Part { file, arguments }, counts))
}

/// Reads the exports behind the id of their first section.
#[tactic(auto, unfolding(crate::specs::Grammar::exports))]
fn read_exports<'a>(
    alloc: Global,
    bytes: &mut Cursor<'a, BundleReason>,
    counts: Counts,
    places: &[u64],
) -> Result<Vec<Supply<'a>>, ReadError<BundleReason>>
    requires functions { counts.functions < 2 ^ 62 }
    requires instances { counts.instances < 2 ^ 62 }
    ensures read { let s : Spaces = record { counts = counts; places = places.now } in
        Reads (exports s) (λ v. map supply_tree v.items) bytes.old bytes.new result }
    ensures end { bytes.new.end ≡ bytes.old.end }
{
    let aliased = read_aliases(alloc, bytes, places)?;
    bytes.byte(0x0b, BundleReason::UnknownCode)?;
    read_export_section(alloc, bytes, counts, &aliased)
}

/// Reads parts, and the exports behind them, at these index spaces.
pub fn read_body<'a>(
    alloc: Global,
    bytes: &mut Cursor<'a, BundleReason>,
    spaces: FrontSpaces,
) -> Result<Body<'a>, ReadError<BundleReason>>
    requires functions { spaces.counts.functions < 2 ^ 61 }
    requires instances { spaces.counts.instances < 2 ^ 61 }
    ensures read { Reads (body (MAX_PARTS + 1) (spaces_of spaces))
        body_tree bytes.old bytes.new result }
    ensures end { bytes.new.end ≡ bytes.old.end }
{
    let mut counts = spaces.counts;
    let mut places = spaces.places;
    let mut parts = Vec::new(alloc);
    for _ in 0..MAX_PARTS + 1 {
        let next: Next = bytes.code()?;
        match next {
            Next::Exports => {
                let exports = read_exports(alloc, bytes, counts, &places)?;
                return Ok(Body { parts, exports });
            }
            Next::Part => {
                let (part, aliased) = read_part(alloc, bytes, counts, &places)?;
                parts.push(part)?;
                places.push(aliased.instances)?;
                counts = aliased.counted(Sort::Instance);
            }
        }
    }
    Err(bytes.fault(BundleReason::TooManyParts))
}
