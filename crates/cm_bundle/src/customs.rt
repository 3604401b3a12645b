//! Custom sections.

ghost use Rattle.std.specs.Prelude.{◌≡◌, ◌++◌, map, OnOk};
ghost use Rattle.std.specs.List.{flat_map};
ghost use Rattle.cm_binary_grammar.specs.Faults.{Gives};
ghost use Rattle.cm_binary_grammar.specs.Reading.{Reads};
ghost use Rattle.cm_bundle.specs.Grammar.{custom, customs};
ghost use Rattle.cm_bundle.specs.Spelled.{custom_spelled};

use crate::fault::BundleReason;
use crate::numbers::read_bytes;
use crate::sections::write_section;
use cm_binary_grammar::{Cursor, End, ReadError};
use std::alloc::{AllocError, Global};

/// Reads a custom section.
#[tactic(auto, unfolding(crate::specs::Grammar::custom))]
fn read_custom<'a>(
    bytes: &mut Cursor<'a, BundleReason>,
) -> Result<&'a [u8], ReadError<BundleReason>>
    ensures read { Reads custom (λ x. x.now) bytes.old bytes.new result }
    ensures end { bytes.new.end ≡ bytes.old.end }
{
    bytes.byte(0x00, BundleReason::Surplus)?;
    read_bytes(bytes)
}

/// Reads custom sections to the end of the bytes, which end so.
pub fn read_customs(
    alloc: Global,
    bytes: &[u8],
    end: End<BundleReason>,
) -> Result<Vec<&[u8]>, ReadError<BundleReason>>
    ensures { Gives (λ v. map (λ c. c.now) v.items) result (customs.reads end bytes.now) }
{
    let mut customs = Vec::new(alloc);
    let mut cursor = Cursor::new(bytes, end);
    while !cursor.rest.is_empty() {
        let contents = read_custom(&mut cursor)?;
        customs.push(contents)?;
    }
    Ok(customs)
}

/// Appends custom sections with these contents.
pub fn write_customs(out: &mut Vec<u8>, customs: &[&[u8]]) -> Result<(), AllocError>
    ensures { OnOk result (out.new.items
        ≡ out.old.items ++ flat_map custom_spelled (map (λ c. c.now) customs.now)) }
{
    for contents in customs {
        write_section(out, 0x00, contents)?;
    }
    Ok(())
}
