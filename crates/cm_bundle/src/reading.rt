//! Reading bundles.

ghost use Rattle.std.specs.Prelude.{◌≡◌, ℕ, ◌⊎◌, List, IfOk, IfErr, length, ◌<◌, ◌^◌};
ghost use Rattle.cm_binary_grammar.specs.Faults.{Gives};
ghost use Rattle.cm_binary_grammar.specs.Reading.{IsInside};
ghost use Rattle.cm_binary_grammar.specs.declared.fault.End.TheVariants as end;
ghost use Rattle.cm_bundle.specs.Answers.{Accepts, Refuses, Answers};
ghost use Rattle.cm_bundle.specs.Bundles.{bundle, spelled, FirstFault, IsBundle};
ghost use Rattle.cm_bundle.specs.Trees.{BundleTree, bundle_tree};
ghost use Rattle.cm_bundle.specs.declared.fault.BundleReason.{BundleReason};
ghost use Rattle.cm_bundle.specs.declared.fault.BundleReason.TheVariants as reasons;

use crate::contents::read_content;
use crate::customs::read_customs;
use crate::fault::{BundleFault, BundleReason};
use crate::form::{BUNDLE_PREAMBLE, Bundle};
use cm_binary_grammar::{Cursor, End, ReadError};
use std::alloc::Global;

/// Reads a bundle, whose bytes these are, all of them. Files and names are not copied.
///
/// [`BundleReason`] says at which byte each fault is.
pub fn read(alloc: Global, bytes: &[u8]) -> Result<Bundle<'_>, BundleFault>
    // What is read is a bundle, and these bytes are its spelling.
    ensures bundle { IfOk result (λ b. IsBundle (bundle_tree b)) }
    ensures spelled { IfOk result (λ b. bytes.now ≡ spelled (bundle_tree b)) }
    // The spelling of a bundle is read as that bundle, unless memory runs out.
    ensures only { (b : BundleTree) → IsBundle b → bytes.now ≡ spelled b → Accepts result b }
    // A fault is the first one, at its place.
    ensures fault { IfErr result
        (λ f. (f.reason ≡ reasons.Memory) ⊎ FirstFault bytes.now f.at f.reason) }
    // The first fault is given, unless memory runs out.
    ensures first { (at : ℕ) (reason : BundleReason) → FirstFault bytes.now at reason
        → Refuses result at reason }
{
    if bytes.len() > u32::MAX as usize {
        return Err(BundleFault {
            at: u32::MAX as usize,
            reason: BundleReason::TooLong,
        });
    }
    read_short_file(alloc, bytes)
}

/// The bundle that the bytes spell.
fn read_short_file(alloc: Global, bytes: &[u8]) -> Result<Bundle<'_>, BundleFault>
    ensures { Answers bytes.now result (bundle.reads (end.Cut reasons.Truncated) bytes.now) }
{
    match read_inside(alloc, bytes) {
        Ok(bundle) => Ok(bundle),
        Err(ReadError::Fault(fault)) => Err(BundleFault {
            at: bytes.len() - fault.left,
            reason: fault.reason,
        }),
        Err(ReadError::Memory) => Err(BundleFault {
            at: 0,
            reason: BundleReason::Memory,
        }),
    }
}

/// Reads a bundle. A fault is inside the bytes.
fn read_inside(alloc: Global, bytes: &[u8]) -> Result<Bundle<'_>, ReadError<BundleReason>>
    ensures read { Gives bundle_tree result
        (bundle.reads (end.Cut reasons.Truncated) bytes.now) }
    ensures inside { IsInside (length bytes.now) result }
{
    read_whole(alloc, bytes)
}

/// Reads the preamble, the front, the body, and the custom sections.
#[tactic(auto, unfolding(crate::specs::Bundles::bundle))]
fn read_whole(alloc: Global, bytes: &[u8]) -> Result<Bundle<'_>, ReadError<BundleReason>>
    ensures { Gives bundle_tree result (bundle.reads (end.Cut reasons.Truncated) bytes.now) }
{
    let mut cursor = Cursor::new(bytes, End::Cut(BundleReason::Truncated));
    cursor.fixed(&BUNDLE_PREAMBLE, BundleReason::BadPreamble)?;
    let content = read_content(alloc, &mut cursor)?;
    let customs = read_customs(alloc, cursor.rest, cursor.end)?;
    Ok(Bundle {
        front: content.front,
        parts: content.body.parts,
        exports: content.body.exports,
        customs,
    })
}
