//! The files of a bundle, and how they are linked.

ghost use Rattle.std.specs.Prelude.{◌≡◌, IfErr, IfOk, OnErr, map};
ghost use Rattle.cm_bundle_links.specs.Links.{AreLinks};
ghost use Rattle.cm_bundle_links.specs.cm_bundle.Trees.{bundle_tree};
ghost use Rattle.cm_match_serving.specs.Sets.{spaces_of_all};
ghost use Rattle.cm_shims.specs.Files.{AreRead, reading_of};
ghost use Rattle.huxarte_c_components.specs.Unbundling.{IsLinkedBy, IsLinksRefusal, IsNotLinked};
ghost use Rattle.huxarte_c_components.specs.Unbundling.{IsNotUnbundled, IsUnbundled};
ghost use Rattle.huxarte_c_components.specs.Unbundling.{IsUnbundleVerdict, files_in};
ghost use Rattle.huxarte_c_components.specs.Unbundling.{of_unbundling};
ghost use Rattle.huxarte_c_components.specs.declared.unbundling.BundleRefusal.TheVariants as fault;

use crate::checking::files_verdict;
use crate::choosing::HuxChoice;
use crate::unbundled::{HuxBundle, hand_out};
use cm_bundle_links::{
    Bundle, BundleFault, Checked, Link, LinksFault, Part, links_of, unbundle as read,
};
use cm_shims::{FilesFault, Shimmed, check_files, read_files};
use huxarte_c_calls::{HuxKind, HuxSpan, HuxVerdict};
use std::alloc::{AllocError, Global};

/// Why the files of a bundle and their links are not handed out.
#[derive(Clone, Copy)]
pub enum BundleRefusal {
    /// The bytes are no bundle.
    Bundle(BundleFault),
    /// A file stands for no valid component, or not for what its shims say.
    Files(FilesFault),
    /// What a part is given does not stand for an export.
    Links(LinksFault),
    /// There was no memory.
    Memory,
}

impl BundleRefusal {
    /// The refusal in numbers.
    pub fn verdict(self) -> HuxVerdict
        ensures { result ≡ of_unbundling self }
    {
        match self {
            BundleRefusal::Bundle(fault) => {
                HuxVerdict::at_item(HuxKind::Bundle, fault.reason.number(), 0, fault.at, 0)
            }
            BundleRefusal::Files(fault) => files_verdict(fault),
            BundleRefusal::Links(fault) => {
                let number = fault.reason.number();
                HuxVerdict::at_item(HuxKind::BundleLinks, number, fault.part, 0, fault.argument)
            }
            BundleRefusal::Memory => HuxVerdict::of_kind(HuxKind::Memory),
        }
    }
}

impl From<AllocError> for BundleRefusal {
    ghost from_gives = { λ _ r. r ≡ fault.Memory };

    fn from(_error: AllocError) -> BundleRefusal {
        BundleRefusal::Memory
    }
}

/// The files of parts, in order.
fn files_of<'a>(alloc: Global, parts: &[Part<'a>]) -> Result<Vec<&'a [u8]>, AllocError>
    ensures { IfOk result (λ files.
        map (λ f. f.now) files.items ≡ map (λ p. p.file.now) parts.now) }
{
    let mut files = Vec::with_capacity(alloc, parts.len())?;
    for part in parts {
        files.push(part.file)?;
    }
    Ok(files)
}

/// The links of a bundle whose files stand for these components.
fn links_by(
    alloc: Global,
    bundle: &Bundle<'_>,
    components: &[Checked<'_>],
) -> Result<Vec<Vec<Link>>, BundleRefusal>
    ensures linked { IfOk result (λ rows. AreLinks (bundle_tree bundle.now)
        (spaces_of_all components.now) (map (λ r. r.items) rows.items)) }
    ensures refused { IfErr result
        (IsLinksRefusal (bundle_tree bundle.now) (spaces_of_all components.now)) }
{
    match links_of(alloc, bundle, components) {
        Ok(rows) => Ok(rows),
        Err(fault) => Err(BundleRefusal::Links(fault)),
    }
}

/// The links of a bundle whose files are read so.
fn links_of_read(
    alloc: Global,
    bundle: &Bundle<'_>,
    files: &[Shimmed],
) -> Result<Vec<Vec<Link>>, BundleRefusal>
    ensures linked { AreRead (files_in (bundle_tree bundle.now)) (map reading_of files.now)
        → IfOk result (λ rows. IsLinkedBy (bundle_tree bundle.now)
        (map (λ r. r.items) rows.items)) }
    ensures refused { AreRead (files_in (bundle_tree bundle.now)) (map reading_of files.now)
        → IfErr result (IsNotLinked (bundle_tree bundle.now)) }
{
    match check_files(alloc, files) {
        Ok(components) => links_by(alloc, bundle, &components),
        Err(fault) => Err(BundleRefusal::Files(fault)),
    }
}

/// The links of a bundle that has these files.
fn links_of_files(
    alloc: Global,
    bundle: &Bundle<'_>,
    files: &[&[u8]],
) -> Result<Vec<Vec<Link>>, BundleRefusal>
    requires { map (λ f. f.now) files.now ≡ files_in (bundle_tree bundle.now) }
    ensures linked { IfOk result (λ rows. IsLinkedBy (bundle_tree bundle.now)
        (map (λ r. r.items) rows.items)) }
    ensures refused { IfErr result (IsNotLinked (bundle_tree bundle.now)) }
{
    match read_files(alloc, files) {
        Ok(read) => links_of_read(alloc, bundle, &read),
        Err(fault) => Err(BundleRefusal::Files(fault)),
    }
}

/// The links of a bundle, by part and import.
fn links_in(alloc: Global, bundle: &Bundle<'_>) -> Result<Vec<Vec<Link>>, BundleRefusal>
    ensures linked { IfOk result (λ rows. IsLinkedBy (bundle_tree bundle.now)
        (map (λ r. r.items) rows.items)) }
    ensures refused { IfErr result (IsNotLinked (bundle_tree bundle.now)) }
{
    let files = files_of(alloc, &bundle.parts)?;
    links_of_files(alloc, bundle, &files)
}

/// Hands out the files of the bundle that these bytes are, and their links.
fn unbundle_in(
    alloc: Global,
    bytes: &[u8],
    files: &mut [HuxSpan],
    texts: &mut [u8],
    choices: &mut [HuxChoice],
) -> Result<HuxBundle, BundleRefusal>
    ensures out { IfOk result (λ seen. IsUnbundled bytes.now seen files.old files.new
        texts.old texts.new choices.old choices.new) }
    ensures refused { IfErr result (IsNotUnbundled bytes.now) }
    ensures stays { OnErr result
        ((files.new ≡ files.old) × (texts.new ≡ texts.old) × (choices.new ≡ choices.old)) }
{
    match read(alloc, bytes) {
        Ok(bundle) => {
            let rows = match links_in(alloc, &bundle) {
                Ok(rows) => rows,
                Err(refusal) => return Err(refusal),
            };
            let seen = hand_out(alloc, &bundle.parts, &rows, files, texts, choices)?;
            Ok(seen)
        }
        Err(fault) => Err(BundleRefusal::Bundle(fault)),
    }
}

/// Hands out the files of a bundle, and how they are linked, by numbers: with its choices they make
/// the set that the bundle is of.
///
/// `bytes` are those of the bundle. Where the answer is `Fine`, `texts` has its files, one behind
/// the other, `files` says where each stands in `texts`, and `choices` has the link of each import,
/// by file and import: in each as much as there is room for, and `seen` says how much there is.
/// Else the answer is the first fault, of the bundle (`Bundle`), of its files, or of what they are
/// given (`BundleLinks`), or `Memory`, and nothing is written.
pub fn unbundle(
    alloc: Global,
    bytes: &[u8],
    seen: &mut HuxBundle,
    files: &mut [HuxSpan],
    texts: &mut [u8],
    choices: &mut [HuxChoice],
) -> HuxVerdict
    ensures { IsUnbundleVerdict bytes.now result seen.old seen.new files.old files.new
        texts.old texts.new choices.old choices.new }
{
    match unbundle_in(alloc, bytes, files, texts, choices) {
        Ok(found) => {
            *seen = found;
            HuxVerdict::fine()
        }
        Err(refusal) => refusal.verdict(),
    }
}
