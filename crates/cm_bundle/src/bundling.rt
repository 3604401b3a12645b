//! Bundles of linked sets, written and read back.

ghost use Rattle.std.specs.Prelude.{◌≡◌, ◌⊎◌, List, ℕ, length, map, IfOk, IfErr};
ghost use Rattle.cm_match_model.specs.Imports.{LinkSet};
ghost use Rattle.cm_match.specs.Linked.{set_in};
ghost use Rattle.cm_bundle.specs.Answers.{Accepts, Refuses};
ghost use Rattle.cm_bundle.specs.Bundles.{FirstFault, IsBundle, spelled};
ghost use Rattle.cm_bundle.specs.Trees.{bundle_tree, group_tree, name_tree, GroupTree, NameTree};
ghost use Rattle.cm_bundle.specs.declared.fault.BundleReason.{BundleReason};
ghost use Rattle.cm_bundle.specs.declared.fault.BundleReason.TheVariants as reasons;
ghost use Rattle.cm_bundle.specs.Bundled.{bundle_of, bundle_with};
ghost use Rattle.cm_bundle.specs.Names.{names_of};
ghost use Rattle.cm_bundle.specs.BundlingRefusals.{AreComplete, IsRefused, IsWritten, IsUnwritten};
ghost use Rattle.cm_bundle.specs.declared.bundling.BundlingFault.TheVariants as faults;

use crate::bundled::{bundle_with, first_part};
use crate::fault::BundleFault;
use crate::fitting::front_fits;
use crate::form::{Bundle, ImportGroup, PartName};
use crate::names::names_section;
use crate::reading::read;
use crate::writing::{WriteFault, write};
use cm_match::Linked;
use std::alloc::{AllocError, AllocFailed, Global};
use thiserror::Error;

/// Why a linked set is not bundled.
#[derive(Clone, Copy, Debug, PartialEq, Eq, Drop, Error)]
pub enum BundlingFault {
    /// There are more or fewer files than components.
    #[error("not a file for each component")]
    OtherFiles,
    /// The set has no component of this number.
    #[error("no component of this number")]
    NoSuchComponent,
    /// The front does not import what component 0 exports, in order and under the same names.
    #[error("a front that does not import what component 0 exports")]
    OtherFront,
    /// The bundle takes more than 4,294,967,295 bytes.
    #[error("more than 4294967295 bytes")]
    TooLong,
    /// There was no memory for it.
    #[error("no memory")]
    Memory,
}

impl From<AllocError> for BundlingFault {
    ghost from_gives = { λ _ e. e ≡ faults.Memory };

    fn from(_e: AllocError) -> BundlingFault {
        BundlingFault::Memory
    }
}

/// The bundle of a linked set, as a file: each of these files, which are those of its components in
/// their order, stands in it byte for byte; each import is given the export that it is linked to,
/// under the import's name; the bundle exports what the component `exporter` does, counted from 0;
/// and its parts have these names, where there are any. Each file is copied once.
///
/// Where there is no front the bundle is closed. With one it is open: component 0 of the set stands
/// for what it imports, and has no file; who is linked to an export of it is given the import of
/// this name of the bundle.
///
/// `OtherFiles` comes first, then `NoSuchComponent`; no memory is taken before these. `OtherFront`
/// comes then. `TooLong` comes where the bundle would have more bytes than a file may have.
pub fn bundle(
    alloc: Global,
    linked: &Linked<'_>,
    front: &[ImportGroup<'_>],
    files: &[&[u8]],
    exporter: usize,
    names: &[PartName<'_>],
) -> Result<Vec<u8>, BundlingFault>
    ensures complete { IfOk result (λ _. AreComplete (set_in linked.now) (map group_tree front.now)
        (map (λ f. f.now) files.now) exporter) }
    ensures spelled { IfOk result (λ v. v.items ≡ spelled (bundle_of (set_in linked.now)
        (map group_tree front.now) (map (λ f. f.now) files.now) exporter
        (map name_tree names.now))) }
    ensures bundle { IfOk result (λ _. IsBundle (bundle_of (set_in linked.now)
        (map group_tree front.now) (map (λ f. f.now) files.now) exporter
        (map name_tree names.now))) }
    // What is read of its names are the names that it was given.
    ensures names { IfOk result (λ _. map name_tree names.now ≡ names_of (bundle_of
        (set_in linked.now) (map group_tree front.now) (map (λ f. f.now) files.now) exporter
        (map name_tree names.now))) }
    ensures refused { IfErr result (λ e. IsRefused e (set_in linked.now) (map group_tree front.now)
        (map (λ f. f.now) files.now) exporter (bundle_of (set_in linked.now)
        (map group_tree front.now) (map (λ f. f.now) files.now) exporter
        (map name_tree names.now))) }
{
    let count = linked.components().len();
    if first_part(front) + files.len() != count {
        return Err(BundlingFault::OtherFiles);
    }
    if count <= exporter {
        return Err(BundlingFault::NoSuchComponent);
    }
    if !front_fits(alloc, linked, front)? {
        return Err(BundlingFault::OtherFront);
    }
    write_named(alloc, linked, front, files, exporter, names)
}

/// The bundle of a complete set whose parts have these names.
fn write_named(
    alloc: Global,
    linked: &Linked<'_>,
    front: &[ImportGroup<'_>],
    files: &[&[u8]],
    exporter: usize,
    names: &[PartName<'_>],
) -> Result<Vec<u8>, BundlingFault>
    requires { AreComplete (set_in linked.now) (map group_tree front.now)
        (map (λ f. f.now) files.now) exporter }
    ensures written { IfOk result (λ v. IsWritten (bundle_of (set_in linked.now)
        (map group_tree front.now) (map (λ f. f.now) files.now) exporter
        (map name_tree names.now)) v.items) }
    ensures names { IfOk result (λ _. map name_tree names.now ≡ names_of (bundle_of
        (set_in linked.now) (map group_tree front.now) (map (λ f. f.now) files.now) exporter
        (map name_tree names.now))) }
    ensures refused { IfErr result (λ e. IsUnwritten e (bundle_of (set_in linked.now)
        (map group_tree front.now) (map (λ f. f.now) files.now) exporter
        (map name_tree names.now))) }
{
    if names.is_empty() {
        return write_set(alloc, linked, front, files, exporter, &[]);
    }
    let section = names_section(alloc, names)?;
    write_set(alloc, linked, front, files, exporter, &[section.as_slice()])
}

/// The bundle of a complete set with these custom sections.
fn write_set(
    alloc: Global,
    linked: &Linked<'_>,
    front: &[ImportGroup<'_>],
    files: &[&[u8]],
    exporter: usize,
    customs: &[&[u8]],
) -> Result<Vec<u8>, BundlingFault>
    requires { AreComplete (set_in linked.now) (map group_tree front.now)
        (map (λ f. f.now) files.now) exporter }
    ensures written { IfOk result (λ v. IsWritten (bundle_with (set_in linked.now)
        (map group_tree front.now) (map (λ f. f.now) files.now) exporter
        (map (λ c. c.now) customs.now)) v.items) }
    ensures refused { IfErr result (λ e. IsUnwritten e (bundle_with (set_in linked.now)
        (map group_tree front.now) (map (λ f. f.now) files.now) exporter
        (map (λ c. c.now) customs.now))) }
{
    // That the set can be linked is known of it once its components are looked at.
    let _components = linked.components();
    let bundle = bundle_with(alloc, linked, front, files, exporter, customs)?;
    match write(alloc, &bundle) {
        Ok(file) => Ok(file),
        Err(WriteFault::TooLong) => Err(BundlingFault::TooLong),
        Err(WriteFault::Memory) => Err(BundlingFault::Memory),
        Err(WriteFault::TooManyParts) => unreachable!(),
        Err(WriteFault::NoSuchPart) => unreachable!(),
        Err(WriteFault::BadFront) => unreachable!(),
    }
}

/// Reads a bundle: the files of its set, none copied, what each is given, what is exported, and the
/// contents of its custom sections. [`part_names`](crate::names::part_names) has the names in them.
/// [`BundleReason`](crate::fault::BundleReason) says at which byte each fault is.
pub fn unbundle(alloc: Global, bytes: &[u8]) -> Result<Bundle<'_>, BundleFault>
    // What is read is a bundle, and these bytes are its spelling.
    ensures bundle { IfOk result (λ b. IsBundle (bundle_tree b)) }
    ensures spelled { IfOk result (λ b. bytes.now ≡ spelled (bundle_tree b)) }
    // A bundle of a set is read as that, unless memory runs out: its files, and its plan by names.
    ensures whole { (set : LinkSet) (front : List GroupTree) (files : List (List ℕ)) (exporter : ℕ)
        (names : List NameTree) → IsBundle (bundle_of set front files exporter names)
        → bytes.now ≡ spelled (bundle_of set front files exporter names)
        → Accepts result (bundle_of set front files exporter names) }
    ensures files { (set : LinkSet) (front : List GroupTree) (files : List (List ℕ)) (exporter : ℕ)
        (names : List NameTree) → IsBundle (bundle_of set front files exporter names)
        → bytes.now ≡ spelled (bundle_of set front files exporter names)
        → IfOk result (λ b. map (λ p. p.file.now) b.parts.items ≡ files) }
    // A fault is the first one, at its place, and the first fault is given.
    ensures fault { IfErr result
        (λ f. (f.reason ≡ reasons.Memory) ⊎ FirstFault bytes.now f.at f.reason) }
    ensures first { (at : ℕ) (reason : BundleReason) → FirstFault bytes.now at reason
        → Refuses result at reason }
{
    read(alloc, bytes)
}
