//! Whether a component fits a world.

ghost use Rattle.std.specs.Prelude.{◌≡◌, IfErr, IfNone, IfSome, OnOk};
ghost use Rattle.std.specs.Str.{IsUtf8};
ghost use Rattle.cm_tool_files.specs.Conforming.{ConformsTo};
ghost use Rattle.cm_validate.specs.Exports.{signature_in};
ghost use Rattle.cm_validate_spaces.specs.Checked.{spaces_in};
ghost use Rattle.huxarte_c_components.specs.Fitting.{Fits, IsFitVerdict, IsUnfitRefusal};
ghost use Rattle.huxarte_c_components.specs.Fitting.{IsUnfitSignature, of_conform, of_fit};
ghost use Rattle.huxarte_c_components.specs.Fitting.{of_unfit};
ghost use Rattle.huxarte_c_components.specs.declared.conforming.FitRefusal.TheVariants as refusal;
ghost use Rattle.huxarte_c_calls.specs.Texts.{IsText};

use crate::checking::files_verdict;
use crate::sound::{check_one, read_one};
use cm_shims::FilesFault;
use cm_tool_files::{Checked, UnfitReason, conform_component};
use cm_wit_conforms::{ConformFault, ConformItem, ConformList};
use huxarte_c_calls::{HuxKind, HuxVerdict, write_shown, write_text};
use std::alloc::Global;
use std::{fmt, str};

/// Why the component of a file does not fit a world.
#[derive(Clone, Copy)]
pub enum FitRefusal {
    /// The file stands for no valid component, or not for what its shims say.
    Files(FilesFault),
    /// The text of the world, or its name, is not UTF-8.
    NoText,
    /// The component does not fit the world.
    Unfit(UnfitReason),
}

impl From<FilesFault> for FitRefusal {
    ghost from_gives = { λ e r. r ≡ refusal.Files e };

    fn from(fault: FilesFault) -> FitRefusal {
        FitRefusal::Files(fault)
    }
}

/// Why a signature does not fit a world, in numbers.
fn conform_verdict(fault: ConformFault) -> HuxVerdict
    ensures { result ≡ of_conform fault }
{
    let ConformItem { list, place, item } = fault.item;
    let kind = match list {
        ConformList::WorldExports => HuxKind::WorldExport,
        ConformList::HaveImports => HuxKind::OwnImport,
    };
    HuxVerdict::at_item(
        kind,
        fault.reason.number(),
        0,
        place,
        item.unwrap_or(usize::MAX),
    )
}

/// Why a component does not fit a world, in numbers.
fn unfit_verdict(reason: UnfitReason) -> HuxVerdict
    ensures { result ≡ of_unfit reason }
{
    match reason {
        UnfitReason::Wit(fault) => {
            HuxVerdict::at_item(HuxKind::Wit, fault.reason.number(), 0, fault.at, 0)
        }
        UnfitReason::World(fault) => {
            HuxVerdict::at_item(HuxKind::World, fault.number(), 0, 0, 0)
        }
        UnfitReason::Signature(fault) => conform_verdict(fault),
        UnfitReason::Memory => HuxVerdict::of_kind(HuxKind::Memory),
    }
}

impl FitRefusal {
    /// The refusal in numbers.
    fn verdict(self) -> HuxVerdict
        ensures { result ≡ of_fit self }
    {
        match self {
            FitRefusal::Files(fault) => files_verdict(fault),
            FitRefusal::NoText => HuxVerdict::of_kind(HuxKind::NoText),
            FitRefusal::Unfit(reason) => unfit_verdict(reason),
        }
    }
}

impl fmt::Display for FitRefusal {
    fn fmt<W: fmt::Write>(&self, f: &mut fmt::Formatter<W>) -> fmt::Result {
        match self {
            FitRefusal::Files(fault) => write!(f, "{fault}"),
            FitRefusal::NoText => f.write_str("a text that is not UTF-8"),
            FitRefusal::Unfit(reason) => write_unfit(f, *reason),
        }
    }
}

fn write_unfit<W: fmt::Write>(f: &mut fmt::Formatter<W>, reason: UnfitReason) -> fmt::Result {
    match reason {
        UnfitReason::Wit(fault) => write!(f, "{fault}"),
        UnfitReason::World(fault) => write!(f, "{fault}"),
        UnfitReason::Signature(fault) => write!(f, "{fault}"),
        UnfitReason::Memory => f.write_str("no memory"),
    }
}

/// The texts of bytes, if both are such.
fn texts<'a>(wit: &'a [u8], world: &'a [u8]) -> Option<(&'a str, &'a str)>
    ensures wit { IfSome result (λ t. t.0.now ≡ wit.now) }
    ensures world { IfSome result (λ t. t.1.now ≡ world.now) }
    ensures none { IfNone result ((IsUtf8 wit.now × IsUtf8 world.now) → ⊥) }
{
    match (str::from_utf8(wit), str::from_utf8(world)) {
        (Ok(wit), Ok(world)) => Some((wit, world)),
        _ => None,
    }
}

/// Whether a component fits the world of a full name of a text.
fn conform_one(
    alloc: Global,
    component: Checked<'_>,
    wit: &[u8],
    world: &[u8],
) -> Result<(), FitRefusal>
    ensures fits { OnOk result
        (ConformsTo wit.now world.now (signature_in (spaces_in component.entry))) }
    ensures refused { IfErr result
        (IsUnfitSignature wit.now world.now (signature_in (spaces_in component.entry))) }
{
    match texts(wit, world) {
        Some((wit, world)) => match conform_component(alloc, wit, world, component) {
            Ok(()) => Ok(()),
            Err(reason) => Err(FitRefusal::Unfit(reason)),
        },
        None => Err(FitRefusal::NoText),
    }
}

/// Whether the component of a file fits the world of a full name of a text.
fn conform_of(alloc: Global, bytes: &[u8], wit: &[u8], world: &[u8]) -> Result<(), FitRefusal>
    ensures fits { OnOk result (Fits bytes.now wit.now world.now) }
    ensures refused { IfErr result (IsUnfitRefusal bytes.now wit.now world.now) }
{
    let files = read_one(alloc, bytes)?;
    match check_one(alloc, &files) {
        Ok(component) => conform_one(alloc, component, wit, world),
        Err(fault) => Err(FitRefusal::Files(fault)),
    }
}

/// Whether the component of a file fits the world of a full name, as `a:b/w`, of a WIT text.
///
/// The answer is `Fine`; else the first fault, of the file, of the texts (`NoText`), of the WIT
/// text, of its world, or of the component against that. `text` shows it: as many of its bytes as
/// there is room for are written, and `wanted` says how many it has.
pub fn conform(
    alloc: Global,
    bytes: &[u8],
    wit: &[u8],
    world: &[u8],
    text: &mut [u8],
    wanted: &mut usize,
) -> HuxVerdict
    ensures verdict { IsFitVerdict bytes.now wit.now world.now result }
    ensures text { IsText text.old wanted.new text.new }
{
    match conform_of(alloc, bytes, wit, world) {
        Ok(()) => {
            *wanted = write_text(text, b"");
            HuxVerdict::fine()
        }
        Err(refusal) => {
            *wanted = write_shown(alloc, text, &refusal);
            refusal.verdict()
        }
    }
}
