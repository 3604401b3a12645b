//! Whether the bytes of a file are a valid component.

ghost use Rattle.std.specs.Prelude.{◌≡◌, [], ◌∷◌, IfErr, OnOk};
ghost use Rattle.cm_shims.specs.Files.{IsFileFault};
ghost use Rattle.huxarte_c_components.specs.Faults.{of_files, of_plain, of_shims};
ghost use Rattle.huxarte_c_components.specs.Sound.{IsFileVerdict, IsSoundFile};
ghost use Rattle.huxarte_c_calls.specs.Texts.{IsText};

use crate::sound::{check_one, read_one};
use cm_shims::{FilesFault, PlainFault, ShimFault};
use huxarte_c_calls::{HuxKind, HuxVerdict, write_shown, write_text};
use std::alloc::Global;

/// What is wrong with a file of this number that is not read, in numbers.
fn shims_verdict(file: usize, fault: ShimFault) -> HuxVerdict
    ensures { result ≡ of_shims file fault }
{
    match fault {
        ShimFault::Decode(fault) => {
            HuxVerdict::at_item(HuxKind::Decode, fault.reason.number(), file, fault.at, 0)
        }
        ShimFault::Plain(fault) => plain_verdict(file, fault),
        ShimFault::Limit(fault) => HuxVerdict::at_item(HuxKind::Limit, fault.number(), file, 0, 0),
    }
}

/// What is wrong with a shim of such a file.
fn plain_verdict(file: usize, fault: PlainFault) -> HuxVerdict
    ensures { result ≡ of_plain file fault }
{
    let PlainFault {
        section,
        item,
        reason,
    } = fault;
    HuxVerdict::at_item(HuxKind::Shim, reason.number(), file, section, item)
}

/// What is wrong with files, in numbers.
pub fn files_verdict(fault: FilesFault) -> HuxVerdict
    ensures { result ≡ of_files fault }
{
    match fault {
        FilesFault::Read { file, fault } => shims_verdict(file, fault),
        FilesFault::Component { file, fault } => {
            let number = fault.reason.number();
            HuxVerdict::at_item(HuxKind::Invalid, number, file, fault.section, fault.item)
        }
        FilesFault::Shims { file, fault } => {
            HuxVerdict::at_item(HuxKind::Unfit, fault.reason.number(), file, fault.want, 0)
        }
        FilesFault::Memory => HuxVerdict::of_kind(HuxKind::Memory),
    }
}

/// Whether the bytes of a file are a valid component, of which all holds that its shims say.
fn check_bytes(alloc: Global, bytes: &[u8]) -> Result<(), FilesFault>
    ensures sound { OnOk result (IsSoundFile bytes.now) }
    ensures refused { IfErr result (IsFileFault (bytes.now ∷ [])) }
{
    let files = read_one(alloc, bytes)?;
    match check_one(alloc, &files) {
        Ok(_) => Ok(()),
        Err(fault) => Err(fault),
    }
}

/// Checks the bytes of a component file, which may have shims: whether they are a valid component
/// (Binary.md; Explainer.md, "Component Definitions"), of which all holds that its shims say.
///
/// The answer is `Fine`; else the first fault, which `text` shows: as many of its bytes as there is
/// room for are written, and `wanted` says how many it has.
pub fn check(alloc: Global, bytes: &[u8], text: &mut [u8], wanted: &mut usize) -> HuxVerdict
    ensures verdict { IsFileVerdict bytes.now result }
    ensures text { IsText text.old wanted.new text.new }
{
    match check_bytes(alloc, bytes) {
        Ok(()) => {
            *wanted = write_text(text, b"");
            HuxVerdict::fine()
        }
        Err(fault) => {
            *wanted = write_shown(alloc, text, &fault);
            files_verdict(fault)
        }
    }
}
