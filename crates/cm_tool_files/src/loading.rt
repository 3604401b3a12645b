//! Reading the files of a command.

ghost use Rattle.std.specs.Prelude.{◌≡◌, ◌≤◌, IfOk, IfErr, List, length};
ghost use Rattle.std.specs.Str.{IsUtf8};
ghost use Rattle.cm_binary_model.specs.Trees.{SectionTree};
ghost use Rattle.cm_binary_forms.specs.File.{Spells};
ghost use Rattle.cm_validate_model.specs.Valid.{IsValid};
ghost use Rattle.cm_validate.specs.cm_validate_spaces.Checked.{sections_in};
ghost use Rattle.cm_tool_files.specs.Refusals.{IsNoComponent, IsNoText, IsNotValid};
ghost use Rattle.cm_tool_files.specs.Refusals.{IsWantOfMemory};
ghost use Rattle.cm_tool_files.specs.declared.text_fault.TheConstants.{MAX_TEXT};

use crate::bad_file::{BadFile, FileReason};
use crate::files::Files;
use crate::text_fault::{MAX_TEXT, TextFileFault};
use cm_binary::{Component, decode};
use cm_validate::{Checked, validate};
use std::alloc::Global;

/// The bytes of a file.
pub fn read_file<'a, F: Files>(
    alloc: Global,
    files: &mut F,
    name: &'a str,
) -> Result<Vec<u8>, BadFile<'a>> {
    match files.read(alloc, name) {
        Ok(bytes) => Ok(bytes),
        Err(fault) => Err(BadFile {
            name,
            reason: FileReason::Unread(fault),
        }),
    }
}

/// The component whose file has these bytes (Binary.md), which is decoded, and not validated.
pub fn component_of<'a>(
    alloc: Global,
    name: &'a str,
    bytes: &[u8],
) -> Result<Component, BadFile<'a>>
    ensures found { IfOk result (λ c. Spells c bytes.now) }
    ensures only { (c : List SectionTree) → Spells c bytes.now
        → IfErr result (λ e. IsWantOfMemory e.reason) }
    ensures refused { IfErr result (λ e. IsNoComponent bytes.now e.reason) }
    ensures name { IfErr result (λ e. e.name ≡ name.entry) }
{
    match decode(alloc, bytes) {
        Ok(component) => Ok(component),
        Err(fault) => {
            let found = bytes.get(fault.at).copied();
            Err(BadFile {
                name,
                reason: FileReason::NoComponent { fault, found },
            })
        }
    }
}

/// The component of the file of this name as a valid one (Explainer.md, "Component Definitions").
/// It borrows the component.
pub fn checked_of<'a, 'b>(
    alloc: Global,
    name: &'a str,
    component: &'b Component,
) -> Result<Checked<'b>, BadFile<'a>>
    ensures held { IfOk result (λ c. sections_in c ≡ component.now) }
    ensures valid { IfOk result (λ c. IsValid component.now) }
    ensures only { IsValid component.now → IfErr result (λ e. IsWantOfMemory e.reason) }
    ensures refused { IfErr result (λ e. IsNotValid component.now e.reason) }
    ensures name { IfErr result (λ e. e.name ≡ name.entry) }
{
    match validate(alloc, component) {
        Ok(checked) => Ok(checked),
        Err(fault) => Err(BadFile {
            name,
            reason: FileReason::NotValid(fault),
        }),
    }
}

/// The component of a file: its bytes are read and decoded.
pub fn load<'a, F: Files>(
    alloc: Global,
    files: &mut F,
    name: &'a str,
) -> Result<Component, BadFile<'a>> {
    let bytes = read_file(alloc, files, name)?;
    component_of(alloc, name, bytes.as_slice())
}

/// The text whose file has these bytes. They are refused where there are more than `MAX_TEXT`, and
/// else where they are not UTF-8, at the first byte of what is ill-formed.
pub fn text_of<'a, 'b>(name: &'a str, bytes: &'b [u8]) -> Result<&'b str, BadFile<'a>>
    ensures text { IfOk result (λ text. text.now ≡ bytes.now) }
    ensures short { IfOk result (λ _. length bytes.now ≤ MAX_TEXT) }
    ensures utf8 { length bytes.now ≤ MAX_TEXT → IsUtf8 bytes.now → IfErr result (λ e. ⊥) }
    ensures refused { IfErr result (λ e. IsNoText bytes.now e.reason) }
    ensures name { IfErr result (λ e. e.name ≡ name.entry) }
{
    if bytes.len() > MAX_TEXT {
        return Err(BadFile {
            name,
            reason: FileReason::NoText(TextFileFault::TooLong),
        });
    }
    match str::from_utf8(bytes) {
        Ok(text) => Ok(text),
        Err(error) => Err(BadFile {
            name,
            reason: FileReason::NoText(TextFileFault::BadUtf8 {
                at: error.valid_up_to(),
            }),
        }),
    }
}
