//! The bytes that name forms, where a file that may have shims has more of them.

ghost use Rattle.std.specs.Prelude.{◌≡◌};
ghost use Rattle.cm_shims_plain.specs.Codes.{instance_form, wide_desc_form, type_equality};
ghost use Rattle.cm_shims_plain.specs.Codes.{wide_kind, shim_kind, no_shim_section};

use cm_binary_forms::{DecodeReason, Feature};
use cm_binary_grammar::Code;

/// How an instance is made.
#[derive(Clone, Copy)]
pub enum InstanceForm {
    Instantiate,
    Exports,
}

/// What an import describes.
#[derive(Clone, Copy)]
pub enum WideDescForm {
    Func,
    Type,
    Instance,
}

/// How a type is bound that a file imports.
#[derive(Clone, Copy)]
pub enum TypeEquality {
    Equal,
}

/// The sections of a file that have more forms where it may have shims.
#[derive(Clone, Copy)]
pub enum WideKind {
    Shim,
    Instances,
    Imports,
}

/// The sections of a shim that are not spelled as outside of shims.
#[derive(Clone, Copy)]
pub enum ShimItems {
    Imports,
    Exports,
}

/// What a section of a shim holds.
#[derive(Clone, Copy)]
pub enum ShimKind {
    /// What it holds outside of shims: it is custom, or of types.
    Shared,
    Items(ShimItems),
    /// What no shim has.
    Other,
}

impl Code<DecodeReason> for InstanceForm {
    ghost table = { instance_form };

    fn from_byte(byte: u8) -> Result<InstanceForm, DecodeReason> {
        match byte {
            0x00 => Ok(InstanceForm::Instantiate),
            0x01 => Ok(InstanceForm::Exports),
            _ => Err(DecodeReason::UnknownCode),
        }
    }
}

impl Code<DecodeReason> for WideDescForm {
    ghost table = { wide_desc_form };

    fn from_byte(byte: u8) -> Result<WideDescForm, DecodeReason> {
        match byte {
            0x01 => Ok(WideDescForm::Func),
            0x03 => Ok(WideDescForm::Type),
            0x05 => Ok(WideDescForm::Instance),
            0x00..=0x05 => Err(DecodeReason::Unsupported(Feature::Description)),
            _ => Err(DecodeReason::UnknownCode),
        }
    }
}

impl Code<DecodeReason> for TypeEquality {
    ghost table = { type_equality };

    fn from_byte(byte: u8) -> Result<TypeEquality, DecodeReason> {
        match byte {
            0x00 => Ok(TypeEquality::Equal),
            0x01 => Err(DecodeReason::Unsupported(Feature::Description)),
            _ => Err(DecodeReason::UnknownCode),
        }
    }
}

/// What a section with this id holds, where it has more forms in a file that may have shims.
pub(crate) fn wide_kind(id: u8) -> Option<WideKind>
    ensures { result ≡ wide_kind id }
{
    match id {
        0x04 => Some(WideKind::Shim),
        0x05 => Some(WideKind::Instances),
        0x0a => Some(WideKind::Imports),
        _ => None,
    }
}

/// What a section of a shim with this id holds.
pub(crate) fn shim_kind(id: u8) -> ShimKind
    ensures { result ≡ shim_kind id }
{
    match id {
        0x0a => ShimKind::Items(ShimItems::Imports),
        0x0b => ShimKind::Items(ShimItems::Exports),
        0x00 | 0x07 => ShimKind::Shared,
        _ => ShimKind::Other,
    }
}

/// Why a section with this id is refused in a shim.
pub(crate) fn no_shim_section(id: u8) -> DecodeReason
    ensures { result ≡ no_shim_section id }
{
    match id {
        0x00..=0x0b => DecodeReason::Unsupported(Feature::NestedComponents),
        _ => DecodeReason::UnknownCode,
    }
}
