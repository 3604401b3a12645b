//! Bytes that name a form.

ghost use Rattle.std.specs.Prelude.{◌≡◌};
ghost use Rattle.cm_bundle.specs.Fronts.{in_front_of};
ghost use Rattle.cm_bundle.specs.Grammar.{sort_of, next_of};

use crate::fault::BundleReason;
use crate::form::Sort;
use cm_binary_grammar::Code;

/// What begins with a section.
#[derive(Clone, Copy)]
pub enum Next {
    /// A part, with its component.
    Part,
    /// The exports, with their aliases.
    Exports,
}

impl Code<BundleReason> for Next {
    ghost table = { next_of };

    fn from_byte(byte: u8) -> Result<Self, BundleReason> {
        match byte {
            0x04 => Ok(Next::Part),
            0x06 => Ok(Next::Exports),
            _ => Err(BundleReason::UnknownCode),
        }
    }
}

/// What begins with a section in front of the parts of an open bundle.
#[derive(Clone, Copy)]
pub enum InFront {
    /// A group, with its types.
    Group,
    /// The instance of what is imported.
    Instance,
}

impl Code<BundleReason> for InFront {
    ghost table = { in_front_of };

    fn from_byte(byte: u8) -> Result<Self, BundleReason> {
        match byte {
            0x07 => Ok(InFront::Group),
            0x05 => Ok(InFront::Instance),
            _ => Err(BundleReason::UnknownCode),
        }
    }
}

impl Code<BundleReason> for Sort {
    ghost table = { sort_of };

    fn from_byte(byte: u8) -> Result<Self, BundleReason> {
        match byte {
            0x01 => Ok(Sort::Func),
            0x05 => Ok(Sort::Instance),
            _ => Err(BundleReason::UnknownCode),
        }
    }
}
