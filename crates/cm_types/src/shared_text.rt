//! Text that is shared.

ghost use Rattle.std.specs.Prelude.{◌≡◌, IfOk};
ghost use Rattle.cm_types.specs.SharedTexts.{text_bytes};

use arrayvec::ArrayString;
use std::alloc::{AllocError, Global};
use std::rc::Rc;

/// Text that is shared. Most names are short: those take one allocation, which holds the count of
/// their users and the text itself.
#[derive(Drop)]
pub(crate) enum SharedText {
    /// At most 32 bytes.
    Short(Rc<ArrayString<32>>),
    /// Text of any length.
    Long(Rc<String>),
}

impl SharedText {
    /// A copy of the text that can be shared.
    pub(crate) fn new(alloc: Global, text: &str) -> Result<SharedText, AllocError>
        ensures { IfOk result (λ copy. text_bytes copy ≡ text.now) }
    {
        match ArrayString::from(text) {
            Ok(short) => Ok(SharedText::Short(Rc::new(alloc, short)?)),
            Err(_) => {
                let copy = String::from_str(alloc, text)?;
                Ok(SharedText::Long(Rc::new(alloc, copy)?))
            }
        }
    }

    /// This text again, shared. `AllocError` comes where it is shared too often to be counted.
    pub(crate) fn share(&self) -> Result<SharedText, AllocError>
        ensures { IfOk result (λ copy. text_bytes copy ≡ text_bytes self.now) }
    {
        match self {
            SharedText::Short(text) => Ok(SharedText::Short(text.clone()?)),
            SharedText::Long(text) => Ok(SharedText::Long(text.clone()?)),
        }
    }

    /// The text.
    pub(crate) fn as_str(&self) -> &str
        ensures { result.now ≡ text_bytes self.now }
    {
        match self {
            SharedText::Short(text) => text.as_str(),
            SharedText::Long(text) => text.as_str(),
        }
    }
}
