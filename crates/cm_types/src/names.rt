//! Labels, and why a text is no name.

ghost use Rattle.std.specs.Prelude.{◌≡◌, IfOk, IfErr, ◌⊎◌, Some};
ghost use Rattle.cm_types.specs.Names.{is_label, is_same_name, label_fault};
ghost use Rattle.cm_types.specs.NamesFaults.{fault_number};

use crate::label_walk::is_label;
use crate::shared_text::SharedText;
use std::alloc::{AllocError, Global};
use std::marker::Model;
use thiserror::Error;

/// Why a text is refused as a name, the most basic reason first.
#[derive(Clone, Copy, Debug, PartialEq, Eq, Error)]
pub enum NameFault {
    /// The text, or a part that it should have, is empty or missing.
    #[error("a part of the name is empty")]
    Empty = 1,
    /// A part is not words and acronyms joined by hyphens.
    #[error("a part of the name is no label")]
    BadFragment = 2,
    /// The text begins with `[` and has none of the three annotated forms.
    #[error("the annotation is not known")]
    BadAnnotation = 3,
    /// What follows `@` is no version.
    #[error("the version is none")]
    BadVersion = 4,
    /// There was no memory for the name.
    #[error("no memory for the name")]
    Memory = 5,
}

impl NameFault {
    /// The number by which the fault is known, from 1 for `Empty` to 5 for `Memory`.
    pub fn number(self) -> u8
        ensures { result ≡ fault_number self }
    {
        self as u8
    }
}

/// One or more words and acronyms joined by hyphens, as `get-HTTP-body`: a word is a lower-case
/// letter and then lower-case letters and digits, an acronym an upper-case letter and then
/// upper-case letters and digits (after WIT.md, "Identifiers"; that every fragment begins with a
/// letter is this project's own choice).
///
/// Contracts see a label as the bytes of its text.
#[derive(Drop)]
pub struct Label {
    text: SharedText,
}

impl Model for Label {
    ghost use Rattle.std.specs.Prelude.{◌≡◌, ℕ, List, true};
    ghost use Rattle.cm_types.specs.Names.{is_label};
    ghost use Rattle.cm_types.specs.SharedTexts.{text_bytes};

    ghost Value = { List ℕ };

    ghost view = { λ label. text_bytes label.text };

    ghost invariant = { λ label. is_label (text_bytes label.text) ≡ true };
}

impl Label {
    ghost use Rattle.std.specs.Prelude.{Err, true};
    ghost use Rattle.std.specs.Str.{is_utf8};
    ghost use Rattle.cm_types.specs.declared.names.NameFault.{NameFault};
    ghost use Rattle.cm_types.specs.Names.{IsLabel};
    ghost use Rattle.cm_types.specs.declared.names.NameFault.TheVariants as name_fault;

    /// The text as a label.
    ///
    /// An empty text is refused with `Empty`, another text that is no label with `BadFragment`, and
    /// a label with `Memory` where there is no memory for its copy. Only a label takes memory.
    pub fn parse(alloc: Global, text: &str) -> Result<Label, NameFault>
        ensures text { IfOk result (λ label. label ≡ text.now) }
        ensures accepted { IfOk result (λ _. IsLabel text.now) }
        ensures complete { IsLabel text.now → IfErr result (λ e. e ≡ name_fault.Memory) }
        ensures refused { IfErr result (λ e.
            (e ≡ name_fault.Memory) ⊎ (label_fault text.now ≡ Some e)) }
        ensures faulty { (e : NameFault) → label_fault text.now ≡ Some e → result ≡ Err e }
    {
        match label_fault(text) {
            Some(fault) => Err(fault),
            None => match SharedText::new(alloc, text) {
                Ok(text) => Ok(Label { text }),
                Err(AllocError) => Err(NameFault::Memory),
            },
        }
    }

    /// The text of the label, as it was given.
    pub fn as_str(&self) -> &str
        ensures text { result.now ≡ self.now }
        ensures label { IsLabel result.now }
    {
        self.text.as_str()
    }

    /// The bytes of the label's text.
    pub fn as_bytes(&self) -> &[u8]
        ensures bytes { result.now ≡ self.now }
        ensures utf8 { is_utf8 result.now ≡ true }
        ensures label { is_label result.now ≡ true }
    {
        self.text.as_str().as_bytes()
    }
}

impl Clone for Label {
    ghost is_clone = { λ label copy. copy ≡ label };

    /// This label again; its text is shared. `AllocError` comes where it is shared too often to be
    /// counted.
    fn clone(&self) -> Result<Label, AllocError> {
        let text = self.text.share()?;
        Ok(Label { text })
    }
}

/// Whether two names are the same without regard to the case of ASCII letters, as names of one list
/// must not be.
pub fn same_name(a: &str, b: &str) -> bool
    ensures { result ≡ is_same_name a.now b.now }
{
    a.eq_ignore_ascii_case(b)
}

pub(crate) fn label_fault(text: &str) -> Option<NameFault>
    ensures { result ≡ label_fault text.now }
{
    if text.is_empty() {
        Some(NameFault::Empty)
    } else if is_label(text) {
        None
    } else {
        Some(NameFault::BadFragment)
    }
}
