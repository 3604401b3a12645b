//! Answers in numbers.

ghost use Rattle.std.specs.Prelude.{◌≡◌};
ghost use Rattle.huxarte_c_calls.specs.Verdicts.{at_item, fine, of_kind};

use crate::kinds::HuxKind;

/// An answer in numbers: what is wrong, and where. Files, sections, items and bytes count from 0; a
/// field that its kind does not speak of is 0.
#[repr(C)]
#[derive(Clone, Copy)]
pub struct HuxVerdict {
    /// The number of a `HuxKind`.
    pub kind: u32,
    /// The number of the reason, as docs/RULES.md lists them.
    pub reason: u32,
    /// Which file, of several.
    pub file: usize,
    pub place: usize,
    pub item: usize,
}

impl HuxVerdict {
    /// This is wrong, for a reason of this number, at an item of a place of a file.
    pub fn at_item(kind: HuxKind, reason: u8, file: usize, place: usize, item: usize) -> HuxVerdict
        ensures { result ≡ at_item kind reason file place item }
    {
        HuxVerdict {
            kind: kind as u32,
            reason: u32::from(reason),
            file,
            place,
            item,
        }
    }

    /// This is wrong, with no reason and no place.
    pub fn of_kind(kind: HuxKind) -> HuxVerdict
        ensures { result ≡ of_kind kind }
    {
        HuxVerdict::at_item(kind, 0, 0, 0, 0)
    }

    /// Nothing is wrong.
    pub fn fine() -> HuxVerdict
        ensures { result ≡ fine }
    {
        HuxVerdict::of_kind(HuxKind::Fine)
    }
}
