//! Why a call of a set does nothing.

ghost use Rattle.std.specs.Prelude.{◌≡◌};
ghost use Rattle.huxarte_c_calls.specs.Verdicts.{verdict_by};
ghost use Rattle.huxarte_c.specs.Refused.{at_place, of_set};

use cm_handles::HandleFault;
use cm_machine_model::Misuse;
use huxarte_c_calls::{HuxKind, HuxVerdict};
use huxarte_c_components::LinkRefusal;

/// What is wrong with a call of a set, by its kind, beside those of `HuxKind`.
#[derive(Clone, Copy)]
pub enum HuxSetKind {
    /// The handle keeps no set.
    Empty = 27,
    /// The handle keeps a set already.
    Full = 28,
    /// The machine refuses, by the number of the misuse: 1 no instance acts, 2 a call is on the
    /// stack, 3 the instance is closed, 4 there is no such instance, 5 wrong numbers of pages, 6 no
    /// memory.
    Misuse = 29,
    /// The core value `place` has no kind of its number.
    NoKind = 30,
    /// The set has no instance of the number.
    NoInstance = 31,
    /// No handle of the resource stands at the index: the number of a `HandleFault`.
    NoHandle = 32,
}

/// Why a call of a set does nothing.
#[derive(Clone, Copy)]
pub enum SetRefusal {
    /// The handle keeps no set.
    Empty,
    /// The handle keeps a set already.
    Full,
    /// The components of the files do not link.
    Link(LinkRefusal),
    /// What the machine says against it.
    Misuse(Misuse),
    /// The core value at this place has no kind.
    NoKind(usize),
    /// There is no such instance.
    NoInstance,
    /// The instance's memory has no such bytes.
    Outside,
    /// What the handle table says against it.
    NoHandle(HandleFault),
    /// There was no memory.
    Memory,
}

/// This is wrong, for a reason of this number, at a place.
fn at_place(kind: HuxSetKind, reason: u8, place: usize) -> HuxVerdict
    ensures { result ≡ at_place kind reason place }
{
    HuxVerdict {
        kind: kind as u32,
        reason: u32::from(reason),
        file: 0,
        place,
        item: 0,
    }
}

impl SetRefusal {
    /// The refusal in numbers.
    fn verdict(self) -> HuxVerdict
        ensures { result ≡ of_set self }
    {
        match self {
            SetRefusal::Empty => at_place(HuxSetKind::Empty, 0, 0),
            SetRefusal::Full => at_place(HuxSetKind::Full, 0, 0),
            SetRefusal::Link(refusal) => refusal.verdict(),
            SetRefusal::Misuse(misuse) => at_place(HuxSetKind::Misuse, misuse.number(), 0),
            SetRefusal::NoKind(place) => at_place(HuxSetKind::NoKind, 0, place),
            SetRefusal::NoInstance => at_place(HuxSetKind::NoInstance, 0, 0),
            SetRefusal::Outside => HuxVerdict::of_kind(HuxKind::Outside),
            SetRefusal::NoHandle(fault) => at_place(HuxSetKind::NoHandle, fault.number(), 0),
            SetRefusal::Memory => HuxVerdict::of_kind(HuxKind::Memory),
        }
    }
}

/// What a call comes to, in numbers.
pub(crate) fn verdict(done: Result<(), SetRefusal>) -> HuxVerdict
    ensures { result ≡ verdict_by of_set done }
{
    match done {
        Ok(()) => HuxVerdict::fine(),
        Err(refusal) => refusal.verdict(),
    }
}
