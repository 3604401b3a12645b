//! Canonical options: each kind once, and what they name.

ghost use Rattle.std.specs.Prelude.{◌≡◌, ℕ};
ghost use Rattle.cm_validate_model.specs.Options.{are_once, is_once, is_same_export};
ghost use Rattle.cm_validate_core.specs.CoreSpaces.{IsMemoryNumbered, MemoryNames};
ghost use Rattle.cm_validate_core.specs.Entries.{memory_of};
ghost use Rattle.cm_validate_core.specs.Kinds.{is_of_kind};

use crate::entries::GuestMemory;
use crate::reasons::{broken_unless, lesser};
use crate::spaces::CoreSpaces;
use cm_binary_model::CanonOption;
use cm_validate_model::ValidReason;
use cm_validate_model::laws::least_of_both;

/// A kind of canonical options; all encodings are one.
#[derive(Clone, Copy)]
pub enum OptionKind {
    Encoding,
    Memory,
    Realloc,
    PostReturn,
}

impl OptionKind {
    /// Whether an option is of this kind.
    fn has(self, option: CanonOption) -> bool
        ensures { result ≡ is_of_kind self option }
    {
        match (self, option) {
            (OptionKind::Encoding, CanonOption::Utf8) => true,
            (OptionKind::Encoding, CanonOption::Utf16) => true,
            (OptionKind::Encoding, CanonOption::Latin1Utf16) => true,
            (OptionKind::Memory, CanonOption::Memory(_)) => true,
            (OptionKind::Realloc, CanonOption::Realloc(_)) => true,
            (OptionKind::PostReturn, CanonOption::PostReturn(_)) => true,
            _ => false,
        }
    }

    /// Whether one option at most is of this kind.
    fn is_once(self, options: &[CanonOption]) -> bool
        ensures { result ≡ is_once (is_of_kind self) options.now }
    {
        let mut seen = false;
        for option in options {
            if self.has(*option) {
                if seen {
                    return false;
                }
                seen = true;
            }
        }
        true
    }
}

/// Whether one option of each kind is there at most.
fn are_once(options: &[CanonOption]) -> bool
    ensures { result ≡ are_once options.now }
{
    OptionKind::Encoding.is_once(options)
        && OptionKind::Memory.is_once(options)
        && OptionKind::Realloc.is_once(options)
        && OptionKind::PostReturn.is_once(options)
}

impl<'a> GuestMemory<'a> {
    /// Whether it is the same memory.
    fn is(self, other: GuestMemory<'a>) -> bool
        ensures { (names : MemoryNames) → IsMemoryNumbered names self.entry
            → IsMemoryNumbered names other.entry
            → result ≡ is_same_export (memory_of self.entry) (memory_of other.entry) }
    {
        self.export.instance == other.export.instance && self.number == other.number
    }
}

impl<'a> CoreSpaces<'a> {
    ghost use Rattle.std.specs.List.{flat_map};
    ghost use Rattle.cm_validate_model.specs.Definitions.{CoreFuncDef};
    ghost use Rattle.cm_validate_model.specs.Options.{memory_broken, option_broken, options_broken};
    ghost use Rattle.cm_validate_model.specs.Reasons.{least};
    ghost use Rattle.cm_validate_model.specs.Spaces.{Spaces};
    ghost use Rattle.cm_validate_core.specs.CoreSpaces.{IsCoreOf};

    /// Why a memory that an option names is refused.
    fn memory_fault(&self, index: u32) -> Option<ValidReason>
        ensures { (made : ℕ → CoreFuncDef) (s : Spaces) → IsCoreOf made self.now s
            → result ≡ least (memory_broken s index) }
    {
        match (self.memories.get(index as usize), self.memory) {
            (None, _) => Some(ValidReason::NoSuchIndex),
            (Some(_), None) => None,
            (Some(memory), Some(first)) => {
                broken_unless(memory.is(first), ValidReason::SecondMemory)
            }
        }
    }

    fn option_fault(&self, option: CanonOption) -> Option<ValidReason>
        ensures { (made : ℕ → CoreFuncDef) (s : Spaces) → IsCoreOf made self.now s
            → result ≡ least (option_broken s option) }
    {
        match option {
            CanonOption::Memory(index) => self.memory_fault(index),
            CanonOption::Realloc(index) => self.guest_fault(index),
            CanonOption::PostReturn(index) => self.guest_fault(index),
            CanonOption::Utf8 | CanonOption::Utf16 | CanonOption::Latin1Utf16 => None,
        }
    }

    fn each_fault(&self, options: &[CanonOption]) -> Option<ValidReason>
        ensures { (made : ℕ → CoreFuncDef) (s : Spaces) → IsCoreOf made self.now s
            → result ≡ least (flat_map (option_broken s) options.now) }
    {
        least_of_both();
        let mut fault = None;
        for option in options {
            fault = lesser(fault, self.option_fault(*option));
        }
        fault
    }

    /// Why the options of a lift or of a lower are refused, whatever its type is: the reason with
    /// the smallest number, or none. `NoSuchIndex` comes where one of them names nothing,
    /// `OptionTwice` where two are of one kind, `NotGuestFunction` where a canonical definition
    /// made the function, and `SecondMemory` where the memory is another than the first that an
    /// earlier item's option names.
    pub fn options_fault(&self, options: &[CanonOption]) -> Option<ValidReason>
        ensures { (made : ℕ → CoreFuncDef) (s : Spaces) → IsCoreOf made self.now s
            → result ≡ least (options_broken s options.now) }
    {
        least_of_both();
        let twice = broken_unless(are_once(options), ValidReason::OptionTwice);
        lesser(self.each_fault(options), twice)
    }
}
