//! Imports or exports of a component, of which some are instances of one type.

ghost use Rattle.std.specs.Prelude.{◌≡◌, []};
ghost use Rattle.cm_types_arena.specs.Numbered.{AreAlike};

use crate::externs::Extern;
use std::alloc::Global;

/// The imports or exports of a component in order, and numbers of those that are instances. Where
/// two have one number, their items have the same names in the same order: so what is made of these
/// names is made once (Binary.md, "Import and Export Definitions").
#[derive(Drop)]
pub struct NumberedExterns {
    externs: Vec<Extern>,
    numbers: Vec<Option<usize>>,
    ghost alike: { AreAlike externs.items numbers.items },
}

impl NumberedExterns {
    ghost use Rattle.cm_types_arena.specs.Numbered.{number_in};

    /// These imports or exports, each with the number at its place, if there is one.
    pub fn new(externs: Vec<Extern>, numbers: Vec<Option<usize>>) -> NumberedExterns
        requires { AreAlike externs.items numbers.items }
        ensures externs { result.externs.items ≡ externs.items }
        ensures numbers { result.numbers.items ≡ numbers.items }
    {
        NumberedExterns { externs, numbers }
    }

    /// These imports or exports, of which none has a number.
    pub fn unnumbered(alloc: Global, externs: Vec<Extern>) -> NumberedExterns
        ensures externs { result.externs.items ≡ externs.items }
        ensures numbers { result.numbers.items ≡ [] }
    {
        NumberedExterns {
            externs,
            numbers: Vec::new(alloc),
        }
    }

    /// The imports or exports, in order.
    pub fn externs(&self) -> &[Extern]
        ensures { result.now ≡ self.now.externs.items }
    {
        &self.externs
    }

    /// The number of the one at a place, from 0, if it has one.
    pub fn number(&self, place: usize) -> Option<usize>
        ensures { result ≡ number_in self.now.numbers.items place }
    {
        *self.numbers.get(place)?
    }
}
