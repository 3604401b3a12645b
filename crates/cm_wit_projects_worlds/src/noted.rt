//! What a world has already.

use crate::marks::Marks;
use cm_names::TextNumbers;
use cm_types::Label;
use std::alloc::{AllocError, Global};

/// The numbers of names, and for each side which of them, and which interfaces, a world has
/// already.
#[derive(Drop)]
pub struct Noted {
    alloc: Global,
    numbers: TextNumbers,
    names: Marks,
    interfaces: Marks,
}

/// The number of a thing on a side.
fn sided(exported: bool, number: usize) -> usize {
    number
        .saturating_mul(2)
        .saturating_add(usize::from(exported))
}

impl Noted {
    /// Nothing is noted.
    pub fn new(alloc: Global) -> Noted {
        Noted {
            alloc,
            numbers: TextNumbers::new(alloc),
            names: Marks::new(alloc),
            interfaces: Marks::new(alloc),
        }
    }

    /// The number of a name without ASCII case.
    pub fn number(&mut self, name: &Label) -> Result<usize, AllocError> {
        let mut folded = String::from_str(self.alloc, name.as_str())?;
        folded.make_ascii_lowercase();
        self.numbers.number(folded.as_str())
    }

    /// Notes that a world, by its number, has a name on a side, and answers whether it had it not.
    pub fn note_name(
        &mut self,
        exported: bool,
        number: usize,
        world: usize,
    ) -> Result<bool, AllocError> {
        self.names.note(sided(exported, number), world)
    }

    /// Notes that a world, by its number, has an interface on a side, and answers whether it had it
    /// not.
    pub fn note_interface(
        &mut self,
        exported: bool,
        number: usize,
        world: usize,
    ) -> Result<bool, AllocError> {
        self.interfaces.note(sided(exported, number), world)
    }
}
