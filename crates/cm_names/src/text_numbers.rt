//! Texts that each have a number of their own.

ghost use Rattle.cm_names.specs.Distinct.{AreDistinct};
ghost use Rattle.cm_names.specs.TextTables.{texts_of};

use crate::texts::TextTable;
use std::alloc::{AllocError, Global};

/// The texts that have a number, each its own, from 0 on.
#[derive(Drop)]
pub struct TextNumbers {
    alloc: Global,
    texts: TextTable,
    ghost distinct: { AreDistinct (texts_of texts) },
}

impl TextNumbers {
    ghost use Rattle.std.specs.Prelude.{◌≡◌, ℕ, IfOk, List, None, Some};
    ghost use Rattle.cm_names.specs.TextNumbers.{number_of};

    /// No text has a number yet.
    pub fn new(alloc: Global) -> TextNumbers
        ensures { (text : List ℕ) → number_of result text ≡ None }
    {
        TextNumbers {
            alloc,
            texts: TextTable::new(alloc),
        }
    }

    /// The number of a text: the one that it has, else the next. Only a text without one is copied.
    /// `AllocError` comes where there is no memory for it. Each text keeps the number that it has.
    pub fn number(&mut self, text: &str) -> Result<usize, AllocError>
        ensures number { IfOk result (λ n. number_of self.new text.now ≡ Some n) }
        ensures kept { (other : List ℕ) (n : ℕ) → number_of self.old other ≡ Some n
            → number_of self.new other ≡ Some n }
    {
        if let Some(number) = self.texts.number(text) {
            return Ok(number);
        }
        let next = self.texts.len();
        let copy = String::from_str(self.alloc, text)?;
        self.texts.add(copy)?;
        Ok(next)
    }
}
