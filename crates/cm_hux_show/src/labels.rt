//! The texts of names, by numbers.

use cm_names::TextNumbers;
use std::alloc::{AllocError, Global};

/// Texts, each by a number: equal texts have one. A number takes the place of a text wherever names
/// are kept, so that nothing which keeps them borrows the file.
#[derive(Drop)]
pub(crate) struct Labels {
    alloc: Global,
    numbers: TextNumbers,
    texts: Vec<String>,
}

impl Labels {
    /// No texts.
    pub(crate) fn new(alloc: Global) -> Labels {
        Labels {
            alloc,
            numbers: TextNumbers::new(alloc),
            texts: Vec::new(alloc),
        }
    }

    /// The number of a text; one that has none is copied, and has the next.
    pub(crate) fn number(&mut self, text: &str) -> Result<usize, AllocError> {
        let number = self.numbers.number(text)?;
        if number == self.texts.len() {
            self.texts.push(String::from_str(self.alloc, text)?)?;
        }
        Ok(number)
    }

    /// The text of a number.
    pub(crate) fn text(&self, number: usize) -> &str {
        match self.texts.get(number) {
            Some(text) => text.as_str(),
            None => "",
        }
    }
}
