//! Numbers that are marked.

use std::alloc::{AllocError, Global};

/// For each number the one by which it was marked last, from 1 on.
#[derive(Drop)]
pub struct Marks {
    marks: Vec<usize>,
}

impl Marks {
    /// Nothing is marked.
    pub fn new(alloc: Global) -> Marks {
        Marks {
            marks: Vec::new(alloc),
        }
    }

    /// Makes places for numbers to this one.
    fn widen(&mut self, number: usize) -> Result<(), AllocError> {
        for _place in self.marks.len()..number.saturating_add(1) {
            self.marks.push(0)?;
        }
        Ok(())
    }

    /// Marks a number by another one, and answers whether it was not marked by it last.
    pub fn note(&mut self, number: usize, by: usize) -> Result<bool, AllocError> {
        self.widen(number)?;
        match self.marks.get_mut(number) {
            Some(mark) => {
                let is_new = *mark != by;
                *mark = by;
                Ok(is_new)
            }
            None => Ok(false),
        }
    }
}
