//! The families that a program of rows is asked for.

use std::rt::Env;
use std::{env, io};

/// The families whose rows are answered: those that the program's words name, or all where it has
/// no words.
#[derive(Drop)]
pub struct Asked(Vec<String>);

impl Asked {
    /// Reads the words of the program.
    pub fn read<R: Env + AllocGlobal>(rt: &R) -> io::Result<Asked> {
        Ok(Asked(env::args(rt)?.skip(1).collect(rt.alloc())?))
    }

    /// Whether the rows of a family are answered.
    pub fn has(&self, family: &str) -> bool {
        self.0.is_empty() || self.0.iter().any(|it| it.as_str() == family)
    }
}
