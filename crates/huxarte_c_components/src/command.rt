//! Commands that are handed over.

use crate::given::{Given, HuxFile};
use huxarte_c_calls::{CommandFault, HuxSpan, words_of};
use std::alloc::Global;

/// A command: its words, without the program's name, and the files that are there for it.
#[derive(Drop)]
pub struct Command<'a> {
    pub words: Vec<String>,
    pub files: Given<'a>,
}

impl<'a> Command<'a> {
    /// The command whose words, and whose files' names and contents, are these parts of the bytes.
    ///
    /// `Outside` comes where a part passes the end of the bytes, `NoText` where a word is not
    /// UTF-8: of several faults the first one, words before files.
    pub fn new(
        alloc: Global,
        bytes: &'a [u8],
        words: &[HuxSpan],
        files: &[HuxFile],
    ) -> Result<Command<'a>, CommandFault> {
        Ok(Command {
            words: words_of(alloc, bytes, words)?,
            files: Given::new(alloc, bytes, files)?,
        })
    }
}
