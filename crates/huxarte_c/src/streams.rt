//! The streams of a command that is handed over.

use cm_hux::Streams;
use std::alloc::Global;
use std::collections::VecDeque;
use std::io;
use std::io::{ErrorKind, Write};

/// An input of these bytes. No file and no folder is made.
#[derive(Drop)]
pub(crate) struct GivenStreams<'a> {
    input: &'a [u8],
}

impl<'a> GivenStreams<'a> {
    pub(crate) fn new(input: &'a [u8]) -> GivenStreams<'a> {
        GivenStreams { input }
    }
}

impl Streams for GivenStreams<'_> {
    type Reader = VecDeque<u8>;

    type Writer = Vec<u8>;

    fn reader(&mut self, alloc: Global) -> io::Result<VecDeque<u8>> {
        let mut reader = VecDeque::new(alloc);
        reader.write_all(self.input)?;
        Ok(reader)
    }

    fn create(&mut self, _alloc: Global, _name: &str) -> io::Result<Vec<u8>> {
        Err(io::Error::from(ErrorKind::Unsupported))
    }

    fn create_folder(&mut self, _name: &str) -> io::Result<()> {
        Err(io::Error::from(ErrorKind::Unsupported))
    }

    fn names(&mut self, _alloc: Global, _folder: &str) -> io::Result<Vec<String>> {
        Err(io::Error::from(ErrorKind::NotADirectory))
    }
}
