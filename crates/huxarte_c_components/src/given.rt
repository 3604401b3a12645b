//! Files that are handed over as bytes.

use cm_tool_files::{FileFault, Files};
use huxarte_c_calls::{HuxSpan, PartsFault, part};
use std::alloc::Global;
use std::io::ErrorKind;

/// The name that stands for standard input.
const STANDARD_INPUT: &str = "-";

/// A file that is handed over: the parts of the bytes that are its name and what stands in it.
#[repr(C)]
#[derive(Clone, Copy)]
pub struct HuxFile {
    pub name: HuxSpan,
    pub bytes: HuxSpan,
}

/// A file: its name, and what stands in it.
#[derive(Clone, Copy)]
struct NamedBytes<'a> {
    name: &'a [u8],
    bytes: &'a [u8],
}

/// The files that are handed over; no other is there.
#[derive(Drop)]
pub struct Given<'a> {
    files: Vec<NamedBytes<'a>>,
}

impl<'a> Given<'a> {
    /// The files whose names and contents are these parts of the bytes. Of several with one name
    /// the first one counts.
    pub fn new(alloc: Global, bytes: &'a [u8], files: &[HuxFile]) -> Result<Given<'a>, PartsFault> {
        let mut given = Vec::new(alloc);
        for file in files {
            let name = part(bytes, &file.name).ok_or(PartsFault::Outside)?;
            let bytes = part(bytes, &file.bytes).ok_or(PartsFault::Outside)?;
            given
                .push(NamedBytes { name, bytes })
                .map_err(|_| PartsFault::Memory)?;
        }
        Ok(Given { files: given })
    }

    /// What stands in the file of a name, if there is one.
    fn find(&self, name: &str) -> Option<&'a [u8]> {
        for file in &self.files {
            if file.name == name.as_bytes() {
                return Some(file.bytes);
            }
        }
        None
    }

    /// What standard input has: the file `-`, or nothing.
    pub fn input(&self) -> &'a [u8] {
        self.find(STANDARD_INPUT).unwrap_or(b"")
    }
}

impl Files for Given<'_> {
    fn read(&mut self, alloc: Global, name: &str) -> Result<Vec<u8>, FileFault> {
        match self.find(name) {
            Some(bytes) => Vec::from_slice(alloc, bytes).map_err(|_| FileFault::Memory),
            None => Err(FileFault::Read(ErrorKind::NotFound)),
        }
    }
}
