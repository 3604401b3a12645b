//! Files that rows name.

use crate::line::Line;
use std::alloc::Global;

/// Files that rows have named, of which the last one of a name stands for it.
#[derive(Drop)]
pub struct NamedFiles {
    files: Vec<NamedFile>,
}

#[derive(Drop)]
struct NamedFile {
    name: String,
    bytes: Vec<u8>,
}

impl NamedFiles {
    /// No files.
    pub fn new(alloc: Global) -> NamedFiles {
        NamedFiles {
            files: Vec::new(alloc),
        }
    }

    /// The bytes of a source: of the file that `@NAME` names, or those that the word spells. Where
    /// it is neither, the row is none.
    pub fn read(&self, alloc: Global, source: &str, line: &mut Line) -> Vec<u8> {
        let Some(name) = source.strip_prefix('@') else {
            return line.bytes(alloc, source);
        };
        let mut files = self.files.iter().rev();
        match files.find(|file| file.name.as_str() == name) {
            Some(file) => {
                let bytes = line.kept(file.bytes.to_vec(alloc));
                bytes.unwrap_or(Vec::new(alloc))
            }
            None => {
                line.refuse();
                Vec::new(alloc)
            }
        }
    }

    /// Names the file of the bytes that a word spells, if nothing was wrong with its row, and
    /// writes how many they are.
    pub fn name(&mut self, alloc: Global, name: &str, word: &str, line: &mut Line) {
        let bytes = line.bytes(alloc, word);
        line.show(bytes.len());
        line.put(" bytes");
        if let Some(name) = line.kept(String::from_str(alloc, name)) {
            if line.is_fine() {
                line.push(&mut self.files, NamedFile { name, bytes });
            }
        }
    }
}
