//! What `live` reads its lines from, and where files are written.

use crate::fault::Fault;
use cm_tool_help_texts::Escaped;
use std::alloc::Global;
use std::io::{BufWriter, Input, Read, Write};
use std::{fs, io, rt};

/// The input of a program, files that it writes, and what is in folders.
pub trait Streams {
    type Reader: Read + Drop;

    type Writer: Write + Drop;

    /// The input.
    fn reader(&mut self, alloc: Global) -> io::Result<Self::Reader>;

    /// A file of this name, with nothing in it.
    fn create(&mut self, alloc: Global, name: &str) -> io::Result<Self::Writer>;

    /// A folder of this name, if there is none.
    fn create_folder(&mut self, name: &str) -> io::Result<()>;

    /// The names of what is in the folder of this name, in any order; `NotADirectory` where it is
    /// a file.
    fn names(&mut self, alloc: Global, folder: &str) -> io::Result<Vec<String>>;
}

/// A file of this name, with nothing in it.
pub fn create<S: Streams>(alloc: Global, streams: &mut S, name: &str) -> Result<S::Writer, Fault> {
    match streams.create(alloc, name) {
        Ok(writer) => Ok(writer),
        Err(error) => Err(unwritten(alloc, name, &error)),
    }
}

/// Writes a file of this name, with these bytes in it.
pub fn write_file<S: Streams>(
    alloc: Global,
    streams: &mut S,
    name: &str,
    bytes: &[u8],
) -> Result<(), Fault> {
    match write_whole(alloc, streams, name, bytes) {
        Ok(()) => Ok(()),
        Err(error) => Err(unwritten(alloc, name, &error)),
    }
}

/// Refuses to write a file that is read too, since what it holds would be gone.
pub fn refuse_to_overwrite(alloc: Global, name: &str, files: &[&str]) -> Result<(), Fault> {
    if files.contains(&name) {
        let name = Escaped(name);
        return Err(Fault::Refused(format!(in alloc;
            "{name}: Write: it is one of the files that are read"
        )?));
    }
    Ok(())
}

/// The fault of a file of this name that cannot be written; `Memory` where there is none for it.
pub fn unwritten(alloc: Global, name: &str, error: &io::Error) -> Fault {
    let kind = error.kind();
    match String::from_str(alloc, name) {
        Ok(name) => Fault::Unwritten { name, kind },
        Err(_) => Fault::Memory,
    }
}

/// The same, with the error of what failed.
pub fn write_whole<S: Streams>(
    alloc: Global,
    streams: &mut S,
    name: &str,
    bytes: &[u8],
) -> io::Result<()> {
    let mut out = streams.create(alloc, name)?;
    out.write_all(bytes)?;
    out.flush()
}

/// The standard input and the files of the machine that the program runs on.
#[derive(Drop)]
pub struct DiskStreams<'r, R> {
    rt: &'r R,
}

impl<'r, R> DiskStreams<'r, R> {
    pub fn new(rt: &'r R) -> DiskStreams<'r, R> {
        DiskStreams { rt }
    }
}

impl<R: rt::Files + Input + AllocGlobal + Clone + Drop> Streams for DiskStreams<'_, R> {
    type Reader = R::Reader;

    type Writer = BufWriter<R::File>;

    fn reader(&mut self, _alloc: Global) -> io::Result<R::Reader> {
        Ok(self.rt.reader())
    }

    fn create(&mut self, alloc: Global, name: &str) -> io::Result<BufWriter<R::File>> {
        BufWriter::new(alloc, fs::create(self.rt, name)?)
    }

    fn create_folder(&mut self, name: &str) -> io::Result<()> {
        fs::create_dir_all(self.rt, name)
    }

    fn names(&mut self, alloc: Global, folder: &str) -> io::Result<Vec<String>> {
        let mut names = Vec::new(alloc);
        for entry in fs::read_dir(self.rt, folder)? {
            let entry = entry?;
            names.push(String::from_str(alloc, entry.file_name())?)?;
        }
        Ok(names)
    }
}
