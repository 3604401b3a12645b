//! Faults of loading files of real tools in words.

use crate::real_fault::RealFault;
use crate::shown::signatures;
use cm_stubs_files::shims::{FilesFault, ShimFault, read};
use cm_tool_faults::{NamedFile, Shown};
use cm_validate::ValidFault;
use std::alloc::{AllocError, Global};

impl RealFault {
    /// The fault in one line of words, with the names of the files that were loaded, which are
    /// given in the same order: as `LoadFault::shown` tells one. A section and an item are those of
    /// the file, where shims count; indices in the words are those of its plain component.
    /// `AllocError` comes where there is no memory for the words.
    pub fn shown(self, alloc: Global, files: &[NamedFile<'_>]) -> Result<Shown, AllocError> {
        match self {
            RealFault::Link(fault) => Shown::of_link(alloc, &signatures(alloc, files)?, fault),
            RealFault::File(fault) => shown_file(alloc, files, fault),
            RealFault::Set(misuse) => Ok(Shown::of_words(format!(in alloc; "{misuse}")?)),
        }
    }
}

/// The fault of a file in words.
fn shown_file(
    alloc: Global,
    files: &[NamedFile<'_>],
    fault: FilesFault,
) -> Result<Shown, AllocError> {
    match fault {
        FilesFault::Read { file, fault } => {
            if let Some(file) = files.get(file) {
                return shown_read(alloc, *file, fault);
            }
        }
        FilesFault::Component { file, fault } => {
            if let Some(file) = files.get(file) {
                return shown_plain(alloc, *file, fault);
            }
        }
        FilesFault::Shims { file, fault } => {
            if let Some(file) = files.get(file) {
                return Shown::of_file(alloc, file.name, fault);
            }
        }
        FilesFault::Memory => {}
    }
    Ok(Shown::of_words(format!(in alloc; "{fault}")?))
}

/// Why a file is not read as a plain component, in words.
fn shown_read(alloc: Global, file: NamedFile<'_>, fault: ShimFault) -> Result<Shown, AllocError> {
    match fault {
        ShimFault::Decode(fault) => Shown::of_bytes(alloc, file, fault),
        ShimFault::Plain(fault) => Shown::of_file(alloc, file.name, fault),
        ShimFault::Limit(fault) => Shown::of_file(alloc, file.name, fault),
    }
}

/// Why the plain component of a file is not valid, in words: at the place in the file from which
/// the item at fault comes.
fn shown_plain(alloc: Global, file: NamedFile<'_>, fault: ValidFault) -> Result<Shown, AllocError> {
    let Ok(shimmed) = read(alloc, file.bytes) else {
        return Shown::of_file(alloc, file.name, fault);
    };
    match shimmed.places.place(fault.section, fault.item) {
        Some(place) => {
            let place = (place.section, place.item);
            Shown::of_plain(alloc, file.name, &shimmed.component, fault, place)
        }
        None => Shown::of_file(alloc, file.name, fault),
    }
}
