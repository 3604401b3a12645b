//! The lines of faults.

use cm_binary::{Component, DecodeFault, decode};
use cm_match_model::{LinkFault, LinkReason};
use cm_tool_files::{BadFile, FileReason, Unfit, UnfitReason};
use cm_tool_help_texts::{Escaped, bytes_help, valid_help, wit_help, world_help};
use cm_tool_help_types::{conform_help, link_help};
use cm_tool_show::ShowFault;
use cm_types_arena::Signature;
use cm_validate_model::ValidFault;
use cm_wit_conforms::ConformFault;
use cm_wit_package::WitFault;
use cm_wit_worlds::WorldFault;
use std::alloc::{AllocError, Global};
use std::fmt;
use std::fmt::Write;

/// A component file: its bytes, and the name by which lines speak of it.
#[derive(Clone, Copy)]
pub struct NamedFile<'a> {
    pub name: &'a str,
    pub bytes: &'a [u8],
}

/// A fault in words, as the command prints it behind `error: `: one line, in which names are
/// escaped, such as `NoProvider in component 0, import 0: user.wasm imports "inc", which no
/// component before it exports; exported by provider.wasm (component 1)`.
///
/// The functions below answer `AllocError` where there is no memory for the words. Files and texts
/// are to be those in which the fault was found; of others only its place and its meaning are
/// told.
#[derive(Drop)]
pub struct Shown {
    line: String,
}

impl fmt::Display for Shown {
    fn fmt<W: fmt::Write>(&self, f: &mut fmt::Formatter<W>) -> fmt::Result {
        f.write_str(self.line.as_str())
    }
}

impl Shown {
    /// These words, as they are.
    pub fn of_words(line: String) -> Shown {
        Shown { line }
    }

    /// Why the bytes of a file spell no component: the byte, and what stands there.
    pub fn of_bytes(
        alloc: Global,
        file: NamedFile<'_>,
        fault: DecodeFault,
    ) -> Result<Shown, AllocError> {
        let found = file.bytes.get(fault.at).copied();
        let bad = BadFile {
            name: file.name,
            reason: FileReason::NoComponent { fault, found },
        };
        let tail = bytes_help(alloc, file.bytes, fault)?;
        Ok(Shown {
            line: format!(in alloc; "{bad}{tail}")?,
        })
    }

    /// Why the component of a file is not valid: the section and the item, and what is wrong there.
    pub fn of_component(
        alloc: Global,
        file: NamedFile<'_>,
        fault: ValidFault,
    ) -> Result<Shown, AllocError> {
        let place = (fault.section, fault.item);
        match decode(alloc, file.bytes) {
            Ok(component) => Shown::of_plain(alloc, file.name, &component, fault, place),
            Err(_) => Shown::of_file(alloc, file.name, fault),
        }
    }

    /// Why the component that a file stands for is not valid: as of a file's own, but for the
    /// section and the item, in the place of which those of the file are told from which they come.
    pub fn of_plain(
        alloc: Global,
        name: &str,
        component: &Component,
        fault: ValidFault,
        place: (usize, usize),
    ) -> Result<Shown, AllocError> {
        let (section, item) = place;
        let reason = fault.reason;
        let told = ValidFault {
            section,
            item,
            reason,
        };
        let tail = valid_help(alloc, component, fault)?;
        Ok(Shown {
            line: format!(in alloc; "{}: {told}{tail}", Escaped(name))?,
        })
    }

    /// What is wrong with a file, by a fault that says all of it.
    pub fn of_file<F: fmt::Display + Drop>(
        alloc: Global,
        name: &str,
        fault: F,
    ) -> Result<Shown, AllocError> {
        Ok(Shown {
            line: format!(in alloc; "{}: {fault}", Escaped(name))?,
        })
    }

    /// Why components do not link, by their signatures, each with the name of its file: which file
    /// imports which name, and which files export it, in which version; where they differ, what is
    /// imported and exported.
    pub fn of_link(
        alloc: Global,
        files: &[(&str, Signature)],
        fault: LinkFault,
    ) -> Result<Shown, AllocError> {
        let LinkFault {
            component,
            import,
            reason,
        } = fault;
        let name = reason.name();
        let tail = link_tail(alloc, files, fault)?;
        Ok(Shown {
            line: format!(in alloc; "{name} in component {component}, import {import}{tail}")?,
        })
    }

    /// Why a text is no package: line and column, and what may stand there.
    pub fn of_text(
        alloc: Global,
        name: &str,
        text: &str,
        fault: WitFault,
    ) -> Result<Shown, AllocError> {
        let tail = wit_help(alloc, text, fault)?;
        Shown::of_unfit(alloc, name, "", UnfitReason::Wit(fault), tail.as_str())
    }

    /// Why a world of a text has no signature; the worlds that the text has.
    pub fn of_world(
        alloc: Global,
        name: &str,
        text: &str,
        world: &str,
        fault: WorldFault,
    ) -> Result<Shown, AllocError> {
        let tail = world_help(alloc, text, fault)?;
        Shown::of_unfit(alloc, name, world, UnfitReason::World(fault), tail.as_str())
    }

    /// Why the signature of a file's component does not fit that of a world: the name of the import
    /// or the export, that of its item, and what it is in the world and in the component. Where
    /// these would be too long to say, they are left out.
    pub fn of_signature(
        alloc: Global,
        file: &str,
        have: &Signature,
        world: &Signature,
        fault: ConformFault,
    ) -> Result<Shown, AllocError> {
        let tail = match conform_help(alloc, have, world, fault) {
            Ok(tail) => tail,
            Err(ShowFault::TooLong) => String::new(alloc),
            Err(ShowFault::Memory) => return Err(AllocError),
        };
        Shown::of_unfit(
            alloc,
            file,
            "",
            UnfitReason::Signature(fault),
            tail.as_str(),
        )
    }

    fn of_unfit(
        alloc: Global,
        name: &str,
        world: &str,
        reason: UnfitReason,
        tail: &str,
    ) -> Result<Shown, AllocError> {
        let unfit = Unfit {
            wit: name,
            world,
            file: name,
            reason,
        };
        Ok(Shown {
            line: format!(in alloc; "{unfit}{tail}")?,
        })
    }
}

/// What is of the import that is not served, or how many components there are; where nothing is,
/// what the reason means.
fn link_tail(
    alloc: Global,
    files: &[(&str, Signature)],
    fault: LinkFault,
) -> Result<String, AllocError> {
    let reason = fault.reason;
    let tail = match reason {
        LinkReason::Empty | LinkReason::TooMany => {
            let count = files.len();
            format!(in alloc; ": {reason}, found {count}")?
        }
        LinkReason::Memory => String::new(alloc),
        _ => link_help(alloc, files, fault)?,
    };
    if tail.is_empty() {
        return format!(in alloc; ": {reason}");
    }
    Ok(tail)
}
