//! Whether the component of a file fits a world of the text of another.

use crate::fault::Fault;
use crate::loading::{check, kept, load_file, unread};
use cm_binary::Component;
use cm_tool_files::{
    Files, Unfit, UnfitReason, checked_of, conform_component, read_file, text_of, world_of,
};
use cm_tool_help_texts::{wit_help, world_help};
use cm_tool_help_types::conform_help;
use cm_tool_show::ShowFault;
use cm_validate::signature;
use cm_wit_conforms::ConformFault;
use std::alloc::Global;

/// The words of the command line: the file of the text, the full name of the world, and the file of
/// the component.
#[derive(Clone, Copy)]
pub struct Asked<'a> {
    pub wit: &'a str,
    pub world: &'a str,
    pub file: &'a str,
}

/// Refuses a component that does not fit the world.
pub(crate) fn conform<F: Files>(
    alloc: Global,
    asked: Asked<'_>,
    files: &mut F,
) -> Result<(), Fault> {
    let component = load_file(alloc, files, asked.file)?;
    let checked = check(alloc, asked.file, &component)?;
    let bytes = match read_file(alloc, files, asked.wit) {
        Ok(bytes) => bytes,
        Err(bad) => return Err(unread(alloc, bad)),
    };
    let text = match text_of(asked.wit, bytes.as_slice()) {
        Ok(text) => text,
        Err(bad) => return Err(unread(alloc, bad)),
    };
    match conform_component(alloc, text, asked.world, checked) {
        Ok(()) => Ok(()),
        Err(reason) => {
            let tail = tail_of(alloc, text, asked, &component, reason);
            Err(Fault::unfit(alloc, asked.unfit(reason), tail))
        }
    }
}

impl<'a> Asked<'a> {
    /// Why the component does not fit the world.
    pub fn unfit(self, reason: UnfitReason) -> Unfit<'a> {
        Unfit {
            wit: self.wit,
            world: self.world,
            file: self.file,
            reason,
        }
    }
}

/// What the text, its world and the component have where one does not fit the other; nothing where
/// there is no memory for the words.
fn tail_of(
    alloc: Global,
    text: &str,
    asked: Asked<'_>,
    component: &Component,
    reason: UnfitReason,
) -> String {
    match reason {
        UnfitReason::Wit(fault) => kept(alloc, wit_help(alloc, text, fault)),
        UnfitReason::World(fault) => kept(alloc, world_help(alloc, text, fault)),
        UnfitReason::Signature(fault) => {
            kept(alloc, signature_tail(alloc, text, asked, component, fault))
        }
        UnfitReason::Memory => String::new(alloc),
    }
}

fn signature_tail(
    alloc: Global,
    text: &str,
    asked: Asked<'_>,
    component: &Component,
    fault: ConformFault,
) -> Result<String, ShowFault> {
    match (
        world_of(alloc, text, asked.world),
        checked_of(alloc, asked.file, component),
    ) {
        (Ok(world), Ok(checked)) => {
            let have = signature(alloc, checked)?;
            conform_help(alloc, &have, &world, fault)
        }
        _ => Ok(String::new(alloc)),
    }
}
