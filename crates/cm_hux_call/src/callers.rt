//! A caller behind some files.

use cm_hux_drive::Set;
use cm_hux_drive::files::{
    Checked, Choices, Component, Fault, Linked, LoadedFiles, ToolFault, caller, checked_of,
    link_by, links_by_name, of_file, signature,
};
use cm_hux_drive::lines::SetSize;
use std::alloc::{AllocError, Global};

/// What the component that calls is named.
const CALLER: &str = "the caller";

/// The caller of what the last of these files exports, which have to link without it. The fault of
/// `unread` is that of the file behind them.
pub(crate) fn caller_of(
    alloc: Global,
    loaded: &LoadedFiles<'_>,
    unread: Option<Fault>,
) -> Result<Component, Fault> {
    let _linked = loaded.link(alloc, unread)?;
    let Some(last) = loaded.files().get(loaded.exporter()) else {
        return Err(Fault::Memory);
    };
    Ok(caller(alloc, &signature(alloc, last.check(alloc)?)?)?)
}

/// The linked set of some files and a caller behind them, whose imports the exports of the last
/// file serve.
pub(crate) fn link_behind<'b>(
    alloc: Global,
    loaded: &'b LoadedFiles<'_>,
    stub: &'b Component,
) -> Result<Linked<'b>, Fault> {
    let mut components = loaded.check(alloc, None)?;
    let mut choices = loaded.choices(alloc, &components)?;
    match checked_of(alloc, CALLER, stub) {
        Ok(caller) => {
            choose_of(alloc, &mut choices, loaded.exporter(), &components, &caller)?;
            components.push(caller)?;
        }
        Err(bad) => return Err(of_file(alloc, bad)),
    }
    let count = components.len();
    match link_by(alloc, components, choices) {
        Ok(linked) => Ok(linked),
        Err(fault) => Err(Fault::Tool(ToolFault::Link {
            fault,
            count,
            tail: String::new(alloc),
        })),
    }
}

/// Chooses, for each import of a caller behind these components, the export of its name of the one
/// of this number.
fn choose_of(
    alloc: Global,
    choices: &mut Choices,
    number: usize,
    components: &[Checked<'_>],
    caller: &Checked<'_>,
) -> Result<(), AllocError> {
    let Some(last) = components.get(number) else {
        return Ok(());
    };
    for _ in choices.links.len()..components.len() {
        choices.links.push(Vec::new(alloc))?;
    }
    let row = links_by_name(alloc, number, last.exports(), caller.imports())?;
    choices.links.push(row)?;
    Ok(())
}

/// A set of what is linked: these pages for the files, and none yet for the caller behind them.
pub(crate) fn set_with_caller(
    alloc: Global,
    linked: &Linked<'_>,
    pages: &[u32],
) -> Result<Set, Fault> {
    let files = linked.components().len().saturating_sub(1);
    let size = SetSize::new(files, pages);
    let mut all = pages.to_vec(alloc)?;
    all.push(0)?;
    match Set::new(alloc, linked, &all) {
        Ok(set) => Ok(set),
        Err(misuse) => Err(Fault::Tool(ToolFault::Set { misuse, size })),
    }
}

/// The words that name the files and the parts of bundles, and behind them the caller.
pub(crate) fn names_of(alloc: Global, loaded: &LoadedFiles<'_>) -> Result<Vec<String>, AllocError> {
    let mut names = Vec::new(alloc);
    for file in loaded.files() {
        names.push(String::from_str(alloc, file.word())?)?;
    }
    names.push(String::from_str(alloc, CALLER)?)?;
    Ok(names)
}
