//! The script for the files.

use cm_hux_drive::files::{Checked, Fault, Files};
use cm_hux_drive::{HuxScript, Names, Script, load_script};
use cm_live_plan::pages_of;
use std::alloc::{AllocError, Global};
use std::collections::VecDeque;

/// The script of a file; without one, that of guests that stop at once.
pub(crate) fn script_of<F: Files>(
    alloc: Global,
    name: Option<&str>,
    components: &[Checked<'_>],
    files: &mut F,
) -> Result<HuxScript, Fault> {
    let Some(name) = name else {
        return Ok(still(alloc, components)?);
    };
    let names = Names::of(alloc, components)?;
    load_script(alloc, files, name, &names)
}

/// The script of guests that stop at once, in memories as their core modules declare them.
fn still(alloc: Global, components: &[Checked<'_>]) -> Result<HuxScript, AllocError> {
    let mut pages = Vec::with_capacity(alloc, components.len())?;
    let mut moves = Vec::with_capacity(alloc, components.len())?;
    for checked in components {
        pages.push(pages_of(alloc, checked.component())?)?;
        moves.push(VecDeque::new(alloc))?;
    }
    Ok(HuxScript {
        script: Script {
            pages,
            moves,
            begins: Vec::new(alloc),
        },
        checks: Vec::new(alloc),
    })
}
