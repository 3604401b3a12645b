//! The commands that play nothing.

use crate::conforming::{Asked, conform};
use crate::fault::Fault;
use crate::loading::{check, load_file, load_files};
use crate::outcome::Outcome;
use cm_tool_files::{Files, show_component};
use cm_tool_lines::write_plan;
use std::alloc::Global;
use std::io;
use std::io::Write;

/// Prints how many imports and exports the valid component of a file has.
pub fn run_check<F: Files, O: Write>(
    alloc: Global,
    name: &str,
    files: &mut F,
    out: &mut O,
) -> Result<Outcome, Fault> {
    let (imports, exports) = counts_of(alloc, name, files)?;
    writeln!(out, "ok: {imports} imports, {exports} exports")?;
    out.flush()?;
    Ok(Outcome::Done)
}

/// How many imports and how many exports the component of a file has.
fn counts_of<F: Files>(alloc: Global, name: &str, files: &mut F) -> Result<(usize, usize), Fault> {
    let component = load_file(alloc, files, name)?;
    let checked = check(alloc, name, &component)?;
    Ok((checked.imports().len(), checked.exports().len()))
}

/// Prints what the valid component of a file imports and exports.
pub fn run_show<F: Files, O: Write>(
    alloc: Global,
    name: &str,
    files: &mut F,
    out: &mut O,
) -> Result<Outcome, Fault> {
    let text = shown_text(alloc, name, files)?;
    write_text(out, text.as_str())?;
    Ok(Outcome::Done)
}

/// The text that shows the component of a file.
fn shown_text<F: Files>(alloc: Global, name: &str, files: &mut F) -> Result<String, Fault> {
    let component = load_file(alloc, files, name)?;
    let checked = check(alloc, name, &component)?;
    match show_component(alloc, checked) {
        Ok(text) => Ok(text),
        Err(fault) => Err(Fault::show(alloc, name, fault)),
    }
}

/// Prints `ok` where the component of a file fits a world.
pub fn run_conform<F: Files, O: Write>(
    alloc: Global,
    asked: Asked<'_>,
    files: &mut F,
    out: &mut O,
) -> Result<Outcome, Fault> {
    conform(alloc, asked, files)?;
    write_text(out, "ok\n")?;
    Ok(Outcome::Done)
}

fn write_text<O: Write>(out: &mut O, text: &str) -> io::Result<()> {
    out.write_all(text.as_bytes())?;
    out.flush()
}

/// Links the components of files, and prints which export serves each import.
pub fn run_link<F: Files, O: Write>(
    alloc: Global,
    names: &[&str],
    files: &mut F,
    out: &mut O,
) -> Result<Outcome, Fault> {
    let loaded = load_files(alloc, files, names)?;
    let linked = loaded.link(alloc)?;
    write_plan(out, &linked)?;
    Ok(Outcome::Done)
}
