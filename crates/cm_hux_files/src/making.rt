//! Bundles that are made, and what stands in one.

use crate::taking::part_of;
use crate::trouble::Trouble;
use crate::type_imports::imports_type;
use cm_bundle::{Bundle, BundlingFault, ImportGroup, Part, PartName, Supply, bundle};
use cm_match::Linked;
use cm_tool_help_texts::Escaped;
use std::alloc::Global;
use std::io;
use std::io::Write;

/// The bundle of a linked set, of whose components these are the files and the names, with the
/// exports of one. Where it imports something component 0 of the set has no file: it exports what
/// these sections import.
///
/// `ImportsType` comes where a file imports a type: other runtimes want an argument for it, and the
/// set has none.
pub fn made(
    alloc: Global,
    linked: &Linked<'_>,
    front: &[ImportGroup<'_>],
    files: &[&[u8]],
    exporter: usize,
    names: &[PartName<'_>],
) -> Result<Vec<u8>, Trouble> {
    refuse_type_imports(alloc, files)?;
    match bundle(alloc, linked, front, files, exporter, names) {
        Ok(bytes) => Ok(bytes),
        Err(BundlingFault::Memory) => Err(Trouble::Memory),
        Err(fault) => Err(Trouble::NotMade(fault)),
    }
}

fn refuse_type_imports(alloc: Global, files: &[&[u8]]) -> Result<(), Trouble> {
    for (component, file) in files.iter().enumerate() {
        if imports_type(alloc, file)? {
            return Err(Trouble::ImportsType { component });
        }
    }
    Ok(())
}

/// Writes what the imports of the parts are given, a line for each, as the lines of a plan; of what
/// the bundle imports that it is open.
pub fn write_arguments<O: Write>(out: &mut O, bundle: &Bundle<'_>) -> io::Result<()> {
    for (number, part) in bundle.parts.iter().enumerate() {
        write_part(out, bundle, number, part)?;
    }
    out.flush()
}

fn write_part<O: Write>(
    out: &mut O,
    bundle: &Bundle<'_>,
    number: usize,
    part: &Part<'_>,
) -> io::Result<()> {
    for argument in &part.arguments {
        write_argument(out, bundle, number, argument)?;
    }
    Ok(())
}

fn write_argument<O: Write>(
    out: &mut O,
    bundle: &Bundle<'_>,
    number: usize,
    argument: &Supply<'_>,
) -> io::Result<()> {
    let import = Escaped(argument.name);
    let export = Escaped(argument.export.name);
    match part_of(bundle, argument.export) {
        Some(part) => writeln!(out, "{number} {import} <- {part} {export}"),
        None => writeln!(out, "{number} {import} is open"),
    }
}
