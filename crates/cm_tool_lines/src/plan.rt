//! The line that each link prints.

use cm_match::{Linked, PlanLine};
use std::io;
use std::io::Write;

/// Writes a line for each import of a linked set, in the order of the plan.
pub fn write_plan<O: Write>(out: &mut O, linked: &Linked<'_>) -> io::Result<()> {
    for line in linked.plan() {
        let import = import_name(linked, line);
        let export = export_name(linked, line);
        let PlanLine {
            importer,
            provider,
            ..
        } = line;
        writeln!(out, "{importer} {import} <- {provider} {export}")?;
    }
    out.flush()
}

/// The name of the import of a plan's line. A plan names imports that are there.
fn import_name<'a>(linked: &'a Linked<'_>, line: &PlanLine) -> &'a str {
    let Some(component) = linked.components().get(line.importer) else {
        return "";
    };
    match component.imports().get(line.import) {
        Some(import) => import.name.as_str(),
        None => "",
    }
}

/// The name of the export of a plan's line. A plan names exports that are there.
fn export_name<'a>(linked: &'a Linked<'_>, line: &PlanLine) -> &'a str {
    let Some(component) = linked.components().get(line.provider) else {
        return "";
    };
    match component.exports().get(line.export) {
        Some(export) => export.name.as_str(),
        None => "",
    }
}
