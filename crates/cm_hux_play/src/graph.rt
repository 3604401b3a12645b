//! What components import, as a graph.

use crate::charted::Charted;
use cm_hux_said::Linked;
use std::io;
use std::io::Write;

/// The most bytes of an edge's label: this project's own choice.
const MAX_LABEL: usize = 1000;

/// Writes linked components as a Mermaid graph: a node for each, by number and name, and an edge
/// from each to those from which it imports, with the imports' names, of which no more are written
/// once they have `MAX_LABEL` bytes. The names of the components are given in order, behind as many
/// that have none and are not shown. An error is the writer's.
pub fn write_graph<O: Write>(
    out: &mut O,
    names: &[&str],
    linked: &Linked<'_>,
    hidden: usize,
) -> io::Result<()> {
    out.write_all(b"graph LR\n")?;
    for (number, name) in names.iter().enumerate() {
        let name = Charted(name);
        writeln!(out, "    c{number}[\"{number} {name}\"]")?;
    }
    for importer in 0..names.len() {
        for provider in 0..names.len() {
            write_edge(out, linked, hidden, importer, provider)?;
        }
    }
    out.flush()
}

/// Writes the edge of a pair of components behind so many, if one imports from the other.
fn write_edge<O: Write>(
    out: &mut O,
    linked: &Linked<'_>,
    hidden: usize,
    importer: usize,
    provider: usize,
) -> io::Result<()> {
    let pair = (
        importer.saturating_add(hidden),
        provider.saturating_add(hidden),
    );
    let mut bytes = 0usize;
    for line in linked.plan() {
        if (line.importer, line.provider) != pair || bytes > MAX_LABEL {
            continue;
        }
        let name = import_name(linked, line.importer, line.import);
        if bytes == 0 {
            write!(out, "    c{importer} -->|\"")?;
        } else {
            out.write_all(b", ")?;
        }
        write!(out, "{}", Charted(name))?;
        bytes = bytes.saturating_add(name.len()).saturating_add(2);
    }
    match bytes {
        0 => Ok(()),
        _ => writeln!(out, "\"| c{provider}"),
    }
}

/// The name of an import of a component.
fn import_name<'l>(linked: &'l Linked<'_>, component: usize, import: usize) -> &'l str {
    match linked.components().get(component) {
        Some(checked) => match checked.imports().get(import) {
            Some(import) => import.name.as_str(),
            None => "",
        },
        None => "",
    }
}
