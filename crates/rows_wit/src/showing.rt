//! Tables of declarations, as rows show them.

use cm_rows::Line;
use cm_types_arena::Types;
use cm_wit_meanings::Meaning;
use cm_wit_tables::{Declaration, Table, TableFault};

/// Writes the fault of a table; want of memory is that of the row.
pub fn write_table_fault(line: &mut Line, fault: TableFault) {
    line.fail_if_memory(fault == TableFault::Memory);
    line.fault(&fault);
}

/// Writes what a name stands for: a resource by its number, a type by how many nodes and levels it
/// has.
fn write_meaning(line: &mut Line, types: &Types, meaning: Option<Meaning>) {
    match meaning {
        Some(Meaning::Resource(resource)) => {
            line.put("#");
            line.show(resource.number);
        }
        Some(Meaning::Value(place)) if place < types.len() => {
            let summary = types.summary(place);
            line.show(summary.nodes);
            line.put("/");
            line.show(summary.depth);
        }
        _ => line.put("nothing"),
    }
}

/// Writes what each declaration stands for, in order, behind the number of its list and its name.
pub fn write_table(
    line: &mut Line,
    types: &Types,
    declarations: &[Declaration<'_>],
    table: &Table<'_>,
) {
    if declarations.is_empty() {
        line.put("nothing is declared");
    }
    for (place, declaration) in declarations.iter().enumerate() {
        if place > 0 {
            line.put(" ");
        }
        line.show(declaration.in_list);
        line.put(".");
        line.put(declaration.name);
        line.put("=");
        let meaning = table.meanings.get(place).copied().flatten();
        write_meaning(line, types, meaning);
    }
}
