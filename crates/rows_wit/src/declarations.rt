//! Rows on tables.

ghost use Rattle.std.specs.Prelude.{◌≡◌, map};
ghost use Rattle.cm_wit_worlds.specs.Interfaces as spec;
ghost use Rattle.cm_wit_worlds.specs.InterfaceViews.{files_of, placed_interface};

use crate::instances::read_instances;
use crate::showing::{write_table, write_table_fault};
use cm_rows::{Line, RowFault};
use cm_types_arena::Types;
use cm_wit_tables::{declarations_of, table_of};
use cm_wit_worlds::{Directory, PlacedInterface};
use std::alloc::Global;

/// Writes what the declarations of these instances stand for, or the first fault, of packages in a
/// directory, whose interfaces are these.
pub fn answer<'a>(
    alloc: Global,
    directory: &Directory<'a>,
    interfaces: &[PlacedInterface<'a>],
    instances: &str,
    line: &mut Line,
)
    requires { map placed_interface interfaces.now
        ≡ spec.interfaces (files_of directory.now.files.items) }
{
    let instances = read_instances(alloc, instances, line);
    let declared = declarations_of(alloc, directory, interfaces, &instances);
    let Ok(declarations) = declared else {
        return line.fail(RowFault::Memory);
    };
    let Ok(mut types) = Types::new(alloc) else {
        return line.fail(RowFault::Memory);
    };
    match table_of(alloc, &mut types, &declarations) {
        Ok(table) => write_table(line, &types, &declarations, &table),
        Err(fault) => write_table_fault(line, fault),
    }
}
