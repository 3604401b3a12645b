//! The order of a world's imports.

ghost use Rattle.std.specs.Prelude.{◌≡◌, ℕ, IfOk, map, MatchOption, MatchResult};
ghost use Rattle.cm_wit_reading.specs.Views.{world_tree};
ghost use Rattle.cm_wit_worlds.specs.Interfaces as spec;
ghost use Rattle.cm_wit_worlds.specs.InterfaceViews.{files_of, placed_interface, placed_world};
ghost use Rattle.cm_wit_worlds.specs.Externs.{AreImports, found};
ghost use Rattle.cm_wit_worlds.specs.Worlds.{AreWorldExterns, IsExternFault};

use crate::externs::{joined, written_exports, written_imports};
use crate::fault::WorldFault;
use crate::lists::{found, found_rows, other_needs};
use crate::world::WorldExterns;
use crate::{Directory, PlacedInterface, PlacedWorld};
use cm_wit_graph::{place_all, reach_from};
use indexmap::IndexSet;
use std::alloc::{AllocError, Global};

/// The nodes of an order. Refused only where there is no memory.
fn nodes_of(alloc: Global, order: &IndexSet<usize>) -> Result<Vec<usize>, AllocError>
    ensures { IfOk result (λ v. v.items ≡ order.now.keys) }
{
    order.iter().copied().collect(alloc)
}

/// The imports in order, where the world's text imports and exports these. Refused only where there
/// is no memory, or where an interface uses itself.
#[tactic(auto, using(crate::proofs::OrderLaws::import_laws))]
fn ordered(
    alloc: Global,
    rows: &[Vec<Option<usize>>],
    written: &[usize],
    exports: &[usize],
) -> Result<Vec<usize>, AllocError>
    ensures { IfOk result (λ v.
        AreImports (map (λ r. r.items) rows.now) written.now exports.now v.items) }
{
    let needs = found_rows(alloc, rows)?;
    let mut order = IndexSet::new(alloc);
    if !place_all(alloc, &needs, written, &mut order)? {
        return Err(AllocError);
    }
    let others = other_needs(alloc, &needs, exports)?;
    if !place_all(alloc, &needs, &others, &mut order)? {
        return Err(AllocError);
    }
    let list = nodes_of(alloc, &order)?;
    Ok(list)
}

/// What a world of these packages, whose interfaces are these, imports and exports, in order
/// (WIT.md, "Worlds").
///
/// The imports are those of the world's text, each behind the interfaces that it uses, and then
/// what its exports use that is not exported. `NoSuchInterface` comes where a path in what the
/// world reaches leads to no interface, else `Cycle` where an interface that it reaches uses
/// itself, by way of others or not, and `Memory` where memory is refused. It takes time linear in
/// the packages.
#[tactic(auto, using(crate::proofs::OrderLaws::world_laws))]
pub fn externs_of<'a>(
    alloc: Global,
    directory: &Directory<'a>,
    interfaces: &[PlacedInterface<'a>],
    world: &PlacedWorld<'a>,
) -> Result<WorldExterns, WorldFault>
    requires { map placed_interface interfaces.now
        ≡ spec.interfaces (files_of directory.now.files.items) }
    ensures { MatchResult result
        (λ e. AreWorldExterns (files_of directory.now.files.items) (placed_world world.now)
        e.imports.items e.exports.items)
        (IsExternFault (files_of directory.now.files.items) (placed_world world.now)) }
{
    let rows = directory.uses(alloc, interfaces)?;
    let items = &world.world.items;
    let imports = written_imports(directory, alloc, world.place, interfaces.len(), items)?;
    let exports = written_exports(directory, alloc, world.place, interfaces.len(), items)?;
    let reach = reach_from(alloc, &rows, &joined(alloc, &imports, &exports)?)?;
    if reach.missing {
        return Err(WorldFault::NoSuchInterface);
    }
    if reach.cyclic {
        return Err(WorldFault::Cycle);
    }
    let exports = found(alloc, &exports)?;
    let imports = ordered(alloc, &rows, &found(alloc, &imports)?, &exports)?;
    Ok(WorldExterns { imports, exports })
}
