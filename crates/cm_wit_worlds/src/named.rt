//! The interfaces that a world names and reaches.

ghost use Rattle.std.specs.Prelude.{◌≡◌, ◌↔◌, ℕ, IfOk, map};
ghost use Rattle.cm_wit_graph.specs.Graphs.{IsMarked};
ghost use Rattle.cm_wit_worlds.specs.Interfaces as spec;
ghost use Rattle.cm_wit_worlds.specs.InterfaceViews.{files_of, placed_interface, placed_world};
ghost use Rattle.cm_wit_graph.specs.Reach.{IsReached};
ghost use Rattle.cm_wit_worlds.specs.Worlds.{named, rows_of};

use crate::externs::{joined, written_exports, written_imports};
use crate::{Directory, PlacedInterface, PlacedWorld};
use cm_wit_graph::reach_from;
use std::alloc::{AllocError, Global};

/// What the text of a world names, of packages whose interfaces are these: its imports and then its
/// exports, each by its number, and none where a path leads to no interface (WIT.md, "Worlds").
/// Refused only where there is no memory.
pub fn named_by<'a>(
    alloc: Global,
    directory: &Directory<'a>,
    interfaces: &[PlacedInterface<'a>],
    world: &PlacedWorld<'a>,
) -> Result<Vec<Option<usize>>, AllocError>
    requires { map placed_interface interfaces.now
        ≡ spec.interfaces (files_of directory.now.files.items) }
    ensures { IfOk result (λ v.
        v.items ≡ named (files_of directory.now.files.items) (placed_world world.now)) }
{
    let items = &world.world.items;
    let imports = written_imports(directory, alloc, world.place, interfaces.len(), items)?;
    let exports = written_exports(directory, alloc, world.place, interfaces.len(), items)?;
    let all = joined(alloc, &imports, &exports)?;
    Ok(all)
}

/// For each interface whether a world reaches it, of packages whose interfaces are these: the world
/// names it, or an interface that it reaches uses it. It takes time linear in the packages. Refused
/// only where there is no memory.
pub fn reached_by<'a>(
    alloc: Global,
    directory: &Directory<'a>,
    interfaces: &[PlacedInterface<'a>],
    world: &PlacedWorld<'a>,
) -> Result<Vec<bool>, AllocError>
    requires { map placed_interface interfaces.now
        ≡ spec.interfaces (files_of directory.now.files.items) }
    ensures { IfOk result (λ v. (k : ℕ) → IsMarked v.items k ↔ IsReached
        (rows_of (files_of directory.now.files.items))
        (named (files_of directory.now.files.items) (placed_world world.now)) k) }
{
    let rows = directory.uses(alloc, interfaces)?;
    let named = named_by(alloc, directory, interfaces, world)?;
    let reach = reach_from(alloc, &rows, &named)?;
    Ok(reach.marks)
}
