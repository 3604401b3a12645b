//! Worlds that reach an interface that uses itself.

ghost use Rattle.std.specs.Prelude.{◌≡◌, ◌↔◌, ℕ, IfOk, IfErr, map};
ghost use Rattle.std.specs.List.{Contains};
ghost use Rattle.cm_wit_graph.specs.Graphs.{IsMarked};
ghost use Rattle.cm_wit_tables.specs.DeclaredViews.{instance_view};
ghost use Rattle.cm_wit_worlds.specs.Interfaces as spec;
ghost use Rattle.cm_wit_worlds.specs.InterfaceViews.{files_of, placed_interface, placed_world};
ghost use Rattle.cm_wit_signature.specs.Faults.{HasCycle, IsFaultIn};
ghost use Rattle.cm_wit_signature.specs.Named.{imported};
ghost use Rattle.cm_wit_worlds.specs.Worlds.{HasInterfaceCycle, HasNoInterface};

use crate::typing::typed_declarations;
use cm_wit_tables::Instance;
use cm_wit_worlds::{Directory, PlacedInterface, PlacedWorld, WorldFault, reached_by};
use std::alloc::{AllocError, Global};

/// The numbers of what is marked, in order. Refused only where there is no memory.
#[tactic(auto, using(crate::proofs::MarkLaws::mark_laws))]
fn marked(alloc: Global, marks: &[bool]) -> Result<Vec<usize>, AllocError>
    ensures { IfOk result (λ ks. (k : ℕ) → Contains ks.items k ↔ IsMarked marks.now k) }
{
    let mut out = Vec::new(alloc);
    for (number, mark) in marks.iter().enumerate() {
        if *mark {
            out.push(number)?;
        }
    }
    Ok(out)
}

/// Interfaces of these numbers, as they are imported. Refused only where there is no memory.
#[tactic(auto, using(crate::proofs::ListLaws::file_laws))]
fn imports_of(alloc: Global, numbers: &[usize]) -> Result<Vec<Instance>, AllocError>
    ensures { IfOk result (λ v. map instance_view v.items ≡ map imported numbers.now) }
{
    let mut out = Vec::new(alloc);
    for number in numbers {
        out.push(Instance {
            exported: false,
            interface: *number,
        })?;
    }
    Ok(out)
}

/// The first fault of a world, but that an interface uses itself, if there is one: `NoSuchType`, or
/// `Memory`.
fn first_fault<'a>(
    alloc: Global,
    directory: &Directory<'a>,
    interfaces: &[PlacedInterface<'a>],
    world: &PlacedWorld<'a>,
) -> Result<(), WorldFault>
    requires interfaces { map placed_interface interfaces.now
        ≡ spec.interfaces (files_of directory.now.files.items) }
    requires found { HasNoInterface (files_of directory.now.files.items) (placed_world world.now)
        → ⊥ }
    requires cyclic { HasInterfaceCycle (files_of directory.now.files.items)
        (placed_world world.now) }
    ensures typed { IfOk result (λ _. HasCycle (files_of directory.now.files.items)
        (placed_world world.now)) }
    ensures fault { IfErr result (IsFaultIn (files_of directory.now.files.items)
        (placed_world world.now)) }
{
    let marks = reached_by(alloc, directory, interfaces, world)?;
    let instances = imports_of(alloc, &marked(alloc, &marks)?)?;
    typed_declarations(alloc, directory, interfaces, world, &instances)?;
    Ok(())
}

/// Why a world that reaches an interface which uses itself has no signature: `NoSuchType` where a
/// name in what the world reaches leads to no type, or that of a borrow to no resource, else
/// `Cycle`; or `Memory`. There is no order of imports here, so names are looked up in each
/// interface that the world reaches.
pub fn cycle_fault<'a>(
    alloc: Global,
    directory: &Directory<'a>,
    interfaces: &[PlacedInterface<'a>],
    world: &PlacedWorld<'a>,
) -> WorldFault
    requires interfaces { map placed_interface interfaces.now
        ≡ spec.interfaces (files_of directory.now.files.items) }
    requires found { HasNoInterface (files_of directory.now.files.items) (placed_world world.now)
        → ⊥ }
    requires cyclic { HasInterfaceCycle (files_of directory.now.files.items)
        (placed_world world.now) }
    ensures { IsFaultIn (files_of directory.now.files.items) (placed_world world.now) result }
{
    match first_fault(alloc, directory, interfaces, world) {
        Ok(()) => WorldFault::Cycle,
        Err(fault) => fault,
    }
}
