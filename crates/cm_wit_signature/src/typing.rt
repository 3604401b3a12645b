//! Whether the names in what a world reaches lead to types.

ghost use Rattle.std.specs.Prelude.{◌≡◌, IfOk, IfErr, map};
ghost use Rattle.cm_wit_tables.specs.DeclaredViews.{declaration_view, instance_view};
ghost use Rattle.cm_wit_worlds.specs.Interfaces as spec;
ghost use Rattle.cm_wit_worlds.specs.InterfaceViews.{files_of, placed_interface, placed_world};
ghost use Rattle.cm_wit_tables.specs.Worlds.{declarations};
ghost use Rattle.cm_wit_signature.specs.Named.{HaveTypes};
ghost use Rattle.cm_wit_signature.specs.Typing.{IsTypingFault};

use crate::{all_have_types, members_have_types};
use cm_wit_tables::{Declaration, Instance, declarations_of};
use cm_wit_worlds::{Directory, PlacedInterface, PlacedWorld, WorldFault};
use std::alloc::Global;

/// What the interfaces of a world declare, where names are looked up in these instances and each
/// leads to a type, and that of a borrow to a resource; else `NoSuchType`, or `Memory`. It takes
/// time linear in the packages.
#[tactic(auto, using(crate::proofs::TypedLaws::typed_laws))]
pub fn typed_declarations<'a>(
    alloc: Global,
    directory: &Directory<'a>,
    interfaces: &[PlacedInterface<'a>],
    world: &PlacedWorld<'a>,
    instances: &[Instance],
) -> Result<Vec<Declaration<'a>>, WorldFault>
    requires { map placed_interface interfaces.now
        ≡ spec.interfaces (files_of directory.now.files.items) }
    ensures declarations { IfOk result (λ v. map declaration_view v.items
        ≡ declarations (files_of directory.now.files.items) (map instance_view instances.now)) }
    ensures typed { IfOk result (λ _. HaveTypes (files_of directory.now.files.items)
        (placed_world world.now) (map instance_view instances.now)) }
    ensures fault { IfErr result (IsTypingFault (files_of directory.now.files.items)
        (placed_world world.now) (map instance_view instances.now)) }
{
    let declarations = declarations_of(alloc, directory, interfaces, instances)?;
    if !all_have_types(alloc, &declarations)? {
        return Err(WorldFault::NoSuchType);
    }
    if !members_have_types(alloc, &declarations, interfaces, instances, world)? {
        return Err(WorldFault::NoSuchType);
    }
    Ok(declarations)
}
