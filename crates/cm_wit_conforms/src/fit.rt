//! Whether a signature fits a world.

ghost use Rattle.std.specs.Prelude.{◌≡◌, ◌⊎◌, IfErr, List, OnOk, map};
ghost use Rattle.cm_types_arena.specs.Signatures.{signature_of};
ghost use Rattle.cm_wit_conforms.specs.Comparisons.{Entry};
ghost use Rattle.cm_wit_conforms.specs.Conformance.{AllFit, Conforms, IsFirstFault, IsFirstIn};
ghost use Rattle.cm_wit_conforms.specs.Judging.{AreSides};
ghost use Rattle.cm_wit_conforms.specs.Views.{entry_of};

use crate::comparisons::PlacedComparison;
use crate::fault::{ConformFault, ConformReason};
use crate::judge::{Side, Tables};
use crate::lists::walked;
use cm_types_arena::Signature;
use std::alloc::Global;

/// Whether these of all that is compared fit, or the first fault of them.
fn judge(
    alloc: Global,
    judged: &[PlacedComparison],
    have: &Side<'_>,
    world: &Side<'_>,
) -> Result<(), ConformFault>
    ensures ok { OnOk result ((all : List Entry) → AreSides all have.now world.now
        → AllFit all (map (entry_of have.now.types.now world.now.types.now) judged.now)) }
    ensures err { IfErr result (λ f. (f.reason ≡ ConformReason.Memory)
        ⊎ ((all : List Entry) → AreSides all have.now world.now → IsFirstIn all
        (map (entry_of have.now.types.now world.now.types.now) judged.now) f.item f.reason)) }
{
    let mut tables = Tables::new(alloc);
    for each in judged {
        if !tables.fits(alloc, have, world, each.what)? {
            return Err(ConformFault {
                item: each.item,
                reason: each.reason(),
            });
        }
    }
    Ok(())
}

/// Whether a component's signature fits a world's (WIT.md, "Worlds"): it has each export of the
/// world, under an equal name and with the items of each instance, and the world has each of its
/// imports; what has one name is of one type, where resources correspond one to one by the names of
/// the import or export and of the type that they have.
///
/// The fault is the first one, of the world's exports in order and then of the signature's imports:
/// `Missing` where the signature lacks an export or an item of one, `NotInWorld` where the world
/// lacks an import or an item of one, and `DifferentType` where types differ, where a resource
/// corresponds to another one already, and where a function stands against an instance. A resource
/// that no two items of one name pair corresponds to none. `Memory` comes where memory is refused,
/// and where there are 2^64 comparisons or more.
///
/// It costs time linear in the items of the imports and exports of both, where those of the
/// signature that have one number are counted once, with a search for each name and resource; and
/// in the types of both, each once for each way in which imports and exports move its resources.
pub fn conforms(alloc: Global, have: &Signature, world: &Signature) -> Result<(), ConformFault>
    ensures ok { OnOk result (Conforms (signature_of have.now) (signature_of world.now)) }
    ensures err { IfErr result (λ f. (f.reason ≡ ConformReason.Memory)
        ⊎ IsFirstFault (signature_of have.now) (signature_of world.now) f.item f.reason) }
{
    let walk = walked(alloc, have, world)?;
    let have = Side {
        types: have.types(),
        pairs: &walk.pairs.have,
        mark: 1,
    };
    let world = Side {
        types: world.types(),
        pairs: &walk.pairs.world,
        mark: 2,
    };
    judge(alloc, &walk.judged.entries, &have, &world)
}
