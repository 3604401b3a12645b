//! The instances of a world.

ghost use Rattle.std.specs.Prelude.{◌≡◌, ◌<◌, ◌^◌, ◌++◌, IfOk, OnOk, length, map};
ghost use Rattle.cm_wit_tables.specs.DeclaredViews.{instance_view};
ghost use Rattle.cm_wit_tables.specs.Worlds.{instances};
ghost use Rattle.cm_wit_signature.specs.Sides.{interfaces_below, side_instances};

use cm_wit_tables::Instance;
use std::alloc::{AllocError, Global};

/// The instances of a world, imports first, and how many are imports.
#[derive(Drop)]
pub struct WorldInstances {
    pub list: Vec<Instance>,
    pub imported: usize,
}

/// Adds the interfaces among these numbers, those below `count`, as instances of one side.
#[tactic(auto, using(crate::proofs::ListLaws::side_laws))]
fn add_instances(
    out: &mut Vec<Instance>,
    exported: bool,
    count: usize,
    numbers: &[usize],
) -> Result<(), AllocError>
    ensures { OnOk result (map instance_view out.new.items
        ≡ map instance_view out.old.items ++ side_instances exported count numbers.now) }
{
    for number in numbers {
        let interface = *number;
        if interface < count {
            out.push(Instance {
                exported,
                interface,
            })?;
        }
    }
    Ok(())
}

/// The instances of a world that imports and exports these, of so many interfaces (WIT.md,
/// "Worlds"). Refused only where there is no memory.
#[tactic(auto, using(crate::proofs::ListLaws::both_laws))]
pub fn instances_of(
    alloc: Global,
    count: usize,
    imports: &[usize],
    exports: &[usize],
) -> Result<WorldInstances, AllocError>
    ensures list { IfOk result (λ x.
        map instance_view x.list.items ≡ instances count imports.now exports.now) }
    ensures imported { IfOk result (λ x.
        x.imported ≡ length (interfaces_below count imports.now)) }
    ensures few { IfOk result (λ x. x.imported < 2 ^ 63) }
{
    let mut list = Vec::new(alloc);
    add_instances(&mut list, false, count, imports)?;
    let imported = list.len();
    add_instances(&mut list, true, count, exports)?;
    Ok(WorldInstances { list, imported })
}
