//! The handles that a reader met, each as the type of the value has it.

ghost use Rattle.std.specs.Prelude.{◌≡◌, ◌∷◌, [], IsOk, OnOk, length};
ghost use Rattle.cm_abi_load.specs.Meeting.{AreAsWanted, IsAsWanted};
ghost use Rattle.cm_abi_model.specs.HandleLeaves.{leaf_of, leaves_of};
ghost use Rattle.cm_abi_copy.specs.MetLeaves.{leaves_found};

use cm_abi_load::{MetHandle, resource_of};
use cm_abi_model::{HandleLeaf, HandleValue};
use cm_handles::Table;
use cm_layout::HandleType;
use std::alloc::AllocError;

/// A handle that was met, as the type of the value has it.
fn leaf_met(table: &Table, met: MetHandle) -> HandleLeaf
    requires wanted { IsAsWanted table.now.handles met }
    ensures { leaf_of result ∷ [] ≡ leaves_found table.now.handles (met ∷ []) }
{
    let Ok(handle) = table.get(met.index, resource_of(met.wanted)) else {
        unreachable!()
    };
    let value = HandleValue {
        serial: handle.serial,
        rep: handle.rep,
        resource: handle.resource,
    };
    match met.wanted {
        HandleType::Own(_) => HandleLeaf::Owned(value),
        HandleType::Borrow(_) => HandleLeaf::Borrowed(value),
    }
}

/// Lists the handles that a reader met in a value, in reading order, each as the type of the value
/// has it: to be owned, or to be borrowed; in the place of what the list had, whose room it keeps.
/// The table has each of them, of the resource and the kind that are wanted.
///
/// `AllocError` comes where there is no memory for them; where none was met, none is taken.
pub fn handles_met(
    table: &Table,
    met: &[MetHandle],
    leaves: &mut Vec<HandleLeaf>,
) -> Result<(), AllocError>
    requires wanted { AreAsWanted table.now.handles met.now }
    ensures leaves { OnOk result
        (leaves_of leaves.new.items ≡ leaves_found table.now.handles met.now) }
    ensures count { OnOk result (length leaves.new.items ≡ length met.now) }
    ensures nothing { met.now ≡ [] → IsOk result }
{
    leaves.clear();
    leaves.reserve(met.len())?;
    for handle in met {
        leaves.push_reserved(leaf_met(table, *handle));
    }
    Ok(())
}
