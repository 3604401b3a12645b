//! Where resources are.

ghost use Rattle.std.specs.Prelude.{◌≡◌};
ghost use Rattle.cm_abi_model.specs.HandleLeaves.{leaves_of, owned_in};
ghost use Rattle.cm_machine_model.specs.State.{with_places};

use cm_abi_model::HandleLeaf;
use cm_machine_model::state::Place;

/// Says of the resource of each of these handles that is to be owned where it is. Those that were
/// not made are left out.
pub fn put_owners(owners: &mut Vec<Place>, handles: &[HandleLeaf], place: Place)
    ensures { owners.new.items ≡ with_places place (owned_in (leaves_of handles.now))
        owners.old.items }
{
    for handle in handles {
        if let HandleLeaf::Owned(value) = handle {
            let serial = value.serial as usize;
            if serial < owners.len() {
                owners[serial] = place;
            }
        }
    }
}
