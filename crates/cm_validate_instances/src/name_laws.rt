//! What sketches of items tell, as laws: each function here does nothing, and its contract is the
//! law.

ghost use Rattle.std.specs.Prelude.{◌≡◌, List, map, true};
ghost use Rattle.std.specs.List.{list_all};
ghost use Rattle.cm_types.specs.Signatures.{NamedItem};
ghost use Rattle.cm_validate_model.specs.ItemNames.{item_names_broken};
ghost use Rattle.cm_validate_model.specs.Reasons.{least};
ghost use Rattle.cm_validate_instances.specs.Faults.{is_before_limits};
ghost use Rattle.cm_validate_instances.specs.Names.{item_name_faults};
ghost use Rattle.cm_validate_instances.specs.ItemSketches.{named_sketch};

use cm_validate_model::laws::least_of_both;

/// Sketches of the items decide why their names are refused; each such reason has a smaller number
/// than that of the limits.
pub fn names_are_sketched()
    ensures least { (items : List NamedItem)
        → least (item_names_broken items) ≡ least (item_name_faults (map named_sketch items)) }
    ensures before { (items : List NamedItem)
        → list_all is_before_limits (item_names_broken items) ≡ true }
{
    least_of_both();
}
