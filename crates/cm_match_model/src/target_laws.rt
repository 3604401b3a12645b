//! What holds of what imported functions come to, as laws: each function here does nothing, and its
//! contract is the law.

ghost use Rattle.std.specs.Prelude.{◌≡◌, ℕ, List, [], Option, Some, map, slice_get, unwrap_or};
ghost use Rattle.cm_binary_model.specs.Trees.{SectionTree};
ghost use Rattle.cm_validate_model.specs.Definitions.{lifted};
ghost use Rattle.cm_validate_model.specs.Items.{all_items};
ghost use Rattle.cm_validate_model.specs.Sources.{IsAdded};
ghost use Rattle.cm_validate_model.specs.Spaces.{spaces_of};
ghost use Rattle.cm_match_model.specs.Imports.{Sees, links_of, seen_by};
ghost use Rattle.cm_match_model.specs.Targets.{Target, targets_of};

use cm_validate_model::function_laws::functions_come_from_items;

/// Whether components are valid or not, an imported function comes to a function that a lift of its
/// component adds, with the core function and the options of that lift.
pub fn targets_are_written()
    ensures { (components : List (List SectionTree)) (sees : Sees) (c import : ℕ) (item : Option ℕ)
        (t : Target) → targets_of (map spaces_of components)
        (links_of (seen_by sees (map spaces_of components))) c import item ≡ Some t
        → IsAdded (all_items (unwrap_or (slice_get components t.component) []))
        (lifted t.core_func t.ty t.options) }
{
    functions_come_from_items();
}
