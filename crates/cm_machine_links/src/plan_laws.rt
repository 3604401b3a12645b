//! What the plan of a linked set says, as laws: each function here does nothing, and its contract
//! is the law.

ghost use Rattle.std.specs.Prelude.{List, map};
ghost use Rattle.std.specs.List.{AllByRecursion};
ghost use Rattle.cm_binary_model.specs.Trees.{SectionTree};
ghost use Rattle.cm_validate_model.specs.Spaces.{spaces_of};
ghost use Rattle.cm_validate_model.specs.Valid.{IsValid};
ghost use Rattle.cm_match_model.specs.Imports.{Sees, seen_by};
ghost use Rattle.cm_machine_model.specs.Plan.{Plan};
ghost use Rattle.cm_machine_links.specs.Planning.{IsPlanOf};
ghost use Rattle.cm_machine_links.specs.Written.{IsPlanWritten};

use cm_match_model::laws::links_lead_earlier;
use cm_match_model::origin_laws::{origins_are_unique, origins_follow_links};
use cm_match_model::target_laws::targets_are_written;
use cm_validate_model::function_laws::{functions_come_from_items, what_functions_name_is_there};
use cm_validate_model::resource_laws::resources_are_as_defined;

/// The plan of a set of valid components is as these write it, whatever their imports see: the
/// options of each side of a link are those of its own canonical definition, in UTF-8 where no
/// encoding is written; what is called is the lift that the import comes to, and behind it what
/// that lift names to tidy up; handles are of the resource that the canonical definition names; and
/// the destructor is the one that the type definition of the resource names.
pub fn plans_are_written()
    ensures { (components : List (List SectionTree)) (sees : Sees) (p : Plan)
        → AllByRecursion IsValid components
        → IsPlanOf (seen_by sees (map spaces_of components)) p
        → IsPlanWritten components sees p }
{
    functions_come_from_items();
    what_functions_name_is_there();
    resources_are_as_defined();
    links_lead_earlier();
    origins_are_unique();
    origins_follow_links();
    targets_are_written();
}
