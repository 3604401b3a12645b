//! What holds of the core functions of linked sets, as laws: each function here does nothing but
//! to look at the components, and its contract is the law.

ghost use Rattle.std.specs.Prelude.{List};
ghost use Rattle.std.specs.List.{AllByRecursion};
ghost use Rattle.cm_validate_model.specs.Valid.{IsValid};
ghost use Rattle.cm_match.specs.Linked.{sections_in, set_in};
ghost use Rattle.cm_machine_model.specs.Plan.{Plan};
ghost use Rattle.cm_machine_model.specs.Plans.{IsPlan};
ghost use Rattle.cm_machine_links.specs.Planned.{AreRowsOf};
ghost use Rattle.cm_machine_links.specs.Planning.{HaveOneType, IsPlanOf};
ghost use Rattle.cm_machine_links.specs.Standing.{EachStands, RowsStand};
ghost use Rattle.cm_machine_links.specs.declared.core_funcs.CoreFunc.{CoreFunc as Function};

use cm_match::Linked;
use cm_match_model::laws::{imported_functions_reach_lifts, links_lead_earlier, targets_are_lifts};
use cm_match_model::origin_laws::{origins_are_unique, origins_follow_links, origins_lead_earlier};
use cm_types_arena::laws::what_stays;
use cm_validate_canons::laws::{passing_stays, pointers};
use cm_validate_model::function_laws::{
    destructors_are_guests, functions_are_as_imported, what_functions_name_is_there,
};

/// Each component of a linked set is valid.
fn components_are_valid(linked: &Linked<'_>)
    ensures { AllByRecursion IsValid (sections_in linked.now) }
{
    for checked in linked.components() {
        let _ = checked.component();
    }
}

/// Each core function of a linked set stands for something; and what is made of them stands for the
/// plan of the set, of which holds what the machine asks of one.
pub(crate) fn core_functions_stand(linked: &Linked<'_>)
    ensures each { EachStands (set_in linked.now) 0 (set_in linked.now).spaces }
    ensures plan { (rows : List (List Function))
        → RowsStand (set_in linked.now) 0 (set_in linked.now).spaces rows
        → (p : Plan) × IsPlanOf (set_in linked.now) p × IsPlan p × AreRowsOf p rows }
    ensures one_type { HaveOneType (set_in linked.now) }
{
    components_are_valid(linked);
    functions_are_as_imported();
    what_functions_name_is_there();
    destructors_are_guests();
    imported_functions_reach_lifts();
    targets_are_lifts();
    links_lead_earlier();
    origins_are_unique();
    origins_follow_links();
    origins_lead_earlier();
    what_stays();
    passing_stays();
    pointers();
    let _ = linked.components();
}

/// What is passed over a link is of one type for both its sides: in a linked set, a function is
/// lowered with the type of the lift that it comes to, each resource what it is in the end.
pub fn links_have_one_type(linked: &Linked<'_>)
    ensures { HaveOneType (set_in linked.now) }
{
    core_functions_stand(linked);
}
