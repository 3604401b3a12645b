//! What sketches tell of the types of instances, as laws: each function here does nothing, and its
//! contract is the law.

ghost use Rattle.std.specs.Prelude.{◌≡◌, ◌++◌, ℕ, List, true};
ghost use Rattle.std.specs.List.{list_all};
ghost use Rattle.cm_types.specs.DefTypes.{DeclarationTree};
ghost use Rattle.cm_validate_model.specs.Declarations.{Scope, after_declarations};
ghost use Rattle.cm_validate_model.specs.Declarations.{declarations_broken};
ghost use Rattle.cm_validate_model.specs.Declarations.{instance_def_broken};
ghost use Rattle.cm_validate_model.specs.Definitions.{TypeDef};
ghost use Rattle.cm_validate_model.specs.Reasons.{least};
ghost use Rattle.cm_validate_instances.specs.Names.{item_name_faults};
ghost use Rattle.cm_validate_instances.specs.Faults.{besides_limits, is_before_limits};
ghost use Rattle.cm_validate_instances.specs.Faults.{or_too_large};
ghost use Rattle.cm_validate_instances.specs.SketchScopes.{after_all_sketched};
ghost use Rattle.cm_validate_instances.specs.SketchScopes.{declarations_faults};
ghost use Rattle.cm_validate_instances.specs.SketchScopes.{sketch_scope, sketches_before};

use crate::name_laws::names_are_sketched;
use crate::sketch_laws::{definitions_are_sketched, faults_are_sketched, limits_come_last};
use cm_validate_model::laws::least_of_both;

/// Sketches decide what declarations lead to, and why they and the names of their items are
/// refused, besides the limits, which come last.
pub fn instances_are_sketched()
    ensures scope { (s : Scope) (ds : List DeclarationTree)
        → sketch_scope (after_declarations s ds)
        ≡ after_all_sketched s.around (sketch_scope s) ds }
    ensures declarations { (s : Scope) (ds : List DeclarationTree)
        → besides_limits (declarations_broken s ds)
        ≡ declarations_faults s.around (sketch_scope s) ds }
    ensures instance { (types : List TypeDef) (next : ℕ) (ds : List DeclarationTree)
        → least (besides_limits (instance_def_broken types next ds)) ≡ least
        (declarations_faults types (sketches_before next) ds
        ++ item_name_faults (after_all_sketched types (sketches_before next) ds).items) }
    ensures last { (types : List TypeDef) (next : ℕ) (ds : List DeclarationTree)
        → least (instance_def_broken types next ds)
        ≡ or_too_large (instance_def_broken types next ds)
        (least (besides_limits (instance_def_broken types next ds))) }
{
    least_of_both();
    definitions_are_sketched();
    faults_are_sketched();
    limits_come_last();
    names_are_sketched();
}
