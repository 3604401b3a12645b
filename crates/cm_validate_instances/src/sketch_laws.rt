//! What sketches tell, as laws: each function here does nothing, and its contract is the law.

ghost use Rattle.std.specs.Prelude.{◌≡◌, List, map, true};
ghost use Rattle.std.specs.List.{list_all};
ghost use Rattle.cm_types.specs.DefTypes.{DefValTypeTree, FuncTypeTree};
ghost use Rattle.cm_types.specs.Holds.{holds, is_borrow};
ghost use Rattle.cm_types.specs.Types.{Ty};
ghost use Rattle.cm_validate_model.specs.declared.fault.ValidReason.{ValidReason};
ghost use Rattle.cm_validate_model.specs.Definitions.{TypeDef, sorts_of};
ghost use Rattle.cm_validate_model.specs.Reasons.{least};
ghost use Rattle.cm_validate_model.specs.Scopes.{func_def_of, value_def_of};
ghost use Rattle.cm_validate_model.specs.TypeRules.{func_def_broken, value_def_broken};
ghost use Rattle.cm_validate_instances.specs.Definitions.{func_def_sketch, value_def_sketch};
ghost use Rattle.cm_validate_instances.specs.Faults.{besides_limits, func_def_faults};
ghost use Rattle.cm_validate_instances.specs.Faults.{is_before_limits, or_too_large};
ghost use Rattle.cm_validate_instances.specs.Faults.{value_def_faults};
ghost use Rattle.cm_validate_instances.specs.Sketches.{holds_borrow, sketch_of, sketch_sort};
ghost use Rattle.cm_validate_instances.specs.Sketches.{sketch_value};

/// The sketch of a definition is made of those of the types that it names; so is its sort.
pub fn definitions_are_sketched()
    ensures sorts { (types : List TypeDef)
        → sorts_of types ≡ map sketch_sort (map sketch_of types) }
    ensures borrow { (t : Ty) → holds_borrow (sketch_value t) ≡ holds is_borrow t }
    ensures value { (types : List TypeDef) (v : DefValTypeTree)
        → sketch_of (value_def_of types v) ≡ value_def_sketch (map sketch_of types) v }
    ensures func { (types : List TypeDef) (f : FuncTypeTree)
        → sketch_of (func_def_of types f) ≡ func_def_sketch (map sketch_of types) f }
{}

/// The sketches of the types that a definition names decide why it is refused, besides the limits;
/// each such reason has a smaller number than that of the limits.
pub fn faults_are_sketched()
    ensures value { (types : List TypeDef) (v : DefValTypeTree)
        → besides_limits (value_def_broken types v) ≡ value_def_faults (map sketch_of types) v }
    ensures func { (types : List TypeDef) (f : FuncTypeTree)
        → besides_limits (func_def_broken types f) ≡ func_def_faults (map sketch_of types) f }
    ensures value_before { (types : List TypeDef) (v : DefValTypeTree)
        → list_all is_before_limits (besides_limits (value_def_broken types v)) ≡ true }
    ensures func_before { (types : List TypeDef) (f : FuncTypeTree)
        → list_all is_before_limits (besides_limits (func_def_broken types f)) ≡ true }
{}

/// A reason with a smaller number than that of the limits is another one. Where all others have
/// smaller numbers, the least of all is the least of the others, and that of the limits where there
/// are no others.
pub fn limits_come_last()
    ensures others { (rs : List ValidReason) → list_all is_before_limits rs ≡ true
        → besides_limits rs ≡ rs }
    ensures least { (rs : List ValidReason)
        → list_all is_before_limits (besides_limits rs) ≡ true
        → least rs ≡ or_too_large rs (least (besides_limits rs)) }
{}
