//! What the steps of a call are, as laws: each function here does nothing, and its contract is the
//! law.

ghost use Rattle.std.specs.Prelude.{◌≡◌, List, length};
ghost use Rattle.cm_types.specs.Types.{Fields};
ghost use Rattle.cm_layout.specs.Flattening.{flat_of_fields};
ghost use Rattle.cm_abi_model.specs.Views.{Way};
ghost use Rattle.cm_abi_slots.specs.Steps.{AreStepsOf};
ghost use Rattle.cm_abi_slots.specs.declared.steps.SlotStep.{SlotStep};

/// There is a step for each core value that passes values of the types (CanonicalABI.md,
/// "Flattening").
pub fn each_core_value_has_a_step()
    ensures { (way : Way) (types : Fields) (steps : List SlotStep) → AreStepsOf way types steps
        → length steps ≡ length (flat_of_fields types) }
{}
