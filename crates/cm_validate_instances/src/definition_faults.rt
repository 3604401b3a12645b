//! Why definitions are refused, besides the limits on expanded types.

use crate::level::SketchLevel;
use cm_types::{DefValType, FuncType};
use cm_validate_model::ValidReason;
use cm_validate_model::laws::least_of_both;
use cm_validate_types::{broken_unless, lesser, params_fault, parts_fault, uses_fault};
use std::alloc::{AllocError, Global};

impl SketchLevel {
    ghost use Rattle.std.specs.Prelude.{◌≡◌, IfOk};
    ghost use Rattle.cm_types.specs.DefTypes.{def_val_type_tree, func_type_tree};
    ghost use Rattle.cm_validate_model.specs.Reasons.{least};
    ghost use Rattle.cm_validate_instances.specs.Faults.{func_def_faults, value_def_faults};
    ghost use Rattle.cm_validate_instances.specs.Levels.{sketches_of};

    /// Why a definition of a value type is refused, besides the limits: the reason with the
    /// smallest number, or none. `AllocError` comes where there is no memory to compare labels;
    /// each is folded and looked up once.
    pub fn value_def_fault(
        &self,
        alloc: Global,
        def: &DefValType,
    ) -> Result<Option<ValidReason>, AllocError>
        ensures { IfOk result (λ r. r ≡ least
            (value_def_faults (sketches_of self.now) (def_val_type_tree def.now))) }
    {
        parts_fault(alloc, self.sorts(), def)
    }

    /// Why the type of a function is refused, besides the limits, as `value_def_fault` answers for
    /// a value type.
    pub fn func_def_fault(
        &self,
        alloc: Global,
        func: &FuncType,
    ) -> Result<Option<ValidReason>, AllocError>
        ensures { IfOk result (λ r. r ≡ least
            (func_def_faults (sketches_of self.now) (func_type_tree func.now))) }
    {
        least_of_both();
        let uses = uses_fault(self.sorts(), func);
        let twice = params_fault(alloc, func)?;
        let borrowed = self.are_used(func) && self.payload_holds(func.result);
        let borrow = broken_unless(!borrowed, ValidReason::BorrowInResult);
        Ok(lesser(lesser(uses, twice), borrow))
    }
}
