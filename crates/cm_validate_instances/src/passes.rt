//! Why the type of an instance is refused, besides the limits, in one pass over its declarations.

ghost use Rattle.std.specs.Prelude.{◌≡◌, IfOk, OnOk, map};
ghost use Rattle.cm_types.specs.DefTypes.{declaration_tree};
ghost use Rattle.cm_validate_model.specs.Declarations.{instance_def_broken};
ghost use Rattle.cm_validate_model.specs.Reasons.{least};
ghost use Rattle.cm_validate_types.specs.TypeScopes.{own_types};
ghost use Rattle.cm_validate_instances.specs.Faults.{besides_limits};
ghost use Rattle.cm_validate_instances.specs.SketchScopes.{after_all_sketched};
ghost use Rattle.cm_validate_instances.specs.SketchScopes.{declarations_faults};
ghost use Rattle.cm_validate_instances.specs.Sketchings.{scope_sketched};

use crate::instance_laws::instances_are_sketched;
use crate::item_names_fault;
use crate::sketching::Sketching;
use cm_types::Declaration;
use cm_validate_core::lesser;
use cm_validate_model::ValidReason;
use cm_validate_model::laws::least_of_both;
use cm_validate_types::TypeScope;
use std::alloc::{AllocError, Global};

impl Sketching {
    /// Reads declarations, one after another, and answers the least reason besides the limits to
    /// refuse any of them.
    fn declare_all(
        &mut self,
        alloc: Global,
        component: &TypeScope,
        declarations: &[Declaration],
    ) -> Result<Option<ValidReason>, AllocError>
        ensures fault { IfOk result (λ r. r ≡ least
            (declarations_faults (own_types component.now) (scope_sketched self.old)
            (map declaration_tree declarations.now))) }
        ensures declared { OnOk result (scope_sketched self.new
            ≡ after_all_sketched (own_types component.now) (scope_sketched self.old)
            (map declaration_tree declarations.now)) }
    {
        least_of_both();
        let mut fault = None;
        for declaration in declarations {
            fault = lesser(fault, self.declare(alloc, component, declaration)?);
        }
        Ok(fault)
    }
}

/// The least reason besides the limits to refuse the type of an instance, in a component with the
/// types of this scope, whose next resource has this number.
pub(crate) fn sketched_fault(
    alloc: Global,
    component: &TypeScope,
    declarations: &[Declaration],
    next: u64,
) -> Result<Option<ValidReason>, AllocError>
    ensures { IfOk result (λ r. r ≡ least (besides_limits
        (instance_def_broken (own_types component.now) next
        (map declaration_tree declarations.now)))) }
{
    least_of_both();
    instances_are_sketched();
    let mut sketching = Sketching::new(alloc, next);
    let declared = sketching.declare_all(alloc, component, declarations)?;
    let named = item_names_fault(alloc, &sketching.items)?;
    Ok(lesser(declared, named))
}
