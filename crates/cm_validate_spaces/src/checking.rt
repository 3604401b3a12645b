//! Whether a component is valid.

ghost use Rattle.std.specs.Prelude.{◌≡◌, ◌⊎◌, IfErr, IfOk};
ghost use Rattle.cm_validate_model.specs.Valid.{IsFaultOf, IsValid};
ghost use Rattle.cm_validate_spaces.specs.Walks.{IsFineBefore};
ghost use Rattle.cm_validate_model.specs.declared.fault.ValidReason.TheVariants as reason;
ghost use Rattle.cm_validate_spaces.specs.Checked.{sections_in};

use crate::checked::Checked;
use crate::walk::index_spaces;
use cm_binary_model::Component;
use cm_validate_model::ValidFault;
use cm_validate_model::laws::components_have_one_answer;
use std::alloc::Global;

/// The component as a valid one.
///
/// A component that is not valid is refused with its first fault (Explainer.md, "Component
/// Definitions"; which fault is the first is this project's own choice): the first section with a
/// faulty item, the first such item there, and of several reasons to refuse it the one with the
/// smallest number. `Memory` comes where there is no memory, at an item before which nothing is
/// wrong; it may come in the place of a fault there or behind. Takes time and memory in proportion
/// to the component, but for a logarithm in names.
pub fn validate<'a>(alloc: Global, component: &'a Component) -> Result<Checked<'a>, ValidFault>
    ensures held { IfOk result (λ c. sections_in c ≡ component.now) }
    ensures accepted { IfOk result (λ _. IsValid component.now) }
    ensures complete { IsValid component.now → IfErr result (λ f. f.reason ≡ reason.Memory) }
    ensures refused { IfErr result (λ f.
        ((f.reason ≡ reason.Memory) × IsFineBefore component.now f.section f.item)
        ⊎ IsFaultOf component.now f.section f.item f.reason) }
{
    components_have_one_answer();
    match index_spaces(alloc, component) {
        Ok(spaces) => Ok(Checked {
            component,
            entries: spaces.into_entries(),
        }),
        Err(fault) => Err(fault),
    }
}
