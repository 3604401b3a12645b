//! Whether components can be linked.

ghost use Rattle.std.specs.Prelude.{◌≡◌, ◌⊎◌, ◌<◌, ◌≤◌, [], length, IfErr, IfOk, IsErrOf};
ghost use Rattle.cm_match_model.specs.declared.fault.LinkReason.TheVariants as reason;
ghost use Rattle.cm_match_model.specs.declared.plan.TheConstants.{MAX_COMPONENTS};
ghost use Rattle.cm_match_model.specs.Links.{CanBeLinked, IsLinkFault};
ghost use Rattle.cm_match_serving.specs.Candidates.{AreCandidates};
ghost use Rattle.cm_match_serving.specs.Sets.{set_by, set_of};
ghost use Rattle.cm_match.specs.Before.{AreServedBefore};
ghost use Rattle.cm_match.specs.Linked.{components_in, set_in};
ghost use Rattle.cm_match.specs.Walks.{HasServed, IsWalkFault};

use crate::linked::Linked;
use crate::walk::walk;
use cm_match_model::laws::sets_have_one_answer;
use cm_match_model::{Candidate, Choices, LinkFault, LinkReason, MAX_COMPONENTS, PlanLine};
use cm_match_serving::{Checked, Linking, candidates_of};
use std::alloc::{AllocError, Global};

fn set_fault(reason: LinkReason) -> LinkFault
    ensures { result ≡ record { component = 0; import = 0; reason = reason } }
{
    LinkFault {
        component: 0,
        import: 0,
        reason,
    }
}

/// The plan of these components with what is chosen for their imports and the candidates of those,
/// or the first import that is not served.
fn plan_of(
    alloc: Global,
    components: &[Checked<'_>],
    choices: &Choices,
    candidates: &[Vec<Candidate>],
) -> Result<Vec<PlanLine>, LinkFault>
    requires found { AreCandidates (set_by components.now choices.now) candidates.now }
    requires few { length components.now ≤ MAX_COMPONENTS }
    ensures served { IfOk result (λ plan. HasServed (set_by components.now choices.now)
        (length components.now) 0 plan.items) }
    ensures fault { IfErr result (λ f. IsWalkFault (set_by components.now choices.now) f) }
{
    walk(alloc, &Linking::new(components, choices, candidates))
}

/// The components as a linked set, as [`link`] makes it, whose imports see what these choices say:
/// where a link is chosen for an import, that export alone, and else the exports that are seen of
/// the groups before its component's (how components are linked is this project's own choice).
///
/// A chosen link only narrows what an import sees: its export has to be of a component before, and
/// to fit by name, else the fault is `NoProvider` at that import, and to serve it by type. The
/// faults are those of [`link`]; `TwoProviders` comes where several exports fit that the import
/// sees. A choice for a component or an import that is not there changes nothing.
pub fn link_by<'a>(
    alloc: Global,
    components: Vec<Checked<'a>>,
    choices: Choices,
) -> Result<Linked<'a>, LinkFault>
    ensures components { IfOk result (λ l. components_in l ≡ components.entry.items) }
    ensures set { IfOk result (λ l. set_in l ≡ set_by components.entry.items choices) }
    ensures accepted { IfOk result (λ _. CanBeLinked (set_by components.entry.items choices)) }
    ensures complete { CanBeLinked (set_by components.entry.items choices)
        → IfErr result (λ f. f.reason ≡ reason.Memory) }
    ensures refused { IfErr result (λ f. ((f.reason ≡ reason.Memory)
        × AreServedBefore (set_by components.entry.items choices) f.component f.import)
        ⊎ IsLinkFault (set_by components.entry.items choices) f.component f.import f.reason) }
    ensures empty { components.entry.items ≡ []
        → IsErrOf result (record { component = 0; import = 0; reason = reason.Empty }) }
    ensures too_many { MAX_COMPONENTS < length components.entry.items
        → IsErrOf result (record { component = 0; import = 0; reason = reason.TooMany }) }
{
    sets_have_one_answer();
    if components.is_empty() {
        return Err(set_fault(LinkReason::Empty));
    }
    if components.len() > MAX_COMPONENTS {
        return Err(set_fault(LinkReason::TooMany));
    }
    let Ok(candidates) = candidates_of(alloc, &components, &choices) else {
        return Err(set_fault(LinkReason::Memory));
    };
    match plan_of(alloc, &components, &choices, &candidates) {
        Ok(plan) => Ok(Linked {
            components,
            choices,
            candidates,
            plan,
        }),
        Err(fault) => Err(fault),
    }
}

/// The components as a linked set.
///
/// Components are taken in order, and the imports of each in order. An import is linked to the only
/// export of a component before that has its name, or its interface in a compatible version; a
/// function is served by one of the same type, and an instance by one that has each wanted item: a
/// function and a value type of the same type, a resource that the import brings by any resource,
/// and one that is said to be another by that one (how components are linked is this project's own
/// choice). A component may export more than others import.
///
/// A set that can't be linked is refused with its first fault, and the components are dropped:
///
/// - `Empty` where there is no component, `TooMany` where there are more than `MAX_COMPONENTS`,
///   both at component 0 and import 0; no memory is wanted before;
/// - at the first import that is not served: `NoProvider` where no export before may serve it,
///   `TwoProviders` where several may, and else, by the first item that is not served,
///   `MissingExport` where nothing has its name, `DifferentResource` where a resource is another
///   one than the import says, and `DifferentType` where what is there is of another type or sort;
/// - `Memory` where there is no memory: the imports before its place are served. It may come in the
///   place of any fault at or behind that place.
pub fn link<'a>(alloc: Global, components: Vec<Checked<'a>>) -> Result<Linked<'a>, LinkFault>
    ensures components { IfOk result (λ l. components_in l ≡ components.entry.items) }
    ensures set { IfOk result (λ l. set_in l ≡ set_of components.entry.items) }
    ensures accepted { IfOk result (λ _. CanBeLinked (set_of components.entry.items)) }
    ensures complete { CanBeLinked (set_of components.entry.items)
        → IfErr result (λ f. f.reason ≡ reason.Memory) }
    ensures refused { IfErr result (λ f. ((f.reason ≡ reason.Memory)
        × AreServedBefore (set_of components.entry.items) f.component f.import)
        ⊎ IsLinkFault (set_of components.entry.items) f.component f.import f.reason) }
    ensures empty { components.entry.items ≡ []
        → IsErrOf result (record { component = 0; import = 0; reason = reason.Empty }) }
    ensures too_many { MAX_COMPONENTS < length components.entry.items
        → IsErrOf result (record { component = 0; import = 0; reason = reason.TooMany }) }
{
    link_by(alloc, components, Choices::none(alloc))
}
