//! The imports of a set, one after another, to the first that is not served.

ghost use Rattle.std.specs.Prelude.{◌≡◌, ◌<◌, ◌+◌, IfErr, IfOk, OnOk, Some, length, slice_get};
ghost use Rattle.cm_validate_model.specs.Spaces.{Spaces};
ghost use Rattle.cm_match_serving.specs.Linkings.{components_in, set_in};
ghost use Rattle.cm_match.specs.Pairs.{AreJudged};
ghost use Rattle.cm_match.specs.Walks.{AddsLine, HasServed, IsWalkFault, Serves, Stops};

use crate::judged::Judged;
use cm_match_model::{Candidate, LinkFault, LinkReason, PlanLine};
use cm_match_serving::Linking;
use std::alloc::{AllocError, Global};

/// Adds the line of an import that is linked, to its only candidate.
fn add_line(
    linking: &Linking<'_, '_>,
    importer: usize,
    import: usize,
    plan: &mut Vec<PlanLine>,
) -> Result<(), AllocError>
    ensures { OnOk result (AddsLine (set_in linking.now) importer import
        plan.old.items plan.new.items) }
{
    match linking.candidate(importer, import) {
        Some(Candidate::One { component, export }) => plan.push(PlanLine {
            importer,
            import,
            provider: component,
            export,
        })?,
        Some(Candidate::None) | Some(Candidate::Several) | None => {}
    }
    Ok(())
}

/// Adds the line of an import, if it is served.
fn walk_import(
    alloc: Global,
    linking: &Linking<'_, '_>,
    judged: &mut Judged,
    plan: &mut Vec<PlanLine>,
    component: usize,
    import: usize,
) -> Result<(), LinkReason>
    requires { AreJudged linking.now judged.old }
    ensures served { OnOk result (Serves (set_in linking.now) component import
        plan.old.items plan.new.items) }
    ensures stops { IfErr result (λ r. Stops (set_in linking.now) component import r) }
    ensures known { OnOk result (AreJudged linking.now judged.new) }
{
    match judged.import_fault(alloc, linking, component, import) {
        Err(AllocError) => Err(LinkReason::Memory),
        Ok(Some(reason)) => Err(reason),
        Ok(None) => match add_line(linking, component, import, plan) {
            Ok(()) => Ok(()),
            Err(AllocError) => Err(LinkReason::Memory),
        },
    }
}

/// How many imports a component has.
fn import_count(linking: &Linking<'_, '_>, component: usize) -> usize
    ensures { (s : Spaces) → slice_get (set_in linking.now).spaces component ≡ Some s
        → result ≡ length s.imports }
{
    match linking.components().get(component) {
        Some(component) => component.imports().len(),
        None => 0,
    }
}

/// Adds the lines of a component's imports, up to the first that is not served.
fn walk_imports(
    alloc: Global,
    linking: &Linking<'_, '_>,
    judged: &mut Judged,
    plan: &mut Vec<PlanLine>,
    component: usize,
) -> Result<(), LinkFault>
    requires known { AreJudged linking.now judged.old }
    requires there { component < length (components_in linking.now) }
    requires before { HasServed (set_in linking.now) component 0 plan.old.items }
    ensures served { OnOk result (HasServed (set_in linking.now) (component + 1) 0
        plan.new.items) }
    ensures fault { IfErr result (λ f. IsWalkFault (set_in linking.now) f) }
    ensures known { OnOk result (AreJudged linking.now judged.new) }
{
    for import in 0..import_count(linking, component) {
        match walk_import(alloc, linking, judged, plan, component, import) {
            Ok(()) => {}
            Err(reason) => {
                return Err(LinkFault {
                    component,
                    import,
                    reason,
                });
            }
        }
    }
    Ok(())
}

/// Makes room for the lines of a component's imports, and adds them, up to the first that is not
/// served.
fn walk_component(
    alloc: Global,
    linking: &Linking<'_, '_>,
    judged: &mut Judged,
    plan: &mut Vec<PlanLine>,
    component: usize,
) -> Result<(), LinkFault>
    requires known { AreJudged linking.now judged.old }
    requires there { component < length (components_in linking.now) }
    requires before { HasServed (set_in linking.now) component 0 plan.old.items }
    ensures served { OnOk result (HasServed (set_in linking.now) (component + 1) 0
        plan.new.items) }
    ensures fault { IfErr result (λ f. IsWalkFault (set_in linking.now) f) }
    ensures known { OnOk result (AreJudged linking.now judged.new) }
{
    match plan.reserve(import_count(linking, component)) {
        Ok(()) => walk_imports(alloc, linking, judged, plan, component),
        Err(AllocError) => Err(LinkFault {
            component,
            import: 0,
            reason: LinkReason::Memory,
        }),
    }
}

/// The plan of a set, or its first import that is not served.
pub(crate) fn walk(alloc: Global, linking: &Linking<'_, '_>) -> Result<Vec<PlanLine>, LinkFault>
    ensures served { IfOk result (λ plan. HasServed (set_in linking.now)
        (length (components_in linking.now)) 0 plan.items) }
    ensures fault { IfErr result (λ f. IsWalkFault (set_in linking.now) f) }
{
    let count = linking.components().len();
    let Ok(mut judged) = Judged::new(alloc, linking) else {
        return Err(LinkFault {
            component: 0,
            import: 0,
            reason: LinkReason::Memory,
        });
    };
    let mut plan = Vec::new(alloc);
    for component in 0..count {
        walk_component(alloc, linking, &mut judged, &mut plan, component)?;
    }
    Ok(plan)
}
