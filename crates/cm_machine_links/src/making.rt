//! The links of a linked set, made once.

ghost use Rattle.std.specs.Prelude.{◌≡◌, IfOk, is_some, length, map, true};
ghost use Rattle.std.specs.List.{AllByRecursion};
ghost use Rattle.cm_validate_spaces.specs.Checked.{spaces_in};
ghost use Rattle.cm_match.specs.Linked.{components_in, set_in};
ghost use Rattle.cm_machine_model.specs.Plan.{Plan};
ghost use Rattle.cm_machine_model.specs.Plans.{IsPlan};
ghost use Rattle.cm_machine_links.specs.Planned.{ArePlanned};
ghost use Rattle.cm_machine_links.specs.Planning.{IsPlanOf, core_func_of};
ghost use Rattle.cm_machine_links.specs.Standing.{AllStand, AreTypesOf, RowsStand};

use crate::core_funcs::{CoreFunc, core_func};
use crate::laws::core_functions_stand;
use crate::links::Links;
use crate::origins::Origins;
use crate::passing::call_types;
use cm_machine_parts::CallTypes;
use cm_match::{Checked, Linked};
use std::alloc::{AllocError, Global};
use std::sync::Arc;

/// How many core functions a component has: fewer than its file has bytes.
fn core_func_count(checked: &Checked<'_>) -> u32
    ensures { result ≡ length (spaces_in checked.now).core_funcs }
{
    // Read first, so that the check knows how many items there are.
    let _ = checked.component().sections();
    checked.core_func_count() as u32
}

/// What the function types of each component pass, by place.
fn types_of(alloc: Global, linked: &Linked<'_>) -> Result<Vec<Vec<Arc<CallTypes>>>, AllocError>
    ensures { IfOk result (λ ts. AreTypesOf (set_in linked.now) 0 (components_in linked.now)
        (map (λ v. v.items) ts.items)) }
{
    let components = linked.components();
    let mut types = Vec::with_capacity(alloc, components.len())?;
    for (component, checked) in components.iter().enumerate() {
        let origins = Origins {
            linked,
            component: component as u32,
        };
        types.push(call_types(alloc, checked.types(), &origins)?)?;
    }
    Ok(types)
}

/// What the core functions of a component stand for.
fn core_funcs(
    alloc: Global,
    linked: &Linked<'_>,
    types: &[Vec<Arc<CallTypes>>],
    component: u32,
    checked: &Checked<'_>,
) -> Result<Vec<CoreFunc>, AllocError>
    requires known { AreTypesOf (set_in linked.now) 0 (components_in linked.now)
        (map (λ v. v.items) types.now) }
    requires stand { AllByRecursion
        (λ d. is_some (core_func_of (set_in linked.now) component d) ≡ true)
        (spaces_in checked.now).core_funcs }
    ensures { IfOk result (λ fs. AllStand (set_in linked.now) component
        (spaces_in checked.now).core_funcs fs.items) }
{
    let count = core_func_count(checked);
    let mut functions = Vec::new(alloc);
    for index in 0..count {
        functions.push(core_func(linked, types, component, checked, index)?)?;
    }
    Ok(functions)
}

/// What the core functions of each component stand for.
fn rows_of(
    alloc: Global,
    linked: &Linked<'_>,
    types: &[Vec<Arc<CallTypes>>],
) -> Result<Vec<Vec<CoreFunc>>, AllocError>
    requires known { AreTypesOf (set_in linked.now) 0 (components_in linked.now)
        (map (λ v. v.items) types.now) }
    ensures { IfOk result (λ rows. RowsStand (set_in linked.now) 0 (set_in linked.now).spaces
        (map (λ v. v.items) rows.items)) }
{
    core_functions_stand(linked);
    let components = linked.components();
    let mut rows = Vec::with_capacity(alloc, components.len())?;
    for (component, checked) in components.iter().enumerate() {
        rows.push(core_funcs(alloc, linked, types, component as u32, checked)?)?;
    }
    Ok(rows)
}

/// The links of a linked set: what each core function of each instance stands for. They cost what
/// the files of the set say: what a function passes is made once for each type of a function, and
/// shared by all links of the type.
///
/// They stand for the plan of the set, of which holds what `validate` and `link` make sure of.
/// `AllocError` comes where there is no memory.
pub fn links_of(alloc: Global, linked: &Linked<'_>) -> Result<Links, AllocError>
    ensures { IfOk result (λ links. (p : Plan) × IsPlanOf (set_in linked.now) p × IsPlan p
        × ArePlanned p links) }
{
    core_functions_stand(linked);
    let types = types_of(alloc, linked)?;
    let rows = rows_of(alloc, linked, &types)?;
    Ok(Links { rows })
}
