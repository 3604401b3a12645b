//! What the core functions of a linked set's instances stand for.

ghost use Rattle.std.specs.Prelude.{◌≡◌, ◌<◌, IfOk, OnOk, Some, is_some, length, map, slice_get};
ghost use Rattle.std.specs.Prelude.{true};
ghost use Rattle.cm_types.specs.Types.{FuncTy};
ghost use Rattle.cm_types_arena.specs.TypeDefs.{func_at};
ghost use Rattle.cm_validate_model.specs.Definitions.{CoreFuncDef, lowered};
ghost use Rattle.cm_validate_spaces.specs.Checked.{funcs_in, spaces_in};
ghost use Rattle.cm_validate_spaces.specs.Made.{made_def};
ghost use Rattle.cm_match.specs.Linked.{components_in, set_in};
ghost use Rattle.cm_match_serving.specs.Sets.{funcs_at};
ghost use Rattle.cm_match_model.specs.Imports.{links_of};
ghost use Rattle.cm_match_model.specs.Serving.{standing};
ghost use Rattle.cm_match_model.specs.Targets.{targets_of};
ghost use Rattle.cm_machine_links.specs.Planning.{core_func_of, origin_in};
ghost use Rattle.cm_machine_links.specs.Standing.{AreTypesOf, IsCallTypes, IsSpelled, Stands};

use crate::options::{lift_lower_options, post_return};
use crate::origins::destructor;
use cm_binary_model::CanonOption;
use cm_machine_parts::{CallTypes, Link};
use cm_match::{Checked, CoreFuncEntry, Linked, MadeFunc};
use cm_types::ResourceId;
use cm_types_arena::laws::what_stays;
use cm_types_arena::placed_laws::unmoved;
use std::alloc::AllocError;
use std::sync::Arc;

/// What a core function of an instance stands for.
#[derive(Drop)]
pub enum CoreFunc {
    /// A function of a core module of the instance's own.
    Guest,
    /// A lowered function: a call of another instance (CanonicalABI.md, `canon lower`).
    Lowered(Link),
    /// Makes a handle of a resource (`canon resource.new`).
    Makes(ResourceId),
    /// Drops a handle of a resource (`canon resource.drop`): an owned one is destroyed by the
    /// destructor, a core function of the instance that defines the resource, if it has one.
    Drops {
        resource: ResourceId,
        destructor: Option<u32>,
    },
    /// Tells what a handle of a resource represents (`canon resource.rep`).
    Represents(ResourceId),
}

/// What the function of a place in the arena of a component passes, shared.
fn share_types(
    linked: &Linked<'_>,
    types: &[Vec<Arc<CallTypes>>],
    component: u32,
    place: usize,
) -> Result<Arc<CallTypes>, AllocError>
    requires known { AreTypesOf (set_in linked.now) 0 (components_in linked.now)
        (map (λ v. v.items) types.now) }
    requires there { place < length (funcs_at (components_in linked.now) component) }
    ensures passes { IfOk result (λ t. IsCallTypes (standing (set_in linked.now) component)
        (func_at (funcs_at (components_in linked.now) component) place) t.value) }
    ensures spelled { OnOk result
        (IsSpelled (func_at (funcs_at (components_in linked.now) component) place)) }
{
    let _linked = linked;
    types[component as usize][place].clone()
}

/// What an import that is lowered with these options, or an item of one, stands for.
fn lowered_func(
    linked: &Linked<'_>,
    types: &[Vec<Arc<CallTypes>>],
    component: u32,
    import: usize,
    item: Option<usize>,
    options: &[CanonOption],
) -> Result<CoreFunc, AllocError>
    requires known { AreTypesOf (set_in linked.now) 0 (components_in linked.now)
        (map (λ v. v.items) types.now) }
    requires there { is_some (targets_of (set_in linked.now).spaces (links_of (set_in linked.now))
        component import item) ≡ true }
    ensures { IfOk result (λ f. (ty : FuncTy)
        → Stands (set_in linked.now) component (lowered import item ty options.now) f) }
{
    unmoved();
    what_stays();
    let Some(target) = linked.target(component, import, item) else {
        unreachable!()
    };
    let types = share_types(linked, types, target.component, target.ty.place)?;
    Ok(CoreFunc::Lowered(Link {
        instance: target.component,
        func: target.core_func,
        post_return: post_return(target.options),
        caller: lift_lower_options(options),
        callee: lift_lower_options(target.options),
        types,
    }))
}

/// What a resource of a component is in the end: one that stands for something.
fn origin(linked: &Linked<'_>, component: u32, number: u64) -> ResourceId
    requires { is_some (origin_in (set_in linked.now) component number) ≡ true }
    ensures { origin_in (set_in linked.now) component number ≡ Some result }
{
    match linked.resource(component, number) {
        Some(origin) => origin,
        None => unreachable!(),
    }
}

/// What a core function that a canonical definition of a component made stands for.
fn made_func(
    linked: &Linked<'_>,
    types: &[Vec<Arc<CallTypes>>],
    component: u32,
    checked: &Checked<'_>,
    made: &MadeFunc<'_>,
) -> Result<CoreFunc, AllocError>
    requires known { AreTypesOf (set_in linked.now) 0 (components_in linked.now)
        (map (λ v. v.items) types.now) }
    requires stands { is_some (core_func_of (set_in linked.now) component
        (made_def (funcs_in checked.now) made.now)) ≡ true }
    ensures { IfOk result (λ f.
        Stands (set_in linked.now) component (made_def (funcs_in checked.now) made.now) f) }
{
    let _checked = checked;
    match made {
        MadeFunc::Lowered {
            import,
            item,
            options,
            ..
        } => lowered_func(linked, types, component, *import, *item, options),
        MadeFunc::Making(number) => Ok(CoreFunc::Makes(origin(linked, component, *number))),
        MadeFunc::Dropping(number) => {
            let resource = origin(linked, component, *number);
            Ok(CoreFunc::Drops {
                resource,
                destructor: destructor(linked, resource),
            })
        }
        MadeFunc::Reading(number) => {
            Ok(CoreFunc::Represents(origin(linked, component, *number)))
        }
    }
}

/// What the core function of an index of a component stands for.
pub(crate) fn core_func(
    linked: &Linked<'_>,
    types: &[Vec<Arc<CallTypes>>],
    component: u32,
    checked: &Checked<'_>,
    index: u32,
) -> Result<CoreFunc, AllocError>
    requires known { AreTypesOf (set_in linked.now) 0 (components_in linked.now)
        (map (λ v. v.items) types.now) }
    requires stands { (d : CoreFuncDef)
        × (slice_get (spaces_in checked.now).core_funcs index ≡ Some d)
        × (is_some (core_func_of (set_in linked.now) component d) ≡ true) }
    ensures { IfOk result (λ f. (d : CoreFuncDef)
        → slice_get (spaces_in checked.now).core_funcs index ≡ Some d
        → Stands (set_in linked.now) component d f) }
{
    match checked.core(index) {
        None => unreachable!(),
        Some(CoreFuncEntry::Guest(_)) => Ok(CoreFunc::Guest),
        Some(CoreFuncEntry::Made(made)) => made_func(linked, types, component, checked, &made),
    }
}
