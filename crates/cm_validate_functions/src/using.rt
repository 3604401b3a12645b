//! The allocators of lowers and the destructors of resources.

ghost use Rattle.std.specs.Prelude.{◌≡◌, IfOk, List, length, map};
ghost use Rattle.cm_names.specs.Keys.{key_view};
ghost use Rattle.cm_types.specs.Types.{FuncTy};
ghost use Rattle.cm_validate_items.specs.Ranges.{resource_def};
ghost use Rattle.cm_validate_spaces.specs.Checked.{spaces_in};
ghost use Rattle.cm_validate_spaces.specs.Made.{core_func_def};
ghost use Rattle.cm_validate_functions.specs.Tables.{allocator_key, destructor_key};
ghost use Rattle.cm_validate_functions.specs.Used.{destructor_in, lower_allocator};

use crate::leading::func_key;
use crate::options::realloc;
use cm_names::Keys;
use cm_validate_items::Resource;
use cm_validate_spaces::{Checked, CoreFuncEntry, MadeFunc};
use std::alloc::{AllocError, Global};

/// The allocators of lowers by core function, and the destructors of resources by number.
#[derive(Drop)]
pub(crate) struct Uses {
    allocators: Keys<'static>,
    destructors: Keys<'static>,
}

/// The allocator of a lower, if it is one.
fn lower_allocator(func: CoreFuncEntry<'_>) -> Option<u32>
    ensures { (funcs : List FuncTy) → result ≡ lower_allocator (core_func_def funcs func.entry) }
{
    match func {
        CoreFuncEntry::Made(MadeFunc::Lowered { options, .. }) => realloc(options),
        _ => None,
    }
}

/// The destructor of a resource, if the component defines it with one.
fn destructor(resource: Resource) -> Option<u32>
    ensures { result ≡ destructor_in (resource_def resource) }
{
    match resource {
        Resource::Defined { destructor } => destructor,
        Resource::Brought { .. } => None,
    }
}

/// The allocators of lowers, each at the place of its core function.
#[tactic(auto, using(crate::proofs::KeyLaws::index_laws))]
fn allocators(
    alloc: Global,
    checked: &Checked<'_>,
    count: u32,
) -> Result<Vec<(usize, &'static str)>, AllocError>
    requires { count ≡ length (spaces_in checked.now).core_funcs }
    ensures { IfOk result (λ v. map key_view v.items
        ≡ map allocator_key (spaces_in checked.now).core_funcs) }
{
    let mut keys = Vec::with_capacity(alloc, count as usize)?;
    for index in 0..count {
        let Some(func) = checked.core(index) else {
            unreachable!()
        };
        keys.push(func_key(lower_allocator(func)))?;
    }
    Ok(keys)
}

/// The destructors of resources, each at the place of its resource.
#[tactic(auto, using(crate::proofs::KeyLaws::index_laws))]
fn destructors(
    alloc: Global,
    checked: &Checked<'_>,
) -> Result<Vec<(usize, &'static str)>, AllocError>
    ensures { IfOk result (λ v. map key_view v.items
        ≡ map destructor_key (spaces_in checked.now).resources) }
{
    let mut keys = Vec::new(alloc);
    for number in 0..u64::MAX {
        let Some(resource) = checked.resource(number) else {
            return Ok(keys);
        };
        keys.push(func_key(destructor(resource)))?;
    }
    Err(AllocError)
}

impl Uses {
    ghost use Rattle.cm_validate_model.specs.Spaces.{Spaces};
    ghost use Rattle.cm_validate_functions.specs.Kept.{AreUsesOf};
    ghost use Rattle.cm_validate_functions.specs.Used.{destroyed_by, lower_allocating};

    /// Those of a component that has so many core functions.
    pub(crate) fn of(alloc: Global, checked: &Checked<'_>, count: u32) -> Result<Uses, AllocError>
        requires { count ≡ length (spaces_in checked.now).core_funcs }
        ensures { IfOk result (AreUsesOf (spaces_in checked.now)) }
    {
        let allocators = Keys::new(alloc, allocators(alloc, checked, count)?)?;
        let destructors = Keys::new(alloc, destructors(alloc, checked)?)?;
        Ok(Uses {
            allocators,
            destructors,
        })
    }

    /// The first core function whose lower has memory allocated by a core function.
    pub(crate) fn allocating(&self, func: u32) -> Option<usize>
        ensures { (s : Spaces) → AreUsesOf s self.now → result ≡ lower_allocating s func }
    {
        self.allocators.find(func as usize, "")
    }

    /// The number of the first resource whose destructor a core function is.
    pub(crate) fn destroying(&self, func: u32) -> Option<usize>
        ensures { (s : Spaces) → AreUsesOf s self.now → result ≡ destroyed_by s func }
    {
        self.destructors.find(func as usize, "")
    }
}
