//! Lowers.

ghost use Rattle.std.specs.Prelude.{◌≡◌, ℕ, IfOk, OnErr, slice_get};
ghost use Rattle.cm_binary_model.specs.Trees.{lower};
ghost use Rattle.cm_types_arena.specs.Placed.{placed_func};
ghost use Rattle.cm_validate_model.specs.Definitions.{CoreFuncDef};
ghost use Rattle.cm_validate_model.specs.Items.{canon_item};
ghost use Rattle.cm_validate_model.specs.Options.{lower_type_broken, no_post_return_broken};
ghost use Rattle.cm_validate_model.specs.Reasons.{found, least};
ghost use Rattle.cm_validate_model.specs.Rules.{broken, lowered_broken};
ghost use Rattle.cm_validate_model.specs.Spaces.{Spaces};
ghost use Rattle.cm_validate_core.specs.CoreSpaces.{IsCoreOf, Stays, made_count};
ghost use Rattle.cm_validate_entries.specs.ComponentSpaces.{IsComponentOf};
ghost use Rattle.cm_validate_entries.specs.Entries.{func_def};
ghost use Rattle.cm_validate_canons.specs.Spaces.{Answers};
ghost use Rattle.cm_validate_canons.specs.Types.{AreLaid, funcs_in, types_in};

use crate::FuncPassing;
use crate::needs::lower_type_fault;
use crate::options::have_post_return;
use crate::types::LaidTypes;
use cm_binary_model::CanonOption;
use cm_types_arena::Placed;
use cm_validate_core::{CoreSpaces, broken_unless, lesser};
use cm_validate_entries::laws::{others_add_nothing, types_after};
use cm_validate_entries::{ComponentSpaces, FuncEntry};
use cm_validate_model::ValidReason;
use cm_validate_model::laws::least_of_both;
use std::alloc::AllocError;

fn type_fault(types: &LaidTypes<'_>, ty: Placed, options: &[CanonOption]) -> Option<ValidReason>
    requires { AreLaid types.now }
    ensures { result ≡ least (lower_type_broken options.now (placed_func (funcs_in types.now) ty)) }
{
    lower_type_fault(FuncPassing::of(types.arena, types.layouts, ty), options)
}

/// Why a function that is lowered is refused.
fn lowered_fault(
    types: &LaidTypes<'_>,
    func: FuncEntry<'_>,
    options: &[CanonOption],
) -> Option<ValidReason>
    requires { AreLaid types.now }
    ensures { result
        ≡ least (lowered_broken options.now (func_def (funcs_in types.now) func.entry)) }
{
    least_of_both();
    match func {
        FuncEntry::Imported { ty, .. } => type_fault(types, ty, options),
        FuncEntry::Lifted { ty, .. } => {
            lesser(
                Some(ValidReason::NotImported),
                type_fault(types, ty, options),
            )
        }
    }
}

/// Why the index of a function that is lowered is refused.
fn func_fault(
    component: &ComponentSpaces<'_>,
    types: &LaidTypes<'_>,
    func: u32,
    options: &[CanonOption],
) -> Option<ValidReason>
    requires { AreLaid types.now }
    ensures { (s : Spaces) → IsComponentOf (types_in types.now) (funcs_in types.now) component.now s
        → result ≡ least (found (lowered_broken options.now) (slice_get s.funcs func)) }
{
    match component.func(func) {
        None => Some(ValidReason::NoSuchIndex),
        Some(func) => lowered_fault(types, func, options),
    }
}

fn post_return_fault(options: &[CanonOption]) -> Option<ValidReason>
    ensures { result ≡ least (no_post_return_broken options.now) }
{
    broken_unless(!have_post_return(options), ValidReason::OptionNotAllowed)
}

/// Why a lower is refused: the reason with the smallest number, or none. `NoSuchIndex` comes where
/// the function or what an option names is not there, `NeedsMemory` where values stand in memory or
/// an allocator is named and no memory is, `NeedsRealloc` where the result holds a string or a list
/// and no allocator is named, `OptionTwice` where two options are of one kind, `OptionNotAllowed`
/// where a function is named that is called when a result was read, `NotGuestFunction` where a
/// canonical definition made a core function that an option names, `SecondMemory` where the memory
/// is another than the first that an earlier item's option names, `NotImported` where the component
/// itself lifts the function, and `StoresLatin1` where the result holds a string whose encoding is
/// read alone (Explainer.md, "Canonical Definitions").
///
/// It costs its options; of the type only what the arena knows of it is looked at.
pub fn lower_fault(
    core: &CoreSpaces<'_>,
    component: &ComponentSpaces<'_>,
    types: &LaidTypes<'_>,
    func: u32,
    options: &[CanonOption],
) -> Option<ValidReason>
    requires { AreLaid types.now }
    ensures { (made : ℕ → CoreFuncDef) (s : Spaces) → IsCoreOf made core.now s
        → IsComponentOf (types_in types.now) (funcs_in types.now) component.now s
        → result ≡ least (broken s (canon_item (lower func options.now))) }
{
    least_of_both();
    let lowered = func_fault(component, types, func, options);
    let named = core.options_fault(options);
    lesser(lesser(lowered, named), post_return_fault(options))
}

/// Adds a lower: the function of an index as the core function of the next number, with options.
/// Answers why it is refused, as `lower_fault` does; the spaces then stay as they are. So they do
/// with `AllocError`, which comes where there is no memory.
pub fn add_lower(
    core: &mut CoreSpaces<'_>,
    component: &ComponentSpaces<'_>,
    types: &LaidTypes<'_>,
    func: u32,
    options: &[CanonOption],
) -> Result<Option<ValidReason>, AllocError>
    requires { AreLaid types.now }
    ensures answer { IfOk result (λ r. Answers types.now (lower func options.now)
        core.old component.now r core.new component.now) }
    ensures kept { OnErr result (Stays core.old core.new) }
    ensures uncounted { OnErr result (made_count core.new ≡ made_count core.old) }
{
    types_after();
    others_add_nothing();
    let fault = lower_fault(core, component, types, func, options);
    if fault.is_some() {
        return Ok(fault);
    }
    core.add_lower(options)?;
    Ok(None)
}
