//! Lifts.

ghost use Rattle.std.specs.Prelude.{◌≡◌, ℕ, IfOk, OnErr};
ghost use Rattle.cm_binary_model.specs.Trees.{lift};
ghost use Rattle.cm_validate_model.specs.Definitions.{CoreFuncDef};
ghost use Rattle.cm_validate_model.specs.Items.{canon_item};
ghost use Rattle.cm_validate_model.specs.Reasons.{least};
ghost use Rattle.cm_validate_model.specs.Rules.{broken};
ghost use Rattle.cm_validate_model.specs.Spaces.{Spaces};
ghost use Rattle.cm_validate_core.specs.CoreSpaces.{IsCoreOf, Stays as CoreStays, made_count};
ghost use Rattle.cm_validate_entries.specs.ComponentSpaces.{AreTypesOf, Stays};
ghost use Rattle.cm_validate_canons.specs.Spaces.{Answers};
ghost use Rattle.cm_validate_canons.specs.Types.{AreLaid, funcs_in, types_in};

use crate::FuncPassing;
use crate::needs::lift_type_fault;
use crate::types::LaidTypes;
use cm_binary_model::CanonOption;
use cm_validate_core::{CoreSpaces, lesser};
use cm_validate_entries::laws::types_after;
use cm_validate_entries::{ComponentSpaces, func_type_at};
use cm_validate_model::ValidReason;
use cm_validate_model::laws::least_of_both;
use std::alloc::AllocError;

/// Why a lift is refused: the reason with the smallest number, or none. `NoSuchIndex` comes where
/// the core function, the type or what an option names is not there, `WrongSort` where the type is
/// of another sort, `NeedsMemory` where values stand in memory or an allocator is named and no
/// memory is, `NeedsRealloc` where parameters stand in memory and no allocator is named,
/// `OptionTwice` where two options are of one kind, `NotGuestFunction` where a canonical definition
/// made a core function that it names, `SecondMemory` where its memory is another than the first
/// that an earlier item's option names, and `StoresLatin1` where a parameter holds a string whose
/// encoding is read alone (Explainer.md, "Canonical Definitions").
///
/// It costs its options; of the type only what the arena knows of it is looked at.
pub fn lift_fault(
    core: &CoreSpaces<'_>,
    types: &LaidTypes<'_>,
    core_func: u32,
    options: &[CanonOption],
    ty: u32,
) -> Option<ValidReason>
    requires { AreLaid types.now }
    ensures { (made : ℕ → CoreFuncDef) (s : Spaces) → IsCoreOf made core.now s
        → AreTypesOf (types_in types.now) (funcs_in types.now) types.now.entries.now s
        → result ≡ least (broken s (canon_item (lift core_func options.now ty))) }
{
    least_of_both();
    let guest = core.guest_fault(core_func);
    let named = core.options_fault(options);
    match func_type_at(types.entries, ty) {
        Err(reason) => lesser(lesser(guest, Some(reason)), named),
        Ok(ty) => {
            let passing = FuncPassing::of(types.arena, types.layouts, ty);
            lesser(lesser(guest, named), lift_type_fault(passing, options))
        }
    }
}

/// Adds a lift: the core function of an index as a function of the type of an index, with options,
/// which are borrowed. Answers why it is refused, as `lift_fault` does; the spaces then stay as
/// they are. So they do with `AllocError`, which comes where there is no memory.
pub fn add_lift<'a>(
    core: &mut CoreSpaces<'a>,
    component: &mut ComponentSpaces<'a>,
    types: &LaidTypes<'_>,
    core_func: u32,
    options: &'a [CanonOption],
    ty: u32,
) -> Result<Option<ValidReason>, AllocError>
    requires { AreLaid types.now }
    ensures answer { IfOk result (λ r. Answers types.now (lift core_func options.now ty)
        core.old component.old r core.new component.new) }
    ensures core_kept { OnErr result (CoreStays core.old core.new) }
    ensures uncounted { OnErr result (made_count core.new ≡ made_count core.old) }
    ensures kept { OnErr result (Stays component.old component.new) }
{
    least_of_both();
    types_after();
    let fault = lift_fault(core, types, core_func, options, ty);
    if fault.is_some() {
        return Ok(fault);
    }
    match func_type_at(types.entries, ty) {
        Err(reason) => Ok(Some(reason)),
        Ok(ty) => {
            component.add_lift(core_func, options, ty)?;
            core.add_lift(options);
            Ok(None)
        }
    }
}
