//! The core values that a lowered function is called with.

ghost use Rattle.std.specs.Prelude.{◌≡◌, IfNone, IfSome};
ghost use Rattle.cm_machine_model.specs.Plan.{Link as RulesLink, taken_kinds};
ghost use Rattle.cm_machine_model.specs.Step.{AreOf, arg_slots, result_place};
ghost use Rattle.cm_machine_parts.specs.Links.{IsLinkOf};

use crate::link::kinds_of;
use cm_abi::Way;
use cm_machine_parts::{Link, are_of, one_i32};
use cm_types::CoreValue;

/// What a lowered function is called with: the core values that pass its parameters, and the place
/// that it is given for its result; 0 where the result goes in core values.
#[derive(Clone, Copy)]
pub(crate) struct Arguments<'a> {
    pub(crate) slots: &'a [CoreValue],
    pub(crate) result_at: u32,
}

/// The arguments of a lowered function, or `None` where the core values are not of its kinds.
pub(crate) fn split_arguments<'a>(link: &Link, args: &'a [CoreValue]) -> Option<Arguments<'a>>
    ensures some { (l : RulesLink) → IsLinkOf l link.now → IfSome result (λ a.
        AreOf (taken_kinds l) args.now × (a.slots.now ≡ arg_slots l args.now)
        × (a.result_at ≡ result_place l args.now)) }
    ensures none { (l : RulesLink) → IsLinkOf l link.now
        → IfNone result (AreOf (taken_kinds l) args.now → ⊥) }
{
    let kinds = kinds_of(link, Way::Params);
    let count = kinds.len();
    if args.len() < count {
        return None;
    }
    let (slots, behind) = args.split_at(count);
    if !are_of(kinds, slots) {
        return None;
    }
    if link.types.has_pointer {
        match one_i32(behind) {
            Some(result_at) => Some(Arguments { slots, result_at }),
            None => None,
        }
    } else if behind.is_empty() {
        Some(Arguments {
            slots,
            result_at: 0,
        })
    } else {
        None
    }
}
