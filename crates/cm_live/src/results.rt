//! Where callers want results that go by memory.

ghost use Rattle.std.specs.Prelude.{◌≡◌, Some};
ghost use Rattle.cm_machine.specs.cm_machine_model.Plan.{Link as PlannedLink, Plan};
ghost use Rattle.cm_machine.specs.cm_machine_model.Plan.{core_func_at, lowered};
ghost use Rattle.cm_machine_links.specs.Planned.{ArePlanned};
ghost use Rattle.cm_machine_parts.specs.Links.{IsLinkOf};
ghost use Rattle.cm_live.specs.Calls.{place_by, place_by_move};

use crate::goings_on::number_at;
use cm_abi_model::Region;
use cm_machine::Move;
use cm_machine_links::{CoreFunc, Links};
use cm_machine_parts::Link;
use cm_types::CoreValue;

/// The bytes where a call of a lowered function with these core values wants its result, which are
/// told behind its arguments; `None` where that does not go by memory (CanonicalABI.md,
/// "Flattening").
fn place_of(link: &Link, args: &[CoreValue]) -> Option<Region>
    ensures { (l : PlannedLink) → IsLinkOf l link.now
        → result ≡ place_by (Some (lowered l)) args.now }
{
    if link.types.has_pointer {
        Some(Region {
            at: number_at(args, link.types.params.kinds.len()),
            size: link.types.results.layout.head.size,
        })
    } else {
        None
    }
}

/// The bytes where an instance wants the result of a core function that it calls with these core
/// values; `None` where the result does not go by memory, or there is no such core function.
fn wanted(links: &Links, instance: u32, func: u32, args: &[CoreValue]) -> Option<Region>
    ensures { (p : Plan) → ArePlanned p links.now
        → result ≡ place_by (core_func_at p instance func) args.now }
{
    match links.get(instance, func) {
        Some(CoreFunc::Lowered(link)) => place_of(link, args),
        Some(
            CoreFunc::Guest | CoreFunc::Makes(_) | CoreFunc::Drops { .. } | CoreFunc::Represents(_),
        )
        | None => None,
    }
}

/// The bytes where an instance wants the result of a call that it makes; `None` where its move is
/// none, or the result does not go by memory.
pub(crate) fn wanted_by(links: &Links, instance: u32, made: &Move) -> Option<Region>
    ensures { (p : Plan) → ArePlanned p links.now
        → result ≡ place_by_move p instance made.now }
{
    match made {
        Move::Call { func, args } => wanted(links, instance, *func, args),
        Move::Return { .. } | Move::Write { .. } | Move::Grow { .. } | Move::Unreachable => None,
    }
}
