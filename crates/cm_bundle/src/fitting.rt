//! Whether a front imports what stands for it in a set.

ghost use Rattle.std.specs.Prelude.{◌≡◌, ◌↔◌, IsTrue, IfOk, map};
ghost use Rattle.cm_match.specs.Linked.{set_in};
ghost use Rattle.cm_bundle.specs.Bundled.{FrontFits};
ghost use Rattle.cm_bundle.specs.Trees.{group_tree, supply_tree};

use crate::form::{ImportGroup, MAX_PARTS, Supply};
use crate::front_items::supplies_of;
use crate::fronts::are_groups;
use crate::set_supplies::exports_of;
use crate::supplies::sort_code;
use cm_match::Linked;
use std::alloc::{AllocError, Global};

/// Whether there is no front, or one that imports what component 0 exports.
pub fn front_fits(
    alloc: Global,
    linked: &Linked<'_>,
    front: &[ImportGroup<'_>],
) -> Result<bool, AllocError>
    ensures { IfOk result (λ b.
        IsTrue b ↔ FrontFits (set_in linked.now) (map group_tree front.now)) }
{
    if front.is_empty() {
        return Ok(true);
    }
    if front.len() > MAX_PARTS || !are_groups(alloc, front)? {
        return Ok(false);
    }
    let imports = supplies_of(alloc, front)?;
    let exports = exports_of(alloc, linked, 0)?;
    Ok(are_same(&imports, &exports))
}

/// Whether these are passed on alike.
fn are_same(one: &[Supply<'_>], other: &[Supply<'_>]) -> bool
    ensures { IsTrue result ↔ (map supply_tree one.now ≡ map supply_tree other.now) }
{
    if one.len() != other.len() {
        return false;
    }
    for number in 0..one.len() {
        if !is_same(&one[number], &other[number]) {
            return false;
        }
    }
    true
}

fn is_same(one: &Supply<'_>, other: &Supply<'_>) -> bool
    ensures { IsTrue result ↔ (supply_tree one.now ≡ supply_tree other.now) }
{
    let (a, b) = (one.export, other.export);
    one.name == other.name
        && a.part == b.part
        && a.name == b.name
        && sort_code(a.sort) == sort_code(b.sort)
}
