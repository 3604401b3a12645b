//! Whether the names of types lead to types.

use crate::entry::{Entry, Scope};
use crate::fault::Spot;
use crate::mention::{Mention, Role};
use crate::mentions::mentions_of;
use crate::types::KnownTypes;
use cm_wit_tokens::WitReason;
use std::alloc::Global;

/// The type to which a name of an item leads, if it leads to one.
fn led<'a>(
    types: &KnownTypes<'a>,
    number: usize,
    entry: &Entry<'a>,
    mention: Mention<'a>,
) -> Option<usize> {
    match mention.role {
        Role::Used => types.rows.find(entry.target?, mention.name),
        _ => types.rows.find(number, mention.name),
    }
}

/// Whether a name stands for a type that is declared elsewhere in the text.
fn names_type(mention: Mention<'_>) -> bool {
    matches!(
        mention.role,
        Role::Used | Role::Named | Role::Answered | Role::Borrowed
    )
}

/// What is wrong with a name of an item of the scope of this number.
fn reason_of<'a>(
    types: &KnownTypes<'a>,
    number: usize,
    entry: &Entry<'a>,
    mention: Mention<'a>,
) -> Option<WitReason> {
    if !names_type(mention) {
        return None;
    }
    let Some(place) = led(types, number, entry, mention) else {
        return Some(WitReason::UnknownName);
    };
    match mention.role {
        Role::Borrowed if !types.is_resource(place) => Some(WitReason::UnknownName),
        Role::Answered if types.holds_borrow(place) => Some(WitReason::Unexpected),
        _ => None,
    }
}

/// Checks the names in an item of the scope of this number.
fn check_entry<'a>(
    alloc: Global,
    types: &KnownTypes<'a>,
    number: usize,
    unit: usize,
    entry: &Entry<'a>,
) -> Result<(), Spot> {
    for (name, mention) in mentions_of(alloc, entry)?.iter().enumerate() {
        if let Some(reason) = reason_of(types, number, entry, *mention) {
            return Err(Spot {
                unit,
                left: entry.left,
                name: Some(name),
                reason,
            });
        }
    }
    Ok(())
}

/// Checks the names in the items of a scope.
fn check_scope<'a>(
    alloc: Global,
    types: &KnownTypes<'a>,
    number: usize,
    scope: &Scope<'a>,
) -> Result<(), Spot> {
    for entry in &scope.entries {
        check_entry(alloc, types, number, scope.unit, entry)?;
    }
    Ok(())
}

/// The fault of a type that leads to itself: at its name.
fn cycle_spot<'a>(types: &KnownTypes<'a>, scopes: &[Scope<'a>], place: usize) -> Option<Spot> {
    let row = types.rows.rows.get(place)?;
    let scope = scopes.get(row.scope)?;
    let entry = scope.entries.get(row.entry)?;
    Some(Spot {
        unit: scope.unit,
        left: entry.left,
        name: Some(0),
        reason: WitReason::Cycle,
    })
}

/// Checks that no type leads to itself.
fn check_cycles<'a>(
    alloc: Global,
    types: &KnownTypes<'a>,
    scopes: &[Scope<'a>],
) -> Result<(), Spot> {
    match types.first_on_cycle(alloc, scopes)? {
        Some(place) => match cycle_spot(types, scopes, place) {
            Some(spot) => Err(spot),
            None => Ok(()),
        },
        None => Ok(()),
    }
}

/// Checks that each name of a type leads to one: `UnknownName` comes at a name that leads to none,
/// or in a borrow to no resource; `Unexpected` at one that stands for a result and holds a borrow;
/// then `Cycle` at the name of a type that leads to itself. (WIT.md, "Item: `type`")
pub fn check_types<'a>(
    alloc: Global,
    types: &KnownTypes<'a>,
    scopes: &[Scope<'a>],
) -> Result<(), Spot> {
    for (number, scope) in scopes.iter().enumerate() {
        check_scope(alloc, types, number, scope)?;
    }
    check_cycles(alloc, types, scopes)
}
