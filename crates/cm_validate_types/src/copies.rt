//! Copies of types in an arena.

ghost use Rattle.std.specs.Prelude.{◌≡◌, ◌+◌, ◌<◌, ◌++◌, ◌∷◌, [], IfOk, OnOk, length, map};
ghost use Rattle.std.specs.Prelude.{false, true};
ghost use Rattle.std.specs.BTreeMap.{get};
ghost use Rattle.std.specs.List.{AllByRecursion};
ghost use Rattle.std.specs.Ordering.{nat_cmp};
ghost use Rattle.cm_types.specs.Holds.{holds, is_handle};
ghost use Rattle.cm_types.specs.Limits.{IsWithinLimits};
ghost use Rattle.cm_types.specs.Spellable.{is_spellable};
ghost use Rattle.cm_types_arena.specs.Arena.{parts_in};
ghost use Rattle.cm_types_arena.specs.Places.{HasParts, funcs_of, types_of};
ghost use Rattle.cm_types_arena.specs.TypeDefs.{def_type, type_at};
ghost use Rattle.cm_types_arena.specs.Replaced.{replaced};
ghost use Rattle.cm_validate_types.specs.Copies.{AddsOnce, AreCopies, BeginsWith, CopiesOnce};
ghost use Rattle.cm_validate_types.specs.Copies.{IsCopy};

use crate::definitions::replaced_def;
use cm_types_arena::laws::{replacing, what_stays};
use cm_types_arena::type_laws::types_are_lawful;
use cm_types_arena::{DefFault, Replacement, TypeDef, Types};
use std::alloc::{AllocError, Global};
use std::collections::BTreeMap;

/// Adds the type at a place with its resources replaced to the arena, and answers its place.
///
/// A type that holds no handle is its own copy. Of the others each that is below the place is
/// copied once, whatever its uses: it costs the lengths of these and a search for each of their
/// parts.
///
/// `AllocError` comes where there is no memory. What was in the arena stays at its place in either
/// case; types may then stand behind it.
pub fn push_replaced<R: Replacement>(
    types: &mut Types,
    alloc: Global,
    place: usize,
    by: &R,
) -> Result<usize, AllocError>
    requires { place < length (types_of types.old) }
    ensures there { IfOk result (λ copy. copy < length (types_of types.new)) }
    ensures copied { IfOk result (λ copy. type_at (types_of types.new) copy
        ≡ replaced (R.replacement by.now) (type_at (types_of types.old) place)) }
    ensures itself { holds is_handle (type_at (types_of types.old) place) ≡ false
        → IfOk result (λ copy. copy ≡ place) }
    ensures none { holds is_handle (type_at (types_of types.old) place) ≡ false
        → types_of types.new ≡ types_of types.old }
    ensures once { OnOk result (AddsOnce (R.replacement by.now) (types_of types.old)
        (types_of types.new) (place + 1)) }
    ensures kept { BeginsWith (types_of types.new) (types_of types.old) }
    ensures funcs { funcs_of types.new ≡ funcs_of types.old }
{
    if !types.summary(place).holds_handle {
        replacing();
        return Ok(place);
    }
    let mut copies = BTreeMap::new(alloc);
    copy_at(types, alloc, &mut copies, by, place)
}

/// The place of the copy of the type at a place: the one that is known, else one that is made. Of
/// its parts those that hold no handle are their own copies. The calls in it go down the type, and
/// are no more than its depth inside one another, which is at most 64.
fn copy_at<R: Replacement>(
    types: &mut Types,
    alloc: Global,
    copies: &mut BTreeMap<usize, usize>,
    by: &R,
    place: usize,
) -> Result<usize, AllocError>
    requires there { place < length (types_of types.old) }
    requires copies { AreCopies (R.replacement by.now) (types_of types.old)
        (get nat_cmp copies.old) }
    ensures copy { IfOk result (λ copy.
        IsCopy (R.replacement by.now) (types_of types.new) place copy) }
    ensures copies { IfOk result (λ _. AreCopies (R.replacement by.now) (types_of types.new)
        (get nat_cmp copies.new)) }
    ensures once { OnOk result (CopiesOnce (R.replacement by.now) (types_of types.old)
        (types_of types.new) (get nat_cmp copies.old) (get nat_cmp copies.new) (place + 1)) }
    ensures kept { BeginsWith (types_of types.new) (types_of types.old) }
    ensures funcs { funcs_of types.new ≡ funcs_of types.old }
{
    replacing();
    if let Some(copy) = copies.get(&place) {
        return Ok(*copy);
    }
    let count = types.parts(place).len();
    let mut copied = Vec::with_capacity(alloc, count)?;
    for i in 0..count {
        let part = types.parts(place)[i];
        let copy = if types.summary(part).holds_handle {
            copy_at(types, alloc, copies, by, part)?
        } else {
            part
        };
        copied.push(copy)?;
    }
    let copy = push_copy(types, alloc, place, &copied, by)?;
    copies.insert(place, copy)?;
    Ok(copy)
}

/// Adds the type at a place with its resources replaced, where the types that it holds, with theirs
/// replaced, stand at these places in their order, and answers its place.
fn push_copy<R: Replacement>(
    types: &mut Types,
    alloc: Global,
    place: usize,
    parts: &[usize],
    by: &R,
) -> Result<usize, AllocError>
    requires place { place < length (types_of types.old) }
    requires there { AllByRecursion (λ p. p < length (types_of types.old)) parts.now }
    requires copied { map (replaced (R.replacement by.now))
        (parts_in (type_at (types_of types.old) place))
        ≡ map (type_at (types_of types.old)) parts.now }
    ensures copy { IfOk result (λ copy.
        IsCopy (R.replacement by.now) (types_of types.new) place copy) }
    ensures pushed { OnOk result (types_of types.new ≡ types_of types.old
        ++ replaced (R.replacement by.now) (type_at (types_of types.old) place) ∷ []) }
    ensures kept { BeginsWith (types_of types.new) (types_of types.old) }
    ensures funcs { funcs_of types.new ≡ funcs_of types.old }
{
    what_stays();
    types_are_lawful(types, place);
    let def = replaced_def(alloc, types.node(place), parts, by)?;
    push_lawful(types, alloc, def)
}

/// Adds a type that is within the limits and that a file can spell, and answers its place.
fn push_lawful(types: &mut Types, alloc: Global, def: TypeDef) -> Result<usize, AllocError>
    requires parts { HasParts (length (types_of types.old)) def }
    requires within { IsWithinLimits (def_type (types_of types.old) def) }
    requires spellable { is_spellable (def_type (types_of types.old) def) ≡ true }
    ensures there { IfOk result (λ place. place < length (types_of types.new)) }
    ensures ty { IfOk result (λ place.
        type_at (types_of types.new) place ≡ def_type (types_of types.old) def) }
    ensures pushed { OnOk result
        (types_of types.new ≡ types_of types.old ++ def_type (types_of types.old) def ∷ []) }
    ensures kept { BeginsWith (types_of types.new) (types_of types.old) }
    ensures funcs { funcs_of types.new ≡ funcs_of types.old }
{
    match types.push(alloc, def) {
        Ok(place) => Ok(place),
        Err(DefFault::Memory) => Err(AllocError),
        // It is lawful.
        Err(DefFault::TooLarge | DefFault::NotSpellable) => unreachable!(),
    }
}
