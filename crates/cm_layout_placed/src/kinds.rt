//! The kinds of the core values that pass an arena's types.

ghost use Rattle.std.specs.Prelude.{◌≡◌, ◌<◌, ◌≤◌, ◌∷◌, ◌++◌, [], IfOk, List, OnOk, length, map};
ghost use Rattle.std.specs.Prelude.{take};
ghost use Rattle.std.specs.List.{AllByRecursion};
ghost use Rattle.cm_types.specs.declared.core_value.CoreKind.TheVariants.{I32};
ghost use Rattle.cm_types.specs.TypeTrees.{type_of};
ghost use Rattle.cm_layout.specs.Flattening.{copies, flat_of_fields, flat_of_payload, join};
ghost use Rattle.cm_layout.specs.Flattening.{join_from, join_slots};
ghost use Rattle.cm_types_arena.specs.Arena.{parts_in};
ghost use Rattle.cm_types_arena.specs.Places.{funcs_of, types_of};
ghost use Rattle.cm_types_arena.specs.TypeDefs.{func_at, type_at};
ghost use Rattle.cm_layout_placed.specs.Kinds.{in_turn, joined, kinds_at};
ghost use Rattle.cm_layout_placed.specs.Placed.{first_kinds, kinds_in};

use cm_types::{CoreKind, MAX_FLAT_PARAMS, TypeNode};
use cm_types_arena::Types;
use std::alloc::{AllocError, Global};

/// Core kinds by place: of the core values that pass the type at a place in an arena the kinds of
/// the first 16, which is as many as ever pass anything (CanonicalABI.md, "Flattening").
#[derive(Drop)]
pub struct Kinds {
    pub(crate) by_place: Vec<Vec<CoreKind>>,
}

impl Kinds {
    /// The kinds of the types of an arena. Each costs what its definition says: nothing below its
    /// parts is walked. `AllocError` comes where there is no memory for them.
    pub fn of(alloc: Global, types: &Types) -> Result<Kinds, AllocError>
        ensures { IfOk result (λ ks. kinds_in ks ≡ map first_kinds (types_of types.now)) }
    {
        let mut by_place = Vec::with_capacity(alloc, types.len())?;
        for place in 0..types.len() {
            let kinds = place_kinds(alloc, types, place, &by_place)?;
            by_place.push(kinds)?;
        }
        Ok(Kinds { by_place })
    }

    /// The kinds of the first 16 core values that pass the parameters of a function, if all are
    /// passed flat; `func` is the function's place among those of the arena. `AllocError` comes
    /// where there is no memory for them.
    pub fn params(
        &self,
        alloc: Global,
        types: &Types,
        func: usize,
    ) -> Result<Vec<CoreKind>, AllocError>
        requires there { func < length (funcs_of types.now) }
        requires of { kinds_in self.now ≡ map first_kinds (types_of types.now) }
        ensures { IfOk result (λ ks. ks.items
            ≡ take MAX_FLAT_PARAMS (flat_of_fields (func_at (funcs_of types.now) func).params)) }
    {
        kinds_in_turn(alloc, types.func_params(func), &self.by_place)
    }

    /// The kinds of the first 16 core values that pass the result of a function, if all are passed
    /// flat; `func` is the function's place among those of the arena. `AllocError` comes where
    /// there is no memory for them.
    pub fn result(
        &self,
        alloc: Global,
        types: &Types,
        func: usize,
    ) -> Result<Vec<CoreKind>, AllocError>
        requires there { func < length (funcs_of types.now) }
        requires of { kinds_in self.now ≡ map first_kinds (types_of types.now) }
        ensures { IfOk result (λ ks. ks.items
            ≡ take MAX_FLAT_PARAMS (flat_of_payload (func_at (funcs_of types.now) func).result)) }
    {
        match types.func_result(func) {
            None => Ok(Vec::new(alloc)),
            Some(place) => kinds_in_turn(alloc, &[place], &self.by_place),
        }
    }
}

/// The kinds of the type at a place, over those of the types before it.
fn place_kinds(
    alloc: Global,
    types: &Types,
    place: usize,
    kinds: &[Vec<CoreKind>],
) -> Result<Vec<CoreKind>, AllocError>
    requires there { place < length (types_of types.now) }
    requires before { map (λ v. v.items) kinds.now
        ≡ take place (map first_kinds (types_of types.now)) }
    ensures { IfOk result (λ ks. ks.items ≡ first_kinds (type_at (types_of types.now) place)) }
{
    node_kinds(alloc, types.node(place), types.parts(place), kinds)
}

/// The kinds of a type, of whose parts they stand at these places.
fn node_kinds(
    alloc: Global,
    node: &TypeNode,
    places: &[usize],
    kinds: &[Vec<CoreKind>],
) -> Result<Vec<CoreKind>, AllocError>
    requires there { AllByRecursion (λ p. p < length kinds.now) places.now }
    requires parts { map (kinds_at (map (λ v. v.items) kinds.now)) places.now
        ≡ map first_kinds (parts_in (type_of node.now)) }
    ensures { IfOk result (λ ks. ks.items ≡ first_kinds (type_of node.now)) }
{
    match node {
        TypeNode::S64 | TypeNode::U64 => Ok(vec![in alloc; CoreKind::I64]?),
        TypeNode::String | TypeNode::List(_) => {
            Ok(vec![in alloc; CoreKind::I32, CoreKind::I32]?)
        }
        TypeNode::FixedList { length, .. } => {
            let element = kinds_in_turn(alloc, places, kinds)?;
            copied_kinds(alloc, &element, *length)
        }
        TypeNode::Record(_fields) => kinds_in_turn(alloc, places, kinds),
        TypeNode::Tuple(_parts) => kinds_in_turn(alloc, places, kinds),
        TypeNode::Variant(_cases) => cases_kinds(alloc, places, kinds),
        TypeNode::Enum(_labels) => cases_kinds(alloc, places, kinds),
        TypeNode::Option(_some) => cases_kinds(alloc, places, kinds),
        TypeNode::Result { .. } => cases_kinds(alloc, places, kinds),
        TypeNode::Bool
        | TypeNode::S8
        | TypeNode::U8
        | TypeNode::S16
        | TypeNode::U16
        | TypeNode::S32
        | TypeNode::U32
        | TypeNode::Char
        | TypeNode::Flags(_)
        | TypeNode::Own(_)
        | TypeNode::Borrow(_) => Ok(vec![in alloc; CoreKind::I32]?),
    }
}

/// Adds kinds behind others, while there are fewer than 16.
fn push_kinds(kinds: &mut Vec<CoreKind>, more: &[CoreKind]) -> Result<(), AllocError>
    requires { length kinds.old.items ≤ MAX_FLAT_PARAMS }
    ensures { OnOk result
        (kinds.new.items ≡ take MAX_FLAT_PARAMS (kinds.old.items ++ more.now)) }
{
    for kind in more {
        if kinds.len() == MAX_FLAT_PARAMS {
            return Ok(());
        }
        kinds.push(*kind)?;
    }
    Ok(())
}

/// The first 16 of the kinds at these places, one behind the other.
fn kinds_in_turn(
    alloc: Global,
    places: &[usize],
    kinds: &[Vec<CoreKind>],
) -> Result<Vec<CoreKind>, AllocError>
    requires { AllByRecursion (λ p. p < length kinds.now) places.now }
    ensures { IfOk result (λ ks. ks.items
        ≡ take MAX_FLAT_PARAMS
        (in_turn (map (kinds_at (map (λ v. v.items) kinds.now)) places.now))) }
{
    let mut all = Vec::new(alloc);
    for place in places {
        push_kinds(&mut all, &kinds[*place])?;
    }
    Ok(all)
}

/// The first 16 of so many copies of kinds.
fn copied_kinds(
    alloc: Global,
    element: &[CoreKind],
    count: u32,
) -> Result<Vec<CoreKind>, AllocError>
    ensures { IfOk result (λ ks. ks.items ≡ take MAX_FLAT_PARAMS (copies count element.now)) }
{
    let mut all = Vec::new(alloc);
    // No more copies are wanted: they have 16 kinds, or none.
    let least = count.min(MAX_FLAT_PARAMS as u32);
    for _copy in 0..least {
        push_kinds(&mut all, element)?;
    }
    Ok(all)
}

fn join(a: CoreKind, b: CoreKind) -> CoreKind
    ensures { result ≡ join a b }
{
    match a {
        CoreKind::I32 => b,
        CoreKind::I64 => CoreKind::I64,
    }
}

/// Joins a kind into a slot, which is one that is there or the next one.
fn join_kind(kinds: &mut Vec<CoreKind>, at: usize, kind: CoreKind) -> Result<(), AllocError>
    requires { at ≤ length kinds.old.items }
    ensures { OnOk result (kinds.new.items ≡ join_from at kinds.old.items (kind ∷ [])) }
{
    if at < kinds.len() {
        kinds[at] = join(kinds[at], kind);
    } else {
        kinds.push(kind)?;
    }
    Ok(())
}

/// Joins kinds into others, slot by slot.
fn join_kinds(kinds: &mut Vec<CoreKind>, more: &[CoreKind]) -> Result<(), AllocError>
    ensures { OnOk result (kinds.new.items ≡ join_slots kinds.old.items more.now) }
{
    for at in 0..more.len() {
        join_kind(kinds, at, more[at])?;
    }
    Ok(())
}

/// The kinds at these places, joined.
fn joined_kinds(
    alloc: Global,
    places: &[usize],
    kinds: &[Vec<CoreKind>],
) -> Result<Vec<CoreKind>, AllocError>
    requires { AllByRecursion (λ p. p < length kinds.now) places.now }
    ensures { IfOk result (λ ks. ks.items
        ≡ joined (map (kinds_at (map (λ v. v.items) kinds.now)) places.now)) }
{
    let mut all = Vec::new(alloc);
    for place in places {
        join_kinds(&mut all, &kinds[*place])?;
    }
    Ok(all)
}

/// The first 16 kinds of what has cases: the number of a case, and the kinds at these places,
/// joined.
fn cases_kinds(
    alloc: Global,
    places: &[usize],
    kinds: &[Vec<CoreKind>],
) -> Result<Vec<CoreKind>, AllocError>
    requires { AllByRecursion (λ p. p < length kinds.now) places.now }
    ensures { IfOk result (λ ks. ks.items
        ≡ take MAX_FLAT_PARAMS
        (I32 ∷ joined (map (kinds_at (map (λ v. v.items) kinds.now)) places.now))) }
{
    let payload = joined_kinds(alloc, places, kinds)?;
    let mut all = vec![in alloc; CoreKind::I32]?;
    push_kinds(&mut all, &payload)?;
    Ok(all)
}
