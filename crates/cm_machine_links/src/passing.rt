//! What functions pass.

ghost use Rattle.std.specs.Prelude.{◌≡◌, ◌<◌, ◌∷◌, [], IfOk, OnOk, if◌then◌else◌, length, map};
ghost use Rattle.std.specs.Prelude.{None, nat_lt, option_map, true};
ghost use Rattle.cm_types.specs.declared.core_value.CoreKind.TheVariants.{I32};
ghost use Rattle.cm_types.specs.Spellable.{are_spellable, is_spellable_payload};
ghost use Rattle.cm_layout.specs.Layouts.{layout_of};
ghost use Rattle.cm_layout.specs.Shapes.{layout_at, layout_of_fields_at};
ghost use Rattle.cm_types_arena.specs.Places.{funcs_of, types_of};
ghost use Rattle.cm_types_arena.specs.TypeDefs.{func_at};
ghost use Rattle.cm_types_arena.specs.Replaced.{Standing, replaced_func};
ghost use Rattle.cm_layout_placed.specs.Placed.{first_kinds, kinds_in, layouts_in, types_by};
ghost use Rattle.cm_abi_model.specs.Views.{flat_limit};
ghost use Rattle.cm_abi_model.specs.Ways.{way_of};
ghost use Rattle.cm_abi_programs.specs.CallPuts.{call_puts_in, call_puts_of};
ghost use Rattle.cm_abi_programs.specs.Checks.{passed_checks_of};
ghost use Rattle.cm_abi_programs.specs.Coded.{checks_in};
ghost use Rattle.cm_abi_programs.specs.Placed.{AreProgramsOf};
ghost use Rattle.cm_abi_slots.specs.Steps.{steps_for};
ghost use Rattle.cm_machine_parts.specs.Links.{ArePassed};
ghost use Rattle.cm_machine_links.specs.Standing.{AreCallTypes, IsCallTypes, IsSpelled};
ghost use Rattle.cm_machine_links.specs.Standing.{first_flat, most_flat, passed_fields};
ghost use Rattle.cm_machine_links.specs.Standing.{passed_nodes};

use cm_abi_model::Way;
use cm_abi_programs::{CallProgram, PlacedPrograms};
use cm_abi_slots::{SlotStep, slot_steps};
use cm_layout::Layout;
use cm_layout_placed::{Kinds, Layouts};
use cm_machine_parts::{CallTypes, PassedTypes};
use cm_types::{CoreKind, MAX_FLAT_PARAMS, MAX_FLAT_RESULTS};
use cm_types_arena::type_laws::types_are_lawful;
use cm_types_arena::{Replacement, Types};
use cm_validate_canons::laws::passing_stays;
use std::alloc::{AllocError, Global};
use std::sync::Arc;

/// Whether what has this layout goes by memory, where at most so many core values pass it flat.
fn is_spilled(layout: &Layout, most: usize) -> bool
    ensures { result ≡ nat_lt most (layout_of layout.now).head.width }
{
    layout.head.width as usize > most
}

/// The kinds of core values that pass what goes by memory, which is a pointer, or flat, by the
/// first 16 kinds at least of those that pass it flat.
fn passed_kinds(
    alloc: Global,
    spilled: bool,
    flat: Vec<CoreKind>,
) -> Result<Vec<CoreKind>, AllocError>
    ensures { IfOk result (λ ks. ks.items ≡ (if spilled then I32 ∷ [] else flat.items)) }
{
    if spilled {
        Ok(vec![in alloc; CoreKind::I32]?)
    } else {
        Ok(flat)
    }
}

/// The layout of the tuple of what a function passes that way.
fn tuple_layout(
    alloc: Global,
    way: Way,
    types: &Types,
    layouts: &Layouts,
    func: usize,
) -> Result<Layout, AllocError>
    requires there { func < length (funcs_of types.now) }
    requires laid { (s : Standing)
        × (layouts_in layouts.now ≡ map layout_at (types_by s (types_of types.now))) }
    ensures { IfOk result (λ l. (s : Standing)
        → layouts_in layouts.now ≡ map layout_at (types_by s (types_of types.now))
        → layout_of l ≡ layout_of_fields_at
        (passed_fields (replaced_func s (func_at (funcs_of types.now) func)) (way_of way))) }
{
    match way {
        Way::Params => layouts.params(alloc, types, func),
        Way::Results => layouts.result(alloc, types, func),
    }
}

/// The kinds of core values that pass it flat, of which at most the first 16 are made.
fn flat_kinds(
    alloc: Global,
    way: Way,
    types: &Types,
    kinds: &Kinds,
    func: usize,
) -> Result<Vec<CoreKind>, AllocError>
    requires there { func < length (funcs_of types.now) }
    requires kinds { kinds_in kinds.now ≡ map first_kinds (types_of types.now) }
    ensures { IfOk result (λ ks.
        ks.items ≡ first_flat (func_at (funcs_of types.now) func) (way_of way)) }
{
    match way {
        Way::Params => kinds.params(alloc, types, func),
        Way::Results => kinds.result(alloc, types, func),
    }
}

/// How many core values at most pass it flat (CanonicalABI.md, "Flattening").
fn most_flat(way: Way) -> usize
    ensures { result ≡ most_flat (way_of way) }
{
    match way {
        Way::Params => MAX_FLAT_PARAMS,
        Way::Results => MAX_FLAT_RESULTS,
    }
}

/// The most nodes that the types of what a function passes one way may have, for steps to be
/// listed: so a function costs what its definition says, however large its types are.
const MAX_LISTED_NODES: u32 = 64;

/// How many nodes the types have that a function passes that way.
fn node_count(way: Way, types: &Types, func: usize) -> u32
    requires { func < length (funcs_of types.now) }
    ensures { result ≡ passed_nodes (func_at (funcs_of types.now) func) (way_of way) }
{
    match way {
        Way::Params => types.params_summary(func).nodes,
        Way::Results => match types.func_result(func) {
            Some(place) => types.summary(place).nodes,
            None => 0,
        },
    }
}

/// What each core value becomes that passes what has this layout, where these are numbers alone;
/// `None` too where its types have more than `MAX_LISTED_NODES` nodes.
fn listed_steps(
    alloc: Global,
    way: Way,
    layout: &Layout,
    nodes: u32,
) -> Result<Option<Vec<SlotStep>>, AllocError>
    ensures { IfOk result (λ o. option_map (λ s. s.items) o
        ≡ (if nat_lt MAX_LISTED_NODES nodes then None
        else steps_for (flat_limit (way_of way)) (layout_of layout.now))) }
{
    if nodes > MAX_LISTED_NODES {
        return Ok(None);
    }
    slot_steps(alloc, layout, way.flat_limit())
}

/// What has to be looked at, and what has to be written, of what a function passes that way, which
/// has this layout as a tuple.
fn tuple_program(
    alloc: Global,
    way: Way,
    types: &Types,
    programs: &PlacedPrograms,
    layout: &Layout,
    func: usize,
) -> Result<CallProgram, AllocError>
    requires there { func < length (funcs_of types.now) }
    requires tuple { (s : Standing) × AreProgramsOf (types_by s (types_of types.now)) programs.now
        × (layout_of layout.now ≡ layout_of_fields_at
        (passed_fields (replaced_func s (func_at (funcs_of types.now) func)) (way_of way))) }
    ensures checks { IfOk result (λ p. checks_in p.checks.items
        ≡ passed_checks_of (flat_limit (way_of way)) (layout_of layout.now)) }
    ensures puts { IfOk result (λ p. call_puts_in p.puts
        ≡ call_puts_of (flat_limit (way_of way)) (layout_of layout.now)) }
{
    let limit = way.flat_limit();
    match way {
        Way::Params => programs.params(alloc, types, layout, func, limit),
        Way::Results => programs.result(alloc, types, layout, func, limit),
    }
}

/// What a function passes that way.
fn passing(
    alloc: Global,
    way: Way,
    types: &Types,
    layouts: &Layouts,
    programs: &PlacedPrograms,
    kinds: &Kinds,
    func: usize,
) -> Result<PassedTypes, AllocError>
    requires there { func < length (funcs_of types.now) }
    requires laid { (s : Standing)
        × (layouts_in layouts.now ≡ map layout_at (types_by s (types_of types.now))) }
    requires programs { (s : Standing)
        → layouts_in layouts.now ≡ map layout_at (types_by s (types_of types.now))
        → AreProgramsOf (types_by s (types_of types.now)) programs.now }
    requires kinds { kinds_in kinds.now ≡ map first_kinds (types_of types.now) }
    ensures { IfOk result (λ p. (s : Standing)
        → layouts_in layouts.now ≡ map layout_at (types_by s (types_of types.now))
        → ArePassed (way_of way)
        (passed_fields (replaced_func s (func_at (funcs_of types.now) func)) (way_of way)) p) }
{
    passing_stays();
    let layout = tuple_layout(alloc, way, types, layouts, func)?;
    let flat = flat_kinds(alloc, way, types, kinds, func)?;
    let spilled = is_spilled(&layout, most_flat(way));
    let kinds = passed_kinds(alloc, spilled, flat)?;
    let nodes = node_count(way, types, func);
    let steps = listed_steps(alloc, way, &layout, nodes)?;
    let program = tuple_program(alloc, way, types, programs, &layout, func)?;
    Ok(PassedTypes {
        layout,
        kinds,
        steps,
        checks: program.checks,
        puts: program.puts,
    })
}

/// Each parameter of a function is of a type that a file can spell. It does nothing: the arena's
/// law is called for each of their places.
fn params_are_spellable(types: &Types, func: usize)
    requires { func < length (funcs_of types.now) }
    ensures { are_spellable (func_at (funcs_of types.now) func).params ≡ true }
{
    for place in types.func_params(func) {
        types_are_lawful(types, *place);
    }
}

/// The result of a function, if it has one, is of a type that a file can spell. It does nothing.
fn result_is_spellable(types: &Types, func: usize)
    requires { func < length (funcs_of types.now) }
    ensures { is_spellable_payload (func_at (funcs_of types.now) func).result ≡ true }
{
    if let Some(place) = types.func_result(func) {
        types_are_lawful(types, place);
    }
}

/// What the function of a place passes.
fn call_types_at(
    alloc: Global,
    types: &Types,
    layouts: &Layouts,
    programs: &PlacedPrograms,
    kinds: &Kinds,
    func: usize,
) -> Result<CallTypes, AllocError>
    requires there { func < length (funcs_of types.now) }
    requires laid { (s : Standing)
        × (layouts_in layouts.now ≡ map layout_at (types_by s (types_of types.now))) }
    requires programs { (s : Standing)
        → layouts_in layouts.now ≡ map layout_at (types_by s (types_of types.now))
        → AreProgramsOf (types_by s (types_of types.now)) programs.now }
    requires kinds { kinds_in kinds.now ≡ map first_kinds (types_of types.now) }
    ensures passes { IfOk result (λ t. (s : Standing)
        → layouts_in layouts.now ≡ map layout_at (types_by s (types_of types.now))
        → IsCallTypes s (func_at (funcs_of types.now) func) t) }
    ensures spelled { OnOk result (IsSpelled (func_at (funcs_of types.now) func)) }
{
    params_are_spellable(types, func);
    result_is_spellable(types, func);
    let params = passing(alloc, Way::Params, types, layouts, programs, kinds, func)?;
    let results = passing(alloc, Way::Results, types, layouts, programs, kinds, func)?;
    let has_pointer = is_spilled(&results.layout, MAX_FLAT_RESULTS);
    Ok(CallTypes {
        params,
        results,
        has_pointer,
    })
}

/// What each function type of an arena passes, by place, each resource replaced by what stands for
/// it: each costs what its definition says.
pub(crate) fn call_types<R: Replacement>(
    alloc: Global,
    types: &Types,
    by: &R,
) -> Result<Vec<Arc<CallTypes>>, AllocError>
    ensures { IfOk result (λ ts.
        AreCallTypes (R.replacement by.now) (funcs_of types.now) ts.items) }
{
    let layouts = Layouts::of_replaced(alloc, types, by)?;
    let programs = PlacedPrograms::of(alloc, types, &layouts)?;
    let kinds = Kinds::of(alloc, types)?;
    let mut all = Vec::with_capacity(alloc, types.func_count())?;
    for func in 0..types.func_count() {
        let one = call_types_at(alloc, types, &layouts, &programs, &kinds, func)?;
        all.push(Arc::new(alloc, one)?)?;
    }
    Ok(all)
}
