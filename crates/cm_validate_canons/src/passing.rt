//! What functions pass.

ghost use Rattle.std.specs.Prelude.{◌≡◌, ◌<◌, false, length, map, nat_le, not};
ghost use Rattle.std.specs.List.{AllByRecursion};
ghost use Rattle.cm_types.specs.Holds.{holds};
ghost use Rattle.cm_types.specs.Types.{Ty};
ghost use Rattle.cm_layout.specs.Shapes.{layout_at};
ghost use Rattle.cm_types_arena.specs.Places.{funcs_of, types_of};
ghost use Rattle.cm_types_arena.specs.Summaries.{summary_of};
ghost use Rattle.cm_types_arena.specs.TypeDefs.{func_at};
ghost use Rattle.cm_layout_placed.specs.Placed.{layouts_in};
ghost use Rattle.cm_types_arena.specs.Placed.{placed_func};
ghost use Rattle.cm_validate_model.specs.Options.{is_pointer};
ghost use Rattle.cm_validate_canons.specs.Passing.{params_passed, result_passed, widths_at};

use crate::laws::passing_stays;
use cm_layout_placed::Layouts;
use cm_types::{MAX_FLAT_PARAMS, MAX_FLAT_RESULTS};
use cm_types_arena::{Placed, Summary, Types};

/// What is passed: the parameters of a function together, or its result.
#[derive(Clone, Copy)]
pub struct Passed {
    /// Whether a string is among it or in it.
    pub holds_string: bool,
    /// Whether a string or a list of any length is, whose contents stand behind a pointer.
    pub holds_pointer: bool,
    /// Whether it takes too many core values to be passed as they are, and stands in memory.
    pub is_spilled: bool,
}

/// What a function passes.
#[derive(Clone, Copy)]
pub struct FuncPassing {
    pub params: Passed,
    pub result: Passed,
}

impl Passed {
    /// How nothing is passed.
    fn nothing() -> Passed
        ensures { result
            ≡ record { holds_string = false; holds_pointer = false; is_spilled = false } }
    {
        Passed {
            holds_string: false,
            holds_pointer: false,
            is_spilled: false,
        }
    }
}

impl FuncPassing {
    /// What a function of a type passes, by what the arena knows of the type; its parameters are
    /// counted until there are too many of them. Where there is no such type, it is that of a
    /// function without parameters and result.
    pub fn of(types: &Types, layouts: &Layouts, ty: Placed) -> FuncPassing
        requires laid { layouts_in layouts.now ≡ map layout_at (types_of types.now) }
        ensures params { result.params ≡ params_passed (placed_func (funcs_of types.now) ty) }
        ensures answer { result.result ≡ result_passed (placed_func (funcs_of types.now) ty) }
    {
        passing_stays();
        if ty.place >= types.func_count() {
            return FuncPassing {
                params: Passed::nothing(),
                result: Passed::nothing(),
            };
        }
        FuncPassing {
            params: params_passed(types, layouts, ty.place),
            result: result_passed(types, layouts, ty.place),
        }
    }
}

fn holds_pointer(summary: Summary) -> bool
    ensures { (t : Ty) → summary ≡ summary_of t → result ≡ holds is_pointer t }
{
    summary.holds_string || summary.holds_list
}

/// Whether more core values pass the types at these places, one after another, than so many.
fn pass_more(layouts: &Layouts, places: &[usize], most: usize) -> bool
    requires { AllByRecursion (λ p. p < length (layouts_in layouts.now)) places.now }
    ensures { result ≡ not (nat_le (widths_at (layouts_in layouts.now) places.now) most) }
{
    let mut room = most;
    for place in places {
        match room.checked_sub(layouts.get(*place).head.width as usize) {
            Some(left) => room = left,
            None => return true,
        }
    }
    false
}

fn params_passed(types: &Types, layouts: &Layouts, place: usize) -> Passed
    requires there { place < length (funcs_of types.now) }
    requires laid { layouts_in layouts.now ≡ map layout_at (types_of types.now) }
    ensures { result ≡ params_passed (func_at (funcs_of types.now) place) }
{
    let summary = types.params_summary(place);
    Passed {
        holds_string: summary.holds_string,
        holds_pointer: holds_pointer(summary),
        is_spilled: pass_more(layouts, types.func_params(place), MAX_FLAT_PARAMS),
    }
}

fn result_passed(types: &Types, layouts: &Layouts, place: usize) -> Passed
    requires there { place < length (funcs_of types.now) }
    requires laid { layouts_in layouts.now ≡ map layout_at (types_of types.now) }
    ensures { result ≡ result_passed (func_at (funcs_of types.now) place) }
{
    let Some(place) = types.func_result(place) else {
        return Passed::nothing();
    };
    let summary = types.summary(place);
    Passed {
        holds_string: summary.holds_string,
        holds_pointer: holds_pointer(summary),
        is_spilled: layouts.get(place).head.width as usize > MAX_FLAT_RESULTS,
    }
}
