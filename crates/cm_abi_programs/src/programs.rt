//! The programs of an arena's types, and of what a call passes.

ghost use Rattle.std.specs.Prelude.{◌≡◌, ◌<◌, IfOk, List, length, map};
ghost use Rattle.std.specs.List.{AllByRecursion};
ghost use Rattle.std.specs.Option.{option_map};
ghost use Rattle.cm_types.specs.Types.{Fields, Ty};
ghost use Rattle.cm_layout.specs.Layouts.{layout_of};
ghost use Rattle.cm_layout.specs.Shapes.{layout_at, layout_of_fields_at};
ghost use Rattle.cm_types_arena.specs.Arena.{field_types};
ghost use Rattle.cm_types_arena.specs.Places.{funcs_of, types_of};
ghost use Rattle.cm_types_arena.specs.Replaced.{Standing, replaced, replaced_fields};
ghost use Rattle.cm_types_arena.specs.TypeDefs.{func_at, type_at};
ghost use Rattle.cm_layout_placed.specs.Placed.{layouts_in, result_fields, types_by};
ghost use Rattle.cm_abi_programs.specs.CallPuts.{call_puts_in, call_puts_of};
ghost use Rattle.cm_abi_programs.specs.Checks.{passed_checks_of};
ghost use Rattle.cm_abi_programs.specs.Coded.{checks_in};
ghost use Rattle.cm_abi_programs.specs.Placed.{AreProgramsOf};

use crate::call_puts::CallPuts;
use crate::checks::Check;
use crate::placed_checks::PlacedChecks;
use crate::placed_puts::PlacedPuts;
use cm_layout::Layout;
use cm_layout_placed::Layouts;
use cm_types_arena::Types;
use std::alloc::{AllocError, Global};

/// What has to be looked at, and what has to be written, of what a call passes.
#[derive(Drop)]
pub struct CallProgram {
    /// What has to be looked at where it is given.
    pub checks: Vec<Check>,
    /// What has to be written where it is received.
    pub puts: CallPuts,
}

/// What has to be looked at, and what has to be written, of the values of each type of an arena, by
/// its place.
#[derive(Drop)]
pub struct PlacedPrograms {
    checks: PlacedChecks,
    puts: PlacedPuts,
}

impl PlacedPrograms {
    /// The programs of the types of an arena, which have these layouts by place. Each costs what
    /// its definition says, and shares the lists of what it holds. `AllocError` comes where there
    /// is no memory for them.
    pub fn of(alloc: Global, types: &Types, layouts: &Layouts) -> Result<PlacedPrograms, AllocError>
        requires laid { (s : Standing)
            × (layouts_in layouts.now ≡ map layout_at (types_by s (types_of types.now))) }
        ensures { IfOk result (λ programs. (s : Standing)
            → layouts_in layouts.now ≡ map layout_at (types_by s (types_of types.now))
            → AreProgramsOf (types_by s (types_of types.now)) programs) }
    {
        let checks = PlacedChecks::of(alloc, types, layouts)?;
        let puts = PlacedPuts::of(alloc, types, layouts)?;
        Ok(PlacedPrograms { checks, puts })
    }

    /// The program of the tuple of types at these places, which has this layout, where so many core
    /// values at most pass it: in core values, or in memory where these would be too many.
    /// `AllocError` comes where there is no memory for it, or where more than `MAX_FLAT_PARAMS`,
    /// but no more than the limit, would pass it: no call has such a limit.
    pub fn passed(
        &self,
        alloc: Global,
        layout: &Layout,
        places: &[usize],
        limit: usize,
    ) -> Result<CallProgram, AllocError>
        requires tuple { (ts : List Ty) × (fs : Fields) × AreProgramsOf ts self.now
            × AllByRecursion (λ p. p < length ts) places.now
            × (field_types fs ≡ map (type_at ts) places.now)
            × (layout_of layout.now ≡ layout_of_fields_at fs) }
        ensures checks { IfOk result (λ p.
            checks_in p.checks.items ≡ passed_checks_of limit (layout_of layout.now)) }
        ensures puts { IfOk result (λ p.
            call_puts_in p.puts ≡ call_puts_of limit (layout_of layout.now)) }
    {
        let checks = self.checks.passed(alloc, layout, places, limit)?;
        let puts = self.puts.passed(alloc, layout, places, limit)?;
        Ok(CallProgram { checks, puts })
    }

    /// The program of the parameters of a function, as the tuple of them, which has this layout,
    /// where so many core values at most pass them; `func` is the function's place among those of
    /// the arena. It fails as [`PlacedPrograms::passed`].
    pub fn params(
        &self,
        alloc: Global,
        types: &Types,
        layout: &Layout,
        func: usize,
        limit: usize,
    ) -> Result<CallProgram, AllocError>
        requires there { func < length (funcs_of types.now) }
        requires tuple { (s : Standing) × AreProgramsOf (types_by s (types_of types.now)) self.now
            × (layout_of layout.now ≡ layout_of_fields_at
            (replaced_fields s (func_at (funcs_of types.now) func).params)) }
        ensures checks { IfOk result (λ p.
            checks_in p.checks.items ≡ passed_checks_of limit (layout_of layout.now)) }
        ensures puts { IfOk result (λ p.
            call_puts_in p.puts ≡ call_puts_of limit (layout_of layout.now)) }
    {
        self.passed(alloc, layout, types.func_params(func), limit)
    }

    /// The program of the result of a function, as the tuple of it, of one field or of none, which
    /// has this layout, where so many core values at most pass it; `func` is the function's place
    /// among those of the arena. It fails as [`PlacedPrograms::passed`].
    pub fn result(
        &self,
        alloc: Global,
        types: &Types,
        layout: &Layout,
        func: usize,
        limit: usize,
    ) -> Result<CallProgram, AllocError>
        requires there { func < length (funcs_of types.now) }
        requires tuple { (s : Standing) × AreProgramsOf (types_by s (types_of types.now)) self.now
            × (layout_of layout.now ≡ layout_of_fields_at (result_fields
            (option_map (replaced s) (func_at (funcs_of types.now) func).result))) }
        ensures checks { IfOk result (λ p.
            checks_in p.checks.items ≡ passed_checks_of limit (layout_of layout.now)) }
        ensures puts { IfOk result (λ p.
            call_puts_in p.puts ≡ call_puts_of limit (layout_of layout.now)) }
    {
        match types.func_result(func) {
            None => self.passed(alloc, layout, &[], limit),
            Some(place) => self.passed(alloc, layout, &[place], limit),
        }
    }
}
