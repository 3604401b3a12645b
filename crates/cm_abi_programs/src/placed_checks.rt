//! What has to be looked at in the values of an arena's types.

ghost use Rattle.std.specs.Prelude.{[], ◌≡◌, ◌+◌, ◌<◌, ◌≤◌, ℕ, IfOk, List, OnOk, length, map, take};
ghost use Rattle.std.specs.Prelude.{if◌then◌else◌, true};
ghost use Rattle.std.specs.List.{AllByRecursion};
ghost use Rattle.cm_types.specs.Types.{Fields, Ty};
ghost use Rattle.cm_layout.specs.Layouts.{layout_of};
ghost use Rattle.cm_layout.specs.Shapes.{layout_at, layout_of_fields_at};
ghost use Rattle.cm_types_arena.specs.Arena.{field_types, parts_in};
ghost use Rattle.cm_types_arena.specs.Places.{types_of};
ghost use Rattle.cm_types_arena.specs.Replaced.{Standing};
ghost use Rattle.cm_types_arena.specs.TypeDefs.{type_at};
ghost use Rattle.cm_layout_placed.specs.Placed.{layouts_in, types_by};
ghost use Rattle.cm_abi_programs.specs.Checks.{checks_of, flat_checks_of, no_checks};
ghost use Rattle.cm_abi_programs.specs.Checks.{passed_checks_of};
ghost use Rattle.cm_abi_programs.specs.Coded.{check_lists, checks_in};
ghost use Rattle.cm_abi_programs.specs.Held.{shapes_in};
ghost use Rattle.cm_abi_programs.specs.Placed.{AreChecksOf, has_elements, is_wide};

use crate::checks::Check;
use crate::gathering::gather;
use crate::listed_checks::{flat_checks, stored_checks};
use crate::widths::is_wide;
use cm_layout::Layout;
use cm_layout_placed::Layouts;
use cm_types_arena::Types;
use cm_types_arena::type_laws::types_are_lawful;
use std::alloc::{AllocError, Global};
use std::sync::Arc;

/// What has to be looked at in the values of each type of an arena, by its place: where they stand
/// in memory, and where core values pass them.
#[derive(Drop)]
pub(crate) struct PlacedChecks {
    stored: Vec<Arc<Vec<Check>>>,
    flat: Vec<Arc<Vec<Check>>>,
}

impl PlacedChecks {
    /// Nothing of no types, with room for that of so many.
    fn new(alloc: Global, count: usize) -> Result<PlacedChecks, AllocError>
        ensures { IfOk result (AreChecksOf []) }
    {
        let stored = Vec::with_capacity(alloc, count)?;
        let flat = Vec::with_capacity(alloc, count)?;
        Ok(PlacedChecks { stored, flat })
    }

    /// That of the types of an arena, which have these layouts by place. Each costs what its
    /// definition says, and shares the lists of what it holds. `AllocError` comes where there is no
    /// memory for them.
    pub(crate) fn of(
        alloc: Global,
        types: &Types,
        layouts: &Layouts,
    ) -> Result<PlacedChecks, AllocError>
        requires laid { (s : Standing)
            × (layouts_in layouts.now ≡ map layout_at (types_by s (types_of types.now))) }
        ensures { IfOk result (λ checks. (s : Standing)
            → layouts_in layouts.now ≡ map layout_at (types_by s (types_of types.now))
            → AreChecksOf (types_by s (types_of types.now)) checks) }
    {
        let mut checks = PlacedChecks::new(alloc, types.len())?;
        for place in 0..types.len() {
            types_are_lawful(types, place);
            checks.add(alloc, layouts.get(place), types.parts(place))?;
        }
        Ok(checks)
    }

    /// Adds that of a type of this layout, of which the parts stand at these places.
    fn add(&mut self, alloc: Global, layout: &Layout, places: &[usize]) -> Result<(), AllocError>
        requires next { (ts : List Ty) × (n : ℕ) × AreChecksOf (take n ts) self.old
            × (n < length ts) × AllByRecursion (λ p. p < n) places.now
            × (parts_in (type_at ts n) ≡ map (type_at ts) places.now)
            × (layout_of layout.now ≡ layout_at (type_at ts n))
            × (has_elements (type_at ts n) ≡ true) }
        ensures { OnOk result ((ts : List Ty) (n : ℕ) → AreChecksOf (take n ts) self.old
            → n < length ts → AllByRecursion (λ p. p < n) places.now
            → parts_in (type_at ts n) ≡ map (type_at ts) places.now
            → layout_of layout.now ≡ layout_at (type_at ts n)
            → has_elements (type_at ts n) ≡ true
            → AreChecksOf (take (n + 1) ts) self.new) }
    {
        let stored = gather(alloc, &self.stored, places)?;
        let checks = stored_checks(alloc, layout, &stored)?;
        let passed = self.flat(alloc, layout, &stored, places)?;
        self.stored.push(Arc::new(alloc, checks)?)?;
        self.flat.push(Arc::new(alloc, passed)?)?;
        Ok(())
    }

    /// What has to be looked at of a type of this layout where core values pass it, from what has
    /// to be of its parts in memory, which stand at these places; nothing where it is wide.
    fn flat(
        &self,
        alloc: Global,
        layout: &Layout,
        stored: &[Arc<Vec<Check>>],
        places: &[usize],
    ) -> Result<Vec<Check>, AllocError>
        requires stored { check_lists stored.now
            ≡ map checks_of (shapes_in (layout_of layout.now).shape) }
        requires parts { (ts : List Ty) × (n : ℕ) × (t : Ty) × AreChecksOf (take n ts) self.now
            × (n ≤ length ts) × AllByRecursion (λ p. p < n) places.now
            × (parts_in t ≡ map (type_at ts) places.now) × (layout_of layout.now ≡ layout_at t)
            × (has_elements t ≡ true) }
        ensures { IfOk result (λ cs. checks_in cs.items
            ≡ (if is_wide (layout_of layout.now).head then no_checks
            else flat_checks_of (layout_of layout.now).shape)) }
    {
        if is_wide(layout) {
            return Ok(Vec::new(alloc));
        }
        let flat = gather(alloc, &self.flat, places)?;
        flat_checks(alloc, layout, stored, &flat)
    }

    /// That of the tuple of types at these places, which has this layout, where so many core values
    /// at most pass it: in core values, or in memory where these would be too many. `AllocError`
    /// comes where there is no memory for it, or where it is wide and the limit, which is then that
    /// of no call, would have core values pass it.
    pub(crate) fn passed(
        &self,
        alloc: Global,
        layout: &Layout,
        places: &[usize],
        limit: usize,
    ) -> Result<Vec<Check>, AllocError>
        requires tuple { (ts : List Ty) × (fs : Fields) × AreChecksOf ts self.now
            × AllByRecursion (λ p. p < length ts) places.now
            × (field_types fs ≡ map (type_at ts) places.now)
            × (layout_of layout.now ≡ layout_of_fields_at fs) }
        ensures { IfOk result (λ cs.
            checks_in cs.items ≡ passed_checks_of limit (layout_of layout.now)) }
    {
        let stored = gather(alloc, &self.stored, places)?;
        if layout.head.width as usize > limit {
            return stored_checks(alloc, layout, &stored);
        }
        if is_wide(layout) {
            return Err(AllocError);
        }
        self.flat(alloc, layout, &stored, places)
    }
}
