//! What has to be written of the values of an arena's types.

ghost use Rattle.std.specs.Prelude.{[], ◌≡◌, ◌+◌, ◌<◌, ◌≤◌, ℕ, IfOk, List, OnOk, length, map, take};
ghost use Rattle.std.specs.Prelude.{if◌then◌else◌, true};
ghost use Rattle.std.specs.List.{AllByRecursion};
ghost use Rattle.cm_types.specs.Types.{Fields, Ty};
ghost use Rattle.cm_layout.specs.Layouts.{layout_of};
ghost use Rattle.cm_layout.specs.Shapes.{layout_at, layout_of_fields_at};
ghost use Rattle.cm_types_arena.specs.Arena.{field_types, parts_in};
ghost use Rattle.cm_types_arena.specs.Places.{types_of};
ghost use Rattle.cm_types_arena.specs.Replaced.{Standing};
ghost use Rattle.cm_types_arena.specs.TypeDefs.{type_at};
ghost use Rattle.cm_layout_placed.specs.Placed.{layouts_in, types_by};
ghost use Rattle.cm_abi_programs.specs.CallPuts.{call_puts_in, call_puts_of};
ghost use Rattle.cm_abi_programs.specs.CodedPuts.{put_lists};
ghost use Rattle.cm_abi_programs.specs.CodedSlots.{slots_in};
ghost use Rattle.cm_abi_programs.specs.Puts.{puts_of};
ghost use Rattle.cm_abi_programs.specs.SlotPuts.{flat_puts_of, no_slots};
ghost use Rattle.cm_abi_programs.specs.Held.{shapes_in};
ghost use Rattle.cm_abi_programs.specs.Placed.{ArePutsOf, has_elements, is_wide};

use crate::call_puts::CallPuts;
use crate::gathering::gather;
use crate::listed_puts::stored_puts;
use crate::listed_slots::flat_puts;
use crate::puts::Put;
use crate::slots::SlotPut;
use crate::widths::is_wide;
use cm_layout::Layout;
use cm_layout_placed::Layouts;
use cm_types_arena::Types;
use cm_types_arena::type_laws::types_are_lawful;
use std::alloc::{AllocError, Global};
use std::sync::Arc;

/// What has to be written of the values of each type of an arena, by its place: where they stand
/// in memory, and into core values that pass them.
#[derive(Drop)]
pub(crate) struct PlacedPuts {
    stored: Vec<Arc<Vec<Put>>>,
    flat: Vec<Arc<Vec<SlotPut>>>,
}

impl PlacedPuts {
    /// Nothing of no types, with room for that of so many.
    fn new(alloc: Global, count: usize) -> Result<PlacedPuts, AllocError>
        ensures { IfOk result (ArePutsOf []) }
    {
        let stored = Vec::with_capacity(alloc, count)?;
        let flat = Vec::with_capacity(alloc, count)?;
        Ok(PlacedPuts { stored, flat })
    }

    /// That of the types of an arena, which have these layouts by place. Each costs what its
    /// definition says, and shares the lists of what it holds. `AllocError` comes where there is no
    /// memory for them.
    pub(crate) fn of(
        alloc: Global,
        types: &Types,
        layouts: &Layouts,
    ) -> Result<PlacedPuts, AllocError>
        requires laid { (s : Standing)
            × (layouts_in layouts.now ≡ map layout_at (types_by s (types_of types.now))) }
        ensures { IfOk result (λ puts. (s : Standing)
            → layouts_in layouts.now ≡ map layout_at (types_by s (types_of types.now))
            → ArePutsOf (types_by s (types_of types.now)) puts) }
    {
        let mut puts = PlacedPuts::new(alloc, types.len())?;
        for place in 0..types.len() {
            types_are_lawful(types, place);
            puts.add(alloc, layouts.get(place), types.parts(place))?;
        }
        Ok(puts)
    }

    /// Adds that of a type of this layout, of which the parts stand at these places.
    fn add(&mut self, alloc: Global, layout: &Layout, places: &[usize]) -> Result<(), AllocError>
        requires next { (ts : List Ty) × (n : ℕ) × ArePutsOf (take n ts) self.old
            × (n < length ts) × AllByRecursion (λ p. p < n) places.now
            × (parts_in (type_at ts n) ≡ map (type_at ts) places.now)
            × (layout_of layout.now ≡ layout_at (type_at ts n))
            × (has_elements (type_at ts n) ≡ true) }
        ensures { OnOk result ((ts : List Ty) (n : ℕ) → ArePutsOf (take n ts) self.old
            → n < length ts → AllByRecursion (λ p. p < n) places.now
            → parts_in (type_at ts n) ≡ map (type_at ts) places.now
            → layout_of layout.now ≡ layout_at (type_at ts n)
            → has_elements (type_at ts n) ≡ true
            → ArePutsOf (take (n + 1) ts) self.new) }
    {
        let stored = gather(alloc, &self.stored, places)?;
        let puts = stored_puts(alloc, layout, &stored)?;
        let passed = self.flat(alloc, layout, &stored, places)?;
        self.stored.push(Arc::new(alloc, puts)?)?;
        self.flat.push(Arc::new(alloc, passed)?)?;
        Ok(())
    }

    /// What has to be put into core values for a type of this layout, from what has to be written
    /// of its parts in memory, which stand at these places; nothing where it is wide.
    fn flat(
        &self,
        alloc: Global,
        layout: &Layout,
        stored: &[Arc<Vec<Put>>],
        places: &[usize],
    ) -> Result<Vec<SlotPut>, AllocError>
        requires stored { put_lists stored.now
            ≡ map puts_of (shapes_in (layout_of layout.now).shape) }
        requires parts { (ts : List Ty) × (n : ℕ) × (t : Ty) × ArePutsOf (take n ts) self.now
            × (n ≤ length ts) × AllByRecursion (λ p. p < n) places.now
            × (parts_in t ≡ map (type_at ts) places.now) × (layout_of layout.now ≡ layout_at t)
            × (has_elements t ≡ true) }
        ensures { IfOk result (λ cs. slots_in cs.items
            ≡ (if is_wide (layout_of layout.now).head then no_slots
            else flat_puts_of (layout_of layout.now).shape)) }
    {
        if is_wide(layout) {
            return Ok(Vec::new(alloc));
        }
        let flat = gather(alloc, &self.flat, places)?;
        flat_puts(alloc, layout, stored, &flat)
    }

    /// That of the tuple of types at these places, which has this layout, where so many core values
    /// at most pass it: into core values, or into memory where these would be too many.
    /// `AllocError` comes where there is no memory for it, or where it is wide and the limit, which
    /// is then that of no call, would have core values pass it.
    pub(crate) fn passed(
        &self,
        alloc: Global,
        layout: &Layout,
        places: &[usize],
        limit: usize,
    ) -> Result<CallPuts, AllocError>
        requires tuple { (ts : List Ty) × (fs : Fields) × ArePutsOf ts self.now
            × AllByRecursion (λ p. p < length ts) places.now
            × (field_types fs ≡ map (type_at ts) places.now)
            × (layout_of layout.now ≡ layout_of_fields_at fs) }
        ensures { IfOk result (λ cs.
            call_puts_in cs ≡ call_puts_of limit (layout_of layout.now)) }
    {
        let stored = gather(alloc, &self.stored, places)?;
        if layout.head.width as usize > limit {
            let puts = stored_puts(alloc, layout, &stored)?;
            return Ok(CallPuts::Stored(puts));
        }
        if is_wide(layout) {
            return Err(AllocError);
        }
        let puts = self.flat(alloc, layout, &stored, places)?;
        Ok(CallPuts::Flat(puts))
    }
}
