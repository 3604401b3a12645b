//! The layouts of an arena's types.

ghost use Rattle.std.specs.Prelude.{◌≡◌, ◌<◌, [], IfOk, OnOk, Some, length, map, take};
ghost use Rattle.std.specs.Option.{option_map};
ghost use Rattle.cm_layout.specs.Layouts.{layout_of};
ghost use Rattle.cm_layout.specs.Shapes.{layout_at, layout_of_fields_at};
ghost use Rattle.cm_types_arena.specs.Places.{funcs_of, types_of};
ghost use Rattle.cm_types_arena.specs.TypeDefs.{func_at, type_at};
ghost use Rattle.cm_types_arena.specs.Replaced.{Standing, replaced, replaced_fields};
ghost use Rattle.cm_layout_placed.specs.Placed.{AreOfFirst, at_place, layouts_in, result_fields};
ghost use Rattle.cm_layout_placed.specs.Placed.{types_by};

use crate::nodes::{fields_layout, node_layout};
use cm_layout::Layout;
use cm_types::ResourceId;
use cm_types_arena::laws::what_stays;
use cm_types_arena::placed_laws::unmoved;
use cm_types_arena::type_laws::types_are_lawful;
use cm_types_arena::{Replacement, Types};
use std::alloc::{AllocError, Global};

/// Each resource stands for itself.
#[derive(Clone, Copy)]
struct Itself;

impl Replacement for Itself {
    ghost replacement = { λ itself r. r };

    fn replace(&self, id: ResourceId) -> ResourceId {
        id
    }
}

/// Layouts by place: each is that of the type at its place in an arena.
#[derive(Drop)]
pub struct Layouts {
    pub(crate) by_place: Vec<Layout>,
}

impl Layouts {
    /// No layouts.
    pub fn new(alloc: Global) -> Layouts
        ensures { layouts_in result ≡ [] }
    {
        Layouts {
            by_place: Vec::new(alloc),
        }
    }

    /// The layouts of the types of an arena. Each costs what its definition says, and shares the
    /// layouts of what it holds. `AllocError` comes where there is no memory for them.
    pub fn of(alloc: Global, types: &Types) -> Result<Layouts, AllocError>
        ensures { IfOk result (λ ls. layouts_in ls ≡ map layout_at (types_of types.now)) }
    {
        let mut layouts = Layouts::new(alloc);
        layouts.extend(alloc, types)?;
        Ok(layouts)
    }

    /// The layouts of the types of an arena, each with what stands for a resource in its place.
    /// Each costs what its definition says, and shares the layouts of what it holds. `AllocError`
    /// comes where there is no memory for them.
    pub fn of_replaced<R: Replacement>(
        alloc: Global,
        types: &Types,
        by: &R,
    ) -> Result<Layouts, AllocError>
        ensures { IfOk result (λ ls. layouts_in ls
            ≡ map layout_at (types_by (R.replacement by.now) (types_of types.now))) }
    {
        let mut by_place = Vec::with_capacity(alloc, types.len())?;
        for place in 0..types.len() {
            let layout = place_layout(alloc, types, place, &by_place, by)?;
            by_place.push(layout)?;
        }
        Ok(Layouts { by_place })
    }

    /// Adds the layouts of the types that were added to an arena since its first types were laid
    /// out; those are not looked at again. `AllocError` comes where there is no memory for one; the
    /// layouts are then still those of the arena's first types.
    pub fn extend(&mut self, alloc: Global, types: &Types) -> Result<(), AllocError>
        requires { AreOfFirst (layouts_in self.old) (types_of types.now) }
        ensures all { OnOk result (layouts_in self.new ≡ map layout_at (types_of types.now)) }
        ensures first { AreOfFirst (layouts_in self.new) (types_of types.now) }
    {
        for place in self.by_place.len()..types.len() {
            let layout = own_layout(alloc, types, place, &self.by_place)?;
            self.by_place.push(layout)?;
        }
        Ok(())
    }

    /// The layout of the type at a place.
    pub fn get(&self, place: usize) -> &Layout
        requires { place < length (layouts_in self.now) }
        ensures { layout_of result.now ≡ at_place (layouts_in self.now) place }
    {
        &self.by_place[place]
    }

    /// The layout of the parameters of a function, as that of the tuple of them, which is how they
    /// lie in memory where they are passed by a pointer (CanonicalABI.md, "Flattening"), with the
    /// resources of these layouts; `func` is the function's place among those of the arena.
    /// `AllocError` comes where there is no memory for it.
    pub fn params(&self, alloc: Global, types: &Types, func: usize) -> Result<Layout, AllocError>
        requires there { func < length (funcs_of types.now) }
        requires laid { (s : Standing)
            × (layouts_in self.now ≡ map layout_at (types_by s (types_of types.now))) }
        ensures { IfOk result (λ l. (s : Standing)
            → layouts_in self.now ≡ map layout_at (types_by s (types_of types.now))
            → layout_of l ≡ layout_of_fields_at
            (replaced_fields s (func_at (funcs_of types.now) func).params)) }
    {
        what_stays();
        let _func = types.func(func);
        fields_layout(alloc, types.func_params(func), &self.by_place)
    }

    /// The layout of the result of a function, as that of the tuple of it, of one field or of none,
    /// with the resources of these layouts; `func` is the function's place among those of the
    /// arena. `AllocError` comes where there is no memory for it.
    pub fn result(&self, alloc: Global, types: &Types, func: usize) -> Result<Layout, AllocError>
        requires there { func < length (funcs_of types.now) }
        requires laid { (s : Standing)
            × (layouts_in self.now ≡ map layout_at (types_by s (types_of types.now))) }
        ensures { IfOk result (λ l. (s : Standing)
            → layouts_in self.now ≡ map layout_at (types_by s (types_of types.now))
            → layout_of l ≡ layout_of_fields_at
            (result_fields (option_map (replaced s) (func_at (funcs_of types.now) func).result))) }
    {
        match types.func_result(func) {
            None => fields_layout(alloc, &[], &self.by_place),
            Some(place) => self.one(alloc, types, place),
        }
    }

    /// The layout of the tuple of the type at a place.
    fn one(&self, alloc: Global, types: &Types, place: usize) -> Result<Layout, AllocError>
        requires there { place < length (types_of types.now) }
        requires laid { (s : Standing)
            × (layouts_in self.now ≡ map layout_at (types_by s (types_of types.now))) }
        ensures { IfOk result (λ l. (s : Standing)
            → layouts_in self.now ≡ map layout_at (types_by s (types_of types.now))
            → layout_of l ≡ layout_of_fields_at
            (result_fields (Some (replaced s (type_at (types_of types.now) place))))) }
    {
        what_stays();
        types_are_lawful(types, place);
        fields_layout(alloc, &[place], &self.by_place)
    }
}

/// The layout of the type at a place with its resources replaced, over those of the types before
/// it.
fn place_layout<R: Replacement>(
    alloc: Global,
    types: &Types,
    place: usize,
    layouts: &[Layout],
    by: &R,
) -> Result<Layout, AllocError>
    requires there { place < length (types_of types.now) }
    requires before { map layout_of layouts.now
        ≡ take place (map layout_at (types_by (R.replacement by.now) (types_of types.now))) }
    ensures { IfOk result (λ l. layout_of l
        ≡ layout_at (type_at (types_by (R.replacement by.now) (types_of types.now)) place)) }
{
    what_stays();
    let tree = types.tree(place)?;
    node_layout(alloc, &tree.root, types.parts(place), layouts, by)
}

/// The layout of the type at a place, over those of the types before it.
fn own_layout(
    alloc: Global,
    types: &Types,
    place: usize,
    layouts: &[Layout],
) -> Result<Layout, AllocError>
    requires there { place < length (types_of types.now) }
    requires before { map layout_of layouts.now ≡ take place (map layout_at (types_of types.now)) }
    ensures { IfOk result (λ l. layout_of l ≡ layout_at (type_at (types_of types.now) place)) }
{
    unmoved();
    place_layout(alloc, types, place, layouts, &Itself)
}
