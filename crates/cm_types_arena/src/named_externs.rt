//! Imports and exports in both of their forms, one by one.

ghost use Rattle.std.specs.Prelude.{◌≡◌, true, IfSome, length, slice_get};
ghost use Rattle.std.specs.Option.{option_map};
ghost use Rattle.cm_types.specs.ExternNames.{HasLabels};
ghost use Rattle.cm_types.specs.ExternNameForms.{form_tree};
ghost use Rattle.cm_types_arena.specs.declared.types.Types.{Types};
ghost use Rattle.cm_types_arena.specs.Externs.{extern_desc_of, is_extern_there};
ghost use Rattle.cm_types_arena.specs.Shared.{is_shared_there, shared_desc_of};
ghost use Rattle.cm_types_arena.specs.Places.{funcs_of, types_of};

use crate::externs::ExternDesc;
use crate::instances::{Item, ItemDesc};
use crate::moves::Move;
use crate::placed::Placed;
use crate::{NumberedExterns, SharedDesc, SharedExterns, SharedItems};
use cm_types::ExternNameForm;

/// Imports or exports in order: those of a component, whose names are whole, or those of a world,
/// whose names share their fronts.
#[derive(Drop)]
pub enum Externs {
    OfComponent(NumberedExterns),
    OfWorld(SharedExterns),
}

/// The items of an instance in order, as an import or export counts their resources.
#[derive(Clone, Copy)]
pub enum Items<'a> {
    OfComponent { list: &'a [Item], by: Option<Move> },
    OfWorld(&'a SharedItems),
}

/// What an import or an export is.
#[derive(Clone, Copy)]
pub enum Desc<'a> {
    /// A function, by its type among those of functions.
    Func(Placed),
    Instance(Items<'a>),
}

/// An import or an export: what its name says, and what it is.
#[derive(Clone, Copy)]
pub struct NamedDesc<'a> {
    pub name: ExternNameForm<'a>,
    pub desc: Desc<'a>,
}

/// An item of an instance: what its name says, and what it is as it stands.
#[derive(Clone, Copy)]
pub struct NamedItem<'a> {
    pub name: ExternNameForm<'a>,
    pub desc: ItemDesc,
}

ghost use Rattle.cm_types_arena.specs.Listed.{is_desc_in};
ghost use Rattle.cm_types_arena.specs.Listed as listed;

/// What an import or an export of a component is.
fn component_desc(desc: &ExternDesc) -> Desc<'_>
    ensures is { (t : Types) → listed.desc_in t result
        ≡ extern_desc_of (types_of t) (funcs_of t) desc.now }
    ensures there { (t : Types) → is_desc_in t result
        ≡ is_extern_there (length (types_of t)) (length (funcs_of t)) desc.now }
{
    match desc {
        ExternDesc::Func(placed) => Desc::Func(*placed),
        ExternDesc::Instance { ty, by } => Desc::Instance(Items::OfComponent {
            list: &ty.items,
            by: *by,
        }),
    }
}

/// What an import or an export of a world is.
fn shared_desc(desc: &SharedDesc) -> Desc<'_>
    ensures is { (t : Types) → listed.desc_in t result
        ≡ shared_desc_of (types_of t) (funcs_of t) desc.now }
    ensures there { (t : Types) → is_desc_in t result
        ≡ is_shared_there (length (types_of t)) (length (funcs_of t)) desc.now }
{
    match desc {
        SharedDesc::Func(placed) => Desc::Func(*placed),
        SharedDesc::Instance(items) => Desc::Instance(Items::OfWorld(items)),
    }
}

impl Externs {
    ghost use Rattle.cm_types_arena.specs.Listed.{are_in, extern_in, externs_listed};
    ghost use Rattle.cm_types_arena.specs.Listed.{number_at};

    /// How many they are.
    pub fn len(&self) -> usize
        ensures { (t : Types) → result ≡ length (externs_listed t self.now) }
    {
        match self {
            Externs::OfComponent(numbered) => numbered.externs().len(),
            Externs::OfWorld(shared) => shared.externs.len(),
        }
    }

    /// The number of the one at a place, from 0, if it has one: those of one number are instances
    /// whose items have the same names in the same order.
    pub fn number(&self, place: usize) -> Option<usize>
        ensures { result ≡ number_at self.now place }
    {
        match self {
            Externs::OfComponent(numbered) => numbered.number(place),
            Externs::OfWorld(_) => None,
        }
    }

    /// The one at a place, from 0, if there is one.
    pub fn at(&self, place: usize) -> Option<NamedDesc<'_>>
        ensures is { (t : Types) → option_map (extern_in t) result
            ≡ slice_get (externs_listed t self.now) place }
        ensures there { (t : Types) → are_in t self.now ≡ true
            → IfSome result (λ e. is_desc_in t e.desc ≡ true) }
        ensures labels { IfSome result (λ e. HasLabels (form_tree e.name)) }
    {
        match self {
            Externs::OfComponent(numbered) => {
                let each = numbered.externs().get(place)?;
                Some(NamedDesc {
                    name: each.name.form(),
                    desc: component_desc(&each.desc),
                })
            }
            Externs::OfWorld(shared) => {
                let each = shared.externs.get(place)?;
                Some(NamedDesc {
                    name: each.name.form(&shared.fronts),
                    desc: shared_desc(&each.desc),
                })
            }
        }
    }
}

impl<'a> Items<'a> {
    ghost use Rattle.cm_types_arena.specs.Listed.{are_items_in, by_of, is_item_in, item_in};
    ghost use Rattle.cm_types_arena.specs.Listed.{items_listed};

    /// How many they are.
    pub fn len(self) -> usize
        ensures { (t : Types) → result ≡ length (items_listed t self.entry) }
    {
        match self {
            Items::OfComponent { list, .. } => list.len(),
            Items::OfWorld(shared) => shared.items.len(),
        }
    }

    /// The move that the import or export makes of their resources.
    pub fn by(self) -> Option<Move>
        ensures { result ≡ by_of self.entry }
    {
        match self {
            Items::OfComponent { by, .. } => by,
            Items::OfWorld(_) => None,
        }
    }

    /// The one at a place, from 0, as it stands, if there is one.
    pub fn at(self, place: usize) -> Option<NamedItem<'a>>
        ensures is { (t : Types) → option_map (item_in t) result
            ≡ slice_get (items_listed t self.entry) place }
        ensures there { (t : Types) → are_items_in t self.entry ≡ true
            → IfSome result (λ i. is_item_in t i.desc ≡ true) }
        ensures labels { IfSome result (λ i. HasLabels (form_tree i.name)) }
    {
        match self {
            Items::OfComponent { list, .. } => {
                let item = list.get(place)?;
                Some(NamedItem {
                    name: item.name.form(),
                    desc: item.desc,
                })
            }
            Items::OfWorld(shared) => {
                let item = shared.items.get(place)?;
                Some(NamedItem {
                    name: item.name.form(&shared.fronts),
                    desc: item.desc,
                })
            }
        }
    }
}
