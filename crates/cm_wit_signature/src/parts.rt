//! What the imports and exports of a world are made of.

ghost use Rattle.std.specs.Prelude.{◌≡◌, ◌+◌, ◌<◌, List, length};
ghost use Rattle.std.specs.Option.{option_map};
ghost use Rattle.cm_types.specs.Types.{Ty};
ghost use Rattle.cm_wit_worlds.specs.InterfaceViews.{placed_world};
ghost use Rattle.cm_wit_meanings.specs.Places.{scope_in};
ghost use Rattle.cm_wit_signature.specs.Signatures.{extern_func, func_at, item_func};
ghost use Rattle.cm_wit_reading.specs.Views.{extern_tree, world_item_tree};

use cm_names::Keys;
use cm_types::Label;
use cm_wit_meanings::{Meaning, Scope};
use cm_wit_reading::{Func, WitFile, WorldExtern, WorldItem};
use cm_wit_worlds::{PlacedInterface, PlacedWorld};

/// Packages, their interfaces, and a world of them.
#[derive(Clone, Copy)]
pub struct Sources<'p, 'a> {
    pub files: &'p [&'a WitFile],
    pub interfaces: &'p [PlacedInterface<'a>],
    pub world: &'p PlacedWorld<'a>,
}

/// What the imports and exports of a world are made of: the packages and the world, and what the
/// names of types stand for. The functions of the world itself have the list of names of number
/// `own`.
#[derive(Clone, Copy)]
pub struct Parts<'p, 'a> {
    pub sources: Sources<'p, 'a>,
    pub names: &'p Keys<'a>,
    pub table: &'p [Option<Meaning>],
    pub own: usize,
}

/// A function of the world itself, with its name.
#[derive(Clone, Copy)]
pub struct OwnFunc<'a> {
    pub name: &'a Label,
    pub func: &'a Func,
}

ghost use Rattle.cm_wit_signature.specs.PartViews.{own_func_view};

fn extern_func(what: &WorldExtern) -> Option<OwnFunc<'_>>
    ensures { option_map own_func_view result ≡ extern_func (extern_tree what.now) }
{
    match what {
        WorldExtern::Interface(_) => None,
        WorldExtern::Func(name, func) => Some(OwnFunc { name, func }),
    }
}

fn item_func(item: &WorldItem) -> Option<OwnFunc<'_>>
    ensures { option_map own_func_view result ≡ item_func (world_item_tree item.now) }
{
    match item {
        WorldItem::Import(what) => extern_func(what),
        WorldItem::Export(what) => extern_func(what),
    }
}

impl<'p, 'a> Parts<'p, 'a> {
    ghost use Rattle.cm_wit_signature.specs.PartViews.{own_func_view, scopes_in};

    /// What the names of a list stand for.
    pub fn scope(&self, list: usize) -> Scope<'p, 'a>
        ensures names { (types : List Ty) → scope_in types result ≡ scopes_in types self.now list }
        ensures table { result.table.now ≡ self.now.table.now }
    {
        Scope {
            names: self.names,
            table: self.table,
            list,
        }
    }

    /// The number of the front of the names of a package's interfaces, by the package's place.
    pub fn front_at(&self, place: usize) -> usize
        requires { place < length self.now.sources.files.now }
        ensures { result ≡ place + 1 }
    {
        prove!(place < self.sources.files.len());
        place + 1
    }

    /// The function that an item of the world has, by its place in the text.
    pub fn func_at(&self, item: usize) -> Option<OwnFunc<'a>>
        ensures { option_map own_func_view result
            ≡ func_at (placed_world self.now.sources.world.now) item }
    {
        let items: &'a [WorldItem] = &self.sources.world.world.items;
        item_func(items.get(item)?)
    }
}
