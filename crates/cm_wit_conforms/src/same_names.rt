//! Imports, exports and items that have one name.

ghost use Rattle.std.specs.Prelude.{◌≡◌, IfOk, map};
ghost use Rattle.cm_types_arena.specs.declared.types.Types.{Types};
ghost use Rattle.cm_wit_conforms.specs.Listings.{AreNames};
ghost use Rattle.cm_wit_conforms.specs.Places.{extern_names, item_names, place_in};

use crate::listing::{ListedNames, component_externs, component_items, world_externs, world_items};
use crate::places::NameTable;
use cm_types_arena::{Externs, Items};
use std::alloc::{AllocError, Global};

fn listed_externs(alloc: Global, externs: &Externs) -> Result<ListedNames<'_>, AllocError>
    ensures { IfOk result (λ l. (t : Types) → AreNames l (extern_names t externs.now)) }
{
    match externs {
        Externs::OfComponent(numbered) => component_externs(alloc, numbered.externs()),
        Externs::OfWorld(shared) => world_externs(alloc, &shared.fronts, &shared.externs),
    }
}

/// The names of items.
pub(crate) fn listed_items(alloc: Global, items: Items<'_>) -> Result<ListedNames<'_>, AllocError>
    ensures { IfOk result (λ l. (t : Types) → AreNames l (item_names t items.entry)) }
{
    match items {
        Items::OfComponent { list, .. } => component_items(alloc, list),
        Items::OfWorld(shared) => world_items(alloc, &shared.fronts, &shared.items),
    }
}

/// For each of these imports or exports the place, from 0, of the first of the others that has its
/// name, if one has. It takes time linear in the texts that both hold, each front that names share
/// once, with a search for each name and each front. Refused only where there is no memory.
pub fn extern_places(
    alloc: Global,
    externs: &Externs,
    others: &Externs,
) -> Result<Vec<Option<usize>>, AllocError>
    ensures { IfOk result (λ v. (t u : Types) → v.items
        ≡ map (place_in (extern_names u others.now)) (extern_names t externs.now)) }
{
    let names = listed_externs(alloc, externs)?;
    let theirs = listed_externs(alloc, others)?;
    let table = NameTable::new(alloc, &theirs)?;
    table.places(alloc, &names)
}
