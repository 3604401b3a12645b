//! Items that are known by their names, and where the names of other items meet them.

ghost use Rattle.std.specs.Prelude.{◌≡◌, ℕ, List, IfOk, map};
ghost use Rattle.cm_types_arena.specs.declared.types.Types.{Types};
ghost use Rattle.cm_wit_conforms.specs.Places.{item_names, place_in};

use crate::hits::{first_hits, places_with, repeats};
use crate::places::NameTable;
use crate::same_names::listed_items;
use cm_types_arena::Items;
use std::alloc::{AllocError, Global};
use std::collections::BTreeMap;

/// The items of an instance by their names (Explainer.md, "Import and Export Definitions"), kept so
/// that the names of other lists are found among them.
#[derive(Drop)]
pub struct KnownItems<'a> {
    table: NameTable<'a>,
    /// For each item the place of the first of its name.
    firsts: Vec<Option<usize>>,
    /// The places whose name stands earlier too: none in a valid component.
    repeats: Vec<usize>,
}

/// For items that are known the places where others of their names stand.
#[derive(Drop)]
pub struct Meeting<'t> {
    /// For each known item the place of the first of its name.
    firsts: &'t [Option<usize>],
    /// For the first known item of a name the place of the first of the others that has it.
    hits: BTreeMap<usize, usize>,
    places: Vec<usize>,
}

impl<'a> KnownItems<'a> {
    ghost use Rattle.cm_wit_conforms.specs.Known.{AreKnown, AreMet};

    /// These items by their names. It takes time linear in the texts that they hold, each front
    /// that names share once, with a search for each name and each front. Refused only where there
    /// is no memory.
    pub fn new(alloc: Global, items: Items<'a>) -> Result<KnownItems<'a>, AllocError>
        ensures { IfOk result (λ k. (t : Types) → AreKnown (item_names t items.entry) k) }
    {
        let names = listed_items(alloc, items)?;
        let table = NameTable::new(alloc, &names)?;
        let firsts = table.places(alloc, &names)?;
        let repeats = repeats(alloc, &firsts)?;
        Ok(KnownItems {
            table,
            firsts,
            repeats,
        })
    }

    /// For each of these items the place, from 0, of the first known one that has its name, if one
    /// has. It takes time linear in the texts of these items, each front that names share once,
    /// with a search for each name and each front. Refused only where there is no memory.
    pub fn places(&self, alloc: Global, items: Items<'_>) -> Result<Vec<Option<usize>>, AllocError>
        ensures { IfOk result (λ v. (u : Types) (texts : List (List ℕ)) → AreKnown texts self.now
            → v.items ≡ map (place_in texts) (item_names u items.entry)) }
    {
        let names = listed_items(alloc, items)?;
        self.table.places(alloc, &names)
    }

    /// Where the known items meet these. It costs as much as `places`, with a search more for each
    /// of these items, and time linear in the known items that are not the first of their names.
    /// Refused only where there is no memory.
    pub fn meet<'t>(&'t self, alloc: Global, others: Items<'_>) -> Result<Meeting<'t>, AllocError>
        ensures { IfOk result (λ m. (u : Types) (texts : List (List ℕ)) → AreKnown texts self.now
            → AreMet texts (item_names u others.entry) m) }
    {
        let found = self.places(alloc, others)?;
        let hits = first_hits(alloc, &found)?;
        let places = places_with(alloc, &found, &self.repeats)?;
        Ok(Meeting {
            firsts: &self.firsts,
            hits,
            places,
        })
    }
}

impl<'t> Meeting<'t> {
    ghost use Rattle.cm_wit_conforms.specs.Known.{found_at, places_in};

    /// The place, from 0, of the first of the others that has the name of the known item at a
    /// place, if there is such an item and one has it: a search.
    pub fn at(&self, place: usize) -> Option<usize>
        ensures { result ≡ found_at self.now place }
    {
        match self.firsts.get(place) {
            Some(Some(first)) => self.hits.get(first).copied(),
            Some(None) => None,
            None => None,
        }
    }

    /// The places, from 0, of all known items whose names the others have, in no order. Some may
    /// stand twice, and known items that are not the first of their names stand here always.
    pub fn places(&self) -> &[usize]
        ensures { result.now ≡ places_in self.now }
    {
        &self.places
    }
}
