//! Values under names.

ghost use Rattle.cm_validate_core.specs.NamedValues.{ArePlaced, names_in};

use std::alloc::{AllocError, Global};
use std::collections::BTreeMap;

/// Values under names, no two of which are the same text, in the order in which they came. A name
/// is found in a tree, so that no choice of names makes it slower than the logarithm of their
/// number, with the time that it takes to compare two names.
#[derive(Drop)]
pub struct NameMap<'a, V> {
    entries: Vec<(&'a str, V)>,
    /// The place of each name among the entries.
    places: BTreeMap<&'a str, usize>,
    ghost are_placed: { ArePlaced places (names_in entries.items) },
}

impl<'a, V> NameMap<'a, V> {
    ghost use Rattle.std.specs.Prelude.{◌≡◌, ◌++◌, ◌∷◌, [], IfOk, OnErr, OnOk, length, not};
    ghost use Rattle.std.specs.Prelude.{false, is_some, slice_get, true};
    ghost use Rattle.std.specs.Option.{option_map};
    ghost use Rattle.cm_validate_core.specs.NamedValues.{place_of, value_of};
    ghost use Rattle.cm_validate_core.specs.NameMaps.{entries_of};

    /// A map without names.
    pub fn new(alloc: Global) -> NameMap<'a, V>
        ensures { entries_of result ≡ [] }
    {
        NameMap {
            entries: Vec::new(alloc),
            places: BTreeMap::new(alloc),
        }
    }

    /// How many values there are.
    pub fn len(&self) -> usize
        ensures { result ≡ length (entries_of self.now) }
    {
        self.entries.len()
    }

    /// The place of a name, from 0, if it is there.
    pub fn place(&self, name: &str) -> Option<usize>
        ensures { result ≡ place_of name.now (names_in (entries_of self.now)) }
    {
        self.places.get(name).copied()
    }

    /// What stands under a name, if anything.
    pub fn get(&self, name: &str) -> Option<&V>
        ensures { option_map (λ v. v.now) result ≡ value_of name.now (entries_of self.now) }
    {
        let (_, value) = self.entries.get(self.place(name)?)?;
        Some(value)
    }

    /// The name and the value at a place, from 0, if there are so many.
    pub fn at(&self, place: usize) -> Option<&(&'a str, V)>
        ensures { option_map (λ e. e.now) result ≡ slice_get (entries_of self.now) place }
    {
        self.entries.get(place)
    }

    /// Puts a value under a name, last, and says whether the name was new; where it was not, what
    /// stood there stays. Refused only where there is no memory; nothing is changed then.
    pub fn insert(&mut self, name: &'a str, value: V) -> Result<bool, AllocError>
    where
        V: Drop,
        ensures told { IfOk result (λ new.
            new ≡ not (is_some (place_of name.now (names_in (entries_of self.old))))) }
        ensures added { OnOk result
            (is_some (place_of name.now (names_in (entries_of self.old))) ≡ false
            → entries_of self.new ≡ entries_of self.old ++ (name.entry, value) ∷ []) }
        ensures same { OnOk result
            (is_some (place_of name.now (names_in (entries_of self.old))) ≡ true
            → entries_of self.new ≡ entries_of self.old) }
        ensures kept { OnErr result (entries_of self.new ≡ entries_of self.old) }
    {
        if self.places.contains_key(name) {
            return Ok(false);
        }
        let place = self.entries.len();
        self.entries.reserve(1)?;
        self.places.insert(name, place)?;
        self.entries.push((name, value))?;
        Ok(true)
    }
}
