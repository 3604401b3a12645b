//! Tables of the first of keys.

ghost use Rattle.std.specs.Prelude.{◌≡◌, ◌≤◌, ℕ, None, length};
ghost use Rattle.std.specs.BTreeMap.{get};
ghost use Rattle.cm_names.specs.Distinct.{AreDistinct};
ghost use Rattle.cm_names.specs.TextTables.{texts_of};
ghost use Rattle.cm_wit_names.specs.Pairs.{pair_cmp};

use crate::others::put_new;
use cm_names::TextTable;
use std::alloc::{AllocError, Global};
use std::collections::BTreeMap;

/// For each key, a number and a name, the place of the first.
///
/// A name is found by its hash, or in a tree (`TextTable`); of the numbers that it stands under the
/// first is beside it, and others are in a tree. So no choice of keys makes one slower to find than
/// the two trees do, but for 16 comparisons.
#[derive(Drop)]
pub struct FirstKeys {
    alloc: Global,
    /// The names, each once.
    names: TextTable,
    /// For each name the number of its first key, and the place of that key.
    firsts: Vec<(usize, usize)>,
    /// The places of the first keys under other numbers, each by the index of its name and by its
    /// number.
    others: BTreeMap<(usize, usize), usize>,
    ghost distinct: { AreDistinct (texts_of names) },
    ghost as_many: { length firsts.items ≡ length (texts_of names) },
    ghost of_names: { (i n : ℕ) → length firsts.items ≤ i → get pair_cmp others (i, n) ≡ None },
}

impl FirstKeys {
    ghost use Rattle.std.specs.Prelude.{IfOk, List, OnOk, is_some, not, slice_get};
    ghost use Rattle.cm_names.specs.TextNumbers.{number_in};
    ghost use Rattle.cm_wit_names.specs.FirstKeys.{Notes, first_under, look_up, place_at};

    /// No keys.
    pub fn new(alloc: Global) -> FirstKeys
        ensures { (n : ℕ) (name : List ℕ) → look_up result n name ≡ None }
    {
        FirstKeys {
            alloc,
            names: TextTable::new(alloc),
            firsts: Vec::new(alloc),
            others: BTreeMap::new(alloc),
        }
    }

    /// The index of a name, if it is there.
    #[tactic(auto, using(crate::proofs::FirstLaws::number_is))]
    fn index_of(&self, name: &str) -> Option<usize>
        ensures { result ≡ number_in (texts_of self.now.names) name.now }
    {
        self.names.number(name)
    }

    /// The place of the first key of this number and the name of an index.
    fn place_at(&self, number: usize, index: usize) -> Option<usize>
        ensures { result ≡ place_at self.now number index }
    {
        match self.firsts.get(index) {
            Some((first, place)) if number == *first => Some(*place),
            _ => self.others.get(&(index, number)).copied(),
        }
    }

    /// The place of the first key that is this number and name, if there is one.
    pub fn find(&self, number: usize, name: &str) -> Option<usize>
        ensures { result ≡ look_up self.now number name.now }
    {
        let index = self.index_of(name)?;
        self.place_at(number, index)
    }

    /// Puts the place of a key whose name is not there yet.
    fn add(&mut self, number: usize, name: &str, place: usize) -> Result<(), AllocError>
        requires { number_in (texts_of self.old.names) name.now ≡ None }
        ensures { OnOk result (Notes (number, name.now) place self.old self.new) }
    {
        let copy = String::from_str(self.alloc, name)?;
        self.firsts.reserve(1)?;
        self.names.add(copy)?;
        self.firsts.push_reserved((number, place));
        Ok(())
    }

    /// Whether the first key of the name of an index has this number.
    fn is_first(&self, number: usize, index: usize) -> bool
        ensures { result ≡ is_some (first_under number (slice_get self.now.firsts.items index)) }
    {
        self.firsts
            .get(index)
            .is_some_and(|first| first.0 == number)
    }

    /// Puts the place of a key, a number and a name, unless one stands for it. Answers whether none
    /// did. `AllocError` comes where there is no memory, and the table is to be dropped then.
    pub fn note(&mut self, number: usize, name: &str, place: usize) -> Result<bool, AllocError>
        ensures noted { IfOk result (λ _. Notes (number, name.now) place self.old self.new) }
        ensures new { IfOk result (λ b. b ≡ not (is_some (look_up self.old number name.now))) }
    {
        let Some(index) = self.index_of(name) else {
            self.add(number, name, place)?;
            return Ok(true);
        };
        if self.is_first(number, index) {
            return Ok(false);
        }
        let is_new = put_new(&mut self.others, index, number, place)?;
        Ok(is_new)
    }
}
