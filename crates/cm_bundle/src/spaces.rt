//! The index spaces of functions and of instances (Binary.md, "Index Spaces").

ghost use Rattle.std.specs.Prelude.{◌≡◌, ◌+◌, ◌<◌, ◌≤◌, ◌^◌, length, map, IfOk};
ghost use Rattle.cm_bundle.specs.Fronts.{front_spaces};
ghost use Rattle.cm_bundle.specs.Spelled.{next_index, next_component, counted, all_counted};
ghost use Rattle.cm_bundle.specs.Spelled.{no_spaces, exports_of};
ghost use Rattle.cm_bundle.specs.Trees.{supply_tree};
ghost use Rattle.cm_bundle.specs.Room.{HasRoom, spaces_of};

use crate::form::{Sort, Supply};
use std::alloc::{AllocError, Global};

/// How many functions and instances there are.
#[derive(Clone, Copy)]
pub struct Counts {
    pub functions: u64,
    pub instances: u64,
    /// How many of the places of instances are of no part: one in an open bundle.
    pub fronts: usize,
}

/// The counts before anything stands in a closed bundle.
pub const NO_COUNTS: Counts = Counts {
    functions: 0,
    instances: 0,
    fronts: 0,
};

/// The counts before anything stands in an open bundle.
pub const FRONT_COUNTS: Counts = Counts {
    functions: 0,
    instances: 0,
    fronts: 1,
};

/// The index spaces in front of the parts, with the places of instances so far.
#[derive(Drop)]
pub struct FrontSpaces {
    pub counts: Counts,
    pub places: Vec<u64>,
}

/// The index spaces of a closed bundle before its parts.
pub fn no_spaces(alloc: Global) -> FrontSpaces
    ensures { spaces_of result ≡ no_spaces }
{
    FrontSpaces {
        counts: NO_COUNTS,
        places: Vec::new(alloc),
    }
}

/// The index spaces behind the instance of what is imported, which is passed on so.
pub fn front_spaces(alloc: Global, supplies: &[Supply<'_>]) -> Result<FrontSpaces, AllocError>
    requires { length supplies.now < 2 ^ 60 }
    ensures spaces { IfOk result (λ s. spaces_of s ≡ front_spaces (map supply_tree supplies.now)) }
    ensures functions { IfOk result (λ s. s.counts.functions < 2 ^ 61) }
    ensures instances { IfOk result (λ s. s.counts.instances < 2 ^ 61) }
{
    let aliased = FRONT_COUNTS.all_counted(supplies);
    let mut places = Vec::new(alloc);
    places.push(aliased.instances)?;
    Ok(FrontSpaces {
        counts: aliased.counted(Sort::Instance),
        places,
    })
}

impl Counts {
    /// The index that the next one of this sort gets.
    pub fn next_index(self, sort: Sort) -> u64
        ensures { result ≡ next_index self sort }
    {
        match sort {
            Sort::Func => self.functions,
            Sort::Instance => self.instances,
        }
    }

    /// The component of the next part, where instances have these places.
    pub fn next_component(self, places: &[u64]) -> usize
        ensures { result ≡ next_component self places.now }
    {
        places.len().saturating_sub(self.fronts)
    }

    /// With one more of this sort.
    pub fn counted(self, sort: Sort) -> Counts
        requires { HasRoom self 1 }
        ensures { result ≡ counted self sort }
    {
        match sort {
            Sort::Func => Counts {
                functions: self.functions + 1,
                instances: self.instances,
                fronts: self.fronts,
            },
            Sort::Instance => Counts {
                functions: self.functions,
                instances: self.instances + 1,
                fronts: self.fronts,
            },
        }
    }

    /// With an alias of each of these more.
    pub fn all_counted(self, supplies: &[Supply<'_>]) -> Counts
        requires { HasRoom self (length supplies.now) }
        ensures counted { result
            ≡ all_counted self (exports_of (map supply_tree supplies.now)) }
        ensures functions { result.functions ≤ self.functions + length supplies.now }
        ensures instances { result.instances ≤ self.instances + length supplies.now }
    {
        let mut counts = self;
        for supply in supplies {
            counts = counts.counted(supply.export.sort);
        }
        counts
    }
}
