//! The exports without a version, by name.

ghost use Rattle.std.specs.Prelude.{◌≡◌, ◌<◌, ◌++◌, ◌∷◌, [], List, None, OnErr, OnOk, Some};
ghost use Rattle.std.specs.Prelude.{false, length, set, slice_get};
ghost use Rattle.std.specs.List.{list_any};
ghost use Rattle.std.specs.Str.{bytes_eq};
ghost use Rattle.cm_names.specs.TextTables.{texts_of};
ghost use Rattle.cm_names.specs.Distinct.{AreDistinct};

use cm_match_model::Candidate;
use cm_names::TextTable;
use std::alloc::{AllocError, Global};

/// For each name without a version, the exports of that name: the only one, or that there are more.
#[derive(Drop)]
pub(crate) struct NameTable {
    alloc: Global,
    names: TextTable,
    /// By the number of the name.
    candidates: Vec<Candidate>,
    ghost distinct: { AreDistinct (texts_of names) },
    ghost long: { length candidates.items ≡ length (texts_of names) },
}

/// The candidates of a number, if it is there.
fn candidate_at(candidates: &[Candidate], number: usize) -> Candidate
    ensures { (c : Candidate) → slice_get candidates.now number ≡ Some c → result ≡ c }
{
    match candidates.get(number) {
        Some(candidate) => *candidate,
        None => Candidate::None,
    }
}

/// Puts other candidates at a number that is there.
fn replace(candidates: &mut Vec<Candidate>, number: usize, by: Candidate)
    requires { number < length candidates.old.items }
    ensures { candidates.new.items ≡ set candidates.old.items number by }
{
    candidates[number] = by;
}

impl NameTable {
    ghost use Rattle.cm_match_model.specs.Fitting.{NamedExport};
    ghost use Rattle.cm_match_serving.specs.Unversioned.{PutsName, StaysSame, TellNames};
    ghost use Rattle.cm_match_serving.specs.Readings.{name_read, only_named};

    /// No exports.
    pub fn new(alloc: Global) -> NameTable
        ensures { TellNames result [] }
    {
        NameTable {
            alloc,
            names: TextTable::new(alloc),
            candidates: Vec::new(alloc),
        }
    }

    /// Makes room for so many exports more. `AllocError` comes where there is no memory for it. The
    /// exports are what they were.
    pub fn reserve(&mut self, more: usize) -> Result<(), AllocError>
        ensures { (es : List NamedExport) → TellNames self.old es → TellNames self.new es }
    {
        self.candidates.reserve(more)?;
        self.names.reserve(more)
    }

    /// Adds the first export of a name.
    fn put(&mut self, name: &str, one: Candidate) -> Result<(), AllocError>
        requires { list_any (bytes_eq name.now) (texts_of self.old.names) ≡ false }
        ensures put { OnOk result (PutsName name.now one self.old self.new) }
        ensures same { OnErr result (StaysSame self.old self.new) }
    {
        let copy = String::from_str(self.alloc, name)?;
        self.candidates.reserve(1)?;
        self.names.add(copy)?;
        self.candidates.push_reserved(one);
        Ok(())
    }

    /// Adds an export. `AllocError` comes where there is no memory for its name, and the exports
    /// are then what they were. A name that is there already is not copied.
    pub fn add(&mut self, name: &str, component: usize, export: usize) -> Result<(), AllocError>
        ensures ok { OnOk result ((es : List NamedExport) (e : NamedExport)
            → name_read e.name ≡ (name.now, None)
            → e.component ≡ component → e.number ≡ export
            → TellNames self.old es → TellNames self.new (es ++ e ∷ [])) }
        ensures err { OnErr result ((es : List NamedExport) → TellNames self.old es
            → TellNames self.new es) }
    {
        let one = Candidate::One { component, export };
        match self.names.number(name) {
            Some(number) => {
                let both = candidate_at(&self.candidates, number).and_also(one);
                replace(&mut self.candidates, number, both);
                Ok(())
            }
            None => self.put(name, one),
        }
    }

    /// The exports of a name.
    pub fn candidate(&self, name: &str) -> Candidate
        ensures { (es : List NamedExport) → TellNames self.now es
            → result ≡ only_named name.now es }
    {
        match self.names.number(name) {
            Some(number) => candidate_at(&self.candidates, number),
            None => Candidate::None,
        }
    }
}
