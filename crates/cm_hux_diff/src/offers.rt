//! Imports or exports by their names.

ghost use Rattle.std.specs.Prelude.{◌≡◌, ◌++◌, ◌∷◌, [], IfOk, List, OnOk, filter};
ghost use Rattle.cm_types_arena.specs.declared.types.Types.{Types};
ghost use Rattle.cm_match_model.specs.Fitting.{NamedExport, candidates, named_export, only};
ghost use Rattle.cm_match_model.specs.Ranges.{exports_named};
ghost use Rattle.cm_match_serving.specs.ExportTables.{HasExports};
ghost use Rattle.cm_wit_conforms.specs.Places.{extern_names, place_in};
ghost use Rattle.cm_hux_diff.specs.Facing.{best_face, face_of, found, greatest, host_face, is_one};
ghost use Rattle.cm_hux_diff.specs.Facing.{one_or_several};

use crate::facing::Face;
use crate::names::names_of;
use cm_match_model::Candidate;
use cm_match_serving::Exports;
use cm_types::ExternName;
use cm_types_arena::Externs;
use std::alloc::{AllocError, Global};

/// Imports or exports by their names, and which of them fit a name.
#[derive(Drop)]
pub(crate) struct Offers {
    pub(crate) names: Vec<ExternName>,
    table: Exports,
    /// Of compatible versions the greatest alone.
    kept: Exports,
    ghost told: { ∥ HasExports table (exports_named 0 names.items) ∥₁ },
    ghost keeps: { ∥ HasExports kept (greatest names.items) ∥₁ },
}

fn table_of(alloc: Global, names: &[ExternName]) -> Result<Exports, AllocError>
    ensures { IfOk result (λ table. HasExports table (exports_named 0 names.now)) }
{
    let mut table = Exports::new(alloc);
    for (place, name) in names.iter().enumerate() {
        table.add(name, 0, place)?;
    }
    Ok(table)
}

/// Adds a name at a place, where nothing else of a table that has it fits it.
fn add_greatest(
    alloc: Global,
    table: &Exports,
    kept: &mut Exports,
    place: usize,
    name: &ExternName,
) -> Result<(), AllocError>
    ensures { OnOk result ((all before : List NamedExport) → HasExports table.now all
        → HasExports kept.old before
        → HasExports kept.new (before ++ filter
        (λ e. is_one (only (candidates all e.name))) (named_export 0 place name.now ∷ []))) }
{
    match table.candidate(alloc, name)? {
        Candidate::One { .. } => kept.add(name, 0, place),
        Candidate::None => Ok(()),
        Candidate::Several => Ok(()),
    }
}

/// The greatest of compatible versions, by a table of all.
fn greatest_of(alloc: Global, table: &Exports, names: &[ExternName]) -> Result<Exports, AllocError>
    requires { HasExports table.now (exports_named 0 names.now) }
    ensures { IfOk result (λ kept. HasExports kept (greatest names.now)) }
{
    let mut kept = Exports::new(alloc);
    for (place, name) in names.iter().enumerate() {
        add_greatest(alloc, table, &mut kept, place, name)?;
    }
    Ok(kept)
}

/// What candidates are as a face.
pub(crate) fn face_of(candidate: Candidate) -> Face
    ensures { result ≡ face_of candidate }
{
    match candidate {
        Candidate::None => Face::Nothing,
        Candidate::One { export, .. } => Face::One(export),
        Candidate::Several => Face::Several,
    }
}

impl Offers {
    /// These. Refused only where there is no memory.
    pub(crate) fn new(alloc: Global, externs: &Externs) -> Result<Offers, AllocError>
        ensures { IfOk result (λ o. (t : Types) → o.names.items ≡ extern_names t externs.now) }
    {
        let names = names_of(alloc, externs)?;
        let table = table_of(alloc, &names)?;
        let kept = greatest_of(alloc, &table, &names)?;
        Ok(Offers { names, table, kept })
    }

    /// What fits a name: nothing, one alone, or several.
    pub(crate) fn found(&self, alloc: Global, wanted: &ExternName) -> Result<Candidate, AllocError>
        ensures { IfOk result (λ c. c ≡ found self.now.names.items wanted.now) }
    {
        self.table.candidate(alloc, wanted)
    }

    /// What of the greatest fits a name.
    fn found_greatest(&self, alloc: Global, wanted: &ExternName) -> Result<Candidate, AllocError>
        ensures { IfOk result (λ c. c
            ≡ only (candidates (greatest self.now.names.items) wanted.now)) }
    {
        self.kept.candidate(alloc, wanted)
    }

    /// The greatest of several that fit a name.
    fn greatest_face(&self, alloc: Global, wanted: &ExternName) -> Result<Face, AllocError>
        ensures { IfOk result (λ f. f ≡ one_or_several
            (only (candidates (greatest self.now.names.items) wanted.now))) }
    {
        match self.found_greatest(alloc, wanted)? {
            Candidate::One { export, .. } => Ok(Face::One(export)),
            Candidate::None => Ok(Face::Several),
            Candidate::Several => Ok(Face::Several),
        }
    }

    /// What fits a name, or of several the greatest.
    pub(crate) fn best_face(&self, alloc: Global, wanted: &ExternName) -> Result<Face, AllocError>
        ensures { IfOk result (λ f. f ≡ best_face self.now.names.items wanted.now) }
    {
        match self.found(alloc, wanted)? {
            Candidate::None => Ok(Face::Nothing),
            Candidate::One { export, .. } => Ok(Face::One(export)),
            Candidate::Several => self.greatest_face(alloc, wanted),
        }
    }

    /// What faces an import at the place of the one that has its name, if one has.
    pub(crate) fn host_face(
        &self,
        alloc: Global,
        wanted: &ExternName,
        place: Option<usize>,
    ) -> Result<Face, AllocError>
        requires { place ≡ place_in self.now.names.items wanted.now }
        ensures { IfOk result (λ f. f ≡ host_face self.now.names.items wanted.now) }
    {
        match place {
            Some(place) => Ok(Face::One(place)),
            None => self.best_face(alloc, wanted),
        }
    }
}
