//! The exports of the components before, by name and version.

ghost use Rattle.std.specs.Prelude.{◌≡◌, List, [], ◌∷◌, ◌++◌, IfOk, None, OnErr, OnOk, Some};
ghost use Rattle.std.specs.BTreeMap.{get};
ghost use Rattle.std.specs.String.{string_bytes};
ghost use Rattle.semver.specs.Identifiers.{parts_of};
ghost use Rattle.cm_match_model.specs.Fitting.{NamedExport, candidates, named_export, only};
ghost use Rattle.cm_match_serving.specs.Greatest.{from_row};
ghost use Rattle.cm_match_serving.specs.Readings.{name_read, row_of, series_order, series_view};
ghost use Rattle.cm_match_serving.specs.ExportTables.{Answers, HasExports, IsAnswer};

use crate::greatest::Greatest;
use crate::readings::{Versioned, read};
use crate::series::Series;
use crate::unversioned::NameTable;
use cm_match_model::Candidate;
use cm_types::ExternName;
use semver::Version;
use std::alloc::{AllocError, Global};
use std::collections::BTreeMap;

/// The exports of components, added one after another.
///
/// What fits an import is found in a time that grows with the length of its name and the logarithm
/// of the number of exports, however many versions of one interface there are: of each series of
/// compatible versions only the two greatest are kept.
#[derive(Drop)]
pub struct Exports {
    alloc: Global,
    /// Those without a version.
    names: NameTable,
    /// Those with one.
    rows: BTreeMap<Series, Greatest>,
}

/// The series of an export with a version.
fn series_of(name: String, version: &Version) -> Series
    ensures { series_view result ≡ row_of (string_bytes name) (Some (parts_of version.now)) }
{
    if version.pre.is_empty() {
        Series::releases(name, version)
    } else {
        Series::prereleases(name, version)
    }
}

/// Adds an export with a version to the rows.
fn add_versioned(
    rows: &mut BTreeMap<Series, Greatest>,
    series: Series,
    version: Version,
    component: usize,
    export: usize,
) -> Result<(), AllocError>
    ensures ok { OnOk result ((es : List NamedExport) (e : NamedExport)
        → (name_read e.name).1 ≡ Some (parts_of version)
        → series_view series ≡ row_of (name_read e.name).0 (name_read e.name).1
        → e.component ≡ component → e.number ≡ export
        → Answers rows.old es → Answers rows.new (es ++ e ∷ [])) }
    ensures err { OnErr result ((es : List NamedExport) → Answers rows.old es
        → Answers rows.new es) }
{
    if let Some(greatest) = rows.get_mut(&series) {
        greatest.add(version, component, export);
    } else {
        let greatest = Greatest::new(version, component, export);
        rows.insert(series, greatest)?;
    }
    Ok(())
}

impl Exports {
    /// No exports.
    pub fn new(alloc: Global) -> Exports
        ensures { HasExports result [] }
    {
        Exports {
            alloc,
            names: NameTable::new(alloc),
            rows: BTreeMap::new(alloc),
        }
    }

    /// Makes room for so many exports more without a version. `AllocError` comes where there is no
    /// memory for it. The exports are what they were.
    pub(crate) fn reserve(&mut self, more: usize) -> Result<(), AllocError>
        ensures { (exports : List NamedExport) → HasExports self.old exports
            → HasExports self.new exports }
    {
        self.names.reserve(more)
    }

    /// Adds the export of this number of a component, behind those that were added before.
    /// `AllocError` comes where there is no memory for it, and the exports are then what they were.
    pub fn add(
        &mut self,
        name: &ExternName,
        component: usize,
        export: usize,
    ) -> Result<(), AllocError>
        ensures ok { OnOk result ((exports : List NamedExport) → HasExports self.old exports
            → HasExports self.new (exports ++ named_export component export name.now ∷ [])) }
        ensures err { OnErr result ((exports : List NamedExport) → HasExports self.old exports
            → HasExports self.new exports) }
    {
        match read(self.alloc, name)? {
            None => self.names.add(name.as_str(), component, export),
            Some(Versioned { name, version }) => {
                let series = series_of(name, &version);
                add_versioned(&mut self.rows, series, version, component, export)
            }
        }
    }

    fn from_series(&self, series: &Series, least: &Version) -> Candidate
        ensures { result ≡ from_row (get series_order self.now.rows series.now)
            (parts_of least.now) }
    {
        match self.rows.get(series) {
            Some(greatest) => greatest.from(least),
            None => Candidate::None,
        }
    }

    /// The exports that may serve an import of a name in this version. They are those of the
    /// compatible releases that are not before it, and, where it has a pre-release, those of the
    /// pre-releases of the same release that are not before it.
    fn versioned(&self, name: String, version: &Version) -> Candidate
        ensures { IsAnswer self.now (string_bytes name, Some (parts_of version.now)) result }
    {
        let releases = Series::releases(name, version);
        let candidate = self.from_series(&releases, version);
        if version.pre.is_empty() {
            return candidate;
        }
        let prereleases = Series::prereleases(releases.name, version);
        candidate.and_also(self.from_series(&prereleases, version))
    }

    /// The exports that may serve an import of this name: those of the same name, and those of the
    /// same interface in a version that meets the requirement `^` and the import's version, as
    /// Cargo reads it: build metadata does not count, and a pre-release serves only an import of a
    /// pre-release of the same release. `AllocError` comes where there is no memory for reading the
    /// name.
    pub fn candidate(&self, alloc: Global, wanted: &ExternName) -> Result<Candidate, AllocError>
        ensures { IfOk result (λ c. (exports : List NamedExport) → HasExports self.now exports
            → c ≡ only (candidates exports wanted.now)) }
    {
        match read(alloc, wanted)? {
            Some(Versioned { name, version }) => Ok(self.versioned(name, &version)),
            None => Ok(self.names.candidate(wanted.as_str())),
        }
    }
}
