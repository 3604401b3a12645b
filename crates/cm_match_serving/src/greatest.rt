//! The greatest versions of a series.

ghost use Rattle.std.specs.Prelude.{◌≡◌};
ghost use Rattle.semver.specs.Identifiers.{parts_of};
ghost use Rattle.semver.specs.Parse.{Parts};
ghost use Rattle.cm_match_model.specs.declared.candidates.Candidate.TheVariants as candidate;
ghost use Rattle.cm_match_serving.specs.Greatest.{from_greatest, has_from, if_not_below};
ghost use Rattle.cm_match_model.specs.Fitting.{and_also};
ghost use Rattle.cm_match_serving.specs.Readings.{is_below};

use cm_match_model::Candidate;
use semver::Version;
use std::cmp::Ordering;
use std::mem;

/// The export of the greatest version in a series, and the version next to it. Exports of one
/// version are next to each other.
#[derive(Drop)]
pub(crate) struct Greatest {
    pub version: Version,
    pub component: usize,
    pub export: usize,
    pub next: Option<Version>,
}

/// Whether a version is before another; build metadata does not count.
fn is_below(version: &Version, least: &Version) -> bool
    ensures { result ≡ is_below (parts_of version.now) (parts_of least.now) }
{
    version.cmp_precedence(least) == Ordering::Less
}

fn has_from(least: &Version, version: &Option<Version>) -> bool
    ensures { result ≡ has_from (parts_of least.now) version.now }
{
    match version {
        Some(version) => !is_below(version, least),
        None => false,
    }
}

impl Greatest {
    /// A row of one export alone.
    pub fn new(version: Version, component: usize, export: usize) -> Greatest
        ensures { (least : Parts) → from_greatest result least
            ≡ if_not_below (is_below (parts_of version) least) (candidate.One component export) }
    {
        Greatest {
            version,
            component,
            export,
            next: None,
        }
    }

    /// The exports whose versions are not before this one.
    pub fn from(&self, least: &Version) -> Candidate
        ensures { result ≡ from_greatest self.now (parts_of least.now) }
    {
        if is_below(&self.version, least) {
            Candidate::None
        } else if has_from(least, &self.next) {
            Candidate::Several
        } else {
            Candidate::One {
                component: self.component,
                export: self.export,
            }
        }
    }

    /// Adds one more export.
    pub fn add(&mut self, version: Version, component: usize, export: usize)
        ensures { (least : Parts) → from_greatest self.new least
            ≡ and_also (from_greatest self.old least)
            (if_not_below (is_below (parts_of version) least)
            (candidate.One component export)) }
    {
        if is_below(&self.version, &version) {
            self.next = Some(mem::replace(&mut self.version, version));
            self.component = component;
            self.export = export;
        } else if !has_from(&version, &self.next) {
            self.next = Some(version);
        }
    }
}
