//! What exports are found by.

ghost use Rattle.std.specs.Prelude.{◌≡◌};
ghost use Rattle.std.specs.String.{string_bytes};
ghost use Rattle.semver.specs.Identifiers.{parts_of};
ghost use Rattle.cm_match_serving.specs.Readings.{leading, prereleases_row, releases_row};
ghost use Rattle.cm_match_serving.specs.Readings.{series_view};

use semver::Version;

/// What kind of names a series has.
#[derive(Clone, Copy, PartialEq, Eq, PartialOrd, Ord)]
pub(crate) enum Kind {
    /// One name without a version; a `NameTable` has such names, and no row of `Exports` does.
    Unversioned,
    /// The releases of an interface that are compatible with one another.
    Releases,
    /// The pre-releases of one release of an interface.
    Prereleases,
}

/// Names of which each fits what asks for it, or for an earlier version.
#[derive(PartialEq, Eq, PartialOrd, Ord, Drop)]
pub(crate) struct Series {
    /// The name without its version.
    pub name: String,
    pub kind: Kind,
    pub major: u64,
    pub minor: u64,
    pub patch: u64,
}

/// The numbers of a version up to the first that is not 0: compatible releases share them.
fn leading(version: &Version) -> (u64, u64, u64)
    ensures { result ≡ leading (parts_of version.now) }
{
    if version.major > 0 {
        (version.major, 0, 0)
    } else if version.minor > 0 {
        (0, version.minor, 0)
    } else {
        (0, 0, version.patch)
    }
}

impl Series {
    /// The series of the releases that are compatible with a version.
    pub fn releases(name: String, version: &Version) -> Series
        ensures { series_view result
            ≡ releases_row (string_bytes name) (parts_of version.now) }
    {
        let (major, minor, patch) = leading(version);
        Series {
            name,
            kind: Kind::Releases,
            major,
            minor,
            patch,
        }
    }

    /// The series of the pre-releases of the release that a version is, or leads to.
    pub fn prereleases(name: String, version: &Version) -> Series
        ensures { series_view result
            ≡ prereleases_row (string_bytes name) (parts_of version.now) }
    {
        Series {
            name,
            kind: Kind::Prereleases,
            major: version.major,
            minor: version.minor,
            patch: version.patch,
        }
    }
}
