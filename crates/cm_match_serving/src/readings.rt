//! Names, with their versions read.

ghost use Rattle.std.specs.Prelude.{◌≡◌, IfOk, Some};
ghost use Rattle.std.specs.Result.{result_ok};
ghost use Rattle.semver.specs.Identifiers.{parts_of};
ghost use Rattle.semver.specs.Parse.{version_parts};
ghost use Rattle.cm_match_serving.specs.Readings.{HasForm, name_read, reading_view};

use cm_types::{ExternName, ExternNameForm};
use semver::Version;
use std::alloc::{AllocError, Global};

/// The name of an interface without its version, and the version.
#[derive(Drop)]
pub(crate) struct Versioned {
    pub name: String,
    pub version: Version,
}

/// Reads a text that is a version. `AllocError` comes where there is no memory for it.
fn read_version(alloc: Global, text: &str) -> Result<Version, AllocError>
    ensures { IfOk result (λ v. result_ok (version_parts text.now) ≡ Some (parts_of v)) }
{
    Version::parse(alloc, text).map_err(|_| AllocError)
}

/// Reads a name: what it is without its version, where it has one. Of a name without a version
/// nothing is copied. `AllocError` comes where there is no memory for it.
pub(crate) fn read(alloc: Global, name: &ExternName) -> Result<Option<Versioned>, AllocError>
    ensures read { IfOk result (λ r. reading_view name.now r ≡ name_read name.now) }
    ensures form { HasForm name.now }
{
    match name.form() {
        ExternNameForm::Interface {
            namespace,
            package,
            interface,
            version: Some(version),
        } => Ok(Some(Versioned {
            name: format!(in alloc; "{namespace}:{package}/{interface}")?,
            version: read_version(alloc, version)?,
        })),
        _ => Ok(None),
    }
}
