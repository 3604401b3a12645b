//! Versions of packages.

ghost use Rattle.std.specs.Prelude.{◌≡◌, true, false, IfOk, IsTrue, MatchOption};
ghost use Rattle.semver.specs.Parse.{memory_error};
ghost use Rattle.cm_types.specs.ExternNames.{is_version};

use semver::Error;
use std::alloc::{AllocError, Global};
use std::marker::Model;

/// The version of a package: a text that the crate `semver` reads as a version (WIT.md, "Package
/// declaration").
///
/// Contracts see a version as the bytes of its text.
#[derive(Drop)]
pub struct Version {
    text: String,
}

impl Model for Version {
    ghost use Rattle.std.specs.Prelude.{◌≡◌, ℕ, List, true};
    ghost use Rattle.std.specs.String.{string_bytes};
    ghost use Rattle.cm_types.specs.ExternNames.{is_version};

    ghost Value = { List ℕ };

    ghost view = { λ version. string_bytes version.text };

    ghost invariant = { λ version. is_version (string_bytes version.text) ≡ true };
}

impl Version {
    /// The text as a version, or `None` where it is none. Refused only where there is no memory.
    pub fn parse(alloc: Global, text: &str) -> Result<Option<Version>, AllocError>
        ensures { IfOk result (λ version. MatchOption version (is_version text.now ≡ false)
            (λ v. (v ≡ text.now) × (is_version text.now ≡ true))) }
    {
        if reads_as_version(alloc, text)? {
            let text = String::from_str(alloc, text)?;
            Ok(Some(Version { text }))
        } else {
            Ok(None)
        }
    }

    /// A copy of a text that is a version. Refused only where there is no memory.
    pub fn copied(alloc: Global, text: &str) -> Result<Version, AllocError>
        requires { is_version text.now ≡ true }
        ensures { IfOk result (λ v. v ≡ text.now) }
    {
        let text = String::from_str(alloc, text)?;
        Ok(Version { text })
    }

    /// The text of the version, as it was given.
    pub fn as_str(&self) -> &str
        ensures text { result.now ≡ self.now }
        ensures version { is_version result.now ≡ true }
    {
        self.text.as_str()
    }
}

fn is_want_of_memory(error: Error) -> bool
    ensures { error ≡ memory_error → IsTrue result }
{
    error == Error::from(AllocError)
}

/// Whether the crate `semver` reads the text as a version. Refused only where there is no memory.
pub(crate) fn reads_as_version(alloc: Global, text: &str) -> Result<bool, AllocError>
    ensures { IfOk result (λ b. b ≡ is_version text.now) }
{
    match semver::Version::parse(alloc, text) {
        Ok(_) => Ok(true),
        Err(error) if is_want_of_memory(error) => Err(AllocError),
        Err(_) => Ok(false),
    }
}
