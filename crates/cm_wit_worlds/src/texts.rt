//! The names of packages, interfaces and worlds.

ghost use Rattle.std.specs.Prelude.{◌≡◌, ◌≢◌, ◌++◌, ℕ, List, IfOk, MatchOption, OnOk};
ghost use Rattle.std.specs.Option.{option_copied};
ghost use Rattle.std.specs.String.{string_bytes};
ghost use Rattle.cm_types.specs.ExternNames.{version_suffix};
ghost use Rattle.cm_wit_reading.specs.Views.{file_tree};
ghost use Rattle.cm_wit_worlds.specs.Interfaces.{full_name, package_name, package_text};

use cm_types::Label;
use cm_wit_reading::{Version, WitFile};
use std::alloc::{AllocError, Global};

fn add_version(out: &mut String, version: &Option<Version>) -> Result<(), AllocError>
    ensures { OnOk result
        (string_bytes out.new ≡ string_bytes out.old ++ version_suffix version.now) }
{
    if let Some(version) = version {
        out.push_str("@")?;
        out.push_str(version.as_str())?;
    }
    Ok(())
}

/// The name of a package with its version. Refused only where there is no memory.
pub fn package_text(
    alloc: Global,
    namespace: &Label,
    name: &Label,
    version: &Option<Version>,
) -> Result<String, AllocError>
    ensures { IfOk result (λ text.
        string_bytes text ≡ package_text namespace.now name.now version.now) }
{
    let mut out = String::from_str(alloc, namespace.as_str())?;
    out.push_str(":")?;
    out.push_str(name.as_str())?;
    add_version(&mut out, version)?;
    Ok(out)
}

/// The name of a package with its version. Refused only where there is no memory.
pub fn package_name(alloc: Global, file: &WitFile) -> Result<String, AllocError>
    ensures { IfOk result (λ text. string_bytes text ≡ package_name (file_tree file.now)) }
{
    package_text(alloc, &file.namespace, &file.package, &file.version)
}

/// The full name of an interface or a world of a package. Refused only where there is no memory.
pub fn full_name(alloc: Global, file: &WitFile, name: &Label) -> Result<String, AllocError>
    ensures { IfOk result (λ text. string_bytes text ≡ full_name (file_tree file.now) name.now) }
{
    let mut out = String::from_str(alloc, file.namespace.as_str())?;
    out.push_str(":")?;
    out.push_str(file.package.as_str())?;
    out.push_str("/")?;
    out.push_str(name.as_str())?;
    add_version(&mut out, &file.version)?;
    Ok(out)
}

/// What follows a label and a separator in a text, where they begin it.
fn behind<'n>(text: &'n str, label: &Label, separator: &str) -> Option<&'n str>
    ensures { MatchOption result
        ((rest : List ℕ) → text.now ≢ label.now ++ (separator.now ++ rest))
        (λ rest. text.now ≡ label.now ++ (separator.now ++ rest.now)) }
{
    text.strip_prefix(label.as_str())?.strip_prefix(separator)
}

/// What stands before `@` and a version in a text, where they end it; without a version all of it.
fn before_version<'n>(text: &'n str, version: &Option<Version>) -> Option<&'n str>
    ensures { MatchOption result
        ((rest : List ℕ) → text.now ≢ rest ++ version_suffix version.now)
        (λ rest. text.now ≡ rest.now ++ version_suffix version.now) }
{
    match version {
        Some(version) => text.strip_suffix(version.as_str())?.strip_suffix("@"),
        None => Some(text),
    }
}

/// The label with which a text is the full name of an interface or a world of a package, if there
/// is one.
pub fn label_in<'n>(file: &WitFile, text: &'n str) -> Option<&'n str>
    ensures { MatchOption result
        ((label : List ℕ) → text.now ≢ full_name (file_tree file.now) label)
        (λ label. text.now ≡ full_name (file_tree file.now) label.now) }
{
    let rest = behind(text, &file.namespace, ":")?;
    before_version(behind(rest, &file.package, "/")?, &file.version)
}
