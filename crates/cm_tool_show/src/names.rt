//! Names, part by part.

ghost use Rattle.std.specs.Prelude.{◌++◌, ◌∷◌, []};
ghost use Rattle.std.specs.Option.{option_copied};
ghost use Rattle.cm_types.specs.ExternNames.{constructor, name_spelling, version_suffix};
ghost use Rattle.cm_types.specs.ExternNameForms.{form_tree};
ghost use Rattle.cm_tool_show.specs.Pieces.{chars};
ghost use Rattle.cm_tool_show.specs.Written.{Shows};

use crate::putting::put;
use crate::{Page, ShowFault};
use cm_types::ExternNameForm;

/// Adds what a name says.
pub(crate) fn put_name(page: &mut Page, name: ExternNameForm<'_>) -> Result<(), ShowFault>
    ensures { Shows (chars (name_spelling (form_tree name.entry)) ∷ []) page.old page.new result }
{
    match name {
        ExternNameForm::Label(label) => put(page, label),
        ExternNameForm::Method { resource, method } => {
            put_member(page, "[method]", resource, method)
        }
        ExternNameForm::Static { resource, function } => {
            put_member(page, "[static]", resource, function)
        }
        ExternNameForm::Constructor { resource } => put_constructor(page, resource),
        ExternNameForm::Interface {
            namespace,
            package,
            interface,
            version,
        } => {
            put_package(page, namespace, package)?;
            put(page, interface)?;
            put_version(page, version)
        }
    }
}

/// Adds the name of a member of a resource, which begins with this annotation.
fn put_member(page: &mut Page, word: &str, resource: &str, member: &str) -> Result<(), ShowFault>
    ensures { Shows (chars (word.now ++ resource.now ++ 46 ∷ member.now) ∷ []) page.old page.new
        result }
{
    put(page, word)?;
    put(page, resource)?;
    put(page, ".")?;
    put(page, member)
}

/// Adds the name of the constructor of a resource.
fn put_constructor(page: &mut Page, resource: &str) -> Result<(), ShowFault>
    ensures { Shows (chars (name_spelling (constructor resource.now)) ∷ []) page.old page.new
        result }
{
    put(page, "[constructor]")?;
    put(page, resource)
}

/// Adds the name of a package, and what stands between it and an interface.
fn put_package(page: &mut Page, namespace: &str, name: &str) -> Result<(), ShowFault>
    ensures { Shows (chars (namespace.now ++ 58 ∷ (name.now ++ 47 ∷ [])) ∷ []) page.old page.new
        result }
{
    put(page, namespace)?;
    put(page, ":")?;
    put(page, name)?;
    put(page, "/")
}

/// Adds a version behind the sign for it, if there is one.
fn put_version(page: &mut Page, version: Option<&str>) -> Result<(), ShowFault>
    ensures { Shows (chars (version_suffix (option_copied version.entry)) ∷ []) page.old page.new
        result }
{
    match version {
        None => Ok(()),
        Some(version) => {
            put(page, "@")?;
            put(page, version)
        }
    }
}
