//! Names by what stands in front of their last labels, and by these.

ghost use Rattle.std.specs.Prelude.{◌≡◌, ℕ, List, []};
ghost use Rattle.std.specs.Option.{option_copied};
ghost use Rattle.cm_types.specs.ExternNameForms.{form_tree};
ghost use Rattle.cm_types_arena.specs.SharedNames.{name_with};
ghost use Rattle.cm_wit_conforms.specs.Parts.{back_of, bare_front, front_of, package_front};

use cm_types::ExternNameForm;
use cm_types_arena::Front;

/// What stands in front of the last label of a name: the number of its form, and its texts, empty
/// where the form has none.
#[derive(Clone, Copy)]
pub(crate) struct FrontParts<'a> {
    pub(crate) form: usize,
    pub(crate) first: &'a str,
    pub(crate) second: &'a str,
    pub(crate) version: &'a str,
}

/// A name by the number of its front among others, from 0, and by its last label.
#[derive(Clone, Copy)]
pub(crate) struct NameParts<'a> {
    pub(crate) front: usize,
    pub(crate) back: &'a str,
}

ghost use Rattle.cm_wit_conforms.specs.PartViews.{front_view};

/// The front that an annotation is with its resource.
fn resource_parts(form: usize, resource: &str) -> FrontParts<'_>
    ensures form { result.form ≡ form }
    ensures first { result.first.now ≡ resource.now }
    ensures second { result.second.now ≡ [] }
    ensures version { result.version.now ≡ [] }
{
    FrontParts {
        form,
        first: resource,
        second: "",
        version: "",
    }
}

/// The front that a package is.
fn package_parts<'a>(
    namespace: &'a str,
    package: &'a str,
    version: Option<&'a str>,
) -> FrontParts<'a>
    ensures { front_view result
        ≡ package_front namespace.now «package».now (option_copied version.entry) }
{
    match version {
        Some(version) => FrontParts {
            form: 5,
            first: namespace,
            second: package,
            version,
        },
        None => FrontParts {
            form: 4,
            first: namespace,
            second: package,
            version: "",
        },
    }
}

/// The front of a name that is a label: nothing.
pub(crate) fn plain_front() -> FrontParts<'static>
    ensures { front_view result ≡ bare_front 0 }
{
    resource_parts(0, "")
}

/// What stands in front of the last label of a name.
pub(crate) fn front_of(name: ExternNameForm<'_>) -> FrontParts<'_>
    ensures { front_view result ≡ front_of (form_tree name.entry) }
{
    match name {
        ExternNameForm::Label(_) => plain_front(),
        ExternNameForm::Method { resource, .. } => resource_parts(1, resource),
        ExternNameForm::Static { resource, .. } => resource_parts(2, resource),
        ExternNameForm::Constructor { resource } => resource_parts(3, resource),
        ExternNameForm::Interface {
            namespace,
            package,
            version,
            ..
        } => package_parts(namespace, package, version),
    }
}

/// The last label of a name; empty for a constructor.
pub(crate) fn back_of(name: ExternNameForm<'_>) -> &str
    ensures { result.now ≡ back_of (form_tree name.entry) }
{
    match name {
        ExternNameForm::Label(label) => label,
        ExternNameForm::Method { method, .. } => method,
        ExternNameForm::Static { function, .. } => function,
        ExternNameForm::Constructor { .. } => "",
        ExternNameForm::Interface { interface, .. } => interface,
    }
}

/// What stands in front of the last labels of the names that have this front.
pub(crate) fn shared_front(front: &Front) -> FrontParts<'_>
    ensures { (back : List ℕ) → front_view result ≡ front_of (name_with front.now back) }
{
    match front {
        Front::Plain => plain_front(),
        Front::Method(resource) => resource_parts(1, resource.as_str()),
        Front::Static(resource) => resource_parts(2, resource.as_str()),
        Front::Constructor(resource) => resource_parts(3, resource.as_str()),
        Front::Interface(of) => package_parts(of.namespace(), of.name(), of.version()),
    }
}
