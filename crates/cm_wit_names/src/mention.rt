//! Mentions: what each name of a file declares, and what it refers to.

ghost use Rattle.std.specs.Prelude.{◌≡◌};
ghost use Rattle.std.specs.Option.{option_copied};
ghost use Rattle.cm_types.specs.ExternNameForms.{form_tree};
ghost use Rattle.cm_wit_reading.specs.SignatureViews.{path_tree};
ghost use Rattle.cm_wit_reading.specs.Views.{file_tree};
ghost use Rattle.cm_wit_names.specs.FileMentions.{path_name};
ghost use Rattle.cm_wit_names.specs.MentionViews.{full_name};

use cm_types::{ExternNameForm, Label};
use cm_wit_reading::{Path, WitFile};
use cm_wit_tokens::Version;

/// A full name, by the labels in it. That of a resource's function is without the resource.
#[derive(Clone, Copy)]
pub enum FullName<'a> {
    Label(&'a Label),
    Method(&'a Label),
    Static(&'a Label),
    Constructor,
    /// The interface to which a path in the file leads.
    Interface { file: &'a WitFile, path: &'a Path },
}

fn version_text<'a>(version: &'a Option<Version>) -> Option<&'a str>
    ensures { option_copied result ≡ version.now }
{
    match version {
        Some(version) => Some(version.as_str()),
        None => None,
    }
}

/// The full name of the interface to which a path in a file leads.
fn path_name<'a>(file: &'a WitFile, path: &'a Path) -> ExternNameForm<'a>
    ensures { form_tree result ≡ path_name (file_tree file.now) (path_tree path.now) }
{
    match path {
        Path::Local(name) => ExternNameForm::Interface {
            namespace: file.namespace.as_str(),
            package: file.package.as_str(),
            interface: name.as_str(),
            version: version_text(&file.version),
        },
        Path::Foreign {
            namespace,
            package,
            interface,
            version,
        } => ExternNameForm::Interface {
            namespace: namespace.as_str(),
            package: package.as_str(),
            interface: interface.as_str(),
            version: version_text(version),
        },
    }
}

impl<'a> FullName<'a> {
    /// Its parts as texts.
    pub fn form(self) -> ExternNameForm<'a>
        ensures { form_tree result ≡ full_name self.entry }
    {
        match self {
            FullName::Label(name) => ExternNameForm::Label(name.as_str()),
            FullName::Method(name) => ExternNameForm::Method {
                resource: "",
                method: name.as_str(),
            },
            FullName::Static(name) => ExternNameForm::Static {
                resource: "",
                function: name.as_str(),
            },
            FullName::Constructor => ExternNameForm::Constructor { resource: "" },
            FullName::Interface { file, path } => path_name(file, path),
        }
    }
}

/// A name in a list of names that are distinct.
#[derive(Clone, Copy)]
pub struct ListedName<'a> {
    /// The number of the list.
    pub in_list: usize,
    /// The full name.
    pub name: FullName<'a>,
    /// Whether it is that of an interface of the file's own package.
    pub is_own: bool,
    /// Whether an implied `self` stands before it in the list.
    pub after_self: bool,
}

/// What a name refers to. Interfaces and worlds are given by the numbers of their names.
#[derive(Clone, Copy)]
pub enum Reference<'a> {
    Nothing,
    /// The interface of this name.
    Interface(&'a Label),
    /// A type of another interface.
    Used {
        interface: &'a Label,
        name: &'a Label,
    },
    /// A type of the interface or world `scope`.
    Type {
        scope: usize,
        name: &'a Label,
    },
    /// A resource of the interface or world `scope`.
    Resource {
        scope: usize,
        name: &'a Label,
    },
}

/// What a name says. Names are counted from 0 in reading order.
#[derive(Clone, Copy)]
pub struct Mention<'a> {
    pub declares: Option<ListedName<'a>>,
    /// What it is known as: an interface by 0 and its name, a type by the number of its interface's
    /// name and its own.
    pub known: Option<(usize, &'a Label)>,
    pub refers: Reference<'a>,
    /// The mention of the declaration in whose text it stands.
    pub owner: Option<usize>,
    pub in_result: bool,
    pub may_be_resource: bool,
}

/// Where a type is written.
#[derive(Clone, Copy)]
pub struct Place {
    /// The number of the interface's or the world's name.
    pub scope: usize,
    /// The mention of the declaration whose text it is part of.
    pub owner: Option<usize>,
    pub in_result: bool,
}
