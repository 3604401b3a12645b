//! Names that share what stands in front of their last labels.

ghost use Rattle.std.specs.Prelude.{◌≡◌, true, IfOk, IfSome};
ghost use Rattle.std.specs.Option.{option_copied};
ghost use Rattle.cm_types.specs.Names.{IsLabel};
ghost use Rattle.cm_types.specs.ExternNames.{HasLabels, is_version};
ghost use Rattle.cm_types.specs.ExternNameForms.{form_tree};

use cm_types::{ExternNameForm, Label, Version};
use std::alloc::{AllocError, Global};

/// The name of a package, with its version where it has one (Explainer.md, "Import and Export
/// Definitions").
#[derive(Drop)]
pub struct PackageName {
    namespace: Label,
    name: Label,
    version: Option<Version>,
}

impl PackageName {
    /// The package of these names and of a version, whose text is copied. Refused only where there
    /// is no memory.
    pub fn new(
        alloc: Global,
        namespace: &Label,
        name: &Label,
        version: Option<&str>,
    ) -> Result<PackageName, AllocError>
        requires { IfSome (option_copied version) (λ v. is_version v ≡ true) }
        ensures namespace { IfOk result (λ p. p.namespace ≡ namespace.now) }
        ensures name { IfOk result (λ p. p.name ≡ name.now) }
        ensures version { IfOk result (λ p. p.version ≡ option_copied version.entry) }
    {
        let namespace = namespace.clone()?;
        let name = name.clone()?;
        match version {
            Some(version) => Ok(PackageName {
                namespace,
                name,
                version: Some(Version::copied(alloc, version)?),
            }),
            None => Ok(PackageName {
                namespace,
                name,
                version: None,
            }),
        }
    }

    /// The label of the package's namespace.
    pub fn namespace(&self) -> &str
        ensures text { result.now ≡ self.now.namespace }
        ensures label { IsLabel result.now }
    {
        self.namespace.as_str()
    }

    /// The label of the package itself.
    pub fn name(&self) -> &str
        ensures text { result.now ≡ self.now.name }
        ensures label { IsLabel result.now }
    {
        self.name.as_str()
    }

    /// The text of the package's version, or none.
    pub fn version(&self) -> Option<&str>
        ensures text { option_copied result ≡ self.now.version }
        ensures version { IfSome (option_copied result) (λ v. is_version v ≡ true) }
    {
        match &self.version {
            Some(version) => Some(version.as_str()),
            None => None,
        }
    }
}

/// What stands in front of the last label of a name.
#[derive(Drop)]
pub enum Front {
    /// Nothing: the name is a label.
    Plain,
    /// The annotation of a method, and its resource.
    Method(Label),
    /// The annotation of a static function, and its resource.
    Static(Label),
    /// The annotation of a constructor, and its resource; no label stands behind them.
    Constructor(Label),
    /// The package of an interface.
    Interface(PackageName),
}

impl Front {
    ghost use Rattle.cm_types_arena.specs.SharedNames.{name_with};

    /// What the name says that has this front, and this label behind it.
    pub fn form<'a>(&'a self, back: &'a Label) -> ExternNameForm<'a>
        ensures name { form_tree result ≡ name_with self.now back.now }
        ensures labels { HasLabels (form_tree result) }
    {
        match self {
            Front::Plain => ExternNameForm::Label(back.as_str()),
            Front::Method(resource) => ExternNameForm::Method {
                resource: resource.as_str(),
                method: back.as_str(),
            },
            Front::Static(resource) => ExternNameForm::Static {
                resource: resource.as_str(),
                function: back.as_str(),
            },
            Front::Constructor(resource) => ExternNameForm::Constructor {
                resource: resource.as_str(),
            },
            Front::Interface(of) => ExternNameForm::Interface {
                namespace: of.namespace(),
                package: of.name(),
                interface: back.as_str(),
                version: of.version(),
            },
        }
    }
}

/// A name by the number of its front in a list of fronts, from 0, and by its last label: so names
/// with one front hold it once. A number that is none of the list's stands for the front `Plain`.
#[derive(Drop)]
pub struct SharedName {
    pub front: usize,
    pub back: Label,
}

impl SharedName {
    ghost use Rattle.cm_types_arena.specs.SharedNames.{tree_in};

    /// What the name says, where these are the fronts.
    pub fn form<'a>(&'a self, fronts: &'a [Front]) -> ExternNameForm<'a>
        ensures name { form_tree result ≡ tree_in fronts.now self.now }
        ensures labels { HasLabels (form_tree result) }
    {
        match fronts.get(self.front) {
            Some(front) => front.form(&self.back),
            None => ExternNameForm::Label(self.back.as_str()),
        }
    }
}
