//! To which interface or world paths lead.

use crate::adding::put;
use crate::fault::Spot;
use crate::packages::{Packages, package_text};
use crate::places::{PathPlace, top_places};
use cm_names::Keys;
use cm_wit_projects::{Body, Declared, NamedPath, Unit, declared_in, named_in};
use cm_wit_reading::Path;
use cm_wit_tokens::WitReason;
use std::alloc::{AllocError, Global};

/// What a path may lead to.
#[derive(Clone, Copy, PartialEq, Eq)]
pub enum Kind {
    Interface,
    World,
    /// An interface or a world.
    Either,
}

/// The interfaces and worlds of a project, and what finds them.
#[derive(Drop)]
pub struct Directory<'a> {
    pub packages: Packages,
    pub declared: Vec<Declared<'a>>,
    /// The names of declarations, by the number of their package.
    names: Keys<'a>,
    /// The names that uses at the top give, by the number of their unit.
    tops: Keys<'a>,
    /// To what each use at the top leads, and where it stands.
    pub targets: Vec<usize>,
    pub places: Vec<PathPlace>,
}

/// The number of the package of each declaration, and its name.
fn name_keys<'a>(
    alloc: Global,
    packages: &Packages,
    declared: &[Declared<'a>],
) -> Result<Vec<(usize, &'a str)>, AllocError> {
    let mut keys = Vec::new(alloc);
    for one in declared {
        put(
            &mut keys,
            (packages.of_unit(one.unit), one.body.name().as_str()),
        )?;
    }
    Ok(keys)
}

/// The number of the unit of each use at the top, and the name that it gives.
fn top_keys<'a>(
    alloc: Global,
    tops: &[NamedPath<'a>],
) -> Result<Vec<(usize, &'a str)>, AllocError> {
    let mut keys = Vec::new(alloc);
    for top in tops {
        put(&mut keys, (top.unit, top.name.as_str()))?;
    }
    Ok(keys)
}

/// The last name of a path, and which of its names that is.
fn last_name(path: &Path) -> (&str, usize) {
    match path {
        Path::Local(name) => (name.as_str(), 0),
        Path::Foreign { interface, .. } => (interface.as_str(), 2),
    }
}

/// Whether a path leads into another package.
fn is_foreign(path: &Path) -> bool {
    match path {
        Path::Local(_) => false,
        Path::Foreign { .. } => true,
    }
}

impl<'a> Directory<'a> {
    /// The directory of units, whose uses at the top are these; where these lead is not known yet.
    fn bare(
        alloc: Global,
        units: &[Unit<'a>],
        tops: &[NamedPath<'a>],
    ) -> Result<Directory<'a>, AllocError> {
        let packages = Packages::new(alloc, units)?;
        let declared = declared_in(alloc, units)?;
        let names = Keys::new(alloc, name_keys(alloc, &packages, &declared)?)?;
        let tops = Keys::new(alloc, top_keys(alloc, tops)?)?;
        Ok(Directory {
            packages,
            declared,
            names,
            tops,
            targets: Vec::new(alloc),
            places: Vec::new(alloc),
        })
    }

    /// The package into which a path leads. `UnknownName` comes at its first name where there is no
    /// such package, and `Cycle` where it is the path's own.
    fn package(&self, alloc: Global, place: PathPlace, path: &Path) -> Result<usize, Spot> {
        let own = self.packages.of_unit(place.unit);
        let Path::Foreign {
            namespace,
            package,
            version,
            ..
        } = path
        else {
            return Ok(own);
        };
        let text = package_text(alloc, namespace, package, version)?;
        match self.packages.find(text.as_str()) {
            None => Err(place.fault(0, WitReason::UnknownName)),
            Some(number) if number == own => Err(place.fault(0, WitReason::Cycle)),
            Some(number) => Ok(number),
        }
    }

    /// Whether a declaration is one that a path may lead to.
    fn is_kind(&self, number: usize, kind: Kind) -> bool {
        match (self.declared.get(number), kind) {
            (None, _) => false,
            (Some(_), Kind::Either) => true,
            (Some(declared), Kind::Interface) => matches!(declared.body, Body::Interface(_)),
            (Some(declared), Kind::World) => matches!(declared.body, Body::World(_)),
        }
    }

    /// The declaration of a name in a package, if it is one that a path may lead to.
    fn found(
        &self,
        place: PathPlace,
        path: &Path,
        found: Option<usize>,
        kind: Kind,
    ) -> Result<usize, Spot> {
        let (_, last) = last_name(path);
        match found {
            Some(number) if self.is_kind(number, kind) => Ok(number),
            _ => Err(place.fault(last, WitReason::UnknownName)),
        }
    }

    /// To what a path leads past the uses at the top.
    fn past_tops(
        &self,
        alloc: Global,
        place: PathPlace,
        path: &Path,
        kind: Kind,
    ) -> Result<usize, Spot> {
        let package = self.package(alloc, place, path)?;
        let (name, _) = last_name(path);
        self.found(place, path, self.names.find(package, name), kind)
    }

    /// To what a use at the top of a unit leads that gives a name, if there is one.
    fn top(&self, unit: usize, name: &str) -> Option<usize> {
        match self.tops.find(unit, name) {
            Some(top) => self.targets.get(top).copied(),
            None => None,
        }
    }

    /// To what a path leads: a name alone to what a use at the top of its unit gives, or else to
    /// the declaration of its package.
    ///
    /// `UnknownName` comes at the first name of the path where its package is not at hand, and at
    /// the last where there is none of this kind; `Cycle` at the first where a path with a package
    /// leads into the package in which it stands; and `Memory`. (WIT.md, "Packages and Worlds")
    pub fn target(
        &self,
        alloc: Global,
        place: PathPlace,
        path: &Path,
        kind: Kind,
    ) -> Result<usize, Spot> {
        if !is_foreign(path) {
            let (name, _) = last_name(path);
            if let Some(number) = self.top(place.unit, name) {
                return self.found(place, path, Some(number), kind);
            }
        }
        self.past_tops(alloc, place, path, kind)
    }

    /// To what a use at the top leads: that of another package to an interface.
    fn top_target(
        &self,
        alloc: Global,
        place: PathPlace,
        top: &NamedPath<'a>,
    ) -> Result<usize, Spot> {
        let kind = if is_foreign(top.path) {
            Kind::Interface
        } else {
            Kind::Either
        };
        self.past_tops(alloc, place, top.path, kind)
    }

    /// To what each use at the top leads.
    fn top_targets(&self, alloc: Global, tops: &[NamedPath<'a>]) -> Result<Vec<usize>, Spot> {
        let mut targets = Vec::new(alloc);
        for (top, place) in tops.iter().zip(&self.places) {
            put(&mut targets, self.top_target(alloc, *place, top)?)?;
        }
        Ok(targets)
    }
}

/// The interfaces and worlds of units, and what finds them. A use at the top is of its unit alone,
/// and sees none of the others. Faults are those of `Directory::target`, at the first such use.
pub fn directory_of<'a>(alloc: Global, units: &[Unit<'a>]) -> Result<Directory<'a>, Spot> {
    let tops = named_in(alloc, units)?;
    let mut directory = Directory::bare(alloc, units, &tops)?;
    directory.places = top_places(alloc, units)?;
    let targets = directory.top_targets(alloc, &tops)?;
    directory.targets = targets;
    Ok(directory)
}
