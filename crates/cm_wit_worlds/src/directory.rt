//! Finding interfaces and worlds by their names.

ghost use Rattle.std.specs.Prelude.{◌≡◌, map, slice_index_or};
ghost use Rattle.std.specs.Option.{option_copied};
ghost use Rattle.cm_names.specs.Listed.{listed};
ghost use Rattle.cm_wit_worlds.specs.Interfaces as spec;
ghost use Rattle.cm_wit_worlds.specs.Interfaces.{has_label};
ghost use Rattle.cm_wit_worlds.specs.InterfaceViews.{files_of, placed_interface, placed_world};

use crate::keying::{interface_keys, package_keys};
use crate::placed::{PlacedInterface, PlacedWorld};
use crate::texts::{label_in, package_name, package_text};
use cm_names::Keys;
use cm_wit_reading::{Path, WitFile};
use std::alloc::{AllocError, Global};

/// Whether a world has the label that stands at its package's place.
fn has_label(labels: &[Option<&str>], world: &PlacedWorld<'_>) -> bool
    ensures { result ≡ has_label
        (slice_index_or (map option_copied labels.now) world.now.place None)
        (placed_world world.now).world }
{
    match labels.get(world.place) {
        Some(Some(label)) => *label == world.world.name.as_str(),
        _ => false,
    }
}

/// Packages, with what finds them and their interfaces by name, each by one look-up.
#[derive(Drop)]
pub struct Directory<'a> {
    pub files: Vec<&'a WitFile>,
    packages: Keys<'a>,
    names: Keys<'a>,
    ghost are_packages: { listed packages ≡ map spec.package_key (files_of files.items) },
    ghost are_names: { listed names
        ≡ map spec.interface_key (spec.interfaces (files_of files.items)) },
}

impl<'a> Directory<'a> {
    ghost use Rattle.std.specs.Prelude.{IfOk};
    ghost use Rattle.std.specs.List.{position_from};
    ghost use Rattle.cm_wit_reading.specs.Views.{file_tree};
    ghost use Rattle.std.specs.String.{string_bytes};
    ghost use Rattle.cm_wit_reading.specs.SignatureViews.{path_tree};
    ghost use Rattle.cm_wit_worlds.specs.Interfaces.{AreLabels, interface_at, is_world};
    ghost use Rattle.cm_wit_worlds.specs.Interfaces.{package_at, package_name, target};

    /// These packages, whose names with their versions are these, and whose interfaces are these.
    /// Refused only where there is no memory.
    #[tactic(auto, using(crate::proofs::KeyingLaws::directory_laws))]
    pub fn new(
        alloc: Global,
        files: Vec<&'a WitFile>,
        names: &'a [String],
        interfaces: &[PlacedInterface<'a>],
    ) -> Result<Directory<'a>, AllocError>
        requires interfaces { map placed_interface interfaces.now
            ≡ spec.interfaces (files_of files.items) }
        requires names { map string_bytes names.now ≡ map package_name (files_of files.items) }
        ensures { IfOk result (λ d. files_of d.files.items ≡ files_of files.entry.items) }
    {
        let packages = Keys::new(alloc, package_keys(alloc, names)?)?;
        let names = Keys::new(alloc, interface_keys(alloc, interfaces)?)?;
        Ok(Directory {
            files,
            packages,
            names,
        })
    }

    /// The package of this name and version, of several the first.
    fn package_at(&self, name: &str) -> Option<usize>
        ensures { result ≡ package_at (files_of self.now.files.items) name.now }
    {
        self.packages.find(0, name)
    }

    /// The interface of this name in the package at a place.
    fn interface_at(&self, place: usize, name: &str) -> Option<usize>
        ensures { result ≡ interface_at (files_of self.now.files.items) place name.now }
    {
        self.names.find(place, name)
    }

    /// The interface to which a path leads that stands in the package at a place, if it leads to
    /// one. Refused only where there is no memory.
    pub fn target(
        &self,
        alloc: Global,
        place: usize,
        path: &Path,
    ) -> Result<Option<usize>, AllocError>
        ensures { IfOk result (λ t.
            t ≡ target (files_of self.now.files.items) place (path_tree path.now)) }
    {
        match path {
            Path::Local(name) => Ok(self.interface_at(place, name.as_str())),
            Path::Foreign {
                namespace,
                package,
                interface,
                version,
            } => {
                let text = package_text(alloc, namespace, package, version)?;
                match self.package_at(text.as_str()) {
                    Some(found) => Ok(self.interface_at(found, interface.as_str())),
                    None => Ok(None),
                }
            }
        }
    }

    /// The label by which a world of this package, which stands at a place, is the one of a full
    /// name: none where the name is of another package, or another package counts. Refused only
    /// where there is no memory.
    fn label_at<'n>(
        &self,
        alloc: Global,
        place: usize,
        file: &WitFile,
        name: &'n str,
    ) -> Result<Option<&'n str>, AllocError>
        ensures { IfOk result (λ label. (world : spec.PlacedWorld)
            → world.place ≡ place → world.file ≡ file_tree file.now
            → is_world (files_of self.now.files.items) name.now world
            ≡ has_label (option_copied label) world.world) }
    {
        let Some(label) = label_in(file, name) else {
            return Ok(None);
        };
        let package = package_name(alloc, file)?;
        match self.package_at(package.as_str()) {
            Some(found) if found == place => Ok(Some(label)),
            _ => Ok(None),
        }
    }

    /// For each package the label by which a world of it is the one of a full name, if one is.
    /// Refused only where there is no memory.
    fn labels<'n>(&self, alloc: Global, name: &'n str) -> Result<Vec<Option<&'n str>>, AllocError>
        ensures { IfOk result (λ v. AreLabels (files_of self.now.files.items) name.now
            (map option_copied v.items)) }
    {
        let mut labels = Vec::new(alloc);
        for (place, file) in self.files.iter().enumerate() {
            labels.push(self.label_at(alloc, place, *file, name)?)?;
        }
        Ok(labels)
    }

    /// The number among the worlds of the packages, which are these, of the one of a full name, if
    /// there is one. No full name is spelled: it takes time linear in the packages and in the name.
    /// Refused only where there is no memory.
    #[tactic(auto, using(crate::proofs::KeyingLaws::search_laws))]
    pub fn world_at(
        &self,
        alloc: Global,
        worlds: &[PlacedWorld<'a>],
        name: &str,
    ) -> Result<Option<usize>, AllocError>
        requires { map placed_world worlds.now ≡ spec.worlds (files_of self.now.files.items) }
        ensures { IfOk result (λ w. w ≡ position_from
            (is_world (files_of self.now.files.items) name.now) 0 (map placed_world worlds.now)) }
    {
        let labels = self.labels(alloc, name)?;
        for (number, world) in worlds.iter().enumerate() {
            if has_label(&labels, world) {
                return Ok(Some(number));
            }
        }
        Ok(None)
    }
}
