//! The file of a provider.

use crate::bag::Bag;
use crate::lists::{bytes_of, put, write_number, write_place, write_section, write_text};
use crate::names::is_annotated;
use crate::provided::Provided;
use crate::shim::{Argument, ArgumentIs, Shim};
use cm_binary::{encode, write_file};
use cm_binary_model::{Component, Export, ExportSort, InlineExport, Instance, Section};
use std::alloc::{AllocError, Global};
use std::collections::{BTreeMap, BTreeSet};

/// The ids of the sections that are written here.
const COMPONENT: u8 = 4;

const INSTANCES: u8 = 5;

const ALIASES: u8 = 6;

const EXPORTS: u8 = 11;

/// The export of an instance that a type is.
#[derive(Drop)]
struct Home {
    instance: u32,
    name: String,
}

/// A file while it is written, behind what the provider defines.
#[derive(Drop)]
struct File {
    alloc: Global,
    bytes: Vec<u8>,
    /// How many types it has.
    types: u32,
    /// How many instances it has.
    instances: u32,
    /// How many shims it has.
    shims: u32,
    /// The exports that types of the provider are.
    homes: BTreeMap<u32, Home>,
    /// The indices of the aliases of those exports.
    aliases: BTreeMap<u32, u32>,
}

/// The instances of a provider, which stand in one section.
fn instances_of(sections: &[Section]) -> &[Instance] {
    for section in sections {
        if let Section::Instances(items) = section {
            return items;
        }
    }
    &[]
}

/// The exports of a provider, which stand in one section.
fn exports_of(sections: &[Section]) -> &[Export] {
    for section in sections {
        if let Section::Exports(items) = section {
            return items;
        }
    }
    &[]
}

/// How many sections stand before the instances and the exports.
fn front_length(sections: &[Section]) -> usize {
    let mut length: usize = 0;
    for section in sections {
        match section {
            Section::Instances(_) | Section::Exports(_) => return length,
            _ => length = length.saturating_add(1),
        }
    }
    length
}

/// Whether an item of an instance has a name that says of which resource it is.
fn has_annotated(items: &[InlineExport]) -> bool {
    for item in items {
        if is_annotated(item.name.form()) {
            return true;
        }
    }
    false
}

/// Whether instances are to be those of shims: whether they have annotated names, or share types
/// that have to be named.
fn wants_shims(
    alloc: Global,
    provided: &Provided,
    instances: &[Instance],
) -> Result<bool, AllocError> {
    let mut seen = BTreeSet::new(alloc);
    let mut wants = provided.has_copies;
    for instance in instances {
        let bag = Bag::of(alloc, provided, &instance.exports)?;
        let shares = bag.shares(provided, &mut seen)?;
        wants = wants || shares || has_annotated(&instance.exports);
    }
    Ok(wants)
}

impl File {
    /// Writes an export under a name.
    fn export(&mut self, name: &str, sort: u8, index: u32) -> Result<(), AllocError> {
        let mut contents = bytes_of(self.alloc, &[1, 0])?;
        write_text(&mut contents, name)?;
        put(&mut contents, sort)?;
        write_place(&mut contents, index)?;
        put(&mut contents, 0x00)?;
        write_section(&mut self.bytes, EXPORTS, &contents)
    }

    /// Writes an alias for the export that a type is, where it is one and has none.
    fn alias(&mut self, ty: u32) -> Result<(), AllocError> {
        if self.aliases.contains_key(&ty) {
            return Ok(());
        }
        let Some(home) = self.homes.get(&ty) else {
            return Ok(());
        };
        let mut contents = bytes_of(self.alloc, &[1, 0x03, 0x00])?;
        write_place(&mut contents, home.instance)?;
        write_text(&mut contents, home.name.as_str())?;
        write_section(&mut self.bytes, ALIASES, &contents)?;
        let index = self.types;
        self.types = index.saturating_add(1);
        self.aliases.insert(ty, index)?;
        Ok(())
    }

    /// Writes aliases for the types among arguments that are exports.
    fn alias_all(&mut self, arguments: &[Argument]) -> Result<(), AllocError> {
        for argument in arguments {
            if let ArgumentIs::Type(ty) = argument.is {
                self.alias(ty)?;
            }
        }
        Ok(())
    }

    /// Writes an instance of the next shim with these arguments.
    fn instantiate(&mut self, arguments: &[Argument]) -> Result<(), AllocError> {
        let mut contents = bytes_of(self.alloc, &[1, 0])?;
        write_place(&mut contents, self.shims)?;
        write_number(&mut contents, arguments.len())?;
        for argument in arguments {
            write_text(&mut contents, argument.name.as_str())?;
            let (sort, index) = match argument.is {
                ArgumentIs::Func(index) => (0x01u8, index),
                ArgumentIs::Type(ty) => (0x03, self.aliases.get(&ty).copied().unwrap_or(ty)),
            };
            put(&mut contents, sort)?;
            write_place(&mut contents, index)?;
        }
        write_section(&mut self.bytes, INSTANCES, &contents)
    }

    /// The types of an instance that is exported are its exports, unless they are others before.
    fn settle(
        &mut self,
        bag: &Bag,
        items: &[InlineExport],
        instance: u32,
    ) -> Result<(), AllocError> {
        for (ty, numbers) in &bag.named {
            let first = numbers.first().copied().unwrap_or(0);
            match items.get(first) {
                Some(item) if !self.homes.contains_key(ty) => {
                    self.add_home(*ty, instance, item.name.as_str())?;
                }
                _ => {}
            }
        }
        Ok(())
    }

    fn add_home(&mut self, ty: u32, instance: u32, name: &str) -> Result<(), AllocError> {
        let name = String::from_str(self.alloc, name)?;
        self.homes.insert(ty, Home { instance, name })?;
        Ok(())
    }

    /// Writes the shim of an instance, an instance of it, and its export.
    fn export_instance(
        &mut self,
        provided: &Provided,
        name: &str,
        items: &[InlineExport],
    ) -> Result<(), AllocError> {
        let bag = Bag::of(self.alloc, provided, items)?;
        let shim = Shim::of(self.alloc, provided, &bag, items)?;
        self.alias_all(&shim.arguments)?;
        write_section(&mut self.bytes, COMPONENT, &shim.bytes)?;
        self.instantiate(&shim.arguments)?;
        self.shims = self.shims.saturating_add(1);
        self.export(name, 0x05, self.instances)?;
        let exported = self.instances.saturating_add(1);
        self.instances = exported.saturating_add(1);
        self.settle(&bag, items, exported)
    }

    /// Writes all exports.
    fn export_all(
        &mut self,
        provided: &Provided,
        instances: &[Instance],
        exports: &[Export],
    ) -> Result<(), AllocError> {
        for export in exports {
            let name = export.name.as_str();
            match export.sort {
                ExportSort::Func => self.export(name, 0x01, export.index)?,
                ExportSort::Instance => {
                    if let Some(instance) = instances.get(export.index as usize) {
                        self.export_instance(provided, name, &instance.exports)?;
                    }
                }
            }
        }
        Ok(())
    }
}

/// The file of a provider with an instance of a shim for each of its instances.
fn shimmed(
    alloc: Global,
    provided: &Provided,
    sections: &[Section],
) -> Result<Vec<u8>, AllocError> {
    let front = sections.get(..front_length(sections)).unwrap_or(sections);
    let mut file = File {
        alloc,
        bytes: write_file(alloc, front)?,
        types: provided.count(),
        instances: 0,
        shims: 0,
        homes: BTreeMap::new(alloc),
        aliases: BTreeMap::new(alloc),
    };
    file.export_all(provided, instances_of(sections), exports_of(sections))?;
    Ok(file.bytes)
}

/// The file of a provider, as `provider` of `cm_stubs` makes it: with shims where an item of an
/// instance has an annotated name, or instances share types that have to be named, and as `encode`
/// writes it elsewhere.
pub fn file_of(alloc: Global, stub: &Component) -> Result<Vec<u8>, AllocError> {
    let sections = stub.sections();
    let provided = Provided::of(alloc, sections)?;
    if wants_shims(alloc, &provided, instances_of(sections))? {
        shimmed(alloc, &provided, sections)
    } else {
        encode(alloc, stub)
    }
}

/// The name of the first function that a provider exports itself, in no instance, and whose type
/// has a named type that no instance before has as that very index, so that others do not take it.
pub fn func_over_named(alloc: Global, stub: &Component) -> Result<Option<&str>, AllocError> {
    let sections = stub.sections();
    let provided = Provided::of(alloc, sections)?;
    let instances = instances_of(sections);
    let has_shims = wants_shims(alloc, &provided, instances)?;
    let mut named = BTreeSet::new(alloc);
    for export in exports_of(sections) {
        if let ExportSort::Instance = export.sort {
            if !has_shims {
                add_named(
                    alloc,
                    &provided,
                    instances.get(export.index as usize),
                    &mut named,
                )?;
            }
        } else if is_over_others(alloc, &provided, export.index, &named)? {
            return Ok(Some(export.name.as_str()));
        }
    }
    Ok(None)
}

/// Adds the types that an instance exports.
fn add_named(
    alloc: Global,
    provided: &Provided,
    instance: Option<&Instance>,
    named: &mut BTreeSet<u32>,
) -> Result<(), AllocError> {
    let Some(instance) = instance else {
        return Ok(());
    };
    let bag = Bag::of(alloc, provided, &instance.exports)?;
    for ty in bag.named.keys() {
        named.insert(*ty)?;
    }
    Ok(())
}

/// Whether the type of a function has a type that has to be named and is none of these.
fn is_over_others(
    alloc: Global,
    provided: &Provided,
    func: u32,
    named: &BTreeSet<u32>,
) -> Result<bool, AllocError> {
    let bag = Bag::of_func(alloc, provided, func)?;
    Ok(bag.needs_others(provided, named))
}
