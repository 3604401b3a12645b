//! The plain component that a file stands for.

ghost use Rattle.std.specs.Prelude.{◌≡◌, ◌++◌, ◌-◌, [], IfOk, OnOk, length, map, replicate};
ghost use Rattle.std.specs.Prelude.{if◌then◌else◌};
ghost use Rattle.cm_binary_grammar.specs.Whole.{state_after};
ghost use Rattle.cm_types.specs.DefTypes.{def_type_tree};
ghost use Rattle.cm_binary_model.specs.Trees.{alias_tree, section_tree};
ghost use Rattle.cm_shims_plain.specs.Trees as wide;
ghost use Rattle.cm_shims_plain.specs.Trees.{shim_tree, wide_instance_tree, wide_section_tree};
ghost use Rattle.cm_shims_plain.specs.Instantiated.{define_type};
ghost use Rattle.cm_shims_plain.specs.Plain.{alias_step, def_step, import_step, instance_step};
ghost use Rattle.cm_shims_plain.specs.Origins.{origin_of};
ghost use Rattle.cm_shims_plain.specs.Plain.{is_of_type, item_fault, made_origin, made_section};
ghost use Rattle.cm_shims_plain.specs.Plain.{no_imports, with_import};
ghost use Rattle.cm_shims_plain.specs.Plain.{of_exports, plain, plain_section, plain_step};
ghost use Rattle.cm_shims_plain.specs.Plain.{section_step, shim_instance, shim_step};
ghost use Rattle.cm_shims_plain.specs.PlainViews.{at_item, imports_of, instances_of, plain_of};
ghost use Rattle.cm_shims_plain.specs.Spaces.{types_of};
ghost use Rattle.cm_shims_plain.specs.Steps.{Comes, each_numbered};

use crate::arguments::Arguments;
use crate::fault::{ItemFault, PlainFault, ShimReason};
use crate::instantiated::Instantiated;
use crate::names::import_twice;
use crate::parts::{Argument, Shim, WideDesc, WideImport, WideInstance, WideSection};
use crate::places::Source;
use crate::renumbered::{renumbered_alias, renumbered_all, renumbered_canons, renumbered_def};
use crate::spaces::{TypeSpace, type_at};
use crate::stop::Stop;
use crate::wants::Want;
use cm_binary_model::{
    Alias, ExternDesc, Import, InlineExport, Instance, InstanceExportSort, MAX_FILE_BYTES, Section,
};
use cm_types::DefType;
use std::alloc::{AllocError, Global};

/// Type definitions with the places of their types, which they join one after the other.
#[tactic(auto, using(crate::proofs::StepLaws::state_after_push))]
fn defs(
    alloc: Global,
    types: &mut TypeSpace,
    defs: Vec<DefType>,
) -> Result<Vec<DefType>, AllocError>
    ensures { IfOk result (λ v. record {
      types = types_of types.new;
      items = map def_type_tree v.items;
    }
        ≡ state_after def_step (record { types = types_of types.old; items = [] })
        (map def_type_tree defs.items)) }
{
    let mut copies = Vec::with_capacity(alloc, defs.len())?;
    for def in defs {
        copies.push(renumbered_def(alloc, def, types)?)?;
        types.define()?;
    }
    Ok(copies)
}

/// Whether an alias is of a type, and so defines one.
fn is_of_type(alias: &Alias) -> bool
    ensures { result ≡ is_of_type (alias_tree alias.now) }
{
    match alias {
        Alias::InstanceExport { sort, .. } => match sort {
            InstanceExportSort::Type => true,
            InstanceExportSort::Func => false,
        },
        Alias::CoreInstanceExport { .. } => false,
        Alias::OuterType(_) => true,
    }
}

/// Adds a type that stands behind all types, if one is to be added.
fn define_if(types: &mut TypeSpace, is_wanted: bool) -> Result<(), AllocError>
    ensures { OnOk result (types_of types.new
        ≡ (if is_wanted then define_type (types_of types.old) else types_of types.old)) }
{
    if is_wanted { types.define() } else { Ok(()) }
}

/// Aliases with the places of their types, which they join one after the other.
#[tactic(auto, using(crate::proofs::StepLaws::state_after_push))]
fn aliases(
    alloc: Global,
    types: &mut TypeSpace,
    aliases: Vec<Alias>,
) -> Result<Vec<Alias>, AllocError>
    ensures { IfOk result (λ v. record {
      types = types_of types.new;
      items = map alias_tree v.items;
    }
        ≡ state_after alias_step (record { types = types_of types.old; items = [] })
        (map alias_tree aliases.items)) }
{
    let mut copies = Vec::with_capacity(alloc, aliases.len())?;
    for alias in aliases {
        let is_of_type = is_of_type(&alias);
        copies.push(renumbered_alias(alias, types))?;
        define_if(types, is_of_type)?;
    }
    Ok(copies)
}

/// The imports of a section that stay, as far as it was gone through.
#[derive(Drop)]
pub(crate) struct StayingImports {
    pub(crate) types: TypeSpace,
    pub(crate) items: Vec<Import>,
    pub(crate) from: Vec<usize>,
}

impl StayingImports {
    /// Adds the import that is this one of the section.
    fn add(&mut self, number: usize, import: Import) -> Result<(), AllocError>
        ensures { OnOk result
            (imports_of self.new ≡ with_import number import (imports_of self.old)) }
    {
        self.items.push(import)?;
        self.from.push(number)?;
        Ok(())
    }

    /// Goes through an import: one of a function or an instance stays; a type is one that is there.
    fn step(&mut self, number: usize, import: &WideImport) -> Result<(), Stop<ShimReason>>
        ensures { Comes (λ _. imports_of self.new) result
            (import_step number (imports_of self.old) import.now) }
    {
        let name = import.name.clone()?;
        match import.desc {
            WideDesc::Func(ty) => {
                let desc = ExternDesc::Func(self.types.place(ty));
                self.add(number, Import { name, desc })?;
                Ok(())
            }
            WideDesc::Instance(ty) => {
                let desc = ExternDesc::Instance(self.types.place(ty));
                self.add(number, Import { name, desc })?;
                Ok(())
            }
            WideDesc::Type(ty) => {
                let place = type_at(&self.types, ty)?;
                self.types.add(place)?;
                Ok(())
            }
        }
    }
}

/// The reason as a fault of an item.
fn of_item<T: Drop>(item: usize, outcome: Result<T, Stop<ShimReason>>) -> Result<T, Stop<ItemFault>>
    ensures { result ≡ at_item item outcome }
{
    match outcome {
        Ok(value) => Ok(value),
        Err(Stop::Memory) => Err(Stop::Memory),
        Err(Stop::Fault(reason)) => Err(Stop::Fault(ItemFault { item, reason })),
    }
}

/// Goes through imports.
fn imports(
    alloc: Global,
    types: TypeSpace,
    imports: &[WideImport],
) -> Result<StayingImports, Stop<ItemFault>>
    ensures { Comes imports_of result
        (each_numbered item_fault import_step 0 (no_imports (types_of types)) imports.now) }
{
    let mut done = StayingImports {
        types,
        items: Vec::new(alloc),
        from: Vec::new(alloc),
    };
    for (item, import) in imports.iter().enumerate() {
        of_item(item, done.step(item, import))?;
    }
    Ok(done)
}

/// Notes for the types behind those noted before, of so many, that they are made for an instance.
fn note_made(from: &mut Vec<usize>, count: usize, instance: usize) -> Result<(), AllocError>
    ensures { OnOk result (from.new.items
        ≡ from.old.items ++ replicate (count - length from.old.items) instance) }
{
    for _made in from.len()..count {
        from.push(instance)?;
    }
    Ok(())
}

/// The instances of a section, as far as it was gone through.
#[derive(Drop)]
pub(crate) struct Instances {
    pub(crate) types: TypeSpace,
    pub(crate) made: Vec<DefType>,
    pub(crate) from: Vec<usize>,
    pub(crate) bytes: usize,
    pub(crate) instances: Vec<Instance>,
    pub(crate) wants: Vec<Want>,
}

impl Instances {
    /// Adds an instance that is made of exports.
    fn add_exports(&mut self, alloc: Global, exports: &[InlineExport]) -> Result<(), AllocError>
        ensures { OnOk result
            (instances_of self.new ≡ of_exports (instances_of self.old) exports.now) }
    {
        let exports = renumbered_all(alloc, exports, &self.types)?;
        self.instances.push(Instance { exports })?;
        Ok(())
    }

    /// Adds the instance of this number, which is of a shim.
    fn add_shim(
        self,
        alloc: Global,
        number: usize,
        args: &[Argument],
        shim: &Shim,
    ) -> Result<Instances, Stop<ShimReason>>
        ensures { Comes instances_of result
            (shim_instance number (instances_of self) args.now (shim_tree shim.now)) }
    {
        let Instances {
            mut types,
            made,
            mut from,
            bytes,
            mut instances,
            wants,
        } = self;
        let size = shim.size as usize;
        if size > bytes {
            return Err(Stop::Fault(ShimReason::TooLong));
        }
        let given = Arguments::new(alloc, args, &types)?;
        let mut instance = Instantiated::new(alloc, types.count, made, wants);
        instance.all(alloc, &given, &shim.sections)?;
        drop(given);
        note_made(&mut from, instance.made.len(), number)?;
        types.count = instance.types.count;
        instances.push(Instance {
            exports: instance.exports,
        })?;
        Ok(Instances {
            types,
            made: instance.made,
            from,
            bytes: bytes - size,
            instances,
            wants: instance.wants,
        })
    }

    /// Goes through the instance of this number.
    fn add(
        mut self,
        alloc: Global,
        shims: &[Shim],
        number: usize,
        instance: &WideInstance,
    ) -> Result<Instances, Stop<ShimReason>>
        ensures { Comes instances_of result
            (instance_step (map shim_tree shims.now) number (instances_of self)
            (wide_instance_tree instance.now)) }
    {
        match instance {
            WideInstance::Exports(exports) => {
                self.add_exports(alloc, exports)?;
                Ok(self)
            }
            WideInstance::Instantiate { component, args } => match shims.get(*component as usize) {
                Some(shim) => self.add_shim(alloc, number, args, shim),
                None => Err(Stop::Fault(ShimReason::NoSuchShim)),
            },
        }
    }
}

/// Goes through instances.
fn add_instances(
    alloc: Global,
    start: Instances,
    shims: &[Shim],
    instances: &[WideInstance],
) -> Result<Instances, Stop<ItemFault>>
    ensures { Comes instances_of result
        (each_numbered item_fault (instance_step (map shim_tree shims.now)) 0 (instances_of start)
        (map wide_instance_tree instances.now)) }
{
    let mut done = start;
    for (item, instance) in instances.iter().enumerate() {
        done = of_item(item, done.add(alloc, shims, item, instance))?;
    }
    Ok(done)
}

/// A section that a file without shims may have too, with the places of its types.
fn plain_section(
    alloc: Global,
    types: &mut TypeSpace,
    section: Section,
) -> Result<Section, AllocError>
    ensures { IfOk result (λ x. (types_of types.new, section_tree x)
        ≡ plain_section (types_of types.old) (section_tree section)) }
{
    match section {
        Section::Custom(custom) => Ok(Section::Custom(custom)),
        Section::CoreModule(bytes) => Ok(Section::CoreModule(bytes)),
        Section::CoreInstances(items) => Ok(Section::CoreInstances(items)),
        Section::Instances(items) => Ok(Section::Instances(items)),
        Section::Aliases(items) => Ok(Section::Aliases(aliases(alloc, types, items)?)),
        Section::Types(items) => Ok(Section::Types(defs(alloc, types, items)?)),
        Section::Canons(items) => Ok(Section::Canons(renumbered_canons(alloc, items, types)?)),
        Section::Imports(items) => Ok(Section::Imports(items)),
        Section::Exports(items) => Ok(Section::Exports(items)),
    }
}

/// Adds the section of the types that shims define, if they define any: of the section of this
/// number, for these of its instances.
fn push_made(
    sections: &mut Vec<Section>,
    sources: &mut Vec<Source>,
    section: usize,
    made: Vec<DefType>,
    items: Vec<usize>,
) -> Result<(), AllocError>
    ensures sections { OnOk result (map section_tree sections.new.items
        ≡ map section_tree sections.old.items ++ made_section (map def_type_tree made.items)) }
    ensures sources { OnOk result (map origin_of sources.new.items ≡ map origin_of sources.old.items
        ++ made_origin section (map def_type_tree made.items) items.items) }
{
    if made.is_empty() {
        return Ok(());
    }
    sections.push(Section::Types(made))?;
    sources.push(Source { section, items })?;
    Ok(())
}

/// A file as far as it was gone through.
#[derive(Drop)]
pub(crate) struct Plain {
    pub(crate) types: TypeSpace,
    pub(crate) shims: Vec<Shim>,
    pub(crate) bytes: usize,
    pub(crate) sections: Vec<Section>,
    pub(crate) sources: Vec<Source>,
    pub(crate) wants: Vec<Want>,
}

impl Plain {
    /// Goes through the section of this number, which a file without shims may have too.
    fn add_plain(
        &mut self,
        alloc: Global,
        number: usize,
        section: Section,
    ) -> Result<(), AllocError>
        ensures { OnOk result
            (plain_of self.new ≡ plain_step number (plain_of self.old) (section_tree section)) }
    {
        let section = plain_section(alloc, &mut self.types, section)?;
        self.sections.push(section)?;
        self.sources.push(Source {
            section: number,
            items: Vec::new(alloc),
        })?;
        Ok(())
    }

    /// Goes through a shim.
    fn add_shim(&mut self, alloc: Global, shim: Shim) -> Result<(), Stop<ItemFault>>
        ensures { Comes (λ _. plain_of self.new) result
            (shim_step (plain_of self.old) (shim_tree shim)) }
    {
        if let Some(item) = import_twice(alloc, &shim.sections)? {
            return Err(Stop::Fault(ItemFault {
                item,
                reason: ShimReason::NameTwice,
            }));
        }
        self.shims.push(shim)?;
        Ok(())
    }

    /// Goes through the section of this number, which has instances.
    fn with_instances(
        self,
        alloc: Global,
        number: usize,
        items: &[WideInstance],
    ) -> Result<Plain, Stop<ItemFault>>
        ensures { Comes plain_of result
            (section_step number (plain_of self)
            (wide.wide_instances (map wide_instance_tree items.now))) }
    {
        let Plain {
            types,
            shims,
            bytes,
            mut sections,
            mut sources,
            wants,
        } = self;
        let start = Instances {
            types,
            made: Vec::new(alloc),
            from: Vec::new(alloc),
            bytes,
            instances: Vec::new(alloc),
            wants,
        };
        let done = add_instances(alloc, start, &shims, items)?;
        push_made(&mut sections, &mut sources, number, done.made, done.from)?;
        sections.push(Section::Instances(done.instances))?;
        sources.push(Source {
            section: number,
            items: Vec::new(alloc),
        })?;
        Ok(Plain {
            types: done.types,
            shims,
            bytes: done.bytes,
            sections,
            sources,
            wants: done.wants,
        })
    }

    /// Goes through the section of this number, which has imports.
    fn with_imports(
        self,
        alloc: Global,
        number: usize,
        items: &[WideImport],
    ) -> Result<Plain, Stop<ItemFault>>
        ensures { Comes plain_of result
            (section_step number (plain_of self) (wide.wide_imports items.now)) }
    {
        let Plain {
            types,
            shims,
            bytes,
            mut sections,
            mut sources,
            wants,
        } = self;
        let done = imports(alloc, types, items)?;
        sections.push(Section::Imports(done.items))?;
        sources.push(Source {
            section: number,
            items: done.from,
        })?;
        Ok(Plain {
            types: done.types,
            shims,
            bytes,
            sections,
            sources,
            wants,
        })
    }

    /// Goes through the section of this number.
    fn add(
        mut self,
        alloc: Global,
        number: usize,
        section: WideSection,
    ) -> Result<Plain, Stop<ItemFault>>
        ensures { Comes plain_of result
            (section_step number (plain_of self) (wide_section_tree section)) }
    {
        match section {
            WideSection::Plain(section) => {
                self.add_plain(alloc, number, section)?;
                Ok(self)
            }
            WideSection::Shim(shim) => {
                self.add_shim(alloc, shim)?;
                Ok(self)
            }
            WideSection::Instances(items) => self.with_instances(alloc, number, &items),
            WideSection::Imports(items) => self.with_imports(alloc, number, &items),
        }
    }
}

/// What the file with these sections comes to.
pub(crate) fn plain_of_file(
    alloc: Global,
    sections: Vec<WideSection>,
) -> Result<Plain, Stop<PlainFault>>
    ensures { Comes plain_of result (plain (map wide_section_tree sections.items)) }
{
    let mut done = Plain {
        types: TypeSpace::new(alloc, 0),
        shims: Vec::new(alloc),
        bytes: MAX_FILE_BYTES,
        sections: Vec::new(alloc),
        sources: Vec::new(alloc),
        wants: Vec::new(alloc),
    };
    let mut number = 0;
    for section in sections {
        done = match done.add(alloc, number, section) {
            Ok(plain) => plain,
            Err(Stop::Memory) => return Err(Stop::Memory),
            Err(Stop::Fault(fault)) => {
                return Err(Stop::Fault(PlainFault {
                    section: number,
                    item: fault.item,
                    reason: fault.reason,
                }));
            }
        };
        number += 1;
    }
    Ok(done)
}
