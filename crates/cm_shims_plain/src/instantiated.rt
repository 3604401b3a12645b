//! What instances of shims come to.

ghost use Rattle.std.specs.Prelude.{◌≡◌, map};
ghost use Rattle.cm_types.specs.DefTypes.{def_type_tree};
ghost use Rattle.cm_binary_model.specs.declared.instances.InstanceExportSort.TheVariants as sorts;
ghost use Rattle.cm_shims_plain.specs.Trees.{shim_section_tree};
ghost use Rattle.cm_shims_plain.specs.Instantiated.{export_step, exported, func_at, import_step};
ghost use Rattle.cm_shims_plain.specs.Instantiated.{instantiated, instantiating, shim_step};
ghost use Rattle.cm_shims_plain.specs.Instantiated.{type_step};
ghost use Rattle.cm_shims_plain.specs.Instantiated.{with_ascribed};
ghost use Rattle.cm_shims_plain.specs.Steps.{Comes, each};
ghost use Rattle.cm_shims_plain.specs.Views.{given_of, instantiated_of};

use crate::arguments::Arguments;
use crate::fault::ShimReason;
use crate::parts::{ShimExport, ShimImport, ShimSection};
use crate::renumbered::renumbered_copy;
use crate::spaces::{TypeSpace, type_at};
use crate::stop::Stop;
use crate::wants::Want;
use cm_binary_model::{InlineExport, InstanceExportSort, Section};
use cm_types::{DefType, ExportDesc, ExternName, TypeBound};
use std::alloc::Global;

/// An instance of a shim, as far as the shim was gone through.
#[derive(Drop)]
pub(crate) struct Instantiated {
    pub(crate) types: TypeSpace,
    pub(crate) funcs: Vec<u32>,
    pub(crate) made: Vec<DefType>,
    pub(crate) exports: Vec<InlineExport>,
    pub(crate) wants: Vec<Want>,
}

impl Instantiated {
    /// Nothing was gone through; the component has so many types, and shims define these and want
    /// this so far.
    pub(crate) fn new(
        alloc: Global,
        count: u32,
        made: Vec<DefType>,
        wants: Vec<Want>,
    ) -> Instantiated
        ensures { instantiated_of result
            ≡ instantiating count (map def_type_tree made.items) wants.items }
    {
        Instantiated {
            types: TypeSpace::new(alloc, count),
            funcs: Vec::new(alloc),
            made,
            exports: Vec::new(alloc),
            wants,
        }
    }

    /// The function with an index.
    fn func_at(&self, index: u32) -> Result<u32, Stop<ShimReason>>
        ensures { Comes (λ i. i) result (func_at (instantiated_of self.now).funcs index) }
    {
        match self.funcs.get(index as usize) {
            Some(func) => Ok(*func),
            None => Err(Stop::Fault(ShimReason::NoSuchFunc)),
        }
    }

    /// Goes through an import.
    fn import(&mut self, given: &Arguments<'_>, import: &ShimImport) -> Result<(), Stop<ShimReason>>
        ensures { Comes (λ _. instantiated_of self.new) result
            (import_step (given_of given.now) (instantiated_of self.old) import.now) }
    {
        match import.desc {
            ExportDesc::Func(ty) => {
                let func = given.find(InstanceExportSort::Func, &import.name)?;
                let ty = type_at(&self.types, ty)?;
                self.wants.push(Want::Func(func, ty))?;
                self.funcs.push(func)?;
                Ok(())
            }
            ExportDesc::Type(TypeBound::Equal(ty)) => {
                let place = given.find_type(&import.name)?;
                let ty = type_at(&self.types, ty)?;
                self.wants.push(Want::Type(place, ty))?;
                self.types.add(place)?;
                Ok(())
            }
            ExportDesc::Type(TypeBound::SubResource) => {
                let place = given.find_type(&import.name)?;
                self.wants.push(Want::Resource(place))?;
                self.types.add(place)?;
                Ok(())
            }
        }
    }

    /// Goes through a type.
    fn define(&mut self, alloc: Global, def: &DefType) -> Result<(), Stop<ShimReason>>
        ensures { Comes (λ _. instantiated_of self.new) result
            (type_step (instantiated_of self.old) (def_type_tree def.now)) }
    {
        let Some(made) = renumbered_copy(alloc, def, &self.types)? else {
            return Err(Stop::Fault(ShimReason::OtherType));
        };
        self.made.push(made)?;
        self.types.define()?;
        Ok(())
    }

    /// Notes the type that is ascribed to a function, if one is.
    fn ascribe(&mut self, func: u32, ascribed: Option<u32>) -> Result<(), Stop<ShimReason>>
        ensures { Comes (λ _. instantiated_of self.new) result
            (with_ascribed func ascribed (instantiated_of self.old)) }
    {
        match ascribed {
            Some(ty) => {
                let ty = type_at(&self.types, ty)?;
                self.wants.push(Want::Func(func, ty))?;
                Ok(())
            }
            None => Ok(()),
        }
    }

    /// Goes through an export of a function.
    fn export_func(
        &mut self,
        name: ExternName,
        index: u32,
        ascribed: Option<u32>,
    ) -> Result<(), Stop<ShimReason>>
        ensures { Comes (λ _. instantiated_of self.new) result
            (exported (instantiated_of self.old) name sorts.Func index ascribed) }
    {
        let index = self.func_at(index)?;
        self.ascribe(index, ascribed)?;
        let sort = InstanceExportSort::Func;
        self.exports.push(InlineExport { name, sort, index })?;
        self.funcs.push(index)?;
        Ok(())
    }

    /// Goes through an export of a type.
    fn export_type(
        &mut self,
        name: ExternName,
        index: u32,
        _ascribed: Option<u32>,
    ) -> Result<(), Stop<ShimReason>>
        ensures { Comes (λ _. instantiated_of self.new) result
            (exported (instantiated_of self.old) name sorts.Type index _ascribed) }
    {
        let index = type_at(&self.types, index)?;
        let sort = InstanceExportSort::Type;
        self.exports.push(InlineExport { name, sort, index })?;
        self.types.add(index)?;
        Ok(())
    }

    /// Goes through an export.
    fn export(&mut self, export: &ShimExport) -> Result<(), Stop<ShimReason>>
        ensures { Comes (λ _. instantiated_of self.new) result
            (export_step (instantiated_of self.old) export.now) }
    {
        let name = export.name.clone()?;
        match export.sort {
            InstanceExportSort::Func => self.export_func(name, export.index, export.ascribed),
            InstanceExportSort::Type => self.export_type(name, export.index, export.ascribed),
        }
    }

    /// Goes through types.
    fn define_all(&mut self, alloc: Global, defs: &[DefType]) -> Result<(), Stop<ShimReason>>
        ensures { Comes (λ _. instantiated_of self.new) result
            (each type_step (instantiated_of self.old) (map def_type_tree defs.now)) }
    {
        for def in defs {
            self.define(alloc, def)?;
        }
        Ok(())
    }

    /// Goes through imports.
    fn import_all(
        &mut self,
        given: &Arguments<'_>,
        imports: &[ShimImport],
    ) -> Result<(), Stop<ShimReason>>
        ensures { Comes (λ _. instantiated_of self.new) result
            (each (import_step (given_of given.now)) (instantiated_of self.old) imports.now) }
    {
        for import in imports {
            self.import(given, import)?;
        }
        Ok(())
    }

    /// Goes through exports.
    fn export_all(&mut self, exports: &[ShimExport]) -> Result<(), Stop<ShimReason>>
        ensures { Comes (λ _. instantiated_of self.new) result
            (each export_step (instantiated_of self.old) exports.now) }
    {
        for export in exports {
            self.export(export)?;
        }
        Ok(())
    }

    /// Goes through a section.
    fn section(
        &mut self,
        alloc: Global,
        given: &Arguments<'_>,
        section: &ShimSection,
    ) -> Result<(), Stop<ShimReason>>
        ensures { Comes (λ _. instantiated_of self.new) result
            (shim_step (given_of given.now) (instantiated_of self.old)
            (shim_section_tree section.now)) }
    {
        match section {
            ShimSection::Shared(Section::Types(defs)) => self.define_all(alloc, defs),
            ShimSection::Shared(_) => Ok(()),
            ShimSection::Imports(imports) => self.import_all(given, imports),
            ShimSection::Exports(exports) => self.export_all(exports),
        }
    }

    /// Goes through a shim with these sections.
    pub(crate) fn all(
        &mut self,
        alloc: Global,
        given: &Arguments<'_>,
        shim: &[ShimSection],
    ) -> Result<(), Stop<ShimReason>>
        ensures { Comes (λ _. instantiated_of self.new) result
            (instantiated (given_of given.now) (instantiated_of self.old)
            (map shim_section_tree shim.now)) }
    {
        for section in shim {
            self.section(alloc, given, section)?;
        }
        Ok(())
    }
}
