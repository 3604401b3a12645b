//! Exports among the declarations of the type of an instance, by sketches.

ghost use Rattle.std.specs.Prelude.{◌≡◌};
ghost use Rattle.cm_validate_model.specs.Reasons.{index_broken, least};
ghost use Rattle.cm_validate_model.specs.TypeRules.{is_value_or_resource};
ghost use Rattle.cm_validate_instances.specs.SketchScopes.{func_item_in, type_item_in};

use crate::sketches::{Sketch, resource_id};
use crate::sketching::Sketching;
use crate::{ItemSketch, NamedSketch};
use cm_types::{ExportDecl, ExportDesc, ExternName, TypeBound};
use cm_validate_core::{broken_unless, index_fault};
use cm_validate_model::{TypeSort, ValidReason};
use cm_validate_types::TypeScope;
use std::alloc::AllocError;

/// The item that a function of this type is.
fn func_item(sketch: Sketch) -> Option<ItemSketch>
    ensures { result ≡ func_item_in sketch }
{
    match sketch {
        Sketch::Func(func) => Some(ItemSketch::Func(func)),
        _ => None,
    }
}

/// The item that a type is.
fn type_item(sketch: Sketch) -> Option<ItemSketch>
    ensures { result ≡ type_item_in sketch }
{
    match sketch {
        Sketch::Value(_) => Some(ItemSketch::Type),
        Sketch::Resource(resource) => Some(ItemSketch::Resource(resource)),
        _ => None,
    }
}

/// Why an index that a type equality names is refused.
fn equal_fault(sorts: &[TypeSort], index: u32) -> Option<ValidReason>
    ensures { result ≡ least (index_broken is_value_or_resource sorts.now index) }
{
    match sorts.get(index as usize) {
        None => Some(ValidReason::NoSuchIndex),
        Some(sort) => broken_unless(sort.is_value_or_resource(), ValidReason::WrongSort),
    }
}

impl Sketching {
    ghost use Rattle.std.specs.Prelude.{IfOk, OnOk};
    ghost use Rattle.cm_types.specs.DefTypes.{export_decl};
    ghost use Rattle.cm_types.specs.declared.def_types.ExportDesc.TheVariants as desc;
    ghost use Rattle.cm_types.specs.declared.def_types.TypeBound.TheVariants as bound;
    ghost use Rattle.cm_validate_model.specs.Declarations.{export_desc_broken};
    ghost use Rattle.cm_validate_types.specs.TypeScopes.{own_types};
    ghost use Rattle.cm_validate_instances.specs.Levels.{sketches_of};
    ghost use Rattle.cm_validate_instances.specs.Sketches.{sketch_sort};
    ghost use Rattle.cm_validate_instances.specs.SketchScopes.{after_sketched};
    ghost use Rattle.cm_validate_instances.specs.SketchScopes.{declaration_faults};
    ghost use Rattle.cm_validate_instances.specs.SketchScopes.{sketch_fresh, sketch_item_more};
    ghost use Rattle.cm_validate_instances.specs.SketchScopes.{sketch_export, sketch_sorts};
    ghost use Rattle.cm_validate_instances.specs.Sketchings.{scope_sketched};

    /// Adds an item, if there is one.
    fn add_item(&mut self, name: &ExternName, item: Option<ItemSketch>) -> Result<(), AllocError>
        ensures { OnOk result (scope_sketched self.new
            ≡ sketch_item_more (scope_sketched self.old) name.now item) }
    {
        match item {
            None => Ok(()),
            Some(item) => {
                let name = name.clone()?;
                self.items.push(NamedSketch { name, item })?;
                Ok(())
            }
        }
    }

    fn export_func(
        &mut self,
        name: &ExternName,
        index: u32,
    ) -> Result<Option<ValidReason>, AllocError>
        ensures fault { IfOk result (λ r. r ≡ least
            (export_desc_broken (sketch_sorts (scope_sketched self.old)) (desc.Func index))) }
        ensures declared { OnOk result (scope_sketched self.new
            ≡ sketch_export (scope_sketched self.old) name.now (desc.Func index)) }
    {
        let fault = index_fault(self.own.sorts(), index, TypeSort::Func);
        let item = match self.own.get(index) {
            Some(sketch) => func_item(sketch),
            None => None,
        };
        self.add_item(name, item)?;
        Ok(fault)
    }

    fn export_equal(
        &mut self,
        name: &ExternName,
        index: u32,
    ) -> Result<Option<ValidReason>, AllocError>
        ensures fault { IfOk result (λ r. r ≡ least
            (export_desc_broken (sketch_sorts (scope_sketched self.old))
            (desc.Type (bound.Equal index)))) }
        ensures declared { OnOk result (scope_sketched self.new
            ≡ sketch_export (scope_sketched self.old) name.now
            (desc.Type (bound.Equal index))) }
    {
        let fault = equal_fault(self.own.sorts(), index);
        let sketch = match self.own.get(index) {
            Some(sketch) => sketch,
            None => Sketch::Faulty,
        };
        self.add_item(name, type_item(sketch))?;
        self.own.push(sketch)?;
        Ok(fault)
    }

    fn export_fresh(&mut self, name: &ExternName) -> Result<(), AllocError>
        ensures declared { OnOk result (scope_sketched self.new
            ≡ sketch_fresh (scope_sketched self.old) name.now) }
    {
        let resource = resource_id(self.next);
        self.add_item(name, Some(ItemSketch::Resource(resource)))?;
        self.own.push(Sketch::Resource(resource))?;
        if self.next == u64::MAX {
            return Err(AllocError);
        }
        self.next += 1;
        Ok(())
    }

    /// Reads what is exported: the least reason to refuse it.
    fn export_desc(
        &mut self,
        name: &ExternName,
        exported: ExportDesc,
    ) -> Result<Option<ValidReason>, AllocError>
        ensures fault { IfOk result (λ r. r ≡ least
            (export_desc_broken (sketch_sorts (scope_sketched self.old)) exported)) }
        ensures declared { OnOk result (scope_sketched self.new
            ≡ sketch_export (scope_sketched self.old) name.now exported) }
    {
        match exported {
            ExportDesc::Func(index) => self.export_func(name, index),
            ExportDesc::Type(TypeBound::Equal(index)) => self.export_equal(name, index),
            ExportDesc::Type(TypeBound::SubResource) => {
                self.export_fresh(name)?;
                Ok(None)
            }
        }
    }

    /// Reads an export: the least reason to refuse it.
    pub(crate) fn export(
        &mut self,
        component: &TypeScope,
        export: &ExportDecl,
    ) -> Result<Option<ValidReason>, AllocError>
        ensures fault { IfOk result (λ r. r ≡ least
            (declaration_faults (own_types component.now) (scope_sketched self.old)
            (export_decl export.now))) }
        ensures declared { OnOk result (scope_sketched self.new
            ≡ after_sketched (own_types component.now) (scope_sketched self.old)
            (export_decl export.now)) }
    {
        let _component = component;
        self.export_desc(&export.name, export.desc)
    }
}
