//! The pass over a component's definitions.

ghost use Rattle.std.specs.Prelude.{◌≡◌, OnOk, length, map};
ghost use Rattle.cm_binary_model.specs.Trees.{alias_tree, instance_tree, section_tree};
ghost use Rattle.cm_types.specs.DefTypes.{def_type_tree};
ghost use Rattle.cm_validate_model.specs.Items.{alias_item, all_items, export_item, import_item};
ghost use Rattle.cm_validate_model.specs.Items.{instance_item, items_of, type_item};
ghost use Rattle.cm_validate_items.specs.Numbers.{after_alias, after_export, after_import};
ghost use Rattle.cm_validate_items.specs.Numbers.{numbers_after_all};
ghost use Rattle.cm_validate_items.specs.Shared.{numbers_in};

use crate::shared::Shared;
use cm_binary_model::{
    Alias, Export, ExportSort, ExternDesc, Import, Instance, InstanceExportSort, Section,
};
use cm_types::DefType;
use std::alloc::AllocError;

/// Adds what a definition of a type adds: a type that is not there yet.
fn add_types(shared: &mut Shared, types: &[DefType]) -> Result<(), AllocError>
    ensures { OnOk result (numbers_in shared.new ≡ numbers_after_all
        (numbers_in shared.old) (map type_item (map def_type_tree types.now))) }
{
    for _ in types {
        let first = shared.next_type();
        shared.add_type(Some(first))?;
    }
    Ok(())
}

/// Adds instances that are made of definitions under names.
fn add_instances(shared: &mut Shared, instances: &[Instance]) -> Result<(), AllocError>
    ensures { OnOk result (numbers_in shared.new ≡ numbers_after_all
        (numbers_in shared.old) (map instance_item (map instance_tree instances.now))) }
{
    for _ in instances {
        let first = shared.next_instance();
        shared.add_instance(Some(first))?;
    }
    Ok(())
}

/// Adds what an alias names: a type of an instance is not there yet, a type of the component is.
fn add_alias(shared: &mut Shared, alias: &Alias) -> Result<(), AllocError>
    ensures { OnOk result (numbers_in shared.new
        ≡ after_alias (numbers_in shared.old) (alias_tree alias.now)) }
{
    match alias {
        Alias::InstanceExport { sort, .. } => match sort {
            InstanceExportSort::Func => Ok(()),
            InstanceExportSort::Type => {
                let first = shared.next_type();
                shared.add_type(Some(first))
            }
        },
        Alias::CoreInstanceExport { .. } => Ok(()),
        Alias::OuterType(outer) => {
            let first = shared.first_type(outer.index);
            shared.add_type(first)
        }
    }
}

/// Adds aliases.
fn add_aliases(shared: &mut Shared, aliases: &[Alias]) -> Result<(), AllocError>
    ensures { OnOk result (numbers_in shared.new ≡ numbers_after_all
        (numbers_in shared.old) (map alias_item (map alias_tree aliases.now))) }
{
    for alias in aliases {
        add_alias(shared, alias)?;
    }
    Ok(())
}

/// Adds an import: an instance of a type that is there, or a function.
fn add_import(shared: &mut Shared, desc: ExternDesc) -> Result<(), AllocError>
    ensures { OnOk result (numbers_in shared.new
        ≡ after_import (numbers_in shared.old) desc) }
{
    match desc {
        ExternDesc::Func(_) => shared.add_import(None),
        ExternDesc::Instance(index) => {
            let first = shared.first_type(index);
            shared.add_import(first)?;
            let instance = shared.next_instance();
            shared.add_instance(Some(instance))
        }
    }
}

/// Adds imports.
fn add_imports(shared: &mut Shared, imports: &[Import]) -> Result<(), AllocError>
    ensures { OnOk result (numbers_in shared.new ≡ numbers_after_all
        (numbers_in shared.old) (map import_item imports.now)) }
{
    for import in imports {
        add_import(shared, import.desc)?;
    }
    Ok(())
}

/// Adds an export: an instance that is there, which gets another index; or a function.
fn add_export(shared: &mut Shared, sort: ExportSort, index: u32) -> Result<(), AllocError>
    ensures { OnOk result (numbers_in shared.new
        ≡ after_export (numbers_in shared.old) sort index) }
{
    match sort {
        ExportSort::Func => shared.add_export(None),
        ExportSort::Instance => {
            let first = shared.first_instance(index);
            shared.add_export(first)?;
            shared.add_instance(first)
        }
    }
}

/// Adds exports.
fn add_exports(shared: &mut Shared, exports: &[Export]) -> Result<(), AllocError>
    ensures { OnOk result (numbers_in shared.new ≡ numbers_after_all
        (numbers_in shared.old) (map export_item exports.now)) }
{
    for export in exports {
        add_export(shared, export.sort, export.index)?;
    }
    Ok(())
}

/// Adds the definitions of a section.
fn add_section(shared: &mut Shared, section: &Section) -> Result<(), AllocError>
    ensures { OnOk result (numbers_in shared.new ≡ numbers_after_all
        (numbers_in shared.old) (items_of (section_tree section.now))) }
{
    match section {
        Section::Custom(_) => Ok(()),
        Section::CoreModule(_) => Ok(()),
        Section::CoreInstances(_) => Ok(()),
        Section::Instances(items) => add_instances(shared, items),
        Section::Aliases(items) => add_aliases(shared, items),
        Section::Types(items) => add_types(shared, items),
        Section::Canons(_) => Ok(()),
        Section::Imports(items) => add_imports(shared, items),
        Section::Exports(items) => add_exports(shared, items),
    }
}

/// Adds the definitions of sections, in order.
pub(crate) fn add_sections(shared: &mut Shared, sections: &[Section]) -> Result<(), AllocError>
    ensures { OnOk result (numbers_in shared.new ≡ numbers_after_all
        (numbers_in shared.old) (all_items (map section_tree sections.now))) }
{
    for section in sections {
        add_section(shared, section)?;
    }
    Ok(())
}
