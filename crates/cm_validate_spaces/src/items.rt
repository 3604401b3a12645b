//! The items of a section.

ghost use Rattle.std.specs.Prelude.{◌≡◌, IfOk, length, slice_get};
ghost use Rattle.std.specs.Option.{option_map};
ghost use Rattle.cm_binary_model.specs.Trees.{alias_tree, section_tree};
ghost use Rattle.cm_validate_model.specs.Items.{alias_item, items_of};
ghost use Rattle.cm_validate_spaces.specs.IndexSpaces.{Answers, Stands};
ghost use Rattle.cm_validate_spaces.specs.Items.{item_of};

use crate::IndexSpaces;
use cm_binary_model::{Alias, Canon, CoreInstance, Export, Import, Instance, Section};
use cm_types::DefType;
use cm_validate_model::ValidReason;
use std::alloc::{AllocError, Global};

/// One definition of a component, of whatever section.
#[derive(Clone, Copy)]
pub(crate) enum SectionItem<'a> {
    CoreModule,
    CoreInstance(&'a CoreInstance),
    Instance(&'a Instance),
    Alias(&'a Alias),
    Type(&'a DefType),
    Canon(&'a Canon),
    Import(&'a Import),
    Export(&'a Export),
}

/// How many items a section has: a custom section none, a core module is one.
pub(crate) fn item_count(section: &Section) -> usize
    ensures { result ≡ length (items_of (section_tree section.now)) }
{
    match section {
        Section::Custom(_) => 0,
        Section::CoreModule(_) => 1,
        Section::CoreInstances(items) => items.len(),
        Section::Instances(items) => items.len(),
        Section::Aliases(items) => items.len(),
        Section::Types(items) => items.len(),
        Section::Canons(items) => items.len(),
        Section::Imports(items) => items.len(),
        Section::Exports(items) => items.len(),
    }
}

/// The item of this number in a section, if there is one.
pub(crate) fn item_at<'a>(section: &'a Section, number: usize) -> Option<SectionItem<'a>>
    ensures { option_map item_of result ≡ slice_get (items_of (section_tree section.now)) number }
{
    match section {
        Section::Custom(_) => None,
        Section::CoreModule(_) => {
            if number > 0 {
                return None;
            }
            Some(SectionItem::CoreModule)
        }
        Section::CoreInstances(items) => Some(SectionItem::CoreInstance(items.get(number)?)),
        Section::Instances(items) => Some(SectionItem::Instance(items.get(number)?)),
        Section::Aliases(items) => Some(SectionItem::Alias(items.get(number)?)),
        Section::Types(items) => Some(SectionItem::Type(items.get(number)?)),
        Section::Canons(items) => Some(SectionItem::Canon(items.get(number)?)),
        Section::Imports(items) => Some(SectionItem::Import(items.get(number)?)),
        Section::Exports(items) => Some(SectionItem::Export(items.get(number)?)),
    }
}

/// Adds an alias.
fn add_alias<'a>(
    spaces: &mut IndexSpaces<'a>,
    alias: &'a Alias,
) -> Result<Option<ValidReason>, AllocError>
    requires { Stands spaces.old }
    ensures { IfOk result (λ r. Answers (alias_item (alias_tree alias.now))
        spaces.old r spaces.new) }
{
    match alias {
        Alias::InstanceExport {
            sort,
            instance,
            name,
        } => spaces.alias_export(*sort, *instance, name.as_str()),
        Alias::CoreInstanceExport {
            sort,
            instance,
            name,
        } => spaces.alias_core_export(*sort, *instance, name.as_str()),
        Alias::OuterType(outer) => spaces.alias_type(*outer),
    }
}

/// Adds an item. Answers the least reason to refuse it, or none; nothing is added then.
/// `AllocError` comes where there is no memory; the spaces are then to be dropped.
pub(crate) fn add_item<'a>(
    spaces: &mut IndexSpaces<'a>,
    alloc: Global,
    item: SectionItem<'a>,
) -> Result<Option<ValidReason>, AllocError>
    requires { Stands spaces.old }
    ensures { IfOk result (λ r. Answers (item_of item.entry) spaces.old r spaces.new) }
{
    match item {
        SectionItem::CoreModule => {
            spaces.add_core_module()?;
            Ok(None)
        }
        SectionItem::CoreInstance(instance) => spaces.add_core_instance(alloc, instance),
        SectionItem::Instance(instance) => spaces.add_instance(alloc, instance),
        SectionItem::Alias(alias) => add_alias(spaces, alias),
        SectionItem::Type(def) => spaces.add_type(alloc, def),
        SectionItem::Canon(canon) => spaces.add_canon(alloc, canon),
        SectionItem::Import(import) => spaces.add_import(alloc, import),
        SectionItem::Export(export) => spaces.add_export(alloc, export),
    }
}
