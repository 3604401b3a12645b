//! Components that import what another exports.

use crate::asked::{Asked, bytes_of, name_of};
use cm_binary_model::{Canon, Component};
use cm_layout::{Side, flatten_func};
use cm_stubs_drafts::{
    BroughtResource, CoreType, Draft, DraftFault, HostModules, ResourceKey, TypeKey, Writer,
};
use cm_types::{ExternName, TypeBound};
use cm_types_arena::{Desc, ItemDesc, Items, NamedDesc, Types};
use std::alloc::Global;

/// The number of the only list that is asked.
const EXPORTED: usize = 0;
/// The module from which functions of the component are imported that are of no instance.
const ROOT: &str = "$root";

/// What an item of an imported instance is, apart from a value type.
#[derive(Clone, Copy)]
enum ImportedIs {
    Func(TypeKey),
    Resource(ResourceKey),
}

/// An item of an imported instance, with the index of the alias for it.
#[derive(Drop)]
struct ImportedItem {
    name: ExternName,
    is: ImportedIs,
    index: u32,
}

impl ImportedItem {
    /// An item that has no alias yet.
    fn new(name: ExternName, is: ImportedIs) -> ImportedItem {
        ImportedItem { name, is, index: 0 }
    }
}

/// An instance that is imported, with its functions and the resources that it brings.
#[derive(Drop)]
struct ImportedInstance {
    name: ExternName,
    index: u32,
    items: Vec<ImportedItem>,
}

/// A function that is imported.
#[derive(Drop)]
struct ImportedFunc {
    name: ExternName,
    key: TypeKey,
    index: u32,
}

/// A caller while it is written.
#[derive(Drop)]
struct Caller {
    alloc: Global,
    writer: Writer,
    modules: HostModules,
}

/// The number of the resource that an item is, if it is one.
fn resource_of(desc: ItemDesc) -> Option<u64> {
    match desc {
        ItemDesc::EqualResource(number) | ItemDesc::FreshResource(number) => Some(number),
        ItemDesc::Func(_) | ItemDesc::EqualType(_) => None,
    }
}

/// The resources that an instance brings. Its items are spent of the draft, and the bytes of the
/// names of these, so that many instances of one type are not gone through for nothing.
fn resources_of(
    alloc: Global,
    draft: &mut Draft,
    items: Items<'_>,
) -> Result<Vec<BroughtResource>, DraftFault> {
    draft.spend(items.len())?;
    let mut resources = Vec::new(alloc);
    for number in 0..items.len() {
        let Some(item) = items.at(number) else {
            continue;
        };
        if let ItemDesc::FreshResource(resource) = item.desc {
            draft.spend(bytes_of(item.name))?;
            let key = ResourceKey::new(EXPORTED, resource, items.by());
            let name = name_of(alloc, item.name)?;
            resources.push(BroughtResource { key, name })?;
        }
    }
    Ok(resources)
}

impl Caller {
    /// What brings resources among the other's imports may be imported.
    fn add_brought(&mut self, imports: &[NamedDesc<'_>]) -> Result<(), DraftFault> {
        for import in imports {
            let Desc::Instance(items) = import.desc else {
                continue;
            };
            let resources = resources_of(self.alloc, &mut self.writer.draft, items)?;
            if !resources.is_empty() {
                let name = name_of(self.alloc, import.name)?;
                self.writer.handles.bring(name, resources)?;
            }
        }
        Ok(())
    }

    /// Declares a resource of an instance: whether the instance brings it.
    fn declare_resource(&mut self, name: ExternName, key: ResourceKey) -> Result<bool, DraftFault> {
        let draft = &mut self.writer.draft;
        let handles = &mut self.writer.handles;
        let is_new = !handles.is_settled(key);
        let bound = if is_new {
            TypeBound::SubResource
        } else {
            TypeBound::Equal(handles.index(draft, key)?)
        };
        let index = draft.declare_type(name, bound)?;
        handles.declare(key, index)?;
        Ok(is_new)
    }

    /// Declares the resources of an instance: those that it brings.
    fn declare_resources(&mut self, items: Items<'_>) -> Result<Vec<ImportedItem>, DraftFault> {
        let mut brought = Vec::new(self.alloc);
        for number in 0..items.len() {
            let Some(item) = items.at(number) else {
                continue;
            };
            let Some(resource) = resource_of(item.desc) else {
                continue;
            };
            let key = ResourceKey::new(EXPORTED, resource, items.by());
            let name = name_of(self.alloc, item.name)?;
            if self.declare_resource(name.clone()?, key)? {
                let is = ImportedIs::Resource(key);
                brought.push(ImportedItem::new(name, is))?;
            }
        }
        Ok(brought)
    }

    /// Declares the value types of an instance.
    fn declare_values(&mut self, types: &Types, items: Items<'_>) -> Result<(), DraftFault> {
        for number in 0..items.len() {
            let Some(item) = items.at(number) else {
                continue;
            };
            if let ItemDesc::EqualType(placed) = item.desc {
                let key = TypeKey::new(EXPORTED, placed, items.by());
                let equal = self.writer.type_index(types, key)?;
                let name = name_of(self.alloc, item.name)?;
                let bound = TypeBound::Equal(equal);
                let index = self.writer.draft.declare_type(name, bound)?;
                self.writer.rename(types, key, index)?;
            }
        }
        Ok(())
    }

    /// Declares the functions of an instance, and puts them behind its items.
    fn declare_funcs(
        &mut self,
        types: &Types,
        listed: Items<'_>,
        items: &mut Vec<ImportedItem>,
    ) -> Result<(), DraftFault> {
        for number in 0..listed.len() {
            let Some(item) = listed.at(number) else {
                continue;
            };
            if let ItemDesc::Func(placed) = item.desc {
                let key = TypeKey::new(EXPORTED, placed, listed.by());
                let ty = self.writer.func_index(types, key)?;
                let name = name_of(self.alloc, item.name)?;
                self.writer.draft.declare_func(name.clone()?, ty)?;
                let is = ImportedIs::Func(key);
                items.push(ImportedItem::new(name, is))?;
            }
        }
        Ok(())
    }

    /// The resources that an instance brings are what it exports under their names.
    fn settle(&mut self, index: u32, items: &[ImportedItem]) -> Result<(), DraftFault> {
        for item in items {
            if let ImportedIs::Resource(key) = item.is {
                self.writer.handles.settle(key, index, item.name.clone()?)?;
            }
        }
        Ok(())
    }

    /// Imports an instance: resources first, then value types, then functions.
    fn import_instance(
        &mut self,
        types: &Types,
        name: ExternName,
        listed: Items<'_>,
    ) -> Result<ImportedInstance, DraftFault> {
        self.writer.begin_instance();
        let mut items = self.declare_resources(listed)?;
        self.declare_values(types, listed)?;
        self.declare_funcs(types, listed, &mut items)?;
        let ty = self.writer.end_instance()?;
        let index = self.writer.draft.import_instance(name.clone()?, ty)?;
        self.settle(index, &items)?;
        Ok(ImportedInstance { name, index, items })
    }

    /// Imports what are instances among these.
    fn import_instances(
        &mut self,
        exports: &Asked<'_>,
    ) -> Result<Vec<ImportedInstance>, DraftFault> {
        let mut instances = Vec::new(self.alloc);
        for export in &exports.externs {
            if let Desc::Instance(items) = export.desc {
                self.writer.draft.spend(bytes_of(export.name))?;
                let name = name_of(self.alloc, export.name)?;
                instances.push(self.import_instance(exports.types, name, items)?)?;
            }
        }
        Ok(instances)
    }

    /// Imports what are functions among these.
    fn import_funcs(&mut self, exports: &Asked<'_>) -> Result<Vec<ImportedFunc>, DraftFault> {
        let mut funcs = Vec::new(self.alloc);
        for export in &exports.externs {
            if let Desc::Func(placed) = export.desc {
                let key = TypeKey::new(EXPORTED, placed, None);
                let ty = self.writer.func_index(exports.types, key)?;
                let name = name_of(self.alloc, export.name)?;
                let index = self.writer.draft.import_func(name.clone()?, ty)?;
                funcs.push(ImportedFunc { name, key, index })?;
            }
        }
        Ok(funcs)
    }

    /// Lowers a function of this type for the module `host`, under this name.
    fn lower(
        &mut self,
        types: &Types,
        name: &str,
        key: TypeKey,
        func: u32,
    ) -> Result<(), DraftFault> {
        if key.place >= types.func_count() {
            return Err(DraftFault::NoResource);
        }
        let options = self.modules.options()?;
        let index = self
            .writer
            .draft
            .canon_core(Canon::Lower { func, options })?;
        let flat = flatten_func(self.alloc, types.func(key.place), Side::Lower)?;
        let name = String::from_str(self.alloc, name)?;
        let ty = CoreType::of_flat(flat);
        self.modules.import(&mut self.writer.draft, name, index, ty)
    }

    /// Lets the module `host` drop handles of the resource type of this index, under this name.
    fn add_drop(&mut self, name: &str, resource: u32) -> Result<(), DraftFault> {
        let alloc = self.alloc;
        let draft = &mut self.writer.draft;
        let index = draft.canon_core(Canon::ResourceDrop { resource })?;
        let name = format!(in alloc; "[resource-drop]{name}")?;
        let ty = CoreType::of_pointers(alloc, 1, 0)?;
        self.modules.import(draft, name, index, ty)
    }

    /// Adds aliases for the functions of an instance, and for the resources that it brings.
    fn alias_items(&mut self, instance: &mut ImportedInstance) -> Result<(), DraftFault> {
        let draft = &mut self.writer.draft;
        let handles = &mut self.writer.handles;
        for item in &mut instance.items {
            item.index = match item.is {
                ImportedIs::Func(_) => draft.func_of(instance.index, item.name.clone()?)?,
                ImportedIs::Resource(key) => handles.in_component(draft, key)?,
            };
        }
        Ok(())
    }

    /// Lowers the functions of an instance, and lets handles of its resources be dropped.
    fn lower_items(
        &mut self,
        types: &Types,
        instance: &ImportedInstance,
    ) -> Result<(), DraftFault> {
        let module = String::from_str(self.alloc, instance.name.as_str())?;
        self.modules.begin_imports(&mut self.writer.draft, module)?;
        for item in &instance.items {
            let name = item.name.as_str();
            match item.is {
                ImportedIs::Func(key) => self.lower(types, name, key, item.index)?,
                ImportedIs::Resource(_) => self.add_drop(name, item.index)?,
            }
        }
        Ok(())
    }

    /// Lowers the functions that are of no instance.
    fn lower_funcs(&mut self, types: &Types, funcs: &[ImportedFunc]) -> Result<(), DraftFault> {
        if funcs.is_empty() {
            return Ok(());
        }
        let module = String::from_str(self.alloc, ROOT)?;
        self.modules.begin_imports(&mut self.writer.draft, module)?;
        for func in funcs {
            self.lower(types, func.name.as_str(), func.key, func.index)?;
        }
        Ok(())
    }

    /// Lets handles of resources be dropped that the other imports too.
    fn drop_brought(&mut self) -> Result<(), DraftFault> {
        for brought in self.writer.handles.take_brought() {
            if !brought.is_imported {
                continue;
            }
            let module = String::from_str(self.alloc, brought.name.as_str())?;
            self.modules.begin_imports(&mut self.writer.draft, module)?;
            for resource in &brought.resources {
                let draft = &mut self.writer.draft;
                let index = self.writer.handles.in_component(draft, resource.key)?;
                self.add_drop(resource.name.as_str(), index)?;
            }
        }
        Ok(())
    }

    /// Writes all that is imported.
    fn write(&mut self, exports: &Asked<'_>) -> Result<(), DraftFault> {
        let mut instances = self.import_instances(exports)?;
        let funcs = self.import_funcs(exports)?;
        for instance in &mut instances {
            self.alias_items(instance)?;
        }
        self.modules.open(&mut self.writer.draft)?;
        for instance in &instances {
            self.lower_items(exports.types, instance)?;
        }
        self.lower_funcs(exports.types, &funcs)?;
        self.drop_brought()?;
        self.modules.instantiate(&mut self.writer.draft)?;
        Ok(())
    }
}

/// A component that imports what another exports, and of what that imports the instances that bring
/// the resources in it.
pub fn caller_written(
    alloc: Global,
    imports: &Asked<'_>,
    exports: &Asked<'_>,
) -> Result<Component, DraftFault> {
    let mut caller = Caller {
        alloc,
        writer: Writer::new(alloc),
        modules: HostModules::new(alloc)?,
    };
    caller.add_brought(&imports.externs)?;
    caller.write(exports)?;
    let Caller {
        writer,
        modules,
        ..
    } = caller;
    modules.component(writer.draft)
}
