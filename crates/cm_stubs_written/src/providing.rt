//! Components that export what others import.

ghost use Rattle.std.specs.Prelude.{◌<◌, length};
ghost use Rattle.cm_types_arena.specs.Places.{funcs_of};

use crate::asked::Asked;
use crate::wanted::{ItemIs, Wanted, WantedExport, WantedIs, WantedItem};
use cm_binary_model::{
    Canon, CanonOption, Component, ExportSort, InlineExport, Instance, InstanceExportSort,
};
use cm_layout::{Side, flatten_func};
use cm_stubs_drafts::{CoreType, DraftFault, HostModules, TypeKey, Writer};
use cm_types::ExternName;
use cm_types_arena::Types;
use std::alloc::Global;
use std::collections::BTreeMap;
use std::mem;

/// A provider while it is written.
#[derive(Drop)]
struct Provider {
    alloc: Global,
    writer: Writer,
    modules: HostModules,
    /// The indices of the resource types, by the numbers of the resources.
    resources: BTreeMap<usize, u32>,
    /// What is lifted, in order: the functions of the component.
    lifts: Vec<Canon>,
}

/// What is exported: the index of a function, or the exports of an instance.
#[derive(Drop)]
enum Prepared {
    Func(u32),
    Instance(Vec<InlineExport>),
}

/// Whether the result of a function has contents that a post-return function may let go.
fn has_contents(types: &Types, func: usize) -> bool
    requires { func < length (funcs_of types.now) }
{
    match types.func_result(func) {
        Some(place) => {
            let summary = types.summary(place);
            summary.holds_string || summary.holds_list
        }
        None => false,
    }
}

/// The arena of a list of what is asked, if there is such a list.
fn types_of<'a>(asked: &[Asked<'a>], of: usize) -> Result<&'a Types, DraftFault> {
    match asked.get(of) {
        Some(asked) => Ok(asked.types),
        None => Err(DraftFault::NoResource),
    }
}

impl Provider {
    /// Defines the resource of an item with its destructor, and the core functions that make, drop
    /// and read handles of it.
    fn add_resource(&mut self, export: &str, item: &str, root: usize) -> Result<(), DraftFault> {
        let alloc = self.alloc;
        let draft = &mut self.writer.draft;
        draft.spend(export.len())?;
        let name = format!(in alloc; "{export}#[dtor]{item}")?;
        let one = CoreType::of_pointers(alloc, 1, 0)?;
        let destructor = self.modules.base_func(draft, name, one)?;
        let resource = draft.resource(destructor)?;
        self.resources.insert(root, resource)?;
        let made = draft.canon_core(Canon::ResourceNew { resource })?;
        let dropped = draft.canon_core(Canon::ResourceDrop { resource })?;
        let read = draft.canon_core(Canon::ResourceRep { resource })?;
        let name = format!(in alloc; "[resource-new]{item}")?;
        let to_one = CoreType::of_pointers(alloc, 1, 1)?;
        self.modules.import(draft, name, made, to_one)?;
        let name = format!(in alloc; "[resource-drop]{item}")?;
        let one = CoreType::of_pointers(alloc, 1, 0)?;
        self.modules.import(draft, name, dropped, one)?;
        let name = format!(in alloc; "[resource-rep]{item}")?;
        let to_one = CoreType::of_pointers(alloc, 1, 1)?;
        self.modules.import(draft, name, read, to_one)
    }

    /// Defines the resources of an instance that no instance before has.
    fn add_resources(&mut self, wanted: &Wanted, export: &WantedExport) -> Result<(), DraftFault> {
        let WantedIs::Instance(items) = &export.is else {
            return Ok(());
        };
        let mut has_begun = false;
        for item in items {
            let ItemIs::Resource(number) = item.is else {
                continue;
            };
            let root = wanted.resources.root(number);
            if self.resources.contains_key(&root) {
                continue;
            }
            if !has_begun {
                let alloc = self.alloc;
                let module = format!(in alloc; "[export]{}", export.name.as_str())?;
                self.modules.begin_imports(&mut self.writer.draft, module)?;
                has_begun = true;
            }
            self.add_resource(export.name.as_str(), item.name.as_str(), root)?;
        }
        Ok(())
    }

    /// The resources of what is asked are those that are defined.
    fn settle_resources(&mut self, wanted: &Wanted) -> Result<(), DraftFault> {
        for (key, number) in wanted.resources.numbers() {
            if let Some(index) = self.resources.get(&wanted.resources.root(*number)) {
                self.writer.handles.define(*key, *index)?;
            }
        }
        Ok(())
    }

    /// The options of a lift, with a post-return function under this name where its result has
    /// contents.
    fn lift_options(
        &mut self,
        host: u32,
        name: &str,
        post_return: Option<CoreType>,
    ) -> Result<Vec<CanonOption>, DraftFault> {
        let alloc = self.alloc;
        let mut options = self.modules.options()?;
        if let Some(ty) = post_return {
            self.writer.draft.spend(name.len())?;
            let name = format!(in alloc; "cabi_post_{name}")?;
            let draft = &mut self.writer.draft;
            let func = self.modules.host_func(draft, host, name, ty)?;
            options.push(CanonOption::PostReturn(func))?;
        }
        Ok(options)
    }

    /// The index of the function of this type that is lifted from what the module `host` exports
    /// under this name, once all is lifted.
    fn prepare_func(
        &mut self,
        asked: &[Asked<'_>],
        host: u32,
        name: String,
        key: TypeKey,
    ) -> Result<u32, DraftFault> {
        let types = types_of(asked, key.of)?;
        if key.place >= types.func_count() {
            return Err(DraftFault::NoResource);
        }
        let ty = self.writer.func_index(types, key)?;
        let flat = flatten_func(self.alloc, types.func(key.place), Side::Lift)?;
        let core = CoreType::of_flat(flat);
        let post_return = if has_contents(types, key.place) {
            Some(core.of_post_return(self.alloc)?)
        } else {
            None
        };
        let options = self.lift_options(host, name.as_str(), post_return)?;
        let draft = &mut self.writer.draft;
        let core_func = self.modules.host_func(draft, host, name, core)?;
        let index = u32::try_from(self.lifts.len()).map_err(|_| DraftFault::TooLong)?;
        self.lifts.push(Canon::Lift {
            core_func,
            options,
            ty,
        })?;
        Ok(index)
    }

    /// The index of a function of an instance, under this name.
    fn prepare_item_func(
        &mut self,
        asked: &[Asked<'_>],
        host: u32,
        export: &str,
        name: &str,
        key: TypeKey,
    ) -> Result<u32, DraftFault> {
        let alloc = self.alloc;
        self.writer.draft.spend(export.len())?;
        let core = format!(in alloc; "{export}#{name}")?;
        self.prepare_func(asked, host, core, key)
    }

    /// The index of the type that an item of an instance is, or of its function's type.
    fn item_type(
        &mut self,
        asked: &[Asked<'_>],
        wanted: &Wanted,
        item: &WantedItem,
    ) -> Result<u32, DraftFault> {
        match item.is {
            ItemIs::Func(key) => {
                let types = types_of(asked, key.of)?;
                self.writer.func_index(types, key)
            }
            ItemIs::Value(key) => {
                let types = types_of(asked, key.of)?;
                self.writer.type_index(types, key)
            }
            ItemIs::Resource(number) => match self.resources.get(&wanted.resources.root(number)) {
                Some(index) => Ok(*index),
                None => Err(DraftFault::NoResource),
            },
        }
    }

    /// Writes the types of what is exported.
    fn write_types(
        &mut self,
        asked: &[Asked<'_>],
        wanted: &Wanted,
        export: &WantedExport,
    ) -> Result<(), DraftFault> {
        match &export.is {
            WantedIs::Func(key) => {
                let types = types_of(asked, key.of)?;
                self.writer.func_index(types, *key)?;
            }
            WantedIs::Instance(items) => {
                for item in items {
                    self.item_type(asked, wanted, item)?;
                }
            }
        }
        Ok(())
    }

    /// The items of an instance that are types.
    fn prepare_types(
        &mut self,
        asked: &[Asked<'_>],
        wanted: &Wanted,
        items: &[WantedItem],
    ) -> Result<Vec<InlineExport>, DraftFault> {
        let mut exports = Vec::new(self.alloc);
        for item in items {
            if matches!(item.is, ItemIs::Func(_)) {
                continue;
            }
            let index = self.item_type(asked, wanted, item)?;
            let name = item.name.clone()?;
            let sort = InstanceExportSort::Type;
            exports.push(InlineExport { name, sort, index })?;
        }
        Ok(exports)
    }

    /// Puts the functions of an instance behind its types, which they use.
    fn prepare_funcs(
        &mut self,
        asked: &[Asked<'_>],
        host: u32,
        export: &str,
        items: &[WantedItem],
        exports: &mut Vec<InlineExport>,
    ) -> Result<(), DraftFault> {
        for item in items {
            let ItemIs::Func(key) = item.is else {
                continue;
            };
            let index = self.prepare_item_func(asked, host, export, item.name.as_str(), key)?;
            let name = item.name.clone()?;
            let sort = InstanceExportSort::Func;
            exports.push(InlineExport { name, sort, index })?;
        }
        Ok(())
    }

    /// What is exported under a name, once all is lifted.
    fn prepare(
        &mut self,
        asked: &[Asked<'_>],
        wanted: &Wanted,
        host: u32,
        export: &WantedExport,
    ) -> Result<Prepared, DraftFault> {
        let name = export.name.as_str();
        match &export.is {
            WantedIs::Func(key) => {
                let core = String::from_str(self.alloc, name)?;
                Ok(Prepared::Func(self.prepare_func(asked, host, core, *key)?))
            }
            WantedIs::Instance(items) => {
                let mut exports = self.prepare_types(asked, wanted, items)?;
                self.prepare_funcs(asked, host, name, items, &mut exports)?;
                Ok(Prepared::Instance(exports))
            }
        }
    }

    /// Defines the resources, instantiates the core modules, and writes the types.
    fn open(&mut self, asked: &[Asked<'_>], wanted: &Wanted) -> Result<u32, DraftFault> {
        self.modules.open(&mut self.writer.draft)?;
        for export in &wanted.exports {
            self.add_resources(wanted, export)?;
        }
        self.settle_resources(wanted)?;
        let host = self.modules.instantiate(&mut self.writer.draft)?;
        for export in &wanted.exports {
            self.write_types(asked, wanted, export)?;
        }
        Ok(host)
    }

    /// Lifts all that is to be lifted.
    fn lift(&mut self) -> Result<(), DraftFault> {
        for canon in mem::replace(&mut self.lifts, Vec::new(self.alloc)) {
            self.writer.draft.lift(canon)?;
        }
        Ok(())
    }

    /// Writes all that is exported.
    fn write(&mut self, asked: &[Asked<'_>], wanted: &Wanted) -> Result<(), DraftFault> {
        let host = self.open(asked, wanted)?;
        let mut prepared = Vec::new(self.alloc);
        for export in &wanted.exports {
            prepared.push(self.prepare(asked, wanted, host, export)?)?;
        }
        self.lift()?;
        let mut exported = Vec::new(self.alloc);
        for export in prepared {
            exported.push(match export {
                Prepared::Func(index) => (ExportSort::Func, index),
                Prepared::Instance(exports) => {
                    let instance = self.writer.draft.instance(Instance { exports })?;
                    (ExportSort::Instance, instance)
                }
            })?;
        }
        for (export, (sort, index)) in wanted.exports.iter().zip(exported) {
            let name = export.name.clone()?;
            self.writer.draft.export(name, sort, index)?;
        }
        Ok(())
    }
}

/// A component that exports what these import, each list after the exports of those before it.
pub fn provider_written(
    alloc: Global,
    asked: &[Asked<'_>],
    exported: &[Vec<ExternName>],
) -> Result<Component, DraftFault> {
    let mut writer = Writer::new(alloc);
    let wanted = Wanted::of(alloc, &mut writer.draft, asked, exported)?;
    let mut provider = Provider {
        alloc,
        writer,
        modules: HostModules::new(alloc)?,
        resources: BTreeMap::new(alloc),
        lifts: Vec::new(alloc),
    };
    provider.write(asked, &wanted)?;
    let Provider {
        writer,
        modules,
        ..
    } = provider;
    modules.component(writer.draft)
}
