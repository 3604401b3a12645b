//! The core functions of components by name.

use cm_hux_files::Checked;
use cm_hux_script::{CoreNames, NameFault};
use cm_types_arena::{Extern, ExternDesc};
use cm_validate_spaces::{CoreFuncEntry, MadeFunc};
use std::alloc::{AllocError, Global};
use std::collections::BTreeMap;

/// The core functions that exports of core instances with one name are.
#[derive(Clone, Copy, Drop)]
enum Exported {
    One(u32),
    Several,
}

/// The core functions of a component by name, which it owns.
#[derive(Drop)]
struct ComponentNames {
    /// The numbers of imports, by their names.
    imports: BTreeMap<String, usize>,
    /// The first that lowers an import, by its number.
    lowered: BTreeMap<usize, u32>,
    /// The first that lowers an item of an import, by the import's number and the item's name.
    items: BTreeMap<usize, BTreeMap<String, u32>>,
    exports: BTreeMap<String, Exported>,
}

/// The core functions of components by name. They cost what their files say.
#[derive(Drop)]
pub struct Names {
    components: Vec<ComponentNames>,
}

/// The name of an item of an imported instance.
fn item_name(import: &Extern, item: usize) -> Option<&str> {
    match &import.desc {
        ExternDesc::Func(_) => None,
        ExternDesc::Instance { ty, .. } => Some(ty.items.get(item)?.name.as_str()),
    }
}

impl ComponentNames {
    /// Those of a component.
    fn of(alloc: Global, checked: &Checked<'_>) -> Result<ComponentNames, AllocError> {
        let mut names = ComponentNames {
            imports: BTreeMap::new(alloc),
            lowered: BTreeMap::new(alloc),
            items: BTreeMap::new(alloc),
            exports: BTreeMap::new(alloc),
        };
        for (number, import) in checked.imports().iter().enumerate() {
            let name = String::from_str(alloc, import.name.as_str())?;
            names.imports.insert(name, number)?;
        }
        names.add_all(alloc, checked)?;
        Ok(names)
    }

    fn add_all(&mut self, alloc: Global, checked: &Checked<'_>) -> Result<(), AllocError> {
        for place in 0..checked.core_func_count() {
            let index = u32::try_from(place).map_err(|_| AllocError)?;
            match checked.core(index) {
                Some(CoreFuncEntry::Made(MadeFunc::Lowered { import, item, .. })) => {
                    self.add_lowered(alloc, checked, index, import, item)?;
                }
                Some(CoreFuncEntry::Guest(export)) => {
                    self.add_export(alloc, index, export.name)?;
                }
                _ => {}
            }
        }
        Ok(())
    }

    fn add_lowered(
        &mut self,
        alloc: Global,
        checked: &Checked<'_>,
        index: u32,
        import: usize,
        item: Option<usize>,
    ) -> Result<(), AllocError> {
        let Some(item) = item else {
            if self.lowered.get(&import).is_none() {
                self.lowered.insert(import, index)?;
            }
            return Ok(());
        };
        let Some(found) = checked.imports().get(import) else {
            return Ok(());
        };
        match item_name(found, item) {
            Some(name) => self.add_item(alloc, index, import, name),
            None => Ok(()),
        }
    }

    fn add_item(
        &mut self,
        alloc: Global,
        index: u32,
        import: usize,
        name: &str,
    ) -> Result<(), AllocError> {
        if self.items.get(&import).is_none() {
            self.items.insert(import, BTreeMap::new(alloc))?;
        }
        if let Some(items) = self.items.get_mut(&import) {
            if items.get(name).is_none() {
                items.insert(String::from_str(alloc, name)?, index)?;
            }
        }
        Ok(())
    }

    fn add_export(&mut self, alloc: Global, index: u32, name: &str) -> Result<(), AllocError> {
        let exported = match self.exports.get(name) {
            Some(_) => Exported::Several,
            None => Exported::One(index),
        };
        self.exports
            .insert(String::from_str(alloc, name)?, exported)?;
        Ok(())
    }

    /// The core function that lowers an import of this name, or `interface#item` of one.
    fn import(&self, name: &str) -> Option<u32> {
        match name.split_once('#') {
            Some((interface, item)) => {
                let import = self.imports.get(interface)?;
                self.items.get(import)?.get(item).copied()
            }
            None => {
                let import = self.imports.get(name)?;
                self.lowered.get(import).copied()
            }
        }
    }

    fn core_func(&self, name: &str) -> Result<u32, NameFault> {
        if let Some(func) = self.import(name) {
            return Ok(func);
        }
        match self.exports.get(name) {
            Some(Exported::One(func)) => Ok(*func),
            Some(Exported::Several) => Err(NameFault::Several),
            None => Err(NameFault::Unknown),
        }
    }
}

impl Names {
    /// Those of these components.
    pub fn of(alloc: Global, components: &[Checked<'_>]) -> Result<Names, AllocError> {
        let mut names = Vec::with_capacity(alloc, components.len())?;
        for checked in components {
            names.push(ComponentNames::of(alloc, checked)?)?;
        }
        Ok(Names { components: names })
    }
}

impl CoreNames for Names {
    fn count(&self) -> usize {
        self.components.len()
    }

    fn core_func(&self, component: usize, name: &str) -> Result<u32, NameFault> {
        match self.components.get(component) {
            Some(names) => names.core_func(name),
            None => Err(NameFault::Unknown),
        }
    }
}
