//! The names under which core functions are lifted beside their first.

use crate::names::name_text;
use cm_types_arena::{Desc, ItemDesc, Items, NamedDesc, Signature};
use cm_validate_functions::Functions;
use std::alloc::{AllocError, Global};
use std::collections::BTreeMap;
use std::fmt;

/// The names under which a component exports lifts of each core function, in the order of the
/// exports, but for the first, which `Functions::describe` tells.
#[derive(Drop)]
pub(crate) struct OtherNames {
    alloc: Global,
    names: BTreeMap<u32, Vec<String>>,
}

impl OtherNames {
    /// Those of a component with this signature. They cost the names of its exports and their
    /// items.
    pub(crate) fn of(
        alloc: Global,
        functions: &Functions<'_, '_>,
        signature: &Signature,
    ) -> Result<OtherNames, AllocError> {
        let mut others = OtherNames {
            alloc,
            names: BTreeMap::new(alloc),
        };
        let exports = signature.exports();
        for place in 0..exports.len() {
            if let Some(export) = exports.at(place) {
                others.add_export(functions, export)?;
            }
        }
        Ok(others)
    }

    fn add_export(
        &mut self,
        functions: &Functions<'_, '_>,
        export: NamedDesc<'_>,
    ) -> Result<(), AllocError> {
        let name = name_text(self.alloc, export.name)?;
        match export.desc {
            Desc::Func(_) => self.add(functions, name),
            Desc::Instance(items) => self.add_items(functions, name.as_str(), items),
        }
    }

    fn add_items(
        &mut self,
        functions: &Functions<'_, '_>,
        interface: &str,
        items: Items<'_>,
    ) -> Result<(), AllocError> {
        for place in 0..items.len() {
            if let Some(item) = items.at(place) {
                if matches!(item.desc, ItemDesc::Func(_)) {
                    let function = name_text(self.alloc, item.name)?;
                    self.add(functions, format!(in self.alloc; "{interface}#{function}")?)?;
                }
            }
        }
        Ok(())
    }

    /// Adds a name that leads to a lift; the first of a core function is left out.
    fn add(&mut self, functions: &Functions<'_, '_>, name: String) -> Result<(), AllocError> {
        let Some(index) = functions.export(name.as_str()) else {
            return Ok(());
        };
        if self.names.get(&index).is_none() {
            self.names.insert(index, Vec::new(self.alloc))?;
            return Ok(());
        }
        if let Some(others) = self.names.get_mut(&index) {
            others.push(name)?;
        }
        Ok(())
    }

    /// Those of the core function of this number.
    pub(crate) fn of_func(&self, index: u32) -> Others<'_> {
        Others(match self.names.get(&index) {
            Some(names) => names.as_slice(),
            None => &[],
        })
    }
}

/// Further names of a lift, as they are told behind what a core function is.
#[derive(Clone, Copy)]
pub(crate) struct Others<'n>(&'n [String]);

impl fmt::Display for Others<'_> {
    fn fmt<W: fmt::Write>(&self, f: &mut fmt::Formatter<W>) -> fmt::Result {
        for name in self.0 {
            write!(f, ", lifted as {name}")?;
        }
        Ok(())
    }
}
