//! What a core function is, in words.

use crate::functions::Functions;
use crate::leading::item_name;
use crate::lifts::Lift;
use cm_tool_help_texts::Escaped;
use cm_validate_items::Resource;
use cm_validate_spaces::{CoreFuncEntry, MadeFunc};
use std::fmt;

/// What a core function is and what it is used for, in words: `export "add" of core instance 0,
/// lifted as add`; `lowered import a:b/c#f`; `resource.drop of a:b/c#r`. Names of core instances'
/// exports, which may be any text, are escaped.
#[derive(Clone, Copy)]
pub struct Described<'f, 'b, 'a> {
    functions: &'f Functions<'b, 'a>,
    index: u32,
    func: CoreFuncEntry<'a>,
}

impl<'b, 'a> Functions<'b, 'a> {
    /// What the core function of an index is and what it is used for, in words, if there is one.
    pub fn describe<'f>(&'f self, index: u32) -> Option<Described<'f, 'b, 'a>> {
        let func = self.checked.core(index)?;
        Some(Described {
            functions: self,
            index,
            func,
        })
    }

    /// Writes the name of an import, or of an item of one.
    fn write_import<W: fmt::Write>(
        &self,
        f: &mut fmt::Formatter<W>,
        import: usize,
        item: Option<usize>,
    ) -> fmt::Result {
        let imports = self.checked.imports();
        if let Some(import) = imports.get(import) {
            f.write_str(import.name.as_str())?;
        }
        match item {
            None => Ok(()),
            Some(item) => write!(f, "#{}", item_name(imports, import, item).unwrap_or("")),
        }
    }

    /// Writes the name under which a lift is exported.
    fn write_export<W: fmt::Write>(
        &self,
        f: &mut fmt::Formatter<W>,
        lift: Lift<'a>,
    ) -> fmt::Result {
        if let Some(export) = self.checked.exports().get(lift.export) {
            f.write_str(export.name.as_str())?;
        }
        match lift.item {
            None => Ok(()),
            Some(item) => write!(f, "#{item}"),
        }
    }

    /// Writes the name of a resource that an import brings, or the number of one that the component
    /// defines.
    fn write_resource<W: fmt::Write>(&self, f: &mut fmt::Formatter<W>, number: u64) -> fmt::Result {
        match self.checked.resource(number) {
            Some(Resource::Brought { import, item }) => self.write_import(f, import, Some(item)),
            _ => write!(f, "resource {number}"),
        }
    }

    /// Writes what a guest's function is used for.
    fn write_uses<W: fmt::Write>(&self, f: &mut fmt::Formatter<W>, index: u32) -> fmt::Result {
        if let Some(lift) = self.lifted(index) {
            f.write_str(", lifted as ")?;
            self.write_export(f, lift)?;
        }
        if let Some(lift) = self.post_return_of(index) {
            f.write_str(", post-return of ")?;
            self.write_export(f, lift)?;
        }
        if self.allocator_of(index).is_some() || self.allocator_of_lower(index).is_some() {
            f.write_str(", allocator")?;
        }
        match self.destructor_of(index) {
            None => Ok(()),
            Some(number) => write!(f, ", destructor of resource {number}"),
        }
    }

    fn write_made<W: fmt::Write>(
        &self,
        f: &mut fmt::Formatter<W>,
        made: MadeFunc<'a>,
    ) -> fmt::Result {
        let (words, number) = match made {
            MadeFunc::Lowered { import, item, .. } => {
                f.write_str("lowered import ")?;
                return self.write_import(f, import, item);
            }
            MadeFunc::Making(number) => ("resource.new of ", number),
            MadeFunc::Dropping(number) => ("resource.drop of ", number),
            MadeFunc::Reading(number) => ("resource.rep of ", number),
        };
        f.write_str(words)?;
        self.write_resource(f, number)
    }
}

impl fmt::Display for Described<'_, '_, '_> {
    fn fmt<W: fmt::Write>(&self, f: &mut fmt::Formatter<W>) -> fmt::Result {
        match self.func {
            CoreFuncEntry::Guest(export) => {
                let name = Escaped(export.name);
                let instance = export.instance;
                write!(f, "export \"{name}\" of core instance {instance}")?;
                self.functions.write_uses(f, self.index)
            }
            CoreFuncEntry::Made(made) => self.functions.write_made(f, made),
        }
    }
}
