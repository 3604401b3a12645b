//! The index of an item that nothing before it has.

use crate::counts::{Counts, Sort, core_sort, export_sort, inline_sort};
use crate::escaped::Escaped;
use cm_binary_model::{
    Alias, Canon, CanonOption, CoreInlineExport, CoreInstance, CoreInstantiationArg, Export,
    ExternDesc, Import, Instance, Section,
};
use std::alloc::{AllocError, Global};

/// An item of a component: its section and its place there.
#[derive(Clone, Copy)]
pub(crate) struct Place<'a> {
    pub sections: &'a [Section],
    pub section: usize,
    pub item: usize,
}

/// An index that an item names.
type Named = Option<(Sort, u32)>;

impl Counts {
    /// The index, where nothing has it.
    fn missing(self, sort: Sort, index: u32) -> Named {
        if index as usize >= self.of(sort) {
            Some((sort, index))
        } else {
            None
        }
    }

    fn missing_in_core_instance(self, instance: &CoreInstance) -> Named {
        match instance {
            CoreInstance::Instantiate { module, args } => self
                .missing(Sort::CoreModule, *module)
                .or(self.missing_in_args(args)),
            CoreInstance::Exports(exports) => self.missing_in_core_exports(exports),
        }
    }

    fn missing_in_args(self, args: &[CoreInstantiationArg]) -> Named {
        for arg in args {
            let found = self.missing(Sort::CoreInstance, arg.instance);
            if found.is_some() {
                return found;
            }
        }
        None
    }

    fn missing_in_core_exports(self, exports: &[CoreInlineExport]) -> Named {
        for export in exports {
            let found = self.missing(core_sort(export.sort), export.index);
            if found.is_some() {
                return found;
            }
        }
        None
    }

    fn missing_in_instance(self, instance: &Instance) -> Named {
        for export in &instance.exports {
            let found = self.missing(inline_sort(export.sort), export.index);
            if found.is_some() {
                return found;
            }
        }
        None
    }

    fn missing_in_options(self, options: &[CanonOption]) -> Named {
        for option in options {
            let found = match option {
                CanonOption::Memory(index) => self.missing(Sort::CoreMemory, *index),
                CanonOption::Realloc(index) | CanonOption::PostReturn(index) => {
                    self.missing(Sort::CoreFunc, *index)
                }
                _ => None,
            };
            if found.is_some() {
                return found;
            }
        }
        None
    }

    fn missing_in_canon(self, canon: &Canon) -> Named {
        match canon {
            Canon::Lift {
                core_func,
                options,
                ty,
            } => self
                .missing(Sort::CoreFunc, *core_func)
                .or(self.missing_in_options(options))
                .or(self.missing(Sort::Type, *ty)),
            Canon::Lower { func, options } => self
                .missing(Sort::Func, *func)
                .or(self.missing_in_options(options)),
            Canon::ResourceNew { resource }
            | Canon::ResourceDrop { resource }
            | Canon::ResourceRep { resource } => self.missing(Sort::Type, *resource),
        }
    }

    fn missing_in_alias(self, alias: &Alias) -> Named {
        match alias {
            Alias::InstanceExport { instance, .. } => self.missing(Sort::Instance, *instance),
            Alias::CoreInstanceExport { instance, .. } => {
                self.missing(Sort::CoreInstance, *instance)
            }
            Alias::OuterType(outer) => self.missing(Sort::Type, outer.index),
        }
    }

    fn missing_in_import(self, import: &Import) -> Named {
        match import.desc {
            ExternDesc::Func(ty) | ExternDesc::Instance(ty) => self.missing(Sort::Type, ty),
        }
    }

    fn missing_in_export(self, export: &Export) -> Named {
        self.missing(export_sort(export.sort), export.index)
    }
}

impl<'a> Place<'a> {
    /// The first index that the item names and nothing before it has; none where it is of a type.
    fn missing_index(self, counts: Counts) -> Named {
        let item = self.item;
        match self.sections.get(self.section)? {
            Section::CoreInstances(items) => counts.missing_in_core_instance(items.get(item)?),
            Section::Instances(items) => counts.missing_in_instance(items.get(item)?),
            Section::Aliases(items) => counts.missing_in_alias(items.get(item)?),
            Section::Canons(items) => counts.missing_in_canon(items.get(item)?),
            Section::Imports(items) => counts.missing_in_import(items.get(item)?),
            Section::Exports(items) => counts.missing_in_export(items.get(item)?),
            Section::Custom(_) | Section::CoreModule(_) | Section::Types(_) => None,
        }
    }

    /// The name under which the item takes what an instance exports.
    fn aliased_name(self) -> Option<&'a str> {
        let Section::Aliases(items) = self.sections.get(self.section)? else {
            return None;
        };
        match items.get(self.item)? {
            Alias::InstanceExport { name, .. } => Some(name.as_str()),
            Alias::CoreInstanceExport { name, .. } => Some(name.as_str()),
            Alias::OuterType(_) => None,
        }
    }
}

/// Which index, of which sort, nothing before an item has, and how many there are; or the name that
/// an instance does not export.
pub(crate) fn index_help(alloc: Global, place: Place<'_>) -> Result<String, AllocError> {
    let counts = Counts::before(place.sections, place.section, place.item);
    match place.missing_index(counts) {
        Some((sort, index)) => missing_text(alloc, sort.name(), index, counts.of(sort)),
        None => match place.aliased_name() {
            Some(name) => format!(in alloc; ": the instance exports no \"{}\"", Escaped(name)),
            None => types_text(alloc, place, counts.of(Sort::Type)),
        },
    }
}

/// Of an item of a section of types, how many types stand before it.
fn types_text(alloc: Global, place: Place<'_>, count: usize) -> Result<String, AllocError> {
    match place.sections.get(place.section) {
        Some(Section::Types(_)) => { format!(in alloc; ": {count} types stand before the item") }
        _ => Ok(String::new(alloc)),
    }
}

fn missing_text(alloc: Global, name: &str, index: u32, count: usize) -> Result<String, AllocError> {
    if count == 0 {
        format!(in alloc; ": found {name} {index}, and no {name} stands before the item")
    } else {
        format!(in alloc; ": found {name} {index}, expected a number below {count}")
    }
}
