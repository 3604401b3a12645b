//! How many definitions of each sort stand before an item.

use cm_binary_model::{
    Alias, Canon, CoreSort, Export, ExportSort, ExternDesc, Import, InstanceExportSort, Section,
};

/// What an index counts (Explainer.md, "Index Spaces").
#[derive(Clone, Copy, PartialEq, Eq)]
pub(crate) enum Sort {
    CoreModule,
    CoreInstance,
    CoreFunc,
    CoreTable,
    CoreMemory,
    CoreGlobal,
    Func,
    Type,
    Instance,
}

impl Sort {
    pub fn name(self) -> &'static str {
        match self {
            Sort::CoreModule => "core module",
            Sort::CoreInstance => "core instance",
            Sort::CoreFunc => "core function",
            Sort::CoreTable => "core table",
            Sort::CoreMemory => "core memory",
            Sort::CoreGlobal => "core global",
            Sort::Func => "function",
            Sort::Type => "type",
            Sort::Instance => "instance",
        }
    }
}

pub(crate) fn core_sort(sort: CoreSort) -> Sort {
    match sort {
        CoreSort::Func => Sort::CoreFunc,
        CoreSort::Table => Sort::CoreTable,
        CoreSort::Memory => Sort::CoreMemory,
        CoreSort::Global => Sort::CoreGlobal,
    }
}

pub(crate) fn inline_sort(sort: InstanceExportSort) -> Sort {
    match sort {
        InstanceExportSort::Func => Sort::Func,
        InstanceExportSort::Type => Sort::Type,
    }
}

pub(crate) fn export_sort(sort: ExportSort) -> Sort {
    match sort {
        ExportSort::Func => Sort::Func,
        ExportSort::Instance => Sort::Instance,
    }
}

fn alias_sort(alias: &Alias) -> Sort {
    match alias {
        Alias::InstanceExport { sort, .. } => inline_sort(*sort),
        Alias::CoreInstanceExport { sort, .. } => core_sort(*sort),
        Alias::OuterType(_) => Sort::Type,
    }
}

fn canon_sort(canon: &Canon) -> Sort {
    match canon {
        Canon::Lift { .. } => Sort::Func,
        _ => Sort::CoreFunc,
    }
}

fn import_sort(import: &Import) -> Sort {
    match import.desc {
        ExternDesc::Func(_) => Sort::Func,
        ExternDesc::Instance(_) => Sort::Instance,
    }
}

fn sort_of_export(export: &Export) -> Sort {
    export_sort(export.sort)
}

/// How many of the first items of a list are of a sort.
fn count_of<T, F: Fn(&T) -> Sort>(items: &[T], limit: usize, sort: Sort, of: F) -> usize
    requires { F.IsAlwaysCallable of }
{
    let mut count: usize = 0;
    for item in items.iter().take(limit) {
        if of(item) == sort {
            count = count.saturating_add(1);
        }
    }
    count
}

/// As many as a list has, at most the limit, where they are of the sort.
fn all_of(length: usize, limit: usize, are: bool) -> usize {
    if are { length.min(limit) } else { 0 }
}

/// How many of the first items of a section are of a sort.
fn count_in(section: &Section, limit: usize, sort: Sort) -> usize {
    match section {
        Section::Custom(_) => 0,
        Section::CoreModule(_) => all_of(1, limit, sort == Sort::CoreModule),
        Section::CoreInstances(items) => { all_of(items.len(), limit, sort == Sort::CoreInstance) }
        Section::Instances(items) => all_of(items.len(), limit, sort == Sort::Instance),
        Section::Types(items) => all_of(items.len(), limit, sort == Sort::Type),
        Section::Aliases(items) => count_of(items, limit, sort, alias_sort),
        Section::Canons(items) => count_of(items, limit, sort, canon_sort),
        Section::Imports(items) => count_of(items, limit, sort, import_sort),
        Section::Exports(items) => count_of(items, limit, sort, sort_of_export),
    }
}

/// How many definitions of a sort stand before an item of a section.
fn count_before(sections: &[Section], section: usize, item: usize, sort: Sort) -> usize {
    let mut count: usize = 0;
    for (n, each) in sections.iter().enumerate() {
        if n > section {
            return count;
        }
        let limit = if n < section { usize::MAX } else { item };
        count = count.saturating_add(count_in(each, limit, sort));
    }
    count
}

/// How many definitions of each sort stand before an item. They are counted once, since an item may
/// name as many indices as a file has bytes.
#[derive(Clone, Copy)]
pub(crate) struct Counts {
    core_modules: usize,
    core_instances: usize,
    core_funcs: usize,
    core_tables: usize,
    core_memories: usize,
    core_globals: usize,
    funcs: usize,
    types: usize,
    instances: usize,
}

impl Counts {
    /// What stands before an item of a section.
    pub fn before(sections: &[Section], section: usize, item: usize) -> Counts {
        let count = |sort| count_before(sections, section, item, sort);
        Counts {
            core_modules: count(Sort::CoreModule),
            core_instances: count(Sort::CoreInstance),
            core_funcs: count(Sort::CoreFunc),
            core_tables: count(Sort::CoreTable),
            core_memories: count(Sort::CoreMemory),
            core_globals: count(Sort::CoreGlobal),
            funcs: count(Sort::Func),
            types: count(Sort::Type),
            instances: count(Sort::Instance),
        }
    }

    /// How many there are of a sort.
    pub fn of(self, sort: Sort) -> usize {
        match sort {
            Sort::CoreModule => self.core_modules,
            Sort::CoreInstance => self.core_instances,
            Sort::CoreFunc => self.core_funcs,
            Sort::CoreTable => self.core_tables,
            Sort::CoreMemory => self.core_memories,
            Sort::CoreGlobal => self.core_globals,
            Sort::Func => self.funcs,
            Sort::Type => self.types,
            Sort::Instance => self.instances,
        }
    }
}
