//! The memory of a component, and how many pages it begins with.

use crate::sections::sections_of;
use cm_binary_model::{Alias, Canon, CanonOption, Component, CoreInstance, CoreSort, Section};
use cm_leb::read_u32;
use std::alloc::{AllocError, Global};

/// The section of a core module that declares memories.
const MEMORIES: u8 = 5;

/// The least flags of limits that are none of a memory with 32-bit addresses: bit 0 says that a
/// most is given, bit 1 that the memory is shared (the core specification, "Limits").
const WIDE_LIMITS: u8 = 4;

/// How many pages the first memory that a core module declares begins with, if it declares one
/// (the core specification, "Memory Section").
fn declared_pages(alloc: Global, module: &[u8]) -> Result<Option<u32>, AllocError> {
    for section in sections_of(alloc, module)? {
        if section.number == MEMORIES {
            return Ok(first_pages(section.contents.of(module)));
        }
    }
    Ok(None)
}

/// How many pages the first memory of a memory section begins with.
fn first_pages(contents: &[u8]) -> Option<u32> {
    let (count, flags_at) = read_u32(contents, 0).ok()?;
    let flags = *contents.get(flags_at)?;
    if count == 0 || flags >= WIDE_LIMITS {
        return None;
    }
    let (pages, _) = read_u32(contents, flags_at.checked_add(1)?).ok()?;
    Some(pages)
}

fn memory_in(options: &[CanonOption]) -> Option<u32> {
    options.iter().find_map(|option| match option {
        CanonOption::Memory(index) => Some(*index),
        _ => None,
    })
}

fn memory_of_canon(canon: &Canon) -> Option<u32> {
    match canon {
        Canon::Lift { options, .. } | Canon::Lower { options, .. } => memory_in(options),
        _ => None,
    }
}

/// The core memory that the options of the component's lifts and lowers name, by its index: the
/// first that one names.
pub fn memory_of(component: &Component) -> Option<u32> {
    component
        .sections()
        .iter()
        .find_map(|section| match section {
            Section::Canons(canons) => canons.iter().find_map(memory_of_canon),
            _ => None,
        })
}

/// The core instance that exports the core memory of this index.
fn exporter(component: &Component, memory: u32) -> Option<u32> {
    let mut before = 0;
    for section in component.sections() {
        let Section::Aliases(aliases) = section else {
            continue;
        };
        for alias in aliases {
            if let Alias::CoreInstanceExport {
                sort: CoreSort::Memory,
                instance,
                ..
            } = alias
            {
                if before == memory {
                    return Some(*instance);
                }
                before = before.saturating_add(1);
            }
        }
    }
    None
}

/// The core module of which the core instance of this index is an instance.
fn module_of(component: &Component, instance: u32) -> Option<u32> {
    let mut before = 0;
    for section in component.sections() {
        let Section::CoreInstances(instances) = section else {
            continue;
        };
        match instances.get((instance as usize).checked_sub(before)?) {
            Some(CoreInstance::Instantiate { module, .. }) => return Some(*module),
            Some(CoreInstance::Exports(_)) => return None,
            None => before = before.saturating_add(instances.len()),
        }
    }
    None
}

fn modules(component: &Component, alloc: Global) -> Result<Vec<&[u8]>, AllocError> {
    let mut modules = Vec::new(alloc);
    for section in component.sections() {
        if let Section::CoreModule(bytes) = section {
            modules.push(bytes.as_slice())?;
        }
    }
    Ok(modules)
}

/// The core module that exports the memory of the component's options.
fn memory_module(component: &Component) -> Option<u32> {
    module_of(component, exporter(component, memory_of(component)?)?)
}

/// How many pages the component's memory begins with: what the core module that exports it
/// declares, or else the first core module that declares a memory; none where none does.
pub fn pages_of(alloc: Global, component: &Component) -> Result<u32, AllocError> {
    let modules = modules(component, alloc)?;
    if let Some(number) = memory_module(component) {
        if let Some(module) = modules.get(number as usize) {
            if let Some(pages) = declared_pages(alloc, module)? {
                return Ok(pages);
            }
        }
    }
    for module in modules {
        if let Some(pages) = declared_pages(alloc, module)? {
            return Ok(pages);
        }
    }
    Ok(0)
}
