//! The components of files that rows name.

use cm_binary::{Component, DecodeReason, decode};
use cm_rows::{Line, NamedFiles};
use std::alloc::Global;

/// The component of a source, which is to have one.
pub fn read_component(
    alloc: Global,
    files: &NamedFiles,
    source: &str,
    line: &mut Line,
) -> Option<Component> {
    let file = files.read(alloc, source, line);
    match decode(alloc, &file) {
        Ok(component) => Some(component),
        Err(fault) => {
            line.refuse_for(fault.reason == DecodeReason::Memory);
            None
        }
    }
}

/// The components of the sources, each of which is to have one.
pub fn read_components(
    alloc: Global,
    files: &NamedFiles,
    sources: &[&str],
    line: &mut Line,
) -> Vec<Component> {
    let mut components = Vec::new(alloc);
    for source in sources {
        if let Some(component) = read_component(alloc, files, source, line) {
            line.push(&mut components, component);
        }
    }
    components
}
