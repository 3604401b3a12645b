//! The worlds of a text.

use crate::paths::{foreign_in, write_path};
use cm_wit_package::parse;
use cm_wit_reading::{FileItem, WitFile};
use cm_wit_worlds::WorldFault;
use std::alloc::{AllocError, Global};
use std::fmt::Write;

/// The most worlds that are named.
const MAX_WORLDS: usize = 5;

/// Where a text has no world of a name, the full names of those that it has; where a path leads to
/// no interface, the first path of the text that has the form of one into another package.
pub fn world_help(alloc: Global, text: &str, fault: WorldFault) -> Result<String, AllocError> {
    match (fault, parse(alloc, text)) {
        (WorldFault::NoSuchWorld, Ok(package)) => worlds_of(alloc, package.file()),
        (WorldFault::NoSuchInterface, Ok(package)) => path_of(alloc, package.file()),
        _ => Ok(String::new(alloc)),
    }
}

fn path_of(alloc: Global, file: &WitFile) -> Result<String, AllocError> {
    let mut out = String::new(alloc);
    if let Some(path) = foreign_in(&file.items) {
        out.push_str(": the text has the path ")?;
        write_path(&mut out, path)?;
        out.push_str(", and no text but this one is read")?;
    }
    Ok(out)
}

fn worlds_of(alloc: Global, file: &WitFile) -> Result<String, AllocError> {
    let mut out = String::new(alloc);
    let mut count: usize = 0;
    for item in &file.items {
        if let FileItem::World(world) = item {
            if count == MAX_WORLDS {
                out.push_str(", ..")?;
                return Ok(out);
            }
            out.push_str(if count == 0 { ": the text has " } else { ", " })?;
            write_world(&mut out, file, world.name.as_str())?;
            count = count.saturating_add(1);
        }
    }
    if count == 0 {
        out.push_str(": the text has no world")?;
    }
    Ok(out)
}

fn write_world(out: &mut String, file: &WitFile, name: &str) -> Result<(), AllocError> {
    let (namespace, package) = (file.namespace.as_str(), file.package.as_str());
    write!(out, "{namespace}:{package}/{name}")?;
    if let Some(version) = &file.version {
        write!(out, "@{}", version.as_str())?;
    }
    Ok(())
}
