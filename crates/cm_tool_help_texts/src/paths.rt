//! The paths of a text that have the form of those into other packages.

use cm_wit_reading::{FileItem, Interface, InterfaceItem, Path, World, WorldExtern, WorldItem};
use std::alloc::AllocError;
use std::fmt::Write;

/// The first path of these items that names a package.
pub(crate) fn foreign_in(items: &[FileItem]) -> Option<&Path> {
    for item in items {
        let found = match item {
            FileItem::Interface(interface) => foreign_in_interface(interface),
            FileItem::World(world) => foreign_in_world(world),
        };
        if found.is_some() {
            return found;
        }
    }
    None
}

fn foreign_in_interface(interface: &Interface) -> Option<&Path> {
    for item in &interface.items {
        if let InterfaceItem::Use(used) = item {
            if is_foreign(&used.path) {
                return Some(&used.path);
            }
        }
    }
    None
}

fn foreign_in_world(world: &World) -> Option<&Path> {
    for item in &world.items {
        if let WorldItem::Import(WorldExtern::Interface(path))
        | WorldItem::Export(WorldExtern::Interface(path)) = item
        {
            if is_foreign(path) {
                return Some(path);
            }
        }
    }
    None
}

fn is_foreign(path: &Path) -> bool {
    matches!(path, Path::Foreign { .. })
}

/// Writes a path as a text has it.
pub(crate) fn write_path(out: &mut String, path: &Path) -> Result<(), AllocError> {
    match path {
        Path::Local(name) => out.push_str(name.as_str()),
        Path::Foreign {
            namespace,
            package,
            interface,
            version,
        } => {
            let (namespace, package) = (namespace.as_str(), package.as_str());
            write!(out, "{namespace}:{package}/{}", interface.as_str())?;
            if let Some(version) = version {
                write!(out, "@{}", version.as_str())?;
            }
            Ok(())
        }
    }
}
