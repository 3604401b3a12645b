//! The names of worlds.

use cm_wit_projects_names::Project;
use cm_wit_projects_worlds::world_names;
use std::alloc::{AllocError, Global};

/// The full names (`namespace:package/world`, with `@version` where the package has one) of the
/// worlds of a project's own package, in order, but for those that gates take away. Refused only
/// where there is no memory.
pub fn project_worlds(alloc: Global, project: &Project<'_>) -> Result<Vec<String>, AllocError> {
    let units = project.units(alloc)?;
    match project.names(alloc, &units) {
        Ok(names) => world_names(alloc, &units, &names),
        Err(_) => Err(AllocError),
    }
}
