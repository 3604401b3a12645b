//! Rows on the signatures of worlds.

use crate::conforming::write_answer;
use crate::shown::write_shown;
use crate::worlds::write_world_fault;
use cm_rows::Line;
use cm_wit_package::Package;
use cm_wit_signature::world_signature;
use std::alloc::Global;

/// Writes the lines that show the signature of the world of a full name, each behind `|`; or the
/// fault.
pub fn answer(alloc: Global, packages: &[Package], name: &str, line: &mut Line) {
    match world_signature(alloc, packages, name) {
        Ok(signature) => write_shown(alloc, &signature, usize::MAX, line),
        Err(fault) => write_world_fault(line, fault),
    }
}

/// Writes whether the signature of one world, given by its full name, fits another world.
pub fn compare(alloc: Global, packages: &[Package], have: &str, world: &str, line: &mut Line) {
    let have = match world_signature(alloc, packages, have) {
        Ok(signature) => signature,
        Err(fault) => return write_world_fault(line, fault),
    };
    match world_signature(alloc, packages, world) {
        Ok(world) => write_answer(alloc, &have, &world, line),
        Err(fault) => write_world_fault(line, fault),
    }
}
