//! Whether a component fits a world.

ghost use Rattle.std.specs.Prelude.{IfErr, OnOk};
ghost use Rattle.cm_validate.specs.cm_validate_spaces.Checked.{spaces_in};
ghost use Rattle.cm_validate.specs.Exports.{signature_in};
ghost use Rattle.cm_tool_files.specs.Conforming.{ConformsTo, IsUnfit};

use crate::unfit::UnfitReason;
use crate::worlds::world_of;
use cm_validate::{Checked, signature};
use cm_wit_conforms::conforms;
use std::alloc::Global;

/// Whether what a component imports and exports fits the world of a full name of the package that a
/// text is (`world_of`, `cm_wit_conforms::conforms`).
///
/// The reason is the first fault of the text (`Wit`), else that of its world (`World`), else that
/// of the component's signature against the world's (`Signature`); `Memory`, there or by itself,
/// where memory is refused.
pub fn conform_component(
    alloc: Global,
    text: &str,
    world: &str,
    component: Checked<'_>,
) -> Result<(), UnfitReason>
    ensures ok { OnOk result
        (ConformsTo text.now world.now (signature_in (spaces_in component.entry))) }
    ensures unfit { IfErr result
        (IsUnfit text.now world.now (signature_in (spaces_in component.entry))) }
{
    let world = world_of(alloc, text, world)?;
    let have = signature(alloc, component)?;
    Ok(conforms(alloc, &have, &world)?)
}
