//! Whether the component of a file fits a world of a text or a project.

use crate::wit_files::WitFiles;
use cm_hux_play::files::{
    Asked, Fault, Files, Loaded, Streams, ToolFault, UnfitReason, conform_help, kept, read_bytes,
    signature, signature_in,
};
use cm_types_arena::Signature;
use cm_wit_conforms::conforms;
use std::alloc::Global;

/// What the component of a file imports and exports.
pub(crate) fn signature_of(alloc: Global, loaded: &Loaded<'_>) -> Result<Signature, Fault> {
    let checked = loaded.check(alloc)?;
    Ok(signature(alloc, checked)?)
}

/// Refuses a component that does not fit the world of a text or a project, where these features are
/// wanted.
pub(crate) fn conform<F: Files, S: Streams>(
    alloc: Global,
    asked: Asked<'_>,
    features: Option<&str>,
    files: &mut F,
    streams: &mut S,
) -> Result<(), Fault> {
    let bytes = read_bytes(alloc, files, asked.file)?;
    let have = signature_in(alloc, asked.file, bytes)?;
    let texts = WitFiles::read(alloc, files, streams, asked.wit)?;
    conform_to(
        alloc,
        asked,
        &have,
        &texts.signature(alloc, asked, features)?,
    )
}

/// Refuses what does not fit a world.
fn conform_to(
    alloc: Global,
    asked: Asked<'_>,
    have: &Signature,
    world: &Signature,
) -> Result<(), Fault> {
    match conforms(alloc, have, world) {
        Ok(()) => Ok(()),
        Err(fault) => {
            let tail = kept(alloc, conform_help(alloc, have, world, fault));
            let unfit = asked.unfit(UnfitReason::from(fault));
            Err(Fault::Tool(ToolFault::unfit(alloc, unfit, tail)))
        }
    }
}
