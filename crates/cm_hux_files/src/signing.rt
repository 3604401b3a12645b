//! What files import and export.

use crate::fault::Fault;
use crate::gathered::gathered;
use crate::loaded_files::LoadedFiles;
use crate::loading::{load_bytes, of_file};
use crate::open_signing::open_signature;
use crate::taking::is_bundle;
use cm_match_model::Candidate;
use cm_stubs::caller;
use cm_tool_commands::{Checked, checked_of, signature};
use cm_types_arena::{Externs, NumberedExterns, Signature};
use std::alloc::{AllocError, Global};

/// What the component of a file of this name, whose bytes these are, imports and exports. A bundle
/// has to be that of its parts, linked as its arguments say: it imports nothing, or what stands in
/// front of them, and exports what its exporter does.
pub fn signature_in(alloc: Global, name: &str, bytes: Vec<u8>) -> Result<Signature, Fault> {
    if is_bundle(alloc, &bytes)? {
        return bundle_signature(alloc, name, bytes);
    }
    let loaded = load_bytes(alloc, name, bytes)?;
    Ok(signature(alloc, loaded.check(alloc)?)?)
}

fn bundle_signature(alloc: Global, name: &str, bytes: Vec<u8>) -> Result<Signature, Fault> {
    let loaded = LoadedFiles::of_bundle(alloc, name, bytes)?;
    let arguments = loaded.inside(alloc)?;
    let Some(part) = loaded.files().get(arguments.exporter) else {
        return Err(Fault::Memory);
    };
    let Some((name, bundle)) = loaded.open_bundle(alloc)? else {
        return exports_alone(alloc, part.check(alloc)?);
    };
    let given = arguments.given_to(arguments.exporter);
    open_signature(alloc, name, &bundle.front, part, given)
}

/// The signature of a component that exports what this one does, and imports nothing: the exports
/// are the last imports of a component that stands in for a caller, behind those that it needs for
/// resources of imports.
fn exports_alone(alloc: Global, checked: Checked<'_>) -> Result<Signature, Fault> {
    let count = checked.exports().len();
    let caller = caller(alloc, &signature(alloc, checked)?)?;
    match checked_of(alloc, "", &caller) {
        Ok(checked) => Ok(last_imports(alloc, checked, count)?),
        Err(bad) => Err(of_file(alloc, bad)),
    }
}

/// The signature of a component that imports what this one does and nothing serves, and exports
/// nothing.
pub(crate) fn imports_alone(
    alloc: Global,
    checked: Checked<'_>,
    row: &[Candidate],
) -> Result<Signature, Fault> {
    let externs = checked.into_externs();
    let mut open = Vec::new(alloc);
    for (import, served) in externs.imports.into_iter().zip(row) {
        if *served == Candidate::None {
            open.push(import)?;
        }
    }
    gathered(alloc, externs.types, open, Vec::new(alloc))
}

/// The signature of a component that exports what are the last imports of this one, so many.
fn last_imports(
    alloc: Global,
    checked: Checked<'_>,
    count: usize,
) -> Result<Signature, AllocError> {
    let mut externs = checked.into_externs();
    let first = externs.imports.len().saturating_sub(count);
    let exports = externs.imports.split_off(first)?;
    Ok(Signature::new(
        externs.types,
        Externs::OfComponent(NumberedExterns::unnumbered(alloc, Vec::new(alloc))),
        Externs::OfComponent(NumberedExterns::unnumbered(alloc, exports)),
    ))
}
