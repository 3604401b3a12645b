//! Signatures of valid components.

ghost use Rattle.std.specs.Prelude.{◌≡◌, IfOk};
ghost use Rattle.cm_types_arena.specs.Signatures.{signature_of};
ghost use Rattle.cm_validate_spaces.specs.Checked.{spaces_in};
ghost use Rattle.cm_validate.specs.Exports.{signature_in};

use crate::externs::exported_externs;
use crate::numbers::{export_numbers, import_numbers};
use cm_types_arena::{Externs, NumberedExterns, Signature};
use cm_validate_items::Shared;
use cm_validate_spaces::{Checked, ComponentExterns};
use std::alloc::{AllocError, Global};

/// What a valid component imports and exports, in the order of its file (Explainer.md, "Import and
/// Export Definitions"). The component is taken over: its arena and its imports are not copied.
/// `AllocError` comes where there is no memory.
///
/// The items of an instance are made once, however many exports are that instance: these share
/// them, and have one number. Imports that are instances of one type have one number too: so what
/// is made of the names of their items is made once.
pub fn signature(alloc: Global, checked: Checked<'_>) -> Result<Signature, AllocError>
    ensures { IfOk result (λ s. signature_of s ≡ signature_in (spaces_in checked.entry)) }
{
    let shared = Shared::new(alloc, checked.component())?;
    let ComponentExterns {
        types,
        imports,
        exports,
    } = checked.into_externs();
    let exports = exported_externs(alloc, &shared, &exports)?;
    let imported = import_numbers(alloc, &shared, imports.len())?;
    let exported = export_numbers(alloc, &shared, exports.len())?;
    Ok(Signature::new(
        types,
        Externs::OfComponent(NumberedExterns::new(imports, imported)),
        Externs::OfComponent(NumberedExterns::new(exports, exported)),
    ))
}
