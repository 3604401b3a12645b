//! Signatures of worlds whose names stand for types in an arena.

ghost use Rattle.std.specs.Prelude.{◌≡◌, ◌<◌, ◌^◌, ℕ, Some, IfOk, IfErr, length};
ghost use Rattle.cm_types_arena.specs.Places.{types_of};
ghost use Rattle.cm_types_arena.specs.Signatures.{signature_of};
ghost use Rattle.cm_wit_meanings.specs.Places.{ArePlaced};
ghost use Rattle.cm_wit_signature.specs.ItemFaults.{AreWithin, IsFaultWith};
ghost use Rattle.cm_wit_signature.specs.Functions.{funcs_in};
ghost use Rattle.cm_wit_signature.specs.Own.{AreOwn};
ghost use Rattle.cm_wit_signature.specs.Signatures.{externs_from, with_exports};
ghost use Rattle.cm_wit_signature.specs.PackageFronts.{HavePackages};
ghost use Rattle.cm_wit_signature.specs.PartViews.{files_in, interfaces_in, scopes_in, world_in};

use crate::externs::push_externs;
use crate::item_laws::{items_stay, tables_stay};
use crate::parts::Parts;
use cm_types_arena::{Externs, Signature, Types};
use cm_wit_meanings::MeaningFault;
use std::alloc::Global;

/// The signature of a world that imports and exports what these numbers stand for, in order, where
/// names stand for types of this arena. The names of the first import that is an instance are those
/// of the list 0, and those of the first such export of the list `first`.
///
/// Faults come as those of `push_externs`.
pub fn signature_with(
    alloc: Global,
    types: Types,
    parts: &Parts<'_, '_>,
    into: &[usize],
    first: usize,
    out: &[usize],
) -> Result<Signature, MeaningFault>
    requires placed { ArePlaced (length (types_of types)) parts.now.table.now }
    requires own { (l : ℕ) → AreOwn (scopes_in (types_of types) parts.now l) }
    requires packages { HavePackages (files_in parts.now) (interfaces_in parts.now) }
    requires first { first < 2 ^ 63 }
    ensures signature { IfOk result (λ s. with_exports
        (externs_from (interfaces_in parts.now) (world_in parts.now)
        (scopes_in (types_of types) parts.now) parts.now.own 0 into.now)
        (externs_from (interfaces_in parts.now) (world_in parts.now)
        (scopes_in (types_of types) parts.now) parts.now.own first out.now)
        ≡ Some (signature_of s)) }
    ensures within { IfOk result (λ s. AreWithin (funcs_in (signature_of s))) }
    ensures fault { IfErr result (IsFaultWith funcs_in (with_exports
        (externs_from (interfaces_in parts.now) (world_in parts.now)
        (scopes_in (types_of types) parts.now) parts.now.own 0 into.now)
        (externs_from (interfaces_in parts.now) (world_in parts.now)
        (scopes_in (types_of types) parts.now) parts.now.own first out.now))) }
{
    items_stay();
    tables_stay();
    let mut types = types;
    let imports = push_externs(alloc, &mut types, parts, 0, into)?;
    let exports = push_externs(alloc, &mut types, parts, first, out)?;
    Ok(Signature::new(types, Externs::OfWorld(imports), Externs::OfWorld(exports)))
}
