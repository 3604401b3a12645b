//! The worlds of texts.

ghost use Rattle.std.specs.Prelude.{IfErr, IfOk};
ghost use Rattle.cm_types.specs.Signatures.{SignatureTy};
ghost use Rattle.cm_types_arena.specs.Signatures.{signature_of};
ghost use Rattle.cm_tool_files.specs.Conforming.{HasWorld, IsUnfit};

use crate::unfit::UnfitReason;
use cm_types_arena::Signature;
use cm_wit_package::parse;
use cm_wit_signature::world_signature;
use std::alloc::Global;

/// The signature of the world of a full name (`namespace:package/world`, with `@version` where the
/// package has one), of the package that a text is (WIT.md, "Worlds").
///
/// The reason is the first fault of the text (`Wit`), else that of its world (`World`); want of
/// memory is a fault of both.
pub fn world_of(alloc: Global, text: &str, name: &str) -> Result<Signature, UnfitReason>
    ensures world { IfOk result (λ s. HasWorld text.now name.now (signature_of s)) }
    ensures fault { (have : SignatureTy) → IfErr result (IsUnfit text.now name.now have) }
{
    let packages = [parse(alloc, text)?];
    Ok(world_signature(alloc, &packages, name)?)
}
