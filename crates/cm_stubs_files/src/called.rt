//! What a caller calls, as a signature.

ghost use Rattle.std.specs.Prelude.{◌≡◌, IfOk, true};
ghost use Rattle.cm_stubs_files.specs.Called.{called};
ghost use Rattle.cm_types_arena.specs.Externs.{are_externs_in, externs_in};
ghost use Rattle.cm_types_arena.specs.Signatures.{signature_of};

use cm_types_arena::{Extern, Externs, NumberedExterns, Signature, Types};
use std::alloc::{AllocError, Global};

/// These imports, whose places are of this arena, as what they call: the last ones, so many, are
/// exports, and those before stay imports.
#[tactic(auto, using(crate::proofs::CalledLaws::called_is, crate::proofs::CalledLaws::first_there, crate::proofs::CalledLaws::last_there))]
pub(crate) fn called_of(
    alloc: Global,
    types: Types,
    imports: Vec<Extern>,
    count: usize,
) -> Result<Signature, AllocError>
    requires { are_externs_in types imports.items ≡ true }
    ensures { IfOk result (λ s.
        signature_of s ≡ called count (externs_in types imports.items)) }
{
    let mut brought = imports;
    let first = brought.len().saturating_sub(count);
    let called = brought.split_off(first)?;
    let brought = Externs::OfComponent(NumberedExterns::unnumbered(alloc, brought));
    let called = Externs::OfComponent(NumberedExterns::unnumbered(alloc, called));
    Ok(Signature::new(types, brought, called))
}
