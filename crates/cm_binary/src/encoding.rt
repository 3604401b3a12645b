//! Writing component files.

ghost use Rattle.std.specs.Prelude.{ℕ, ◌≡◌, ◌≤◌, List, length, IfOk};
ghost use Rattle.cm_binary_model.specs.Spelling.{spelling};
ghost use Rattle.cm_binary_forms.specs.File.{Spells};
ghost use Rattle.cm_binary.specs.Answers.{Accepts};

use crate::decoding::decode;
use crate::write_file;
use cm_binary_forms::{DecodeFault, DecodeReason};
use cm_binary_model::Component;
use std::alloc::{AllocError, Global};

/// Writes a component as a file (Binary.md), with the shortest spelling of each number. Of all the
/// files that spell the component none is shorter, and [`decode`](crate::decode) reads it as the
/// same component. The one error is that memory was refused.
pub fn encode(alloc: Global, component: &Component) -> Result<Vec<u8>, AllocError>
    ensures bytes { IfOk result (λ v. v.items ≡ spelling component.now) }
    ensures spelled { IfOk result (λ v. Spells component.now v.items) }
    ensures shortest { IfOk result
        (λ v. (bytes : List ℕ) → Spells component.now bytes → length v.items ≤ length bytes) }
{
    write_file(alloc, component.sections())
}

/// Writes a component as a file, and reads the file: what comes back is the component, unless
/// memory was refused.
pub fn written_and_read(alloc: Global, component: &Component) -> Result<Component, DecodeFault>
    ensures { Accepts result component.now }
{
    match encode(alloc, component) {
        Ok(file) => decode(alloc, &file),
        Err(AllocError) => Err(DecodeFault {
            at: 0,
            reason: DecodeReason::Memory,
        }),
    }
}
