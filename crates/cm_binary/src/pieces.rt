//! Files whose pieces are all at hand.

ghost use Rattle.std.specs.Prelude.{◌≡◌, IfOk};
ghost use Rattle.std.specs.List.{flat_map};
ghost use Rattle.cm_binary.specs.Pieces.{Decodes};

use crate::decode;
use cm_binary_forms::{DecodeFault, DecodeReason};
use cm_binary_model::Component;
use std::alloc::{AllocError, Global};

/// Reads a component file that lies in pieces, one after another, however they are cut: what
/// `decode` answers for the pieces joined. It takes time and memory as their bytes do.
pub fn decode_pieces(alloc: Global, pieces: &[&[u8]]) -> Result<Component, DecodeFault>
    ensures { Decodes (flat_map (λ piece. piece.now) pieces.now) result }
{
    match join(alloc, pieces) {
        Ok(file) => decode(alloc, &file),
        Err(AllocError) => Err(DecodeFault {
            at: 0,
            reason: DecodeReason::Memory,
        }),
    }
}

/// The pieces in one.
fn join(alloc: Global, pieces: &[&[u8]]) -> Result<Vec<u8>, AllocError>
    ensures { IfOk result (λ file. file.items ≡ flat_map (λ piece. piece.now) pieces.now) }
{
    let mut file = Vec::new(alloc);
    for piece in pieces {
        file.extend_from_slice(piece)?;
    }
    Ok(file)
}
