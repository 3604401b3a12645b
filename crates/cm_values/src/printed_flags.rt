//! Flags.

ghost use Rattle.std.specs.Prelude.{◌≡◌, ◌==◌, codes};
ghost use Rattle.std.specs.Int.{bit_at};
ghost use Rattle.cm_values.specs.Spelling.{in_marks, set_labels, with_commas};
ghost use Rattle.cm_values.specs.Written.{Writes};

use crate::putting::{put, put_comma, put_name};
use cm_types::Label;
use std::alloc::AllocError;

/// Whether the bit at a place, from 0, is 1.
#[tactic(auto, using(crate::proofs::BitLaws::bit_laws))]
fn is_set(bits: u32, place: usize) -> bool
    ensures { result ≡ (bit_at bits place == 1) }
{
    place < 32 && (bits >> place) & 1 == 1
}

/// Adds the labels that are set, with commas between them.
#[tactic(auto, using(crate::proofs::ListLaws::list_laws))]
fn put_set_labels(out: &mut String, labels: &[Label], bits: u32) -> Result<(), AllocError>
    ensures { Writes (with_commas (set_labels 0 labels.now bits)) out.old out.new result }
{
    let mut written = 0;
    for (place, label) in labels.iter().enumerate() {
        if is_set(bits, place) {
            put_comma(out, written)?;
            put_name(out, label.as_str())?;
            written += 1;
        }
    }
    Ok(())
}

/// Adds flags.
pub fn put_flags(out: &mut String, labels: &[Label], bits: u32) -> Result<(), AllocError>
    ensures { Writes (in_marks (codes "{") (codes "}") (with_commas (set_labels 0 labels.now bits)))
        out.old out.new result }
{
    put(out, "{")?;
    put_set_labels(out, labels, bits)?;
    put(out, "}")
}
