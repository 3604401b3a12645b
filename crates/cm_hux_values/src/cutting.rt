//! Texts that are cut behind so many bytes.

ghost use Rattle.std.specs.Prelude.{◌≡◌, ◌⊎◌, ◌+◌, ◌≤◌, ℕ, IfOk, None, Some, take};
ghost use Rattle.std.specs.String.{string_bytes};
ghost use Rattle.cm_types.specs.TypeTrees.{type_of};
ghost use Rattle.cm_types.specs.ValueTrees.{value_of};
ghost use Rattle.cm_values.specs.Spelling.{spelling_by};
ghost use Rattle.cm_hux_values.specs.Cut.{IsCutTo};
ghost use Rattle.cm_hux_values.specs.Naming.{words_of};

use crate::naming::Naming;
use cm_types::{TypeNode, Value};
use cm_values::{Style, print_front};
use std::alloc::{AllocError, Global};

/// What is put behind a text that was cut.
const CUT: &str = "..";

/// A text, and whether it was cut.
#[derive(Drop)]
pub struct Said {
    pub text: String,
    pub is_cut: bool,
}

/// The front of a text that has so many bytes at most and ends with a whole character.
pub fn front_of(text: &str, bytes: usize) -> &str
    ensures { (n : ℕ) × (n ≤ bytes) × (result.now ≡ take n text.now) }
{
    let end = text.floor_char_boundary(bytes);
    text.get(..end).unwrap_or("")
}

/// A text, cut behind so many bytes where it has more. `AllocError` comes where there is no memory
/// for it.
pub fn cut(alloc: Global, text: String, room: usize) -> Result<Said, AllocError>
    ensures { IfOk result (IsCutTo room (string_bytes text)) }
{
    if text.len() <= room {
        return Ok(Said {
            text,
            is_cut: false,
        });
    }
    let mut front = String::from_str(alloc, front_of(text.as_str(), room))?;
    front.push_str(CUT)?;
    Ok(Said {
        text: front,
        is_cut: true,
    })
}

/// How many bytes are looked at where there is so much room: one more shows that there are more.
fn looked_at(room: usize) -> Option<usize>
    ensures { (result ≡ Some (room + 1)) ⊎ (result ≡ None) }
{
    room.checked_add(1)
}

/// What is said of a value of a type, as a host sees it, with so much room: its text, in which
/// handles have these names, and lists of bytes that are a text are that text in quotes. It is cut
/// where it has no room; what is behind a cut costs no more than a look.
///
/// `AllocError` comes where there is no memory for the text.
#[tactic(auto, using(crate::proofs::CutLaws::said_laws))]
pub fn say(
    alloc: Global,
    value: &Value,
    ty: &TypeNode,
    names: Naming<'_>,
    room: usize,
) -> Result<Said, AllocError>
    ensures { IfOk result (IsCutTo room
        (spelling_by (words_of names.entry) (type_of ty.now) (value_of value.now))) }
{
    let style = Style {
        worded: names,
        room: looked_at(room),
    };
    let text = print_front(alloc, value, ty, &style)?;
    cut(alloc, text, room)
}
