//! Words of one's own for some values.

ghost use Rattle.std.specs.Prelude.{◌≡◌, ◌++◌, ℕ, IfOk, IsTrue, List};
ghost use Rattle.std.specs.Option.{option_map};
ghost use Rattle.std.specs.String.{string_bytes};
ghost use Rattle.cm_types.specs.TypeTrees.{type_of};
ghost use Rattle.cm_types.specs.ValueTrees.{value_of};
ghost use Rattle.cm_values.specs.Spelling.{Words, no_words};
ghost use Rattle.cm_values.specs.Written.{front};

use cm_types::{TypeNode, Value};
use std::alloc::AllocError;

/// Which values have words of their own, in the place of those of the notation.
pub trait Worded {
    /// The words of a value of a type, if it has some of its own.
    ghost words: { Self → Words };

    /// The words of a value of a type, if it has some of its own. `AllocError` comes where there is
    /// no memory for them.
    fn word(&self, value: &Value, ty: &TypeNode) -> Result<Option<String>, AllocError>
        ensures { IfOk result (λ text. option_map string_bytes text
            ≡ words self.now (type_of ty.now) (value_of value.now)) };
}

/// No value has words of its own.
#[derive(Clone, Copy)]
pub struct Plain;

impl Worded for Plain {
    ghost words = { λ _. no_words };

    fn word(&self, _value: &Value, _ty: &TypeNode) -> Result<Option<String>, AllocError> {
        Ok(None)
    }
}

/// How values are printed: some with words of their own, and how many bytes of the text are looked
/// at, all of them where no number is said.
#[derive(Clone, Copy)]
pub struct Style<W> {
    pub worded: W,
    pub room: Option<usize>,
}

impl<W> Style<W> {
    /// Whether nothing that is put behind a text is looked at.
    #[tactic(auto, using(crate::proofs::FrontLaws::front_laws))]
    pub(crate) fn is_full(&self, out: &String) -> bool
        ensures { IsTrue result → (more : List ℕ) → front self.now.room (string_bytes out.now)
            ≡ front self.now.room (string_bytes out.now ++ more) }
    {
        match self.room {
            Some(room) => room <= out.len(),
            None => false,
        }
    }
}
