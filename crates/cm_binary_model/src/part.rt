//! What the parts of a file have in common, so that several of them are measured at once.

ghost use Rattle.std.specs.Prelude.{◌≡◌, length, map, true};
ghost use Rattle.std.specs.List.{flat_map, list_all};
ghost use Rattle.cm_binary_grammar.specs.Spelling.{vec_spelling};
ghost use Rattle.cm_binary_model.specs.Measures.{saturate};

use cm_leb::formats::spelled_length;

/// A part of a file: its tree, the shortest spelling of that, and what every such tree holds.
///
/// It stands apart from [`Form`](cm_binary_grammar::Form), which reads a part, since the limit of a
/// file's bytes is kept here, below the decoder.
pub trait Part {
    ghost use Rattle.std.specs.Prelude.{ℕ, List, Bool};

    // The part as a tree.
    ghost Tree: { Type 0 };

    ghost tree: { Self → Tree };

    ghost spelling: { Tree → List ℕ };

    // What the tree holds.
    ghost holds: { Tree → Bool };

    /// The length of the shortest spelling in bytes, or `u64::MAX` where it is more.
    fn length(&self) -> u64
        ensures length { result ≡ saturate (length (spelling (tree self.now))) }
        ensures holds { holds (tree self.now) ≡ true };
}

/// The length of parts behind one another.
pub(crate) fn length_of_all<T: Part>(parts: &[T]) -> u64
    ensures length { result ≡ saturate (length (flat_map T.spelling (map T.tree parts.now))) }
    ensures holds { list_all T.holds (map T.tree parts.now) ≡ true }
{
    let mut total: u64 = 0;
    for part in parts {
        total = total.saturating_add(part.length());
    }
    total
}

/// The length of parts behind their count.
pub(crate) fn length_of_vec<T: Part>(parts: &[T]) -> u64
    ensures length { result ≡ saturate (length (vec_spelling T.spelling (map T.tree parts.now))) }
    ensures holds { list_all T.holds (map T.tree parts.now) ≡ true }
{
    (spelled_length(parts.len() as u64) as u64).saturating_add(length_of_all(parts))
}
