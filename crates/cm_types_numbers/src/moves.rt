//! How the resources of a type are moved.

use cm_types::ResourceId;
use cm_types_arena::{Move, Placed, Replacement, moved_resource};

/// A type, or the type of a function, that an item of an instance brings: by its place, and as the
/// import or export counts the resources in it.
#[derive(Clone, Copy)]
pub struct Brought {
    pub ty: Placed,
    pub by: Option<Move>,
}

/// How the resources of a type are moved: at its place, and from there by the import or export.
#[derive(Clone, Copy, PartialEq, Eq, PartialOrd, Ord)]
pub(crate) struct Moves {
    inner: Option<Move>,
    outer: Option<Move>,
}

/// The type of a function at a place, its resources moved.
#[derive(Clone, Copy, PartialEq, Eq, PartialOrd, Ord)]
pub(crate) struct MovedFunc {
    pub(crate) moves: Moves,
    pub(crate) place: usize,
}

impl Brought {
    ghost use Rattle.std.specs.Prelude.{◌≡◌};
    ghost use Rattle.cm_types_numbers.specs.Moved.{moves_of};

    /// How its resources are moved.
    pub(crate) fn moves(self) -> Moves
        ensures { result ≡ moves_of self }
    {
        Moves {
            inner: self.ty.by,
            outer: self.by,
        }
    }
}

/// What stands for resources once they are moved.
#[derive(Clone, Copy)]
pub(crate) struct Through<'a, R> {
    pub(crate) replacement: &'a R,
    pub(crate) moves: Moves,
}

impl<'a, R: Replacement> Replacement for Through<'a, R> {
    ghost use Rattle.cm_types_numbers.specs.Moved.{moved_through};

    ghost replacement = { λ t r. R.replacement t.replacement.now (moved_through t.moves r) };

    fn replace(&self, id: ResourceId) -> ResourceId {
        let moved = moved_resource(self.moves.outer, moved_resource(self.moves.inner, id));
        self.replacement.replace(moved)
    }
}
