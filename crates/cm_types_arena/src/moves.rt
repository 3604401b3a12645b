//! Resources that are counted from another number on.

ghost use Rattle.std.specs.Prelude.{◌≡◌, ◌+◌, ◌<◌, ◌^◌, IfNone, IfSome};
ghost use Rattle.cm_types_arena.specs.Moves.{moved};

use crate::replacement::Replacement;
use cm_types::ResourceId;

/// The resources that the type of an instance brings, as an import of such an instance counts them:
/// from the component's next number on (Explainer.md, "Import and Export Definitions").
///
/// They are `count` resources, which the type counts from the number `first` on and the import from
/// `next` on; another resource is not moved. A type need not be copied to be moved: its place in an
/// arena with the move says what it is. Its labels and what is known of it are those of the type at
/// the place, and only where its own nodes are asked for is it copied.
#[derive(Clone, Copy, PartialEq, Eq, PartialOrd, Ord)]
pub struct Move {
    first: u64,
    count: u64,
    next: u64,
    ghost fits: { next + count < 2 ^ 64 },
}

impl Move {
    /// The move of so many resources from the number `first` on to the number `next` on; none where
    /// the number behind the last of them is not below 2^64.
    pub fn new(first: u64, count: u64, next: u64) -> Option<Move>
        ensures made { IfSome result (λ m. m.first ≡ first × m.count ≡ count × m.next ≡ next) }
        ensures refused { IfNone result (¬ (next + count < 2 ^ 64)) }
    {
        next.checked_add(count)?;
        Some(Move { first, count, next })
    }
}

impl Replacement for Move {
    ghost replacement = { λ m. moved m.first m.count m.next };

    fn replace(&self, id: ResourceId) -> ResourceId {
        if id.number < self.first || id.number - self.first >= self.count {
            return id;
        }
        ResourceId {
            component: id.component,
            number: id.number - self.first + self.next,
        }
    }
}
