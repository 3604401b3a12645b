//! How the resources of a type are counted where it stands.

ghost use Rattle.std.specs.Prelude.{◌≡◌};
ghost use Rattle.cm_tool_show.specs.Counted.{counted};

use cm_types::ResourceId;
use cm_types_arena::{Move, moved_resource};

/// How the resources of a type are counted: as its place moves them, and then as the import or
/// export that brings it does.
#[derive(Clone, Copy)]
pub struct Counting {
    pub place: Option<Move>,
    pub brought: Option<Move>,
}

impl Counting {
    /// Counts resources as the place of a type moves them, and then as the import or export that
    /// brings it does.
    pub fn new(place: Option<Move>, brought: Option<Move>) -> Counting
        ensures place { result.place ≡ place }
        ensures brought { result.brought ≡ brought }
    {
        Counting { place, brought }
    }

    /// The resource that one is counted as.
    pub fn resource(self, id: ResourceId) -> ResourceId
        ensures { result ≡ counted self id }
    {
        moved_resource(self.brought, moved_resource(self.place, id))
    }
}
