//! Two components of a set.

ghost use Rattle.std.specs.Prelude.{◌<◌, length};
ghost use Rattle.cm_match_serving.specs.Linkings.{components_in};

use crate::Linking;
use cm_types::ResourceId;
use cm_types_arena::Replacement;

/// A component of a set, by its place.
#[derive(Clone, Copy)]
pub(crate) struct Side<'s, 'a> {
    pub(crate) linking: Linking<'s, 'a>,
    pub(crate) component: usize,
    ghost there: { component < length (components_in linking) },
}

/// For each resource of a component stands what it is in the end.
impl<'s, 'a> Replacement for Side<'s, 'a> {
    ghost use Rattle.cm_match_serving.specs.Sides.{standing_of};

    ghost replacement = { standing_of };

    fn replace(&self, id: ResourceId) -> ResourceId {
        let resource = ResourceId {
            component: self.component as u32,
            number: id.number,
        };
        match self.linking.origin(resource) {
            Some(origin) => origin,
            None => id,
        }
    }
}

/// A component that imports, and one before it that exports, by their places.
#[derive(Clone, Copy)]
pub(crate) struct Pair<'s, 'a> {
    pub(crate) linking: Linking<'s, 'a>,
    pub(crate) importer: usize,
    pub(crate) provider: usize,
    ghost importer_there: { importer < length (components_in linking) },
    ghost provider_there: { provider < length (components_in linking) },
}

impl<'s, 'a> Pair<'s, 'a> {
    ghost use Rattle.std.specs.Prelude.{◌≡◌};

    /// The one that imports.
    pub(crate) fn importer(&self) -> Side<'s, 'a>
        ensures linking { result.linking ≡ self.now.linking }
        ensures component { result.component ≡ self.now.importer }
    {
        Side {
            linking: self.linking,
            component: self.importer,
        }
    }

    /// The one that exports.
    pub(crate) fn provider(&self) -> Side<'s, 'a>
        ensures linking { result.linking ≡ self.now.linking }
        ensures component { result.component ≡ self.now.provider }
    {
        Side {
            linking: self.linking,
            component: self.provider,
        }
    }
}
