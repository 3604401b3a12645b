//! Where the sections and items of the plain component come from in the file.

/// A place in a file: a section, from 0, custom sections and shims counted, and an item in it, from
/// 0.
#[derive(Clone, Copy, Debug, PartialEq, Eq)]
pub struct Place {
    pub section: usize,
    pub item: usize,
}

/// Where a section of the plain component comes from: a section of the file; and the items there
/// from which its items come, up to those that have their own numbers there.
#[derive(Drop)]
pub(crate) struct Source {
    pub(crate) section: usize,
    pub(crate) items: Vec<usize>,
}

/// Where the sections and items of a plain component come from.
#[derive(Drop)]
pub struct Places {
    pub(crate) sources: Vec<Source>,
}

impl Source {
    ghost use Rattle.std.specs.Prelude.{◌≡◌};
    ghost use Rattle.cm_shims_plain.specs.Origins.{origin_of, place_at};

    /// The place in the file of an item.
    fn place(&self, item: usize) -> Place
        ensures { result ≡ place_at (origin_of self.now) item }
    {
        Place {
            section: self.section,
            item: self.items.get(item).copied().unwrap_or(item),
        }
    }
}

impl Places {
    ghost use Rattle.std.specs.Prelude.{◌≡◌};
    ghost use Rattle.cm_shims_plain.specs.Origins.{origins_of, place_in};

    /// The place in the file from which an item of a section of the plain component comes, where it
    /// has such a section. A type that a shim defines comes from the instance for which it was
    /// made. It costs nothing but a look-up.
    pub fn place(&self, section: usize, item: usize) -> Option<Place>
        ensures { result ≡ place_in (origins_of self.now) section item }
    {
        Some(self.sources.get(section)?.place(item))
    }
}
