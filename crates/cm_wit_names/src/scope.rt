//! Interfaces, worlds and resources, given by the numbers of their names.

ghost use Rattle.std.specs.Prelude.{◌≡◌, ◌^◌, ◌<◌, length};
ghost use Rattle.cm_wit_names.specs.Mentions.{exports_of, list_of};

use crate::mention::Mention;

/// An interface, a world or a resource, given by the number of its name.
#[derive(Clone, Copy)]
pub struct Scope {
    pub number: usize,
    ghost small: { number < 2 ^ 63 },
}

impl Scope {
    /// The interface, world or resource whose name is the next one.
    pub fn next(mentions: &Vec<Mention<'_>>) -> Scope
        ensures { result.number ≡ length mentions.now.items }
    {
        Scope {
            number: mentions.len(),
        }
    }

    /// The number of the list of an interface's items, a resource's functions or a world's imports.
    pub fn list(self) -> usize
        ensures { result ≡ list_of self.number }
    {
        2 * self.number
    }

    /// The number of the list of a world's exports.
    pub fn exports(self) -> usize
        ensures { result ≡ exports_of self.number }
    {
        2 * self.number + 1
    }
}
