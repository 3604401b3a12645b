//! The names of a file.

ghost use Rattle.std.specs.Prelude.{◌≡◌, IfOk, map};
ghost use Rattle.cm_wit_names.specs.MentionViews.{mention_view, reference_view};
ghost use Rattle.cm_wit_names.specs.Known.{known_at, target};
ghost use Rattle.cm_wit_names.specs.Table.{IsTableOf};

use crate::first_keys::FirstKeys;
use crate::known::known_names;
use crate::{Mention, Reference};
use std::alloc::{AllocError, Global};

/// What each name of a file says, and what is known by which name.
#[derive(Drop)]
pub struct Names<'a> {
    pub mentions: Vec<Mention<'a>>,
    known: FirstKeys,
    ghost table: { IsTableOf (map mention_view mentions.items) known },
}

impl<'a> Names<'a> {
    /// The names of these mentions. Refused only where there is no memory.
    pub fn new(alloc: Global, mentions: Vec<Mention<'a>>) -> Result<Names<'a>, AllocError>
        ensures { IfOk result (λ names. names.mentions.items ≡ mentions.entry.items) }
    {
        let known = known_names(alloc, &mentions)?;
        Ok(Names { mentions, known })
    }

    /// The mention that makes this number and name known first.
    pub fn known_at(&self, number: usize, name: &str) -> Option<usize>
        ensures { result ≡ known_at (map mention_view self.now.mentions.items) number name.now }
    {
        self.known.find(number, name)
    }

    /// The mention to which a reference leads, if there is one.
    pub fn target(&self, refers: Reference<'_>) -> Option<usize>
        ensures { result ≡ target (map mention_view self.now.mentions.items)
            (reference_view refers.entry) }
    {
        match refers {
            Reference::Nothing => None,
            Reference::Interface(name) => self.known_at(0, name.as_str()),
            Reference::Used { interface, name } => {
                let number = self.known_at(0, interface.as_str())?;
                self.known_at(number, name.as_str())
            }
            Reference::Type { scope, name } | Reference::Resource { scope, name } => {
                self.known_at(scope, name.as_str())
            }
        }
    }
}
