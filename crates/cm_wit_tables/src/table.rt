//! The table of what declarations stand for.

ghost use Rattle.std.specs.Prelude.{◌≡◌};

use cm_names::Keys;
use cm_wit_meanings::{Meaning, Scope};

/// What the declarations of a world stand for.
#[derive(Drop)]
pub struct Table<'a> {
    /// The keys of the declarations, in order.
    pub names: Keys<'a>,
    /// For each declaration what it stands for.
    pub meanings: Vec<Option<Meaning>>,
}

impl<'a> Table<'a> {
    /// What the names of the list of this number stand for: of several of one name the first
    /// counts.
    pub fn scope(&self, list: usize) -> Scope<'_, 'a>
        ensures names { result.names.now ≡ self.now.names }
        ensures table { result.table.now ≡ self.now.meanings.items }
        ensures list { result.list ≡ list }
    {
        Scope {
            names: &self.names,
            table: &self.meanings,
            list,
        }
    }
}
