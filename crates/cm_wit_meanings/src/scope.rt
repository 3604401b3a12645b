//! What names stand for.

ghost use Rattle.std.specs.Prelude.{◌≡◌, ℕ, List, IfSome};
ghost use Rattle.std.specs.Option.{option_map};
ghost use Rattle.cm_types.specs.Types.{Ty};
ghost use Rattle.cm_wit_meanings.specs.Places.{ArePlaced, IsPlaced, meaning_in, scope_in};

use cm_names::Keys;
use cm_types::ResourceId;

/// What a name stands for: a value type, by its place in an arena, or a resource.
#[derive(Clone, Copy)]
pub enum Meaning {
    Value(usize),
    Resource(ResourceId),
}

/// What the names of types stand for where a type is written: those in the list of this number.
/// Each of the names stands for what the table has at its place.
#[derive(Clone, Copy)]
pub struct Scope<'s, 'k> {
    pub names: &'s Keys<'k>,
    pub table: &'s [Option<Meaning>],
    pub list: usize,
}

impl<'s, 'k> Scope<'s, 'k> {
    /// What a name stands for, if it stands for something, by one look-up.
    #[tactic(auto, using(crate::proofs::ScopeLaws::find_laws))]
    pub fn find(&self, name: &str) -> Option<Meaning>
        ensures meaning { (types : List Ty) → option_map (meaning_in types) result
            ≡ scope_in types self.now name.now }
        ensures placed { (count : ℕ) → ArePlaced count self.now.table.now
            → IfSome result (IsPlaced count) }
    {
        let place = self.names.find(self.list, name)?;
        match self.table.get(place) {
            Some(meaning) => *meaning,
            None => None,
        }
    }
}
