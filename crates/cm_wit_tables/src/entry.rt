//! What one declaration stands for.

ghost use Rattle.std.specs.Prelude.{◌≡◌, ◌<◌, ℕ, List, IfOk, IfErr, IfSome, Some, length};
ghost use Rattle.std.specs.Option.{option_map};
ghost use Rattle.cm_names.specs.Keys.{key_view};
ghost use Rattle.cm_types.specs.Types.{Ty};
ghost use Rattle.cm_types_arena.specs.Places.{funcs_of, types_of};
ghost use Rattle.cm_wit_meanings.specs.Faults.{IsFaultIn};
ghost use Rattle.cm_wit_meanings.specs.Places.{ArePlaced, Extends, IsPlaced, meaning_in, table_in};
ghost use Rattle.cm_wit_meanings.specs.Scopes.{as_type};
ghost use Rattle.cm_wit_tables.specs.Declarations.{brought};
ghost use Rattle.cm_wit_tables.specs.Tables.{declared_meaning, scope_of};
ghost use Rattle.cm_wit_tables.specs.Filled.{AreWithin, IsWithin, entry_at};
ghost use Rattle.cm_wit_tables.specs.Listings.{IsListing, declared};

use crate::Declared;
use crate::listing::Listing;
use cm_types_arena::Types;
use cm_wit_meanings::{Meaning, MeaningFault, Scope, push_def};
use std::alloc::Global;

impl<'s, 'k> Listing<'s, 'k> {
    /// What the names of a list stand for, given what each declaration does.
    fn scope<'b>(&'b self, table: &'b [Option<Meaning>], list: usize) -> Scope<'b, 'k>
        ensures names { result.names.now ≡ self.now.names.now }
        ensures table { result.table.now ≡ table.now }
        ensures list { result.list ≡ list }
    {
        Scope {
            names: self.names,
            table,
            list,
        }
    }

    /// What a name of a list stands for, given what each declaration does.
    fn named(&self, table: &[Option<Meaning>], list: usize, name: &str) -> Option<Meaning>
        requires { IsListing self.now }
        ensures meaning { (types : List Ty) → option_map (meaning_in types) result
            ≡ scope_of (declared self.now) (table_in types table.now) list name.now }
        ensures placed { (count : ℕ) → ArePlaced count table.now
            → IfSome result (IsPlaced count) }
        ensures within { (types : List Ty) → AreWithin types table.now
            → IfSome result (IsWithin types) }
    {
        self.scope(table, list).find(name)
    }

    /// What a type stands for that is brought from elsewhere, given what each declaration does.
    fn brought(&self, table: &[Option<Meaning>], key: Option<(usize, &str)>) -> Option<Meaning>
        requires { IsListing self.now }
        ensures meaning { (types : List Ty) (k l : ℕ) → option_map (meaning_in types) result
            ≡ declared_meaning (declared self.now) (table_in types table.now) k l
            (brought (option_map key_view key.entry)) }
        ensures placed { (count : ℕ) → ArePlaced count table.now
            → IfSome result (IsPlaced count) }
        ensures within { (types : List Ty) → AreWithin types table.now
            → IfSome result (IsWithin types) }
    {
        match key {
            Some((list, name)) => self.named(table, list, name),
            None => None,
        }
    }

    /// What the declaration at a place stands for, given what each does; the types in it are added.
    ///
    /// `NoSuchType` comes where a name in it stands for no type, or that of a borrow for no
    /// resource; `TooLarge` where a type would not be within the limits; `NotSpellable` where no
    /// file could spell one; and `Memory` where there is no memory. Then some of the types in it
    /// may have been added; earlier types stay as they are.
    pub fn meaning(
        &self,
        alloc: Global,
        types: &mut Types,
        table: &[Option<Meaning>],
        place: usize,
    ) -> Result<Option<Meaning>, MeaningFault>
        requires place { place < length self.now.declarations.now }
        requires listing { IsListing self.now }
        requires placed { ArePlaced (length (types_of types.old)) table.now }
        requires within { AreWithin (types_of types.old) table.now }
        ensures meaning { IfOk result (λ m.
            entry_at (declared self.now) (table_in (types_of types.old) table.now) place
            ≡ Some (option_map (meaning_in (types_of types.new)) m)) }
        ensures placed { IfOk result (λ m. IfSome m (IsPlaced (length (types_of types.new)))) }
        ensures within { IfOk result (λ m. IfSome m (IsWithin (types_of types.new))) }
        ensures fault { IfErr result (λ f. IfSome
            (entry_at (declared self.now) (table_in (types_of types.old) table.now) place)
            (λ m. IsFaultIn as_type m f)) }
        ensures grown { Extends (types_of types.old) (types_of types.new) }
        ensures funcs { funcs_of types.new ≡ funcs_of types.old }
    {
        let declaration = self.declarations[place];
        match declaration.is {
            Declared::Brought(key) => Ok(self.brought(table, key)),
            Declared::Defined(definition) => {
                let scope = self.scope(table, declaration.in_list);
                let resource = self.resources[place];
                Ok(Some(push_def(alloc, types, &scope, resource, definition)?))
            }
        }
    }
}
