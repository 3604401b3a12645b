//! Where names of one listing stand in another.

ghost use Rattle.std.specs.Prelude.{◌≡◌, ℕ, List, None, IfOk, map, slice_index_or, unwrap_or};
ghost use Rattle.std.specs.Option.{option_and_then};
ghost use Rattle.cm_names.specs.Keys.{first_key, key_view};
ghost use Rattle.cm_names.specs.Listed.{listed};
ghost use Rattle.cm_wit_conforms.specs.PartViews.{front_view};
ghost use Rattle.cm_wit_conforms.specs.Numbers.{front_number};
ghost use Rattle.cm_wit_conforms.specs.Listings.{AreNames};
ghost use Rattle.cm_wit_conforms.specs.Places.{back_key, found_by, place_in};

use crate::fronts::Fronts;
use crate::listing::ListedNames;
use crate::parts::{FrontParts, NameParts};
use cm_names::Keys;
use cm_types::laws::names_show_their_forms;
use std::alloc::{AllocError, Global};

/// The numbers that tables have for fronts.
#[tactic(auto, using(crate::proofs::MapLaws::plain_laws))]
fn numbers_of(
    alloc: Global,
    table: &Fronts<'_>,
    fronts: &[FrontParts<'_>],
) -> Result<Vec<Option<usize>>, AllocError>
    ensures { IfOk result (λ v.
        v.items ≡ map (λ f. front_number table.now (front_view f)) fronts.now) }
{
    let mut numbers = Vec::with_capacity(alloc, fronts.len())?;
    for front in fronts {
        numbers.push(table.number(*front))?;
    }
    Ok(numbers)
}

/// The number of the front at a place, if it has one.
fn number_at(numbers: &[Option<usize>], front: usize) -> Option<usize>
    ensures { result ≡ slice_index_or numbers.now front None }
{
    match numbers.get(front) {
        Some(number) => *number,
        None => None,
    }
}

/// What a name is found by.
fn back_key<'a>(numbers: &[Option<usize>], name: NameParts<'a>) -> (usize, &'a str)
    ensures { key_view result ≡ back_key numbers.now name.entry }
{
    (number_at(numbers, name.front).unwrap_or(0), name.back)
}

/// What names are found by.
#[tactic(auto, using(crate::proofs::MapLaws::map_laws))]
fn back_keys<'a>(
    alloc: Global,
    numbers: &[Option<usize>],
    names: &[NameParts<'a>],
) -> Result<Vec<(usize, &'a str)>, AllocError>
    ensures { IfOk result (λ v. map key_view v.items ≡ map (back_key numbers.now) names.now) }
{
    let mut keys = Vec::with_capacity(alloc, names.len())?;
    for name in names {
        keys.push(back_key(numbers, *name))?;
    }
    Ok(keys)
}

/// Where a name stands among those of these keys.
fn found_by(numbers: &[Option<usize>], keys: &Keys<'_>, name: NameParts<'_>) -> Option<usize>
    ensures { result ≡ found_by numbers.now (listed keys.now) name.entry }
{
    match number_at(numbers, name.front) {
        Some(number) => keys.find(number, name.back),
        None => None,
    }
}

/// Where names stand among those of these keys.
#[tactic(auto, using(crate::proofs::MapLaws::plain_laws))]
fn all_found(
    alloc: Global,
    numbers: &[Option<usize>],
    keys: &Keys<'_>,
    names: &[NameParts<'_>],
) -> Result<Vec<Option<usize>>, AllocError>
    ensures { IfOk result (λ v.
        v.items ≡ map (found_by numbers.now (listed keys.now)) names.now) }
{
    let mut places = Vec::with_capacity(alloc, names.len())?;
    for name in names {
        places.push(found_by(numbers, keys, *name))?;
    }
    Ok(places)
}

/// Tables in which names are found by their parts.
#[derive(Drop)]
pub(crate) struct NameTable<'a> {
    fronts: Fronts<'a>,
    keys: Keys<'a>,
}

impl<'a> NameTable<'a> {
    ghost use Rattle.cm_wit_conforms.specs.Tables.{HasNames};

    /// A table of the names of a listing. It takes time linear in the texts that the listing holds,
    /// with a search for each name and each front. Refused only where there is no memory.
    pub(crate) fn new(alloc: Global, names: &ListedNames<'a>) -> Result<NameTable<'a>, AllocError>
        ensures { IfOk result (λ t. (texts : List (List ℕ)) → AreNames names.now texts
            → HasNames texts t) }
    {
        let fronts = Fronts::new(alloc, &names.fronts)?;
        let numbers = numbers_of(alloc, &fronts, &names.fronts)?;
        let keys = Keys::new(alloc, back_keys(alloc, &numbers, &names.names)?)?;
        Ok(NameTable { fronts, keys })
    }

    /// For each name of a listing the place of the first name of the table that is equal, if one
    /// is. It takes time linear in the texts that the listing holds, with a search for each name
    /// and each front. Refused only where there is no memory.
    pub(crate) fn places(
        &self,
        alloc: Global,
        names: &ListedNames<'_>,
    ) -> Result<Vec<Option<usize>>, AllocError>
        ensures { IfOk result (λ v. (texts theirs : List (List ℕ)) → AreNames names.now texts
            → HasNames theirs self.now → v.items ≡ map (place_in theirs) texts) }
    {
        names_show_their_forms();
        let wanted = numbers_of(alloc, &self.fronts, &names.fronts)?;
        all_found(alloc, &wanted, &self.keys, &names.names)
    }
}
