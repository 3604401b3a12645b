//! The table of what declarations stand for.

ghost use Rattle.std.specs.Prelude.{◌≡◌, ◌<◌, None, IfOk, IfErr, length, replicate};
ghost use Rattle.cm_wit_graph.specs.Orders.{IsOrder};
ghost use Rattle.cm_types_arena.specs.Places.{funcs_of, types_of};
ghost use Rattle.cm_wit_meanings.specs.Places.{ArePlaced, Extends, table_in};
ghost use Rattle.cm_wit_tables.specs.Declarations.{uses};
ghost use Rattle.cm_wit_tables.specs.Tables.{Solves};
ghost use Rattle.cm_wit_tables.specs.TypeFaults.{AllHaveTypes};
ghost use Rattle.cm_wit_tables.specs.Filled.{AreWithin};
ghost use Rattle.cm_wit_tables.specs.FillFaults.{IsFillFault};
ghost use Rattle.cm_wit_tables.specs.Listings.{IsListing, declared};

use crate::declared_laws::{
    each_stands_where_names_lead, one_table, what_is_used_decides, what_is_used_is_declared,
};
use crate::laws::{ordered_ones_can_be_ranked, ranked_ones_are_acyclic};
use crate::listing::Listing;
use cm_types_arena::Types;
use cm_wit_meanings::{Meaning, MeaningFault};
use std::alloc::{AllocError, Global};

/// A table of so many declarations that has nothing for each.
fn empty_table(alloc: Global, count: usize) -> Result<Vec<Option<Meaning>>, AllocError>
    ensures { IfOk result (λ v. v.items ≡ replicate count None) }
{
    let mut table = Vec::new(alloc);
    for _place in 0..count {
        table.push(None)?;
    }
    Ok(table)
}

/// What each declaration stands for, where they stand in an order, each behind those that it uses;
/// the types in them are added.
///
/// `TooLarge` comes where a type would have more than 10,000 nodes or be more than 64 deep;
/// `NotSpellable` where no file could spell one; and `Memory` where there is no memory. The first
/// in the order is answered. Then types may have been added; earlier types stay as they are. It
/// takes time linear in the texts: nothing is copied into its users.
pub fn fill(
    alloc: Global,
    types: &mut Types,
    listing: &Listing<'_, '_>,
    order: &[usize],
) -> Result<Vec<Option<Meaning>>, MeaningFault>
    requires listing { IsListing listing.now }
    requires order { IsOrder (length (declared listing.now)) (uses (declared listing.now))
        order.now }
    requires types { AllHaveTypes (declared listing.now) }
    ensures solves { IfOk result (λ v.
        Solves (declared listing.now) (table_in (types_of types.new) v.items)) }
    ensures placed { IfOk result (λ v. ArePlaced (length (types_of types.new)) v.items) }
    ensures within { IfOk result (λ v. AreWithin (types_of types.new) v.items) }
    ensures fault { IfErr result (IsFillFault (declared listing.now)) }
    ensures grown { Extends (types_of types.old) (types_of types.new) }
    ensures funcs { funcs_of types.new ≡ funcs_of types.old }
{
    ordered_ones_can_be_ranked();
    ranked_ones_are_acyclic();
    one_table();
    each_stands_where_names_lead();
    what_is_used_decides();
    what_is_used_is_declared();
    let mut table = empty_table(alloc, listing.declarations.len())?;
    for node in order {
        let place = *node;
        if place < listing.declarations.len() {
            let meaning = listing.meaning(alloc, types, &table, place)?;
            table[place] = meaning;
        }
    }
    Ok(table)
}
