//! Making the table of a world's declarations.

ghost use Rattle.std.specs.Prelude.{◌≡◌, ◌<◌, ◌↔◌, ℕ, Some, IfOk, IfErr, MatchOption, length, map};
ghost use Rattle.std.specs.Prelude.{slice_get};
ghost use Rattle.cm_names.specs.Listed.{listed};
ghost use Rattle.cm_wit_graph.specs.Orders.{IsOrder};
ghost use Rattle.cm_types.specs.Limits.{IsWithinLimits};
ghost use Rattle.cm_types_arena.specs.Places.{funcs_of, types_of};
ghost use Rattle.cm_wit_meanings.specs.Places.{ArePlaced, Extends, table_in};
ghost use Rattle.cm_wit_meanings.specs.Scopes as meant;
ghost use Rattle.cm_wit_meanings.specs.Scopes.{as_type};
ghost use Rattle.cm_wit_tables.specs.Declarations.{HasTypeCycle, keys_of, uses};
ghost use Rattle.cm_wit_tables.specs.Tables.{IsWhole, Solves};
ghost use Rattle.cm_wit_tables.specs.TypeFaults.{AllHaveTypes};
ghost use Rattle.cm_wit_tables.specs.DeclaredViews.{declaration_view};
ghost use Rattle.cm_wit_tables.specs.Filled.{AreWithin};
ghost use Rattle.cm_wit_tables.specs.FillFaults.{IsFillFault};
ghost use Rattle.cm_wit_tables.specs.TableFaults.{IsTableFault};

use crate::declared_laws::{each_stands_where_names_lead, what_is_used_is_declared};
use crate::fault::{TableFault, table_fault};
use crate::laws::{ordered_ones_can_be_ranked, ranked_ones_are_acyclic};
use crate::table::Table;
use crate::{Declaration, Listing, all_lead, declaration_keys, fill, resource_ids, use_rows};
use cm_names::Keys;
use cm_types_arena::Types;
use cm_wit_graph::order_of;
use cm_wit_meanings::{Meaning, MeaningFault};
use std::alloc::{AllocError, Global};

/// The declarations in an order in which each stands behind those that it uses: there is none where
/// one uses itself.
fn declaration_order(
    alloc: Global,
    names: &Keys<'_>,
    declarations: &[Declaration<'_>],
) -> Result<Option<Vec<usize>>, AllocError>
    requires { listed names.now ≡ keys_of (map declaration_view declarations.now) }
    ensures { IfOk result (λ order. MatchOption order
        (HasTypeCycle (map declaration_view declarations.now))
        (λ v. IsOrder (length (map declaration_view declarations.now))
        (uses (map declaration_view declarations.now)) v.items)) }
{
    what_is_used_is_declared();
    order_of(alloc, &use_rows(alloc, names, declarations)?)
}

/// What each declaration stands for, where they stand in an order, each behind those that it uses.
fn filled<'a>(
    alloc: Global,
    types: &mut Types,
    names: &Keys<'a>,
    declarations: &[Declaration<'a>],
    order: &[usize],
) -> Result<Vec<Option<Meaning>>, MeaningFault>
    requires names { listed names.now ≡ keys_of (map declaration_view declarations.now) }
    requires order { IsOrder (length (map declaration_view declarations.now))
        (uses (map declaration_view declarations.now)) order.now }
    requires types { AllHaveTypes (map declaration_view declarations.now) }
    ensures solves { IfOk result (λ v. Solves (map declaration_view declarations.now)
        (table_in (types_of types.new) v.items)) }
    ensures placed { IfOk result (λ v. ArePlaced (length (types_of types.new)) v.items) }
    ensures within { IfOk result (λ v. AreWithin (types_of types.new) v.items) }
    ensures fault { IfErr result (IsFillFault (map declaration_view declarations.now)) }
    ensures grown { Extends (types_of types.old) (types_of types.new) }
    ensures funcs { funcs_of types.new ≡ funcs_of types.old }
{
    let resources = resource_ids(alloc, declarations)?;
    let listing = Listing {
        declarations,
        names,
        resources: &resources,
    };
    fill(alloc, types, &listing, order)
}

/// The table of what the declarations of a world stand for (WIT.md, "Item: `use`" and "Item:
/// `type`"); the types in it are added, each definition once, and shared by those that use it.
///
/// `NoSuchType` comes where a name in the text of a declaration leads to no type, or that of a
/// borrow to no resource; else `Cycle` where a declaration uses itself, by way of others or not;
/// else `TooLarge` where a type would have more than 10,000 nodes or be more than 64 deep, or
/// `NotSpellable` where no file could spell one; and `Memory` where there is no memory. Then types
/// may have been added; earlier types stay as they are. It takes time linear in the texts.
pub fn table_of<'a>(
    alloc: Global,
    types: &mut Types,
    declarations: &[Declaration<'a>],
) -> Result<Table<'a>, TableFault>
    ensures names { IfOk result (λ t.
        listed t.names ≡ keys_of (map declaration_view declarations.now)) }
    ensures solves { IfOk result (λ t. Solves (map declaration_view declarations.now)
        (table_in (types_of types.new) t.meanings.items)) }
    ensures whole { IfOk result (λ t. IsWhole (map declaration_view declarations.now)
        (table_in (types_of types.new) t.meanings.items)) }
    ensures within { IfOk result (λ t. (k : ℕ) (m : meant.Meaning)
        → slice_get (table_in (types_of types.new) t.meanings.items) k ≡ Some (Some m)
        → IsWithinLimits (as_type m)) }
    ensures placed { IfOk result (λ t. ArePlaced (length (types_of types.new)) t.meanings.items) }
    ensures acyclic { IfOk result (λ _.
        HasTypeCycle (map declaration_view declarations.now) → ⊥) }
    ensures fault { IfErr result (IsTableFault (map declaration_view declarations.now)) }
    ensures grown { Extends (types_of types.old) (types_of types.new) }
    ensures funcs { funcs_of types.new ≡ funcs_of types.old }
{
    ordered_ones_can_be_ranked();
    ranked_ones_are_acyclic();
    each_stands_where_names_lead();
    let names = declaration_keys(alloc, declarations)?;
    if !all_lead(alloc, &names, declarations)? {
        return Err(TableFault::NoSuchType);
    }
    let Some(order) = declaration_order(alloc, &names, declarations)? else {
        return Err(TableFault::Cycle);
    };
    match filled(alloc, types, &names, declarations, &order) {
        Ok(meanings) => Ok(Table { names, meanings }),
        Err(fault) => Err(table_fault(fault)),
    }
}
