//! What declarations use.

ghost use Rattle.std.specs.Prelude.{◌≡◌, ◌++◌, IfOk, OnOk, length, map, vec_len};
ghost use Rattle.std.specs.List.{filter_map};
ghost use Rattle.cm_names.specs.Listed.{listed};
ghost use Rattle.cm_wit_graph.specs.Orders.{needs_of};
ghost use Rattle.cm_wit_tables.specs.Declarations.{keys_of, refers, uses};
ghost use Rattle.cm_wit_tables.specs.DeclaredViews.{declaration_view};
ghost use Rattle.cm_wit_tables.specs.Leading.{found, named, uses_by};
ghost use Rattle.cm_wit_tables.specs.Names.{texts};

use crate::names::names_in_def;
use crate::{Declaration, Declared};
use cm_names::Keys;
use std::alloc::{AllocError, Global};

/// Adds the places to which names of a list lead.
#[tactic(auto, using(crate::proofs::RowLaws::target_laws))]
fn add_targets(
    out: &mut Vec<usize>,
    keys: &Keys<'_>,
    list: usize,
    names: &[&str],
) -> Result<(), AllocError>
    ensures { OnOk result (out.new.items
        ≡ out.old.items ++ filter_map (found (listed keys.now)) (named list (texts names.now))) }
{
    for name in names {
        if let Some(place) = keys.find(list, name) {
            out.push(place)?;
        }
    }
    Ok(())
}

/// The places to which the names in the text of a declaration lead.
fn row(
    alloc: Global,
    keys: &Keys<'_>,
    declaration: &Declaration<'_>,
) -> Result<Vec<usize>, AllocError>
    ensures { IfOk result (λ v.
        v.items ≡ uses_by (listed keys.now) (declaration_view declaration.now)) }
{
    let mut out = Vec::new(alloc);
    match declaration.is {
        Declared::Brought(None) => {}
        Declared::Brought(Some((list, name))) => add_targets(&mut out, keys, list, &[name])?,
        Declared::Defined(def) => {
            let names = names_in_def(alloc, def)?;
            add_targets(&mut out, keys, declaration.in_list, &names.all)?;
        }
    }
    Ok(out)
}

/// For each declaration those that it uses, as the names in its text lead to them, in reading
/// order: one look-up a name. Refused only where there is no memory.
#[tactic(auto, using(crate::proofs::MapLaws::map_laws))]
pub fn use_rows(
    alloc: Global,
    keys: &Keys<'_>,
    declarations: &[Declaration<'_>],
) -> Result<Vec<Vec<usize>>, AllocError>
    requires { listed keys.now ≡ keys_of (map declaration_view declarations.now) }
    ensures len { IfOk result (λ v. vec_len v ≡ length declarations.now) }
    ensures uses { IfOk result (λ v.
        needs_of v.items ≡ uses (map declaration_view declarations.now)) }
{
    let mut rows = Vec::new(alloc);
    for declaration in declarations {
        rows.push(row(alloc, keys, declaration)?)?;
    }
    Ok(rows)
}
