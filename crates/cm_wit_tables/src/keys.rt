//! The keys of declarations.

ghost use Rattle.std.specs.Prelude.{◌≡◌, IfOk, map};
ghost use Rattle.cm_names.specs.Keys.{key_view};
ghost use Rattle.cm_names.specs.Listed.{listed};
ghost use Rattle.cm_wit_tables.specs.Declarations.{key_of, keys_of};
ghost use Rattle.cm_wit_tables.specs.DeclaredViews.{declaration_view};

use crate::Declaration;
use cm_names::Keys;
use std::alloc::{AllocError, Global};

/// The number of the list in which each declaration stands, and its name.
#[tactic(auto, using(crate::proofs::MapLaws::map_laws))]
fn key_list<'a>(
    alloc: Global,
    declarations: &[Declaration<'a>],
) -> Result<Vec<(usize, &'a str)>, AllocError>
    ensures { IfOk result (λ v.
        map key_view v.items ≡ map key_of (map declaration_view declarations.now)) }
{
    let mut keys = Vec::new(alloc);
    for declaration in declarations {
        keys.push((declaration.in_list, declaration.name))?;
    }
    Ok(keys)
}

/// What finds declarations by the number of their list and their name, each by one look-up.
/// Refused only where there is no memory.
pub fn declaration_keys<'a>(
    alloc: Global,
    declarations: &[Declaration<'a>],
) -> Result<Keys<'a>, AllocError>
    ensures { IfOk result (λ k. listed k ≡ keys_of (map declaration_view declarations.now)) }
{
    Keys::new(alloc, key_list(alloc, declarations)?)
}
