//! Whether names lead to types.

ghost use Rattle.std.specs.Prelude.{◌≡◌, ◌<◌, ◌↔◌, IfOk, IsTrue, is_some, map};
ghost use Rattle.std.specs.List.{list_all};
ghost use Rattle.cm_names.specs.Listed.{listed};
ghost use Rattle.cm_wit_tables.specs.Declarations.{keys_of};
ghost use Rattle.cm_wit_tables.specs.TypeFaults.{AllHaveTypes};
ghost use Rattle.cm_wit_tables.specs.DeclaredViews.{declaration_view};
ghost use Rattle.cm_wit_tables.specs.Leading.{found, has_types, is_marked_place};

use crate::keys::declaration_keys;
use crate::names::names_in_def;
use crate::resources::resource_marks;
use crate::{Declaration, Declared};
use cm_names::Keys;
use std::alloc::{AllocError, Global};

/// Whether each name of a list leads to a declaration.
fn are_found(keys: &Keys<'_>, list: usize, names: &[&str]) -> bool
    ensures { result
        ≡ list_all (λ n. is_some (found (listed keys.now) (list, n.now))) names.now }
{
    names.iter().all(|name| keys.find(list, name).is_some())
}

/// Whether a name of a list leads to a marked declaration.
fn is_marked(keys: &Keys<'_>, marks: &[bool], list: usize, name: &str) -> bool
    ensures { result ≡ is_marked_place marks.now (found (listed keys.now) (list, name.now)) }
{
    match keys.find(list, name) {
        Some(place) => marks.get(place).copied().unwrap_or(false),
        None => false,
    }
}

/// Whether each name of a list leads to a marked declaration.
fn are_marked(keys: &Keys<'_>, marks: &[bool], list: usize, names: &[&str]) -> bool
    ensures { result
        ≡ list_all (λ n. is_marked_place marks.now (found (listed keys.now) (list, n.now)))
        names.now }
{
    names.iter().all(|name| is_marked(keys, marks, list, name))
}

/// Whether each name in the text of a declaration leads to a declaration, and that of a borrow to a
/// marked one.
fn has_types(
    alloc: Global,
    keys: &Keys<'_>,
    marks: &[bool],
    declaration: &Declaration<'_>,
) -> Result<bool, AllocError>
    ensures { IfOk result (λ b.
        b ≡ has_types (listed keys.now) marks.now (declaration_view declaration.now)) }
{
    match declaration.is {
        Declared::Brought(None) => Ok(false),
        Declared::Brought(Some((list, name))) => Ok(keys.find(list, name).is_some()),
        Declared::Defined(def) => {
            let names = names_in_def(alloc, def)?;
            let list = declaration.in_list;
            Ok(are_found(keys, list, &names.all) && are_marked(keys, marks, list, &names.borrowed))
        }
    }
}

/// Whether each declaration has its types, where those of resources are marked.
fn each_has_types(
    alloc: Global,
    keys: &Keys<'_>,
    marks: &[bool],
    declarations: &[Declaration<'_>],
) -> Result<bool, AllocError>
    ensures { IfOk result (λ b. b ≡ list_all (has_types (listed keys.now) marks.now)
        (map declaration_view declarations.now)) }
{
    for declaration in declarations {
        if !has_types(alloc, keys, marks, declaration)? {
            return Ok(false);
        }
    }
    Ok(true)
}

/// Whether each name in the texts of declarations, whose keys are these, leads to a type, and that
/// of a borrow to a resource. It takes time linear in the texts. Refused only where there is no
/// memory.
pub fn all_lead(
    alloc: Global,
    keys: &Keys<'_>,
    declarations: &[Declaration<'_>],
) -> Result<bool, AllocError>
    requires { listed keys.now ≡ keys_of (map declaration_view declarations.now) }
    ensures { IfOk result (λ b.
        IsTrue b ↔ AllHaveTypes (map declaration_view declarations.now)) }
{
    let marks = resource_marks(alloc, keys, declarations)?;
    each_has_types(alloc, keys, &marks, declarations)
}

/// Whether each name in the texts of declarations leads to a type, and that of a borrow to a
/// resource. It takes time linear in the texts. Refused only where there is no memory.
pub fn all_have_types(alloc: Global, declarations: &[Declaration<'_>]) -> Result<bool, AllocError>
    ensures { IfOk result (λ b.
        IsTrue b ↔ AllHaveTypes (map declaration_view declarations.now)) }
{
    let keys = declaration_keys(alloc, declarations)?;
    all_lead(alloc, &keys, declarations)
}
