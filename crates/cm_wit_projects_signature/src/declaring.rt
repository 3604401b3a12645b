//! What the scopes of a world declare.

use crate::lists::{List, Lists};
use cm_wit_projects_names::{Entry, Scope, What, alias_of, put};
use cm_wit_projects_reading::{Kept, TypeItem};
use cm_wit_reading::{TypeDef, Use};
use cm_wit_tables::{Declaration, Declared};
use std::alloc::{AllocError, Global};

/// Adds the types that a use gives, from a list.
fn add_used<'a>(
    out: &mut Vec<Declaration<'a>>,
    list: usize,
    from: Option<usize>,
    used: &'a Use,
) -> Result<(), AllocError> {
    for name in &used.names {
        let given = match &name.new_name {
            Some(new_name) => new_name,
            None => &name.name,
        };
        let key = match from {
            Some(from) => Some((from, name.name.as_str())),
            None => None,
        };
        let declaration = Declaration {
            in_list: list,
            name: given.as_str(),
            is: Declared::Brought(key),
        };
        put(out, declaration)?;
    }
    Ok(())
}

/// What a type is declared to be: where it is another name, what that stands for. A resource is
/// `resource`, whose functions are no part of the type.
fn declared<'a>(list: usize, item: &'a TypeItem, resource: &'a TypeDef) -> Option<Declared<'a>> {
    match (alias_of(item), item) {
        (Some(name), _) => Some(Declared::Brought(Some((list, name)))),
        (None, TypeItem::Def(Kept::Read(def))) => Some(Declared::Defined(def)),
        (None, TypeItem::Def(Kept::LeftOut(_))) => None,
        (None, TypeItem::Resource(_)) => Some(Declared::Defined(resource)),
    }
}

/// Adds what an item declares.
fn add_entry<'a>(
    out: &mut Vec<Declaration<'a>>,
    lists: &Lists,
    list: usize,
    exported: bool,
    entry: &Entry<'a>,
    resource: &'a TypeDef,
) -> Result<(), AllocError> {
    match (entry.what, entry.target) {
        (What::Use(used), Some(target)) => {
            add_used(out, list, lists.used(target, exported), used)
        }
        (What::Type(name, item), _) => match declared(list, item, resource) {
            Some(is) => put(
                out,
                Declaration {
                    in_list: list,
                    name: name.as_str(),
                    is,
                },
            ),
            None => Ok(()),
        },
        _ => Ok(()),
    }
}

/// Adds what a list's scope declares.
fn add_list<'a>(
    out: &mut Vec<Declaration<'a>>,
    lists: &Lists,
    number: usize,
    list: List,
    scope: &Scope<'a>,
    resource: &'a TypeDef,
) -> Result<(), AllocError> {
    for entry in &scope.entries {
        if entry.there {
            add_entry(out, lists, number, list.exported, entry, resource)?;
        }
    }
    Ok(())
}

/// The types that the scopes of lists declare, where gates let them be there, in order. Each
/// resource is declared to be `resource`. Refused only where there is no memory.
pub fn declarations_of<'a>(
    alloc: Global,
    scopes: &[Scope<'a>],
    lists: &Lists,
    resource: &'a TypeDef,
) -> Result<Vec<Declaration<'a>>, AllocError> {
    let mut out = Vec::new(alloc);
    for (number, list) in lists.all.iter().enumerate() {
        if let Some(scope) = scopes.get(list.scope) {
            add_list(&mut out, lists, number, *list, scope, resource)?;
        }
    }
    Ok(out)
}
