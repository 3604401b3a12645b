//! The types that interfaces and worlds have by name.

use crate::adding::put;
use crate::entry::{Entry, Scope, What};
use crate::graphs::{first_on_cycle, is_marked, leading_to};
use crate::mention::Role;
use crate::mentions::mentions_of;
use cm_names::Keys;
use cm_wit_projects_reading::{Kept, TypeItem};
use cm_wit_reading::{TypeDef, Use, WitType};
use std::alloc::{AllocError, Global};

/// What a name of a type is.
#[derive(Clone, Copy)]
pub enum TypeIs<'a> {
    /// A type that is used, of this name in the scope of this number.
    Used(usize, &'a str),
    /// What is declared so.
    Declared(&'a TypeItem),
}

/// A name of a type: its scope, and the item that gives it, by its place there.
#[derive(Clone, Copy)]
pub struct TypeRow<'a> {
    pub scope: usize,
    pub entry: usize,
    pub name: &'a str,
    pub there: bool,
    pub is: TypeIs<'a>,
}

/// The names of types, and what finds them by their scope.
#[derive(Drop)]
pub struct TypeRows<'a> {
    pub rows: Vec<TypeRow<'a>>,
    keys: Keys<'a>,
}

/// The names of types, with what is known of each.
#[derive(Drop)]
pub struct KnownTypes<'a> {
    pub rows: TypeRows<'a>,
    /// Whether it is a resource.
    resources: Vec<bool>,
    /// Whether it is, or holds, a borrow.
    borrows: Vec<bool>,
    /// Whether gates take it away, or that which it uses.
    gone: Vec<bool>,
}

/// The name that is given by a type that is declared to be what another name stands for.
pub fn alias_of(item: &TypeItem) -> Option<&str> {
    match item {
        TypeItem::Def(Kept::Read(TypeDef::Alias(WitType::Named(name)))) => Some(name.as_str()),
        _ => None,
    }
}

/// Adds the names of types that a use gives.
fn add_used<'a>(
    out: &mut Vec<TypeRow<'a>>,
    bare: TypeRow<'a>,
    target: usize,
    used: &'a Use,
) -> Result<(), AllocError> {
    for name in &used.names {
        let is = TypeIs::Used(target, name.name.as_str());
        let given = match &name.new_name {
            Some(new_name) => new_name.as_str(),
            None => name.name.as_str(),
        };
        put(
            out,
            TypeRow {
                name: given,
                is,
                ..bare
            },
        )?;
    }
    Ok(())
}

/// Adds the names of types that an item gives.
fn add_entry<'a>(
    out: &mut Vec<TypeRow<'a>>,
    scope: usize,
    place: usize,
    entry: &Entry<'a>,
) -> Result<(), AllocError> {
    let there = entry.there;
    let is = TypeIs::Used(0, "");
    let bare = TypeRow {
        scope,
        entry: place,
        name: "",
        there,
        is,
    };
    match (entry.what, entry.target) {
        (What::Use(used), Some(target)) => add_used(out, bare, target, used),
        (What::Type(name, item), _) => {
            put(
                out,
                TypeRow {
                    name: name.as_str(),
                    is: TypeIs::Declared(item),
                    ..bare
                },
            )
        }
        _ => Ok(()),
    }
}

/// Adds the names of types of a scope.
fn add_scope<'a>(
    out: &mut Vec<TypeRow<'a>>,
    number: usize,
    scope: &Scope<'a>,
) -> Result<(), AllocError> {
    for (place, entry) in scope.entries.iter().enumerate() {
        add_entry(out, number, place, entry)?;
    }
    Ok(())
}

/// The scope and the name of each type.
fn keys_of<'a>(alloc: Global, rows: &[TypeRow<'a>]) -> Result<Vec<(usize, &'a str)>, AllocError> {
    let mut keys = Vec::new(alloc);
    for row in rows {
        put(&mut keys, (row.scope, row.name))?;
    }
    Ok(keys)
}

/// Adds the edges to types that an item names.
fn add_named(
    alloc: Global,
    out: &mut Vec<(usize, usize)>,
    keys: &Keys<'_>,
    from: usize,
    scope: usize,
    entry: &Entry<'_>,
) -> Result<(), AllocError> {
    for mention in &mentions_of(alloc, entry)? {
        if mention.role == Role::Named {
            if let Some(to) = keys.find(scope, mention.name) {
                put(out, (from, to))?;
            }
        }
    }
    Ok(())
}

/// Whether an item names the resource of a borrow.
fn names_borrow(alloc: Global, entry: &Entry<'_>) -> Result<bool, AllocError> {
    for mention in &mentions_of(alloc, entry)? {
        if mention.role == Role::Borrowed {
            return Ok(true);
        }
    }
    Ok(false)
}

/// An item of a scope, by its place there.
fn entry_at<'s, 'a>(scopes: &'s [Scope<'a>], scope: usize, place: usize) -> Option<&'s Entry<'a>> {
    match scopes.get(scope) {
        Some(scope) => scope.entries.get(place),
        None => None,
    }
}

impl<'a> TypeRow<'a> {
    /// The scope and the name of the type that this one is by another name, if it is one.
    fn same(&self) -> Option<(usize, &'a str)> {
        match self.is {
            TypeIs::Used(scope, name) => Some((scope, name)),
            TypeIs::Declared(item) => match alias_of(item) {
                Some(name) => Some((self.scope, name)),
                None => None,
            },
        }
    }

    fn is_resource(&self) -> bool {
        matches!(self.is, TypeIs::Declared(TypeItem::Resource(_)))
    }

    /// The item that declares the type; a type that is used has none.
    fn own_entry<'s>(&self, scopes: &'s [Scope<'a>]) -> Option<&'s Entry<'a>> {
        match self.is {
            TypeIs::Used(..) => None,
            TypeIs::Declared(_) => entry_at(scopes, self.scope, self.entry),
        }
    }
}

impl<'a> TypeRows<'a> {
    /// The names of types of scopes. Refused only where there is no memory.
    fn new(alloc: Global, scopes: &[Scope<'a>]) -> Result<TypeRows<'a>, AllocError> {
        let mut rows = Vec::new(alloc);
        for (number, scope) in scopes.iter().enumerate() {
            add_scope(&mut rows, number, scope)?;
        }
        let keys = Keys::new(alloc, keys_of(alloc, &rows)?)?;
        Ok(TypeRows { rows, keys })
    }

    /// The place of a type by its scope and its name, if it is there.
    pub fn find(&self, scope: usize, name: &str) -> Option<usize> {
        self.keys.find(scope, name)
    }

    /// The edges from types to those which they are by other names.
    fn same_edges(&self, alloc: Global) -> Result<Vec<(usize, usize)>, AllocError> {
        let mut edges = Vec::new(alloc);
        for (from, row) in self.rows.iter().enumerate() {
            if let Some((scope, name)) = row.same() {
                if let Some(to) = self.find(scope, name) {
                    put(&mut edges, (from, to))?;
                }
            }
        }
        Ok(edges)
    }

    /// The edges from types to those which they are by other names, or name.
    fn all_edges(
        &self,
        alloc: Global,
        scopes: &[Scope<'a>],
    ) -> Result<Vec<(usize, usize)>, AllocError> {
        let mut edges = self.same_edges(alloc)?;
        for (from, row) in self.rows.iter().enumerate() {
            if let Some(entry) = row.own_entry(scopes) {
                add_named(alloc, &mut edges, &self.keys, from, row.scope, entry)?;
            }
        }
        Ok(edges)
    }

    /// The types that are declared to be resources.
    fn resources(&self, alloc: Global) -> Result<Vec<usize>, AllocError> {
        let mut out = Vec::new(alloc);
        for (place, row) in self.rows.iter().enumerate() {
            if row.is_resource() {
                put(&mut out, place)?;
            }
        }
        Ok(out)
    }

    /// The types that gates take away.
    fn gone(&self, alloc: Global) -> Result<Vec<usize>, AllocError> {
        let mut out = Vec::new(alloc);
        for (place, row) in self.rows.iter().enumerate() {
            if !row.there {
                put(&mut out, place)?;
            }
        }
        Ok(out)
    }

    /// The types in the text of which a borrow stands.
    fn borrows(&self, alloc: Global, scopes: &[Scope<'a>]) -> Result<Vec<usize>, AllocError> {
        let mut out = Vec::new(alloc);
        for (place, row) in self.rows.iter().enumerate() {
            if let Some(entry) = row.own_entry(scopes) {
                if names_borrow(alloc, entry)? {
                    put(&mut out, place)?;
                }
            }
        }
        Ok(out)
    }
}

impl<'a> KnownTypes<'a> {
    /// The names of types of scopes. Refused only where there is no memory.
    pub fn new(alloc: Global, scopes: &[Scope<'a>]) -> Result<KnownTypes<'a>, AllocError> {
        let rows = TypeRows::new(alloc, scopes)?;
        let count = rows.rows.len();
        let same = rows.same_edges(alloc)?;
        let all = rows.all_edges(alloc, scopes)?;
        let resources = leading_to(alloc, count, &same, &rows.resources(alloc)?)?;
        let borrows = leading_to(alloc, count, &all, &rows.borrows(alloc, scopes)?)?;
        let gone = leading_to(alloc, count, &same, &rows.gone(alloc)?)?;
        Ok(KnownTypes {
            rows,
            resources,
            borrows,
            gone,
        })
    }

    /// Whether a type is a resource.
    pub fn is_resource(&self, place: usize) -> bool {
        is_marked(&self.resources, place)
    }

    /// Whether a type is, or holds, a borrow.
    pub fn holds_borrow(&self, place: usize) -> bool {
        is_marked(&self.borrows, place)
    }

    /// Whether a type is there, and that which it uses.
    pub fn is_there(&self, place: usize) -> bool {
        !is_marked(&self.gone, place)
    }

    /// The first type that leads to itself, if there is one. Refused only where there is no memory.
    pub fn first_on_cycle(
        &self,
        alloc: Global,
        scopes: &[Scope<'a>],
    ) -> Result<Option<usize>, AllocError> {
        let edges = self.rows.all_edges(alloc, scopes)?;
        first_on_cycle(alloc, self.rows.rows.len(), &edges)
    }
}
