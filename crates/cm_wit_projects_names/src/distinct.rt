//! Names that are distinct where they have to be.

use crate::directory::Directory;
use crate::entry::{Entry, Scope, What};
use crate::fault::Spot;
use crate::mention::{Mention, Role};
use crate::mentions::mentions_of;
use crate::packages::Packages;
use cm_wit_names::FirstKeys;
use cm_wit_projects::{NamedPath, Unit, declared_in, named_in};
use cm_wit_projects_reading::{ResourceItem, TypeItem};
use cm_wit_reading::{Path, ResourceFunc};
use cm_wit_tokens::WitReason;
use indexmap::IndexSet;
use std::alloc::{AllocError, Global};

/// Names without ASCII case, by the numbers of the lists in which they have to be distinct.
#[derive(Drop)]
struct Seen {
    alloc: Global,
    names: FirstKeys,
    /// The number of the next list.
    next: usize,
}

impl Seen {
    /// The number of one more list.
    fn list(&mut self) -> usize {
        let number = self.next;
        self.next = number.saturating_add(1);
        number
    }

    /// Puts a name to the others of its list, and answers whether it was not there.
    fn is_new(&mut self, list: usize, name: &str) -> Result<bool, AllocError> {
        let mut folded = String::from_str(self.alloc, name)?;
        folded.make_ascii_lowercase();
        let is_new = self.names.note(list, folded.as_str(), 0)?;
        Ok(is_new)
    }
}

/// The lists of a scope's names: of what it has or imports, of what it exports, of the functions of
/// its last resource, and of the members of its last item.
#[derive(Clone, Copy)]
struct Lists {
    imports: usize,
    exports: usize,
    methods: usize,
    members: usize,
}

/// The list in which the name of a mention has to be distinct, if there is one.
fn list_of(lists: Lists, exported: bool, mention: Mention<'_>) -> Option<usize> {
    match mention.role {
        Role::Own | Role::Used | Role::UsedAs if mention.declares => {
            if exported {
                Some(lists.exports)
            } else {
                Some(lists.imports)
            }
        }
        Role::Method => Some(lists.methods),
        Role::Member | Role::Included => Some(lists.members),
        _ => None,
    }
}

/// Whether an item is a method, which has a first parameter `self`.
fn has_self(entry: &Entry<'_>) -> bool {
    matches!(
        entry.what,
        What::Method(_, ResourceItem::Read(ResourceFunc::Method(..)))
    )
}

fn is_resource(entry: &Entry<'_>) -> bool {
    matches!(entry.what, What::Type(_, TypeItem::Resource(_)))
}

/// The fault of a name that stands twice.
fn duplicate(unit: usize, left: usize, name: usize) -> Spot {
    Spot {
        unit,
        left,
        name: Some(name),
        reason: WitReason::Duplicate,
    }
}

/// Checks the names of an item of a scope.
fn check_mentions(
    seen: &mut Seen,
    lists: Lists,
    unit: usize,
    entry: &Entry<'_>,
) -> Result<(), Spot> {
    let mentions = mentions_of(seen.alloc, entry)?;
    for (number, mention) in mentions.iter().enumerate() {
        if let Some(list) = list_of(lists, entry.exported, *mention) {
            if !seen.is_new(list, mention.name)? {
                return Err(duplicate(unit, entry.left, number));
            }
        }
    }
    Ok(())
}

/// The lists for one more item.
fn lists_for(seen: &mut Seen, lists: Lists, entry: &Entry<'_>) -> Result<Lists, AllocError> {
    let members = seen.list();
    let methods = if is_resource(entry) {
        seen.list()
    } else {
        lists.methods
    };
    if has_self(entry) {
        let _is_new = seen.is_new(members, "self")?;
    }
    Ok(Lists {
        methods,
        members,
        ..lists
    })
}

/// The number that stands for an interface that a world imports or exports.
fn path_number(entry: &Entry<'_>) -> Option<usize> {
    match (entry.what, entry.target) {
        (What::Path(_), Some(target)) => {
            Some(
                target
                    .saturating_mul(2)
                    .saturating_add(usize::from(entry.exported)),
            )
        }
        _ => None,
    }
}

/// Checks that a world imports and exports each interface once.
fn check_path(paths: &mut IndexSet<usize>, unit: usize, entry: &Entry<'_>) -> Result<(), Spot> {
    if let Some(number) = path_number(entry) {
        let (_, is_new) = paths.insert_full(number)?;
        if !is_new {
            return Err(duplicate(unit, entry.left, 0));
        }
    }
    Ok(())
}

/// Checks the names of a scope.
fn check_scope(seen: &mut Seen, scope: &Scope<'_>) -> Result<(), Spot> {
    let mut lists = Lists {
        imports: seen.list(),
        exports: seen.list(),
        methods: 0,
        members: 0,
    };
    let mut paths = IndexSet::new(seen.alloc);
    for entry in &scope.entries {
        lists = lists_for(seen, lists, entry)?;
        check_path(&mut paths, scope.unit, entry)?;
        check_mentions(seen, lists, scope.unit, entry)?;
    }
    Ok(())
}

/// Which of the names of a use at the top it gives: the last of its path, or else the new one.
fn top_name(top: &NamedPath<'_>) -> usize {
    let (last, number, behind) = match top.path {
        Path::Local(name) => (name, 0, 1),
        Path::Foreign { interface, .. } => (interface, 2, 3),
    };
    if last.as_str() == top.name.as_str() {
        number
    } else {
        behind
    }
}

/// Checks the names that uses at the top give, each in the list that has the number of its unit.
fn check_tops(
    seen: &mut Seen,
    directory: &Directory<'_>,
    tops: &[NamedPath<'_>],
) -> Result<(), Spot> {
    for (top, place) in tops.iter().zip(&directory.places) {
        if !seen.is_new(top.unit, top.name.as_str())? {
            return Err(duplicate(top.unit, place.left, top_name(top)));
        }
    }
    Ok(())
}

/// Nothing is there yet, and the first list has this number.
fn nothing(alloc: Global, next: usize) -> Seen {
    Seen {
        alloc,
        names: FirstKeys::new(alloc),
        next,
    }
}

/// Checks that the names of the interfaces and worlds of each package are distinct, without ASCII
/// case: `Duplicate` comes at the first that stands twice. (WIT.md, "Identifiers")
pub fn check_declared(alloc: Global, units: &[Unit<'_>]) -> Result<(), Spot> {
    let packages = Packages::new(alloc, units)?;
    let declared = declared_in(alloc, units)?;
    let mut seen = nothing(alloc, packages.count());
    for one in &declared {
        let list = packages.of_unit(one.unit);
        if !seen.is_new(list, one.body.name().as_str())? {
            return Err(duplicate(one.unit, one.left, 0));
        }
    }
    Ok(())
}

/// Checks that names are distinct, without ASCII case: those that uses at the top of a unit give;
/// those of an interface, and of each side of a world; fields, cases, flags, parameters and
/// functions of a resource. `Duplicate` comes at the first name that stands twice. (WIT.md,
/// "Identifiers")
pub fn check_distinct(
    alloc: Global,
    units: &[Unit<'_>],
    directory: &Directory<'_>,
    scopes: &[Scope<'_>],
) -> Result<(), Spot> {
    let mut seen = nothing(alloc, units.len());
    let tops = named_in(alloc, units)?;
    check_tops(&mut seen, directory, &tops)?;
    for scope in scopes {
        check_scope(&mut seen, scope)?;
    }
    Ok(())
}
