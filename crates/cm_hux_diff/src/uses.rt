//! Changed items that differ by others alone.

use crate::difference::{Change, Difference};
use crate::parts::{Numbers, Part, parts_of};
use std::alloc::{AllocError, Global};
use std::collections::{BTreeMap, BTreeSet};

/// The texts of an item that is changed: of what was, and of what is.
#[derive(Clone, Copy)]
struct Texts<'t> {
    was: &'t str,
    is: &'t str,
    sort: Sort,
}

/// What is changed into what.
#[derive(Clone, Copy, PartialEq, Eq)]
enum Sort {
    /// A resource, which stands for another one.
    Resource,
    /// A type into a type.
    Type,
    /// Anything else.
    Other,
}

/// The parts of such texts, and the number of the item among those that differ.
#[derive(Drop)]
struct Parts {
    was: Vec<Part>,
    is: Vec<Part>,
    place: usize,
    sort: Sort,
}

impl<'t> Texts<'t> {
    /// Those of a difference, if it is that an item is changed.
    fn of(difference: &'t Difference<'_>) -> Option<Texts<'t>> {
        let (Change::Changed { was, is }, Some(_)) = (&difference.change, difference.item) else {
            return None;
        };
        let (was, is) = (was.as_str(), is.as_str());
        let (Some(was_type), Some(is_type)) = (was.strip_prefix("type "), is.strip_prefix("type "))
        else {
            return Some(Texts {
                was,
                is,
                sort: Sort::Other,
            });
        };
        let sort = match was_type.strip_prefix("resource#") {
            Some(_) => Sort::Resource,
            None => Sort::Type,
        };
        Some(Texts {
            was: as_named(was_type),
            is: as_named(is_type),
            sort,
        })
    }
}

/// What stands for a type or a resource in other texts.
fn as_named(text: &str) -> &str {
    text.strip_prefix("resource").unwrap_or(text)
}

/// The parts of all items that are changed, in order.
fn all_parts(alloc: Global, found: &[Difference<'_>]) -> Result<Vec<Parts>, AllocError> {
    let mut numbers = Numbers::new(alloc);
    let mut all = Vec::new(alloc);
    for (place, difference) in found.iter().enumerate() {
        let Some(texts) = Texts::of(difference) else {
            continue;
        };
        let was = parts_of(alloc, &mut numbers, texts.was)?;
        let is = parts_of(alloc, &mut numbers, texts.is)?;
        all.push(Parts {
            was,
            is,
            place,
            sort: texts.sort,
        })?;
    }
    Ok(all)
}

/// The numbers of what was and what is a type or a resource at the front of texts.
type Both = (u64, u64);

/// The types and resources that are changed, by their numbers; of two that are alike the first.
fn changed_of(alloc: Global, all: &[Parts]) -> Result<BTreeMap<Both, usize>, AllocError> {
    let mut changed = BTreeMap::new(alloc);
    for parts in all {
        let (Some(was), Some(is)) = (parts.was.first(), parts.is.first()) else {
            continue;
        };
        let both = (was.ty, is.ty);
        if parts.sort != Sort::Other && changed.get(&both).is_none() {
            changed.insert(both, parts.place)?;
        }
    }
    Ok(changed)
}

/// Two texts that are walked together, each from a place on.
#[derive(Clone, Copy)]
struct Walk {
    was: usize,
    is: usize,
}

/// What stands at two places.
enum Step {
    /// Both end.
    End,
    /// They differ by themselves.
    Differs,
    /// They are the same word or mark.
    Same,
    /// What begins there is changed, as this item is; where it ends.
    Uses(usize, Walk),
}

impl Parts {
    /// What stands at two places.
    fn step(&self, walk: Walk, changed: &BTreeMap<Both, usize>) -> Step {
        let (was, is) = match (self.was.get(walk.was), self.is.get(walk.is)) {
            (Some(was), Some(is)) => (was, is),
            (None, None) => return Step::End,
            _ => return Step::Differs,
        };
        match changed.get(&(was.ty, is.ty)) {
            Some(used) if *used != self.place => {
                let behind = Walk {
                    was: was.end,
                    is: is.end,
                };
                Step::Uses(*used, behind)
            }
            _ if was.word == is.word => Step::Same,
            _ => Step::Differs,
        }
    }

    /// The items that it differs by alone; none where it differs by itself.
    fn uses(
        &self,
        alloc: Global,
        changed: &BTreeMap<Both, usize>,
    ) -> Result<BTreeSet<usize>, AllocError> {
        let mut uses = BTreeSet::new(alloc);
        let mut walk = Walk { was: 0, is: 0 };
        for _ in 0..self.was.len().saturating_add(1) {
            match self.step(walk, changed) {
                Step::End => return Ok(uses),
                Step::Differs => break,
                Step::Same => {
                    walk.was = walk.was.saturating_add(1);
                    walk.is = walk.is.saturating_add(1);
                }
                Step::Uses(used, behind) => {
                    uses.insert(used)?;
                    walk = behind;
                }
            }
        }
        Ok(BTreeSet::new(alloc))
    }
}

/// The items that the items of a number differ by in the end.
#[derive(Drop)]
struct Causes {
    alloc: Global,
    known: BTreeMap<usize, BTreeSet<usize>>,
}

impl Causes {
    /// Adds those of an item that differs by these alone, which were added before it.
    fn add(&mut self, place: usize, uses: &BTreeSet<usize>) -> Result<(), AllocError> {
        let mut causes = BTreeSet::new(self.alloc);
        for used in uses {
            self.add_to(&mut causes, *used)?;
        }
        self.known.insert(place, causes)?;
        Ok(())
    }

    /// Adds what an item differs by in the end: others, or itself.
    fn add_to(&self, causes: &mut BTreeSet<usize>, used: usize) -> Result<(), AllocError> {
        let Some(known) = self.known.get(&used) else {
            causes.insert(used)?;
            return Ok(());
        };
        for cause in known {
            causes.insert(*cause)?;
        }
        Ok(())
    }
}

/// The items that are changed, each behind those that it uses: these are shorter, or alike and
/// before it.
fn in_order(alloc: Global, all: &[Parts]) -> Result<BTreeMap<(usize, usize), usize>, AllocError> {
    let mut order = BTreeMap::new(alloc);
    for (number, parts) in all.iter().enumerate() {
        order.insert((parts.was.len(), parts.place), number)?;
    }
    Ok(order)
}

/// For each item that differs by others alone, what it differs by in the end.
fn causes_of(alloc: Global, found: &[Difference<'_>]) -> Result<Causes, AllocError> {
    let all = all_parts(alloc, found)?;
    let changed = changed_of(alloc, &all)?;
    let mut causes = Causes {
        alloc,
        known: BTreeMap::new(alloc),
    };
    let order = in_order(alloc, &all)?;
    for (_, number) in &order {
        let Some(parts) = all.get(*number) else {
            continue;
        };
        if parts.sort == Sort::Resource {
            continue;
        }
        let uses = parts.uses(alloc, &changed)?;
        if !uses.is_empty() {
            causes.add(parts.place, &uses)?;
        }
    }
    Ok(causes)
}

/// The names of those that use each item.
#[derive(Drop)]
struct Users<'a> {
    alloc: Global,
    names: BTreeMap<usize, Vec<&'a str>>,
}

impl<'a> Users<'a> {
    /// Adds one to what it uses.
    fn add(&mut self, name: &'a str, causes: &BTreeSet<usize>) -> Result<(), AllocError> {
        for cause in causes {
            self.add_at(name, *cause)?;
        }
        Ok(())
    }

    fn add_at(&mut self, name: &'a str, cause: usize) -> Result<(), AllocError> {
        if let Some(names) = self.names.get_mut(&cause) {
            names.push(name)?;
            return Ok(());
        }
        let mut names = Vec::new(self.alloc);
        names.push(name)?;
        self.names.insert(cause, names)?;
        Ok(())
    }
}

/// Who uses what, by the places of what is used.
fn users_of<'a>(
    alloc: Global,
    found: &[Difference<'a>],
    causes: &Causes,
) -> Result<Users<'a>, AllocError> {
    let mut users = Users {
        alloc,
        names: BTreeMap::new(alloc),
    };
    for (place, causes) in &causes.known {
        if let Some(name) = found.get(*place).and_then(|it| it.item) {
            users.add(name, causes)?;
        }
    }
    Ok(users)
}

/// The same differences, those of items that differ by others alone named by these. It costs time
/// linear in the texts of what is changed, with a search for each word.
pub(crate) fn fold<'a>(
    alloc: Global,
    found: Vec<Difference<'a>>,
) -> Result<Vec<Difference<'a>>, AllocError> {
    let causes = causes_of(alloc, &found)?;
    let mut users = users_of(alloc, &found, &causes)?;
    let mut folded = Vec::new(alloc);
    for (place, difference) in found.into_iter().enumerate() {
        if causes.known.get(&place).is_some() {
            continue;
        }
        let mut own = difference;
        if let Some(names) = users.names.remove(&place) {
            own.used_by = names;
        }
        folded.push(own)?;
    }
    Ok(folded)
}
