//! What differs, in words.

use crate::breaking::Break;
use crate::difference::{Change, Difference, Effect, Side};
use crate::facing::Face;
use crate::listed::{Block, Item, Listed};
use crate::pairs::Pairs;
use crate::replacing::Broken;
use crate::uses::fold;
use std::alloc::{AllocError, Global};
use std::collections::{BTreeMap, BTreeSet};

/// What is wanted of one side, and what the other offers: who uses the old signature wants its
/// exports of the new one, and the new one wants its imports of the old one's host.
#[derive(Clone, Copy)]
struct Facing<'t, 'a> {
    side: Side,
    wanted: &'t [Block<'a>],
    offered: &'t [Block<'a>],
    faces: &'t [Face],
    breaks: &'t [Break],
}

/// What differs so far.
#[derive(Drop)]
struct Telling<'a> {
    alloc: Global,
    pairs: Pairs,
    differences: Vec<Difference<'a>>,
}

/// In what a new signature differs from an old one, given what it breaks and the texts that show
/// both (`cm_tool_show::show`): of the old one's exports in order, then exports that only the new
/// one has; of the new one's imports in order, then imports that only the old one has, and those of
/// the old one's that the new one exports.
///
/// Items that differ by others of their instance alone stand with these (`used_by`). An export that
/// nobody can link to is left out.
///
/// Refused only where there is no memory.
pub fn differences<'a>(
    alloc: Global,
    old: &'a str,
    new: &'a str,
    broken: &Broken,
) -> Result<Vec<Difference<'a>>, AllocError> {
    let old = Listed::read(alloc, old)?;
    let new = Listed::read(alloc, new)?;
    let exports = Facing {
        side: Side::Export,
        wanted: &old.exports,
        offered: &new.exports,
        faces: &broken.exports,
        breaks: &broken.users,
    };
    let imports = Facing {
        side: Side::Import,
        wanted: &new.imports,
        offered: &old.imports,
        faces: &broken.imports,
        breaks: &broken.hosts,
    };
    let mut telling = Telling {
        alloc,
        pairs: Pairs::new(alloc),
        differences: Vec::new(alloc),
    };
    for block in &old.imports {
        for item in &block.items {
            telling.pairs.note_imported(item.what)?;
        }
    }
    imports.note_pairs(alloc, &mut telling.pairs)?;
    exports.note_pairs(alloc, &mut telling.pairs)?;
    telling.tell_side(exports, &broken.met)?;
    telling.tell_side(imports, &[])?;
    telling.tell_exported(&old.imports, &broken.hosted)?;
    Ok(telling.differences)
}

impl Side {
    /// What is wanted and what is offered, the old one first.
    fn old_and_new<T>(self, wanted: T, offered: T) -> (T, T) {
        match self {
            Side::Export => (wanted, offered),
            Side::Import => (offered, wanted),
        }
    }

    /// Whom it breaks that nothing serves.
    fn broken(self) -> Effect {
        match self {
            Side::Export => Effect::Users,
            Side::Import => Effect::Hosts,
        }
    }
}

impl<'t, 'a> Facing<'t, 'a> {
    /// What is offered for what is wanted at a place.
    fn offer(self, place: usize) -> Option<&'t Block<'a>> {
        match self.faces.get(place)? {
            Face::One(at) => self.offered.get(*at),
            Face::LeftOut | Face::Nothing | Face::Several => None,
        }
    }

    /// Takes note of the resources that stand under one name.
    fn note_pairs(self, alloc: Global, pairs: &mut Pairs) -> Result<(), AllocError> {
        for (place, block) in self.wanted.iter().enumerate() {
            if let Some(offered) = self.offer(place) {
                self.note_items(alloc, block, offered, pairs)?;
            }
        }
        Ok(())
    }

    fn note_items(
        self,
        alloc: Global,
        wanted: &Block<'a>,
        offered: &Block<'a>,
        pairs: &mut Pairs,
    ) -> Result<(), AllocError> {
        let items = items_of(alloc, offered)?;
        for item in &wanted.items {
            if let Some(other) = items.get(&item.name) {
                match self.side {
                    Side::Import => pairs.note_served(item.what, other.what)?,
                    Side::Export => pairs.note_used(item.what, other.what)?,
                }
            }
        }
        Ok(())
    }

    /// The first of the offered versions of each interface, by its name without a version.
    fn interfaces(self, alloc: Global) -> Result<BTreeMap<&'a str, &'a str>, AllocError> {
        let mut interfaces = BTreeMap::new(alloc);
        for block in self.offered {
            let Some((interface, _)) = block.name.split_once('@') else {
                continue;
            };
            if interfaces.get(&interface).is_none() {
                interfaces.insert(interface, block.name)?;
            }
        }
        Ok(interfaces)
    }

    /// The names of what is wanted, and of what is offered for it.
    fn known(self, alloc: Global) -> Result<BTreeSet<&'a str>, AllocError> {
        let mut known = BTreeSet::new(alloc);
        for (place, block) in self.wanted.iter().enumerate() {
            match self.offer(place) {
                Some(offered) => known.insert(offered.name)?,
                None => known.insert(block.name)?,
            };
        }
        Ok(known)
    }

    /// The breaks of what is wanted at a place; those before it are behind.
    fn breaks_at(self, from: usize, place: usize) -> &'t [Break] {
        let rest = self.breaks.get(from..).unwrap_or(&[]);
        let count = rest.iter().take_while(|it| it.place == place).count();
        rest.get(..count).unwrap_or(&[])
    }
}

impl<'a> Telling<'a> {
    fn tell_side(&mut self, facing: Facing<'_, 'a>, met: &[bool]) -> Result<(), AllocError> {
        let interfaces = facing.interfaces(self.alloc)?;
        let mut from = 0;
        for (place, block) in facing.wanted.iter().enumerate() {
            let breaks = facing.breaks_at(from, place);
            from = from.saturating_add(breaks.len());
            match facing.faces.get(place) {
                Some(Face::Nothing) => self.tell_missing(facing.side, block.name, &interfaces)?,
                Some(Face::Several) => {
                    self.add(
                        facing.side,
                        block.name,
                        None,
                        Change::Several,
                        facing.side.broken(),
                    )?
                }
                Some(Face::One(at)) => {
                    if let Some(offered) = facing.offered.get(*at) {
                        self.tell_two(facing.side, block, offered, breaks)?;
                    }
                }
                Some(Face::LeftOut) | None => {}
            }
        }
        let known = facing.known(self.alloc)?;
        self.tell_unused(facing, &known, met)
    }

    /// Tells that nothing is offered for what is wanted.
    fn tell_missing(
        &mut self,
        side: Side,
        name: &'a str,
        interfaces: &BTreeMap<&'a str, &'a str>,
    ) -> Result<(), AllocError> {
        let other = match name.split_once('@') {
            Some((interface, _)) => interfaces.get(&interface).copied(),
            None => None,
        };
        self.add(side, name, None, missing(side, other), side.broken())
    }

    /// Tells what is offered and not wanted.
    fn tell_unused(
        &mut self,
        facing: Facing<'_, 'a>,
        known: &BTreeSet<&'a str>,
        met: &[bool],
    ) -> Result<(), AllocError> {
        for (place, block) in facing.offered.iter().enumerate() {
            if known.contains(&block.name) {
                continue;
            }
            let effect = match (facing.side, met.get(place)) {
                (Side::Export, Some(false)) => Effect::MayClash,
                _ => Effect::Harmless,
            };
            self.add(facing.side, block.name, None, surplus(facing.side), effect)?;
        }
        Ok(())
    }

    /// Tells that imports are exported too.
    fn tell_exported(&mut self, imports: &[Block<'a>], places: &[usize]) -> Result<(), AllocError> {
        for place in places {
            if let Some(block) = imports.get(*place) {
                self.add(
                    Side::Import,
                    block.name,
                    None,
                    Change::Exported,
                    Effect::Users,
                )?;
            }
        }
        Ok(())
    }

    /// Tells how what is wanted differs from what is offered for it.
    fn tell_two(
        &mut self,
        side: Side,
        wanted: &Block<'a>,
        offered: &Block<'a>,
        breaks: &[Break],
    ) -> Result<(), AllocError> {
        let (old, new) = side.old_and_new(wanted, offered);
        if old.name != new.name {
            let effect = match side {
                Side::Export => Effect::Harmless,
                Side::Import => Effect::MayClash,
            };
            self.add(
                side,
                old.name,
                None,
                Change::Renamed { is: new.name },
                effect,
            )?;
        }
        let items = items_of(self.alloc, offered)?;
        let mut found = Vec::new(self.alloc);
        for each in breaks {
            let difference = self.difference(side, wanted, offered, &items, *each)?;
            found.push(difference)?;
        }
        for difference in fold(self.alloc, found)? {
            self.differences.push(difference)?;
        }
        self.tell_unwanted(side, wanted, offered)
    }

    /// What does not serve, in words.
    fn difference(
        &self,
        side: Side,
        wanted: &Block<'a>,
        offered: &Block<'a>,
        items: &BTreeMap<&'a str, Item<'a>>,
        broken: Break,
    ) -> Result<Difference<'a>, AllocError> {
        let item = match broken.item {
            Some(place) => wanted.items.get(place),
            None => None,
        };
        let (name, change) = match item {
            None => (None, self.changed(side, wanted.what, offered.what)?),
            Some(item) => match items.get(&item.name) {
                None => (Some(item.name), missing(side, None)),
                Some(other) => (Some(item.name), self.item_changed(side, *item, *other)?),
            },
        };
        Ok(Difference {
            side,
            name: wanted.name,
            item: name,
            change,
            effect: side.broken(),
            used_by: Vec::new(self.alloc),
        })
    }

    fn changed(&self, side: Side, wanted: &str, offered: &str) -> Result<Change<'a>, AllocError> {
        let (old, new) = side.old_and_new(wanted, offered);
        Ok(Change::Changed {
            was: self.pairs.old_text(old)?,
            is: self.pairs.new_text(new)?,
        })
    }

    fn item_changed(
        &self,
        side: Side,
        wanted: Item<'a>,
        offered: Item<'a>,
    ) -> Result<Change<'a>, AllocError> {
        let (old, new) = side.old_and_new(wanted, offered);
        let (was, is) = (
            self.pairs.old_text(old.what)?,
            self.pairs.new_text(new.what)?,
        );
        Ok(Change::Changed {
            was: format!(in self.alloc; "{} {was}", old.sort)?,
            is: format!(in self.alloc; "{} {is}", new.sort)?,
        })
    }

    /// Tells the items that are offered and not wanted.
    fn tell_unwanted(
        &mut self,
        side: Side,
        wanted: &Block<'a>,
        offered: &Block<'a>,
    ) -> Result<(), AllocError> {
        let items = items_of(self.alloc, wanted)?;
        for item in &offered.items {
            if items.get(&item.name).is_none() {
                let change = surplus(side);
                self.add(side, wanted.name, Some(item.name), change, Effect::Harmless)?;
            }
        }
        Ok(())
    }

    fn add(
        &mut self,
        side: Side,
        name: &'a str,
        item: Option<&'a str>,
        change: Change<'a>,
        effect: Effect,
    ) -> Result<(), AllocError> {
        self.differences.push(Difference {
            side,
            name,
            item,
            change,
            effect,
            used_by: Vec::new(self.alloc),
        })?;
        Ok(())
    }
}

/// The items of an import or an export, by their names.
fn items_of<'a>(
    alloc: Global,
    block: &Block<'a>,
) -> Result<BTreeMap<&'a str, Item<'a>>, AllocError> {
    let mut items = BTreeMap::new(alloc);
    for item in &block.items {
        items.insert(item.name, *item)?;
    }
    Ok(items)
}

/// What it is that nothing is offered for what is wanted.
fn missing(side: Side, other: Option<&str>) -> Change<'_> {
    match side {
        Side::Export => Change::Gone { other },
        Side::Import => Change::New { other },
    }
}

/// What it is that something is offered and not wanted.
fn surplus<'a>(side: Side) -> Change<'a> {
    match side {
        Side::Export => Change::New { other: None },
        Side::Import => Change::Gone { other: None },
    }
}
