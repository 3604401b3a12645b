//! What a provider exports: what others import, under one name for all compatible versions.

use crate::asked::{Asked, bytes_of, name_of};
use crate::resources::Resources;
use cm_stubs_drafts::{Draft, DraftFault, ResourceKey, TypeKey};
use cm_types::{ExternName, ExternNameForm};
use cm_types_arena::{Desc, ItemDesc, Items, Move, NamedDesc, NamedItem};
use semver::Version;
use std::alloc::{AllocError, Global};
use std::cmp::Ordering;
use std::collections::BTreeMap;

/// What an item of an instance is.
#[derive(Clone, Copy)]
pub(crate) enum ItemIs {
    Func(TypeKey),
    Value(TypeKey),
    /// A resource, by its number among those of the stub.
    Resource(usize),
}

/// An item of an instance that is exported.
#[derive(Drop)]
pub(crate) struct WantedItem {
    pub name: ExternName,
    pub is: ItemIs,
}

/// What an export is.
#[derive(Drop)]
pub(crate) enum WantedIs {
    Func(TypeKey),
    Instance(Vec<WantedItem>),
}

/// An export of a provider.
#[derive(Drop)]
pub(crate) struct WantedExport {
    /// Its name, in the latest version that is asked.
    pub name: ExternName,
    version: Option<Version>,
    pub is: WantedIs,
    /// The places of its items, by their names.
    places: BTreeMap<String, usize>,
}

/// The exports of a provider, in the order in which they were first asked, and their resources.
#[derive(Drop)]
pub(crate) struct Wanted {
    alloc: Global,
    pub exports: Vec<WantedExport>,
    pub resources: Resources,
    /// The places of the exports, by names that compatible versions share.
    places: BTreeMap<String, usize>,
}

/// A name that all compatible versions of an interface share, and the version, if it is a release.
#[derive(Drop)]
struct Shared {
    name: String,
    version: Option<Version>,
}

/// The name that the versions compatible with this one share.
fn shared_name(alloc: Global, name: &ExternName) -> Result<Shared, AllocError> {
    let ExternNameForm::Interface {
        namespace,
        package,
        interface,
        version: Some(text),
    } = name.form()
    else {
        return unshared(alloc, name);
    };
    let version = Version::parse(alloc, text).map_err(|_| AllocError)?;
    if !version.pre.is_empty() {
        return unshared(alloc, name);
    }
    let front = format!(in alloc; "{namespace}:{package}/{interface}@")?;
    let name = if version.major > 0 {
        format!(in alloc; "{front}{}", version.major)?
    } else if version.minor > 0 {
        format!(in alloc; "{front}0.{}", version.minor)?
    } else {
        format!(in alloc; "{front}0.0.{}", version.patch)?
    };
    Ok(Shared {
        name,
        version: Some(version),
    })
}

/// The name as it stands, which is shared with no other.
fn unshared(alloc: Global, name: &ExternName) -> Result<Shared, AllocError> {
    let text = name.as_str();
    Ok(Shared {
        name: format!(in alloc; "={text}")?,
        version: None,
    })
}

/// Whether a version is later than another.
fn is_later(version: &Option<Version>, than: &Option<Version>) -> bool {
    match (version, than) {
        (Some(version), Some(than)) => version.cmp_precedence(than) == Ordering::Greater,
        _ => false,
    }
}

impl WantedExport {
    /// An export under a name, which has no items so far.
    fn new(
        alloc: Global,
        name: ExternName,
        version: Option<Version>,
        is: WantedIs,
    ) -> WantedExport {
        WantedExport {
            name,
            version,
            is,
            places: BTreeMap::new(alloc),
        }
    }

    /// It is asked in another version too: the later one is its name.
    fn meet(&mut self, name: ExternName, version: Option<Version>) {
        if is_later(&version, &self.version) {
            self.name = name;
            self.version = version;
        }
    }

    /// The number of the resource under a name, if one is there.
    fn resource(&self, name: &str) -> Option<usize> {
        let WantedIs::Instance(items) = &self.is else {
            return None;
        };
        match items.get(*self.places.get(name)?)?.is {
            ItemIs::Resource(number) => Some(number),
            _ => None,
        }
    }

    /// Adds an item, if there is none of its name.
    fn add(&mut self, alloc: Global, name: ExternName, is: ItemIs) -> Result<(), DraftFault> {
        if self.places.contains_key(name.as_str()) {
            return Ok(());
        }
        let text = String::from_str(alloc, name.as_str())?;
        if let WantedIs::Instance(items) = &mut self.is {
            self.places.insert(text, items.len())?;
            items.push(WantedItem { name, is })?;
        }
        Ok(())
    }
}

impl Wanted {
    /// No exports.
    fn new(alloc: Global) -> Wanted {
        Wanted {
            alloc,
            exports: Vec::new(alloc),
            resources: Resources::new(alloc),
            places: BTreeMap::new(alloc),
        }
    }

    /// The place of the export under a name or one of a compatible version, which is added where
    /// there is none.
    fn place(&mut self, name: ExternName, desc: &Desc<'_>, of: usize) -> Result<usize, DraftFault> {
        let Shared {
            name: shared,
            version,
        } = shared_name(self.alloc, &name)?;
        if let Some(place) = self.places.get(&shared).copied() {
            if let Some(export) = self.exports.get_mut(place) {
                export.meet(name, version);
            }
            return Ok(place);
        }
        let is = match desc {
            Desc::Func(placed) => WantedIs::Func(TypeKey::new(of, *placed, None)),
            Desc::Instance(_) => WantedIs::Instance(Vec::new(self.alloc)),
        };
        let place = self.exports.len();
        self.exports
            .push(WantedExport::new(self.alloc, name, version, is))?;
        self.places.insert(shared, place)?;
        Ok(place)
    }

    /// The number of the resource that an export has under a name: what is asked numbers it so.
    fn resource(
        &mut self,
        place: usize,
        name: &ExternName,
        key: ResourceKey,
    ) -> Result<usize, DraftFault> {
        let known = match self.exports.get(place) {
            Some(export) => export.resource(name.as_str()),
            None => None,
        };
        let number = match known {
            Some(number) => number,
            None => self.resources.add()?,
        };
        self.resources.put(key, number)?;
        Ok(number)
    }

    /// Adds an item of an instance that is asked to the export at a place.
    fn add_item(
        &mut self,
        place: usize,
        of: usize,
        by: Option<Move>,
        item: &NamedItem<'_>,
    ) -> Result<(), DraftFault> {
        let name = name_of(self.alloc, item.name)?;
        let is = match item.desc {
            ItemDesc::Func(placed) => ItemIs::Func(TypeKey::new(of, placed, by)),
            ItemDesc::EqualType(placed) => ItemIs::Value(TypeKey::new(of, placed, by)),
            ItemDesc::EqualResource(number) | ItemDesc::FreshResource(number) => {
                let key = ResourceKey::new(of, number, by);
                ItemIs::Resource(self.resource(place, &name, key)?)
            }
        };
        match self.exports.get_mut(place) {
            Some(export) => export.add(self.alloc, name, is),
            None => Ok(()),
        }
    }

    /// Adds the items of an instance that is asked to the export at a place.
    fn add_items(
        &mut self,
        draft: &mut Draft,
        place: usize,
        of: usize,
        items: Items<'_>,
    ) -> Result<(), DraftFault> {
        for number in 0..items.len() {
            if let Some(item) = items.at(number) {
                draft.spend(bytes_of(item.name))?;
                self.add_item(place, of, items.by(), &item)?;
            }
        }
        Ok(())
    }

    /// Adds what one import is served by, unless it is served already.
    fn add(
        &mut self,
        draft: &mut Draft,
        before: &Exported,
        of: usize,
        import: &NamedDesc<'_>,
    ) -> Result<(), DraftFault> {
        draft.spend(bytes_of(import.name))?;
        let name = name_of(self.alloc, import.name)?;
        if before.has(self.alloc, &name)? {
            return Ok(());
        }
        let place = self.place(name, &import.desc, of)?;
        match import.desc {
            Desc::Func(_) => Ok(()),
            Desc::Instance(items) => self.add_items(draft, place, of, items),
        }
    }

    /// What these import, each list after the exports of those before it: what none of these
    /// exports. Names are spent of the draft.
    pub(crate) fn of(
        alloc: Global,
        draft: &mut Draft,
        asked: &[Asked<'_>],
        exported: &[Vec<ExternName>],
    ) -> Result<Wanted, DraftFault> {
        let mut wanted = Wanted::new(alloc);
        let mut before = Exported::new(alloc);
        for (of, each) in asked.iter().enumerate() {
            for import in &each.externs {
                wanted.add(draft, &before, of, import)?;
            }
            if let Some(names) = exported.get(of) {
                before.add_all(alloc, names)?;
            }
        }
        Ok(wanted)
    }
}

/// The exports of components, by names that compatible versions share: the latest version of each.
#[derive(Drop)]
struct Exported {
    latest: BTreeMap<String, Option<Version>>,
}

impl Exported {
    /// No exports.
    fn new(alloc: Global) -> Exported {
        Exported {
            latest: BTreeMap::new(alloc),
        }
    }

    /// Adds an export under a name.
    fn add(&mut self, alloc: Global, name: &ExternName) -> Result<(), AllocError> {
        let Shared { name, version } = shared_name(alloc, name)?;
        match self.latest.get_mut(&name) {
            Some(latest) if is_later(latest, &version) => {}
            Some(latest) => *latest = version,
            None => {
                self.latest.insert(name, version)?;
            }
        }
        Ok(())
    }

    /// Adds the exports under these names.
    fn add_all(&mut self, alloc: Global, names: &[ExternName]) -> Result<(), AllocError> {
        for name in names {
            self.add(alloc, name)?;
        }
        Ok(())
    }

    /// Whether there is an export under a name, or under a later version of it that is compatible.
    fn has(&self, alloc: Global, name: &ExternName) -> Result<bool, AllocError> {
        let Shared { name, version } = shared_name(alloc, name)?;
        Ok(match self.latest.get(&name) {
            Some(latest) => !is_later(&version, latest),
            None => false,
        })
    }
}
