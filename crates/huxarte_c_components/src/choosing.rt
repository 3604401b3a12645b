//! Links that are chosen for imports, in numbers.

ghost use Rattle.std.specs.Prelude.{◌≡◌, ◌≢◌, [], IfErr, IfOk, IsFalse, IsTrue, None, OnOk, Some};
ghost use Rattle.std.specs.Prelude.{if◌then◌else◌, map, replicate, slice_get, slice_set, ℕ};
ghost use Rattle.cm_match_model.specs.Links.{CanBeLinked};
ghost use Rattle.cm_match_serving.specs.Sets.{spaces_of_all};
ghost use Rattle.cm_match.specs.Linked.{set_in};
ghost use Rattle.huxarte_c_components.specs.Choosing.{ArePlaced, HaveChosen, IsChoiceRefusal};
ghost use Rattle.huxarte_c_components.specs.Choosing.{IsSetBy, chosen_link, is_for, place_of};
ghost use Rattle.huxarte_c_components.specs.Choosing.{slot_in};
ghost use Rattle.huxarte_c_components.specs.Linking.{IsUnlinkedBy};

use crate::linking::LinkRefusal;
use cm_match::{Checked, Choices, Link, Linked, Place, link, link_by};
use std::alloc::{AllocError, Global};

/// Where a component stands among groups: components in a row that count as one for those behind.
/// The first component begins a group in any case.
#[repr(C)]
#[derive(Clone, Copy)]
pub struct HuxPlace {
    /// Not 0 where it begins a group, which sees what is seen of the groups before it.
    pub begins: u32,
    /// Not 0 where those behind its group see its exports.
    pub is_seen: u32,
}

impl HuxPlace {
    fn place(self) -> Place
        ensures { result ≡ place_of self }
    {
        Place {
            begins: self.begins != 0,
            is_seen: self.is_seen != 0,
        }
    }
}

/// The link that is chosen for an import, which sees this export alone. Files, and the imports and
/// exports of each, count from 0.
#[repr(C)]
#[derive(Clone, Copy)]
pub struct HuxChoice {
    /// The file of the import.
    pub importer: usize,
    /// The number of the import.
    pub import_at: usize,
    /// The file of the export, which has to stand before that of the import.
    pub provider: u32,
    /// The number of the export.
    pub export_at: usize,
}

impl HuxChoice {
    fn link(&self) -> Link
        ensures { result ≡ chosen_link self.now }
    {
        Link {
            component: self.provider,
            export: self.export_at,
        }
    }

    /// Gives the import its link, where it is there and has none.
    fn choose(&self, rows: &mut Vec<Vec<Option<Link>>>) -> bool
        ensures chosen { IsTrue result
            → slot_in rows.old.items self.now.importer self.now.import_at ≡ Some None }
        ensures others { IsTrue result → (component number : ℕ)
            → slot_in rows.new.items component number
            ≡ if is_for component number self.now then Some (Some (chosen_link self.now))
            else slot_in rows.old.items component number }
        ensures refused { IsFalse result
            → slot_in rows.old.items self.now.importer self.now.import_at ≢ Some None }
    {
        match rows.get_mut(self.importer) {
            Some(row) => choose_in(row, self.import_at, self.link()),
            None => false,
        }
    }
}

/// A row of so many imports, of which none has a link.
fn no_links(alloc: Global, count: usize) -> Result<Vec<Option<Link>>, AllocError>
    ensures { IfOk result (λ row. row.items ≡ replicate count None) }
{
    let mut row = Vec::with_capacity(alloc, count)?;
    for _import in 0..count {
        row.push(None)?;
    }
    Ok(row)
}

/// A row for each component, in which no import has a link.
fn empty_rows(
    alloc: Global,
    components: &[Checked<'_>],
) -> Result<Vec<Vec<Option<Link>>>, AllocError>
    ensures { IfOk result (λ rows. HaveChosen (spaces_of_all components.now) [] rows.items) }
{
    let mut rows = Vec::with_capacity(alloc, components.len())?;
    for component in components {
        let row = no_links(alloc, component.imports().len())?;
        rows.push(row)?;
    }
    Ok(rows)
}

/// Gives an import of a component this link, where it is there and has none.
fn choose_in(row: &mut Vec<Option<Link>>, at: usize, link: Link) -> bool
    ensures chosen { IsTrue result → slice_get row.old.items at ≡ Some None }
    ensures given { IsTrue result → row.new.items ≡ slice_set row.old.items at (Some link) }
    ensures refused { IsFalse result → slice_get row.old.items at ≢ Some None }
{
    let Some(slot) = row.get_mut(at) else {
        return false;
    };
    if slot.is_some() {
        return false;
    }
    *slot = Some(link);
    true
}

/// The links of imports that are chosen, by component and number.
fn links_of(
    alloc: Global,
    components: &[Checked<'_>],
    choices: &[HuxChoice],
) -> Result<Vec<Vec<Option<Link>>>, LinkRefusal>
    ensures chosen { IfOk result (λ rows.
        HaveChosen (spaces_of_all components.now) choices.now rows.items) }
    ensures placed { OnOk result (ArePlaced (spaces_of_all components.now) choices.now) }
    ensures refused { IfErr result
        (IsChoiceRefusal (spaces_of_all components.now) choices.now) }
{
    let Ok(mut rows) = empty_rows(alloc, components) else {
        return Err(LinkRefusal::Memory);
    };
    for (at, choice) in choices.iter().enumerate() {
        if !choice.choose(&mut rows) {
            return Err(LinkRefusal::Choice(at));
        }
    }
    Ok(rows)
}

fn places_of(alloc: Global, places: &[HuxPlace]) -> Result<Vec<Place>, AllocError>
    ensures { IfOk result (λ ps. ps.items ≡ map place_of places.now) }
{
    let mut found = Vec::with_capacity(alloc, places.len())?;
    for place in places {
        found.push(place.place())?;
    }
    Ok(found)
}

/// Links components, where something is chosen.
fn link_chosen<'a>(
    alloc: Global,
    components: Vec<Checked<'a>>,
    places: &[HuxPlace],
    choices: &[HuxChoice],
) -> Result<Linked<'a>, LinkRefusal>
    requires some { places.now ≡ [] → choices.now ≡ [] → ⊥ }
    ensures set { IfOk result (λ l. IsSetBy (spaces_of_all components.entry.items)
        places.now choices.now (set_in l)) }
    ensures linked { IfOk result (λ l. CanBeLinked (set_in l)) }
    ensures refused { IfErr result
        (IsUnlinkedBy places.now choices.now (spaces_of_all components.entry.items)) }
{
    let links = links_of(alloc, &components, choices)?;
    let Ok(places) = places_of(alloc, places) else {
        return Err(LinkRefusal::Memory);
    };
    match link_by(alloc, components, Choices { places, links }) {
        Ok(linked) => Ok(linked),
        Err(fault) => Err(LinkRefusal::Link(fault)),
    }
}

/// Links components by what is chosen for their imports, as [`link_by`] does; where nothing is, as
/// [`link`] does.
///
/// `Choice` has the place of the first choice of an import that is not there, or that has a link by
/// a choice before; `Link` comes behind it, and `Memory` where there is none for the choices.
pub fn link_by_numbers<'a>(
    alloc: Global,
    components: Vec<Checked<'a>>,
    places: &[HuxPlace],
    choices: &[HuxChoice],
) -> Result<Linked<'a>, LinkRefusal>
    ensures set { IfOk result (λ l. IsSetBy (spaces_of_all components.entry.items)
        places.now choices.now (set_in l)) }
    ensures linked { IfOk result (λ l. CanBeLinked (set_in l)) }
    ensures refused { IfErr result
        (IsUnlinkedBy places.now choices.now (spaces_of_all components.entry.items)) }
{
    if !places.is_empty() || !choices.is_empty() {
        return link_chosen(alloc, components, places, choices);
    }
    match link(alloc, components) {
        Ok(linked) => Ok(linked),
        Err(fault) => Err(LinkRefusal::Link(fault)),
    }
}
