//! Names listed by their parts.

ghost use Rattle.std.specs.Prelude.{◌≡◌, ◌<◌, ◌≤◌, ◌++◌, ◌∷◌, [], ℕ, List, IfOk, OnOk, map};
ghost use Rattle.cm_types.specs.ExternNames.{HasLabels, name_spelling};
ghost use Rattle.cm_types.specs.ExternNameForms.{form_tree};
ghost use Rattle.cm_types_arena.specs.SharedNames.{name_with, text_in};
ghost use Rattle.cm_wit_conforms.specs.Parts.{front_of};
ghost use Rattle.cm_wit_conforms.specs.PartViews.{front_view};

use crate::parts::{FrontParts, NameParts, back_of, front_of, plain_front, shared_front};
use cm_types::ExternNameForm;
use cm_types_arena::{Extern, Front, Item, SharedExtern, SharedItem, SharedName};
use std::alloc::{AllocError, Global};

/// Names in order by their parts, and the fronts that they have.
#[derive(Drop)]
pub(crate) struct ListedNames<'a> {
    pub(crate) fronts: Vec<FrontParts<'a>>,
    pub(crate) names: Vec<NameParts<'a>>,
}

ghost use Rattle.cm_wit_conforms.specs.Listings.{AreNames, HasFrontsOf};

/// The fronts of names, and one more that is plain.
#[tactic(auto, using(crate::proofs::MapLaws::map_laws))]
fn shared_fronts<'a>(alloc: Global, fronts: &'a [Front]) -> Result<Vec<FrontParts<'a>>, AllocError>
    ensures { IfOk result (λ v. map front_view v.items
        ≡ map (λ f. front_of (name_with f [])) fronts.now) }
{
    let mut parts = Vec::new(alloc);
    for front in fronts {
        parts.push(shared_front(front))?;
    }
    Ok(parts)
}

/// The number of a front among so many, or how many they are where it is none of them.
fn bounded(front: usize, count: usize) -> usize
    ensures inside { front < count → result ≡ front }
    ensures outside { count ≤ front → result ≡ count }
{
    if front < count { front } else { count }
}

impl<'a> ListedNames<'a> {
    /// No names, of no front.
    fn new(alloc: Global) -> ListedNames<'a>
        ensures { AreNames result [] }
    {
        ListedNames {
            fronts: Vec::new(alloc),
            names: Vec::new(alloc),
        }
    }

    /// No names, of these fronts and one more that is plain. Refused only where there is no memory.
    fn with_fronts(alloc: Global, fronts: &'a [Front]) -> Result<ListedNames<'a>, AllocError>
        ensures fronts { IfOk result (HasFrontsOf fronts.now) }
        ensures names { IfOk result (λ l. AreNames l []) }
    {
        let mut parts = shared_fronts(alloc, fronts)?;
        parts.push(plain_front())?;
        Ok(ListedNames {
            fronts: parts,
            names: Vec::new(alloc),
        })
    }

    /// Adds a name with a front of its own.
    fn add(&mut self, name: ExternNameForm<'a>) -> Result<(), AllocError>
        requires { HasLabels (form_tree name) }
        ensures { OnOk result ((texts : List (List ℕ)) → AreNames self.old texts
            → AreNames self.new (texts ++ name_spelling (form_tree name.entry) ∷ [])) }
    {
        let front = self.fronts.len();
        self.fronts.push(front_of(name))?;
        self.names.push(NameParts {
            front,
            back: back_of(name),
        })?;
        Ok(())
    }

    /// Adds a name whose front is one of these, which the listing has.
    fn add_shared(&mut self, fronts: &'a [Front], name: &'a SharedName) -> Result<(), AllocError>
        requires { HasFrontsOf fronts.now self.old }
        ensures fronts { OnOk result (HasFrontsOf fronts.now self.new) }
        ensures added { OnOk result ((texts : List (List ℕ)) → AreNames self.old texts
            → AreNames self.new (texts ++ text_in fronts.now name.now ∷ [])) }
    {
        let front = bounded(name.front, fronts.len());
        let back = back_of(name.form(fronts));
        self.names.push(NameParts { front, back })?;
        Ok(())
    }
}

/// The names of a component's imports or exports.
pub(crate) fn component_externs(
    alloc: Global,
    externs: &[Extern],
) -> Result<ListedNames<'_>, AllocError>
    ensures { IfOk result (λ l. AreNames l (map (λ e. e.name) externs.now)) }
{
    let mut list = ListedNames::new(alloc);
    for each in externs {
        list.add(each.name.form())?;
    }
    Ok(list)
}

/// The names of the items of a component's instance.
pub(crate) fn component_items(alloc: Global, items: &[Item]) -> Result<ListedNames<'_>, AllocError>
    ensures { IfOk result (λ l. AreNames l (map (λ i. i.name) items.now)) }
{
    let mut list = ListedNames::new(alloc);
    for item in items {
        list.add(item.name.form())?;
    }
    Ok(list)
}

/// The names of a world's imports or exports, whose fronts are these.
pub(crate) fn world_externs<'a>(
    alloc: Global,
    fronts: &'a [Front],
    externs: &'a [SharedExtern],
) -> Result<ListedNames<'a>, AllocError>
    ensures { IfOk result (λ l.
        AreNames l (map (λ e. text_in fronts.now e.name) externs.now)) }
{
    let mut list = ListedNames::with_fronts(alloc, fronts)?;
    for each in externs {
        list.add_shared(fronts, &each.name)?;
    }
    Ok(list)
}

/// The names of the items of a world's instance, whose fronts are these.
pub(crate) fn world_items<'a>(
    alloc: Global,
    fronts: &'a [Front],
    items: &'a [SharedItem],
) -> Result<ListedNames<'a>, AllocError>
    ensures { IfOk result (λ l. AreNames l (map (λ i. text_in fronts.now i.name) items.now)) }
{
    let mut list = ListedNames::with_fronts(alloc, fronts)?;
    for item in items {
        list.add_shared(fronts, &item.name)?;
    }
    Ok(list)
}
