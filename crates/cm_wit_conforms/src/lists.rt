//! Imports and exports that are gone through in order.

ghost use Rattle.std.specs.Prelude.{◌≡◌, ◌++◌, [], List, IfOk, IfSome, OnOk, map, slice_get};
ghost use Rattle.std.specs.Option.{option_map};
ghost use Rattle.cm_types_arena.specs.declared.types.Types.{Types};
ghost use Rattle.cm_types_arena.specs.Listed.{desc_in, externs_listed, names_at};
ghost use Rattle.cm_types_arena.specs.Listed.{names_of_desc};
ghost use Rattle.cm_types_arena.specs.Signatures.{signature_of};
ghost use Rattle.cm_wit_conforms.specs.Comparisons as all;
ghost use Rattle.cm_wit_conforms.specs.Comparisons.{Entry, entries_from};
ghost use Rattle.cm_wit_conforms.specs.Views.{entries_of, extern_found, other, own};
ghost use Rattle.cm_wit_conforms.specs.Walks.{AreKept, IsWalked, facing_entries, of_signature};
ghost use Rattle.cm_wit_conforms.specs.Places.{extern_names, item_names, place_in};

use crate::comparisons::{Comparison, facing_funcs};
use crate::facing::Facing;
use crate::fault::ConformList;
use crate::kept::Kept;
use crate::known::KnownItems;
use crate::same_names::extern_places;
use crate::walk::Walk;
use cm_types_arena::{Desc, Externs, Signature};
use std::alloc::{AllocError, Global};

/// The import or export at a place of a list, and the one of its name that was found.
#[derive(Clone, Copy)]
struct TwoDescs<'a> {
    list: ConformList,
    place: usize,
    desc: Desc<'a>,
    found: Desc<'a>,
}

ghost use Rattle.cm_wit_conforms.specs.Walks.{StandsAt, two_entries};

/// A list of the signature's, and the world's.
#[derive(Clone, Copy)]
struct Lists<'a> {
    list: ConformList,
    have: &'a Externs,
    world: &'a Externs,
}

impl<'a> Lists<'a> {
    /// Those that are gone through.
    fn own(self) -> &'a Externs
        ensures { result.now ≡ own self.entry.list self.entry.have.now self.entry.world.now }
    {
        match self.list {
            ConformList::WorldExports => self.world,
            ConformList::HaveImports => self.have,
        }
    }

    /// Those that they are held against.
    fn other(self) -> &'a Externs
        ensures { result.now ≡ other self.entry.list self.entry.have.now self.entry.world.now }
    {
        match self.list {
            ConformList::WorldExports => self.have,
            ConformList::HaveImports => self.world,
        }
    }
}

/// Adds the items of two instances, where the signature's stands at this place of its list.
fn add_instance<'a>(
    alloc: Global,
    walk: &mut Walk,
    kept: &mut Kept<'a>,
    have: &Externs,
    place: usize,
    facing: Facing<'a>,
) -> Result<(), AllocError>
    requires names { (t : Types) → names_at t have.now place ≡ item_names t
        (of_signature facing.list facing.items facing.others) }
    requires kept { AreKept have.now kept.old }
    ensures walked { OnOk result ((h w : Types) (es : List Entry) → IsWalked h w es walk.old
        → IsWalked h w (es ++ facing_entries h w facing.entry) walk.new) }
    ensures kept { OnOk result (AreKept have.now kept.new) }
{
    let items = facing.of_signature();
    let Some(number) = have.number(place) else {
        let known = KnownItems::new(alloc, items)?;
        return walk.add_items(alloc, facing, &known);
    };
    kept.keep(alloc, have, place, number, items)?;
    // It is kept now, so what is refused is memory.
    let known = kept.known(number).ok_or(AllocError)?;
    walk.add_items(alloc, facing, known)
}

/// Adds an import or export against the one of its name, where the signature's stands at a place of
/// its list.
fn add_two<'a>(
    alloc: Global,
    walk: &mut Walk,
    kept: &mut Kept<'a>,
    have: &Externs,
    at: usize,
    two: TwoDescs<'a>,
) -> Result<(), AllocError>
    requires stands { StandsAt have.now at two }
    requires kept { AreKept have.now kept.old }
    ensures walked { OnOk result ((h w : Types) (es : List Entry) → IsWalked h w es walk.old
        → IsWalked h w (es ++ two_entries h w two.entry) walk.new) }
    ensures kept { OnOk result (AreKept have.now kept.new) }
{
    let TwoDescs {
        list,
        place,
        desc,
        found,
    } = two;
    match (found, desc) {
        (Desc::Func(g), Desc::Func(f)) => { walk.add_whole(list, place, facing_funcs(list, f, g)) }
        (Desc::Instance(others), Desc::Instance(items)) => {
            let facing = Facing {
                list,
                place,
                items,
                others,
            };
            add_instance(alloc, walk, kept, have, at, facing)
        }
        (Desc::Func(_), Desc::Instance(_)) => walk.add_whole(list, place, Comparison::Sorts),
        (Desc::Instance(_), Desc::Func(_)) => walk.add_whole(list, place, Comparison::Sorts),
    }
}

/// The import or export that stands at a place that was found, if one does, and this place.
fn found_extern(others: &Externs, found: Option<usize>) -> Option<(usize, Desc<'_>)>
    ensures found { (t : Types)
        → option_map (λ p. desc_in t p.1) result ≡ extern_found t others.now found }
    ensures names { IfSome result (λ p. (t : Types)
        → names_at t others.now p.0 ≡ names_of_desc (desc_in t p.1)) }
{
    let at = found?;
    let other = others.at(at)?;
    Some((at, other.desc))
}

/// Adds the import or export at a place, if there is one, against the other of its name, which
/// stands at the place that was found, if one does.
fn add_extern<'a>(
    alloc: Global,
    walk: &mut Walk,
    kept: &mut Kept<'a>,
    lists: Lists<'a>,
    place: usize,
    found: Option<usize>,
) -> Result<(), AllocError>
    requires { AreKept lists.have.now kept.old }
    ensures walked { OnOk result ((h w : Types) (es : List Entry) → IsWalked h w es walk.old
        → IsWalked h w (es ++ entries_of lists.entry.list place
        (extern_found (other lists.entry.list h w)
        (other lists.entry.list lists.entry.have.now lists.entry.world.now) found)
        (option_map (λ e. e.desc) (slice_get (externs_listed (own lists.entry.list h w)
        (own lists.entry.list lists.entry.have.now lists.entry.world.now)) place))) walk.new) }
    ensures kept { OnOk result (AreKept lists.entry.have.now kept.new) }
{
    let list = lists.list;
    let Some(each) = lists.own().at(place) else {
        return Ok(());
    };
    let Some((at, found)) = found_extern(lists.other(), found) else {
        return walk.add_whole(list, place, Comparison::Nothing);
    };
    let two = TwoDescs {
        list,
        place,
        desc: each.desc,
        found,
    };
    let at = match list {
        ConformList::WorldExports => at,
        ConformList::HaveImports => place,
    };
    add_two(alloc, walk, kept, lists.have, at, two)
}

/// Adds the imports or exports of a list against those of another.
fn add_externs(alloc: Global, walk: &mut Walk, lists: Lists<'_>) -> Result<(), AllocError>
    ensures { OnOk result ((h w : Types) (es : List Entry) → IsWalked h w es walk.old
        → IsWalked h w (es ++ entries_from lists.entry.list
        (externs_listed (other lists.entry.list h w)
        (other lists.entry.list lists.entry.have.now lists.entry.world.now)) 0
        (externs_listed (own lists.entry.list h w)
        (own lists.entry.list lists.entry.have.now lists.entry.world.now))) walk.new) }
{
    let places = extern_places(alloc, lists.own(), lists.other())?;
    let mut kept = Kept::new(alloc);
    for (place, found) in places.iter().enumerate() {
        add_extern(alloc, walk, &mut kept, lists, place, *found)?;
    }
    Ok(())
}

/// All that is compared: the exports of the world in its order, then the imports of the signature
/// in its own. Refused only where there is no memory, or where there are 2^64 comparisons or more.
pub(crate) fn walked(alloc: Global, have: &Signature, world: &Signature) -> Result<Walk, AllocError>
    ensures { IfOk result (λ walk. IsWalked have.now.types world.now.types
        (all.entries (signature_of have.now) (signature_of world.now)) walk) }
{
    let mut walk = Walk::new(alloc);
    let exports = Lists {
        list: ConformList::WorldExports,
        have: have.exports(),
        world: world.exports(),
    };
    add_externs(alloc, &mut walk, exports)?;
    let imports = Lists {
        list: ConformList::HaveImports,
        have: have.imports(),
        world: world.imports(),
    };
    add_externs(alloc, &mut walk, imports)?;
    Ok(walk)
}
