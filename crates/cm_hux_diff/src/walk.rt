//! All that is held, in order.

ghost use Rattle.std.specs.Prelude.{◌≡◌, ◌++◌, IfOk, List, OnOk, ℕ, map, option_and_then};
ghost use Rattle.std.specs.Prelude.{option_to_list, slice_get};
ghost use Rattle.cm_types_arena.specs.Listed.{desc_in, externs_listed};
ghost use Rattle.cm_types_arena.specs.declared.types.Types.{Types};
ghost use Rattle.cm_wit_conforms.specs.Places.{extern_names, item_names, place_in};
ghost use Rattle.cm_hux_diff.specs.Held.{entries_from, face_entries, two_entries, whole};
ghost use Rattle.cm_hux_diff.specs.Views.{entries_at, entry_view, held_view};
ghost use Rattle.cm_hux_diff.specs.Views.{instance_entries};
ghost use Rattle.cm_hux_diff.specs.declared.facing.Face.{Face as Faced};

use crate::facing::Face;
use crate::held::{Entry, Held, TwoInstances, entry_at, two_funcs};
use cm_types_arena::{Desc, Externs};
use cm_wit_conforms::KnownItems;
use std::alloc::{AllocError, Global};

/// All that is held so far.
#[derive(Drop)]
pub(crate) struct Walk {
    pub(crate) entries: Vec<Entry>,
}

impl Walk {
    /// Adds an import or export as a whole.
    fn add_whole(&mut self, place: usize, held: Held) -> Result<(), AllocError>
        ensures { OnOk result ((w o : Types) → map (entry_view w o) self.new.entries.items
            ≡ map (entry_view w o) self.old.entries.items
            ++ whole place (held_view w o held)) }
    {
        self.entries.push(Entry {
            place,
            item: None,
            held,
        })?;
        Ok(())
    }

    /// Adds the item of a number, if there is one, against that of its name, which stands at the
    /// place that is given.
    fn add_item(
        &mut self,
        two: TwoInstances<'_>,
        number: usize,
        found: Option<usize>,
    ) -> Result<(), AllocError>
        requires { (t u : Types) → found ≡ option_and_then
            (place_in (item_names u two.offered))
            (slice_get (item_names t two.wanted) number) }
        ensures { OnOk result ((w o : Types) → map (entry_view w o) self.new.entries.items
            ≡ map (entry_view w o) self.old.entries.items
            ++ option_to_list (slice_get (instance_entries w o two.entry) number)) }
    {
        match entry_at(two, number, found) {
            Some(entry) => {
                self.entries.push(entry)?;
                Ok(())
            }
            None => Ok(()),
        }
    }

    /// Adds the items of an instance, each against that of its name, which stands at the place that
    /// is given.
    fn add_placed(
        &mut self,
        two: TwoInstances<'_>,
        places: &[Option<usize>],
    ) -> Result<(), AllocError>
        requires { (t u : Types) → places.now ≡ map (place_in (item_names u two.offered))
            (item_names t two.wanted) }
        ensures { OnOk result ((w o : Types) → map (entry_view w o) self.new.entries.items
            ≡ map (entry_view w o) self.old.entries.items
            ++ instance_entries w o two.entry) }
    {
        for (number, found) in places.iter().enumerate() {
            self.add_item(two, number, *found)?;
        }
        Ok(())
    }

    fn add_items(&mut self, alloc: Global, two: TwoInstances<'_>) -> Result<(), AllocError>
        ensures { OnOk result ((w o : Types) → map (entry_view w o) self.new.entries.items
            ≡ map (entry_view w o) self.old.entries.items
            ++ instance_entries w o two.entry) }
    {
        let known = KnownItems::new(alloc, two.offered)?;
        let places = known.places(alloc, two.wanted)?;
        self.add_placed(two, &places)
    }

    /// Adds what is wanted at a place against what is offered.
    fn add_two(
        &mut self,
        alloc: Global,
        place: usize,
        wanted: Desc<'_>,
        offered: Desc<'_>,
    ) -> Result<(), AllocError>
        ensures { OnOk result ((w o : Types) → map (entry_view w o) self.new.entries.items
            ≡ map (entry_view w o) self.old.entries.items
            ++ two_entries place (desc_in w wanted.entry) (desc_in o offered.entry)) }
    {
        match (wanted, offered) {
            (Desc::Func(f), Desc::Func(g)) => self.add_whole(place, two_funcs(f, g)),
            (Desc::Instance(wanted), Desc::Instance(offered)) => {
                let two = TwoInstances {
                    place,
                    wanted,
                    offered,
                };
                self.add_items(alloc, two)
            }
            (Desc::Func(_), Desc::Instance(_)) => self.add_whole(place, Held::Sorts),
            (Desc::Instance(_), Desc::Func(_)) => self.add_whole(place, Held::Sorts),
        }
    }

    /// Adds what is wanted at a place against what faces it.
    fn add_facing(
        &mut self,
        alloc: Global,
        place: usize,
        wanted: Desc<'_>,
        offered: &Externs,
        face: Face,
    ) -> Result<(), AllocError>
        ensures { OnOk result ((w o : Types) → map (entry_view w o) self.new.entries.items
            ≡ map (entry_view w o) self.old.entries.items
            ++ face_entries place (externs_listed o offered.now) (desc_in w wanted.entry) face) }
    {
        let at = match face {
            Face::LeftOut => return Ok(()),
            Face::Nothing => return self.add_whole(place, Held::Nothing),
            Face::Several => return self.add_whole(place, Held::Several),
            Face::One(at) => at,
        };
        match offered.at(at) {
            Some(other) => self.add_two(alloc, place, wanted, other.desc),
            None => self.add_whole(place, Held::Nothing),
        }
    }

    /// Adds what is wanted at a place, if something is, against what faces it.
    fn add_extern(
        &mut self,
        alloc: Global,
        place: usize,
        wanted: &Externs,
        offered: &Externs,
        face: Face,
    ) -> Result<(), AllocError>
        ensures { OnOk result ((w o : Types) → map (entry_view w o) self.new.entries.items
            ≡ map (entry_view w o) self.old.entries.items
            ++ entries_at w o place wanted.now offered.now face) }
    {
        match wanted.at(place) {
            Some(each) => self.add_facing(alloc, place, each.desc, offered, face),
            None => Ok(()),
        }
    }
}

/// All that is wanted, each against what faces it, in order. Refused only where there is no memory.
pub(crate) fn entries_of(
    alloc: Global,
    wanted: &Externs,
    offered: &Externs,
    faces: &[Face],
) -> Result<Vec<Entry>, AllocError>
    ensures { IfOk result (λ v. (w o : Types) (facing : List ℕ → Faced)
        → faces.now ≡ map facing (extern_names w wanted.now)
        → map (entry_view w o) v.items ≡ entries_from facing (externs_listed o offered.now) 0
        (externs_listed w wanted.now)) }
{
    let mut walk = Walk {
        entries: Vec::new(alloc),
    };
    for (place, face) in faces.iter().enumerate() {
        walk.add_extern(alloc, place, wanted, offered, *face)?;
    }
    Ok(walk.entries)
}
