//! All that is compared, in order.

ghost use Rattle.std.specs.Prelude.{◌≡◌, ◌++◌, ◌∷◌, [], List, OnOk, length, map};
ghost use Rattle.cm_types_arena.specs.declared.types.Types.{Types};
ghost use Rattle.cm_wit_conforms.specs.Comparisons as all;
ghost use Rattle.cm_wit_conforms.specs.Comparisons.{Entry};
ghost use Rattle.cm_wit_conforms.specs.Pairs.{HaveBoth};
ghost use Rattle.cm_wit_conforms.specs.Views.{comparison_of, entry_of};
ghost use Rattle.cm_wit_conforms.specs.Walks.{IsJudged, IsKnownBy, facing_entries};
ghost use Rattle.cm_wit_conforms.specs.Known.{AreMet};
ghost use Rattle.cm_wit_conforms.specs.Places.{item_names, place_in};

use crate::comparisons::{Comparison, PlacedComparison};
use crate::facing::{Facing, compared_at};
use crate::fault::{ConformItem, ConformList};
use crate::judged::Judged;
use crate::known::{KnownItems, Meeting};
use crate::pairs::BothPairs;
use std::alloc::{AllocError, Global};

/// Judges the items of an instance, each against the other of its name, until one finds nothing.
fn judge_met(
    judged: &mut Judged,
    facing: Facing<'_>,
    meeting: &Meeting<'_>,
) -> Result<(), AllocError>
    requires { (t u : Types) → AreMet (item_names t facing.items)
        (item_names u facing.others) meeting.now }
    ensures { OnOk result ((h w : Types) (es : List Entry) → IsJudged h w es judged.old
        → IsJudged h w (es ++ facing_entries h w facing.entry) judged.new) }
{
    for number in 0..facing.items.len() {
        if !judged.found {
            return Ok(());
        }
        if let Some(each) = compared_at(facing, number, meeting.at(number)) {
            judged.add(each)?;
        }
    }
    Ok(())
}

/// Takes note of the pairs that the items of an instance make, which are counted from `count` on.
/// Only those of which the other instance has one can make any.
fn note_met(
    pairs: &mut BothPairs,
    count: usize,
    facing: Facing<'_>,
    meeting: &Meeting<'_>,
) -> Result<(), AllocError>
    requires { (t u : Types) → AreMet (item_names t facing.items) (item_names u facing.others)
        meeting.now }
    ensures { OnOk result ((h w : Types) (es : List Entry) → count ≡ length es
        → HaveBoth es pairs.old → HaveBoth (es ++ facing_entries h w facing.entry) pairs.new) }
{
    for place in meeting.places() {
        if let Some(each) = compared_at(facing, *place, meeting.at(*place)) {
            let number = count.checked_add(*place).ok_or(AllocError)?;
            pairs.note(each.what, number)?;
        }
    }
    Ok(())
}

/// What is kept of all that is compared: what is judged of it, the pairs of resources, and how many
/// comparisons there are. Comparisons are refused where there is no memory, or where they are 2^64.
#[derive(Drop)]
pub(crate) struct Walk {
    pub(crate) judged: Judged,
    pub(crate) pairs: BothPairs,
    count: usize,
}

impl Walk {
    ghost use Rattle.cm_wit_conforms.specs.Walks.{IsWalked};

    /// Nothing is compared yet.
    pub(crate) fn new(alloc: Global) -> Walk
        ensures { (h w : Types) → IsWalked h w [] result }
    {
        Walk {
            judged: Judged::new(alloc),
            pairs: BothPairs::new(alloc),
            count: 0,
        }
    }

    /// Adds a comparison.
    fn add(&mut self, each: PlacedComparison) -> Result<(), AllocError>
        ensures { OnOk result ((h w : Types) (es : List Entry) → IsWalked h w es self.old
            → IsWalked h w (es ++ entry_of h w each ∷ []) self.new) }
    {
        let count = self.count.checked_add(1).ok_or(AllocError)?;
        self.judged.add(each)?;
        self.pairs.note(each.what, self.count)?;
        self.count = count;
        Ok(())
    }

    /// Adds an import or export as a whole.
    pub(crate) fn add_whole(
        &mut self,
        list: ConformList,
        place: usize,
        what: Comparison,
    ) -> Result<(), AllocError>
        ensures { OnOk result ((h w : Types) (es : List Entry) → IsWalked h w es self.old
            → IsWalked h w (es ++ all.whole list place (comparison_of h w what)) self.new) }
    {
        let item = ConformItem {
            list,
            place,
            item: None,
        };
        self.add(PlacedComparison { item, what })
    }

    /// Adds the items of an instance of the world's, each against that of its name, which stands at
    /// the place that is given.
    fn add_placed(&mut self, facing: Facing<'_>, places: &[Option<usize>]) -> Result<(), AllocError>
        requires { (t u : Types) → places.now ≡ map (place_in
            (item_names u facing.others)) (item_names t facing.items) }
        ensures { OnOk result ((h w : Types) (es : List Entry) → IsWalked h w es self.old
            → IsWalked h w (es ++ facing_entries h w facing.entry) self.new) }
    {
        for (number, found) in places.iter().enumerate() {
            if let Some(each) = compared_at(facing, number, *found) {
                self.add(each)?;
            }
        }
        Ok(())
    }

    /// Adds the items of an instance of the signature's, of which those are gone through alone that
    /// are judged, and those of which the world has one.
    fn add_met(&mut self, facing: Facing<'_>, meeting: &Meeting<'_>) -> Result<(), AllocError>
        requires { (t u : Types) → AreMet (item_names t facing.items)
            (item_names u facing.others) meeting.now }
        ensures { OnOk result ((h w : Types) (es : List Entry) → IsWalked h w es self.old
            → IsWalked h w (es ++ facing_entries h w facing.entry) self.new) }
    {
        let count = self
            .count
            .checked_add(facing.items.len())
            .ok_or(AllocError)?;
        judge_met(&mut self.judged, facing, meeting)?;
        note_met(&mut self.pairs, self.count, facing, meeting)?;
        self.count = count;
        Ok(())
    }

    /// Adds the items of an instance against those of another, where those of the signature's are
    /// known.
    pub(crate) fn add_items(
        &mut self,
        alloc: Global,
        facing: Facing<'_>,
        known: &KnownItems<'_>,
    ) -> Result<(), AllocError>
        requires { IsKnownBy facing known.now }
        ensures { OnOk result ((h w : Types) (es : List Entry) → IsWalked h w es self.old
            → IsWalked h w (es ++ facing_entries h w facing.entry) self.new) }
    {
        match facing.list {
            ConformList::WorldExports => {
                let places = known.places(alloc, facing.items)?;
                self.add_placed(facing, &places)
            }
            ConformList::HaveImports => {
                let meeting = known.meet(alloc, facing.others)?;
                self.add_met(facing, &meeting)
            }
        }
    }
}
