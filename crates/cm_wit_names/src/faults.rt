//! The first fault of the names of a file.

ghost use Rattle.std.specs.Prelude.{◌≡◌, ◌↔◌, List, None, Some, IfOk, IsTrue, map};
ghost use Rattle.cm_wit_names.specs.Mentions.{Mention};
ghost use Rattle.cm_wit_names.specs.MentionViews.{mention_view};
ghost use Rattle.cm_wit_names.specs.Firsts.{Firsts, IsFirst, IsLesser};
ghost use Rattle.cm_wit_names.specs.Rules.{IsFirstFault};

use crate::names::Names;
use cm_wit_tokens::WitReason;
use std::alloc::{AllocError, Global};

/// The lesser of two places.
fn lesser(a: Option<usize>, b: Option<usize>) -> Option<usize>
    ensures { IsLesser a b result }
{
    match (a, b) {
        (Some(a), Some(b)) if b < a => Some(b),
        (None, b) => b,
        (a, _) => a,
    }
}

fn is_at(place: Option<usize>, here: usize) -> bool
    ensures { IsTrue result ↔ (place ≡ Some here) }
{
    match place {
        Some(place) => place == here,
        None => false,
    }
}

/// The first fault of all, where there is no borrow, from the first of each other reason.
#[tactic(auto, using(crate::proofs::FaultLaws::fault_laws))]
fn first_other(
    duplicate: Option<usize>,
    unknown: Option<usize>,
    cycle: Option<usize>,
) -> Option<(usize, WitReason)>
    ensures { (ms : List Mention) → Firsts ms None duplicate unknown cycle → IsFirst ms result }
{
    let rest = lesser(unknown, cycle);
    let first = lesser(duplicate, rest)?;
    if is_at(duplicate, first) {
        return Some((first, WitReason::Duplicate));
    }
    if is_at(unknown, first) {
        return Some((first, WitReason::UnknownName));
    }
    Some((first, WitReason::Cycle))
}

/// The first fault of all, from the first of each reason.
fn first_of(
    borrow: Option<usize>,
    duplicate: Option<usize>,
    unknown: Option<usize>,
    cycle: Option<usize>,
) -> Option<(usize, WitReason)>
    ensures { (ms : List Mention) → Firsts ms borrow duplicate unknown cycle → IsFirst ms result }
{
    match borrow {
        Some(place) => Some((place, WitReason::Unexpected)),
        None => first_other(duplicate, unknown, cycle),
    }
}

impl Names<'_> {
    /// The first fault of the names, by the name's number in reading order: the first name in a
    /// result that leads to a borrow (`Unexpected`); else the first name that stands in its list
    /// already (`Duplicate`), refers to what is not declared (`UnknownName`) or is that of a
    /// declaration that leads to itself (`Cycle`), in that order where they are of one name. It
    /// takes time linear in the names. Refused only where there is no memory.
    pub fn first_fault(&self, alloc: Global) -> Result<Option<(usize, WitReason)>, AllocError>
        ensures { IfOk result (IsFirstFault (map mention_view self.now.mentions.items)) }
    {
        let duplicate = self.first_duplicate(alloc)?;
        let unknown = self.first_unknown(alloc)?;
        let graph = self.graph(alloc)?;
        let borrow = self.first_borrow(alloc, &graph)?;
        let cycle = graph.first_on_cycle(alloc)?;
        Ok(first_of(borrow, duplicate, unknown, cycle))
    }
}
