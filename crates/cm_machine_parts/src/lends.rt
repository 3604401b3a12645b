//! The handles that are lent.

ghost use Rattle.std.specs.Prelude.{◌≡◌, ◌+◌, ◌<◌, ◌≤◌, ◌++◌, ℕ, [], OnErr, OnOk, Some, length};
ghost use Rattle.std.specs.Prelude.{slice_get, take, vec_capacity, vec_len};
ghost use Rattle.cm_machine_model.specs.declared.frame.Lend.{Lend};
ghost use Rattle.cm_machine_model.specs.State.{lends_to};
ghost use Rattle.cm_machine_parts.specs.Lends.{NeverFall, NoneAbove};

use cm_machine_model::state::Lend;
use std::alloc::{AllocError, Global};
use std::marker::Model;

/// The handles that are lent, the oldest first: those to a later call stand behind those to an
/// earlier one.
#[derive(Drop)]
pub struct Lends {
    lends: Vec<Lend>,
}

impl Model for Lends {
    ghost use Rattle.std.specs.Prelude.{List};
    ghost use Rattle.cm_machine_model.specs.declared.frame.Lend.{Lend};
    ghost use Rattle.cm_machine_parts.specs.Lends.{NeverFall};

    ghost Value = { List Lend };

    ghost view = { λ l. l.lends.items };

    ghost invariant = { λ l. NeverFall l.lends.items };
}

impl Lends {
    /// No lends. It takes no memory before the first one is added, and then from `alloc`.
    pub fn new(alloc: Global) -> Lends
        ensures { result ≡ [] }
    {
        Lends {
            lends: Vec::new(alloc),
        }
    }

    /// The lends, the oldest first.
    pub fn as_slice(&self) -> &[Lend]
        ensures { result.now ≡ self.now }
    {
        &self.lends
    }

    /// Lends handles of an instance, at these indices of its table, to the call whose frame has
    /// this place; no lend is to a call above it. Room is made first: a refusal changes nothing.
    pub fn add(&mut self, frame: u32, instance: u32, indices: &[u32]) -> Result<(), AllocError>
        requires { NoneAbove frame self.old }
        ensures ok { OnOk result (self.new ≡ self.old ++ lends_to frame instance indices.now) }
        ensures err { OnErr result (self.new ≡ self.old) }
    {
        self.lends.reserve(indices.len())?;
        add_to(&mut self.lends, frame, instance, indices);
        Ok(())
    }

    /// The place in the list of the first lend to the call whose frame has this place, or the
    /// length; no lend is to a call above it.
    pub fn first_to(&self, frame: u32) -> usize
        requires { NoneAbove frame self.now }
        ensures within { result ≤ length self.now }
        ensures before { (k : ℕ) (l : Lend) → k < result → slice_get self.now k ≡ Some l
            → l.frame < frame }
        ensures behind { (k : ℕ) (l : Lend) → result ≤ k → slice_get self.now k ≡ Some l
            → l.frame ≡ frame }
    {
        first_to(&self.lends, frame)
    }

    /// Ends all lends but so many of the oldest.
    pub fn truncate(&mut self, count: usize)
        ensures { self.new ≡ take count self.old }
    {
        self.lends.truncate(count);
    }
}

/// The place of the first of these lends that is to the call whose frame has this place, or the
/// length.
fn first_to(lends: &[Lend], frame: u32) -> usize
    requires order { NeverFall lends.now }
    requires above { NoneAbove frame lends.now }
    ensures within { result ≤ length lends.now }
    ensures before { (k : ℕ) (l : Lend) → k < result → slice_get lends.now k ≡ Some l
        → l.frame < frame }
    ensures behind { (k : ℕ) (l : Lend) → result ≤ k → slice_get lends.now k ≡ Some l
        → l.frame ≡ frame }
{
    let mut first = lends.len();
    while first > 0 {
        if lends[first - 1].frame != frame {
            return first;
        }
        first -= 1;
    }
    0
}

/// Adds lends of handles of an instance to the call of a frame, for which there is room.
fn add_to(lends: &mut Vec<Lend>, frame: u32, instance: u32, indices: &[u32])
    requires { vec_len lends.old + length indices.now ≤ vec_capacity lends.old }
    ensures { lends.new.items ≡ lends.old.items ++ lends_to frame instance indices.now }
{
    for index in indices {
        lends.push_reserved(Lend {
            frame,
            instance,
            index: *index,
        });
    }
}
