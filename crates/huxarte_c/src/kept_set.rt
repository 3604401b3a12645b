//! A set that is played, as a handle keeps it.

ghost use Rattle.std.specs.Prelude.{◌≡◌, ◌⊎◌, ◌↔◌, [], false, IfErr, IfOk, OnErr, OnOk, length};
ghost use Rattle.std.specs.Result.{result_err};
ghost use Rattle.cm_live.specs.Statements.{IsNoStep};
ghost use Rattle.cm_machine_model.specs.Run.{misuse_of_begin};
ghost use Rattle.cm_machine_model.specs.State.{are_page_counts};
ghost use Rattle.cm_machine_set.specs.Running.{SetSteps};
ghost use Rattle.cm_match.specs.Linked.{set_in};
ghost use Rattle.huxarte_c.specs.PlayedSets.{IsNewPlayed, IsWritten, begun_anew};

use cm_live::{Played, Written};
use cm_machine_model::{Event, Misuse, Move};
use cm_machine_set::Set;
use cm_match::Linked;
use std::alloc::Global;
use std::marker::Model;

/// A set that is played, and what adapters wrote before its latest event.
#[derive(Drop)]
pub struct KeptSet {
    played: Played,
    written: Written,
}

impl Model for KeptSet {
    ghost use Rattle.huxarte_c.specs.PlayedSets.{PlayedSet};
    ghost use Rattle.cm_machine_set.specs.contracts.set.Set.{the_row as set_row};
    ghost use Rattle.std.specs.Coded.{codes};

    ghost Value = { PlayedSet };

    ghost coded = { Prim.hlevel (codes, set_row.coded) };

    ghost view = { λ k. record {
      set = k.played.set;
      instance = k.written.instance;
      regions = k.written.regions.items;
    } };
}

impl KeptSet {
    /// A set of what is linked, whose instances have so many pages of memory. Misuse is that of
    /// `Set::new`.
    pub(crate) fn new(alloc: Global, linked: &Linked<'_>, pages: &[u32]) -> Result<KeptSet, Misuse>
        ensures new { IfOk result (IsNewPlayed (set_in linked.now) pages.now) }
        ensures bad_pages { IfErr result (λ m. (m ≡ Misuse.BadPages)
            ↔ (are_page_counts (length (set_in linked.now).spaces) pages.now ≡ false)) }
        ensures only { IfErr result (λ m. (m ≡ Misuse.BadPages) ⊎ (m ≡ Misuse.Memory)) }
    {
        match Played::new(alloc, linked, pages) {
            Ok(played) => Ok(KeptSet {
                played,
                written: Written {
                    instance: 0,
                    regions: Vec::new(alloc),
                },
            }),
            Err(misuse) => Err(misuse),
        }
    }

    /// The set.
    pub(crate) fn set(&self) -> &Set
        ensures { result.now ≡ self.now.set }
    {
        self.played.set()
    }

    /// What adapters wrote before the latest event.
    pub(crate) fn written(&self) -> &Written
        ensures instance { result.now.instance ≡ self.now.instance }
        ensures regions { result.now.regions.items ≡ self.now.regions }
    {
        &self.written
    }

    /// Begins a root call of an instance. Misuse, which changes nothing, is that of `Set::begin`.
    pub(crate) fn begin(&mut self, instance: u32) -> Result<(), Misuse>
        ensures begun { OnOk result (self.new ≡ begun_anew self.old instance) }
        ensures misuse { result_err result ≡ misuse_of_begin self.old.set.state instance }
        ensures stays { OnErr result (self.new ≡ self.old) }
    {
        match self.played.begin(instance) {
            Ok((written, _)) => {
                self.written = written;
                Ok(())
            }
            Err(misuse) => Err(misuse),
        }
    }

    /// Makes a move of the instance that acts: its event.
    ///
    /// Misuse, which changes nothing: `Memory` where the move is a return that gives core values,
    /// and there is no memory for what it may have told; else `Idle` where no instance acts.
    pub(crate) fn step(&mut self, made: &Move) -> Result<Event, Misuse>
        ensures acts { OnOk result (self.old.set.state.stack ≡ [] → ⊥) }
        ensures steps { IfOk result (λ e. SetSteps self.old.set made.now e self.new.set) }
        ensures written { IfOk result (λ e. IsWritten self.old made.now e self.new) }
        ensures refused { IfErr result (IsNoStep self.old.set made.now) }
        ensures stays { OnErr result (self.new ≡ self.old) }
    {
        match self.played.step(made) {
            Ok((written, event)) => {
                self.written = written;
                Ok(event)
            }
            Err(misuse) => Err(misuse),
        }
    }
}
