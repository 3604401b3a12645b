//! A set that is played move by move, and what goes on in it.

ghost use Rattle.std.specs.Prelude.{◌≡◌, ◌⊎◌, ◌↔◌, [], false, IfErr, IfOk, OnErr, OnOk};
ghost use Rattle.std.specs.Prelude.{length};
ghost use Rattle.std.specs.Option.{option_map};
ghost use Rattle.std.specs.Result.{result_err};
ghost use Rattle.cm_machine.specs.cm_machine_model.declared.event.Event.TheVariants as event;
ghost use Rattle.cm_machine.specs.cm_machine_model.History.{begins};
ghost use Rattle.cm_machine.specs.cm_machine_model.Run.{misuse_of_begin};
ghost use Rattle.cm_machine.specs.cm_machine_model.Stack.{actor, top_of};
ghost use Rattle.cm_machine.specs.cm_machine_model.State.{are_page_counts};
ghost use Rattle.cm_machine.specs.cm_machine_set.Running.{GoesOnFrom, IsNew, SetSteps, begun};
ghost use Rattle.cm_machine.specs.cm_machine_laws.MemoryChanges.{SameMemories};
ghost use Rattle.cm_machine.specs.cm_match.Linked.{set_in};
ghost use Rattle.cm_live.specs.Mirrors.{Tells};
ghost use Rattle.cm_live.specs.Played.{IsPlayed};
ghost use Rattle.cm_live.specs.Statements.{IsNoStep};

use crate::answer::Written;
use crate::goings_on::{Call, GoingsOn};
use crate::results::wanted_by;
use cm_abi_model::laws::denotations_are_unique;
use cm_machine::laws::headline;
use cm_machine::{Event, Linked, Misuse, Move, Set};
use std::alloc::Global;

/// A set that is played, and what goes on in it by moves and events: each event comes with what
/// adapters wrote before it. It keeps nothing of what it was linked from.
#[derive(Drop)]
pub struct Played {
    set: Set,
    going: GoingsOn,
    ghost played: { ∥ IsPlayed set going ∥₁ },
}

impl Played {
    /// A set of what is linked, whose instances have so many pages of memory.
    ///
    /// Misuse: that of `Set::new`.
    pub fn new(alloc: Global, linked: &Linked<'_>, pages: &[u32]) -> Result<Played, Misuse>
        ensures new { IfOk result (λ p. IsNew (set_in linked.now) pages.now p.set) }
        ensures bad_pages { IfErr result (λ m. (m ≡ Misuse.BadPages)
            ↔ (are_page_counts (length (set_in linked.now).spaces) pages.now ≡ false)) }
        ensures only { IfErr result (λ m. (m ≡ Misuse.BadPages) ⊎ (m ≡ Misuse.Memory)) }
    {
        match Set::new(alloc, linked, pages) {
            Ok(set) => Ok(Played {
                set,
                going: GoingsOn::new(alloc),
            }),
            Err(misuse) => Err(misuse),
        }
    }

    /// The set.
    pub fn set(&self) -> &Set
        ensures { result.now ≡ self.now.set }
    {
        &self.set
    }

    /// The instance whose move is next, or `None` where no call is on the stack.
    pub fn acting(&self) -> Option<u32>
        ensures { result ≡ option_map actor (top_of self.now.set.state.stack) }
    {
        self.set.acting()
    }

    /// Begins a root call of an instance: its event, and that adapters wrote nothing.
    ///
    /// Misuse, which changes nothing, is that of `Set::begin`.
    pub fn begin(&mut self, root: u32) -> Result<(Written, Event), Misuse>
        ensures event { IfOk result (λ t. t.1 ≡ event.Resume root []) }
        ensures nothing { IfOk result (λ t.
            (t.0.instance ≡ root) × (t.0.regions.items ≡ [])) }
        ensures begun { OnOk result (self.new.set ≡ begun self.old.set root) }
        ensures history { IfOk result (λ t.
            GoesOnFrom self.old.set (begins root) t.1 self.new.set) }
        ensures memories { OnOk result (SameMemories self.old.set.state self.new.set.state) }
        ensures misuse { result_err result ≡ misuse_of_begin self.old.set.state root }
        ensures stays { OnErr result (self.new.set ≡ self.old.set) }
    {
        headline();
        denotations_are_unique();
        match self.set.begin(root) {
            Ok(event) => {
                let written = self.going.nothing_in(root);
                Ok((written, event))
            }
            Err(misuse) => Err(misuse),
        }
    }

    /// Makes a move of the instance that acts: what adapters wrote, and the event.
    ///
    /// Misuse: `Memory` where the move is a return that gives core values, and there is no memory
    /// for the list of what it may have told; else `Idle` where no call is on the stack. The set is
    /// then unchanged.
    pub fn step(&mut self, made: &Move) -> Result<(Written, Event), Misuse>
        ensures acts { OnOk result (self.old.set.state.stack ≡ [] → ⊥) }
        ensures steps { IfOk result (λ t. SetSteps self.old.set made.now t.1 self.new.set) }
        // Beside the moving instance's own write or growth, what is told is of all memories that
        // change.
        ensures told { IfOk result (λ t. Tells self.old.set made.now t.0 t.1 self.new.set) }
        ensures refused { IfErr result (IsNoStep self.old.set made.now) }
        ensures stays { OnErr result (self.new.set ≡ self.old.set) }
    {
        headline();
        denotations_are_unique();
        let actor = self.set.acting().unwrap_or(0);
        let Ok(()) = self.going.make_room(made) else {
            return Err(Misuse::Memory);
        };
        let call = Call {
            caller: actor,
            result: wanted_by(self.set.links(), actor, made),
        };
        match self.set.step(made) {
            Ok(event) => {
                let written = self.going.go_on(call, made, &event);
                Ok((written, event))
            }
            Err(misuse) => Err(misuse),
        }
    }
}
