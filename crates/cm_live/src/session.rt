//! A linked set that is played statement by statement.

ghost use Rattle.std.specs.Prelude.{◌≡◌, [], IfErr, IfOk, OnErr, slice_get};
ghost use Rattle.std.specs.Option.{option_copied, option_map};
ghost use Rattle.cm_machine.specs.cm_machine_model.declared.event.Event.TheVariants as event;
ghost use Rattle.cm_machine.specs.cm_machine_model.declared.moves.Move.{Move as Made};
ghost use Rattle.cm_machine.specs.cm_machine_model.History.{begins, moves};
ghost use Rattle.cm_machine.specs.cm_machine_model.Stack.{actor, top_of};
ghost use Rattle.cm_machine.specs.cm_machine_set.Running.{GoesOnFrom, IsNew, RunningSet};
ghost use Rattle.cm_machine.specs.cm_machine_laws.MemoryChanges.{SameMemories};
ghost use Rattle.cm_machine.specs.cm_match.Linked.{set_in};
ghost use Rattle.cm_live.specs.Mirrors.{KeepsMirrors, TellsNothing, TellsWhose};
ghost use Rattle.cm_live.specs.Sessions.{linked_of, set_of};
ghost use Rattle.cm_live.specs.Statements.{Does, IsNoStep, IsOfNoMove, IsOfNoRoot, IsOfNoSet};
ghost use Rattle.cm_live.specs.Statements.{IsRefusedFor, TellsOf};

use crate::answer::Answer;
use crate::fault::LiveFault;
use crate::played::Played;
use cm_machine::{Linked, Misuse, Move, Set};
use cm_tool_script::Statement;
use std::alloc::Global;

/// A linked set that is played.
#[derive(Drop)]
pub struct Session<'c, 'a> {
    alloc: Global,
    linked: &'c Linked<'a>,
    played: Played,
}

/// Why a move is not made.
fn fault_of(misuse: Misuse) -> LiveFault
    ensures { (s : RunningSet) (m : Made) → IsNoStep s m misuse → IsOfNoMove s result }
{
    match misuse {
        Misuse::Memory => LiveFault::Memory,
        Misuse::Idle => LiveFault::Misuse(Misuse::Idle),
        Misuse::Busy | Misuse::Closed | Misuse::NoInstance | Misuse::BadPages => {
            LiveFault::Misuse(misuse)
        }
    }
}

impl<'c, 'a> Session<'c, 'a> {
    /// A set of what is linked, whose instances have so many pages of memory.
    ///
    /// Misuse: that of `Set::new`.
    pub fn new(
        alloc: Global,
        linked: &'c Linked<'a>,
        pages: &[u32],
    ) -> Result<Session<'c, 'a>, Misuse>
        ensures new { IfOk result (λ s. IsNew (set_in linked.now) pages.now (set_of s)) }
        ensures linked { IfOk result (λ s. linked_of s ≡ set_in linked.now) }
    {
        let played = Played::new(alloc, linked, pages)?;
        Ok(Session {
            alloc,
            linked,
            played,
        })
    }

    /// The instance whose move is next, or `None` where no call is on the stack.
    pub fn acting(&self) -> Option<u32>
        ensures { result ≡ option_map actor (top_of (set_of self.now).state.stack) }
    {
        self.played.acting()
    }

    /// The set that is played.
    pub(crate) fn set(&self) -> &Set
        ensures { result.now ≡ set_of self.now }
    {
        self.played.set()
    }

    /// The bytes of an instance's memory, or `None` where there is no such instance.
    pub fn memory(&self, instance: u32) -> Option<&[u8]>
        ensures { option_copied result ≡ slice_get (set_of self.now).state.memories instance }
    {
        self.played.set().memory(instance)
    }

    /// Does what a statement says: `pages` makes a set in the place of this one, `begin` begins a
    /// root call, and a move is of the instance that acts.
    ///
    /// `Guest` comes for a `guest`; `Misuse` as `Set::new`, `begin` and `step` say; `Memory` where
    /// there is none for what the event tells. The set is then unchanged.
    pub fn act(&mut self, statement: &Statement) -> Result<Answer, LiveFault>
        ensures does { IfOk result (λ a.
            Does (linked_of self.old) (set_of self.old) statement.now a (set_of self.new)) }
        // Beside its own moves, what a client is told is of all memories that change.
        ensures memories { IfOk result (λ a.
            KeepsMirrors (set_of self.old) statement.now a (set_of self.new)) }
        ensures refused { IfErr result (λ f.
            IsRefusedFor (set_of self.old) statement.now f) }
        ensures stays { OnErr result (set_of self.new ≡ set_of self.old) }
        ensures linked { linked_of self.new ≡ linked_of self.old }
    {
        match statement {
            Statement::Pages(pages) => self.start(pages),
            Statement::Guest(_) => Err(LiveFault::Guest),
            Statement::Begin(root) => self.begin(*root),
            Statement::Move(made) => self.step(made),
        }
    }

    /// Begins anew, with a set of so many pages of memory.
    fn start(&mut self, pages: &[u32]) -> Result<Answer, LiveFault>
        ensures new { IfOk result (λ a. (a ≡ Answer.Ready)
            × IsNew (linked_of self.old) pages.now (set_of self.new)) }
        ensures refused { IfErr result (λ f. IsOfNoSet f) }
        ensures stays { OnErr result (set_of self.new ≡ set_of self.old) }
        ensures linked { linked_of self.new ≡ linked_of self.old }
    {
        match Played::new(self.alloc, self.linked, pages) {
            Ok(played) => {
                self.played = played;
                Ok(Answer::Ready)
            }
            Err(misuse) => Err(LiveFault::Misuse(misuse)),
        }
    }

    /// Begins a root call.
    fn begin(&mut self, root: u32) -> Result<Answer, LiveFault>
        ensures begins { IfOk result (λ a. TellsOf a (λ e. (e ≡ event.Resume root [])
            × GoesOnFrom (set_of self.old) (begins root) e (set_of self.new))) }
        ensures memories { IfOk result (λ a.
            SameMemories (set_of self.old).state (set_of self.new).state × TellsNothing a) }
        ensures refused { IfErr result (λ f. IsOfNoRoot (set_of self.old) root f) }
        ensures stays { OnErr result (set_of self.new ≡ set_of self.old) }
        ensures linked { linked_of self.new ≡ linked_of self.old }
    {
        match self.played.begin(root) {
            Ok((written, event)) => Ok(Answer::Told { written, event }),
            Err(misuse) => Err(LiveFault::Misuse(misuse)),
        }
    }

    /// Makes a move of the instance that acts.
    fn step(&mut self, made: &Move) -> Result<Answer, LiveFault>
        ensures moves { IfOk result (λ a. TellsOf a (λ e.
            GoesOnFrom (set_of self.old) (moves made.now) e (set_of self.new))) }
        ensures memories { IfOk result (λ a.
            TellsWhose (set_of self.old) made.now a (set_of self.new)) }
        ensures refused { IfErr result (λ f. IsOfNoMove (set_of self.old) f) }
        ensures stays { OnErr result (set_of self.new ≡ set_of self.old) }
        ensures linked { linked_of self.new ≡ linked_of self.old }
    {
        match self.played.step(made) {
            Ok((written, event)) => Ok(Answer::Told { written, event }),
            Err(misuse) => Err(fault_of(misuse)),
        }
    }
}
