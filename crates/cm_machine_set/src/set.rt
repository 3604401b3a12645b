//! The running set: its steps, and whole runs.

ghost use Rattle.std.specs.Prelude.{◌≡◌, ◌<◌, ◌≤◌, ◌↔◌, ◌⊎◌, List, [], ◌∷◌, length, slice_get};
ghost use Rattle.std.specs.Prelude.{IfErr, IfOk, IsErrOf, Ok, OnErr, OnOk, Option, Some, None, ℕ};
ghost use Rattle.std.specs.Prelude.{◌==◌, false, filter, true, vec_capacity};
ghost use Rattle.std.specs.Option.{option_copied, option_map};
ghost use Rattle.std.specs.Result.{result_err};
ghost use Rattle.cm_machine_model.specs.declared.event.Event.TheVariants as event;
ghost use Rattle.cm_machine_model.specs.declared.event.Trap.{Trap};
ghost use Rattle.cm_abi_model.specs.Bytes.{AreBytes};
ghost use Rattle.cm_abi_model.specs.HandleLeaves.{leaves_of, owned_in};
ghost use Rattle.cm_machine_model.specs.History.{WritesBytes, begins, moves};
ghost use Rattle.cm_machine_model.specs.Plan.{Plan};
ghost use Rattle.cm_machine_model.specs.Events.{is_last};
ghost use Rattle.cm_machine_model.specs.Run.{Run, after_begin, misuse_of_begin};
ghost use Rattle.cm_machine_model.specs.Stack.{actor, top_of};
ghost use Rattle.cm_machine_model.specs.State.{are_page_counts};
ghost use Rattle.cm_machine_model.specs.Step.{Step};
ghost use Rattle.cm_machine_model.specs.Valid.{IsValidState};
ghost use Rattle.cm_machine_model.specs.Work.{IsKeptOf, work_of};
ghost use Rattle.cm_machine_links.specs.Planned.{ArePlanned};
ghost use Rattle.cm_machine_parts.specs.Kept.{Runs};
ghost use Rattle.cm_machine_parts.specs.Rows.{event_of};
ghost use Rattle.cm_machine_parts.specs.States.{state_of};
ghost use Rattle.cm_match.specs.Linked.{set_in};
ghost use Rattle.cm_machine_set.specs.Running.{GoesOnFrom, IsNew, begun, is_owned};

use crate::advance::advance;
use arrayvec::ArrayVec;
use cm_abi_model::HandleLeaf;
use cm_handles::Table;
use cm_machine_laws::valid_laws::{histories_are_valid, machine_starts_valid, machine_stays_valid};
use cm_machine_links::{Links, links_of};
use cm_machine_model::state::{Frame, Lend, Place, Purpose, Work};
use cm_machine_model::{Event, Flat, MAX_INSTANCES, Misuse, Move};
use cm_machine_parts::laws::{frames_have_instances, what_is_kept_stays};
use cm_machine_parts::{Outcome, State, actor, close_all};
use cm_machine_resources::{are_page_counts, fresh_state};
use cm_match::Linked;
use std::alloc::{AllocError, Global};
use std::marker::Model;

/// A linked set that runs: what each core function of its instances stands for, and its state.
#[derive(Drop)]
pub struct Set {
    alloc: Global,
    links: Links,
    state: State,
}

impl Model for Set {
    ghost use Rattle.cm_machine_set.specs.Running.{RunningSet};
    ghost use Rattle.cm_machine_links.specs.contracts.links.Links as e;
    ghost use Rattle.std.specs.Coded.{codes};

    ghost Value = { RunningSet };

    ghost coded = { Prim.hlevel (codes, e.the_row.coded) };

    ghost use Rattle.cm_machine_model.specs.Plan.{Plan};
    ghost use Rattle.cm_machine_links.specs.Planned.{ArePlanned};
    ghost use Rattle.cm_machine_parts.specs.Kept.{Runs};
    ghost use Rattle.cm_machine_parts.specs.States.{state_of};

    ghost view = { λ s. record {
      links = s.links;
      state = state_of s.state;
      kept = s.state.passing.scan;
    } };

    ghost invariant = { λ s. (plan : Plan) × ArePlanned plan s.links × Runs plan s.state };
}

/// Whether a handle of a value is to be owned.
fn is_owned(handle: &HandleLeaf) -> bool
    ensures { result ≡ is_owned handle.now }
{
    matches!(handle, HandleLeaf::Owned(_))
}

/// How many of these handles are to be owned.
fn count_owned(handles: &[HandleLeaf]) -> usize
    ensures { result ≡ length (filter (λ h. is_owned h) handles.now) }
{
    handles.iter().filter(|handle| is_owned(handle)).count()
}

/// The same, by the handles of the value that they are.
fn owned_count(handles: &[HandleLeaf]) -> usize
    ensures { result ≡ length (owned_in (leaves_of handles.now)) }
{
    count_owned(handles)
}

/// What is kept in a set's lists is what is on its way.
fn what_is_kept(state: &State)
    ensures { IsKeptOf (state_of state.now).passage state.now.passing.scan }
{
    let _value = state.passing.scan.has_value();
}

/// How many of these lends are to the call at a place of the stack.
fn lend_count(lends: &[Lend], place: usize) -> usize
    ensures { result ≡ length (filter (λ l. l.frame == place) lends.now) }
{
    lends
        .iter()
        .filter(|lend| lend.frame as usize == place)
        .count()
}

/// What a linked set is made of before anything ran.
fn set_of(alloc: Global, linked: &Linked<'_>, pages: &[u32]) -> Result<Set, AllocError>
    requires { are_page_counts (length (set_in linked.now).spaces) pages.now ≡ true }
    ensures { IfOk result (λ s. IsNew (set_in linked.now) pages.now s) }
{
    machine_starts_valid();
    let links = links_of(alloc, linked)?;
    let state = fresh_state(alloc, linked.components().len(), pages)?;
    Ok(Set {
        alloc,
        links,
        state,
    })
}

/// Puts the frame of a root on the empty stack.
fn begin_root(state: &mut State, instance: u32)
    requires runs { (plan : Plan) × Runs plan state.old }
    requires empty { state.old.stack.frames ≡ [] }
    requires opened { slice_get state.old.closed.items instance ≡ Some false }
    ensures begun { state_of state.new ≡ after_begin (state_of state.old) instance }
    ensures kept { state.new.passing ≡ state.old.passing }
    ensures runs { (plan : Plan) → Runs plan state.old → Runs plan state.new }
{
    machine_starts_valid();
    frames_have_instances();
    what_is_kept_stays();
    // Read first, so that the check knows how many numbers of borrows there are.
    let _ = state.stack.len();
    state.stack.push(Frame {
        instance,
        purpose: Purpose::Root,
    });
}

/// What a move holds is what its type says: a move writes bytes.
fn moves_write_bytes(made: &Move)
    ensures { WritesBytes made.now }
{
    match made {
        Move::Write { bytes, .. } => are_bytes(bytes),
        Move::Grow { .. } | Move::Call { .. } | Move::Return { .. } | Move::Unreachable => {}
    }
}

/// Bytes are numbers below 256.
fn are_bytes(bytes: &[u8])
    ensures { AreBytes bytes.now }
{}

/// One move of the instance that acts while this frame is on top. A trap empties the stack.
fn step_at(
    alloc: Global,
    links: &Links,
    state: &mut State,
    top: &Frame,
    made: &Move,
    values: &mut Flat,
) -> Outcome
    requires runs { (plan : Plan) × ArePlanned plan links.now × Runs plan state.old }
    requires top { top_of state.old.stack.frames ≡ Some top.now }
    requires bytes { WritesBytes made.now }
    ensures step { (plan : Plan) → ArePlanned plan links.now → Runs plan state.old
        → Step plan (state_of state.old) made.now (event_of result values.new)
        (state_of state.new) }
    ensures runs { (plan : Plan) → ArePlanned plan links.now → Runs plan state.old
        → Runs plan state.new }
    ensures goes_on { is_last (event_of result values.new) ≡ false
        → 0 < length state.new.stack.frames }
    ensures none { (t : Trap) → result ≡ Outcome.Trapped t → values.new ≡ [] }
{
    machine_stays_valid();
    match advance(alloc, links, state, top, made, values) {
        Ok(outcome) => {
            forget_behind_trap(outcome, values);
            outcome
        }
        Err(trap) => {
            close_all(state);
            values.clear();
            Outcome::Trapped(trap)
        }
    }
}

/// Behind a trap there are no core values.
fn forget_behind_trap(outcome: Outcome, values: &mut Flat)
    ensures event { event_of outcome values.new ≡ event_of outcome values.old }
    ensures none { (t : Trap) → outcome ≡ Outcome.Trapped t → values.new ≡ [] }
{
    if let Outcome::Trapped(_) = outcome {
        values.clear();
    }
}

/// The event of an outcome, with these core values. Each is made in the place of the answer.
#[inline(always)]
fn event(outcome: Outcome, values: Flat) -> Result<Event, Misuse>
    ensures { result ≡ Ok (event_of outcome values) }
{
    match outcome {
        Outcome::Done => Ok(Event::Done),
        Outcome::Grown(pages) => Ok(Event::Grown(pages)),
        Outcome::Enter { instance, func } => Ok(Event::Enter {
            instance,
            func,
            args: values,
        }),
        Outcome::Realloc { instance, func } => Ok(Event::Realloc {
            instance,
            func,
            args: values,
        }),
        Outcome::Resume { instance } => Ok(Event::Resume { instance, values }),
        Outcome::PostReturn { instance, func } => Ok(Event::PostReturn {
            instance,
            func,
            args: values,
        }),
        Outcome::Dtor {
            instance,
            func,
            rep,
        } => Ok(Event::Dtor {
            instance,
            func,
            rep,
        }),
        Outcome::Trapped(trap) => Ok(Event::Trapped(trap)),
        Outcome::Ended => Ok(Event::Ended),
    }
}

impl Set {
    /// A linked set that can run: each instance has so many pages of zeros, in the order of the
    /// components, and an empty handle table; no frame stands. The set keeps nothing of what it was
    /// linked from. Room for `MAX_FRAMES` frames, and what a step needs of types, is made here.
    ///
    /// Misuse: `BadPages` where there is not one number for each component, or one is above
    /// `MAX_PAGES`; else `Memory` where there is no room for the set.
    pub fn new(alloc: Global, linked: &Linked<'_>, pages: &[u32]) -> Result<Set, Misuse>
        // What happens to the set from here on is a history of what was linked: so far nothing.
        ensures history { IfOk result (λ s. IsNew (set_in linked.now) pages.now s) }
        ensures bad_pages { IsErrOf result Misuse.BadPages
            ↔ (are_page_counts (length (set_in linked.now).spaces) pages.now ≡ false) }
        ensures only { IfErr result (λ m. (m ≡ Misuse.BadPages) ⊎ (m ≡ Misuse.Memory)) }
    {
        if !are_page_counts(linked.components().len(), pages) {
            return Err(Misuse::BadPages);
        }
        match set_of(alloc, linked, pages) {
            Ok(set) => Ok(set),
            Err(AllocError) => Err(Misuse::Memory),
        }
    }

    /// The instance whose move is next, or `None` where the stack is empty.
    pub fn acting(&self) -> Option<u32>
        ensures { result ≡ option_map actor (top_of self.now.state.stack) }
    {
        let top = self.state.stack.top()?;
        Some(actor(&top))
    }

    /// The bytes of an instance's memory, or `None` where there is no such instance.
    pub fn memory(&self, instance: u32) -> Option<&[u8]>
        ensures { option_copied result ≡ slice_get self.now.state.memories instance }
    {
        self.state.memories.get(instance as usize)
    }

    /// The handles of an instance, or `None` where there is no such instance.
    pub fn table(&self, instance: u32) -> Option<&Table>
        ensures { option_map (λ t. t.now.handles) result
            ≡ slice_get self.now.state.tables instance }
    {
        self.state.tables.get(instance as usize)
    }

    /// What each core function of each instance stands for.
    pub fn links(&self) -> &Links
        ensures { result.now ≡ self.now.links }
    {
        &self.links
    }

    /// Whether a trap has closed an instance, or `None` where there is no such instance.
    pub fn is_closed(&self, instance: u32) -> Option<bool>
        ensures { result ≡ slice_get self.now.state.closed instance }
    {
        self.state.closed.get(instance as usize).copied()
    }

    /// For each instance, in the order of the components, whether a trap has closed it. Takes no
    /// memory.
    pub fn closed_flags(&self) -> ArrayVec<bool, MAX_INSTANCES>
        ensures { result.items ≡ self.now.state.closed }
    {
        let closed = &self.state.closed;
        let mut flags = ArrayVec::new();
        for flag in closed {
            flags.push(*flag);
        }
        flags
    }

    /// Where the resource with this serial number is, or `None` where none was made with it.
    pub fn place(&self, serial: u64) -> Option<Place>
        ensures { result ≡ slice_get self.now.state.owners serial }
    {
        self.state.owners.get(serial as usize).copied()
    }

    /// How much is kept of the topmost call: records of parts and resources of the value on its
    /// way, and handles that are lent; all 0 where there is none. These are the lengths of the
    /// lists that are kept. Takes no memory.
    pub fn work(&self) -> Work
        ensures work { result ≡ work_of self.now.state }
        ensures records { result.records ≡ length self.now.kept.parts.records }
        ensures handles { result.handles ≡ length (owned_in self.now.kept.handles) }
    {
        what_is_kept(&self.state);
        let passing = &self.state.passing;
        let records = passing.scan.records().len();
        let handles = owned_count(passing.scan.handles());
        let lends = match self.state.stack.top_call() {
            Some(place) => lend_count(self.state.lends.as_slice(), place),
            None => 0,
        };
        Work {
            records,
            handles,
            lends,
        }
    }

    /// Begins a root call of an instance: puts its frame on the empty stack. Takes no memory.
    ///
    /// Misuse: `Busy` where the stack is not empty, else `Closed` where the instance is closed,
    /// else `NoInstance` where there is none. The state is then unchanged.
    pub fn begin(&mut self, instance: u32) -> Result<Event, Misuse>
        ensures event { IfOk result (λ e. e ≡ event.Resume instance []) }
        ensures begins { OnOk result (self.new ≡ begun self.old instance) }
        ensures history { IfOk result (λ e. GoesOnFrom self.old (begins instance) e self.new) }
        ensures misuse { result_err result ≡ misuse_of_begin self.old.state instance }
        ensures planned { self.new.links ≡ self.old.links }
        ensures err { OnErr result (self.new ≡ self.old) }
    {
        if self.state.stack.len() > 0 {
            return Err(Misuse::Busy);
        }
        match self.is_closed(instance) {
            None => return Err(Misuse::NoInstance),
            Some(true) => return Err(Misuse::Closed),
            Some(false) => {}
        }
        begin_root(&mut self.state, instance);
        Ok(Event::Resume {
            instance,
            values: Flat::new(),
        })
    }

    /// One move of the acting instance: what it leads to, with its core values in place of those
    /// that were there; a trap leaves none.
    ///
    /// Misuse: `Idle` where the stack is empty. State and values are then unchanged.
    pub fn step_in(&mut self, made: &Move, values: &mut Flat) -> Result<Outcome, Misuse>
        ensures step { (plan : Plan) → ArePlanned plan self.old.links
            → IsValidState plan self.old.state → IfOk result (λ o.
            Step plan self.old.state made.now (event_of o values.new) self.new.state) }
        ensures valid { (plan : Plan) → ArePlanned plan self.old.links
            → IsValidState plan self.old.state → IsValidState plan self.new.state }
        ensures history { IfOk result (λ o.
            GoesOnFrom self.old (moves made.now) (event_of o values.new) self.new) }
        ensures goes_on { IfOk result (λ o. is_last (event_of o values.new) ≡ false
            → 0 < length self.new.state.stack) }
        ensures planned { self.new.links ≡ self.old.links }
        ensures idle { IsErrOf result Misuse.Idle ↔ (self.old.state.stack ≡ []) }
        ensures kept { OnOk result (IsKeptOf self.new.state.passage self.new.kept) }
        ensures trapped { IfOk result (λ o. (t : Trap) → o ≡ Outcome.Trapped t → values.new ≡ []) }
        ensures only { IfErr result (λ m. m ≡ Misuse.Idle) }
        ensures err { OnErr result ((self.new ≡ self.old) × (values.new ≡ values.old)) }
    {
        if self.state.stack.len() == 0 {
            return Err(Misuse::Idle);
        }
        let top = self.state.stack.last();
        histories_are_valid();
        moves_write_bytes(made);
        let outcome = step_at(self.alloc, &self.links, &mut self.state, &top, made, values);
        what_is_kept(&self.state);
        Ok(outcome)
    }

    /// One move of the acting instance, and the event that it leads to.
    ///
    /// Misuse: `Idle` where the stack is empty. The state is then unchanged.
    pub fn step(&mut self, made: &Move) -> Result<Event, Misuse>
        ensures step { (plan : Plan) → ArePlanned plan self.old.links
            → IsValidState plan self.old.state → IfOk result (λ e.
            Step plan self.old.state made.now e self.new.state) }
        ensures valid { (plan : Plan) → ArePlanned plan self.old.links
            → IsValidState plan self.old.state → IsValidState plan self.new.state }
        ensures history { IfOk result (λ e. GoesOnFrom self.old (moves made.now) e self.new) }
        ensures goes_on { IfOk result (λ e. is_last e ≡ false → 0 < length self.new.state.stack) }
        ensures planned { self.new.links ≡ self.old.links }
        ensures idle { IsErrOf result Misuse.Idle ↔ (self.old.state.stack ≡ []) }
        ensures kept { OnOk result (IsKeptOf self.new.state.passage self.new.kept) }
        ensures only { IfErr result (λ m. m ≡ Misuse.Idle) }
        ensures err { OnErr result (self.new ≡ self.old) }
    {
        let mut values = Flat::new();
        match self.step_in(made, &mut values) {
            Ok(outcome) => event(outcome, values),
            Err(misuse) => Err(misuse),
        }
    }

    /// Steps through these moves until they are used up or an event is `Ended` or `Trapped`, and
    /// answers the events; later moves are not read. Room for the list of events is made first.
    ///
    /// Misuse: `Idle` where there is a move and the stack is empty, else `Memory` where there is no
    /// room for the list. The state is then unchanged.
    pub fn run(&mut self, alloc: Global, moves: &[Move]) -> Result<Vec<Event>, Misuse>
        ensures run { (plan : Plan) → ArePlanned plan self.old.links
            → IsValidState plan self.old.state → IfOk result (λ events.
            Run plan self.old.state moves.now events.items self.new.state) }
        ensures planned { self.new.links ≡ self.old.links }
        ensures idle { IsErrOf result Misuse.Idle
            ↔ ((0 < length moves.now) × (self.old.state.stack ≡ [])) }
        ensures only { IfErr result (λ m. (m ≡ Misuse.Idle) ⊎ (m ≡ Misuse.Memory)) }
        ensures err { OnErr result (self.new ≡ self.old) }
    {
        if !moves.is_empty() && self.depth() == 0 {
            return Err(Misuse::Idle);
        }
        let Ok(mut events) = Vec::with_capacity(alloc, moves.len()) else {
            return Err(Misuse::Memory);
        };
        self.run_into(moves, &mut events);
        Ok(events)
    }

    /// How many frames stand on the stack.
    fn depth(&self) -> usize
        ensures { result ≡ length self.now.state.stack }
    {
        self.state.stack.len()
    }

    /// Steps through these moves as `run` does, and adds the events to a list with room for them.
    fn run_into(&mut self, moves: &[Move], events: &mut Vec<Event>)
        requires room { length moves.now ≤ vec_capacity events.old }
        requires none { events.old.items ≡ [] }
        requires acts { 0 < length moves.now → 0 < length self.old.state.stack }
        ensures run { (plan : Plan) → ArePlanned plan self.old.links
            → IsValidState plan self.old.state
            → Run plan self.old.state moves.now events.new.items self.new.state }
        ensures planned { self.new.links ≡ self.old.links }
    {
        for made in moves {
            let Ok(event) = self.step(made) else {
                unreachable!()
            };
            let last = event.is_last();
            match events.push(event) {
                Ok(()) => {}
                Err(_) => unreachable!(),
            }
            if last {
                return;
            }
        }
    }
}
