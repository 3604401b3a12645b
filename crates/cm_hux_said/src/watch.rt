//! Watching a set that plays.

use crate::called::{AllPasses, Called, CalledFunc, called_by};
use crate::frames::{Made, Open, Phase};
use crate::messages::{Message, Spoken, Trapping};
use crate::naming::all_resources;
use crate::passing::lifted;
use crate::words::{MAX_WORDS, Words};
use cm_handles::Table;
use cm_hux_values::{Naming, Resource, cut};
use cm_machine_model::{Event, MAX_FRAMES, Move, Trap};
use cm_match::Linked;
use cm_types::CoreValue;
use cm_types_arena::Move as Moved;
use std::alloc::{AllocError, Global};

/// The instance whose move is next, as it is before the move.
#[derive(Clone, Copy)]
pub struct Actor<'s> {
    /// Its place in the set, from 0.
    pub instance: u32,
    /// The bytes of its memory.
    pub memory: &'s [u8],
    /// Its handles.
    pub table: &'s Table,
    /// Whether a trap has closed an instance, in the order of the components.
    pub closed: &'s [bool],
}

/// Watches a linked set that plays: it sees each move before it is made, and each event, and
/// answers what passed.
///
/// Where it did not see all moves and events of a drive from its begin on, what it answers means
/// nothing until the next one begins.
#[derive(Drop)]
pub struct Watch<'b, 'a> {
    alloc: Global,
    linked: &'b Linked<'a>,
    passes: AllPasses,
    /// The resources of each component.
    resources: Vec<Vec<Resource>>,
    /// The calls that have not returned, the oldest first.
    open: Vec<Open>,
    /// What is on its way, told when it has arrived.
    pending: Option<Spoken>,
    /// The last move, and the instance that made it.
    made: Made,
    actor: u32,
    /// Which instances were closed before it.
    closed: Vec<bool>,
}

impl<'b, 'a> Watch<'b, 'a> {
    /// Watches a set of what is linked, in which nothing has happened. `AllocError` comes where
    /// there is no memory.
    pub fn new(alloc: Global, linked: &'b Linked<'a>) -> Result<Watch<'b, 'a>, AllocError> {
        Ok(Watch {
            alloc,
            linked,
            passes: AllPasses::of(alloc, linked)?,
            resources: all_resources(alloc, linked)?,
            open: Vec::with_capacity(alloc, MAX_FRAMES)?,
            pending: None,
            made: Made::Return,
            actor: 0,
            closed: Vec::with_capacity(alloc, linked.components().len())?,
        })
    }

    /// A root call of an instance begins.
    pub fn begin(&mut self, root: u32) -> Message {
        self.clear();
        Message::Began { root }
    }

    fn clear(&mut self) {
        self.open.clear();
        self.pending = None;
    }

    /// The acting instance is about to make this move. `AllocError` comes where there is no memory
    /// for what it says.
    pub fn before(&mut self, actor: &Actor<'_>, made: &Move) -> Result<(), AllocError> {
        self.actor = actor.instance;
        self.closed.clear();
        self.closed.extend_from_slice(actor.closed)?;
        match made {
            Move::Call { func, args } => {
                self.made = Made::Call { func: *func };
                self.hear_call(actor, *func, args)
            }
            Move::Return { values } => {
                self.made = Made::Return;
                self.hear_return(actor, values)
            }
            Move::Write { at, .. } => {
                self.made = Made::Write { at: *at };
                Ok(())
            }
            Move::Grow { pages } => {
                self.made = Made::Grow { pages: *pages };
                Ok(())
            }
            Move::Unreachable => {
                self.made = Made::Unreachable;
                Ok(())
            }
        }
    }

    /// The last move came to this event, behind which so many instances are closed. Answers what
    /// passed by it, if anything. `AllocError` comes where there is no memory for the answer.
    pub fn after(&mut self, event: &Event, closed: &[bool]) -> Result<Option<Message>, AllocError> {
        match event {
            Event::Done | Event::Grown(_) => Ok(None),
            Event::Realloc { .. } => {
                self.wait()?;
                Ok(None)
            }
            Event::Enter { .. } | Event::Dtor { .. } => self.enter(),
            Event::PostReturn { .. } => Ok(self.hand_over()),
            Event::Resume { .. } => Ok(self.go_on()),
            Event::Trapped(trap) => Ok(Some(Message::Trapped(self.trap(*trap, closed)?))),
            Event::Ended => {
                self.clear();
                Ok(Some(Message::Ended))
            }
        }
    }

    /// How far the topmost call is: the root's body runs where there is none.
    fn phase(&self) -> Phase {
        match self.open.last() {
            Some(open) => open.phase,
            None => Phase::Body,
        }
    }

    fn set_phase(&mut self, phase: Phase) {
        if let Some(open) = self.open.last_mut() {
            open.phase = phase;
        }
    }

    /// One more call, which the last move made.
    fn push(&mut self, phase: Phase) -> Result<(), AllocError> {
        let Made::Call { func } = self.made else {
            return Ok(());
        };
        self.open.push(Open {
            caller: self.actor,
            func,
            phase,
        })?;
        Ok(())
    }

    /// An allocator is asked for room: what is on its way waits.
    fn wait(&mut self) -> Result<(), AllocError> {
        match self.made {
            Made::Call { .. } => self.push(Phase::Arguments),
            _ => {
                if self.phase() == Phase::Body {
                    self.set_phase(Phase::Results);
                }
                Ok(())
            }
        }
    }

    /// A body begins: what was said has arrived.
    fn enter(&mut self) -> Result<Option<Message>, AllocError> {
        if self.phase() == Phase::Arguments {
            self.set_phase(Phase::Body);
        } else {
            self.push(Phase::Body)?;
        }
        match self.pending.take() {
            Some(spoken) => Ok(Some(Message::Call(spoken))),
            None => Ok(None),
        }
    }

    /// A result has arrived, and the callee tidies up.
    fn hand_over(&mut self) -> Option<Message> {
        self.set_phase(Phase::PostReturn);
        self.take_answer()
    }

    /// The result that was on its way.
    fn take_answer(&mut self) -> Option<Message> {
        match self.pending.take() {
            Some(spoken) => Some(Message::Answer(spoken)),
            None => None,
        }
    }

    /// An instance goes on: behind a call of its own functions of handles, or behind a call that
    /// has returned.
    fn go_on(&mut self) -> Option<Message> {
        if let Made::Call { .. } = self.made {
            self.pending = None;
            return None;
        }
        let _returned = self.open.pop();
        self.take_answer()
    }

    /// Hears what the arguments of a call say, where it is one of another instance.
    fn hear_call(
        &mut self,
        actor: &Actor<'_>,
        func: u32,
        args: &[CoreValue],
    ) -> Result<(), AllocError> {
        if self.phase() != Phase::Body {
            return Ok(());
        }
        self.pending = None;
        let Some(called) = called_by(self.linked, actor.instance, func) else {
            return Ok(());
        };
        let words = match &called {
            Called::Func(func) => self.arguments(actor, func, args)?,
            Called::Drop { number, .. } => self.dropped(actor, *number, args)?,
        };
        let depth = self.open.len();
        self.pending = Some(self.spoken(depth, actor.instance, &called, words)?);
        Ok(())
    }

    /// Hears what the result of a call says, where one returns.
    fn hear_return(&mut self, actor: &Actor<'_>, values: &[CoreValue]) -> Result<(), AllocError> {
        let Some(open) = self.open.last().copied() else {
            return Ok(());
        };
        if open.phase != Phase::Body {
            return Ok(());
        }
        self.pending = None;
        let Some(called) = called_by(self.linked, open.caller, open.func) else {
            return Ok(());
        };
        let words = match &called {
            Called::Func(func) => self.result_of(actor, open.caller, func, values)?,
            Called::Drop { .. } => Words::new(self.alloc),
        };
        let depth = self.open.len().saturating_sub(1);
        self.pending = Some(self.spoken(depth, open.caller, &called, words)?);
        Ok(())
    }

    fn spoken(
        &self,
        depth: usize,
        caller: u32,
        called: &Called<'_>,
        words: Words,
    ) -> Result<Spoken, AllocError> {
        Ok(Spoken {
            depth,
            caller,
            callee: called.callee(),
            name: called.name(self.alloc, self.linked, caller)?,
            values: words.values,
            is_cut: words.is_cut,
        })
    }

    /// The arguments of a call in the view of the caller.
    fn arguments(
        &mut self,
        actor: &Actor<'_>,
        called: &CalledFunc<'_>,
        args: &[CoreValue],
    ) -> Result<Words, AllocError> {
        let mut words = Words::new(self.alloc);
        self.passes.find(self.alloc, actor.instance, called)?;
        let values = match self.passes.get(actor.instance, called) {
            Some(passes) => {
                let encoding = called.caller_encoding;
                lifted(self.alloc, actor.memory, &passes.params, encoding, args)?
            }
            None => None,
        };
        let Some(values) = values else {
            words.is_cut = true;
            return Ok(words);
        };
        let names = self.names(actor.instance, called.by, actor.table);
        for (value, param) in values.iter().zip(called.func.params.iter()) {
            words.put(self.alloc, value, &param.ty, names)?;
        }
        Ok(words)
    }

    /// The result of a call in the view of the callee.
    fn result_of(
        &mut self,
        actor: &Actor<'_>,
        caller: u32,
        called: &CalledFunc<'_>,
        values: &[CoreValue],
    ) -> Result<Words, AllocError> {
        let mut words = Words::new(self.alloc);
        self.passes.find(self.alloc, caller, called)?;
        let values = match self.passes.get(caller, called) {
            Some(passes) => {
                let encoding = called.callee_encoding;
                lifted(self.alloc, actor.memory, &passes.results, encoding, values)?
            }
            None => None,
        };
        let Some(values) = values else {
            words.is_cut = true;
            return Ok(words);
        };
        let names = self.names(caller, called.by, actor.table);
        if let (Some(value), Some(tree)) = (values.first(), &called.func.result) {
            words.put(self.alloc, value, &tree.root, names)?;
        }
        Ok(words)
    }

    /// The handle that a call drops.
    fn dropped(
        &self,
        actor: &Actor<'_>,
        number: u64,
        args: &[CoreValue],
    ) -> Result<Words, AllocError> {
        let mut words = Words::new(self.alloc);
        let names = self.names(actor.instance, None, actor.table);
        let text = match args.first() {
            Some(CoreValue::I32(index)) => names.numbered(number, u64::from(*index))?,
            _ => String::new(self.alloc),
        };
        let said = cut(self.alloc, text, MAX_WORDS)?;
        words.values.push(said.text)?;
        Ok(words)
    }

    /// The names of handles in a table, of the resources that a component counts so.
    fn names<'s>(&'s self, component: u32, by: Option<Moved>, table: &'s Table) -> Naming<'s> {
        let resources = match self.resources.get(component as usize) {
            Some(resources) => resources.as_slice(),
            None => &[],
        };
        Naming {
            alloc: self.alloc,
            resources,
            by,
            table,
        }
    }

    /// What a trap led to: the calls are gone.
    fn trap(&mut self, trap: Trap, closed: &[bool]) -> Result<Trapping, AllocError> {
        let doing = self.doing()?;
        self.clear();
        Ok(Trapping {
            trap,
            instance: self.actor,
            doing,
            closed: self.newly_closed(closed)?,
        })
    }

    /// The instances that are closed by these flags, and were not before the last move.
    fn newly_closed(&self, closed: &[bool]) -> Result<Vec<u32>, AllocError> {
        let mut instances = Vec::new(self.alloc);
        for (place, is_closed) in closed.iter().enumerate() {
            let was_closed = self.closed.get(place).copied().unwrap_or(false);
            if let (true, false, Ok(instance)) = (*is_closed, was_closed, u32::try_from(place)) {
                instances.push(instance)?;
            }
        }
        Ok(instances)
    }

    /// What the last move did, in words.
    fn doing(&self) -> Result<String, AllocError> {
        let alloc = self.alloc;
        match self.made {
            Made::Call { func } => match called_by(self.linked, self.actor, func) {
                Some(called) => {
                    let name = called.name(alloc, self.linked, self.actor)?;
                    format!(in alloc; "call of {name}")
                }
                None => format!(in alloc; "call of core function {func}"),
            },
            Made::Return => self.returning(),
            Made::Write { at } => format!(in alloc; "write at {at}"),
            Made::Grow { pages } => format!(in alloc; "grow by {pages}"),
            Made::Unreachable => format!(in alloc; "unreachable"),
        }
    }

    /// What the last move returned from, in words.
    fn returning(&self) -> Result<String, AllocError> {
        let alloc = self.alloc;
        let Some(open) = self.open.last() else {
            return format!(in alloc; "return");
        };
        let name = match called_by(self.linked, open.caller, open.func) {
            Some(called) => called.name(alloc, self.linked, open.caller)?,
            None => String::new(alloc),
        };
        match open.phase {
            Phase::Body => format!(in alloc; "return from {name}"),
            Phase::Arguments => format!(in alloc; "allocation of the arguments of {name}"),
            Phase::Results => format!(in alloc; "allocation of the result of {name}"),
            Phase::PostReturn => format!(in alloc; "post-return of {name}"),
        }
    }
}
