//! A plain interpreter of the machine's rules, for sets whose functions have at most one parameter.

use crate::rules::{
    Call, Core, Frame, Handle, Instance, Item, Phase, Plain, Purpose, Stop, Where, small,
};
use cm_machine::{Event, Flat, Move, Trap};
use cm_types::CoreValue;

const PAGE: usize = 65_536;

const MOST_PAGES: usize = 1_024;

pub const MOST_FRAMES: usize = 64;

/// The number that the core value at a place is, an `i32`; past so many of them 0.
fn number(values: &[CoreValue], count: usize, at: usize) -> Result<u32, Stop> {
    match values.get(at) {
        _ if at >= count => Ok(0),
        Some(CoreValue::I32(number)) => Ok(*number),
        _ => Err(Stop::Trap(Trap::CoreShape)),
    }
}

/// The first three of so many core values, each an `i32`.
pub fn numbers(values: &[CoreValue], count: usize) -> Result<[u32; 3], Stop> {
    if values.len() != count {
        return Err(Stop::Trap(Trap::CoreShape));
    }
    Ok([
        number(values, count, 0)?,
        number(values, count, 1)?,
        number(values, count, 2)?,
    ])
}

/// The core values of these numbers.
pub fn flat(numbers: &[u32]) -> Flat {
    match numbers {
        [] => Flat::new(),
        [a] => Flat::one(CoreValue::I32(*a)),
        [a, b] => Flat::from_slice(&[CoreValue::I32(*a), CoreValue::I32(*b)]),
        [a, b, c, d] => Flat::from_slice(&[
            CoreValue::I32(*a),
            CoreValue::I32(*b),
            CoreValue::I32(*c),
            CoreValue::I32(*d),
        ]),
        _ => Flat::new(),
    }
}

impl Plain {
    pub fn top(&self) -> Result<Frame, Stop> {
        self.frames.last().copied().ok_or(Stop::Untrue)
    }

    pub fn instance(&mut self, instance: u32) -> Result<&mut Instance, Stop> {
        self.instances
            .get_mut(instance as usize)
            .ok_or(Stop::Untrue)
    }

    /// The topmost frame's call.
    pub fn call(&self) -> Result<Call, Stop> {
        match self.top()?.purpose {
            Purpose::Call(call) => Ok(call),
            _ => Err(Stop::Untrue),
        }
    }

    /// The instance whose move is next.
    pub fn actor(&self) -> Option<u32> {
        let top = self.frames.last()?;
        Some(match top.purpose {
            Purpose::Call(call) if call.phase == Phase::Results => call.caller,
            _ => top.instance,
        })
    }

    /// One move: its event, or none where no instance acts.
    pub fn step(&mut self, made: &Move) -> Result<Option<Event>, Stop> {
        let Some(actor) = self.actor() else {
            return Ok(None);
        };
        match self.act(actor, made) {
            Ok(event) => Ok(Some(event)),
            Err(Stop::Trap(trap)) => {
                self.close_all();
                Ok(Some(Event::Trapped(trap)))
            }
            Err(stop) => Err(stop),
        }
    }

    fn act(&mut self, actor: u32, made: &Move) -> Result<Event, Stop> {
        match made {
            Move::Write { at, bytes } => {
                self.write(actor, *at, bytes, Trap::GuestBounds)?;
                Ok(Event::Done)
            }
            Move::Grow { pages } => self.grow(actor, *pages),
            Move::Call { func, args } => self.call_out(actor, *func, args),
            Move::Return { values } => self.return_from(values),
            Move::Unreachable => Err(Stop::Trap(Trap::Unreachable)),
        }
    }

    /// Writes bytes into a memory, or traps where they pass its end.
    pub fn write(&mut self, instance: u32, at: u32, bytes: &[u8], trap: Trap) -> Result<(), Stop> {
        let memory = &mut self.instance(instance)?.memory;
        let at = at as usize;
        if at.saturating_add(bytes.len()) > memory.len() {
            return Err(Stop::Trap(trap));
        }
        for (i, byte) in bytes.iter().enumerate() {
            if let Some(place) = memory.get_mut(at.saturating_add(i)) {
                *place = *byte;
            }
        }
        Ok(())
    }

    fn grow(&mut self, actor: u32, pages: u32) -> Result<Event, Stop> {
        let memory = &mut self.instance(actor)?.memory;
        let old = memory.len() / PAGE;
        let new = old.saturating_add(pages as usize);
        if new > MOST_PAGES {
            return Ok(Event::Grown(None));
        }
        memory.resize(new.saturating_mul(PAGE), 0)?;
        Ok(Event::Grown(Some(small(old))))
    }

    /// Calls a core function of the acting instance.
    fn call_out(&mut self, actor: u32, func: u32, args: &[CoreValue]) -> Result<Event, Stop> {
        let core = self.instance(actor)?.core.get(func as usize).copied();
        match core {
            None | Some(Core::Guest) => Err(Stop::Trap(Trap::UnknownFunction)),
            Some(Core::Lowered(link)) => self.call_lowered(actor, link, args),
            Some(Core::New) => {
                let [rep, ..] = numbers(args, 1)?;
                self.check_leave()?;
                self.make(actor, rep)
            }
            Some(Core::Drop { destructor }) => {
                let [index, ..] = numbers(args, 1)?;
                self.check_leave()?;
                self.drop_handle(actor, index, destructor)
            }
            Some(Core::Rep) => {
                let [index, ..] = numbers(args, 1)?;
                let handle = self.handle(actor, index)?;
                Ok(resume(actor, Some(handle.rep)))
            }
        }
    }

    /// Traps where the top frame is a call that is not in its body.
    pub fn check_leave(&self) -> Result<(), Stop> {
        match self.top()?.purpose {
            Purpose::Call(call) if call.phase != Phase::Body => {
                Err(Stop::Trap(Trap::MayNotLeave))
            }
            _ => Ok(()),
        }
    }

    fn return_from(&mut self, values: &[CoreValue]) -> Result<Event, Stop> {
        let top = self.top()?;
        match top.purpose {
            Purpose::Call(call) => self.return_from_call(call, values),
            Purpose::Root => {
                numbers(values, 0)?;
                self.frames.pop();
                Ok(Event::Ended)
            }
            Purpose::Destructor { dropper } => {
                numbers(values, 0)?;
                self.frames.pop();
                Ok(resume(dropper, None))
            }
        }
    }

    /// Empties the stack, and closes the instances on it.
    fn close_all(&mut self) {
        for frame in &self.frames {
            if let Some(instance) = self.instances.get_mut(frame.instance as usize) {
                instance.closed = true;
            }
        }
        self.frames.clear();
        for instance in self.instances.iter_mut() {
            let closed = instance.closed;
            for slot in instance.handles.iter_mut() {
                end_lends(slot, closed);
            }
        }
        if let Item::Owned { serial, .. } = &self.item {
            if let Some(place) = self.places.get_mut(*serial) {
                *place = Where::Abandoned;
            }
        }
        self.item = Item::Nothing;
    }
}

/// Ends the lends of a handle; where the instance is closed, a borrowed one goes.
fn end_lends(slot: &mut Option<Handle>, closed: bool) {
    let goes = match slot {
        Some(handle) => {
            handle.lends = 0;
            closed && handle.borrower.is_some()
        }
        None => false,
    };
    if goes {
        *slot = None;
    }
}

/// An instance goes on, with a number or with nothing.
pub fn resume(instance: u32, number: Option<u32>) -> Event {
    Event::Resume {
        instance,
        values: match number {
            Some(number) => flat(&[number]),
            None => Flat::new(),
        },
    }
}
