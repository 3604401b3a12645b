//! The second half of a call in the plain interpreter: requests, handing over, and the end.

use crate::calls::{Way, check_region, overlap, way_of};
use crate::plain::{flat, numbers, resume};
use crate::rules::{
    Asked, Call, DEFINER, Handle, Item, Kind, Phase, Plain, Purpose, Stop, Where, small,
};
use crate::texts;
use cm_machine::{Event, Flat, Trap};
use cm_types::CoreValue;
use std::mem;

/// The address of a result and its length, and the bytes that they take.
const PAIR_ALIGN: u32 = 4;

const PAIR_SIZE: u32 = 8;

impl Plain {
    /// Asks for what the value on its way needs.
    pub fn ask_for(&mut self) -> Result<(), Stop> {
        let Way { source, target, .. } = way_of(&self.call()?);
        self.answered = 0;
        self.last = 0;
        self.asked = match &self.item {
            Item::Text(text) => texts::requests(self.alloc, text, source, target)?,
            _ => Vec::new(self.alloc),
        };
        Ok(())
    }

    /// The next request, or the handing over where all are answered.
    pub fn go_on(&mut self) -> Result<Event, Stop> {
        let call = self.call()?;
        let Way {
            receiver,
            realloc,
            ..
        } = way_of(&call);
        let Some(asked) = self.asked.get(self.answered).copied() else {
            return self.hand_over(call);
        };
        let old = if asked.chained { self.last } else { 0 };
        Ok(Event::Realloc {
            instance: receiver,
            func: realloc,
            args: flat(&[old, asked.old_size, asked.align, asked.size]),
        })
    }

    /// Keeps an allocator's answer.
    fn answer(&mut self, call: Call, values: &[CoreValue]) -> Result<Event, Stop> {
        let [at, ..] = numbers(values, 1)?;
        let Some(Asked { align, size, .. }) = self.asked.get(self.answered).copied() else {
            return Err(Stop::Untrue);
        };
        let length = self.instance(way_of(&call).receiver)?.memory.len();
        check_region(at, align, size, length)?;
        self.last = at;
        self.answered = self.answered.saturating_add(1);
        self.go_on()
    }

    pub fn return_from_call(&mut self, call: Call, values: &[CoreValue]) -> Result<Event, Stop> {
        match call.phase {
            Phase::Arguments | Phase::Results => self.answer(call, values),
            Phase::Body => self.return_from_body(call, values),
            Phase::PostReturn => {
                numbers(values, 0)?;
                self.end_call(call)
            }
        }
    }

    fn return_from_body(&mut self, call: Call, values: &[CoreValue]) -> Result<Event, Stop> {
        let count = usize::from(call.link.result.is_some());
        let [a, ..] = numbers(values, count)?;
        if self.holds_borrows(call.link.callee)? {
            return Err(Stop::Trap(Trap::BorrowsLeft));
        }
        self.returned.clear();
        if count > 0 {
            self.returned.push(a)?;
        }
        self.lift_result(call, a)?;
        let call = self.set_phase(Phase::Results)?;
        if call.link.result == Some(Kind::Text) {
            let length = self.instance(call.caller)?.memory.len();
            check_region(call.pointer, PAIR_ALIGN, PAIR_SIZE, length)?;
        }
        self.ask_for()?;
        self.go_on()
    }

    /// Reads a result; a string's is behind a pointer.
    fn lift_result(&mut self, call: Call, a: u32) -> Result<(), Stop> {
        let callee = call.link.callee;
        let frame = self.frames.len().saturating_sub(1);
        let encoding = call.link.lift.encoding;
        if call.link.result != Some(Kind::Text) {
            return self.lift(callee, call.link.result, a, 0, encoding, frame);
        }
        let memory = &self.instance(callee)?.memory;
        check_region(a, PAIR_ALIGN, PAIR_SIZE, memory.len())?;
        let at = word(memory, a as usize);
        let count = word(memory, (a as usize).saturating_add(4));
        self.lift(callee, Some(Kind::Text), at, count, encoding, frame)
    }

    /// Whether the topmost call has left a borrowed handle.
    fn holds_borrows(&mut self, callee: u32) -> Result<bool, Stop> {
        let frame = self.frames.len().saturating_sub(1);
        let handles = &self.instance(callee)?.handles;
        let borrowed = |slot: &Option<Handle>| match slot {
            Some(handle) => handle.borrower == Some(frame),
            None => false,
        };
        Ok(handles.iter().any(borrowed))
    }

    fn set_phase(&mut self, phase: Phase) -> Result<Call, Stop> {
        let mut call = self.call()?;
        call.phase = phase;
        if let Some(top) = self.frames.last_mut() {
            top.purpose = Purpose::Call(call);
        }
        Ok(call)
    }

    /// Hands the value on its way over, and goes on.
    fn hand_over(&mut self, call: Call) -> Result<Event, Stop> {
        let way = way_of(&call);
        let region = (self.last, self.asked.last().map_or(0, |asked| asked.size));
        let is_spilled = call.phase == Phase::Results && call.link.result == Some(Kind::Text);
        if is_spilled && overlap(region, (call.pointer, PAIR_SIZE)) {
            return Err(Stop::Trap(Trap::Overlap));
        }
        let received = self.receive(way)?;
        if call.phase == Phase::Arguments {
            self.set_phase(Phase::Body)?;
            return Ok(Event::Enter {
                instance: call.link.callee,
                func: call.link.func,
                args: received,
            });
        }
        self.result = None;
        if is_spilled {
            self.write_pair(way.receiver, call.pointer, received.as_slice())?;
        } else if let Some(CoreValue::I32(number)) = received.as_slice().first() {
            self.result = Some(*number);
        }
        let Some(func) = call.link.post_return else {
            return self.end_call(call);
        };
        self.set_phase(Phase::PostReturn)?;
        Ok(Event::PostReturn {
            instance: call.link.callee,
            func,
            args: flat(&self.returned),
        })
    }

    /// Writes the two numbers that pass a string.
    fn write_pair(&mut self, receiver: u32, at: u32, values: &[CoreValue]) -> Result<(), Stop> {
        let [first, second, _] = numbers(values, 2)?;
        self.write(receiver, at, &bytes_of(first), Trap::PointerBounds)?;
        let behind = at.saturating_add(4);
        self.write(receiver, behind, &bytes_of(second), Trap::PointerBounds)
    }

    /// Puts the value on its way where its receiver has it, and answers the core values for it.
    fn receive(&mut self, way: Way) -> Result<Flat, Stop> {
        let frame = self.frames.len().saturating_sub(1);
        let item = mem::replace(&mut self.item, Item::Nothing);
        match item {
            Item::Nothing => Ok(Flat::new()),
            Item::Number(number) => Ok(flat(&[number])),
            Item::Text(text) => {
                let bytes = texts::write(self.alloc, way.target, &text)?;
                let units = small(bytes.len()) / texts::unit(way.target).max(1);
                self.write(way.receiver, self.last, &bytes, Trap::PointerBounds)?;
                Ok(flat(&[self.last, units]))
            }
            Item::Owned { serial, rep } => {
                let index = self.give(way.receiver, serial, rep, None)?;
                self.set_place(
                    serial,
                    Where::InTable {
                        instance: way.receiver,
                        index,
                    },
                );
                Ok(flat(&[index]))
            }
            Item::Borrowed { rep, .. } if way.receiver == DEFINER => Ok(flat(&[rep])),
            Item::Borrowed { serial, rep } => {
                let index = self.give(way.receiver, serial, rep, Some(frame))?;
                Ok(flat(&[index]))
            }
        }
    }

    fn give(
        &mut self,
        receiver: u32,
        serial: usize,
        rep: u32,
        borrower: Option<usize>,
    ) -> Result<u32, Stop> {
        self.add(
            receiver,
            Handle {
                serial,
                rep,
                lends: 0,
                borrower,
            },
        )
    }

    /// Ends the topmost call, and its lend.
    fn end_call(&mut self, call: Call) -> Result<Event, Stop> {
        self.frames.pop();
        if let Some(index) = call.lent {
            let mut handle = self.handle(call.caller, index)?;
            handle.lends = handle.lends.saturating_sub(1);
            self.put(call.caller, index, Some(handle))?;
        }
        Ok(resume(call.caller, self.result))
    }
}

/// The number of four bytes of a memory.
fn word(memory: &[u8], at: usize) -> u32 {
    let low = u32::from(half(memory, at));
    let high = u32::from(half(memory, at.saturating_add(2)));
    low + high * 65_536
}

fn half(memory: &[u8], at: usize) -> u16 {
    let low = memory.get(at).copied().unwrap_or(0);
    let high = memory.get(at.saturating_add(1)).copied().unwrap_or(0);
    u16::from(low) + u16::from(high) * 256
}

/// The four bytes of a number.
fn bytes_of(number: u32) -> [u8; 4] {
    [
        (number % 256) as u8,
        (number / 256 % 256) as u8,
        (number / 65_536 % 256) as u8,
        (number / 16_777_216) as u8,
    ]
}
