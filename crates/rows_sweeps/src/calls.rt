//! Calls in the plain interpreter: lifting, requests, handing over, and their ends.

use crate::plain::{MOST_FRAMES, numbers};
use crate::rules::{
    Call, Encoding, Frame, Handle, Item, Kind, Link, Phase, Plain, Purpose, Stop, Where, small,
};
use crate::texts;
use cm_machine::{Event, Trap};
use cm_types::CoreValue;

/// How many core values pass a parameter; a string takes its address and its units.
fn width(kind: Option<Kind>) -> usize {
    match kind {
        None => 0,
        Some(Kind::Text) => 2,
        Some(_) => 1,
    }
}

/// Who gets a value, how the giver spells strings and how the receiver does, and the allocator.
#[derive(Clone, Copy)]
pub struct Way {
    pub receiver: u32,
    pub source: Encoding,
    pub target: Encoding,
    pub realloc: u32,
}

/// The way of the arguments of a call, or that of its result.
pub fn way_of(call: &Call) -> Way {
    let Link {
        callee,
        lower,
        lift,
        ..
    } = call.link;
    match call.phase {
        Phase::Arguments => Way {
            receiver: callee,
            source: lower.encoding,
            target: lift.encoding,
            realloc: lift.realloc,
        },
        _ => Way {
            receiver: call.caller,
            source: lift.encoding,
            target: lower.encoding,
            realloc: lower.realloc,
        },
    }
}

/// Whether a region lies in a memory, at an address that is a multiple of its alignment.
pub fn check_region(at: u32, align: u32, size: u32, length: usize) -> Result<(), Stop> {
    if at % align.max(1) != 0 {
        return Err(Stop::Trap(Trap::Misaligned));
    }
    if at as usize + size as usize > length {
        return Err(Stop::Trap(Trap::PointerBounds));
    }
    Ok(())
}

/// Whether two regions, each an address and a size, have a byte in common.
pub fn overlap(a: (u32, u32), b: (u32, u32)) -> bool {
    let end = |region: (u32, u32)| u64::from(region.0) + u64::from(region.1);
    a.1 > 0 && b.1 > 0 && u64::from(a.0) < end(b) && u64::from(b.0) < end(a)
}

impl Plain {
    pub fn call_lowered(
        &mut self,
        caller: u32,
        link: Link,
        args: &[CoreValue],
    ) -> Result<Event, Stop> {
        let count = width(link.param);
        let has_pointer = link.result == Some(Kind::Text);
        let found = numbers(args, count.saturating_add(usize::from(has_pointer)))?;
        self.check_leave()?;
        if self.instance(link.callee)?.closed {
            return Err(Stop::Trap(Trap::CalleeClosed));
        }
        if self.frames.len() >= MOST_FRAMES {
            return Err(Stop::Trap(Trap::StackFull));
        }
        let [a, b, _] = found;
        let frame = self.frames.len();
        self.lift(caller, link.param, a, b, link.lower.encoding, frame)?;
        let lent = match link.param {
            Some(Kind::Borrowed) => Some(a),
            _ => None,
        };
        let pointer = found.get(count).copied().unwrap_or(0);
        self.frames.push(Frame {
            instance: link.callee,
            purpose: Purpose::Call(Call {
                caller,
                link,
                phase: Phase::Arguments,
                pointer: if has_pointer { pointer } else { 0 },
                lent,
            }),
        })?;
        self.ask_for()?;
        self.go_on()
    }

    /// Reads a value that these numbers pass.
    pub fn lift(
        &mut self,
        giver: u32,
        kind: Option<Kind>,
        a: u32,
        b: u32,
        encoding: Encoding,
        frame: usize,
    ) -> Result<(), Stop> {
        self.item = match kind {
            None => Item::Nothing,
            Some(Kind::Number) => Item::Number(a),
            Some(Kind::Text) => self.lift_text(giver, a, b, encoding)?,
            Some(Kind::Owned) => self.lift_owned(giver, a, frame)?,
            Some(Kind::Borrowed) => self.lift_borrowed(giver, a)?,
        };
        Ok(())
    }

    fn lift_text(
        &mut self,
        giver: u32,
        at: u32,
        count: u32,
        encoding: Encoding,
    ) -> Result<Item, Stop> {
        let alloc = self.alloc;
        let memory = &self.instance(giver)?.memory;
        let unit = texts::unit(encoding);
        let size = u64::from(count).saturating_mul(u64::from(unit));
        if at % unit.max(1) != 0 {
            return Err(Stop::Trap(Trap::Misaligned));
        }
        let end = u64::from(at).saturating_add(size) as usize;
        let Some(bytes) = memory.get(at as usize..end) else {
            return Err(Stop::Trap(Trap::PointerBounds));
        };
        Ok(Item::Text(texts::read(alloc, encoding, bytes)?))
    }

    fn lift_owned(&mut self, giver: u32, index: u32, frame: usize) -> Result<Item, Stop> {
        let Handle {
            serial,
            rep,
            lends,
            borrower,
        } = self.handle(giver, index)?;
        if lends > 0 {
            return Err(Stop::Trap(Trap::StillLent));
        }
        if borrower.is_some() {
            return Err(Stop::Trap(Trap::NotOwned));
        }
        self.put(giver, index, None)?;
        self.set_place(
            serial,
            Where::Travelling {
                frame: small(frame),
            },
        );
        Ok(Item::Owned { serial, rep })
    }

    fn lift_borrowed(&mut self, giver: u32, index: u32) -> Result<Item, Stop> {
        let mut handle = self.handle(giver, index)?;
        handle.lends = handle.lends.saturating_add(1);
        let Handle { serial, rep, .. } = handle;
        self.put(giver, index, Some(handle))?;
        Ok(Item::Borrowed { serial, rep })
    }
}
