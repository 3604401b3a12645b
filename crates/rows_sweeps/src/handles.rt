//! Handles in the plain interpreter.

use crate::plain::{MOST_FRAMES, resume};
use crate::rules::{DEFINER, Frame, Handle, Plain, Purpose, Stop, Where, small};
use cm_machine::{Event, Trap};

impl Plain {
    /// The handle at an index.
    pub fn handle(&mut self, instance: u32, index: u32) -> Result<Handle, Stop> {
        let handles = &self.instance(instance)?.handles;
        match handles.get(index as usize).copied() {
            Some(Some(handle)) => Ok(handle),
            _ => Err(Stop::Trap(Trap::NoHandle)),
        }
    }

    /// Puts a handle at an index that has one, or takes it away.
    pub fn put(&mut self, instance: u32, index: u32, handle: Option<Handle>) -> Result<(), Stop> {
        let at = self.instance(instance)?;
        if handle.is_none() {
            at.freed.push(index)?;
        }
        match at.handles.get_mut(index as usize) {
            Some(slot) => *slot = handle,
            None => return Err(Stop::Untrue),
        }
        Ok(())
    }

    /// Adds a handle at the index that was freed last, else at the least that was never used.
    pub fn add(&mut self, instance: u32, handle: Handle) -> Result<u32, Stop> {
        let freed = self.instance(instance)?.freed.pop();
        if let Some(index) = freed {
            self.put(instance, index, Some(handle))?;
            return Ok(index);
        }
        let at = self.instance(instance)?;
        if at.handles.is_empty() {
            at.handles.push(None)?;
        }
        let index = at.handles.len();
        at.handles.push(Some(handle))?;
        Ok(small(index))
    }

    pub fn set_place(&mut self, serial: usize, place: Where) {
        if let Some(old) = self.places.get_mut(serial) {
            *old = place;
        }
    }

    /// Makes a resource.
    pub fn make(&mut self, actor: u32, rep: u32) -> Result<Event, Stop> {
        let handle = Handle {
            serial: self.places.len(),
            rep,
            lends: 0,
            borrower: None,
        };
        let index = self.add(actor, handle)?;
        self.places.push(Where::InTable {
            instance: actor,
            index,
        })?;
        Ok(resume(actor, Some(index)))
    }

    /// Drops a handle; an owned one's resource is destroyed.
    pub fn drop_handle(
        &mut self,
        actor: u32,
        index: u32,
        destructor: Option<u32>,
    ) -> Result<Event, Stop> {
        let handle = self.handle(actor, index)?;
        if handle.lends > 0 {
            return Err(Stop::Trap(Trap::StillLent));
        }
        let runs = destructor.filter(|_| handle.borrower.is_none());
        if runs.is_some() {
            if self.instance(DEFINER)?.closed {
                return Err(Stop::Trap(Trap::CalleeClosed));
            }
            if self.frames.len() >= MOST_FRAMES {
                return Err(Stop::Trap(Trap::StackFull));
            }
        }
        self.put(actor, index, None)?;
        if handle.borrower.is_none() {
            self.set_place(handle.serial, Where::Dropped);
        }
        match runs {
            None => Ok(resume(actor, None)),
            Some(func) => {
                self.frames.push(Frame {
                    instance: DEFINER,
                    purpose: Purpose::Destructor { dropper: actor },
                })?;
                Ok(Event::Dtor {
                    instance: DEFINER,
                    func,
                    rep: handle.rep,
                })
            }
        }
    }
}
