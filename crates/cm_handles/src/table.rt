//! The table itself: slots, of which the empty ones form a list.

ghost use Rattle.std.specs.Prelude.{◌≡◌, ◌↔◌, ℕ, ◌+◌, ◌-◌, ◌<◌, ◌≤◌, ◌^◌, [], ◌∷◌, map, length};
ghost use Rattle.std.specs.Prelude.{None, Some, IsOk, IsSome, IfOk, IfSome, OnOk, OnErr, IsErrOf};
ghost use Rattle.std.specs.Prelude.{IsOkUnless, IsSomeAnd, slice_get, slice_index_or};
ghost use Rattle.std.specs.Option.{ForSome};
ghost use Rattle.cm_handles.specs.Handles.{of_resource};
ghost use Rattle.cm_handles.specs.Slots.{handle_in};

use crate::fault::HandleFault;
use crate::handle::{Handle, HandleKind};
use crate::slot::Slot;
use cm_types::ResourceId;
use std::alloc::Global;
use std::marker::Model;

/// The most handles that a table has, and so the greatest index (CanonicalABI.md, "Table State",
/// allows more; the limit is this project's own choice).
pub const MAX_HANDLES: usize = 65_535;

/// The handles of an instance, each under an index from 1 to 65,535 (CanonicalABI.md, "Table
/// State").
///
/// The next handle gets the index that was freed last, else the least that was never used. A call
/// that refuses leaves the table as it was. Only `add` and `reserve` take memory, before they
/// change anything.
#[derive(Drop)]
pub struct Table {
    // The slot of index k stands at k - 1.
    slots: Vec<Slot>,
    // The index freed last, where one is freed.
    first: u32,
    // How many indices are freed.
    free: u32,
}

impl Model for Table {
    ghost use Rattle.std.specs.Prelude.{vec_capacity};
    ghost use Rattle.cm_handles.specs.Handles.{TableState};

    ghost Value = { TableState };

    ghost use Rattle.cm_handles.specs.Slots.{handles_of, room_of, IsThreaded};

    ghost view = { λ t. record {
      handles = handles_of t.slots.items t.first t.free;
      room = room_of t.slots.items t.free (vec_capacity t.slots);
    } };

    ghost invariant = { λ t. IsThreaded t.slots.items t.first t.free };
}

/// The handle that stands at an index of slots, if one does.
fn stands(slots: &[Slot], index: u32) -> Option<Handle>
    ensures { result ≡ slice_index_or (None ∷ map handle_in slots.now) index None }
{
    if index == 0 {
        return None;
    }
    match slots.get(index as usize - 1) {
        Some(slot) => slot.handle(),
        None => None,
    }
}

/// The handle of an index among slots.
fn look(slots: &[Slot], index: u32, resource: ResourceId) -> Result<Handle, HandleFault>
    ensures { result ≡ of_resource (slice_index_or (None
        ∷ map handle_in slots.now) index None) resource }
{
    match stands(slots, index) {
        Some(handle) => {
            if handle.resource == resource {
                Ok(handle)
            } else {
                Err(HandleFault::WrongResource)
            }
        }
        None => Err(HandleFault::NoHandle),
    }
}

impl Table {
    ghost use Rattle.cm_handles.specs.Handles.{no_handles, handle_at, next_index, indices_left};
    ghost use Rattle.cm_handles.specs.Handles.{look_up, if_not_lent, if_owned, after_add};
    ghost use Rattle.cm_handles.specs.Handles.{after_release, after_restore, after_change};
    ghost use Rattle.cm_handles.specs.Handles.{after_lend, after_unlend};
    ghost use Rattle.cm_handles.specs.Handles.{after_close, slot_after_close, with_lends, Handles};
    ghost use Rattle.cm_handles.specs.Handles.{IsSoundTable, Changes};
    ghost use Rattle.cm_handles.specs.Slots.{after_close_at};

    /// An empty table. It takes no memory before the first handle is added, and then from `alloc`.
    pub fn new(alloc: Global) -> Self
        ensures empty { result.handles ≡ no_handles }
        ensures no_room { result.room ≡ 0 }
        ensures sound { IsSoundTable result }
    {
        Table {
            slots: Vec::new(alloc),
            first: 0,
            free: 0,
        }
    }

    /// The handle at `index`, which is to be of `resource`.
    ///
    /// Refused with `NoHandle` where no handle stands there, else with `WrongResource` where it is
    /// of another resource.
    pub fn get(&self, index: u32, resource: ResourceId) -> Result<Handle, HandleFault>
        ensures answer { result ≡ look_up self.now.handles index resource }
        ensures found { IfOk result (λ handle. (handle_at self.now.handles index ≡ Some handle)
            × (handle.resource ≡ resource)) }
        ensures no_handle { IsErrOf result HandleFault.NoHandle
            ↔ (handle_at self.now.handles index ≡ None) }
        ensures sound { IsSoundTable self.now }
    {
        look(&self.slots, index, resource)
    }

    /// The handle at `index`, of whatever resource, if one stands there.
    pub fn at(&self, index: u32) -> Option<Handle>
        ensures { result ≡ handle_at self.now.handles index }
    {
        stands(&self.slots, index)
    }

    /// How many indices the table has, 0 among them: no handle stands at another.
    pub fn indices(&self) -> usize
        ensures { result ≡ length self.now.handles.slots }
    {
        self.slots.len() + 1
    }

    /// Adds a handle, as it is, at the next index, which is the answer (CanonicalABI.md, "Table
    /// State", `add`).
    ///
    /// Refused with `Full` where all 65,535 indices are in use, and with `Memory` where no room is
    /// left and no more was to be had. No memory is taken while an index is freed or room is
    /// reserved.
    pub fn add(&mut self, handle: Handle) -> Result<u32, HandleFault>
        ensures index { IfOk result (λ index. index ≡ next_index self.old.handles) }
        ensures in_range { IfOk result (λ index. (0 < index) × (index ≤ MAX_HANDLES)) }
        ensures handles { OnOk result (self.new.handles ≡ after_add self.old.handles handle) }
        ensures changes { OnOk result
            (Changes self.old.handles self.new.handles (next_index self.old.handles)
            (Some handle)) }
        ensures was_vacant { OnOk result (handle_at self.old.handles (next_index self.old.handles)
            ≡ None) }

        // A handle takes at most one place of the room, and while there is room, as at a freed
        // index, no memory is needed.
        ensures room { self.old.room ≤ self.new.room + 1 }
        ensures in_room { 0 < self.old.room → IsOk result }
        ensures freed_index { 0 < length self.old.handles.freed → IsOk result }

        ensures full { IsErrOf result HandleFault.Full ↔ (indices_left self.old.handles ≡ 0) }
        ensures memory { IsErrOf result HandleFault.Memory → self.old.room ≡ 0 }
        ensures no_other { 0 < indices_left self.old.handles
            → IsOkUnless result HandleFault.Memory }
        ensures err { OnErr result (self.new ≡ self.old) }
        ensures sound { IsSoundTable self.new }
    {
        if self.free == 0 {
            return self.append(handle);
        }
        let index = self.first;
        self.restore(index, handle);
        Ok(index)
    }

    /// Adds a handle at the least index that was never used.
    fn append(&mut self, handle: Handle) -> Result<u32, HandleFault>
        requires { self.old.handles.freed ≡ [] }
        ensures index { IfOk result (λ index. index ≡ next_index self.old.handles) }
        ensures in_range { IfOk result (λ index. (0 < index) × (index ≤ MAX_HANDLES)) }
        ensures handles { OnOk result (self.new.handles ≡ after_add self.old.handles handle) }
        ensures changes { OnOk result
            (Changes self.old.handles self.new.handles (next_index self.old.handles)
            (Some handle)) }
        ensures was_vacant { OnOk result (handle_at self.old.handles (next_index self.old.handles)
            ≡ None) }
        ensures room { self.old.room ≤ self.new.room + 1 }
        ensures in_room { 0 < self.old.room → IsOk result }
        ensures full { IsErrOf result HandleFault.Full ↔ (indices_left self.old.handles ≡ 0) }
        ensures memory { IsErrOf result HandleFault.Memory → self.old.room ≡ 0 }
        ensures no_other { 0 < indices_left self.old.handles
            → IsOkUnless result HandleFault.Memory }
        ensures err { OnErr result (self.new ≡ self.old) }
        ensures sound { IsSoundTable self.new }
    {
        let index = self.slots.len() + 1;
        if index > MAX_HANDLES {
            return Err(HandleFault::Full);
        }
        let Ok(()) = self.slots.reserve(1) else {
            return Err(HandleFault::Memory);
        };
        self.slots.push_reserved(Slot::of(handle));
        Ok(index as u32)
    }

    /// Puts a handle back at `index`, which is the one freed last: it undoes `take_own`, and of
    /// several the last one first. It takes no memory.
    pub fn restore(&mut self, index: u32, handle: Handle)
        requires { slice_get self.old.handles.freed 0 ≡ Some index }
        ensures handles { self.new.handles ≡ after_restore self.old.handles index handle }
        ensures changes { Changes self.old.handles self.new.handles index (Some handle) }
        ensures undoes { (before : Handles) → handle_at before index ≡ Some handle
            → self.old.handles ≡ after_release before index → self.new.handles ≡ before }
        ensures room { self.new.room + 1 ≡ self.old.room }
        ensures sound { IsSoundTable self.new }
    {
        let Slot::Free(next) = self.slots[index as usize - 1] else {
            unreachable!()
        };
        self.slots[index as usize - 1] = Slot::of(handle);
        self.first = next;
        self.free -= 1;
    }

    /// Makes room for `additional` more handles, so that as many calls of `add` take no memory.
    ///
    /// Refused with `Full` where fewer indices are left, else with `Memory` where the memory is
    /// refused.
    pub fn reserve(&mut self, additional: usize) -> Result<(), HandleFault>
        ensures room { OnOk result (additional ≤ self.new.room) }
        ensures handles { self.new.handles ≡ self.old.handles }
        ensures no_less { self.old.room ≤ self.new.room }
        ensures in_room { additional ≤ self.old.room → IsOk result }
        ensures full { IsErrOf result HandleFault.Full
            ↔ (indices_left self.old.handles < additional) }
        ensures memory { IsErrOf result HandleFault.Memory → self.old.room < additional }
        ensures no_other { additional ≤ indices_left self.old.handles
            → IsOkUnless result HandleFault.Memory }
        ensures err { OnErr result (self.new ≡ self.old) }
        ensures sound { IsSoundTable self.new }
    {
        let free = self.free as usize;
        if additional > free + (MAX_HANDLES - self.slots.len()) {
            return Err(HandleFault::Full);
        }
        let Ok(()) = self.slots.reserve(additional.saturating_sub(free)) else {
            return Err(HandleFault::Memory);
        };
        Ok(())
    }

    /// Frees the index of a handle.
    fn release(&mut self, index: u32)
        requires { IsSome (handle_at self.old.handles index) }
        ensures handles { self.new.handles ≡ after_release self.old.handles index }
        ensures room { self.new.room ≡ self.old.room + 1 }
        ensures sound { IsSoundTable self.new }
    {
        self.slots[index as usize - 1] = Slot::Free(self.first);
        self.first = index;
        self.free += 1;
    }

    /// Writes how often the handle at an index is lent.
    fn write_lends(&mut self, index: u32, lends: u128)
        requires { IsSome (handle_at self.old.handles index) }
        ensures handles { self.new.handles
            ≡ after_change self.old.handles index (with_lends lends) }
        ensures room { self.new.room ≡ self.old.room }
        ensures sound { IsSoundTable self.new }
    {
        self.slots[index as usize - 1].set_lends(lends);
    }

    /// The handle at an index, which is to be of a resource and not lent.
    fn not_lent(&self, index: u32, resource: ResourceId) -> Result<Handle, HandleFault>
        ensures answer { result ≡ if_not_lent (look_up self.now.handles index resource) }
        ensures found { IfOk result (λ handle. (handle_at self.now.handles index ≡ Some handle)
            × (handle.resource ≡ resource) × (handle.lends ≡ 0)) }
        ensures sound { IsSoundTable self.now }
    {
        let handle = self.get(index, resource)?;
        if handle.lends > 0 {
            return Err(HandleFault::StillLent);
        }
        Ok(handle)
    }

    /// Removes the handle at `index`, which is to be of `resource` and not lent, and frees its
    /// index. The answer is that handle (CanonicalABI.md, `canon resource.drop`).
    ///
    /// Refused with `NoHandle` where no handle stands there, else with `WrongResource` where it is
    /// of another resource, else with `StillLent` where a call has borrowed it.
    pub fn drop_handle(&mut self, index: u32, resource: ResourceId) -> Result<Handle, HandleFault>
        ensures answer { result ≡ if_not_lent (look_up self.old.handles index resource) }
        ensures found { IfOk result (λ handle. (handle_at self.old.handles index ≡ Some handle)
            × (handle.resource ≡ resource) × (handle.lends ≡ 0)) }
        ensures handles { OnOk result (self.new.handles ≡ after_release self.old.handles index) }
        ensures changes { OnOk result (Changes self.old.handles self.new.handles index None) }
        ensures room { OnOk result (self.new.room ≡ self.old.room + 1) }
        ensures err { OnErr result (self.new ≡ self.old) }
        ensures sound { IsSoundTable self.new }
    {
        let dropped = self.not_lent(index, resource)?;
        self.release(index);
        Ok(dropped)
    }

    /// Removes the owned handle at `index`, which is to be of `resource` and not lent, and frees
    /// its index. The answer is that handle (CanonicalABI.md, "Loading", `lift_own`).
    ///
    /// Refused with `NoHandle` where no handle stands there, else with `WrongResource` where it is
    /// of another resource, else with `StillLent` where a call has borrowed it, else with
    /// `NotOwned` where it is a borrow.
    pub fn take_own(&mut self, index: u32, resource: ResourceId) -> Result<Handle, HandleFault>
        ensures answer { result ≡ if_owned (if_not_lent (look_up self.old.handles index resource)) }
        ensures found { IfOk result (λ handle. (handle_at self.old.handles index ≡ Some handle)
            × (handle.resource ≡ resource) × (handle.lends ≡ 0)
            × (handle.kind ≡ HandleKind.Owned)) }
        ensures handles { OnOk result (self.new.handles ≡ after_release self.old.handles index) }
        ensures changes { OnOk result (Changes self.old.handles self.new.handles index None) }
        ensures room { OnOk result (self.new.room ≡ self.old.room + 1) }
        ensures err { OnErr result (self.new ≡ self.old) }
        ensures sound { IsSoundTable self.new }
    {
        let taken = self.not_lent(index, resource)?;
        if let HandleKind::Borrowed { .. } = taken.kind {
            return Err(HandleFault::NotOwned);
        }
        self.release(index);
        Ok(taken)
    }

    /// Lends the handle at `index`, which is to be of `resource` and lent fewer than 2^101 times,
    /// to one more call. The answer is the handle as it stood before (CanonicalABI.md, "Loading",
    /// `lift_borrow`).
    ///
    /// Refused with `NoHandle` where no handle stands there, else with `WrongResource` where it is
    /// of another resource.
    pub fn lend(&mut self, index: u32, resource: ResourceId) -> Result<Handle, HandleFault>
        requires { ForSome (handle_at self.old.handles index) (λ handle. handle.lends < 2 ^ 101) }
        ensures answer { result ≡ look_up self.old.handles index resource }
        ensures found { IfOk result (λ handle. (handle_at self.old.handles index ≡ Some handle)
            × (handle.resource ≡ resource)) }
        ensures handles { OnOk result (self.new.handles ≡ after_lend self.old.handles index) }
        ensures changes { IfOk result (λ handle.
            Changes self.old.handles self.new.handles index
            (Some (with_lends (handle.lends + 1) handle))) }
        ensures room { self.new.room ≡ self.old.room }
        ensures err { OnErr result (self.new ≡ self.old) }
        ensures sound { IsSoundTable self.new }
    {
        let handle = self.get(index, resource)?;
        self.write_lends(index, handle.lends + 1);
        Ok(handle)
    }

    /// Ends one lend of the handle at `index`, which is lent, as a call that borrowed it ends.
    pub fn unlend(&mut self, index: u32)
        requires { IsSomeAnd (handle_at self.old.handles index) (λ handle. 0 < handle.lends) }
        ensures handles { self.new.handles ≡ after_unlend self.old.handles index }
        ensures changes { IfSome (handle_at self.old.handles index) (λ handle.
            Changes self.old.handles self.new.handles index
            (Some (with_lends (handle.lends - 1) handle))) }
        ensures room { self.new.room ≡ self.old.room }
        ensures sound { IsSoundTable self.new }
    {
        let handle = self.handle(index);
        self.write_lends(index, handle.lends - 1);
    }

    /// The handle at an index.
    fn handle(&self, index: u32) -> Handle
        requires { IsSome (handle_at self.now.handles index) }
        ensures { handle_at self.now.handles index ≡ Some result }
    {
        self.slots[index as usize - 1].handle().unwrap()
    }

    /// Closes the instance: ends all lends, and removes the borrows, the one at the least index
    /// first, which frees their indices. Owned handles stay.
    pub fn close(&mut self)
        ensures handles { self.new.handles ≡ after_close self.old.handles }
        ensures at_each { (index : ℕ)
            → handle_at self.new.handles index
            ≡ slot_after_close (handle_at self.old.handles index) }
        ensures room { self.new.room + length self.old.handles.freed
            ≡ self.old.room + length self.new.handles.freed }
        ensures sound { IsSoundTable self.new }
    {
        let count = self.slots.len();
        for at in 0..count {
            self.close_handle(at as u32 + 1);
        }
    }

    /// Ends the lends of the handle at an index, or removes it where it is a borrow.
    fn close_handle(&mut self, index: u32)
        requires positive { 0 < index }
        requires within { index < length self.old.handles.slots }
        ensures handles { self.new.handles
            ≡ after_close_at self.old.handles index (handle_at self.old.handles index) }
        ensures room { self.new.room + length self.old.handles.freed
            ≡ self.old.room + length self.new.handles.freed }
        ensures sound { IsSoundTable self.new }
    {
        let Some(handle) = self.slots[index as usize - 1].handle() else {
            return;
        };
        match handle.kind {
            HandleKind::Owned => self.write_lends(index, 0),
            HandleKind::Borrowed { .. } => self.release(index),
        }
    }
}
