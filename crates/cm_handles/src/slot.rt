//! How a table stores what stands at an index.

ghost use Rattle.std.specs.Prelude.{◌≡◌, Some};
ghost use Rattle.std.specs.Option.{option_map};

use crate::handle::{Handle, HandleKind};
use cm_types::ResourceId;

/// What stands at an index. The parts of a handle follow the tag at once, so that a slot takes 48
/// bytes where `Used(Handle)` would take 64.
#[derive(Clone, Copy)]
pub enum Slot {
    /// No handle; the index is free, and this is the one that was freed last before it.
    Free(u32),
    /// An owned handle.
    Owned {
        serial: u64,
        lends: u128,
        resource: ResourceId,
        rep: u32,
    },
    /// A borrow.
    Borrowed {
        call: u32,
        serial: u64,
        lends: u128,
        resource: ResourceId,
        rep: u32,
    },
}

impl Slot {
    ghost use Rattle.cm_handles.specs.Handles.{with_lends};
    ghost use Rattle.cm_handles.specs.Slots.{handle_in};

    /// The slot of a handle.
    pub fn of(handle: Handle) -> Slot
        ensures { handle_in result ≡ Some handle }
    {
        let Handle {
            resource,
            serial,
            lends,
            rep,
            kind,
        } = handle;
        match kind {
            HandleKind::Owned => Slot::Owned {
                serial,
                lends,
                resource,
                rep,
            },
            HandleKind::Borrowed { call } => Slot::Borrowed {
                call,
                serial,
                lends,
                resource,
                rep,
            },
        }
    }

    /// Writes how often the handle of the slot is lent, if it has one.
    pub fn set_lends(&mut self, new_lends: u128)
        ensures { handle_in self.new ≡ option_map (with_lends new_lends) (handle_in self.old) }
    {
        match self {
            Slot::Free(_) => {}
            Slot::Owned { lends, .. } => *lends = new_lends,
            Slot::Borrowed { lends, .. } => *lends = new_lends,
        }
    }

    /// The handle of the slot, if it has one.
    pub fn handle(&self) -> Option<Handle>
        ensures { result ≡ handle_in self.now }
    {
        match *self {
            Slot::Free(_) => None,
            Slot::Owned {
                serial,
                lends,
                resource,
                rep,
            } => Some(Handle {
                resource,
                serial,
                lends,
                rep,
                kind: HandleKind::Owned,
            }),
            Slot::Borrowed {
                call,
                serial,
                lends,
                resource,
                rep,
            } => Some(Handle {
                resource,
                serial,
                lends,
                rep,
                kind: HandleKind::Borrowed { call },
            }),
        }
    }
}
