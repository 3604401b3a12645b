//! What has to be put into core values for the values of a type that core values pass.

ghost use Rattle.std.specs.Prelude.{◌≡◌, IfOk};
ghost use Rattle.cm_abi_programs.specs.SlotPuts.{moved_slot};

use crate::places::place_behind;
use crate::puts::Put;
use cm_layout::Leaf;
use std::alloc::AllocError;
use std::sync::Arc;

/// Something to put into core values for a value. Where it stands is counted in core values from
/// the first one of the value, alike where it is read and where it is put.
#[cycle(slots)]
#[derive(Drop)]
pub enum SlotPut {
    /// The number of a leaf.
    Leaf {
        at: u32,
        leaf: Leaf,
    },
    /// A string.
    Text {
        at: u32,
    },
    /// A list of elements that take so many bytes, and the puts of each.
    List {
        at: u32,
        size: u32,
        puts: Arc<Vec<Put>>,
    },
    /// So many values in a row, so far one behind the other, and the puts of each.
    Each {
        at: u32,
        distance: u32,
        count: u32,
        puts: Arc<Vec<SlotPut>>,
    },
    /// The number of a case, with what it carries behind it, and the puts of what each case
    /// carries.
    Cases {
        at: u32,
        cases: Arc<Vec<CaseSlotPuts>>,
    },
    /// A handle.
    Handle {
        at: u32,
    },
    /// A value with puts of its own.
    Part {
        at: u32,
        puts: Arc<Vec<SlotPut>>,
    },
}

/// What has to be put into core values for what a case carries; nothing where it carries nothing.
#[cycle(slots)]
#[derive(Drop)]
pub struct CaseSlotPuts {
    pub puts: Arc<Vec<SlotPut>>,
}

impl SlotPut {
    ghost use Rattle.cm_abi_programs.specs.CodedSlots.{slot_of};

    /// The same put for a value that begins so far behind. `AllocError` comes where what is below
    /// it is shared too often to be counted, or where its place would take more than 32 bits, which
    /// none of a layout does.
    pub fn moved(&self, by: u32) -> Result<SlotPut, AllocError>
        ensures { IfOk result (λ c. slot_of c ≡ moved_slot by (slot_of self.now)) }
    {
        Ok(match self {
            SlotPut::Leaf { at, leaf } => SlotPut::Leaf {
                at: place_behind(by, *at)?,
                leaf: *leaf,
            },
            SlotPut::Text { at } => SlotPut::Text {
                at: place_behind(by, *at)?,
            },
            SlotPut::List { at, size, puts } => SlotPut::List {
                at: place_behind(by, *at)?,
                size: *size,
                puts: puts.clone()?,
            },
            SlotPut::Each {
                at,
                distance,
                count,
                puts,
            } => SlotPut::Each {
                at: place_behind(by, *at)?,
                distance: *distance,
                count: *count,
                puts: puts.clone()?,
            },
            SlotPut::Cases { at, cases } => SlotPut::Cases {
                at: place_behind(by, *at)?,
                cases: cases.clone()?,
            },
            SlotPut::Handle { at } => SlotPut::Handle {
                at: place_behind(by, *at)?,
            },
            SlotPut::Part { at, puts } => SlotPut::Part {
                at: place_behind(by, *at)?,
                puts: puts.clone()?,
            },
        })
    }
}
