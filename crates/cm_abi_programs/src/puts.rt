//! What has to be written of the values of a type.

ghost use Rattle.std.specs.Prelude.{◌≡◌, ◌+◌, IfOk};
ghost use Rattle.cm_abi_programs.specs.Puts.{moved_put};

use crate::places::place_behind;
use std::alloc::AllocError;
use std::sync::Arc;

/// Something to write of a value. Where it stands is counted in bytes from where the value begins,
/// alike where it is read and where it is written.
#[cycle(puts)]
#[derive(Drop)]
pub enum Put {
    /// So many bytes, which are written as they are.
    Run {
        at: u32,
        length: u32,
    },
    /// A bool, which is written as 0 or 1.
    Truth {
        at: u32,
    },
    /// Flags, of so many bytes and labels; no bit beside these is written.
    Flags {
        at: u32,
        bytes: u32,
        labels: usize,
    },
    /// A string.
    Text {
        at: u32,
    },
    /// A list of elements that take so many bytes, and the puts of each.
    List {
        at: u32,
        size: u32,
        puts: Arc<Vec<Put>>,
    },
    /// So many values in a row, so far one behind the other, and the puts of each.
    Each {
        at: u32,
        distance: u32,
        count: u32,
        puts: Arc<Vec<Put>>,
    },
    /// The number of a case, of so many bytes. What the case carries stands so far behind it, and
    /// these are the puts of what each case carries.
    Cases {
        at: u32,
        bytes: u32,
        offset: u32,
        cases: Arc<Vec<CasePuts>>,
    },
    /// A handle.
    Handle {
        at: u32,
    },
    /// A value with puts of its own.
    Part {
        at: u32,
        puts: Arc<Vec<Put>>,
    },
}

/// What has to be written of what a case carries; nothing where it carries nothing.
#[cycle(puts)]
#[derive(Drop)]
pub struct CasePuts {
    pub puts: Arc<Vec<Put>>,
}

impl Put {
    ghost use Rattle.cm_abi_programs.specs.CodedPuts.{put_of};

    /// The same put of a value that begins so far behind. `AllocError` comes where what is below it
    /// is shared too often to be counted, or where its place would take more than 32 bits, which
    /// none of a layout does.
    pub fn moved(&self, by: u32) -> Result<Put, AllocError>
        ensures { IfOk result (λ c. put_of c ≡ moved_put by (put_of self.now)) }
    {
        Ok(match self {
            Put::Run { at, length } => Put::Run {
                at: place_behind(by, *at)?,
                length: *length,
            },
            Put::Truth { at } => Put::Truth {
                at: place_behind(by, *at)?,
            },
            Put::Flags { at, bytes, labels } => Put::Flags {
                at: place_behind(by, *at)?,
                bytes: *bytes,
                labels: *labels,
            },
            Put::Text { at } => Put::Text {
                at: place_behind(by, *at)?,
            },
            Put::List { at, size, puts } => Put::List {
                at: place_behind(by, *at)?,
                size: *size,
                puts: puts.clone()?,
            },
            Put::Each {
                at,
                distance,
                count,
                puts,
            } => Put::Each {
                at: place_behind(by, *at)?,
                distance: *distance,
                count: *count,
                puts: puts.clone()?,
            },
            Put::Cases {
                at,
                bytes,
                offset,
                cases,
            } => Put::Cases {
                at: place_behind(by, *at)?,
                bytes: *bytes,
                offset: *offset,
                cases: cases.clone()?,
            },
            Put::Handle { at } => Put::Handle {
                at: place_behind(by, *at)?,
            },
            Put::Part { at, puts } => Put::Part {
                at: place_behind(by, *at)?,
                puts: puts.clone()?,
            },
        })
    }
}
