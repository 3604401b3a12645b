//! What a move led to, before its event is made.

use cm_machine_model::Trap;

/// What a move led to: its event but for the core values, which stand where the caller wants them.
/// Instances and functions count from 0.
#[derive(Clone, Copy)]
pub enum Outcome {
    /// The bytes are written.
    Done,
    /// The memory has grown: its pages before, or `None` where it has not.
    Grown(Option<u32>),
    /// The body of this core function of this instance begins, with the core values.
    Enter { instance: u32, func: u32 },
    /// This instance's allocator is called, with the core values.
    Realloc { instance: u32, func: u32 },
    /// This instance goes on where it called, with the core values.
    Resume { instance: u32 },
    /// This core function of this instance tidies up, with the core values.
    PostReturn { instance: u32, func: u32 },
    /// The destructor of a dropped resource begins, with its representation.
    Dtor { instance: u32, func: u32, rep: u32 },
    /// The stack is emptied, and the instances on it are closed.
    Trapped(Trap),
    /// The root has returned.
    Ended,
}
