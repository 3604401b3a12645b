//! What is to be seen of a play, and when.

/// What is looked at, and what is wanted there.
#[derive(Drop)]
pub enum Wanted {
    /// The event has this line.
    Event(String),
    /// These bytes stand in the memory of an instance, the first one at the address `at`.
    Memory {
        instance: u32,
        at: u32,
        bytes: Vec<u8>,
    },
    /// So many bytes from the address `at` on are printed. Any bytes are fine.
    Print {
        instance: u32,
        at: u32,
        size: u32,
    },
}

/// A moment of a play.
#[derive(Clone, Copy, Debug, PartialEq, Eq)]
pub enum Moment {
    /// Before the first drive.
    Start,
    /// Where the guest of this component has made so many moves, behind the event of the last.
    /// Of none: where the guest is first to make a move.
    Guest { component: usize, moves: usize },
    /// Where the drive of this place, from 0, is over.
    Drive(usize),
}

/// A check, with its line in the script, from 1, and its moment.
#[derive(Drop)]
pub struct Check {
    pub line: usize,
    pub moment: Moment,
    pub wanted: Wanted,
}
