//! Who prints a play.

use cm_hux_files::{Fault, Stop};
use cm_machine::{Event, Move, Set};

/// Prints a play: each drive that begins, and then each move before it is made, and each event, in
/// turn. Its first fault ends the play.
pub trait Printer {
    /// A drive begins with the root call of this instance, which is this event.
    fn begin(&mut self, set: &Set, root: u32, event: &Event) -> Result<(), Stop>;

    /// The acting instance is about to make this move.
    fn before(&mut self, set: &Set, made: &Move) -> Result<(), Stop>;

    /// The move came to this event.
    fn after(&mut self, set: &Set, event: &Event) -> Result<(), Stop>;

    /// The script has this line printed.
    fn print(&mut self, line: &str) -> Result<(), Stop>;

    /// The drive is over, or has made as many moves as it may: what was told is to be seen.
    fn end(&mut self) -> Result<(), Stop>;

    /// A drive is refused, or has reached its limit, or a check has failed, which standard error
    /// has a line of.
    fn refused(&mut self, fault: &Fault) -> Result<(), Stop>;
}
