//! Who hears what is done.

use crate::answer::Answer;
use cm_machine::{Move, Set};
use cm_tool_script::Statement;

/// Who sees each move before it is made, and hears of each statement that was done, before its
/// answer is written.
pub trait Listener {
    /// The acting instance of this set is to make a move, which may be refused.
    fn making(&mut self, set: &Set, made: &Move);

    /// A statement was done, with this answer, while this instance acted, or none. The set is as it
    /// is behind it.
    fn hear(&mut self, set: &Set, actor: Option<u32>, statement: &Statement, answer: &Answer);
}
