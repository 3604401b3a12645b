//! Traps, as standard error tells of them.

use cm_hux_explain::{LastMove, Trap, explain_trap};
use std::fmt;
use std::io::Write;

/// Tells which move of which instance trapped, and the usual cause, in two lines. The components
/// have these names, in order. Where that fails, there is nobody left to tell.
pub fn tell_trap<M: fmt::Display, E: Write>(
    err: &mut E,
    names: &[String],
    trap: Trap,
    instance: u32,
    made: &M,
) {
    let component = match names.get(instance as usize) {
        Some(name) => name.as_str(),
        None => "?",
    };
    let last = LastMove {
        instance,
        component,
        made,
    };
    let _ = explain_trap(err, trap, last);
}
