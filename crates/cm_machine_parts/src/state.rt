//! The state of a linked set that runs.

use crate::lends::Lends;
use crate::passing::Passing;
use crate::stack::Stack;
use cm_handles::Table;
use cm_machine_model::Memories;
use cm_machine_model::state::Place;

/// What changes as a set runs.
#[derive(Drop)]
pub struct State {
    /// Each instance's memory.
    pub memories: Memories,
    /// Each instance's handles.
    pub tables: Vec<Table>,
    /// Where each resource is, by its serial number.
    pub owners: Vec<Place>,
    /// The handles that are lent, the oldest first.
    pub lends: Lends,
    /// Whether a trap has closed the instance.
    pub closed: Vec<bool>,
    /// The calls that have not returned.
    pub stack: Stack,
    /// What is on its way in the call on top.
    pub passing: Passing,
}
