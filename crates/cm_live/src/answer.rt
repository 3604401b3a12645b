//! What a line is answered.

use cm_abi_model::Region;
use cm_machine::Event;

/// What adapters wrote: regions of one instance's memory.
#[derive(Drop)]
pub struct Written {
    /// The instance, from 0.
    pub instance: u32,
    /// Addresses and sizes in bytes, in the order in which room was made: none where no value was
    /// handed over, or one that takes no memory.
    pub regions: Vec<Region>,
}

/// What a statement is answered.
#[derive(Drop)]
pub enum Answer {
    /// A set was made: nothing has happened to it.
    Ready,
    /// What a root call or a move led to, and what adapters wrote before it.
    Told { written: Written, event: Event },
}
