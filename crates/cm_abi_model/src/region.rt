//! Regions of a memory.

/// So many bytes of a memory, from an address on.
#[derive(Clone, Copy)]
pub struct Region {
    /// The address of its first byte.
    pub at: u32,
    /// How many bytes it has.
    pub size: u32,
}
