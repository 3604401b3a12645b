//! Requests for memory.

/// What a lowering asks the receiver's `realloc` for (CanonicalABI.md, `realloc`).
#[derive(Clone, Copy, Debug, PartialEq, Eq)]
pub struct Request {
    /// Whether its old pointer is the answer to the request just before it; else it is 0.
    pub chained: bool,
    /// How many bytes stand at the old pointer; 0 where there is none.
    pub old_size: u32,
    /// The alignment of what is asked for, in bytes.
    pub align: u32,
    /// How many bytes are asked for.
    pub size: u32,
}
