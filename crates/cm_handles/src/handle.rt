//! What stands under an index of a handle table.

use cm_types::ResourceId;

/// A handle (CanonicalABI.md, "Resource State").
#[derive(Clone, Copy, Debug, PartialEq, Eq)]
pub struct Handle {
    /// The resource type.
    pub resource: ResourceId,
    /// The number of the resource in the set of instances, which guests never see.
    pub serial: u64,
    /// How many calls have borrowed the handle and have not ended yet.
    pub lends: u128,
    /// The representation: what stands for the resource in the component that defines it.
    pub rep: u32,
    /// Whether the handle owns the resource.
    pub kind: HandleKind,
}

/// Whether a handle owns its resource, or borrows it while a call runs.
#[derive(Clone, Copy, Debug, PartialEq, Eq)]
pub enum HandleKind {
    Owned,
    /// Borrowed by the call with this number.
    Borrowed { call: u32 },
}
