//! The handles of a value, each as its type has it.

use cm_types::ResourceId;

/// A handle on its way (Explainer.md, "Handle Types").
#[derive(Clone, Copy)]
pub struct HandleValue {
    /// The serial number of the resource, which guests never see.
    pub serial: u64,
    /// The representation that the defining component chose.
    pub rep: u32,
    pub resource: ResourceId,
}

/// A handle of a value, as its type has it.
#[derive(Clone, Copy)]
pub enum HandleLeaf {
    /// To be owned.
    Owned(HandleValue),
    /// To be borrowed while the call runs.
    Borrowed(HandleValue),
}
