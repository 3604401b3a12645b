//! The links of a set.

/// The export that an import is linked to: its component, and its number there.
#[derive(Clone, Copy, PartialEq, Eq)]
pub struct Link {
    pub component: u32,
    pub export: usize,
}
