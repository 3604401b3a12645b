//! The plan of a linked set.

/// The most components of a set (this project's own choice).
pub const MAX_COMPONENTS: usize = 16;

/// An import with the export that it is linked to. Both components are named by their places in the
/// set, and both items by their numbers in their component, all from 0.
#[derive(Clone, Copy, Debug, PartialEq, Eq)]
pub struct PlanLine {
    /// The component that imports.
    pub importer: usize,
    pub import: usize,
    /// The component that exports.
    pub provider: usize,
    pub export: usize,
}
