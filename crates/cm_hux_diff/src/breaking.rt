//! What does not serve, where, and why.

/// Why what is offered does not serve.
#[derive(Clone, Copy, Debug, PartialEq, Eq)]
pub enum BreakReason {
    /// Nothing is offered under the name.
    Missing,
    /// Several are, so that nobody can link to them.
    Several,
    /// A function against an instance, or an item against one of another sort.
    OtherSort,
    /// A function or a type of another type.
    OtherType,
    /// A resource that stands for another one elsewhere.
    OtherResource,
}

/// What does not serve: the place, from 0, of the import or export that is wanted, and that of an
/// item of it, if it is one.
#[derive(Clone, Copy, Debug, PartialEq, Eq)]
pub struct Break {
    pub place: usize,
    pub item: Option<usize>,
    pub reason: BreakReason,
}
